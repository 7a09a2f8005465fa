#![tactic(auto)]

ghost use Rattle.std.specs.Prelude.{◌≡◌, ◌+◌, ◌*◌, ◌^◌, ◌≤◌, ◌<◌, [], ◌∷◌, length};
ghost use Rattle.std.proofs.lemmas.List.Edits.{sets};
ghost use Rattle.bits.specs.Lent.{over};
ghost use Rattle.tone.specs.Table.{Instruction};
ghost use Rattle.tone.specs.Writing.{entry_bits};
ghost use Rattle.tone_elements.specs.Answers.{note_in, notes as notes_of};
ghost use Rattle.list_rules.specs.Sounding.{at_start, entry_cells, numbers};
ghost use Rattle.list_rules.specs.Playing.{step, pass, passes, play};
ghost use Rattle.list_count.specs.Bodies.{no_bodies, passes_of};
ghost use Rattle.list_count.specs.Counting.{entry_count};
ghost use Rattle.list_fill.specs.Filling.{patterns_in, end_in, PatternsAt, behind_pattern, entry_seen, state_of, Ready, Advanced, Begun, Headed};
ghost use Rattle.tone_elements.specs.Standing.{body_in, behind_in, BodyAt};

use bits::BitPlace;
use list_rules::Settings;

// A part's body: the place and the number of its instructions.
#[derive(Clone, Copy)]
pub struct Body {
    pub at: BitPlace,
    pub count: u32,
}

// How far filling has come: the settings, the fraction left over, the positions of the header that sounds and of the next
// instruction in its body, what the settings put in an entry's first number, the beats of their tempo and one over these,
// the place in the message, and the cells filled.
#[derive(Clone, Copy)]
pub struct Walk {
    pub settings: Settings,
    pub fraction: u32,
    pub header: u32,
    pub position: u32,
    pub base: u32,
    pub beats: u32,
    pub inverse: u64,
    pub at: BitPlace,
    pub cells: usize,
}

// Puts an entry's cells into the list, and answers where the next entry's go.
#[tactic(auto, using(crate::proofs::Stepping::puttings))]
fn put_cells(list: &mut [u32], at: usize, sound: u32, microseconds: u32, origin: u32) -> usize
    requires { at + entry_cells ≤ length list.old }
    ensures value { result ≡ at + entry_cells }
    ensures list_after { list.new ≡ sets list.old at (sound ∷ microseconds ∷ origin ∷ []) }
{
    list[at] = sound;
    list[at + 1] = microseconds;
    list[at + 2] = origin;
    at + list_rules::ENTRY_CELLS
}

impl Walk {
    // Nothing is filled, the settings are those of the start, and nothing is left over.
    fn start(at: BitPlace) -> Walk
        ensures { Ready result × (state_of result ≡ at_start) × (result.at ≡ at) × (result.cells ≡ 0) }
    {
        let settings = Settings::at_start();
        let beats = list_rules::beats(settings.tempo);
        Walk {
            settings,
            fraction: 0,
            header: 0,
            position: 0,
            base: list_rules::base(settings),
            beats,
            inverse: list_rules::inverse(beats),
            at,
            cells: 0,
        }
    }

    // A pass of a body that stands at a place, of a pattern with this loop value, begins: with loop 15 the fraction restarts.
    #[tactic(auto, using(crate::proofs::Stepping::beginnings))]
    fn begun(self, from: BitPlace, value: u32) -> Walk
        requires { Ready self }
        ensures { Begun value from self result }
    {
        let mut walk = self;
        walk.at = from;
        walk.position = 0;
        if value != 15 {
            return walk;
        }
        walk.fraction = 0;
        walk
    }

    // The next header is due.
    #[tactic(auto, using(crate::proofs::Stepping::beginnings))]
    fn next_header(self) -> Walk
        requires { Ready self × (self.header < 255) }
        ensures { Headed self result }
    {
        let mut walk = self;
        walk.header = self.header + 1;
        walk
    }

    // One instruction, that on top of a sight: a note or pause adds its entry and leaves its fraction, any other changes the
    // settings, and a tempo restarts the fraction. Most are notes: told first, the next place does not wait for a width. The
    // walk is copied and its fields are changed, since a new one laid out for each return is slower.
    fn step(self, x: u64, list: &mut [u32]) -> Walk
        requires ready { Ready self × (self.at.0 < 2 ^ 63) × (self.position < 255) }
        requires instruction { Instruction (entry_seen x) × (self.cells + entry_cells * note_in (entry_seen x) ≤ length list.old) }
        ensures { Advanced self.cells (step (state_of self) (entry_seen x)) (self.at.0 + length (entry_bits (entry_seen x))) list.old list.new result }
    {
        let mut walk = self;
        walk.position = self.position + 1;
        if x >> 61 == 1 {
            let units = list_rules::units(((x >> 54) % 8) as u32, ((x >> 52) % 4) as u32);
            let lasted = list_rules::duration_step(self.fraction, units, self.beats, self.inverse);
            let sound = ((x >> 57) % 16) as u32 * 1024 + self.base;
            let origin = self.header * 256 + self.position;
            let cells = put_cells(list, self.cells, sound, lasted.microseconds, origin);
            let next = BitPlace(self.at.0 + 12);
            walk.fraction = lasted.fraction;
            walk.at = next;
            walk.cells = cells;
            return walk;
        }
        let kind = (x >> 61) as u32;
        let n = tone_elements::width(kind);
        let payload = ((x << 3) >> (64 - n)) as u32;
        let after = self.settings.applied(kind * 65536 + payload);
        let next = BitPlace(self.at.0 + 3 + n as usize);
        walk.at = next;
        walk.settings = after;
        if kind == 4 {
            let beats = list_rules::beats(after.tempo);
            walk.fraction = 0;
            walk.beats = beats;
            walk.inverse = list_rules::inverse(beats);
            return walk;
        }
        walk.base = list_rules::base(after);
        walk
    }
}

// Fills in up to four instructions that stand at the walk's place. Each has at most 12 bits, so one sight of 57 holds
// them all.
fn fill_few(msg: &[u8], n: u32, list: &mut [u32], w: Walk) -> Walk
    requires ready { Ready w × (n ≤ 4) × (w.position + n ≤ 255) }
    requires body_at { BodyAt msg.now w.at.0 n (body_in msg.now w.at.0 n) (behind_in msg.now w.at.0 n) }
    requires n_in_bounds { w.cells + entry_cells * notes_of (body_in msg.now w.at.0 n) ≤ length list.old }
    ensures { Advanced w.cells (pass (state_of w) (body_in msg.now w.at.0 n)) (behind_in msg.now w.at.0 n) list.old list.new result }
{
    let at = w.at;
    let s = bits::sight(msg, at);
    let mut walk = w;
    for _ in 0..n {
        let here = walk.at.0;
        walk = walk.step(s << (here - at.0) as u32, list);
    }
    walk
}

// Fills in one pass of the `n` instructions that stand at the walk's place.
fn fill_pass(msg: &[u8], n: u32, list: &mut [u32], w: Walk) -> Walk
    requires ready { Ready w × (w.position + n ≤ 255) }
    requires body_at { BodyAt msg.now w.at.0 n (body_in msg.now w.at.0 n) (behind_in msg.now w.at.0 n) }
    requires n_in_bounds { w.cells + entry_cells * notes_of (body_in msg.now w.at.0 n) ≤ length list.old }
    ensures { Advanced w.cells (pass (state_of w) (body_in msg.now w.at.0 n)) (behind_in msg.now w.at.0 n) list.old list.new result }
{
    let mut walk = w;
    let mut left = n;
    while 0 < left {
        let k = tone_elements::turn(left);
        walk = fill_few(msg, k, list, walk);
        left -= k;
    }
    walk
}

// Fills in the passes of a loop value, of a body. The state carries on, but for the restarts of a loop 15.
fn fill_passes(msg: &[u8], body: Body, value: u32, list: &mut [u32], w: Walk) -> Walk
    requires ready { Ready w × (value ≤ 15) }
    requires body_at { BodyAt msg.now body.at.0 body.count (body_in msg.now body.at.0 body.count) (behind_in msg.now body.at.0 body.count) }
    requires value_in_bounds { w.cells + entry_cells * (notes_of (body_in msg.now body.at.0 body.count) * passes_of value) ≤ length list.old }
    ensures { Advanced w.cells (passes value (passes_of value) (state_of w) (body_in msg.now body.at.0 body.count)) (behind_in msg.now body.at.0 body.count) list.old list.new result }
{
    let times = list_count::passes_of(value);
    let mut walk = w;
    for _ in 0..times {
        walk = fill_pass(msg, body.count, list, walk.begun(body.at, value));
    }
    walk
}

// Where the next header stands: a recall has no instructions of its own.
fn behind_pattern(header: u32, next: BitPlace, reached: BitPlace) -> BitPlace
    ensures { result ≡ behind_pattern header next reached }
{
    if header % 256 == 0 { next } else { reached }
}

// Fills in the list of the `n` patterns that stand at a place.
pub fn fill_list(msg: &[u8], at: BitPlace, n: u32, list: &mut [u32])
    requires patterns_at { PatternsAt msg.now at.0 n (patterns_in msg.now at.0 n) (end_in msg.now at.0 n) × (n ≤ 255) }
    requires n_in_bounds { entry_cells * entry_count no_bodies (patterns_in msg.now at.0 n) ≤ length list.old }
    ensures { list.new ≡ over (numbers (play at_start no_bodies 0 (patterns_in msg.now at.0 n)).entries) list.old }
{
    let mut parts = [None; 4];
    let mut place = at;
    let mut walk = Walk::start(at);
    for _ in 0..n {
        let head = tone_elements::entry_at(msg, place);
        let header = head.cell;
        let id = (header / 4096 % 4) as usize;
        let own = Body {
            at: head.next,
            count: header % 256,
        };
        let part = list_count::part_after(parts[id], header, own);
        parts[id] = part;
        let value = header / 256 % 16;
        let Some(body) = part else {
            return;
        };
        walk = fill_passes(msg, body, value, list, walk);
        if value == 15 {
            return;
        }
        place = behind_pattern(header, head.next, walk.at);
        walk = walk.next_header();
    }
}
