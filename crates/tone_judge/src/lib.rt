#![tactic(auto)]

ghost use Rattle.std.specs.Prelude.{◌≡◌, ◌+◌, ◌%◌, ◌≤◌};
ghost use Rattle.bits.specs.Bits.{bits_of};
ghost use Rattle.tone.specs.Tone.{none_known};
ghost use Rattle.tone.specs.Reading.{read_tone, front as frontDue, patterns_due, ending as endingDue, whole_tone};
ghost use Rattle.tone_elements.specs.Answers.{Within, seen_as, seen_of, opening_of, notes as notes_of};
ghost use Rattle.tone_elements.specs.Standing.{body_in, behind_in, BodyAt, PartAt};
ghost use Rattle.tone_judge.specs.Wishes.{no_cut, left_at, OwnOf, Owned};
ghost use Rattle.tone_judge.specs.Answers.{single_of, total_to, total_of, whole_of, judged_for, judged_of};

use bits::{BitPlace, Ground, OctetCount, Refusal};
use edit_change::Edit;
use list_count::Count;
use tone_elements::{Opening, Seen};

// A message and the place reached in it.
#[derive(Clone, Copy)]
pub struct Reader<'a> {
    pub msg: &'a [u8],
    pub at: BitPlace,
}

// An edit that a judgement has in mind, at an instruction of a pattern, both told by their positions.
#[derive(Clone, Copy)]
pub struct Wish {
    pub edit: Edit,
    pub pattern: usize,
    pub instruction: usize,
}

// Where a wish cuts a message: the place of the part's header, that of the instruction, that of what is left behind it, and
// the header itself.
#[derive(Clone, Copy)]
pub struct Cut {
    pub header: BitPlace,
    pub at: BitPlace,
    pub behind: BitPlace,
    pub cell: u32,
}

// What patterns come to: their entries in the tone table, those of their list and its return mark, as wished, where they
// end, and where the wish cuts them.
#[derive(Clone, Copy)]
pub struct Total {
    pub table: u32,
    pub list: u32,
    pub mark: u32,
    pub end: BitPlace,
    pub cut: Cut,
}

// A pattern that was judged by itself: its header, and the notes of its own instructions.
#[derive(Clone, Copy)]
pub struct Single {
    pub cell: u32,
    pub own: u32,
}

// A tone that was judged: song type, the place of the first pattern, the title's octets, the patterns, what they come to,
// UNICODE or not.
#[derive(Clone, Copy)]
pub struct Judged {
    pub song: u32,
    pub at: BitPlace,
    pub octets: OctetCount,
    pub patterns: u32,
    pub total: Total,
    pub unicode: bool,
}

// ---- an edit in mind

impl Cut {
    // Nothing is cut.
    fn none() -> Cut
        ensures { result ≡ no_cut }
    {
        Cut {
            header: BitPlace(0),
            at: BitPlace(0),
            behind: BitPlace(0),
            cell: 0,
        }
    }
}

// Instructions that were gone over: the place behind them, and how many of them are notes or pauses.
#[derive(Clone, Copy)]
pub struct Gone {
    pub at: BitPlace,
    pub notes: u32,
}

// Goes over the `n` instructions that stand at a place.
fn go_over(msg: &[u8], at: BitPlace, n: u32) -> Gone
    requires { BodyAt msg.now at.0 n (body_in msg.now at.0 n) (behind_in msg.now at.0 n) }
    ensures { (result.at.0 ≡ behind_in msg.now at.0 n) × (result.notes ≡ notes_of (body_in msg.now at.0 n)) }
{
    let mut place = at;
    let mut left = n;
    let mut notes: u32 = 0;
    while 0 < left {
        let e = tone_elements::entry_at(msg, place);
        notes += tone_elements::note_in(e.cell);
        place = e.next;
        left -= 1;
    }
    Gone { at: place, notes }
}

// A part's own notes, as wished, and where the wish has cut so far.
#[derive(Clone, Copy)]
pub struct Own {
    pub notes: u32,
    pub cut: Cut,
}

// The part of a header as it is wished, where no ground is against that.
fn cut_part(msg: &[u8], header: BitPlace, cell: u32, own: u32, wish: Wish) -> Own
    requires { PartAt msg.now header.0 cell own }
    ensures { OwnOf wish header.0 cell (body_in msg.now (header.0 + 17) (cell % 256)) result }
{
    let edit = wish.edit;
    let i = wish.instruction;
    if edit_change::ground(edit, i, (cell % 256) as usize).is_err() {
        return Own {
            notes: own,
            cut: Cut {
                header,
                at: header,
                behind: header,
                cell,
            },
        };
    }
    let ahead = go_over(msg, BitPlace(header.0 + 17), i as u32);
    let at = ahead.at;
    let taken = go_over(msg, at, edit_change::removed(edit));
    let behind = taken.at;
    Own {
        notes: own + edit_change::carried_notes(edit) - taken.notes,
        cut: Cut {
            header,
            at,
            behind,
            cell,
        },
    }
}

// The part of a header that was judged: where it is the one named, as wished.
fn own_part(
    msg: &[u8],
    named: bool,
    header: BitPlace,
    cell: u32,
    own: u32,
    wish: Wish,
    cut: Cut,
) -> Own
    requires { PartAt msg.now header.0 cell own }
    ensures { Owned named wish header.0 cell (body_in msg.now (header.0 + 17) (cell % 256)) cut result }
{
    if named {
        return cut_part(msg, header, cell, own, wish);
    }
    Own { notes: own, cut }
}

// How many of `n` patterns are left, it among them, where the one at position `k` comes; 0 where none does.
fn left_at(n: u32, k: usize) -> u32
    ensures { result ≡ left_at n k }
{
    if k < n as usize { n - k as u32 } else { 0 }
}

// ---- judging

// Judges the pattern at a place: its header, whatever part that recalls, and its instructions.
fn pattern(msg: &[u8], at: BitPlace) -> Result<Seen<Single>, Refusal>
    requires { Within msg.now at.0 }
    ensures { result ≡ single_of (bits_of msg.now) at.0 }
{
    let header = tone_elements::header(msg, at)?;
    let body = tone_elements::body(msg, header.next, header.value % 256)?;
    Ok(Seen {
        value: Single {
            cell: header.value,
            own: body.value,
        },
        next: body.next,
    })
}

impl Total {
    // What patterns come to that were counted up to a place.
    fn up_to(end: BitPlace, table: u32, count: Count, cut: Cut) -> Total
        ensures { result ≡ total_to end table count cut }
    {
        Total {
            table,
            list: count.entries,
            mark: count.mark,
            end,
            cut,
        }
    }
}

// Judges `n` patterns and counts what they come to. The four parts, A to D, are kept as they are counted: a recall of one that
// is not yet defined is refused at its payload, behind the three bits of its id.
fn patterns(msg: &[u8], at: BitPlace, n: u32, wish: Wish) -> Result<Seen<Total>, Refusal>
    requires within { Within msg.now at.0 }
    requires n_bound { n ≤ 255 }
    ensures { result ≡ seen_as (total_of wish at.0) (patterns_due n none_known (bits_of msg.now) at.0) }
{
    let named = left_at(n, wish.pattern);
    let mut parts = [None; 4];
    let mut place = at;
    let mut left = n;
    let mut table: u32 = 0;
    let mut count = Count::none();
    let mut cut = Cut::none();
    while 0 < left {
        let single = pattern(msg, place)?;
        let cell = single.value.cell;
        let wished = own_part(msg, left == named, place, cell, single.value.own, wish, cut);
        let id = (cell / 4096 % 4) as usize;
        let part = list_count::part_after(parts[id], cell, wished.notes);
        // A recall's part stays as it is: a store that is not needed makes the next read of it wait.
        if cell % 256 != 0 {
            parts[id] = part;
        }
        let Some(notes) = part else {
            return Err(Ground::NoRecall.at(BitPlace(place.0 + 3)));
        };
        count = count.with(notes, cell / 256 % 16);
        table += 1 + cell % 256;
        cut = wished.cut;
        place = single.next;
        left -= 1;
    }
    Ok(Seen {
        value: Total::up_to(place, table, count, cut),
        next: place,
    })
}

// ---- a reader on its way

// A reader at the start of a message.
pub fn start<'a>(msg: &'a [u8]) -> Reader<'a>
    ensures { (result.msg ≡ msg.entry) × (result.at.0 ≡ 0) }
{
    Reader {
        msg,
        at: BitPlace(0),
    }
}

// The reader of the same message behind what was judged, at the place reached.
pub fn behind<'a>(r: Reader<'a>, at: BitPlace) -> Reader<'a>
    ensures { (result.msg ≡ r.entry.msg) × (result.at ≡ at) }
{
    Reader { msg: r.msg, at }
}

// The front that stands at a reader's place.
pub fn front<'a>(r: Reader<'a>) -> Result<Seen<Opening>, Refusal>
    requires { Within r.msg.now r.at.0 }
    ensures { result ≡ opening_of (frontDue (bits_of r.entry.msg.now) r.entry.at.0) }
{
    tone_elements::open(r.msg, r.at)
}

// The `n` patterns that stand there, and what they come to.
pub fn patterns_at<'a>(r: Reader<'a>, n: u32, wish: Wish) -> Result<Seen<Total>, Refusal>
    requires { Within r.msg.now r.at.0 × (n ≤ 255) }
    ensures { result ≡ seen_as (total_of wish r.entry.at.0) (patterns_due n none_known (bits_of r.entry.msg.now) r.entry.at.0) }
{
    patterns(r.msg, r.at, n, wish)
}

// The filler and the end octet that stand there.
pub fn ending<'a>(r: Reader<'a>) -> Result<Seen<u32>, Refusal>
    requires { Within r.msg.now r.at.0 }
    ensures { result ≡ seen_of (endingDue (bits_of r.entry.msg.now) r.entry.at.0) }
{
    tone_elements::ending(r.msg, r.at)
}

// Judges the tone that stands at a reader's place, with an edit in mind: its front, its patterns and its end, the reader
// behind each in turn. What follows is not looked at.
pub fn judge_at<'a>(r: Reader<'a>, wish: Wish) -> Result<Seen<Judged>, Refusal>
    requires { Within r.msg.now r.at.0 }
    ensures { result ≡ whole_of wish r.entry.at.0 (whole_tone (bits_of r.entry.msg.now) r.entry.at.0) }
{
    let opening = front(r)?;
    let front = opening.value;
    let tally = patterns_at(behind(r, opening.next), front.count, wish)?;
    let end = ending(behind(r, tally.next))?;
    Ok(Seen {
        value: Judged {
            song: front.song,
            at: opening.next,
            octets: front.octets,
            patterns: front.count,
            total: tally.value,
            unicode: front.unicode,
        },
        next: end.next,
    })
}

// Judges the tone at the start of a message.
pub fn judge_start(msg: &[u8], wish: Wish) -> Result<Seen<Judged>, Refusal>
    requires { Within msg.now 0 }
    ensures { result ≡ whole_of wish 0 (whole_tone (bits_of msg.now) 0) }
{
    judge_at(start(msg), wish)
}

// ---- a message

// Judges a whole message with an edit in mind, and changes nothing.
pub fn judge_for(msg: &[u8], wish: Wish) -> Result<Judged, Refusal>
    ensures { result ≡ judged_for wish (read_tone msg.now) }
{
    if 4096 < msg.len() {
        return Err(Ground::TooLong.into());
    }
    let whole = judge_start(msg, wish)?;
    if whole.next.0 != bits::place_after(OctetCount(msg.len())).0 {
        return Err(Ground::AfterEnd.at(whole.next));
    }
    Ok(whole.value)
}

// Judges a whole message with no edit in mind: no message has a pattern at position 255.
pub fn judge(msg: &[u8]) -> Result<Judged, Refusal>
    ensures { result ≡ judged_of (read_tone msg.now) }
{
    let wish = Wish {
        edit: Edit::Delete,
        pattern: 255,
        instruction: 0,
    };
    judge_for(msg, wish)
}
