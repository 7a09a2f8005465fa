#![tactic(auto)]

// Whether a tone is well formed that lies among other octets, told as fast as can be and with no word on what is wrong with it.
// The kinds of instructions come in an order that the processor cannot foresee, so none is told by a branch: the bits are turned
// round, so that the kind of the next one stands where a shift wants it, and faults are looked up.
ghost use Rattle.std.specs.Prelude.{◌≡◌, false, ◌+◌, ◌*◌, ◌/◌, ◌%◌, ◌^◌, ◌≤◌, ◌<◌, length, drop};
ghost use Rattle.std.specs.Int.Bits.{bit_or};
ghost use Rattle.bits.specs.Bits.{bits_of, place_after};
ghost use Rattle.bits.specs.Window.{Sight};
ghost use Rattle.tone.specs.Tone.{recallable};
ghost use Rattle.tone.specs.Reading.{typed as typedDue, front as frontDue, ending, tone_at};
ghost use Rattle.tone_elements.specs.Answers.{Within};
ghost use Rattle.tone_sound.specs.Turning.{turn, onward, wide_in, mark_in, clear, Mark, Marks as Table};
ghost use Rattle.tone_sound.specs.Answers.{Finds, ToldOf, Past, Stand, Gone, CommandOn, CommandSeen, PatternsPast, PatternsStand, Starts, SongPast, ToneFrom, octets_behind, octets_or_none};

use bits::{BitPlace, OctetCount, TwoSights};

// ---- instructions

// Instructions that were told: the bits, turned so that the next one's kind is in place; widths, added up in the lowest octet; and
// the marks that were met, put together.
#[derive(Clone, Copy)]
struct Told {
    bits: u64,
    widths: u64,
    marks: u8,
}

// A mark for each nine bits, by an id a line and the six bits behind it: 0 where they begin an instruction of the table, else 1.
// The last bit of a duration decides nothing.
const MARKS: [u8; 512] = *b"1111111111111111111111111111111111111111111111111111111111111111\
    0001000100010001000100010001000100010001000100010001111111111111\
    0000000000000000000000000000000000000000000000000000000000000000\
    0000000000000000000000000000000000000000000000001111111111111111\
    0000000000000000000000000000000000000000000000000000000000000000\
    0000000000000000000000000000000000000000000000000000000000000000\
    1111111111111111111111111111111111111111111111111111111111111111\
    1111111111111111111111111111111111111111111111111111111111111111";

// The marks in a row, for a caller who tells many: an array is laid out anew at each use.
#[derive(Clone, Copy)]
pub struct Marks {
    pub row: [u8; 512],
    pub ghost table: { Table row },
}

impl Marks {
    // Lays them out.
    pub fn new() -> Self
        ensures { Table result.row }
    {
        Marks { row: MARKS }
    }
}

// The bits turned to the left: those that leave on top come in below.
fn turned(x: u64, n: u32) -> u64
    requires { (1 ≤ n) × (n ≤ 63) }
    ensures { result ≡ turn n x }
{
    (x << n) + (x >> (64 - n))
}

// The packed widths, that of the kind in place in the lowest octet.
fn wide(y: u64) -> u64
    ensures { (result ≡ wide_in y) × (1 ≤ result % 64) × (result < 2 ^ 62) }
{
    0x3F3F_0708_0505_0C3Fu64 >> (8 * (y / 8 % 8))
}

// Tells one instruction more. Of the packed widths only the lowest octet is its own, and of a sum of few the lowest octet is the sum
// of theirs.
fn next(t: Told, marks: &Marks) -> Told
    requires { (t.widths ≤ 3 * 2 ^ 62) × Mark t.marks }
    ensures bits_value { (result.bits ≡ onward t.bits) × (result.widths ≡ t.widths + wide_in t.bits) × (result.marks ≡ bit_or t.marks (mark_in t.bits)) }
    ensures widths_bound_2 { (result.widths ≤ t.widths + 2 ^ 62) × Mark result.marks }
{
    let y = t.bits;
    let w = wide(y);
    let z = (turned(y, 3) % 512) as usize;
    Told {
        bits: turned(y, (w % 64) as u32),
        widths: t.widths + w,
        marks: t.marks | marks.row[z],
    }
}

// Nothing is told yet of a sight. The mark met before stays.
fn begin(x: u64, met: u8) -> Told
    ensures { (result.bits ≡ turn 6 x) × (result.widths ≡ 0) × (result.marks ≡ met) }
{
    Told {
        bits: turned(x, 6),
        widths: 0,
        marks: met,
    }
}

// Tells the four instructions on top of a sight.
fn four(x: u64, met: u8, marks: &Marks) -> Told
    requires { Mark met }
    ensures { ToldOf 4 x met result }
{
    next(next(next(next(begin(x, met), marks), marks), marks), marks)
}

// Tells the first `n` of them.
fn few(x: u64, n: u32, met: u8, marks: &Marks) -> Told
    requires { (n ≤ 4) × Mark met }
    ensures { ToldOf n x met result }
{
    let mut told = begin(x, met);
    for _ in 0..n {
        told = next(told, marks);
    }
    told
}

// ---- a body

// Goes over the `n` instructions at a place, if they stand there with the end octet's bits behind them: with those the bits that were
// looked at are there.
fn some(whole: &[u8], at: BitPlace, n: u32, marks: &Marks) -> Option<BitPlace>
    requires within { Within whole.now at.0 }
    requires n_bound { n ≤ 4 }
    ensures { Finds result (λ p. Past whole.now at.0 n p.0) (Stand whole.now at.0 n) }
{
    let told = few(bits::sight(whole, at), n, b'0', marks);
    let taken = (told.widths % 256) as usize;
    if bits::place_after(OctetCount(whole.len())).0 - at.0 < taken + 8 {
        return None;
    }
    if told.marks != b'0' {
        return None;
    }
    Some(BitPlace(at.0 + taken))
}

// Where one has come to among instructions: the place, and how many are left.
#[derive(Clone, Copy)]
struct Way {
    at: BitPlace,
    left: u32,
}

// One has come there, if no mark was met.
fn unmarked(met: u8, at: BitPlace, left: u32) -> Option<Way>
    ensures { Finds result (λ w. (w.at.0 ≡ at.0) × (w.left ≡ left) × (met ≡ clear)) (met ≡ clear) }
{
    if met != b'0' {
        return None;
    }
    Some(Way { at, left })
}

// Goes over `n` instructions, four at a time, away from the end. The 64 bits at the place and the 57 behind them are at hand, so that
// telling waits for no load: what is loaded is needed four instructions later. Marks are put together, and not looked at before the end:
// no turn asks for one. Until then four that are told wrongly may go on by 255 bits, and 121 must be there behind them: 48 octets have
// both.
fn at_hand(whole: &[u8], at: BitPlace, n: u32, marks: &Marks) -> Option<Way>
    requires within { Within whole.now at.0 }
    requires n_bound { n ≤ 255 }
    ensures { Finds result (λ w. Gone whole.now at.0 n w.at.0 w.left) (Stand whole.now at.0 n) }
{
    if whole.len() - bits::octets_before(at).0 < 48 {
        return Some(Way { at, left: n });
    }
    let mut seen = bits::two_sights(whole, at);
    let mut met: u8 = b'0';
    let mut place = at;
    let mut left = n;
    while 4 <= left {
        if whole.len() - bits::octets_before(place).0 < 48 {
            return unmarked(met, place, left);
        }
        let told = four(seen.first, met, marks);
        let first = bits::sight_behind(seen, (told.widths % 64) as u32);
        place = BitPlace(place.0 + (told.widths % 256) as usize);
        seen = TwoSights {
            first,
            second: bits::inner_sight(whole, BitPlace(place.0 + 64)),
        };
        met = told.marks;
        left -= 4;
    }
    let told = few(seen.first, left, met, marks);
    unmarked(
        told.marks,
        BitPlace(place.0 + (told.widths % 256) as usize),
        0,
    )
}

// Goes over the rest of them, up to four at a time.
fn by_fours(whole: &[u8], at: BitPlace, n: u32, marks: &Marks) -> Option<BitPlace>
    requires within { Within whole.now at.0 }
    requires n_bound { n ≤ 255 }
    ensures { Finds result (λ p. Past whole.now at.0 n p.0) (Stand whole.now at.0 n) }
{
    let mut place = at;
    let mut left = n;
    while 0 < left {
        let k = tone_elements::turn(left);
        place = some(whole, place, k, marks)?;
        left -= k;
    }
    Some(place)
}

// Goes over all of them.
fn body(whole: &[u8], at: BitPlace, n: u32, marks: &Marks) -> Option<BitPlace>
    requires within { Within whole.now at.0 }
    requires n_bound { n ≤ 255 }
    ensures { Finds result (λ p. Past whole.now at.0 n p.0) (Stand whole.now at.0 n) }
{
    let way = at_hand(whole, at, n, marks)?;
    by_fours(whole, way.at, way.left, marks)
}

// ---- the front

// Where the patterns of a tone begin, and how many there are.
#[derive(Clone, Copy)]
struct Start {
    at: BitPlace,
    count: u32,
}

// Patterns begin there, if any are announced.
fn announced(at: BitPlace, count: u32) -> Option<Start>
    ensures { Finds result (λ s. (s.at.0 ≡ at.0) × (s.count ≡ count) × (1 ≤ count)) (1 ≤ count) }
{
    if count == 0 {
        return None;
    }
    Some(Start { at, count })
}

// A command: UNICODE or not, and how many bits it has.
#[derive(Clone, Copy)]
struct Command {
    unicode: bool,
    bits: u32,
}

// The command on top of a sight, told at once: 00000010 for the length, 0100101 for the programming part, a filler bit, 0011101 for
// the sound part. With UNICODE the length is 00000011, and 0100010 and a filler bit stand ahead of the sound part.
fn called(x: u64) -> Option<Command>
    ensures { Finds result (λ c. CommandOn x c.unicode c.bits) (CommandSeen x) }
{
    if x >> 41 == 75037 {
        return Some(Command {
            unicode: false,
            bits: 23,
        });
    }
    if x >> 33 != 27599389 {
        return None;
    }
    Some(Command {
        unicode: true,
        bits: 31,
    })
}

// The song type, a basic song's title and the pattern count. A sight has the song type on top, and behind it the title's length or a
// temporary song's pattern count. A title's characters are told at once, and one look has the count behind them.
fn typed(whole: &[u8], at: BitPlace, x: u64, unicode: bool) -> Option<Start>
    requires within { Within whole.now at.0 }
    requires sight { Sight 26 (drop at.0 (bits_of whole.now)) x }
    requires at_bound { at.0 + 26 ≤ place_after (length whole.now) }
    ensures { Starts (typedDue unicode) whole.now at.0 result }
{
    let song = x >> 61;
    if song == 2 {
        return announced(BitPlace(at.0 + 11), ((x >> 53) % 256) as u32);
    }
    if song != 1 {
        return None;
    }
    let n = ((x >> 57) % 16) as u32;
    if !tone_elements::all_allowed(whole, BitPlace(at.0 + 7), unicode, n) {
        return None;
    }
    let behind = BitPlace(at.0 + 7 + tone_elements::span(unicode, n));
    if bits::place_after(OctetCount(whole.len())).0 < behind.0 + 8 {
        return None;
    }
    announced(BitPlace(behind.0 + 8), bits::look(whole, behind) / 65536)
}

// The front of a tone. `tone_elements::open` says more of it; it is not called here, so that it stays laid in where it is.
fn front(whole: &[u8], at: BitPlace) -> Option<Start>
    requires { Within whole.now at.0 }
    ensures { Starts frontDue whole.now at.0 result }
{
    if bits::place_after(OctetCount(whole.len())).0 < at.0 + 57 {
        return None;
    }
    let x = bits::inner_sight(whole, at);
    let said = called(x)?;
    let behind = BitPlace(at.0 + said.bits as usize);
    typed(whole, behind, x << said.bits, said.unicode)
}

// ---- the patterns

// Does a header recall nothing, or what is known?
fn may_stand(known: [bool; 4], cell: u32) -> bool
    ensures { result ≡ recallable known cell }
{
    if cell % 256 == 0 {
        let id = (cell / 4096 % 4) as usize;
        return known[id];
    }
    true
}

// Goes over the `n` patterns at a place.
fn patterns(whole: &[u8], at: BitPlace, n: u32, marks: &Marks) -> Option<BitPlace>
    requires { Within whole.now at.0 }
    ensures { Finds result (λ p. PatternsPast whole.now at.0 n p.0) (PatternsStand whole.now at.0 n) }
{
    let mut known = [false; 4];
    let mut place = at;
    for _ in 0..n {
        let header = tone_elements::header(whole, place).ok()?;
        if !may_stand(known, header.value) {
            return None;
        }
        place = body(whole, header.next, header.value % 256, marks)?;
        known[(header.value / 4096 % 4) as usize] = true;
    }
    Some(place)
}

// ---- the end, and the tone

// Goes over the front and the patterns of a tone that starts behind so many octets.
fn song(whole: &[u8], start: OctetCount, marks: &Marks) -> Option<BitPlace>
    requires { (start.0 ≤ length whole.now) × (length whole.now < 2 ^ 60) }
    ensures { Finds result (λ p. SongPast whole.now start.0 p.0) (ToneFrom whole.now start.0) }
{
    let opened = front(whole, bits::place_after(start))?;
    patterns(whole, opened.at, opened.count, marks)
}

// Behind how many octets filler and the end octet end that stand at a place.
fn end_behind(whole: &[u8], at: BitPlace) -> Option<OctetCount>
    requires { Within whole.now at.0 }
    ensures { result ≡ octets_behind (ending (bits_of whole.now) at.0) }
{
    let reached = bits::octets_to(at);
    if whole.len() <= reached.0 {
        return None;
    }
    let filler = bits::place_after(reached).0 - at.0;
    if bits::through_octet(whole, at) >> (56 - filler) != 0 {
        return None;
    }
    Some(OctetCount(reached.0 + 1))
}

// How many octets the tone has that starts behind so many, through its own end octet; none where no tone starts there.
pub fn tone_at(whole: &[u8], start: OctetCount, marks: &Marks) -> Option<OctetCount>
    requires { (start.0 ≤ length whole.now) × (length whole.now < 2 ^ 60) }
    ensures { result ≡ octets_or_none (tone_at whole.now start.0) }
{
    let place = song(whole, start, marks)?;
    let end = end_behind(whole, place)?;
    Some(OctetCount(end.0 - start.0))
}
