#![tactic(auto)]

ghost use Rattle.std.specs.Prelude.{◌≡◌, ℕ, ◌+◌, ◌-◌, ◌*◌, ◌/◌, ◌%◌, ◌^◌, ◌≤◌, ◌<◌, length, drop, eqb, Bool, List};
ghost use Rattle.std.specs.Int.Bits.{bit_and, bit_xor};
ghost use Rattle.bits.specs.Bits.{bits_of, place_after};
ghost use Rattle.bits.specs.Refusals.{number_of};
ghost use Rattle.bits.specs.Window.{Look, fills};
ghost use Rattle.tone.specs.Table.{width as width_of, allowed as allowedOf};
ghost use Rattle.tone.specs.Tone.{per_character, character_bits, allowed_character};
ghost use Rattle.tone.specs.Reading.{element, any_of, filled, sound_part, parts as partsDue, command, text as textDue, title as titleDue, titled as titledDue, front};
ghost use Rattle.tone.specs.Reading.{header_due, instruction_due, body_due, ending as endingDue};
ghost use Rattle.tone_elements.specs.Answers.{Within, all_known, seen_as, seen_of, seen_or_fault, note_in, notes as notes_of, characters_of, opening_of, SomeEntry, EntryAt, Passed};
ghost use Rattle.tone_elements.specs.Answers.{Sure, Complete, BothAllowed, AllowedAt};

use bits::{BitPlace, Ground, OctetCount, Refusal};

// What was read at a place, and the place behind it.
#[derive(Clone, Copy)]
pub struct Seen<T> {
    pub value: T,
    pub next: BitPlace,
}

// The front of a message: song type, the title's octets, the pattern count, UNICODE or not.
#[derive(Clone, Copy)]
pub struct Opening {
    pub song: u32,
    pub octets: OctetCount,
    pub count: u32,
    pub unicode: bool,
}

// A refusal by any number, and its place.
#[derive(Clone, Copy, PartialEq, Eq)]
pub struct Fault {
    pub number: u32,
    pub place: BitPlace,
}

impl From<Refusal> for Fault {
    ghost from_gives = { λ refusal r. r ≡ record { number = number_of refusal.why; place = refusal.place } };

    fn from(refusal: Refusal) -> Fault {
        Fault {
            number: refusal.why.number(),
            place: refusal.place,
        }
    }
}

// An entry that stands at a place, and the place behind it.
#[derive(Clone, Copy)]
pub struct Cell {
    pub cell: u32,
    pub next: BitPlace,
}

// How many bits are left from a place on.
fn left(msg: &[u8], at: BitPlace) -> usize
    requires { Within msg.now at.0 }
    ensures { result + at.0 ≡ place_after (length msg.now) }
{
    bits::place_after(OctetCount(msg.len())).0 - at.0
}

// An element of `w` bits in which any code is allowed.
pub fn any(msg: &[u8], at: BitPlace, w: u32) -> Result<Seen<u32>, Refusal>
    requires within { Within msg.now at.0 }
    requires le_w { (1 ≤ w) × (w ≤ 24) }
    ensures { result ≡ seen_of (any_of w (bits_of msg.now) at.0) }
{
    if left(msg, at) < w as usize {
        return Err(Ground::CutShort.at(at));
    }
    let x = bits::look(msg, at);
    Ok(Seen {
        value: bits::part(x, 0, w),
        next: BitPlace(at.0 + w as usize),
    })
}

// An element of `w` bits in which one code is due, and any other is refused by the number that the caller gives, whether or not
// one of the rules has it.
#[tactic(auto, using(crate::proofs::Openings::faults))]
pub fn due(msg: &[u8], at: BitPlace, w: u32, code: u32, number: u32) -> Result<Seen<u32>, Fault>
    requires within { Within msg.now at.0 }
    requires le_w { (1 ≤ w) × (w ≤ 24) }
    ensures { result ≡ seen_or_fault (element w (eqb code) number (bits_of msg.now) at.0) }
{
    let seen = any(msg, at, w)?;
    if seen.value == code {
        return Ok(seen);
    }
    Err(Fault { number, place: at })
}

// The same, refused on a ground of the rules.
fn required(msg: &[u8], at: BitPlace, w: u32, code: u32, why: Ground) -> Result<Seen<u32>, Refusal>
    requires within { Within msg.now at.0 }
    requires le_w { (1 ≤ w) × (w ≤ 24) }
    ensures { result ≡ seen_of (element w (eqb code) (number_of why) (bits_of msg.now) at.0) }
{
    let seen = any(msg, at, w)?;
    if seen.value == code {
        return Ok(seen);
    }
    Err(why.at(at))
}

// How many payload bits a kind has: 14, 9, 2, 2, 5, 4, four bits of one number for each, kind 0 lowest. An array would be
// laid out anew at each call.
pub fn width(kind: u32) -> u32
    requires { kind ≤ 5 }
    ensures { (result ≡ width_of kind) × (result ≤ 14) }
{
    (0x45229Eu32 >> (4 * kind)) % 16
}

// Is the payload a code that the instruction table has?
pub fn allowed(kind: u32, payload: u32) -> bool
    ensures { result ≡ allowedOf kind payload }
{
    if kind == 1 {
        if payload / 32 <= 12 {
            return payload / 4 % 8 <= 5;
        }
        return false;
    }
    if kind == 3 {
        return payload <= 2;
    }
    true
}

// The rest of an instruction, `w` bits behind its id. `x` was seen at its place.
fn payload(msg: &[u8], at: BitPlace, x: u32, kind: u32, w: u32) -> Result<Seen<u32>, Refusal>
    requires within { Within msg.now at.0 }
    requires look { Look (drop at.0 (bits_of msg.now)) x }
    requires at_bound { (at.0 + 3 ≤ place_after (length msg.now)) × (kind ≡ x / 2097152) × (1 ≤ kind) × (kind ≤ 5) }
    requires w_value { (w ≡ width_of kind) × (w ≤ 14) }
    ensures { result ≡ seen_of (instruction_due (bits_of msg.now) at.0) }
{
    let rest = BitPlace(at.0 + 3);
    if left(msg, at) < 3 + w as usize {
        return Err(Ground::CutShort.at(rest));
    }
    let code = bits::part(x, 3, w);
    if allowed(kind, code) {
        return Ok(Seen {
            value: kind * 65536 + code,
            next: BitPlace(at.0 + 3 + w as usize),
        });
    }
    Err(Ground::Code.at(rest))
}

// An instruction: its id, and then the rest of it. Most are notes: told first, the next place does not wait for a width.
pub fn instruction(msg: &[u8], at: BitPlace) -> Result<Seen<u32>, Refusal>
    requires { Within msg.now at.0 }
    ensures { result ≡ seen_of (instruction_due (bits_of msg.now) at.0) }
{
    if left(msg, at) < 3 {
        return Err(Ground::CutShort.at(at));
    }
    let x = bits::look(msg, at);
    let kind = x / 2097152;
    if kind == 1 {
        return payload(msg, at, x, 1, 9);
    }
    if kind == 0 {
        return Err(Ground::Code.at(at));
    }
    if 5 < kind {
        return Err(Ground::Code.at(at));
    }
    payload(msg, at, x, kind, width(kind))
}

// A header: its id, and then the rest of it. Whether it may recall what it recalls is not told here.
pub fn header(msg: &[u8], at: BitPlace) -> Result<Seen<u32>, Refusal>
    requires { Within msg.now at.0 }
    ensures { result ≡ seen_of (header_due all_known (bits_of msg.now) at.0) }
{
    let rest = left(msg, at);
    if rest < 3 {
        return Err(Ground::CutShort.at(at));
    }
    let x = bits::look(msg, at);
    if x / 2097152 != 0 {
        return Err(Ground::Code.at(at));
    }
    if rest < 17 {
        return Err(Ground::CutShort.at(BitPlace(at.0 + 3)));
    }
    Ok(Seen {
        value: x / 128,
        next: BitPlace(at.0 + 17),
    })
}

// ---- the patterns

// 1 for a note or pause, 0 for any other instruction.
pub fn note_in(cell: u32) -> u32
    ensures { (result ≡ note_in cell) × (result ≤ 1) }
{
    if cell / 65536 == 1 { 1 } else { 0 }
}

// `n` instructions one by one, with `c` notes so far. The number is how many notes and pauses there are then.
fn singly(msg: &[u8], at: BitPlace, n: u32, c: u32) -> Result<Seen<u32>, Refusal>
    requires within { Within msg.now at.0 }
    requires n_bound { c + n ≤ 255 }
    ensures { result ≡ seen_as (λ b. c + notes_of b) (body_due n (bits_of msg.now) at.0) }
{
    let mut place = at;
    let mut notes = c;
    for _ in 0..n {
        let seen = instruction(msg, place)?;
        notes += note_in(seen.value);
        place = seen.next;
    }
    Ok(Seen {
        value: notes,
        next: place,
    })
}

// How many of the instructions to come one sight holds.
pub fn turn(more: u32) -> u32
    requires { 0 < more }
    ensures { (1 ≤ result) × (result ≤ more) × (result ≤ 4) }
{
    if more < 4 { more } else { 4 }
}

// `n` instructions. The number is how many of them are notes or pauses. Four are told at a turn, from one load and without a
// branch for their kinds. Where one of them is faulty, or where less than the end octet is left behind them, those to come
// are judged one by one.
pub fn body(msg: &[u8], at: BitPlace, n: u32) -> Result<Seen<u32>, Refusal>
    requires within { Within msg.now at.0 }
    requires n_bound { n ≤ 255 }
    ensures { result ≡ seen_as notes_of (body_due n (bits_of msg.now) at.0) }
{
    let mut place = at;
    let mut more = n;
    let mut notes: u32 = 0;
    while 0 < more {
        let k = turn(more);
        let told = tone_tell::tell(bits::sight(msg, place), k);
        if told.faults != 0 {
            return singly(msg, place, more, notes);
        }
        if left(msg, place) < told.bits as usize + 8 {
            return singly(msg, place, more, notes);
        }
        place = BitPlace(place.0 + told.bits as usize);
        notes += told.notes;
        more -= k;
    }
    Ok(Seen {
        value: notes,
        next: place,
    })
}

// ---- the front

// A command part of seven bits, and the filler bit behind it.
fn filled_part(msg: &[u8], at: BitPlace, code: u32) -> Result<Seen<u32>, Refusal>
    requires { Within msg.now at.0 }
    ensures { result ≡ seen_of (filled code (bits_of msg.now) at.0) }
{
    let part = required(msg, at, 7, code, Ground::Command)?;
    required(msg, part.next, 1, 0, Ground::Filler)
}

// The sound part, with no filler behind it.
fn sound_part(msg: &[u8], at: BitPlace, unicode: bool) -> Result<Seen<bool>, Refusal>
    requires { Within msg.now at.0 }
    ensures { result ≡ seen_of (sound_part unicode (bits_of msg.now) at.0) }
{
    let part = required(msg, at, 7, 29, Ground::Command)?;
    Ok(Seen {
        value: unicode,
        next: part.next,
    })
}

// The parts that a command length of 2 or 3 announces: UNICODE or not.
fn parts(msg: &[u8], at: BitPlace, length: u32) -> Result<Seen<bool>, Refusal>
    requires { Within msg.now at.0 }
    ensures { result ≡ seen_of (partsDue length (bits_of msg.now) at.0) }
{
    let programming = filled_part(msg, at, 37)?;
    if length != 3 {
        return sound_part(msg, programming.next, false);
    }
    let unicode = filled_part(msg, programming.next, 34)?;
    sound_part(msg, unicode.next, true)
}

// The command, element by element.
fn spelled(msg: &[u8], at: BitPlace) -> Result<Seen<bool>, Refusal>
    requires { Within msg.now at.0 }
    ensures { result ≡ seen_of (command (bits_of msg.now) at.0) }
{
    let length = any(msg, at, 8)?;
    if length.value == 2 {
        return parts(msg, length.next, length.value);
    }
    if length.value == 3 {
        return parts(msg, length.next, length.value);
    }
    Err(Ground::Command.at(at))
}

// The command up to the sound part: UNICODE or not. Without UNICODE it is 23 bits that can be told at once: 00000010 for the
// length, 0100101 for the programming part, a filler bit, 0011101 for the sound part.
pub fn announced(msg: &[u8], at: BitPlace) -> Result<Seen<bool>, Refusal>
    requires { Within msg.now at.0 }
    ensures { result ≡ seen_of (command (bits_of msg.now) at.0) }
{
    if left(msg, at) < 23 {
        return spelled(msg, at);
    }
    if bits::look(msg, at) / 2 == 75037 {
        return Ok(Seen {
            value: false,
            next: BitPlace(at.0 + 23),
        });
    }
    spelled(msg, at)
}

// The bits of a title's character.
fn character_bits(unicode: bool) -> u32
    ensures { (result ≡ character_bits unicode) × (result ≤ 16) × (1 ≤ result) }
{
    if unicode { 16 } else { 8 }
}

// The octets of a title's character.
pub fn character_octets(unicode: bool) -> OctetCount
    ensures { (result.0 ≡ per_character unicode) × (result.0 ≤ 2) × (1 ≤ result.0) }
{
    if unicode {
        OctetCount(2)
    } else {
        OctetCount(1)
    }
}

// How many characters a title of so many octets has.
pub fn characters_in(octets: OctetCount, unicode: bool) -> u32
    requires { octets.0 < 2 ^ 32 }
    ensures { result ≡ octets.0 / per_character unicode }
{
    octets.0 as u32 / character_octets(unicode).0 as u32
}

// Is it a character that a title may have?
fn allowed_character(c: u32) -> bool
    ensures { result ≡ allowed_character c }
{
    if c <= 31 {
        return false;
    }
    if 127 <= c {
        return 159 < c;
    }
    true
}

// A title's character, judged once it is complete.
fn character(msg: &[u8], at: BitPlace, unicode: bool) -> Result<Seen<u32>, Refusal>
    requires { Within msg.now at.0 }
    ensures { result ≡ seen_of (element (character_bits unicode) allowed_character 21 (bits_of msg.now) at.0) }
{
    let seen = any(msg, at, character_bits(unicode))?;
    if allowed_character(seen.value) {
        return Ok(seen);
    }
    Err(Ground::Character.at(at))
}

// `n` characters one by one. The number is how many octets they are.
pub fn lettered(
    msg: &[u8],
    at: BitPlace,
    unicode: bool,
    n: u32,
) -> Result<Seen<OctetCount>, Refusal>
    requires within { Within msg.now at.0 }
    requires n_bound { n ≤ 15 }
    ensures { result ≡ characters_of (textDue unicode n (bits_of msg.now) at.0) }
{
    let mut place = at;
    for _ in 0..n {
        place = character(msg, place, unicode)?.next;
    }
    Ok(Seen {
        value: OctetCount(n as usize * character_octets(unicode).0),
        next: place,
    })
}

// Lanes of a number, told at once: the highest bit of each is set where it has a bit of `some` and differs from `other`.
// `low` has the bits of each lane but the highest.
fn lanes_fine(x: u64, low: u64, some: u64, other: u64) -> u64
    requires { low < 2 ^ 63 }
    ensures { result ≡ bit_and (fills low (bit_and x some)) (fills low (bit_xor x other)) }
{
    let a = x & some;
    let b = x ^ other;
    (((a & low) + low) | a) & (((b & low) + low) | b)
}

// Is each character allowed that two numbers hold, eight of an octet, or four of two under UNICODE? The characters without a
// high octet and without either bit of 60 hexadecimal are 0 to 31 and 128 to 159. Beside them 127 is refused.
fn both_allowed(x: u64, y: u64, unicode: bool) -> bool
    ensures { Sure result (BothAllowed (character_bits unicode) x y) × Complete result (BothAllowed (character_bits unicode) x y) }
{
    if unicode {
        let low = 0x7FFF_7FFF_7FFF_7FFF;
        let some = 0xFF60_FF60_FF60_FF60;
        let other = 0x007F_007F_007F_007F;
        let high = 0x8000_8000_8000_8000;
        return lanes_fine(x, low, some, other) & lanes_fine(y, low, some, other) & high == high;
    }
    let low = 0x7F7F_7F7F_7F7F_7F7F;
    let some = 0x6060_6060_6060_6060;
    let high = 0x8080_8080_8080_8080;
    lanes_fine(x, low, some, low) & lanes_fine(y, low, some, low) & high == high
}

// The bits of so many characters.
pub fn span(unicode: bool, n: u32) -> usize
    requires { n ≤ 15 }
    ensures { (result ≡ n * character_bits unicode) × (result ≤ 240) }
{
    if unicode {
        16 * n as usize
    } else {
        8 * n as usize
    }
}

// Are `n` characters allowed, which one sight holds? Below them it is filled with ones: a character of ones is allowed.
fn few_allowed(msg: &[u8], at: BitPlace, unicode: bool, n: u32) -> bool
    requires within { Within msg.now at.0 }
    requires n_bound { (n ≤ 15) × (n * character_bits unicode ≤ 56) × (at.0 + n * character_bits unicode ≤ place_after (length msg.now)) }
    ensures { Sure result (AllowedAt msg.now at.0 unicode n) × Complete result (AllowedAt msg.now at.0 unicode n) }
{
    let below = 0xFFFF_FFFF_FFFF_FFFFu64 >> span(unicode, n);
    let x = bits::sight(msg, at) | below;
    both_allowed(x, x, unicode)
}

// Are `n` characters of at least 64 bits allowed, which are there? The first 64 bits and the last hold them all, and where
// there are more than 128 also the second and the last but one.
fn many_allowed(msg: &[u8], at: BitPlace, unicode: bool, n: u32) -> bool
    requires within { Within msg.now at.0 }
    requires n_bound { (n ≤ 15) × (64 ≤ n * character_bits unicode) × (at.0 + n * character_bits unicode ≤ place_after (length msg.now)) }
    ensures { Sure result (AllowedAt msg.now at.0 unicode n) × Complete result (AllowedAt msg.now at.0 unicode n) }
{
    let all = span(unicode, n);
    let first = bits::full_sight(msg, at);
    let last = bits::full_sight(msg, BitPlace(at.0 + (all - 64)));
    if both_allowed(first, last, unicode) {
        if all <= 128 {
            return true;
        }
        let second = bits::full_sight(msg, BitPlace(at.0 + 64));
        let third = bits::full_sight(msg, BitPlace(at.0 + (all - 128)));
        return both_allowed(second, third, unicode);
    }
    false
}

// Are `n` characters there and allowed?
pub fn all_allowed(msg: &[u8], at: BitPlace, unicode: bool, n: u32) -> bool
    requires within { Within msg.now at.0 }
    requires n_bound { n ≤ 15 }
    ensures { Sure result (AllowedAt msg.now at.0 unicode n) × Complete result (AllowedAt msg.now at.0 unicode n) }
{
    if n == 0 {
        return true;
    }
    let all = span(unicode, n);
    if left(msg, at) < all {
        return false;
    }
    if all < 64 {
        return few_allowed(msg, at, unicode, n);
    }
    many_allowed(msg, at, unicode, n)
}

// `n` characters. Most titles are told a few characters at a time.
fn text(msg: &[u8], at: BitPlace, unicode: bool, n: u32) -> Result<Seen<OctetCount>, Refusal>
    requires within { Within msg.now at.0 }
    requires n_bound { n ≤ 15 }
    ensures { result ≡ characters_of (textDue unicode n (bits_of msg.now) at.0) }
{
    if all_allowed(msg, at, unicode, n) {
        return Ok(Seen {
            value: OctetCount(n as usize * character_octets(unicode).0),
            next: BitPlace(at.0 + span(unicode, n)),
        });
    }
    lettered(msg, at, unicode, n)
}

// The title of a basic song; a temporary one has none.
fn title(msg: &[u8], at: BitPlace, song: u32, unicode: bool) -> Result<Seen<OctetCount>, Refusal>
    requires { Within msg.now at.0 }
    ensures { result ≡ characters_of (titleDue song unicode (bits_of msg.now) at.0) }
{
    if song != 1 {
        return Ok(Seen {
            value: OctetCount(0),
            next: at,
        });
    }
    let length = any(msg, at, 4)?;
    text(msg, length.next, unicode, length.value)
}

// The title and the pattern count behind it.
fn titled(msg: &[u8], at: BitPlace, song: u32, unicode: bool) -> Result<Seen<Opening>, Refusal>
    requires { Within msg.now at.0 }
    ensures { result ≡ opening_of (titledDue song unicode (bits_of msg.now) at.0) }
{
    let title = title(msg, at, song, unicode)?;
    let count = any(msg, title.next, 8)?;
    if count.value == 0 {
        return Err(Ground::NoPattern.at(title.next));
    }
    Ok(Seen {
        value: Opening {
            song,
            octets: title.value,
            count: count.value,
            unicode,
        },
        next: count.next,
    })
}

// The command, the song type, the title and the pattern count.
pub fn open(msg: &[u8], at: BitPlace) -> Result<Seen<Opening>, Refusal>
    requires { Within msg.now at.0 }
    ensures { result ≡ opening_of (front (bits_of msg.now) at.0) }
{
    let command = announced(msg, at)?;
    let song = any(msg, command.next, 3)?;
    if song.value == 0 {
        return Err(Ground::SongType.at(command.next));
    }
    if 2 < song.value {
        return Err(Ground::SongType.at(command.next));
    }
    titled(msg, song.next, song.value, command.value)
}

// ---- the end

// Filler to an octet's boundary, and the end octet, element by element.
fn ended(msg: &[u8], at: BitPlace) -> Result<Seen<u32>, Refusal>
    requires { Within msg.now at.0 }
    ensures { result ≡ seen_of (endingDue (bits_of msg.now) at.0) }
{
    let reached = bits::place_after(bits::octets_to(at));
    let filler = (reached.0 - at.0) as u32;
    if filler == 0 {
        return required(msg, at, 8, 0, Ground::EndOctet);
    }
    let run = required(msg, at, filler, 0, Ground::Filler)?;
    required(msg, run.next, 8, 0, Ground::EndOctet)
}

// The same. Where both are there and 0, it is told by two octets.
pub fn ending(msg: &[u8], at: BitPlace) -> Result<Seen<u32>, Refusal>
    requires { Within msg.now at.0 }
    ensures { result ≡ seen_of (endingDue (bits_of msg.now) at.0) }
{
    let reached = bits::octets_to(at).0;
    if reached < msg.len() {
        if bits::through_octet(msg, at) == 0 {
            return Ok(Seen {
                value: 0,
                next: bits::place_after(OctetCount(reached + 1)),
            });
        }
    }
    ended(msg, at)
}

// ---- what stands in a message that was judged

// The entry of a kind, `w` payload bits wide, that was seen at a place.
fn entry_of(at: BitPlace, x: u32, kind: u32, w: u32) -> Cell
    requires { (at.0 < 2 ^ 63) × (x < 16777216) × (kind ≤ 5) × (w ≤ 14) }
    ensures { (result.cell ≡ kind * 65536 + x / 2 ^ (24 - (3 + w)) % 2 ^ w) × (result.next.0 ≡ at.0 + 3 + w) }
{
    Cell {
        cell: kind * 65536 + bits::part(x, 3, w),
        next: BitPlace(at.0 + 3 + w as usize),
    }
}

// The entry at a place where one stands.
pub fn entry_at(msg: &[u8], at: BitPlace) -> Cell
    requires within { Within msg.now at.0 }
    requires some_entry { SomeEntry msg.now at.0 }
    ensures { (e : ℕ) (b : List Bool) → EntryAt msg.now at.0 e b → Passed at.0 e result.cell result.next.0 }
{
    let x = bits::look(msg, at);
    let kind = x / 2097152;
    if kind == 1 {
        return entry_of(at, x, 1, 9);
    }
    entry_of(at, x, kind, width(kind))
}
