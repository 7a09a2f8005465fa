#![tactic(auto)]

// Runs the cases of bitmaps of the three kinds and prints what the calls answer, a line for each case. What it must print
// was worked out from the rules by other means.
//
// The cases are lines of standard input, each a letter, a space and words with one space between:
//
//   # ..                            a remark, passed over
//   m HEX                           puts octets in hand: a message to be read, or an image to be written
//   + TIMES HEX                     the octets, so many times, go behind those in hand
//   c HEX, n HEX, d HEX             puts a country code, a network code or a date in hand
//   r KIND NAME                     reads the octets in hand as a bitmap of a kind
//   x KIND NAME                     reads none of the octets in hand, the first of them, the first two, .. and all
//   s KIND OCTETS OCTET NAME        reads the octets in hand with OCTET in the place of the first of them, of the second,
//                                   .. so many times
//   w KIND WIDTH HEIGHT ROOM NAME   writes the octets in hand as the image of a bitmap of a kind, with the codes and the
//                                   date in hand, with so many octets of output lent, and reads what it wrote
//
// KIND is 0 for a plain bitmap, 1 for a CLI icon and 2 for an operator logo. What is in hand stays until other octets are
// put there; a letter alone puts none.
//
// A line of output has the name and the numbers of the answer. Of a reading these are followed by the four fields as they
// are handed back, each with its octets counted. Of a writing they are followed by what is lent with one octet more on each
// side, which is not lent; all of it is the octet 77 ahead of the call. Up to 48 octets are printed, more as a digest. The
// lines of `x` and `s` have the refusals alone.
//
//   NAME: refusal place width height black, start length of mcc, mnc, date, image: mcc: mnc: date: image
//   NAME: refusal place octets: output: then the same of reading what was written, if it was
//   NAME: refusal refusal ..
ghost use Rattle.std.specs.Prelude.{◌≤◌, ◌<◌, length};

use bitmap_ahead::Kind;
use bitmap_kinds::{Field, Fields, Reading, Stretch};
use bits::Refusal;
use written::Writing;

// How many octets of a message, of the two codes and of a date are in hand.
#[derive(Clone, Copy)]
struct InHand {
    octets: usize,
    mcc: usize,
    mnc: usize,
    date: usize,
}

// ---- printing

// Prints where a field begins, and how many octets it has.
fn show_stretch(s: Stretch) {
    vectors::number(s.start.0 as u64);
    vectors::number(s.length.0 as u64);
}

// Prints where all fields stand.
fn show_fields(fields: Fields) {
    show_stretch(fields.mcc);
    show_stretch(fields.mnc);
    show_stretch(fields.date);
    show_stretch(fields.image);
}

// Prints the numbers of a reading.
fn show_reading(answer: Result<Reading, Refusal>) {
    match answer {
        Ok(seen) => {
            io::write_all(1, b" 0 0");
            vectors::number(seen.width as u64);
            vectors::number(seen.height as u64);
            vectors::number(seen.black as u64);
            show_fields(seen.fields);
        }
        Err(refusal) => {
            vectors::number(refusal.why.number() as u64);
            vectors::number(refusal.place.0 as u64);
            io::write_all(1, b" 0 0 0 0 0 0 0 0 0 0 0");
        }
    }
}

// Prints the numbers of a writing, and answers the octets written.
fn show_writing(answer: Writing) -> usize {
    match answer {
        Ok(n) => {
            io::write_all(1, b" 0 0");
            vectors::number(n.0 as u64);
            n.0
        }
        Err(refusal) => {
            vectors::number(refusal.why.number() as u64);
            vectors::number(refusal.place.0 as u64);
            vectors::number(0);
            0
        }
    }
}

// ---- the calls

// Reads a message. Prints the answer and the fields.
fn read(kind: Kind, msg: &[u8]) {
    show_reading(bitmap_kinds::read(kind, msg));
    vectors::show_part(bitmap_kinds::field_of(kind, Field::Mcc, msg));
    vectors::show_part(bitmap_kinds::field_of(kind, Field::Mnc, msg));
    vectors::show_part(bitmap_kinds::field_of(kind, Field::Date, msg));
    vectors::show_part(bitmap_kinds::field_of(kind, Field::Image, msg));
}

// Reads a message, and prints the refusal alone.
fn read_briefly(kind: Kind, msg: &[u8]) {
    match bitmap_kinds::read(kind, msg) {
        Ok(_) => vectors::number(0),
        Err(refusal) => vectors::number(refusal.why.number() as u64),
    }
}

// Reads each front of a message.
fn read_fronts(kind: Kind, msg: &[u8]) {
    for n in 0..msg.len() {
        read_briefly(kind, &msg[0..n]);
    }
    read_briefly(kind, msg);
}

// Reads a message with another octet at a place, and puts the old one back.
fn read_spoilt_at(kind: Kind, msg: &mut [u8], at: usize, octet: u8)
    requires { at < length msg.old }
{
    let old = msg[at];
    msg[at] = octet;
    read_briefly(kind, msg);
    msg[at] = old;
}

// Reads a message with another octet in the place of each of its first ones in turn.
fn read_spoilt(kind: Kind, msg: &mut [u8], octets: usize, octet: u8) {
    for i in 0..octets.min(msg.len()) {
        read_spoilt_at(kind, msg, i, octet);
    }
}

// Writes with all but the first and the last of a buffer lent. Prints the answer and the buffer. If something was written
// it reads that, and prints what that answers.
fn write(
    kind: Kind,
    mcc: &[u8],
    mnc: &[u8],
    date: &[u8],
    width: u32,
    height: u32,
    image: &[u8],
    out: &mut [u8],
)
    requires { 2 ≤ length out.old }
{
    let end = out.len() - 1;
    let n = show_writing(bitmap_kinds::write(
        kind,
        mcc,
        mnc,
        date,
        width,
        height,
        image,
        &mut out[1..end],
    ));
    io::write_all(1, b":");
    vectors::show_octets(out);
    if n != 0 {
        io::write_all(1, b":");
        read(kind, vectors::front(&out[1..end], n));
    }
}

// Writes with so many octets lent.
fn lend_write(
    kind: Kind,
    mcc: &[u8],
    mnc: &[u8],
    date: &[u8],
    width: u32,
    height: u32,
    image: &[u8],
    room: u32,
) {
    let mut out = [119u8; 8000];
    let end = room as usize + 2;
    if 8000 < end {
        return;
    }
    write(kind, mcc, mnc, date, width, height, image, &mut out[0..end]);
}

// ---- the text

// The kind that a number of the text names.
fn kind_of(value: u64) -> Kind {
    if value == 0 {
        return Kind::Plain;
    }
    if value == 1 {
        return Kind::Icon;
    }
    Kind::Logo
}

// Reads a message, or each front of it, as a line says.
fn read_case(line: &[u8], msg: &[u8])
    requires { 2 ≤ length line.now }
{
    let kind = vectors::word(line, 2);
    vectors::name(line, kind.next);
    if line[0] == b'r' {
        read(kind_of(kind.value), msg);
    } else {
        read_fronts(kind_of(kind.value), msg);
    }
}

// Reads a message with an octet spoilt, as a line says.
fn spoilt_case(line: &[u8], msg: &mut [u8])
    requires { 2 ≤ length line.now }
{
    let kind = vectors::word(line, 2);
    let octets = vectors::word(line, kind.next);
    let octet = vectors::word(line, octets.next);
    vectors::name(line, octet.next);
    read_spoilt(
        kind_of(kind.value),
        msg,
        vectors::cell(octets.value) as usize,
        (octet.value % 256) as u8,
    );
}

// Writes codes, a date and an image as a line says.
fn write_case(line: &[u8], mcc: &[u8], mnc: &[u8], date: &[u8], image: &[u8])
    requires { 2 ≤ length line.now }
{
    let kind = vectors::word(line, 2);
    let width = vectors::word(line, kind.next);
    let height = vectors::word(line, width.next);
    let room = vectors::word(line, height.next);
    vectors::name(line, room.next);
    lend_write(
        kind_of(kind.value),
        mcc,
        mnc,
        date,
        vectors::cell(width.value),
        vectors::cell(height.value),
        image,
        vectors::cell(room.value),
    );
}

// Makes the call that a line says with what is in hand.
fn call(line: &[u8], hand: InHand, octets: &mut [u8], mcc: &[u8], mnc: &[u8], date: &[u8])
    requires { 2 ≤ length line.now }
{
    let letter = line[0];
    let end = hand.octets;
    if octets.len() < end {
        return;
    }
    if letter == b's' {
        spoilt_case(line, &mut octets[0..end]);
        return;
    }
    if letter == b'w' {
        write_case(
            line,
            vectors::front(mcc, hand.mcc),
            vectors::front(mnc, hand.mnc),
            vectors::front(date, hand.date),
            &octets[0..end],
        );
        return;
    }
    read_case(line, &octets[0..end]);
}

// Puts the octets of a line behind those in hand, so many times as the line says. It answers how many are then in hand.
fn add_times(line: &[u8], octets: &mut [u8], used: usize) -> usize
    requires { 2 ≤ length line.now }
{
    let times = vectors::word(line, 2);
    let mut n = used;
    for _ in 0..times.value {
        n = vectors::add_octets(line, times.next, octets, n);
    }
    n
}

// Puts the octets of a line in hand as a code or a date, and answers what is then in hand.
fn put_ahead(line: &[u8], hand: InHand, mcc: &mut [u8], mnc: &mut [u8], date: &mut [u8]) -> InHand
    requires { 1 ≤ length line.now }
{
    let mut h = hand;
    let letter = line[0];
    if letter == b'c' {
        h.mcc = vectors::add_octets(line, 2, mcc, 0);
        return h;
    }
    if letter == b'n' {
        h.mnc = vectors::add_octets(line, 2, mnc, 0);
        return h;
    }
    if letter == b'd' {
        h.date = vectors::add_octets(line, 2, date, 0);
    }
    h
}

// Does what a line says, and answers what is then in hand.
fn act(
    line: &[u8],
    hand: InHand,
    octets: &mut [u8; 8000],
    mcc: &mut [u8; 8],
    mnc: &mut [u8; 8],
    date: &mut [u8; 24],
) -> InHand {
    let mut h = hand;
    if line.len() < 1 {
        return h;
    }
    let letter = line[0];
    if letter == b'm' {
        h.octets = vectors::add_octets(line, 2, octets, 0);
        return h;
    }
    if letter == b'c' || letter == b'n' || letter == b'd' {
        return put_ahead(line, h, mcc, mnc, date);
    }
    if line.len() < 2 || letter == b'#' {
        return h;
    }
    if letter == b'+' {
        h.octets = add_times(line, octets, hand.octets);
        return h;
    }
    call(line, h, octets, mcc, mnc, date);
    io::write_all(1, b"\n");
    h
}

// Does what each line of a text says.
fn run(text: &[u8]) {
    let mut octets = [0u8; 8000];
    let mut mcc = [0u8; 8];
    let mut mnc = [0u8; 8];
    let mut date = [0u8; 24];
    let mut hand = InHand {
        octets: 0,
        mcc: 0,
        mnc: 0,
        date: 0,
    };
    let mut at = 0;
    while at < text.len() {
        hand = act(
            vectors::line(text, at),
            hand,
            &mut octets,
            &mut mcc,
            &mut mnc,
            &mut date,
        );
        at = vectors::next_line(text, at);
    }
}

fn main() {
    let mut text = [0u8; 32768];
    let n = vectors::read_text(&mut text);
    run(&text[..n]);
}
