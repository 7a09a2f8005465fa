#![tactic(auto)]

// Runs the cases of getting tones out of broken packs, and prints a line for each call. What it must print was made by a
// model in another language, written from the text of the rule alone.
//
// The cases are lines of standard input, each a letter, a space and words with one space between:
//
//   # ..                         a remark, passed over
//   m HEX                        puts octets in hand, which a call gets the messages out of
//   + TIMES HEX                  the octets, so many times, go behind those in hand
//   d FROM OCTETS                so many octets go behind those in hand, the same as stand there from a place on. The place
//                                runs along, so that a stretch is put again and again
//   k OCTETS                     keeps so many of the octets in hand, the first
//   a AT HEX                     puts octets over those in hand, from a place on
//   l OCTETS NUMBERS             from here on so many octets are lent for a pack, and so many numbers for a report
//   g NAME                       gets the messages out of the octets in hand
//   x NAME                       gets them out of none of the octets in hand, of the first, the first two, .. and of all
//   y NAME                       gets them out of all octets in hand, of all but the first, the first two, .. and of none
//   s FROM OCTETS BITS NAME      gets them out of the octets in hand with these bits of one of them turned, of the one at a
//                                place, of the next, .. so many times
//   t FROM OCTETS OCTET NAME     the same with another octet in the place of the one
//   e FROM OCTETS NAME           the same with each of the 255 other octets in its place, the one with all bits turned first
//
// What is in hand stays until other octets are put there; a letter alone puts none.
//
// A line of output has the name, the numbers of the answer, and what is lent for the pack and for the report, each with one
// octet or one number more on both sides, which is not lent. All of it is the octet 77 and the number 7 ahead of the call. Up
// to 48 octets or numbers are printed, more as a digest. `x`, `y`, `s` and `t` print a line for each call, with the octets
// kept or left out, or the place of the change, ahead of the answer; `e` one line with a digest of all that they would print.
//
//   NAME: refusal place messages octets skipped: pack: report
ghost use Rattle.std.specs.Prelude.{◌≤◌, ◌<◌, length};

use bits::Refusal;
use salvage::Done;
use vectors::Changes;

// How many octets are in hand, and how many octets and numbers are lent.
#[derive(Clone, Copy)]
struct InHand {
    octets: usize,
    room: usize,
    cells: usize,
}

// The numbers of an answer.
#[derive(Clone, Copy)]
struct Answer {
    number: u32,
    place: usize,
    messages: usize,
    octets: usize,
    skipped: usize,
}

// ---- a call

// The numbers of an answer, those that it has not being 0.
fn told(answer: Result<Done, Refusal>) -> Answer {
    match answer {
        Ok(done) => Answer {
            number: 0,
            place: 0,
            messages: done.messages,
            octets: done.octets.0,
            skipped: done.skipped.0,
        },
        Err(refusal) => Answer {
            number: refusal.why.number(),
            place: refusal.place.0,
            messages: 0,
            octets: 0,
            skipped: 0,
        },
    }
}

// Gets the messages out with all but the first and the last of both buffers lent.
fn get(pack: &[u8], out: &mut [u8], report: &mut [u32]) -> Answer
    requires { (2 ≤ length out.old) × (2 ≤ length report.old) }
{
    let out_end = out.len() - 1;
    let report_end = report.len() - 1;
    told(salvage::salvage(pack, &mut out[1..out_end], &mut report[1..report_end]))
}

// Prints an answer and both buffers.
fn show(t: Answer, out: &[u8], report: &[u32]) {
    vectors::number(t.number as u64);
    vectors::number(t.place as u64);
    vectors::number(t.messages as u64);
    vectors::number(t.octets as u64);
    vectors::number(t.skipped as u64);
    io::write_all(1, b":");
    vectors::show_octets(out);
    io::write_all(1, b":");
    vectors::show_cells(report);
}

// Gets the messages out, and prints the answer and both buffers.
fn get_shown(pack: &[u8], out: &mut [u8], report: &mut [u32])
    requires { (2 ≤ length out.old) × (2 ≤ length report.old) }
{
    let t = get(pack, out, report);
    show(t, out, report);
}

// The same with as much lent as is said.
fn lend(pack: &[u8], hand: InHand) {
    let mut out = [119u8; 65600];
    let mut report = [7u32; 16400];
    if 65598 < hand.room {
        return;
    }
    if 16398 < hand.cells {
        return;
    }
    let out_end = hand.room + 2;
    let report_end = hand.cells + 2;
    get_shown(pack, &mut out[0..out_end], &mut report[0..report_end]);
}

// ---- calls on parts

// Prints a line of output: the name, which the line of the case has from a place on, a number, and what a call answers.
fn get_line(line: &[u8], name: usize, n: usize, pack: &[u8], hand: InHand)
    requires { name ≤ length line.now }
{
    vectors::name(line, name);
    vectors::number(n as u64);
    lend(pack, hand);
    io::write_all(1, b"\n");
}

// The first octets of a pack, or all but these, as the letter of the case says.
fn part(letter: u8, pack: &[u8], n: usize) -> &[u8]
    requires { n ≤ length pack.now }
{
    if letter == b'x' {
        return &pack[0..n];
    }
    &pack[n..]
}

// Gets the messages out of each front or of each back of a pack.
fn get_parts(line: &[u8], pack: &[u8], hand: InHand)
    requires { 2 ≤ length line.now }
{
    let mut n = 0;
    while n <= pack.len() {
        get_line(line, 2, n, part(line[0], pack, n), hand);
        n += 1;
    }
}

// ---- calls on what was changed

// Gets the messages out with another octet at a place, and puts the old one back.
fn get_changed_at(line: &[u8], which: Changes, pack: &mut [u8], at: usize, hand: InHand)
    requires { (which.name ≤ length line.now) × (0 < length line.now) × (at < length pack.old) }
{
    let old = pack[at];
    pack[at] = vectors::other(line[0], old, which.by);
    get_line(line, which.name, at, pack, hand);
    pack[at] = old;
}

// Gets the messages out with some octets changed in turn.
fn get_changed(line: &[u8], which: Changes, pack: &mut [u8], hand: InHand)
    requires { (which.name ≤ length line.now) × (0 < length line.now) }
{
    let mut left = which.octets;
    let mut i = which.from;
    while i < pack.len() {
        if left == 0 {
            return;
        }
        get_changed_at(line, which, pack, i, hand);
        left -= 1;
        i += 1;
    }
}

// A digest with the numbers of an answer.
fn mix_answer(t: Answer, d: u64) -> u64 {
    let a = vectors::mixed(d, t.number as u64);
    let b = vectors::mixed(a, t.place as u64);
    let c = vectors::mixed(b, t.messages as u64);
    let e = vectors::mixed(c, t.octets as u64);
    vectors::mixed(e, t.skipped as u64)
}

// Gets the messages out, and answers the digest with the answer and both buffers.
fn mix_get(pack: &[u8], out: &mut [u8], report: &mut [u32], d: u64) -> u64
    requires { (2 ≤ length out.old) × (2 ≤ length report.old) }
{
    let t = get(pack, out, report);
    let mix = vectors::mixed(mix_answer(t, d), vectors::digest(out));
    vectors::mixed(mix, vectors::digest_cells(report))
}

// The same with as much lent as is said.
fn mix_lend(pack: &[u8], hand: InHand, d: u64) -> u64 {
    let mut out = [119u8; 65600];
    let mut report = [7u32; 16400];
    if 65598 < hand.room {
        return d;
    }
    if 16398 < hand.cells {
        return d;
    }
    let out_end = hand.room + 2;
    let report_end = hand.cells + 2;
    mix_get(pack, &mut out[0..out_end], &mut report[0..report_end], d)
}

// Gets the messages out with each other octet at a place in turn, and puts the old one back. It answers the digest with all
// that came out.
fn mix_others(pack: &mut [u8], at: usize, hand: InHand, d: u64) -> u64
    requires { at < length pack.old }
{
    let old = pack[at];
    let mut mix = d;
    let mut by: u8 = 255;
    while 0 < by {
        pack[at] = old ^ by;
        mix = mix_lend(pack, hand, mix);
        by -= 1;
    }
    pack[at] = old;
    mix
}

// Gets the messages out with each other octet in the place of some octets in turn. It answers a digest of all that came out.
fn mix_changed(which: Changes, pack: &mut [u8], hand: InHand) -> u64 {
    let mut mix: u64 = 1;
    let mut left = which.octets;
    let mut i = which.from;
    while i < pack.len() {
        if left == 0 {
            return mix;
        }
        mix = mix_others(pack, i, hand, mix);
        left -= 1;
        i += 1;
    }
    mix
}

// ---- the text

// Gets the messages out of what was changed, as a line says.
fn changed_case(line: &[u8], pack: &mut [u8], hand: InHand)
    requires { 2 ≤ length line.now }
{
    let which = vectors::changes_in(line);
    if line[0] == b'e' {
        vectors::name(line, which.name);
        vectors::number(mix_changed(which, pack, hand));
        io::write_all(1, b"\n");
        return;
    }
    get_changed(line, which, pack, hand);
}

// Makes the calls that a line says.
fn call(line: &[u8], pack: &mut [u8], hand: InHand)
    requires { 2 ≤ length line.now }
{
    let letter = line[0];
    if letter == b'g' {
        vectors::name(line, 2);
        lend(pack, hand);
        io::write_all(1, b"\n");
        return;
    }
    if letter == b'x' || letter == b'y' {
        get_parts(line, pack, hand);
        return;
    }
    changed_case(line, pack, hand);
}

// The same with the buffer that holds what is in hand.
fn call_in_hand(line: &[u8], octets: &mut [u8], hand: InHand)
    requires { 2 ≤ length line.now }
{
    let end = hand.octets;
    if octets.len() < end {
        return;
    }
    call(line, &mut octets[0..end], hand);
}

// How much is lent from here on, as a line says.
fn lending(line: &[u8], hand: InHand) -> InHand
    requires { 2 ≤ length line.now }
{
    let room = vectors::word(line, 2);
    let cells = vectors::word(line, room.next);
    InHand {
        octets: hand.octets,
        room: room.value as usize,
        cells: cells.value as usize,
    }
}

// Does what a line says, and answers what is then in hand.
fn act(line: &[u8], hand: InHand, octets: &mut [u8; 70000]) -> InHand {
    let mut h = hand;
    if line.len() < 1 {
        return h;
    }
    let letter = line[0];
    if letter == b'm' {
        h.octets = vectors::add_octets(line, 2, octets, 0);
        return h;
    }
    if line.len() < 2 || letter == b'#' {
        return h;
    }
    if letter == b'l' {
        return lending(line, hand);
    }
    if letter == b'+' {
        h.octets = vectors::add_times(line, octets, hand.octets);
        return h;
    }
    if letter == b'd' || letter == b'k' || letter == b'a' {
        h.octets = vectors::change_hand(line, octets, hand.octets);
        return h;
    }
    call_in_hand(line, octets, hand);
    h
}

// Does what each line of a text says.
fn run(text: &[u8]) {
    let mut octets = [0u8; 70000];
    let mut hand = InHand {
        octets: 0,
        room: 0,
        cells: 0,
    };
    let mut at = 0;
    while at < text.len() {
        hand = act(vectors::line(text, at), hand, &mut octets);
        at = vectors::next_line(text, at);
    }
}

fn main() {
    let mut text = [0u8; 98304];
    let n = vectors::read_text(&mut text);
    run(&text[..n]);
}
