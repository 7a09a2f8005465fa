#![tactic(auto)]

// Runs the cases of tone packs, and prints a line for each call. What it must print was worked out from the rules by other
// means.
//
// The cases are lines of standard input, each a letter, a space and words with one space between:
//
//   # ..                         a remark, passed over
//   m HEX                        puts octets in hand: a pack to be read, or messages to be written
//   + TIMES HEX                  the octets, so many times, go behind those in hand
//   d FROM OCTETS                so many octets go behind those in hand, the same as stand there from a place on. The place
//                                runs along, so that a stretch is put again and again
//   k OCTETS                     keeps so many of the octets in hand, the first
//   a AT HEX                     puts octets over those in hand, from a place on
//   n CELL CELL ..               puts lengths in hand
//   c TIMES CELL CELL ..         the lengths, so many times, go behind those in hand
//   r NAME                       reads the octets in hand as a pack
//   f N NAME                     finds message N of it
//   x NAME                       reads none of the octets in hand, the first of them, the first two, .. and all
//   s FROM OCTETS BITS NAME      reads the octets in hand with these bits of one of them turned, of the one at a place, of
//                                the next, .. so many times
//   t FROM OCTETS OCTET NAME     the same with another octet in the place of the one
//   e FROM OCTETS NAME           the same with each of the 255 other octets in its place, the one with all bits turned first
//   w ROOM NAME                  writes the octets in hand as messages of the lengths in hand, with so many octets of output
//                                lent, and reads what it wrote
//   b ROOM NAME                  takes each message out of the pack in hand, writes these the same way, and says whether the
//                                same pack came back
//
// What is in hand stays until other octets or lengths are put there; a letter alone puts none.
//
// A line of output has the name and the numbers of the answer. `x`, `s` and `t` print a line for each reading, with the
// octets read or the place of the change ahead of the answer; `e` one line with a digest of all answers. What was found is
// followed by its octets, counted. What was written is followed by what is lent with one octet more on each side, which is
// not lent; all of it is the octet 77 ahead of the call. Up to 48 octets are printed, more as a digest.
//
//   NAME: refusal place messages                               of a reading
//   NAME: refusal place start length: octets                   of a finding
//   NAME: refusal place octets: output: then the same of reading what was written, if it was
ghost use Rattle.std.specs.Prelude.{◌≤◌, ◌<◌, length};

use bits::Refusal;
use pack::Found;
use vectors::Changes;
use written::Writing;

// How many octets and lengths are in hand.
#[derive(Clone, Copy)]
struct InHand {
    octets: usize,
    lengths: usize,
}

// The numbers of a reading.
#[derive(Clone, Copy)]
struct Answer {
    number: u32,
    place: usize,
    messages: u32,
}

// ---- printing

// The numbers of a reading, those that the answer has not being 0.
fn told(answer: Result<u32, Refusal>) -> Answer {
    match answer {
        Ok(messages) => Answer {
            number: 0,
            place: 0,
            messages,
        },
        Err(refusal) => Answer {
            number: refusal.why.number(),
            place: refusal.place.0,
            messages: 0,
        },
    }
}

// Prints the number and the place of a refusal.
fn show_refusal(refusal: Refusal) {
    vectors::number(refusal.why.number() as u64);
    vectors::number(refusal.place.0 as u64);
}

// Prints the numbers of a finding.
fn show_finding(answer: Result<Found, Refusal>) {
    match answer {
        Ok(found) => {
            io::write_all(1, b" 0 0");
            vectors::number(found.start.0 as u64);
            vectors::number(found.length.0 as u64);
        }
        Err(refusal) => {
            show_refusal(refusal);
            io::write_all(1, b" 0 0");
        }
    }
}

// Prints the numbers of a writing, and answers the octets written.
fn show_writing(answer: Writing) -> usize {
    match answer {
        Ok(octets) => {
            io::write_all(1, b" 0 0");
            vectors::number(octets.0 as u64);
            octets.0
        }
        Err(refusal) => {
            show_refusal(refusal);
            vectors::number(0);
            0
        }
    }
}

// ---- reading

// Reads a pack. Prints the answer.
fn read(pack: &[u8]) {
    let t = told(pack::read(pack));
    vectors::number(t.number as u64);
    vectors::number(t.place as u64);
    vectors::number(t.messages as u64);
}

// Finds a message. Prints the answer and the message.
fn find(pack: &[u8], n: u32) {
    show_finding(pack::find(pack, n));
    vectors::show_part(pack::message(pack, n));
}

// Prints a line of output: the name, which the line of the case has from a place on, a number, and what reading answers.
fn read_line(line: &[u8], name: usize, n: usize, pack: &[u8])
    requires { name ≤ length line.now }
{
    vectors::name(line, name);
    vectors::number(n as u64);
    read(pack);
    io::write_all(1, b"\n");
}

// Reads each front of a pack.
fn read_fronts(line: &[u8], pack: &[u8])
    requires { 2 ≤ length line.now }
{
    let mut n = 0;
    while n < pack.len() {
        read_line(line, 2, n, &pack[0..n]);
        n += 1;
    }
    read_line(line, 2, n, pack);
}

// ---- reading what was changed

// Reads a pack with another octet at a place, and puts the old one back.
fn read_changed_at(line: &[u8], which: Changes, pack: &mut [u8], at: usize)
    requires { (which.name ≤ length line.now) × (0 < length line.now) × (at < length pack.old) }
{
    let old = pack[at];
    pack[at] = vectors::other(line[0], old, which.by);
    read_line(line, which.name, at, pack);
    pack[at] = old;
}

// Reads a pack with some of its octets changed in turn.
fn read_changed(line: &[u8], which: Changes, pack: &mut [u8])
    requires { (which.name ≤ length line.now) × (0 < length line.now) }
{
    let mut left = which.octets;
    let mut i = which.from;
    while i < pack.len() {
        if left == 0 {
            return;
        }
        read_changed_at(line, which, pack, i);
        left -= 1;
        i += 1;
    }
}

// Reads a pack, and answers the digest with the answer's numbers.
fn mix_read(pack: &[u8], d: u64) -> u64 {
    let t = told(pack::read(pack));
    vectors::mixed(
        vectors::mixed(vectors::mixed(d, t.number as u64), t.place as u64),
        t.messages as u64,
    )
}

// Reads a pack with each other octet at a place in turn, and puts the old one back. It answers the digest with the answers.
fn mix_others(pack: &mut [u8], at: usize, d: u64) -> u64
    requires { at < length pack.old }
{
    let old = pack[at];
    let mut mix = d;
    let mut by: u8 = 255;
    while 0 < by {
        pack[at] = old ^ by;
        mix = mix_read(pack, mix);
        by -= 1;
    }
    pack[at] = old;
    mix
}

// Reads a pack with each other octet in the place of some of its octets in turn. It answers a digest of the answers.
fn mix_changed(which: Changes, pack: &mut [u8]) -> u64 {
    let mut mix: u64 = 1;
    let mut left = which.octets;
    let mut i = which.from;
    while i < pack.len() {
        if left == 0 {
            return mix;
        }
        mix = mix_others(pack, i, mix);
        left -= 1;
        i += 1;
    }
    mix
}

// ---- writing

// Writes with all but the first and the last of a buffer lent. Prints the answer and the buffer. If something was written
// it reads that, and prints what that answers. It answers the octets written.
fn write(octets: &[u8], lengths: &[u32], out: &mut [u8]) -> usize
    requires { 2 ≤ length out.old }
{
    let end = out.len() - 1;
    let n = show_writing(pack::write(octets, lengths, &mut out[1..end]));
    io::write_all(1, b":");
    vectors::show_octets(out);
    if n != 0 {
        io::write_all(1, b":");
        read(vectors::front(&out[1..end], n));
    }
    n
}

// Writes with so many octets lent.
fn lend_write(octets: &[u8], lengths: &[u32], room: u32) {
    let mut out = [119u8; 65600];
    let end = room as usize + 2;
    if 65600 < end {
        return;
    }
    write(octets, lengths, &mut out[0..end]);
}

// ---- writing what was read

// How many messages a pack has.
fn count(pack: &[u8]) -> usize {
    told(pack::read(pack)).messages as usize
}

// Takes each message out of a pack: puts their octets back to back, and their lengths. It answers how many of both.
fn take_out(pack: &[u8], octets: &mut [u8], lengths: &mut [u32]) -> InHand {
    let all = count(pack);
    let mut used = 0;
    let mut i = 0;
    while i < lengths.len() {
        if all <= i {
            return InHand {
                octets: used,
                lengths: i,
            };
        }
        let part = pack::message(pack, vectors::cell(i as u64));
        lengths[i] = vectors::cell(part.len() as u64);
        used = vectors::add_part(part, octets, used);
        i += 1;
    }
    InHand {
        octets: used,
        lengths: i,
    }
}

// Are octets the same, one by one?
fn same(a: &[u8], b: &[u8]) -> bool {
    if a.len() != b.len() {
        return false;
    }
    let mut i = 0;
    while i < a.len() {
        if a[i] != b[i] {
            return false;
        }
        i += 1;
    }
    true
}

// Writes as above, and says whether a pack came back.
fn write_back(pack: &[u8], octets: &[u8], lengths: &[u32], out: &mut [u8])
    requires { 2 ≤ length out.old }
{
    let end = out.len() - 1;
    let n = write(octets, lengths, out);
    if same(pack, vectors::front(&out[1..end], n)) {
        io::write_all(1, b": same");
        return;
    }
    io::write_all(1, b": other");
}

// The same with so many octets lent.
fn lend_back(pack: &[u8], octets: &[u8], lengths: &[u32], room: u32) {
    let mut out = [119u8; 65600];
    let end = room as usize + 2;
    if 65600 < end {
        return;
    }
    write_back(pack, octets, lengths, &mut out[0..end]);
}

// Takes each message out of a pack, and writes them with so many octets lent.
fn back(pack: &[u8], room: u32) {
    let mut octets = [0u8; 65600];
    let mut lengths = [0u32; 16400];
    let hand = take_out(pack, &mut octets, &mut lengths);
    let octets_end = hand.octets;
    let lengths_end = hand.lengths;
    if 65600 < octets_end {
        return;
    }
    if 16400 < lengths_end {
        return;
    }
    lend_back(pack, &octets[0..octets_end], &lengths[0..lengths_end], room);
}

// ---- the text

// Reads a pack with octets changed, as a line says.
fn changed_case(line: &[u8], pack: &mut [u8])
    requires { 2 ≤ length line.now }
{
    let which = vectors::changes_in(line);
    if line[0] == b'e' {
        vectors::name(line, which.name);
        vectors::number(mix_changed(which, pack));
        io::write_all(1, b"\n");
        return;
    }
    read_changed(line, which, pack);
}

// Makes a call with a number ahead of the name, as a line says: finds, writes, or writes what was read.
fn number_case(line: &[u8], octets: &[u8], lengths: &[u32])
    requires { 2 ≤ length line.now }
{
    let letter = line[0];
    let w = vectors::word(line, 2);
    vectors::name(line, w.next);
    if letter == b'f' {
        find(octets, vectors::cell(w.value));
    } else if letter == b'w' {
        lend_write(octets, lengths, vectors::cell(w.value));
    } else {
        back(octets, vectors::cell(w.value));
    }
    io::write_all(1, b"\n");
}

// Makes the calls that a line says with what is in hand.
fn call(line: &[u8], octets: &mut [u8], lengths: &[u32])
    requires { 2 ≤ length line.now }
{
    let letter = line[0];
    if letter == b'r' {
        vectors::name(line, 2);
        read(octets);
        io::write_all(1, b"\n");
        return;
    }
    if letter == b'x' {
        read_fronts(line, octets);
        return;
    }
    if letter == b's' || letter == b't' || letter == b'e' {
        changed_case(line, octets);
        return;
    }
    number_case(line, octets, lengths);
}

// The same with the buffers that hold it.
fn call_in_hand(line: &[u8], hand: InHand, octets: &mut [u8], lengths: &[u32])
    requires { 2 ≤ length line.now }
{
    let octets_end = hand.octets;
    let lengths_end = hand.lengths;
    if octets.len() < octets_end {
        return;
    }
    if lengths.len() < lengths_end {
        return;
    }
    call(line, &mut octets[0..octets_end], &lengths[0..lengths_end]);
}

// ---- what is in hand

// Puts the lengths of a line behind those in hand, so many times as its first word says. It answers how many are then in
// hand.
fn add_lengths(line: &[u8], lengths: &mut [u32], used: usize) -> usize
    requires { 2 ≤ length line.now }
{
    let times = vectors::word(line, 2);
    let mut n = used;
    let mut i = 0;
    while i < times.value {
        n = vectors::add_cells(line, times.next, lengths, n);
        i += 1;
    }
    n
}

// Does what a line says, and answers what is then in hand.
fn act(line: &[u8], hand: InHand, octets: &mut [u8; 65600], lengths: &mut [u32; 16400]) -> InHand {
    let mut h = hand;
    if line.len() < 1 {
        return h;
    }
    let letter = line[0];
    if letter == b'm' {
        h.octets = vectors::add_octets(line, 2, octets, 0);
        return h;
    }
    if letter == b'n' {
        h.lengths = vectors::add_cells(line, 2, lengths, 0);
        return h;
    }
    if line.len() < 2 || letter == b'#' {
        return h;
    }
    if letter == b'+' {
        h.octets = vectors::add_times(line, octets, hand.octets);
        return h;
    }
    if letter == b'c' {
        h.lengths = add_lengths(line, lengths, hand.lengths);
        return h;
    }
    if letter == b'd' || letter == b'k' || letter == b'a' {
        h.octets = vectors::change_hand(line, octets, hand.octets);
        return h;
    }
    call_in_hand(line, h, octets, lengths);
    h
}

// Does what each line of a text says.
fn run(text: &[u8]) {
    let mut octets = [0u8; 65600];
    let mut lengths = [0u32; 16400];
    let mut hand = InHand {
        octets: 0,
        lengths: 0,
    };
    let mut at = 0;
    while at < text.len() {
        hand = act(vectors::line(text, at), hand, &mut octets, &mut lengths);
        at = vectors::next_line(text, at);
    }
}

fn main() {
    let mut text = [0u8; 98304];
    let n = vectors::read_text(&mut text);
    run(&text[..n]);
}
