#![tactic(auto)]

// Runs the cases of reading and writing a tone, and prints a line for each call. What it must print was worked out from
// the rules by other means.
//
// The cases are lines of standard input, each a letter, a space and words with one space between:
//
//   # ..                       a remark, passed over
//   o TIMES HEX                the octets, so many times, go behind those in hand
//   c TIMES CELL CELL ..       the same of cells
//   r CELLS OCTETS NAME        reads the octets in hand, with so many cells of a table and octets of a title lent
//   w SONG UNICODE ROOM NAME   writes a tone of this song type, with UNICODE (1) or not (0), the octets in hand as its
//                              title and the cells in hand as its table, with so many octets of output lent
//
// A call leaves nothing in hand.
//
// A line of output has the name, the numbers of the answer, and what is lent with one cell more on each side, which is not
// lent. All of it is 7 or the octet 77 ahead of the call. Up to 48 octets or cells are printed, more as a digest.
//
//   NAME: refusal place song unicode characters patterns entries: table: title    of a reading
//   NAME: refusal place octets: output                                            of a writing
ghost use Rattle.std.specs.Prelude.{◌≤◌, ◌<◌, length};

use bits::Refusal;
use tone_read::Reading;
use written::Writing;

// How many octets and cells are in hand.
#[derive(Clone, Copy)]
struct InHand {
    octets: usize,
    cells: usize,
}

// ---- printing

// Prints a refusal's number and its place.
fn show_refusal(refusal: Refusal) {
    vectors::number(refusal.why.number() as u64);
    vectors::number(refusal.place.0 as u64);
}

// Prints the numbers of a reading.
fn show_reading(answer: Result<Reading, Refusal>) {
    match answer {
        Ok(reading) => {
            io::write_all(1, b" 0 0");
            vectors::number(reading.song as u64);
            vectors::number(reading.unicode as u64);
            vectors::number(reading.characters as u64);
            vectors::number(reading.patterns as u64);
            vectors::number(reading.entries as u64);
        }
        Err(refusal) => {
            show_refusal(refusal);
            io::write_all(1, b" 0 0 0 0 0");
        }
    }
}

// Prints the numbers of a writing.
fn show_writing(answer: Writing) {
    match answer {
        Ok(octets) => {
            io::write_all(1, b" 0 0");
            vectors::number(octets.0 as u64);
        }
        Err(refusal) => {
            show_refusal(refusal);
            vectors::number(0);
        }
    }
}

// ---- the calls

// Reads a message with all but the first and the last of two buffers lent. Prints the answer and the buffers.
fn read(msg: &[u8], table: &mut [u32], title: &mut [u8])
    requires { (2 ≤ length table.old) × (2 ≤ length title.old) }
{
    let table_end = table.len() - 1;
    let title_end = title.len() - 1;
    show_reading(tone_read::read(msg, &mut table[1..table_end], &mut title[1..title_end]));
    io::write_all(1, b":");
    vectors::show_cells(table);
    io::write_all(1, b":");
    vectors::show_octets(title);
}

// Reads a message with so many cells and octets lent.
fn lend_read(msg: &[u8], cells: u32, octets: u32) {
    let mut table = [7u32; 3600];
    let mut title = [119u8; 40];
    let table_end = cells as usize + 2;
    let title_end = octets as usize + 2;
    if 3600 < table_end {
        return;
    }
    if 40 < title_end {
        return;
    }
    read(msg, &mut table[0..table_end], &mut title[0..title_end]);
}

// Writes a tone with all but the first and the last of a buffer lent. Prints the answer and the buffer.
fn write(song: u32, unicode: bool, title: &[u8], table: &[u32], out: &mut [u8])
    requires { 2 ≤ length out.old }
{
    let end = out.len() - 1;
    show_writing(tone_write::write(song, unicode, title, table, &mut out[1..end]));
    io::write_all(1, b":");
    vectors::show_octets(out);
}

// Writes a tone with so many octets lent.
fn lend_write(song: u32, unicode: bool, title: &[u8], table: &[u32], room: u32) {
    let mut out = [119u8; 4200];
    let end = room as usize + 2;
    if 4200 < end {
        return;
    }
    write(song, unicode, title, table, &mut out[0..end]);
}

// ---- the text

// Puts what a line gives, from a place on, behind what is in hand.
fn add(
    line: &[u8],
    from: usize,
    hand: InHand,
    octets: &mut [u8; 4100],
    cells: &mut [u32; 4100],
) -> InHand
    requires { (from ≤ length line.now) × (0 < length line.now) }
{
    if line[0] == b'o' {
        return InHand {
            octets: vectors::add_octets(line, from, octets, hand.octets),
            cells: hand.cells,
        };
    }
    InHand {
        octets: hand.octets,
        cells: vectors::add_cells(line, from, cells, hand.cells),
    }
}

// The same so many times as the line says.
fn add_times(line: &[u8], hand: InHand, octets: &mut [u8; 4100], cells: &mut [u32; 4100]) -> InHand
    requires { 2 ≤ length line.now }
{
    let times = vectors::word(line, 2);
    let mut h = hand;
    for _ in 0..times.value {
        h = add(line, times.next, h, octets, cells);
    }
    h
}

// Reads a message as a line says.
fn read_case(line: &[u8], msg: &[u8])
    requires { 2 ≤ length line.now }
{
    let cells = vectors::word(line, 2);
    let octets = vectors::word(line, cells.next);
    vectors::name(line, octets.next);
    lend_read(msg, vectors::cell(cells.value), vectors::cell(octets.value));
}

// Writes a title and a table as a line says.
fn write_case(line: &[u8], title: &[u8], table: &[u32])
    requires { 2 ≤ length line.now }
{
    let song = vectors::word(line, 2);
    let unicode = vectors::word(line, song.next);
    let room = vectors::word(line, unicode.next);
    vectors::name(line, room.next);
    lend_write(
        vectors::cell(song.value),
        unicode.value == 1,
        title,
        table,
        vectors::cell(room.value),
    );
}

// Makes the call that a line says with what is in hand, and ends the line of output.
fn call(line: &[u8], hand: InHand, octets: &[u8], cells: &[u32])
    requires { 2 ≤ length line.now }
{
    let octets_end = hand.octets;
    let cells_end = hand.cells;
    if octets.len() < octets_end {
        return;
    }
    if cells.len() < cells_end {
        return;
    }
    if line[0] == b'r' {
        read_case(line, &octets[0..octets_end]);
    } else {
        write_case(line, &octets[0..octets_end], &cells[0..cells_end]);
    }
    io::write_all(1, b"\n");
}

// Does what a line says, and answers what is then in hand.
fn act(line: &[u8], hand: InHand, octets: &mut [u8; 4100], cells: &mut [u32; 4100]) -> InHand {
    if line.len() < 2 {
        return hand;
    }
    let letter = line[0];
    if letter == b'#' {
        return hand;
    }
    if letter == b'o' || letter == b'c' {
        return add_times(line, hand, octets, cells);
    }
    call(line, hand, octets, cells);
    InHand {
        octets: 0,
        cells: 0,
    }
}

// Does what each line of a text says.
fn run(text: &[u8]) {
    let mut octets = [0u8; 4100];
    let mut cells = [0u32; 4100];
    let mut hand = InHand {
        octets: 0,
        cells: 0,
    };
    let mut at = 0;
    while at < text.len() {
        hand = act(vectors::line(text, at), hand, &mut octets, &mut cells);
        at = vectors::next_line(text, at);
    }
}

fn main() {
    let mut text = [0u8; 49152];
    let n = vectors::read_text(&mut text);
    run(&text[..n]);
}
