#![tactic(auto)]

// Runs the cases of playing lists, and prints a line for each call. What it must print was worked out from the rules by
// other means.
//
// The cases are lines of standard input, each a letter, a space and words with one space between:
//
//   # ..           a remark, passed over
//   o HEX          puts octets of a message behind those in hand
//   l ROOM NAME    lists the message in hand, with so many cells lent of a row of 96, which are all 7 ahead of the call
//
// A call leaves nothing in hand.
//
// A line of output has the name, the room, the numbers of the answer, the cells of the list, three an entry, and a digest of
// all 96 cells, so that a change beyond the list shows.
//
//   NAME, ROOM: refusal place entries mark: cells: digest
ghost use Rattle.std.specs.Prelude.{◌≤◌, length};

use bits::Refusal;
use list::Listed;

// ---- printing

// Prints the numbers of an answer, and answers the entries.
fn show_answer(answer: Result<Listed, Refusal>) -> u32 {
    match answer {
        Ok(listed) => {
            io::write_all(1, b" 0 0");
            vectors::number(listed.entries as u64);
            vectors::number(listed.mark as u64);
            listed.entries
        }
        Err(refusal) => {
            vectors::number(refusal.why.number() as u64);
            vectors::number(refusal.place.0 as u64);
            io::write_all(1, b" 0 0");
            0
        }
    }
}

// Prints so many entries of a row, as far as there are, and the digest of the whole row.
fn show_row(row: &[u32], entries: u32) {
    io::write_all(1, b":");
    let end = list_rules::ENTRY_CELLS * entries as usize;
    if end <= row.len() {
        vectors::cells(&row[0..end]);
    }
    io::write_all(1, b":");
    vectors::number(vectors::digest_cells(row));
    io::write_all(1, b"\n");
}

// ---- the call

// Lists a message. It promises nothing, so that what calls it carries no promise along.
fn listed(msg: &[u8], list: &mut [u32]) -> Result<Listed, Refusal> {
    list::list(msg, list)
}

// Lists a message with so many cells lent of a row. Prints the answer and the row.
fn lend(msg: &[u8], row: &mut [u32], room: usize) {
    if row.len() < room {
        return;
    }
    let entries = show_answer(listed(msg, &mut row[0..room]));
    show_row(row, entries);
}

// ---- the text

// Lists the octets in hand as a line says.
fn list_case(line: &[u8], octets: &[u8], used: usize)
    requires { 2 ≤ length line.now }
{
    if octets.len() < used {
        return;
    }
    let room = vectors::word(line, 2);
    let name = room.next;
    io::write_all(1, &line[name..]);
    io::write_all(1, b",");
    vectors::number(room.value);
    io::write_all(1, b":");
    let mut row = [7u32; 96];
    lend(&octets[0..used], &mut row, room.value as usize);
}

// Does what a line says, and answers how many octets are then in hand.
fn act(line: &[u8], used: usize, octets: &mut [u8; 1024]) -> usize {
    if line.len() < 2 {
        return used;
    }
    let letter = line[0];
    if letter == b'o' {
        return vectors::add_octets(line, 2, octets, used);
    }
    if letter == b'l' {
        list_case(line, octets, used);
        return 0;
    }
    used
}

// Does what each line of a text says.
fn run(text: &[u8]) {
    let mut octets = [0u8; 1024];
    let mut used = 0;
    let mut at = 0;
    while at < text.len() {
        used = act(vectors::line(text, at), used, &mut octets);
        at = vectors::next_line(text, at);
    }
}

fn main() {
    let mut text = [0u8; 32768];
    let n = vectors::read_text(&mut text);
    run(&text[..n]);
}
