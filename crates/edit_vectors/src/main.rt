#![tactic(auto)]

// Runs the cases of edits, and prints a line for each call. What it must print was worked out from the rules by other
// means.
//
// The cases are lines of standard input, each a letter, a space and words with one space between:
//
//   # ..                                a remark, passed over
//   m OCTETS CELLS HEX                  puts a message into the buffer, with so many octets of the buffer and so many cells
//                                       of each list lent. The octets behind the message are 77, and all cells are 7
//   l USED OCTETS CELLS                 gives another used length, and lends so many octets and cells from now on
//   r ENTRY PATTERN INSTRUCTION NAME    replaces an instruction
//   i ENTRY PATTERN INSTRUCTION NAME    inserts one ahead of it
//   d PATTERN INSTRUCTION NAME          deletes it
//   f TIMES ENTRY PATTERN INSTRUCTION   inserts so many times, and prints nothing
//
// An edit takes what the last one left, up to the next message.
//
// A line of output has the name, the numbers of the answer, the octets lent and the digest of the cells lent. Up to 48
// octets are printed, more as a digest. Its last words say whether the cells are what listing the message in the buffer
// afresh gives: "same" or "other", "no list" where it is not listed, "no message" where the used length is beyond what
// is lent.
//
//   NAME: refusal place length entries mark change octets cells same
ghost use Rattle.std.specs.Prelude.{◌≤◌, length};

use bits::{OctetCount, Refusal};
use edit::Edited;
use edit_change::Edit;

// The used length, and how many octets of the buffer and cells of each list are lent.
#[derive(Clone, Copy)]
struct InHand {
    used: usize,
    octets: usize,
    cells: usize,
}

// An edit and its position, and where the next word of the line starts.
#[derive(Clone, Copy)]
struct Wanted {
    edit: Edit,
    pattern: usize,
    instruction: usize,
    next: usize,
}

// ---- printing

// Prints the numbers of an answer.
fn show_answer(answer: Result<Edited, Refusal>) {
    match answer {
        Ok(made) => {
            io::write_all(1, b" 0 0");
            vectors::number(made.length.0 as u64);
            vectors::number(made.entries as u64);
            vectors::number(made.mark as u64);
            vectors::signed(made.change);
        }
        Err(refusal) => {
            vectors::number(refusal.why.number() as u64);
            vectors::number(refusal.place.0 as u64);
            io::write_all(1, b" 0 0 0 0");
        }
    }
}

// ---- the calls

// Edits the message in a buffer. It promises nothing, so that what calls it carries no promise along.
fn edited(buf: &mut [u8], used: usize, w: Wanted, list: &mut [u32]) -> Result<Edited, Refusal> {
    let edit = w.edit;
    edit::edit_message(buf, OctetCount(used), edit, w.pattern, w.instruction, list)
}

// The length of the message that is in the buffer after an edit.
fn length_after(answer: Result<Edited, Refusal>, used: usize) -> usize {
    match answer {
        Ok(made) => made.length.0,
        Err(_) => used,
    }
}

// Are two lists the same, cell by cell?
fn same(a: &[u32], b: &[u32]) -> bool {
    if a.len() != b.len() {
        return false;
    }
    let mut i = 0;
    while i < a.len() {
        if a[i] != b[i] {
            return false;
        }
        i += 1;
    }
    true
}

// Can a message be listed in the cells lent?
fn listed(msg: &[u8], list: &mut [u32]) -> bool {
    list::list(msg, list).is_ok()
}

// Lists the message afresh, and says whether a list is what that gives.
fn afresh(buf: &[u8], used: usize, list: &[u32], blank: &mut [u32]) {
    if buf.len() < used {
        io::write_all(1, b" no message\n");
        return;
    }
    if !listed(&buf[0..used], blank) {
        io::write_all(1, b" no list\n");
        return;
    }
    if same(list, blank) {
        io::write_all(1, b" same\n");
        return;
    }
    io::write_all(1, b" other\n");
}

// ---- the text

// An edit at the position that a line has from a place on.
fn placed(line: &[u8], at: usize, edit: Edit) -> Wanted
    requires { at ≤ length line.now }
    ensures { result.next ≤ length line.now }
{
    let pattern = vectors::word(line, at);
    let instruction = vectors::word(line, pattern.next);
    Wanted {
        edit,
        pattern: pattern.value as usize,
        instruction: instruction.value as usize,
        next: instruction.next,
    }
}

// The edit that a line says.
fn edit_of(line: &[u8]) -> Wanted
    requires { 2 ≤ length line.now }
    ensures { result.next ≤ length line.now }
{
    if line[0] == b'd' {
        return placed(line, 2, Edit::Delete);
    }
    let entry = vectors::word(line, 2);
    let cell = vectors::cell(entry.value);
    if line[0] == b'r' {
        return placed(line, entry.next, Edit::Replace(cell));
    }
    placed(line, entry.next, Edit::Insert(cell))
}

// Edits as a line says, and prints the line of output. It answers the length of the message that is then in the buffer.
fn edit_case(line: &[u8], used: usize, buf: &mut [u8], list: &mut [u32], blank: &mut [u32]) -> usize
    requires { 2 ≤ length line.now }
{
    let w = edit_of(line);
    vectors::name(line, w.next);
    let answer = edited(buf, used, w, list);
    show_answer(answer);
    vectors::show_octets(buf);
    vectors::number(vectors::digest_cells(list));
    let n = length_after(answer, used);
    afresh(buf, n, list, blank);
    n
}

// Inserts so many times as a line says. It answers the length of the message that is then in the buffer.
fn insert_times(line: &[u8], used: usize, buf: &mut [u8], list: &mut [u32]) -> usize
    requires { 2 ≤ length line.now }
{
    let times = vectors::word(line, 2);
    let entry = vectors::word(line, times.next);
    let w = placed(line, entry.next, Edit::Insert(vectors::cell(entry.value)));
    let mut n = used;
    let mut i = 0;
    while i < times.value {
        n = length_after(edited(buf, n, w, list), n);
        i += 1;
    }
    n
}

// Makes the calls that a line says with what is lent. It answers the length of the message that is then in the buffer.
fn call(line: &[u8], hand: InHand, buf: &mut [u8], list: &mut [u32], blank: &mut [u32]) -> usize
    requires { 2 ≤ length line.now }
{
    let octets = hand.octets;
    let cells = hand.cells;
    if buf.len() < octets {
        return hand.used;
    }
    if list.len() < cells {
        return hand.used;
    }
    if blank.len() < cells {
        return hand.used;
    }
    if line[0] == b'f' {
        return insert_times(line, hand.used, &mut buf[0..octets], &mut list[0..cells]);
    }
    edit_case(
        line,
        hand.used,
        &mut buf[0..octets],
        &mut list[0..cells],
        &mut blank[0..cells],
    )
}

// Puts the message of a line into the buffer, with the rest of it and of the lists as at the start.
fn message(
    line: &[u8],
    buf: &mut [u8; 4200],
    list: &mut [u32; 9000],
    blank: &mut [u32; 9000],
) -> InHand
    requires { 2 ≤ length line.now }
{
    *buf = [119u8; 4200];
    *list = [7u32; 9000];
    *blank = [7u32; 9000];
    let octets = vectors::word(line, 2);
    let cells = vectors::word(line, octets.next);
    InHand {
        used: vectors::add_octets(line, cells.next, buf, 0),
        octets: octets.value as usize,
        cells: cells.value as usize,
    }
}

// What a line says is used and lent.
fn lent(line: &[u8]) -> InHand
    requires { 2 ≤ length line.now }
{
    let used = vectors::word(line, 2);
    let octets = vectors::word(line, used.next);
    let cells = vectors::word(line, octets.next);
    InHand {
        used: used.value as usize,
        octets: octets.value as usize,
        cells: cells.value as usize,
    }
}

// Does what a line says, and answers what is then used and lent.
fn act(
    line: &[u8],
    hand: InHand,
    buf: &mut [u8; 4200],
    list: &mut [u32; 9000],
    blank: &mut [u32; 9000],
) -> InHand {
    if line.len() < 2 {
        return hand;
    }
    let letter = line[0];
    if letter == b'#' {
        return hand;
    }
    if letter == b'm' {
        return message(line, buf, list, blank);
    }
    if letter == b'l' {
        return lent(line);
    }
    InHand {
        used: call(line, hand, buf, list, blank),
        octets: hand.octets,
        cells: hand.cells,
    }
}

// Does what each line of a text says.
fn run(text: &[u8]) {
    let mut buf = [119u8; 4200];
    let mut list = [7u32; 9000];
    let mut blank = [7u32; 9000];
    let mut hand = InHand {
        used: 0,
        octets: 0,
        cells: 0,
    };
    let mut at = 0;
    while at < text.len() {
        hand = act(
            vectors::line(text, at),
            hand,
            &mut buf,
            &mut list,
            &mut blank,
        );
        at = vectors::next_line(text, at);
    }
}

fn main() {
    let mut text = [0u8; 32768];
    let n = vectors::read_text(&mut text);
    run(&text[..n]);
}
