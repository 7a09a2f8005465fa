#![tactic(auto)]

// Runs cases of every export and prints what each answers, a line for each call: all fields of the answer in the order in
// which the header include/ohakelm.h has them, and what was lent. What it must print was worked out from the rules and the
// header alone, by a program of another language that shares nothing with the library; of packs by hand.
//
// The cases are lines of standard input, each a letter, a space and words with one space between:
//
//   # ..                                                    a remark, passed over
//   a HEX                                                   puts octets in hand: a message, a title, an image, a pack
//                                                           or messages back to back
//   b HEX, c HEX, d HEX                                     puts a country code or a stand-in, a network code, a date
//                                                           in hand
//   t CELL CELL ..                                          puts a table in hand
//   v NAME                                                  asks for the version
//   r CELLS OCTETS NAME                                     reads a tone, with so many cells of a table and so many
//                                                           octets of a title lent
//   w SONG UNICODE OCTETS NAME                              writes a tone of the title and the table in hand
//   n UNICODE NAME                                          finds the label of the title and the stand-in in hand
//   l CELLS NAME                                            lists a tone
//   m CELLS NAME                                            lists it in both forms, with four records lent
//   e EDIT OCTETS CELLS PATTERN INSTRUCTION ENTRY NAME      replaces (0), inserts (1) or deletes (2) an instruction of the
//                                                           message in hand, with so many octets of its buffer lent
//   i KIND NAME                                             reads a bitmap (0), an icon (1) or a logo (2)
//   o KIND WIDTH HEIGHT OCTETS NAME                         writes one of the image, the codes and the date in hand
//   p NAME                                                  reads a pack
//   q N NAME                                                finds message N of a pack
//   k OCTETS NAME                                           writes a pack of the messages in hand, with the table in hand
//                                                           as their lengths
//   g TIMES OCTETS CELLS NAME                               gets the messages out of the octets in hand, so many times
//                                                           back to back, with so many octets of a pack and so many
//                                                           cells of a report lent
//
// What is in hand stays until something else is put there; a letter alone puts none. Ahead of a call all octets lent are
// 77, all cells 7, and each record is 101 to 107. A line of output has the name, the numbers of the answer, and each buffer
// that was lent, whole; of more than 48 octets it has the digest. Of each call there is a case whose answer has no number
// twice, refusal and place aside, and one that is refused where the call can refuse, so that two numbers cannot change
// places unseen.
ghost use Rattle.std.specs.Prelude.{◌≤◌, length};

use bitmap_answers::{BitmapAnswer, LogoAnswer};
use list_rules::Entry;
use ohakelm::{EditAnswer, LabelAnswer, ListAnswer, ToneAnswer};
use pack_answers::{PackAnswer, SalvageAnswer, StretchAnswer};
use written::WrittenAnswer;

// How many octets of each kind and how many cells are in hand.
#[derive(Clone, Copy)]
struct InHand {
    octets: usize,
    first: usize,
    second: usize,
    third: usize,
    cells: usize,
}

// ---- printing

// Prints what reading a pack answers.
fn show_pack(answer: PackAnswer) {
    vectors::number(answer.refusal as u64);
    vectors::number(answer.place as u64);
    vectors::number(answer.messages as u64);
}

// Prints what finding a message answers.
fn show_stretch(answer: StretchAnswer) {
    vectors::number(answer.refusal as u64);
    vectors::number(answer.place as u64);
    vectors::number(answer.start as u64);
    vectors::number(answer.length as u64);
}

// Prints what getting messages out of a broken pack answers.
fn show_salvage(answer: SalvageAnswer) {
    vectors::number(answer.refusal as u64);
    vectors::number(answer.place as u64);
    vectors::number(answer.messages as u64);
    vectors::number(answer.octets as u64);
    vectors::number(answer.skipped as u64);
}

// Prints what reading a tone answers.
fn show_tone(answer: ToneAnswer) {
    vectors::number(answer.refusal as u64);
    vectors::number(answer.place as u64);
    vectors::number(answer.song as u64);
    vectors::number(answer.unicode as u64);
    vectors::number(answer.characters as u64);
    vectors::number(answer.patterns as u64);
    vectors::number(answer.entries as u64);
}

// Prints what writing answers, and what was lent.
fn show_written(answer: WrittenAnswer, out: &[u8]) {
    vectors::number(answer.refusal as u64);
    vectors::number(answer.place as u64);
    vectors::number(answer.octets as u64);
    vectors::show_part(out);
}

// Prints what finding a label answers.
fn show_label(answer: LabelAnswer) {
    vectors::number(answer.stand_in as u64);
    vectors::number(answer.start as u64);
    vectors::number(answer.length as u64);
}

// Prints what making a list answers.
fn show_listed(answer: ListAnswer) {
    vectors::number(answer.refusal as u64);
    vectors::number(answer.place as u64);
    vectors::number(answer.entries as u64);
    vectors::number(answer.mark as u64);
}

// Prints a record.
fn show_entry(entry: Entry) {
    io::write_all(1, b":");
    vectors::number(entry.note as u64);
    vectors::number(entry.scale as u64);
    vectors::number(entry.style as u64);
    vectors::number(entry.volume as u64);
    vectors::number(entry.microseconds as u64);
    vectors::number(entry.header as u64);
    vectors::number(entry.position as u64);
}

// Prints what an edit answers.
fn show_edited(answer: EditAnswer) {
    vectors::number(answer.refusal as u64);
    vectors::number(answer.place as u64);
    vectors::number(answer.length as u64);
    vectors::number(answer.entries as u64);
    vectors::number(answer.mark as u64);
    vectors::signed(answer.change);
}

// Prints what reading a bitmap or an icon answers.
fn show_bitmap(answer: BitmapAnswer) {
    vectors::number(answer.refusal as u64);
    vectors::number(answer.place as u64);
    vectors::number(answer.width as u64);
    vectors::number(answer.height as u64);
    vectors::number(answer.black as u64);
    vectors::number(answer.start as u64);
    vectors::number(answer.length as u64);
}

// Prints what reading a logo answers.
fn show_logo(answer: LogoAnswer) {
    vectors::number(answer.refusal as u64);
    vectors::number(answer.place as u64);
    vectors::number(answer.width as u64);
    vectors::number(answer.height as u64);
    vectors::number(answer.black as u64);
    vectors::number(answer.start as u64);
    vectors::number(answer.length as u64);
    vectors::number(answer.mcc_start as u64);
    vectors::number(answer.mcc_length as u64);
    vectors::number(answer.mnc_start as u64);
    vectors::number(answer.mnc_length as u64);
    vectors::number(answer.date_start as u64);
    vectors::number(answer.date_length as u64);
}

// Prints the cells lent.
fn show_lent(cells: &[u32]) {
    io::write_all(1, b":");
    vectors::show_cells(cells);
}

// ---- the calls

// Reads a tone. Prints the answer and what was lent.
fn read(msg: &[u8], table: &mut [u32], title: &mut [u8]) {
    show_tone(ohakelm::ohakelm_read(msg, table, title));
    show_lent(table);
    vectors::show_part(title);
}

// Writes a tone.
fn write(song: u32, unicode: bool, title: &[u8], table: &[u32], out: &mut [u8]) {
    show_written(
        ohakelm::ohakelm_write(song, unicode, title, table, out),
        out,
    );
}

// Lists a tone.
fn list(msg: &[u8], cells: &mut [u32]) {
    show_listed(ohakelm::ohakelm_list(msg, cells));
    show_lent(cells);
}

// Lists a tone in both forms, with all of an array of records lent. Prints the answer, and hands the records back.
fn fill_records(msg: &[u8], cells: &mut [u32], records: [Entry; 4]) -> [Entry; 4] {
    let mut lent = records;
    show_listed(ohakelm::ohakelm_rows(msg, cells, &mut lent));
    lent
}

// The same, and prints what was lent.
fn both_forms(msg: &[u8], cells: &mut [u32]) {
    let blank = Entry {
        note: 101,
        scale: 102,
        style: 103,
        volume: 104,
        microseconds: 105,
        header: 106,
        position: 107,
    };
    let records = fill_records(msg, cells, [blank; 4]);
    show_lent(cells);
    show_entry(records[0]);
    show_entry(records[1]);
    show_entry(records[2]);
    show_entry(records[3]);
}

// Edits a message.
fn edited(
    which: u64,
    buf: &mut [u8],
    used: usize,
    pattern: usize,
    instruction: usize,
    cell: u32,
    cells: &mut [u32],
) -> EditAnswer {
    if which == 0 {
        return ohakelm::ohakelm_replace(buf, used, pattern, instruction, cell, cells);
    }
    if which == 1 {
        return ohakelm::ohakelm_insert(buf, used, pattern, instruction, cell, cells);
    }
    ohakelm::ohakelm_delete(buf, used, pattern, instruction, cells)
}

// The same. Prints the answer and what was lent.
fn edit(
    which: u64,
    buf: &mut [u8],
    used: usize,
    pattern: usize,
    instruction: usize,
    cell: u32,
    cells: &mut [u32],
) {
    show_edited(edited(which, buf, used, pattern, instruction, cell, cells));
    vectors::show_part(buf);
    show_lent(cells);
}

// The same of a message in its buffer, with so many octets and so many cells lent.
fn lend_edit(
    which: u64,
    msg: [u8; 1024],
    used: usize,
    octets: usize,
    cells: usize,
    pattern: usize,
    instruction: usize,
    cell: u32,
) {
    let mut buf = msg;
    let mut list = [7u32; 64];
    if 1024 < octets || 64 < cells {
        return;
    }
    edit(
        which,
        &mut buf[0..octets],
        used,
        pattern,
        instruction,
        cell,
        &mut list[0..cells],
    );
}

// Writes a bitmap of a kind.
fn draw(
    kind: u64,
    mcc: &[u8],
    mnc: &[u8],
    date: &[u8],
    width: u32,
    height: u32,
    image: &[u8],
    out: &mut [u8],
) {
    if kind == 0 {
        show_written(
            ohakelm::ohakelm_bitmap_write(width, height, image, out),
            out,
        );
        return;
    }
    if kind == 1 {
        show_written(ohakelm::ohakelm_icon_write(width, height, image, out), out);
        return;
    }
    show_written(
        ohakelm::ohakelm_logo_write(mcc, mnc, date, width, height, image, out),
        out,
    );
}

// ---- the text

// Reads a tone as a line says.
fn read_case(line: &[u8], msg: &[u8])
    requires { 2 ≤ length line.now }
{
    let cells = vectors::word(line, 2);
    let octets = vectors::word(line, cells.next);
    vectors::name(line, octets.next);
    let mut table = [7u32; 64];
    let mut title = [119u8; 64];
    let table_end = cells.value as usize;
    let title_end = octets.value as usize;
    if 64 < table_end || 64 < title_end {
        return;
    }
    read(msg, &mut table[0..table_end], &mut title[0..title_end]);
}

// Writes a tone as a line says.
fn write_case(line: &[u8], title: &[u8], table: &[u32])
    requires { 2 ≤ length line.now }
{
    let song = vectors::word(line, 2);
    let unicode = vectors::word(line, song.next);
    let octets = vectors::word(line, unicode.next);
    vectors::name(line, octets.next);
    let mut out = [119u8; 64];
    let end = octets.value as usize;
    if 64 < end {
        return;
    }
    write(
        vectors::cell(song.value),
        unicode.value == 1,
        title,
        table,
        &mut out[0..end],
    );
}

// Finds a label as a line says.
fn label_case(line: &[u8], title: &[u8], stand_in: &[u8])
    requires { 2 ≤ length line.now }
{
    let unicode = vectors::word(line, 2);
    vectors::name(line, unicode.next);
    show_label(ohakelm::ohakelm_label(title, unicode.value == 1, stand_in));
}

// Lists a tone, in one form or in both, as a line says.
fn list_case(line: &[u8], msg: &[u8])
    requires { 2 ≤ length line.now }
{
    let cells = vectors::word(line, 2);
    vectors::name(line, cells.next);
    let mut lent = [7u32; 64];
    let end = cells.value as usize;
    if 64 < end {
        return;
    }
    if line[0] == b'l' {
        list(msg, &mut lent[0..end]);
    } else {
        both_forms(msg, &mut lent[0..end]);
    }
}

// Edits a message as a line says.
fn edit_case(line: &[u8], msg: &[u8; 1024], used: usize)
    requires { 2 ≤ length line.now }
{
    let which = vectors::word(line, 2);
    let octets = vectors::word(line, which.next);
    let cells = vectors::word(line, octets.next);
    let pattern = vectors::word(line, cells.next);
    let instruction = vectors::word(line, pattern.next);
    let entry = vectors::word(line, instruction.next);
    vectors::name(line, entry.next);
    lend_edit(
        which.value,
        *msg,
        used,
        octets.value as usize,
        cells.value as usize,
        pattern.value as usize,
        instruction.value as usize,
        vectors::cell(entry.value),
    );
}

// Reads a bitmap of a kind as a line says.
fn bitmap_case(line: &[u8], msg: &[u8])
    requires { 2 ≤ length line.now }
{
    let kind = vectors::word(line, 2);
    vectors::name(line, kind.next);
    if kind.value == 0 {
        show_bitmap(ohakelm::ohakelm_bitmap_read(msg));
    } else if kind.value == 1 {
        show_bitmap(ohakelm::ohakelm_icon_read(msg));
    } else {
        show_logo(ohakelm::ohakelm_logo_read(msg));
    }
}

// Writes a bitmap of a kind as a line says.
fn draw_case(line: &[u8], image: &[u8], mcc: &[u8], mnc: &[u8], date: &[u8])
    requires { 2 ≤ length line.now }
{
    let kind = vectors::word(line, 2);
    let width = vectors::word(line, kind.next);
    let height = vectors::word(line, width.next);
    let octets = vectors::word(line, height.next);
    vectors::name(line, octets.next);
    let mut out = [119u8; 64];
    let end = octets.value as usize;
    if 64 < end {
        return;
    }
    draw(
        kind.value,
        mcc,
        mnc,
        date,
        vectors::cell(width.value),
        vectors::cell(height.value),
        image,
        &mut out[0..end],
    );
}

// Writes a pack with all of a buffer lent. Prints the answer and the buffer.
fn write_pack(msgs: &[u8], lengths: &[u32], out: &mut [u8]) {
    let answer = ohakelm::ohakelm_pack_write(msgs, lengths, out);
    show_written(answer, out);
}

// Gets messages out with all of both buffers lent. Prints the answer and the buffers.
fn salvage(pack: &[u8], out: &mut [u8], report: &mut [u32]) {
    show_salvage(ohakelm::ohakelm_pack_salvage(pack, out, report));
    vectors::show_part(out);
    show_lent(report);
}

// Puts octets so many times to the front of a buffer, back to back. It answers how many are then there.
fn repeat(part: &[u8], times: u64, buf: &mut [u8]) -> usize {
    let mut n = 0;
    let mut i = 0;
    while i < times {
        n = vectors::add_part(part, buf, n);
        i += 1;
    }
    n
}

// Gets messages out as a line says.
fn salvage_case(line: &[u8], octets: &[u8])
    requires { 2 ≤ length line.now }
{
    let times = vectors::word(line, 2);
    let room = vectors::word(line, times.next);
    let cells = vectors::word(line, room.next);
    vectors::name(line, cells.next);
    let mut pack = [0u8; 65600];
    let used = repeat(octets, times.value, &mut pack);
    let mut out = [119u8; 64];
    let mut report = [7u32; 64];
    let out_end = room.value as usize;
    let report_end = cells.value as usize;
    if 64 < out_end || 64 < report_end {
        return;
    }
    salvage(
        vectors::front(&pack, used),
        &mut out[0..out_end],
        &mut report[0..report_end],
    );
}

// Makes the call on a pack that a line says.
fn pack_case(line: &[u8], octets: &[u8], lengths: &[u32])
    requires { 2 ≤ length line.now }
{
    if line[0] == b'g' {
        salvage_case(line, octets);
        return;
    }
    if line[0] == b'p' {
        vectors::name(line, 2);
        show_pack(ohakelm::ohakelm_pack_read(octets));
        return;
    }
    let number = vectors::word(line, 2);
    vectors::name(line, number.next);
    if line[0] == b'q' {
        let n = vectors::cell(number.value);
        show_stretch(ohakelm::ohakelm_pack_message(octets, n));
        return;
    }
    let mut out = [119u8; 64];
    let end = number.value as usize;
    if 64 < end {
        return;
    }
    write_pack(octets, lengths, &mut out[0..end]);
}

// Is it the letter of a call on a pack?
fn for_pack(letter: u8) -> bool {
    if letter == b'p' {
        return true;
    }
    if letter == b'q' {
        return true;
    }
    if letter == b'g' {
        return true;
    }
    letter == b'k'
}

// Makes the call on a tone that a line says.
fn tone_call(line: &[u8], hand: InHand, octets: &[u8; 1024], first: &[u8], cells: &[u32])
    requires { 2 ≤ length line.now }
{
    let letter = line[0];
    let used = hand.octets;
    let end = hand.cells;
    if letter == b'e' {
        edit_case(line, octets, used);
        return;
    }
    let msg = vectors::front(octets, used);
    if letter == b'r' {
        read_case(line, msg);
        return;
    }
    if letter == b'w' {
        if cells.len() < end {
            return;
        }
        write_case(line, msg, &cells[0..end]);
        return;
    }
    if letter == b'n' {
        label_case(line, msg, vectors::front(first, hand.first));
        return;
    }
    list_case(line, msg);
}

// Makes the call that a line says with what is in hand.
fn call(
    line: &[u8],
    hand: InHand,
    octets: &[u8; 1024],
    first: &[u8],
    second: &[u8],
    third: &[u8],
    cells: &[u32],
)
    requires { 2 ≤ length line.now }
{
    let letter = line[0];
    if letter == b'v' {
        vectors::name(line, 2);
        vectors::number(ohakelm::ohakelm_version() as u64);
        return;
    }
    if letter == b'i' {
        bitmap_case(line, vectors::front(octets, hand.octets));
        return;
    }
    if letter == b'o' {
        draw_case(
            line,
            vectors::front(octets, hand.octets),
            vectors::front(first, hand.first),
            vectors::front(second, hand.second),
            vectors::front(third, hand.third),
        );
        return;
    }
    if for_pack(letter) {
        let end = hand.cells;
        if cells.len() < end {
            return;
        }
        pack_case(line, vectors::front(octets, hand.octets), &cells[0..end]);
        return;
    }
    tone_call(line, hand, octets, first, cells);
}

// Puts what a line gives in hand, and answers what is then in hand.
fn put(
    line: &[u8],
    hand: InHand,
    octets: &mut [u8; 1024],
    first: &mut [u8; 32],
    second: &mut [u8; 32],
    third: &mut [u8; 32],
    cells: &mut [u32; 32],
) -> InHand
    requires { 1 ≤ length line.now }
{
    let mut h = hand;
    let letter = line[0];
    if letter == b'a' {
        *octets = [119u8; 1024];
        h.octets = vectors::add_octets(line, 2, octets, 0);
        return h;
    }
    if letter == b'b' {
        h.first = vectors::add_octets(line, 2, first, 0);
        return h;
    }
    if letter == b'c' {
        h.second = vectors::add_octets(line, 2, second, 0);
        return h;
    }
    if letter == b'd' {
        h.third = vectors::add_octets(line, 2, third, 0);
        return h;
    }
    h.cells = vectors::add_cells(line, 2, cells, 0);
    h
}

// Does what a line says, and answers what is then in hand.
fn act(
    line: &[u8],
    hand: InHand,
    octets: &mut [u8; 1024],
    first: &mut [u8; 32],
    second: &mut [u8; 32],
    third: &mut [u8; 32],
    cells: &mut [u32; 32],
) -> InHand {
    if line.len() < 1 {
        return hand;
    }
    let letter = line[0];
    if letter == b'#' {
        return hand;
    }
    if letter < b'e' || letter == b't' {
        return put(line, hand, octets, first, second, third, cells);
    }
    if line.len() < 2 {
        return hand;
    }
    call(line, hand, octets, first, second, third, cells);
    io::write_all(1, b"\n");
    hand
}

// Does what each line of a text says.
fn run(text: &[u8]) {
    let mut octets = [119u8; 1024];
    let mut first = [0u8; 32];
    let mut second = [0u8; 32];
    let mut third = [0u8; 32];
    let mut cells = [0u32; 32];
    let mut hand = InHand {
        octets: 0,
        first: 0,
        second: 0,
        third: 0,
        cells: 0,
    };
    let mut at = 0;
    while at < text.len() {
        hand = act(
            vectors::line(text, at),
            hand,
            &mut octets,
            &mut first,
            &mut second,
            &mut third,
            &mut cells,
        );
        at = vectors::next_line(text, at);
    }
}

fn main() {
    let mut text = [0u8; 32768];
    let n = vectors::read_text(&mut text);
    run(&text[..n]);
}
