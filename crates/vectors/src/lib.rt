#![tactic(auto)]

// What the programs of vectors share: printing numbers, octets and cells, and taking apart the lines of text that give the
// cases of most.
ghost use Rattle.std.specs.Prelude.{◌<◌, ◌≤◌, length};
ghost use Rattle.io.specs.Counts.{IsPrefixLen};

// A number of the text, and where the next word starts.
#[derive(Clone, Copy)]
pub struct Parsed {
    pub value: u64,
    pub next: usize,
}

// Which octets are changed in turn: so many from a place on. What they are changed by, and where the name of the case starts
// in its line.
#[derive(Clone, Copy)]
pub struct Changes {
    pub from: usize,
    pub octets: usize,
    pub by: u8,
    pub name: usize,
}

// ---- printing

// Prints a number, and a space ahead of it.
pub fn number(n: u64) {
    io::write_all(1, b" ");
    io::print_decimal(1, n);
}

// Prints a change, which may be negative. No edit of one instruction changes more than two octets, so the cases are few,
// and no signed number is converted. It answers as the call that writes does.
pub fn signed(n: i32) -> bool {
    match n {
        -2 => io::write_all(1, b" -2"),
        -1 => io::write_all(1, b" -1"),
        0 => io::write_all(1, b" 0"),
        1 => io::write_all(1, b" 1"),
        2 => io::write_all(1, b" 2"),
        _ => io::write_all(1, b" more"),
    }
}

// Prints octets, each as two hexadecimal digits.
fn octets(s: &[u8]) {
    for &x in s {
        io::print_hex(1, u64::from(x), 2);
    }
}

// Prints cells.
pub fn cells(s: &[u32]) {
    for &x in s {
        number(u64::from(x));
    }
}

// Octets as one number, to which each octet and its place matter.
pub fn digest(s: &[u8]) -> u64 {
    s.iter().fold(1, |d, &x| mixed(d, u64::from(x)))
}

// The same of cells.
pub fn digest_cells(s: &[u32]) -> u64 {
    s.iter().fold(1, |d, &x| mixed(d, u64::from(x)))
}

// A digest with one number more.
pub fn mixed(d: u64, n: u64) -> u64 {
    (d % 1000003 * 31 + n % 1000003) % 1000003
}

// Prints a buffer of octets and a space ahead of it: all of them, or their digest where there are many.
pub fn show_octets(s: &[u8]) {
    if s.len() <= 48 {
        io::write_all(1, b" ");
        octets(s);
    } else {
        number(digest(s));
    }
}

// The same of cells.
pub fn show_cells(s: &[u32]) {
    if s.len() <= 48 {
        cells(s);
    } else {
        number(digest_cells(s));
    }
}

// Prints a part of a buffer that was handed back: its octets counted, and the octets.
pub fn show_part(s: &[u8]) {
    io::write_all(1, b":");
    number(s.len() as u64);
    if !s.is_empty() {
        show_octets(s);
    }
}

// ---- the text

// The value of a digit, hexadecimal or decimal.
fn digit(x: u8) -> u8
    ensures { result < 16 }
{
    if x < b'a' {
        return x % 16;
    }
    (x - 87) % 16
}

// A number with one decimal digit more, as far as it is below 2 ^ 64.
fn with_digit(value: u64, x: u8) -> u64 {
    std::num::wrapping_add_u64(value % 1844674407370955162 * 10, u64::from(digit(x)))
}

// The number that starts at a place, and the place behind the space that ends it.
pub fn word(line: &[u8], at: usize) -> Parsed
    requires { at ≤ length line.now }
    ensures { (at ≤ result.next) × (result.next ≤ length line.now) }
{
    let mut value: u64 = 0;
    let mut i = at;
    while i < line.len() {
        let x = line[i];
        i += 1;
        if x == b' ' {
            return Parsed { value, next: i };
        }
        value = with_digit(value, x);
    }
    Parsed { value, next: i }
}

// A number of the text as a cell.
pub fn cell(value: u64) -> u32 {
    (value % 4294967296) as u32
}

// Takes the text of standard input into a buffer, and says so where it may be longer. It answers how many octets there are.
pub fn read_text(buf: &mut [u8]) -> usize
    ensures { IsPrefixLen result buf.new }
{
    let n = io::read_full(0, buf);
    if n == buf.len() {
        io::write_all(1, b"there may be more cases than there is room for\n");
    }
    n
}

// Where the line that starts at a place ends.
fn line_end(text: &[u8], at: usize) -> usize
    requires { at ≤ length text.now }
    ensures { (at ≤ result) × (result ≤ length text.now) }
{
    match text[at..].iter().position(|&x| x == b'\n') {
        Some(n) => at + n,
        None => text.len(),
    }
}

// The line that starts at a place, without its end.
pub fn line(text: &[u8], at: usize) -> &[u8]
    requires { at ≤ length text.now }
{
    let end = line_end(text, at);
    &text[at..end]
}

// Where the line behind that one starts.
pub fn next_line(text: &[u8], at: usize) -> usize
    requires { at ≤ length text.now }
    ensures { at < result }
{
    line_end(text, at) + 1
}

// The octet that two hexadecimal digits from a place on give; 0 where there is one digit only.
fn octet_at(line: &[u8], at: usize) -> u8
    requires { at < length line.now }
{
    let low = at + 1;
    if low == line.len() {
        return 0;
    }
    digit(line[at]) * 16 + digit(line[low])
}

// Puts the octets of a line, from a place on, behind those in a buffer. It answers how many are then in it.
pub fn add_octets(line: &[u8], from: usize, buf: &mut [u8], used: usize) -> usize {
    let mut n = used;
    let mut i = from;
    while n < buf.len() {
        if line.len() <= i {
            return n;
        }
        buf[n] = octet_at(line, i);
        n += 1;
        i += 2;
    }
    n
}

// Puts the cells of a line, from a place on, behind those in a table. It answers how many are then in it.
pub fn add_cells(line: &[u8], from: usize, table: &mut [u32], used: usize) -> usize {
    let mut n = used;
    let mut i = from;
    while n < table.len() {
        if line.len() <= i {
            return n;
        }
        let w = word(line, i);
        table[n] = cell(w.value);
        i = w.next;
        n += 1;
    }
    n
}

// Puts a part of another buffer behind those in a buffer, as far as it has room. It answers how many are then in it.
pub fn add_part(part: &[u8], buf: &mut [u8], used: usize) -> usize {
    let mut n = used;
    for &x in part {
        let Some(place) = buf.get_mut(n) else {
            break;
        };
        *place = x;
        n += 1;
    }
    n
}

// The first octets of a buffer; all where it has no more.
pub fn front(s: &[u8], octets: usize) -> &[u8] {
    &s[..octets.min(s.len())]
}

// Prints the name of a case, which a line has from a place on.
pub fn name(line: &[u8], at: usize)
    requires { at ≤ length line.now }
{
    io::write_all(1, &line[at..]);
    io::write_all(1, b":");
}

// ---- what is in hand

// Puts the octets of a line behind those in a buffer, so many times as its first word says. It answers how many are then in
// it.
pub fn add_times(line: &[u8], buf: &mut [u8], used: usize) -> usize
    requires { 2 ≤ length line.now }
{
    let times = word(line, 2);
    let mut n = used;
    for _ in 0..times.value {
        n = add_octets(line, times.next, buf, n);
    }
    n
}

// Puts octets behind those in a buffer, the same as stand in it from a place on, which runs along. It answers how many are
// then in it.
fn add_again(buf: &mut [u8], used: usize, from: usize, octets: usize) -> usize {
    let mut n = used;
    for src in from..from.saturating_add(octets) {
        if n <= src || buf.len() <= n {
            break;
        }
        buf[n] = buf[src];
        n += 1;
    }
    n
}

// Keeps the first octets in hand (`k`), puts some over them (`a`) or puts some again behind them (another letter), as a line
// says. It answers how many are then in hand.
pub fn change_hand(line: &[u8], octets: &mut [u8], used: usize) -> usize
    requires { 2 ≤ length line.now }
{
    let letter = line[0];
    let w = word(line, 2);
    if letter == b'k' {
        return used.min(w.value as usize);
    }
    if letter == b'a' {
        add_octets(line, w.next, octets, w.value as usize);
        return used;
    }
    let many = word(line, w.next);
    add_again(octets, used, w.value as usize, many.value as usize)
}

// ---- what is changed in turn

// The changes that a line says: where, how many and, unless each other octet is tried (`e`), by what.
pub fn changes_in(line: &[u8]) -> Changes
    requires { 2 ≤ length line.now }
    ensures { result.name ≤ length line.now }
{
    let from = word(line, 2);
    let octets = word(line, from.next);
    let mut which = Changes {
        from: from.value as usize,
        octets: octets.value as usize,
        by: 0,
        name: octets.next,
    };
    if line[0] == b'e' {
        return which;
    }
    let by = word(line, octets.next);
    which.by = (by.value % 256) as u8;
    which.name = by.next;
    which
}

// An octet with bits turned (`s`), or another one in its place, as the letter of the case says.
pub fn other(letter: u8, old: u8, by: u8) -> u8 {
    if letter == b's' {
        return old ^ by;
    }
    by
}
