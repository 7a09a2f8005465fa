#![tactic(auto)]

// The text of a playing list, as the program prints it: an answer, and the list that came with it, put into a buffer.
ghost use Rattle.std.specs.Prelude.{◌≡◌, ◌+◌, ◌*◌, ◌%◌, ◌≤◌, length};
ghost use Rattle.bits.specs.Refusals.{number_of};
ghost use Rattle.list_rules.specs.Sounding.{entry_cells};
ghost use Rattle.list_text.specs.Text.{Added, digits, places as places_of, number, line, lines, mark_text, opening, refusal, answer_of};

use bits::{OctetCount, Refusal};
use list_rules::Entry;

// ---- octets and numbers

// Puts octets behind the text.
fn put_text(out: &mut [u8], at: OctetCount, src: &[u8]) -> OctetCount
    requires { at.0 + length src.now ≤ length out.old }
    ensures added { Added out.old at.0 src.now out.new result.0 }
    ensures result_value { result.0 ≡ at.0 + length src.now }
{
    let end = at.0 + src.len();
    out[at.0..end].copy_from_slice(src);
    OctetCount(end)
}

// The digits that a number takes in decimal.
#[tactic(auto, unfolding(crate::specs::Text::places))]
fn places(n: u32) -> usize
    ensures value { result ≡ places_of n }
    ensures upper_bound { result ≤ 10 }
{
    if n < 10 {
        return 1;
    }
    if n < 100 {
        return 2;
    }
    if n < 1000 {
        return 3;
    }
    if n < 10000 {
        return 4;
    }
    if n < 100000 {
        return 5;
    }
    if n < 1000000 {
        return 6;
    }
    if n < 10000000 {
        return 7;
    }
    if n < 100000000 {
        return 8;
    }
    if n < 1000000000 {
        return 9;
    }
    10
}

// The last digit of a number, as a character.
fn last_digit(n: u32) -> u8
    ensures { result ≡ 48 + n % 10 }
{
    48 + (n % 10) as u8
}

// Puts the last k digits of a number behind the text, by hand: those of `itoa` come in a row of its own, and the text of a list took
// nearly twice the time with the copy out of it.
fn put_digits(out: &mut [u8], at: OctetCount, k: usize, n: u32)
    requires { at.0 + k ≤ length out.old }
    ensures { Added out.old at.0 (digits k n) out.new (at.0 + k) }
{
    let first = at.0;
    let mut i = k;
    let mut rest = n;
    while i > 0 {
        i -= 1;
        out[first + i] = last_digit(rest);
        rest /= 10;
    }
}

// Puts a number in decimal and a character behind the text, and answers where the text now ends.
fn put_number(out: &mut [u8], at: OctetCount, n: u32, behind: u8) -> OctetCount
    requires { at.0 + 11 ≤ length out.old }
    ensures added { Added out.old at.0 (number n behind) out.new result.0 }
    ensures result_bound { result.0 ≤ at.0 + 11 }
{
    let k = places(n);
    put_digits(out, at, k, n);
    let end = at.0 + k;
    out[end] = behind;
    OctetCount(end + 1)
}

// ---- lines

// Puts a line for an entry behind the text: seven numbers, of at most eleven octets each.
fn put_entry(out: &mut [u8], at: OctetCount, entry: Entry) -> OctetCount
    requires { at.0 + 77 ≤ length out.old }
    ensures added { Added out.old at.0 (line entry) out.new result.0 }
    ensures result_bound { result.0 ≤ at.0 + 77 }
{
    let at = put_number(out, at, entry.note, b' ');
    let at = put_number(out, at, entry.scale, b' ');
    let at = put_number(out, at, entry.style, b' ');
    let at = put_number(out, at, entry.volume, b' ');
    let at = put_number(out, at, entry.microseconds, b' ');
    let at = put_number(out, at, entry.header, b' ');
    put_number(out, at, entry.position, b'\n')
}

// Puts the lines for the first entries of a list behind the text.
#[tactic(auto, using(crate::proofs::Texts::lining))]
fn put_entries(out: &mut [u8], start: OctetCount, list: &[u32], entries: usize) -> OctetCount
    requires { (start.0 + entries * 77 ≤ length out.old) × (entries * entry_cells ≤ length list.now) }
    ensures added { Added out.old start.0 (lines entries list.now) out.new result.0 }
    ensures result_in_bounds { result.0 ≤ length out.new }
{
    let mut at = start;
    for i in 0..entries {
        at = put_entry(out, at, list_rules::entry_at(list, i));
    }
    at
}

// Puts the return mark and a line's end behind the text.
fn put_mark(out: &mut [u8], at: OctetCount, mark: u32) -> OctetCount
    requires { at.0 + 11 ≤ length out.old }
    ensures added { Added out.old at.0 (mark_text mark) out.new result.0 }
    ensures result_bound { result.0 ≤ at.0 + 11 }
{
    if mark == 4294967295 {
        return put_text(out, at, b"none\n");
    }
    put_number(out, at, mark, b'\n')
}

// Puts the first line of a list at the front.
fn put_opening(out: &mut [u8], entries: u32, mark: u32) -> OctetCount
    requires { 64 ≤ length out.old }
    ensures added { Added out.old 0 (opening entries mark) out.new result.0 }
    ensures result_bound { result.0 ≤ 64 }
{
    let at = put_text(out, OctetCount(0), b"entries ");
    let at = put_number(out, at, entries, b' ');
    let at = put_text(out, at, b"return ");
    put_mark(out, at, mark)
}

// Puts the line of a refusal at the front. A message has no more than 32,768 bits, so the place is a number of 32 bits.
fn put_refusal(out: &mut [u8], refused: Refusal) -> OctetCount
    requires in_bounds { 64 ≤ length out.old }
    requires place_bound { refused.place.0 ≤ 32768 }
    ensures added { Added out.old 0 (refusal (number_of refused.why) refused.place.0) out.new result.0 }
    ensures result_bound { result.0 ≤ 64 }
{
    let at = put_text(out, OctetCount(0), b"refused ");
    let at = put_number(out, at, refused.why.number(), b' ');
    let at = put_text(out, at, b"at ");
    put_number(out, at, refused.place.0 as u32, b'\n')
}

// ---- the whole text

// Makes a message's list and puts the answer into the buffer as text. An entry has three cells and a line of at most 77
// octets, so 26 octets for each cell are enough.
pub fn answer(msg: &[u8], list: &mut [u32], text: &mut [u8]) -> OctetCount
    requires { length list.old * 26 + 64 ≤ length text.old }
    ensures added { Added text.old 0 (answer_of msg.now list.old) text.new result.0 }
    ensures result_in_bounds { result.0 ≤ length text.new }
{
    match list::list(msg, list) {
        Ok(listed) => {
            let at = put_opening(text, listed.entries, listed.mark);
            put_entries(text, at, list, listed.entries as usize)
        }
        Err(refused) => put_refusal(text, refused),
    }
}
