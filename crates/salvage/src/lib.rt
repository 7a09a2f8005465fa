#![tactic(auto)]

// Getting tones out of a broken pack: whole messages are kept, and what is no message is skipped octet by octet.
ghost use Rattle.std.specs.Prelude.{◌≡◌, ◌+◌, ◌*◌, ◌≤◌, length};
ghost use Rattle.std.proofs.lemmas.List.Edits.{sets};
ghost use Rattle.bits.specs.Lent.{over};
ghost use Rattle.inside.specs.Inside.{join, sum};
ghost use Rattle.pack.specs.Pack.{rows_from, lengths_in};
ghost use Rattle.tone_sound.specs.Answers.{octets_or_none};
ghost use Rattle.salvage.specs.Salvage.{counting as countingOf, message_at, stretches_in, new_pack, new_report};
ghost use Rattle.salvage.specs.Answers.{front_of, Fronts, Passed, rows_of, cells_size, Stretches, Enough, WalkedOver, HandsOut, GetsOut};
ghost use Rattle.salvage.specs.Promises.{SalvagePromise};

use bits::{Ground, OctetCount, Refusal};
use tone_sound::Marks;

// Tones that were got out: messages kept, octets of the new pack, octets skipped.
#[derive(Clone, Copy)]
pub struct Done {
    pub messages: usize,
    pub octets: OctetCount,
    pub skipped: OctetCount,
}

// What is kept of an input: how many messages, and their octets.
#[derive(Clone, Copy)]
struct Kept {
    messages: usize,
    octets: OctetCount,
}

// ---- where a message may start

// 1 where two octets may begin a message: 02 or 03 for the command's length, then 4A for its first part and the filler bit; else 0.
fn front(one: u8, two: u8) -> u8
    ensures { (result ≡ front_of one two) × (result ≤ 1) }
{
    let length = (one / 2 == 1) as u8;
    let part = (two == 0x4A) as u8;
    length * part
}

// How many of the 64 octets behind so many may begin a message. They are told without a branch for each, so that the compiler takes
// many at a time.
fn fronts(c: &[u8], at: OctetCount) -> u8
    requires { at.0 + 65 ≤ length c.now }
    ensures { Fronts c.now at.0 (at.0 + 64) result }
{
    let mut n: u8 = 0;
    let from = at.0;
    for i in 0..64 {
        n += front(c[from + i], c[from + i + 1]);
    }
    n
}

// Goes on over blocks of 64 octets of which none may begin a message.
fn over_blocks(c: &[u8], from: OctetCount) -> OctetCount
    requires { (from.0 ≤ length c.now) × (length c.now ≤ 65535) }
    ensures { Passed c.now from.0 result.0 }
{
    let mut at = from.0;
    while 65 <= c.len() - at {
        if fronts(c, OctetCount(at)) != 0 {
            return OctetCount(at);
        }
        at += 64;
    }
    OctetCount(at)
}

// Goes on to the next octet that may begin a message, or over all.
fn next_front(c: &[u8], from: OctetCount) -> OctetCount
    requires { (from.0 ≤ length c.now) × (length c.now ≤ 65535) }
    ensures { Passed c.now from.0 result.0 }
{
    let mut at = over_blocks(c, from).0;
    while 2 <= c.len() - at {
        if front(c[at], c[at + 1]) != 0 {
            return OctetCount(at);
        }
        at += 1;
    }
    OctetCount(c.len())
}

// ---- what is kept

// The message that starts behind so many octets, looked for no further than a message may reach.
fn in_reach(c: &[u8], at: OctetCount, marks: &Marks) -> Option<OctetCount>
    requires { (at.0 ≤ length c.now) × (length c.now ≤ 65535) }
    ensures { result ≡ octets_or_none (message_at c.now at.0) }
{
    let i = at.0;
    if c.len() - i <= 4096 {
        return tone_sound::tone_at(c, at, marks);
    }
    let end = i + 4096;
    tone_sound::tone_at(&c[0..end], at, marks)
}

// How many octets the message has that starts behind so many; none where no message starts there. Most octets are told by the
// first two.
fn message_at(c: &[u8], at: OctetCount, marks: &Marks) -> Option<OctetCount>
    requires { (at.0 ≤ length c.now) × (length c.now ≤ 65535) }
    ensures { result ≡ octets_or_none (message_at c.now at.0) }
{
    let i = at.0;
    if c.len() - i < 2 {
        return None;
    }
    if front(c[i], c[i + 1]) == 0 {
        return None;
    }
    in_reach(c, at, marks)
}

// Goes through what counts, and keeps a cell for each message: start × 65,536 + length. A message has at least eight octets, and
// its row four, so that no pack has more than 5,460.
fn walk(c: &[u8], cells: &mut [u32]) -> Result<Kept, Refusal>
    requires { (length c.now ≤ 65535) × Enough (length c.now) (length cells.old) }
    ensures { WalkedOver c.now cells.new result }
{
    let marks = Marks::new();
    let mut at: usize = 0;
    let mut n: usize = 0;
    let mut octets: usize = 0;
    while at < c.len() {
        match message_at(c, OctetCount(at), &marks) {
            None => at = next_front(c, OctetCount(at + 1)).0,
            Some(message) => {
                let own = message.0;
                if 65535 < octets + own + 4 * n + 8 {
                    return Err(Ground::TooLong.into());
                }
                cells[n] = (at * 65536 + own) as u32;
                n += 1;
                octets += own;
                at += own;
            }
        }
    }
    Ok(Kept {
        messages: n,
        octets: OctetCount(octets),
    })
}

// ---- what comes out

// Puts the messages of cells to the front of a buffer, back to back.
fn put_messages(c: &[u8], cells: &[u32], out: &mut [u8])
    requires stretches { Stretches c.now cells.now }
    requires cells_in_bounds { (cells_size cells.now ≤ length out.old) × (cells_size cells.now ≤ 65535) }
    ensures { out.new ≡ over (join (stretches_in c.now (rows_of cells.now))) out.old }
{
    let mut new: usize = 0;
    for &cell in cells {
        let start = (cell / 65536) as usize;
        let own = (cell % 65536) as usize;
        let end = start + own;
        copy::copy(&c[start..end], &mut out[new..]);
        new += own;
    }
}

// Puts a row of a pack for each cell behind so many octets.
fn put_rows(cells: &[u32], from: OctetCount, out: &mut [u8])
    requires { (from.0 + 4 * length cells.now ≤ length out.old) × (cells_size cells.now ≤ 65535) }
    ensures { out.new ≡ sets out.old from.0 (rows_from 0 (lengths_in (rows_of cells.now))) }
{
    let mut start: usize = 0;
    let mut at = from.0;
    for &cell in cells {
        let own = (cell % 65536) as usize;
        pack::put_row(out, OctetCount(at), OctetCount(start), OctetCount(own));
        start += own;
        at += 4;
    }
}

// Puts the pack of the messages of cells to the front of a buffer.
fn put_pack(c: &[u8], cells: &[u32], octets: OctetCount, out: &mut [u8])
    requires stretches { Stretches c.now cells.now }
    requires octets_value { octets.0 ≡ sum (lengths_in (rows_of cells.now)) }
    requires cells_in_bounds { (cells_size cells.now ≤ length out.old) × (cells_size cells.now ≤ 65535) }
    ensures { out.new ≡ over (new_pack c.now (rows_of cells.now)) out.old }
{
    let n = cells.len();
    put_messages(c, cells, out);
    put_rows(cells, octets, out);
    let end = octets.0 + 4 * n;
    inside::put_number(out, OctetCount(end), n);
    inside::put_number(out, OctetCount(end + 2), octets.0);
}

// Puts old start, new start and length of each cell to the front of a row of numbers, and how many octets are skipped behind them.
fn put_report(cells: &[u32], skipped: OctetCount, report: &mut [u32])
    requires { (3 * length cells.now + 1 ≤ length report.old) × (cells_size cells.now ≤ 65535) × (skipped.0 ≤ 65535) }
    ensures { report.new ≡ over (new_report (rows_of cells.now) skipped.0) report.old }
{
    let mut new: u32 = 0;
    let mut at: usize = 0;
    for &cell in cells {
        let own = cell % 65536;
        report[at] = cell / 65536;
        report[at + 1] = new;
        report[at + 2] = own;
        new += own;
        at += 3;
    }
    report[at] = skipped.0 as u32;
}

// ---- the call

// The part of an input that counts.
fn counting(pack: &[u8]) -> &[u8]
    ensures { result.now ≡ countingOf pack.now }
{
    if pack.len() <= 65535 {
        return pack;
    }
    &pack[0..65535]
}

// Hands out the pack of the messages of cells, and the report, where there is room for both.
fn hand_out(
    c: &[u8],
    cells: &[u32],
    octets: OctetCount,
    out: &mut [u8],
    report: &mut [u32],
) -> Result<Done, Refusal>
    requires stretches { Stretches c.now cells.now }
    requires octets_value { (octets.0 ≡ sum (lengths_in (rows_of cells.now))) × (octets.0 ≤ length c.now) }
    requires cells_bound { (cells_size cells.now ≤ 65535) × (length c.now ≤ 65535) }
    ensures { HandsOut c.now cells.now octets.0 out.old report.old out.new report.new result }
{
    let messages = cells.len();
    let needed = octets.0 + 4 * messages + 4;
    if out.len() < needed {
        return Err(Ground::NoRoom.into());
    }
    if report.len() < 3 * messages + 1 {
        return Err(Ground::NoRoom.into());
    }
    let skipped = OctetCount(c.len() - octets.0);
    put_pack(c, cells, octets, out);
    put_report(cells, skipped, report);
    Ok(Done {
        messages,
        octets: OctetCount(needed),
        skipped,
    })
}

// Gets the tones out of what counts, by way of cells.
fn get_out(c: &[u8], cells: &mut [u32], out: &mut [u8], report: &mut [u32]) -> Result<Done, Refusal>
    requires { (length c.now ≤ 65535) × Enough (length c.now) (length cells.old) }
    ensures { GetsOut c.now out.old report.old out.new report.new result }
{
    let kept = walk(c, cells)?;
    hand_out(c, &cells[0..kept.messages], kept.octets, out, report)
}

// Gets the tones out of what counts, by way of so many cells.
fn with_cells<const N: usize>(c: &[u8], out: &mut [u8], report: &mut [u32]) -> Result<Done, Refusal>
    requires { (N ≤ 5460) × (length c.now ≤ 65535) × Enough (length c.now) N }
    ensures { GetsOut c.now out.old report.old out.new report.new result }
{
    let mut cells = [0u32; N];
    get_out(c, &mut cells, out, report)
}

// Gets the tones out of a broken pack: a new pack of the messages that are kept, and a report. To clear cells takes time, so there
// are few where the input is short.
pub fn salvage(pack: &[u8], out: &mut [u8], report: &mut [u32]) -> Result<Done, Refusal>
    ensures { SalvagePromise pack.now out.old report.old out.new report.new result }
{
    let c = counting(pack);
    if c.len() <= 512 {
        return with_cells::<64>(c, out, report);
    }
    if c.len() <= 4096 {
        return with_cells::<512>(c, out, report);
    }
    with_cells::<5460>(c, out, report)
}
