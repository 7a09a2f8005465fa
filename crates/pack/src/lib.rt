#![tactic(auto)]

// Tone packs: messages back to back, a row for each, how many there are, and where the rows begin.
ghost use Rattle.std.specs.Prelude.{◌≡◌, ℕ, ◌++◌, ◌+◌, ◌*◌, ◌≤◌, ◌<◌, List, length, get_or, drop};
ghost use Rattle.std.proofs.lemmas.List.Edits.{sets};
ghost use Rattle.inside.specs.Inside.{pair, sum, cut};
ghost use Rattle.pack.specs.Pack.{rows_at, lengths_in, rows_from, pack_of, pack_length, continues as continuesBy, read_in_turn, read_pack};
ghost use Rattle.pack.specs.Answers.{turn_of, rows_judged, judged_of};
ghost use Rattle.pack.specs.Promises.{ReadPromise, FindPromise, MessagePromise, WritePromise};

use bits::{Ground, OctetCount, Refusal};
use tone_sound::Marks;
use written::Writing;

// A message that was found: the stretch of the pack that it is.
#[derive(Clone, Copy)]
pub struct Found {
    pub start: OctetCount,
    pub length: OctetCount,
}

// A pack that was judged: how many messages it has, and where its rows begin.
#[derive(Clone, Copy)]
struct Sound {
    messages: usize,
    rows: OctetCount,
}

// ---- lengths

// The lengths of messages that lie back to back.
trait Lengths {
    ghost lengths: { Self → List ℕ };

    // How many they are.
    fn count(&self) -> usize
        ensures { result ≡ length (lengths self.now) };

    // One of them, counted from 0.
    fn nth(&self, i: usize) -> usize
        requires { i < length (lengths self.now) }
        ensures { result ≡ get_or (lengths self.now) i 0 };
}

// A row of lengths.
impl<'a> Lengths for &'a [u32] {
    ghost lengths = { λ ns. ns.now };

    fn count(&self) -> usize {
        self.len()
    }

    fn nth(&self, i: usize) -> usize {
        self[i] as usize
    }
}

// The rows of a pack.
#[derive(Clone, Copy)]
struct Rows<'a> {
    pack: &'a [u8],
    from: OctetCount,
    count: usize,
    ghost inside: { from.0 + 4 * count ≤ length pack.now },
    ghost short: { length pack.now ≤ 65535 },
}

impl<'a> Lengths for Rows<'a> {
    ghost lengths = { λ rows. lengths_in (rows_at rows.count rows.pack.now rows.from.0) };

    fn count(&self) -> usize {
        self.count
    }

    fn nth(&self, i: usize) -> usize {
        inside::number_at(self.pack, OctetCount(self.from.0 + 4 * i + 2))
    }
}

// ---- judging

// Judges messages that lie back to back and have these lengths, in turn.
fn judge_in_turn<L: Lengths>(octets: &[u8], lengths: &L) -> Result<(), Refusal>
    requires { (sum (L.lengths lengths.now) ≤ length octets.now) × (length octets.now ≤ 65535) }
    ensures { result ≡ turn_of (read_in_turn 0 (cut (L.lengths lengths.now) octets.now)) }
{
    let marks = Marks::new();
    let mut at: usize = 0;
    for i in 0..lengths.count() {
        let end = at + lengths.nth(i);
        inside::judge_inside(octets, OctetCount(at), OctetCount(end), &marks)?;
        at = end;
    }
    Ok(())
}

// Whether `n` rows continue each other from octet 0 up to where they begin.
fn continues(pack: &[u8], rows: OctetCount, n: usize) -> bool
    requires { (rows.0 + 4 * n ≤ length pack.now) × (length pack.now ≤ 65535) }
    ensures { result ≡ continuesBy 0 (rows_at n pack.now rows.0) rows.0 }
{
    let mut at: usize = 0;
    for i in 0..n {
        let row = rows.0 + 4 * i;
        if inside::number_at(pack, OctetCount(row)) != at {
            return false;
        }
        at += inside::number_at(pack, OctetCount(row + 2));
    }
    at == rows.0
}

// Judges `n` rows, and then their messages.
fn judge_rows(pack: &[u8], rows: OctetCount, n: usize) -> Result<(), Refusal>
    requires { (rows.0 + 4 * n ≤ length pack.now) × (length pack.now ≤ 65535) }
    ensures { result ≡ turn_of (rows_judged pack.now rows.0 n) }
{
    if !continues(pack, rows, n) {
        return Err(Ground::PackRows.into());
    }
    judge_in_turn(
        pack,
        &Rows {
            pack,
            from: rows,
            count: n,
        },
    )
}

// Judges a pack, and changes nothing: its size, its rows, its messages.
fn judge(pack: &[u8]) -> Result<Sound, Refusal>
    ensures { result ≡ judged_of pack.now (read_pack pack.now) }
{
    let size = pack.len();
    if 65535 < size {
        return Err(Ground::TooLong.into());
    }
    if size < 4 {
        return Err(Ground::CutShort.into());
    }
    let rows = inside::number_at(pack, OctetCount(size - 2));
    let n = inside::number_at(pack, OctetCount(size - 4));
    if rows + 4 * n + 4 != size {
        return Err(Ground::PackSize.into());
    }
    judge_rows(pack, OctetCount(rows), n)?;
    Ok(Sound {
        messages: n,
        rows: OctetCount(rows),
    })
}

// ---- the calls

// Reads a pack: how many messages it has.
pub fn read(pack: &[u8]) -> Result<u32, Refusal>
    ensures { ReadPromise pack.now result }
{
    let sound = judge(pack)?;
    Ok(sound.messages as u32)
}

// Finds a message, counted from 0: the stretch of the pack that it is.
pub fn find(pack: &[u8], n: u32) -> Result<Found, Refusal>
    ensures { FindPromise pack.now n result }
{
    let sound = judge(pack)?;
    if sound.messages <= n as usize {
        return Err(Ground::NotThere.into());
    }
    let row = sound.rows.0 + 4 * n as usize;
    Ok(Found {
        start: OctetCount(inside::number_at(pack, OctetCount(row))),
        length: OctetCount(inside::number_at(pack, OctetCount(row + 2))),
    })
}

// A message, counted from 0, as a stretch of the pack. A pack that is refused, and one without that message, has none.
pub fn message(pack: &[u8], n: u32) -> &[u8]
    ensures { MessagePromise pack.entry n result }
{
    match find(pack, n) {
        Err(_) => &pack[0..0],
        Ok(found) => {
            let from = found.start.0;
            let to = from + found.length.0;
            &pack[from..to]
        }
    }
}

// ---- writing

// What lengths add up to. The bound is loose: a pack that is not too long has at most 16,382 rows, and any below 2^32 would do.
fn sum_of(lengths: &[u32]) -> OctetCount
    requires { length lengths.now ≤ 65535 }
    ensures { result.0 ≡ sum lengths.now }
{
    let mut total: usize = 0;
    for &n in lengths {
        total += n as usize;
    }
    OctetCount(total)
}

// Puts a row behind so many octets.
pub fn put_row(out: &mut [u8], at: OctetCount, start: OctetCount, n: OctetCount)
    requires { (at.0 + 4 ≤ length out.old) × (start.0 < 65536) × (n.0 < 65536) }
    ensures { out.new ≡ sets out.old at.0 (pair start.0 ++ pair n.0) }
{
    inside::put_number(out, at, start.0);
    inside::put_number(out, OctetCount(at.0 + 2), n.0);
}

// Puts a row for each length behind so many octets.
fn fill_rows(lengths: &[u32], from: OctetCount, out: &mut [u8])
    requires { (from.0 + 4 * length lengths.now ≤ length out.old) × (sum lengths.now < 65536) }
    ensures { out.new ≡ sets out.old from.0 (rows_from 0 lengths.now) }
{
    let mut start: usize = 0;
    let mut at = from.0;
    for &length in lengths {
        let n = length as usize;
        put_row(out, OctetCount(at), OctetCount(start), OctetCount(n));
        start += n;
        at += 4;
    }
}

// Puts the pack of messages that lie back to back and have these lengths to the front of a buffer.
fn fill(octets: &[u8], lengths: &[u32], out: &mut [u8])
    requires lengths_in_bounds { (pack_length octets.now lengths.now ≤ length out.old) × (pack_length octets.now lengths.now ≤ 65535) }
    requires lengths_value { sum lengths.now ≡ length octets.now }
    ensures { out.new ≡ pack_of octets.now lengths.now ++ drop (pack_length octets.now lengths.now) out.old }
{
    let rows = octets.len();
    let n = lengths.len();
    copy::copy(octets, out);
    fill_rows(lengths, OctetCount(rows), out);
    let end = rows + 4 * n;
    inside::put_number(out, OctetCount(end), n);
    inside::put_number(out, OctetCount(end + 2), rows);
}

// Writes a pack of messages that lie back to back, with a row of their lengths.
pub fn write(octets: &[u8], lengths: &[u32], out: &mut [u8]) -> Writing
    ensures { WritePromise octets.now lengths.now out.old out.new result }
{
    // tested first, so that the sum behind it cannot wrap
    if 65531 < octets.len() {
        return Err(Ground::TooLong.into());
    }
    let needed = octets.len() + 4 * lengths.len() + 4;
    if 65535 < needed {
        return Err(Ground::TooLong.into());
    }
    if sum_of(lengths).0 != octets.len() {
        return Err(Ground::PackRows.into());
    }
    judge_in_turn(octets, &lengths)?;
    if out.len() < needed {
        return Err(Ground::NoRoom.into());
    }
    fill(octets, lengths, out);
    Ok(OctetCount(needed))
}
