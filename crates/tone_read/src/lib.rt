#![tactic(auto)]

ghost use Rattle.std.specs.Prelude.{◌≡◌, ◌+◌, ◌^◌, ◌≤◌, ◌<◌, length};
ghost use Rattle.bits.specs.Bits.{place_after};
ghost use Rattle.bits.specs.Lent.{over};
ghost use Rattle.tone_elements.specs.Answers.{Within};
ghost use Rattle.tone_read.specs.Judging.{TableAt, OctetsAt, table_of, title_of};
ghost use Rattle.tone_read.specs.Promise.{ReadPromise};

use bits::{BitPlace, Ground, OctetCount, Refusal};

// What was read of a message: the song type, UNICODE or not, the title's characters, the patterns and the table's entries.
#[derive(Clone, Copy)]
pub struct Reading {
    pub song: u32,
    pub unicode: bool,
    pub characters: u32,
    pub patterns: u32,
    pub entries: u32,
}

// Writes the `n` entries that stand at a place to the table.
fn fill_table(msg: &[u8], at: BitPlace, n: usize, table: &mut [u32])
    requires within { Within msg.now at.0 }
    requires n_in_bounds { (n ≤ length table.old) × (n ≡ length (table_of msg.now)) × TableAt msg.now at.0 (table_of msg.now) }
    ensures { table.new ≡ over (table_of msg.now) table.old }
{
    let mut place = at;
    for i in 0..n {
        let c = tone_elements::entry_at(msg, place);
        table[i] = c.cell;
        place = c.next;
    }
}

// Writes so many octets that stand at a place to the title. Another octet, the pattern count, stands behind them.
fn fill_title(msg: &[u8], at: BitPlace, octets: OctetCount, title: &mut [u8])
    requires within { Within msg.now at.0 × (at.0 + place_after octets.0 + 8 ≤ place_after (length msg.now)) }
    requires octets_in_bounds { (octets.0 ≤ length title.old) × (octets.0 ≡ length (title_of msg.now)) × OctetsAt msg.now at.0 (title_of msg.now) }
    ensures { title.new ≡ over (title_of msg.now) title.old }
{
    let mut place = at;
    for i in 0..octets.0 {
        title[i] = bits::octet_at(msg, place);
        place = BitPlace(place.0 + 8);
    }
}

// Where a title of so many octets starts, in a front that ends at a place: it stands ahead of the pattern count.
fn title_place(end: BitPlace, octets: OctetCount) -> BitPlace
    requires { (8 + place_after octets.0 ≤ end.0) × (octets.0 < 2 ^ 32) }
    ensures { result.0 + place_after octets.0 + 8 ≡ end.0 }
{
    BitPlace(end.0 - 8 - bits::place_after(octets).0)
}

// Reads a tone message into a lent table and a lent title.
pub fn read(msg: &[u8], table: &mut [u32], title: &mut [u8]) -> Result<Reading, Refusal>
    ensures { ReadPromise msg.now table.old title.old table.new title.new result }
{
    let judged = tone_judge::judge(msg)?;
    let octets = judged.octets;
    let unicode = judged.unicode;
    let entries = judged.total.table;
    if title.len() < octets.0 {
        return Err(Ground::NoRoom.into());
    }
    if table.len() < entries as usize {
        return Err(Ground::NoRoom.into());
    }
    let characters = tone_elements::characters_in(octets, unicode);
    fill_title(msg, title_place(judged.at, octets), octets, title);
    fill_table(msg, judged.at, entries as usize, table);
    Ok(Reading {
        song: judged.song,
        unicode,
        characters,
        patterns: judged.patterns,
        entries,
    })
}
