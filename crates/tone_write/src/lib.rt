#![tactic(auto)]

ghost use Rattle.std.specs.Prelude.{◌≡◌, true, ◌++◌, ◌+◌, ◌*◌, ◌^◌, ◌≤◌, ◌<◌, length};
ghost use Rattle.bits.specs.Choice.{pick};
ghost use Rattle.bits.specs.Bits.{bits_n, bits_of, place_after};
ghost use Rattle.bits.specs.Lent.{over};
ghost use Rattle.bits.specs.Outcome.{accepted};
ghost use Rattle.tone.specs.Table.{InTable};
ghost use Rattle.tone.specs.Tone.{per_character, characters, allowed_title};
ghost use Rattle.tone.specs.Writing.{command_bits, title_bits, front_bits, entry_bits, table_bits, tone_length, tone_octets};
ghost use Rattle.tone_read.specs.Judging.{Entries};
ghost use Rattle.tone_table.specs.Judging.{judge_table};
ghost use Rattle.tone_write.specs.Judging.{song_fine, title_fine, tone_of, write_tone};
ghost use Rattle.tone_write.specs.Appending.{reached, Appended, Begun, front_with, front_length};
ghost use Rattle.tone_write.specs.Promise.{WritePromise};

use bits::{BitPlace, Ground, OctetCount, Sink};
use written::Writing;

// ---- writing

// Writes an entry, behind what `from` holds.
fn put_entry(out: &mut [u8], from: Sink, e: u32) -> Sink
    requires in_table { InTable e }
    requires e_bound { reached from + length (entry_bits e) ≤ place_after (length out.old) }
    ensures { Appended from (entry_bits e) out.old out.new result }
{
    let kind = e / 65536;
    if kind == 1 {
        return from.put(out, 12, 512 + e % 65536);
    }
    let w = tone_elements::width(kind);
    from.put(out, 3 + w, (kind << w) + e % 65536)
}

// Writes the entries of a table.
fn put_table(out: &mut [u8], from: Sink, table: &[u32]) -> Sink
    requires entries { Entries table.now }
    requires table_bound { reached from + length (table_bits table.now) ≤ place_after (length out.old) }
    ensures { Appended from (table_bits table.now) out.old out.new result }
{
    let mut s = from;
    for &e in table {
        s = put_entry(out, s, e);
    }
    s
}

// Writes octets.
fn put_octets(out: &mut [u8], from: Sink, octets: &[u8]) -> Sink
    requires { reached from + length (bits_of octets.now) ≤ place_after (length out.old) }
    ensures { Appended from (bits_of octets.now) out.old out.new result }
{
    let mut s = from;
    for &octet in octets {
        s = s.put(out, 8, octet as u32);
    }
    s
}

// The command up to the sound part: its length, the programming part, the UNICODE part where it is present, each part with a
// filler bit behind it.
fn lead(unicode: bool) -> u32
    ensures { result ≡ pick unicode 215620 586 }
{
    if unicode { 0x034A44 } else { 0x024A }
}

// How many bits that is.
fn lead_bits(unicode: bool) -> u32
    ensures { (result ≡ pick unicode 24 16) × (result ≤ 24) }
{
    if unicode { 24 } else { 16 }
}

// Writes the command and the song type.
fn put_command(out: &mut [u8], from: Sink, unicode: bool, song: u32) -> Sink
    requires song_bound { song < 8 }
    requires song_bound_2 { reached from + length (command_bits unicode ++ bits_n 3 song) ≤ place_after (length out.old) }
    ensures { Appended from (command_bits unicode ++ bits_n 3 song) out.old out.new result }
{
    let s = from.put(out, lead_bits(unicode), lead(unicode));
    s.put(out, 10, 0b0011101000 + song)
}

// Writes the title of a basic song; a temporary one has none.
fn put_title(out: &mut [u8], from: Sink, song: u32, unicode: bool, title: &[u8]) -> Sink
    requires title_bound { characters unicode title.now ≤ 15 }
    requires title_bound_2 { reached from + length (title_bits song unicode title.now) ≤ place_after (length out.old) }
    ensures { Appended from (title_bits song unicode title.now) out.old out.new result }
{
    if song != 1 {
        return from;
    }
    let n = tone_elements::characters_in(OctetCount(title.len()), unicode);
    let s = from.put(out, 4, n);
    put_octets(out, s, title)
}

// Writes the front of a tone, at the start.
fn put_front(out: &mut [u8], song: u32, unicode: bool, title: &[u8], count: u32) -> Sink
    requires song_bound { (song < 8) × (characters unicode title.now ≤ 15) × (count < 256) }
    requires count_len_bound { length (front_bits (front_with song unicode title.now count)) ≤ place_after (length out.old) }
    ensures { Begun (front_bits (front_with song unicode title.now count)) out.old out.new result }
{
    let s = put_command(out, Sink::at(OctetCount(0)), unicode, song);
    let t = put_title(out, s, song, unicode, title);
    t.put(out, 8, count)
}

// Writes a tone that has room.
#[tactic(auto, using(crate::proofs::Filling::fills))]
fn fill(
    out: &mut [u8],
    song: u32,
    unicode: bool,
    title: &[u8],
    table: &[u32],
    count: u32,
) -> OctetCount
    requires out_value { write_tone song unicode title.now table.now (length out.old) ≡ accepted (tone_of song unicode title.now table.now) }
    requires table_value { judge_table table.now ≡ accepted count }
    ensures result_value { result.0 ≡ tone_length (tone_of song unicode title.now table.now) }
    ensures out_after { out.new ≡ over (tone_octets (tone_of song unicode title.now table.now)) out.old }
{
    let s = put_front(out, song, unicode, title, count);
    let t = put_table(out, s, table);
    t.seal(out)
}

// ---- the call

// Is it a title that the song may have?
fn titled(song: u32, unicode: bool, title: &[u8]) -> bool
    ensures { result ≡ title_fine song unicode title.now }
{
    let n = title.len();
    if song != 1 {
        return n == 0;
    }
    if unicode {
        n % 2 == 0 && n <= 30
    } else {
        n <= 15
    }
}

// Where the patterns begin, behind so many octets of title.
#[tactic(auto, using(crate::proofs::Told::fronts))]
fn front_end(song: u32, unicode: bool, octets: OctetCount) -> BitPlace
    requires { octets.0 < 2 ^ 60 }
    ensures { result.0 ≡ front_length song unicode octets.0 }
{
    let lead = lead_bits(unicode) as usize;
    if song == 1 {
        return BitPlace(lead + 22 + bits::place_after(octets).0);
    }
    BitPlace(lead + 18)
}

// Writes a tone whose song type and title are fine, and the title's characters too.
fn save(song: u32, unicode: bool, title: &[u8], table: &[u32], out: &mut [u8]) -> Writing
    requires { (song_fine song ≡ true) × (title_fine song unicode title.now ≡ true) × (allowed_title unicode title.now ≡ true) }
    ensures { WritePromise song unicode title.now table.now out.old out.new result }
{
    let judged = tone_table::judge(table)?;
    let front = front_end(song, unicode, OctetCount(title.len()));
    let end = BitPlace(front.0 + judged.bits);
    let octets = bits::octets_to(end).0 + 1;
    if 4096 < octets {
        return Err(Ground::TooLong.into());
    }
    if out.len() < octets {
        return Err(Ground::NoRoom.into());
    }
    Ok(fill(out, song, unicode, title, table, judged.patterns))
}

// Is each of a title's `n` characters allowed? Its octets are judged as those of a message are.
fn legible(unicode: bool, title: &[u8], n: u32) -> bool
    requires { (n ≤ 15) × (length title.now ≡ per_character unicode * n) }
    ensures { result ≡ allowed_title unicode title.now }
{
    tone_elements::all_allowed(title, BitPlace(0), unicode, n)
}

// Writes a tone from its song type, its title and its table.
pub fn write(song: u32, unicode: bool, title: &[u8], table: &[u32], out: &mut [u8]) -> Writing
    ensures { WritePromise song unicode title.now table.now out.old out.new result }
{
    if song == 0 || 2 < song {
        return Err(Ground::SongType.into());
    }
    if !titled(song, unicode, title) {
        return Err(Ground::Title.into());
    }
    let n = tone_elements::characters_in(OctetCount(title.len()), unicode);
    if !legible(unicode, title, n) {
        return Err(Ground::Character.into());
    }
    save(song, unicode, title, table, out)
}
