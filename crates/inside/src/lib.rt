#![tactic(auto)]

// What lies inside something larger: numbers of two octets, and a tone message in its place.
ghost use Rattle.std.specs.Prelude.{◌≡◌, ◌+◌, ◌-◌, ◌≤◌, ◌<◌, length, take, drop};
ghost use Rattle.std.proofs.lemmas.List.Edits.{sets};
ghost use Rattle.bits.specs.Bits.{place_after};
ghost use Rattle.tone.specs.Reading.{read_tone};
ghost use Rattle.inside.specs.Inside.{number, pair, moved_by};
ghost use Rattle.inside.specs.Answers.{inside_of};

use bits::{BitPlace, OctetCount, Refusal};
use tone_sound::Marks;

// ---- numbers of two octets, high octet first

// The number whose two octets stand behind so many.
pub fn number_at(m: &[u8], at: OctetCount) -> usize
    requires { at.0 + 2 ≤ length m.now }
    ensures { (result ≡ number m.now at.0) × (result < 65536) }
{
    let i = at.0;
    usize::from(m[i]) * 256 + usize::from(m[i + 1])
}

// Puts the two octets of a number behind so many.
pub fn put_number(out: &mut [u8], at: OctetCount, n: usize)
    requires { (at.0 + 2 ≤ length out.old) × (n < 65536) }
    ensures { out.new ≡ sets out.old at.0 (pair n) }
{
    let i = at.0;
    out[i] = (n / 256) as u8;
    out[i + 1] = (n % 256) as u8;
}

// ---- a message in its place

// A place in a message that starts behind so many octets, counted from the first bit of what it lies in.
pub fn moved(at: BitPlace, start: OctetCount) -> BitPlace
    requires { (at.0 ≤ 32768) × (start.0 ≤ 65535) }
    ensures { result.0 ≡ place_after start.0 + at.0 }
{
    BitPlace(bits::place_after(start).0 + at.0)
}

// Judges the tone message that is a stretch of something larger, from one octet up to another. Where no tone fills it, it is judged
// by itself, which finds the fault and its place.
pub fn judge_inside(
    whole: &[u8],
    start: OctetCount,
    end: OctetCount,
    marks: &Marks,
) -> Result<(), Refusal>
    requires { (start.0 ≤ end.0) × (end.0 ≤ length whole.now) × (length whole.now ≤ 65535) }
    ensures { result ≡ inside_of (moved_by start.0 (read_tone (take (end.0 - start.0) (drop start.0 whole.now)))) }
{
    let from = start.0;
    let to = end.0;
    if to - from <= 4096 {
        if let Some(own) = tone_sound::tone_at(whole, start, marks) {
            if own.0 == to - from {
                return Ok(());
            }
        }
    }
    match tone_judge::judge(&whole[from..to]) {
        Ok(_) => Ok(()),
        Err(own) => Err(own.why.at(moved(own.place, start))),
    }
}
