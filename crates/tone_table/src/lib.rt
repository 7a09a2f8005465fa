#![tactic(auto)]

ghost use Rattle.std.specs.Prelude.{◌≡◌, ◌+◌, ◌^◌, ◌≤◌, length, drop, ltb};
ghost use Rattle.tone_table.specs.Judging.{judge_table};
ghost use Rattle.tone_table.specs.Answers.{entry_weight, header_length, instruction_length, body_length, weighed_of, judged_of, at_most};

use bits::Ground;

// A table that was judged: how many patterns it has and how many bits it takes.
#[derive(Clone, Copy)]
pub struct Judged {
    pub patterns: u32,
    pub bits: usize,
}

// Does the payload fit so many bits?
fn fits(payload: u32, w: u32) -> bool
    requires { w ≤ 14 }
    ensures { result ≡ ltb payload (2 ^ w) }
{
    payload < (1u32 << w)
}

// The bits of an entry, where it is in the instruction table. A note is the common one, so it is tested first.
#[tactic(auto, using(crate::proofs::Weights::weights))]
fn entry_bits(e: u32) -> Option<u32>
    ensures { result ≡ entry_weight e }
{
    let kind = e / 65536;
    let payload = e % 65536;
    if kind == 1 {
        if tone_elements::allowed(1, payload) {
            return Some(12);
        }
        return None;
    }
    if 5 < kind {
        return None;
    }
    let w = tone_elements::width(kind);
    if fits(payload, w) && tone_elements::allowed(kind, payload) {
        return Some(3 + w);
    }
    None
}

// The bits of an instruction where one is due.
#[tactic(auto, using(crate::proofs::Weights::instructions))]
fn instruction(e: u32) -> Result<u32, Ground>
    ensures { result ≡ weighed_of (instruction_length e) }
{
    let bits = entry_bits(e).ok_or(Ground::Code)?;
    if e < 65536 {
        return Err(Ground::TableShape);
    }
    Ok(bits)
}

// The bits of a header where one is due. `known` says which of A to D are defined.
#[tactic(auto, using(crate::proofs::Weights::headers))]
fn header(known: [bool; 4], e: u32) -> Result<u32, Ground>
    ensures { result ≡ weighed_of (header_length known e) }
{
    if 16384 <= e {
        entry_bits(e).ok_or(Ground::Code)?;
        return Err(Ground::TableShape);
    }
    if e % 256 == 0 && !known[(e / 4096 % 4) as usize] {
        return Err(Ground::NoRecall);
    }
    Ok(17)
}

// The bits of the `n` instructions that are due at the front of `rest`.
#[tactic(auto, using(crate::proofs::Weights::bodies))]
fn body(rest: &[u32], n: u32) -> Result<u32, Ground>
    requires { n ≤ 255 }
    ensures { result ≡ weighed_of (body_length n rest.now) }
{
    let due = rest.len().min(n as usize);
    let mut bits: u32 = 0;
    for &e in &rest[..due] {
        bits += instruction(e)?;
    }
    if due < n as usize {
        return Err(Ground::TableShape);
    }
    Ok(bits)
}

// So many bits and so many more; counting stops once they are more than a message can hold.
fn longer(bits: usize, more: u32) -> usize
    requires { bits ≤ 32769 }
    ensures { result ≡ at_most (bits + more) }
{
    (bits + more as usize).min(32769)
}

// Judges a whole table.
#[tactic(auto, using(crate::proofs::Walks::rows))]
pub fn judge(table: &[u32]) -> Result<Judged, Ground>
    ensures { result ≡ judged_of table.now (judge_table table.now) }
{
    let mut known = [false; 4];
    let mut patterns: usize = 0;
    let mut bits: usize = 0;
    let mut i: usize = 0;
    while i < table.len() {
        let e = table[i];
        let own = header(known, e)?;
        let more = body(&table[i + 1..], e % 256)?;
        known[(e / 4096 % 4) as usize] = true;
        bits = longer(bits, own + more);
        patterns += 1;
        i += 1 + (e % 256) as usize;
    }
    if patterns == 0 {
        return Err(Ground::NoPattern);
    }
    if 255 < patterns {
        return Err(Ground::TableShape);
    }
    Ok(Judged {
        patterns: patterns as u32,
        bits,
    })
}
