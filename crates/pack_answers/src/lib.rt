#![tactic(auto)]

// What the calls on packs answer across the C border: numbers alone, a message by where it begins and its octets.
ghost use Rattle.std.specs.Prelude.{◌≡◌, Err};
ghost use Rattle.pack.specs.Promises.{numbers_of_reading, numbers_of_finding};
ghost use Rattle.salvage.specs.Promises.{numbers_of_salvaging};
ghost use Rattle.pack_answers.specs.Promise.{pack_as, stretch_as, salvage_as, PackReadExport, PackMessageExport, PackWriteExport, PackSalvageExport};

use bits::Refusal;
use pack::Found;
use salvage::Done;
use written::WrittenAnswer;

// A pack: how many messages it has.
#[repr(C)]
#[derive(Clone, Copy)]
pub struct PackAnswer {
    pub refusal: u32,
    pub place: usize,
    pub messages: usize,
}

impl From<Result<u32, Refusal>> for PackAnswer {
    ghost from_gives = { λ reading r. r ≡ pack_as (numbers_of_reading reading) };

    fn from(reading: Result<u32, Refusal>) -> PackAnswer {
        match reading {
            Err(refusal) => PackAnswer {
                refusal: refusal.why.number(),
                place: refusal.place.0,
                messages: 0,
            },
            Ok(messages) => PackAnswer {
                refusal: 0,
                place: 0,
                messages: messages as usize,
            },
        }
    }
}

// A message: the stretch of the pack that it is.
#[repr(C)]
#[derive(Clone, Copy)]
pub struct StretchAnswer {
    pub refusal: u32,
    pub place: usize,
    pub start: usize,
    pub length: usize,
}

impl From<Result<Found, Refusal>> for StretchAnswer {
    ghost from_gives = { λ finding r. r ≡ stretch_as (numbers_of_finding finding) };

    fn from(finding: Result<Found, Refusal>) -> StretchAnswer {
        match finding {
            Err(refusal) => StretchAnswer {
                refusal: refusal.why.number(),
                place: refusal.place.0,
                start: 0,
                length: 0,
            },
            Ok(found) => StretchAnswer {
                refusal: 0,
                place: 0,
                start: found.start.0,
                length: found.length.0,
            },
        }
    }
}

// Tones that were got out of a broken pack: messages kept, octets of the new pack, octets skipped.
#[repr(C)]
#[derive(Clone, Copy)]
pub struct SalvageAnswer {
    pub refusal: u32,
    pub place: usize,
    pub messages: usize,
    pub octets: usize,
    pub skipped: usize,
}

// A refusal of that: its number and place, all other numbers 0.
impl From<Refusal> for SalvageAnswer {
    ghost from_gives = { λ refusal r. r ≡ salvage_as (numbers_of_salvaging (Err refusal)) };

    fn from(refusal: Refusal) -> SalvageAnswer {
        SalvageAnswer {
            refusal: refusal.why.number(),
            place: refusal.place.0,
            messages: 0,
            octets: 0,
            skipped: 0,
        }
    }
}

impl From<Result<Done, Refusal>> for SalvageAnswer {
    ghost from_gives = { λ salvaging r. r ≡ salvage_as (numbers_of_salvaging salvaging) };

    fn from(salvaging: Result<Done, Refusal>) -> SalvageAnswer {
        match salvaging {
            Err(refusal) => refusal.into(),
            Ok(done) => SalvageAnswer {
                refusal: 0,
                place: 0,
                messages: done.messages,
                octets: done.octets.0,
                skipped: done.skipped.0,
            },
        }
    }
}

// Reads a pack.
pub fn read_pack(pack: &[u8]) -> PackAnswer
    ensures { PackReadExport pack.now result }
{
    pack::read(pack).into()
}

// Finds a message, counted from 0.
pub fn find_message(pack: &[u8], n: u32) -> StretchAnswer
    ensures { PackMessageExport pack.now n result }
{
    pack::find(pack, n).into()
}

// Writes a pack of messages that lie back to back, with a row of their lengths.
pub fn write_pack(messages: &[u8], lengths: &[u32], out: &mut [u8]) -> WrittenAnswer
    ensures { PackWriteExport messages.now lengths.now out.old out.new result }
{
    pack::write(messages, lengths, out).into()
}

// Gets the tones out of a broken pack: a new pack, and a report.
pub fn salvage_pack(pack: &[u8], out: &mut [u8], report: &mut [u32]) -> SalvageAnswer
    ensures { PackSalvageExport pack.now out.old report.old out.new report.new result }
{
    salvage::salvage(pack, out, report).into()
}
