#![tactic(auto)]

// What reading a bitmap of a kind answers across the C border: numbers alone, each stretch by where it begins and its octets.
ghost use Rattle.std.specs.Prelude.{◌≡◌};
ghost use Rattle.bitmap_kinds.specs.Promises.{numbers_of_reading};
ghost use Rattle.bitmap_answers.specs.Promise.{icon_as, IconReadExport, logo_as, LogoReadExport};

use bitmap_ahead::Kind;
use bitmap_kinds::Reading;
use bits::Refusal;

// A bitmap or an icon: with the sizes and the black pixels the stretch of the message that is the image.
#[repr(C)]
#[derive(Clone, Copy)]
pub struct BitmapAnswer {
    pub refusal: u32,
    pub place: usize,
    pub width: u32,
    pub height: u32,
    pub black: u32,
    pub start: usize,
    pub length: usize,
}

impl From<Result<Reading, Refusal>> for BitmapAnswer {
    ghost from_gives = { λ reading r. r ≡ icon_as (numbers_of_reading reading) };

    fn from(reading: Result<Reading, Refusal>) -> BitmapAnswer {
        match reading {
            Err(refusal) => BitmapAnswer {
                refusal: refusal.why.number(),
                place: refusal.place.0,
                width: 0,
                height: 0,
                black: 0,
                start: 0,
                length: 0,
            },
            Ok(icon) => BitmapAnswer {
                refusal: 0,
                place: 0,
                width: icon.width,
                height: icon.height,
                black: icon.black,
                start: icon.fields.image.start.0,
                length: icon.fields.image.length.0,
            },
        }
    }
}

// A logo: the same, and the stretches that are the two codes and the date.
#[repr(C)]
#[derive(Clone, Copy)]
pub struct LogoAnswer {
    pub refusal: u32,
    pub place: usize,
    pub width: u32,
    pub height: u32,
    pub black: u32,
    pub start: usize,
    pub length: usize,
    pub mcc_start: usize,
    pub mcc_length: usize,
    pub mnc_start: usize,
    pub mnc_length: usize,
    pub date_start: usize,
    pub date_length: usize,
}

impl From<Result<Reading, Refusal>> for LogoAnswer {
    ghost from_gives = { λ reading r. r ≡ logo_as (numbers_of_reading reading) };

    fn from(reading: Result<Reading, Refusal>) -> LogoAnswer {
        match reading {
            Err(refusal) => LogoAnswer {
                refusal: refusal.why.number(),
                place: refusal.place.0,
                width: 0,
                height: 0,
                black: 0,
                start: 0,
                length: 0,
                mcc_start: 0,
                mcc_length: 0,
                mnc_start: 0,
                mnc_length: 0,
                date_start: 0,
                date_length: 0,
            },
            Ok(logo) => LogoAnswer {
                refusal: 0,
                place: 0,
                width: logo.width,
                height: logo.height,
                black: logo.black,
                start: logo.fields.image.start.0,
                length: logo.fields.image.length.0,
                mcc_start: logo.fields.mcc.start.0,
                mcc_length: logo.fields.mcc.length.0,
                mnc_start: logo.fields.mnc.start.0,
                mnc_length: logo.fields.mnc.length.0,
                date_start: logo.fields.date.start.0,
                date_length: logo.fields.date.length.0,
            },
        }
    }
}

// Reads an icon.
#[tactic(auto, using(crate::proofs::Exits::icon_told))]
pub fn read_icon(msg: &[u8]) -> BitmapAnswer
    ensures { IconReadExport msg.now result }
{
    bitmap_kinds::read(Kind::Icon, msg).into()
}

// Reads a logo.
pub fn read_logo(msg: &[u8]) -> LogoAnswer
    ensures { LogoReadExport msg.now result }
{
    bitmap_kinds::read(Kind::Logo, msg).into()
}
