#![tactic(auto)]

// What a call that fills a lent buffer with octets answers, in Rattle and across the C border.
ghost use Rattle.std.specs.Prelude.{◌≡◌};
ghost use Rattle.written.specs.Written.{numbers, answer_as};

use bits::{OctetCount, Refusal};

// The octets written, or the refusal.
pub type Writing = Result<OctetCount, Refusal>;

// The same by numbers alone.
#[repr(C)]
#[derive(Clone, Copy)]
pub struct WrittenAnswer {
    pub refusal: u32,
    pub place: usize,
    pub octets: usize,
}

impl From<Writing> for WrittenAnswer {
    ghost from_gives = { λ writing r. r ≡ answer_as (numbers writing) };

    fn from(writing: Writing) -> WrittenAnswer {
        match writing {
            Err(refusal) => WrittenAnswer {
                refusal: refusal.why.number(),
                place: refusal.place.0,
                octets: 0,
            },
            Ok(octets) => WrittenAnswer {
                refusal: 0,
                place: 0,
                octets: octets.0,
            },
        }
    }
}
