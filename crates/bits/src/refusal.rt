ghost use Rattle.std.specs.Prelude.{◌≡◌};
ghost use Rattle.bits.specs.Places.{place};
ghost use Rattle.bits.specs.Refusals.{number_of};

use crate::BitPlace;

// Why something is refused, by the number that document 01 gives it. 19 is not given, and 22 to 25 not yet.
#[derive(Clone, Copy, PartialEq, Eq)]
pub enum Ground {
    TooLong = 1,
    CutShort = 2,
    Command = 3,
    SongType = 4,
    NoPattern = 5,
    Code = 6,
    NoRecall = 7,
    Filler = 8,
    EndOctet = 9,
    AfterEnd = 10,
    NoRoom = 11,
    NotThere = 12,
    OnlyOne = 13,
    FullPart = 14,
    BitmapHeader = 15,
    ImageLength = 16,
    Title = 17,
    TableShape = 18,
    Ahead = 20,
    Character = 21,
    PackSize = 26,
    PackRows = 27,
}

impl Ground {
    // Its number.
    pub fn number(self) -> u32
        ensures { result ≡ number_of self }
    {
        self as u32
    }

    // The refusal on this ground at a place.
    pub fn at(self, place: BitPlace) -> Refusal
        ensures { result ≡ record { why = self; place = place } }
    {
        Refusal { why: self, place }
    }
}

// A refusal: why, and where.
#[derive(Clone, Copy, PartialEq, Eq)]
pub struct Refusal {
    pub why: Ground,
    pub place: BitPlace,
}

// Where document 01 names no place for a ground, the place is 0.
impl From<Ground> for Refusal {
    ghost from_gives = { λ g r. r ≡ record { why = g; place = place 0 } };

    fn from(why: Ground) -> Refusal {
        why.at(BitPlace(0))
    }
}
