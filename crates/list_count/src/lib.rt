#![tactic(auto)]

ghost use Rattle.std.specs.Prelude.{◌≡◌, ◌≤◌, Some};
ghost use Rattle.list_count.specs.Bodies.{passes_of};
ghost use Rattle.list_count.specs.Counting.{mark_of, no_count, counted as countedOf};
ghost use Rattle.list_count.specs.Parts.{sounding_part};

// What is counted so far of a playing list: the entries, the return mark, and whether a loop 15 has ended the list.
#[derive(Clone, Copy)]
pub struct Count {
    pub entries: u32,
    pub mark: u32,
    pub ended: bool,
}

// The return mark where there is none.
const NO_MARK: u32 = 4294967295;

// How many passes a loop value lists.
#[tactic(auto, unfolding(crate::specs::Bodies::passes_of))]
pub fn passes_of(value: u32) -> u32
    requires { value ≤ 15 }
    ensures { (result ≡ passes_of value) × (1 ≤ result) × (result ≤ 15) }
{
    if value == 15 { 2 } else { value + 1 }
}

// The mark of a loop 15 of so many notes with `n` entries ahead: its second pass follows the first.
fn mark_of(n: u32, notes: u32) -> u32
    requires { (n ≤ 971550) × (notes ≤ 255) }
    ensures { result ≡ mark_of n notes }
{
    if notes == 0 { NO_MARK } else { n + notes }
}

impl Count {
    // Nothing is counted.
    pub fn none() -> Count
        ensures { result ≡ no_count }
    {
        Count {
            entries: 0,
            mark: NO_MARK,
            ended: false,
        }
    }

    // One pattern more, of so many notes and this loop value.
    pub fn with(self, notes: u32, value: u32) -> Count
        requires { (self.entries ≤ 971550) × (notes ≤ 255) × (value ≤ 15) }
        ensures { result ≡ countedOf self notes value }
    {
        if self.ended {
            return self;
        }
        let entries = self.entries + notes * passes_of(value);
        if value == 15 {
            return Count {
                entries,
                mark: mark_of(self.entries, notes),
                ended: true,
            };
        }
        Count {
            entries,
            mark: self.mark,
            ended: false,
        }
    }
}

// The part that a header sounds, whose own instructions are kept as `own`: a definition replaces the part of its id. None
// is a part not yet defined.
pub fn part_after<T: Copy>(part: Option<T>, header: u32, own: T) -> Option<T>
    ensures { result ≡ sounding_part part header (Some own) }
{
    if header % 256 == 0 {
        return part;
    }
    Some(own)
}
