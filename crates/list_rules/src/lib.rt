#![tactic(auto)]

ghost use Rattle.std.specs.Prelude.{◌≡◌, ◌+◌, ◌*◌, ◌≤◌, ◌<◌, length};
ghost use Rattle.list_rules.specs.Duration.{beats as beatsOf, units as units_of, microseconds as microsecondsOf, left_over};
ghost use Rattle.list_rules.specs.Sounding.{defaults, applied as appliedTo, entry_cells, unpacked, entry_at};
ghost use Rattle.list_rules.specs.Ranges.{InRange};
ghost use Rattle.list_rules.specs.Tempo.{inverse_of, Timed, base_of};

// The four settings, as codes.
#[derive(Clone, Copy)]
pub struct Settings {
    pub scale: u32,
    pub style: u32,
    pub tempo: u32,
    pub volume: u32,
}

// An entry of the playing list, as the mixer receives it.
#[repr(C)]
#[derive(Clone, Copy)]
pub struct Entry {
    pub note: u32,
    pub scale: u32,
    pub style: u32,
    pub volume: u32,
    pub microseconds: u32,
    pub header: u32,
    pub position: u32,
}

// The cells that an entry takes in a list.
pub const ENTRY_CELLS: usize = 3;

impl Settings {
    // The defaults of 000.
    pub fn at_start() -> Settings
        ensures { result ≡ defaults }
    {
        Settings {
            scale: 1,
            style: 0,
            tempo: 8,
            volume: 7,
        }
    }

    // The settings after an instruction.
    pub fn applied(self, cell: u32) -> Settings
        ensures { result ≡ appliedTo self cell }
    {
        let kind = cell / 65536;
        let code = cell % 65536;
        let mut next = self;
        if kind == 2 {
            next.scale = code;
            return next;
        }
        if kind == 3 {
            next.style = code;
            return next;
        }
        if kind == 4 {
            next.tempo = code;
            return next;
        }
        if kind == 5 {
            next.volume = code;
            return next;
        }
        next
    }
}

// The beats a minute of a tempo code, table 3.7-11 of 000. It is a `match`, since the compiler makes read-only data of one; a
// constant array is laid out on the stack at each use.
#[tactic(auto, unfolding(crate::specs::Duration::beats))]
pub fn beats(tempo: u32) -> u32
    requires { tempo ≤ 31 }
    ensures { result ≡ beatsOf tempo }
{
    match tempo {
        0 => 25,
        1 => 28,
        2 => 31,
        3 => 35,
        4 => 40,
        5 => 45,
        6 => 50,
        7 => 56,
        8 => 63,
        9 => 70,
        10 => 80,
        11 => 90,
        12 => 100,
        13 => 112,
        14 => 125,
        15 => 140,
        16 => 160,
        17 => 180,
        18 => 200,
        19 => 225,
        20 => 250,
        21 => 285,
        22 => 320,
        23 => 355,
        24 => 400,
        25 => 450,
        26 => 500,
        27 => 565,
        28 => 635,
        29 => 715,
        30 => 800,
        31 => 900,
        _ => 0,
    }
}

// The units of a note, a sheet of 24: for each note length of 000 (3.7-7), plain, dotted, double dotted and 2/3 (3.7-8). An
// entry's number is the duration code times 4, plus the specifier: the last five bits of a note. It is a `match`, as `beats` is.
#[tactic(auto, using(crate::proofs::Durations::on_sheet), unfolding(crate::specs::Duration::units))]
pub fn units(duration: u32, specifier: u32) -> u32
    requires { (duration ≤ 5) × (specifier ≤ 3) }
    ensures { result ≡ units_of duration specifier }
{
    match duration * 4 + specifier {
        // Full note.
        0 => 384,
        1 => 576,
        2 => 672,
        3 => 256,
        // 1/2 note.
        4 => 192,
        5 => 288,
        6 => 336,
        7 => 128,
        // 1/4 note.
        8 => 96,
        9 => 144,
        10 => 168,
        11 => 64,
        // 1/8 note.
        12 => 48,
        13 => 72,
        14 => 84,
        15 => 32,
        // 1/16 note.
        16 => 24,
        17 => 36,
        18 => 42,
        19 => 16,
        // 1/32 note.
        20 => 12,
        21 => 18,
        22 => 21,
        23 => 8,
        // Duration codes 6 and 7 are reserved, and no note has them. With an arm for all that five bits say, nothing is tested.
        24 => 0,
        25 => 0,
        26 => 0,
        27 => 0,
        28 => 0,
        29 => 0,
        30 => 0,
        31 => 0,
        _ => 0,
    }
}

// One over so many beats, in parts of which 2 ^ 39 make one, rounded up. With it the duration step multiplies where the
// rule divides.
pub fn inverse(beats: u32) -> u64
    requires { 25 ≤ beats }
    ensures { result ≡ inverse_of beats }
{
    549755813888 / beats as u64 + 1
}

// How long a note lasts, and the fraction that it leaves over, in beats-ths of a microsecond.
#[derive(Clone, Copy)]
pub struct Lasted {
    pub microseconds: u32,
    pub fraction: u32,
}

// The duration step: it takes the fraction left over and hands back the new one. The product with one over the beats is the
// quotient of the rule, and what is left is its remainder.
pub fn duration_step(fraction: u32, units: u32, beats: u32, inverse: u64) -> Lasted
    requires units_bound { units ≤ 672 }
    requires timed { Timed fraction beats inverse }
    ensures { (result.microseconds ≡ microsecondsOf fraction units beats) × (result.fraction ≡ left_over fraction units beats) }
{
    let sum = fraction + units * 625000;
    let whole = ((sum as u64 * inverse) >> 39) as u32;
    Lasted {
        microseconds: whole,
        fraction: sum - whole * beats,
    }
}

// What the settings put in an entry's first number.
pub fn base(s: Settings) -> u32
    requires { InRange s }
    ensures { result ≡ base_of s }
{
    s.scale * 256 + s.style * 16 + s.volume
}

// An entry from its three numbers.
pub fn entry_of(first: u32, second: u32, third: u32) -> Entry
    ensures { result ≡ unpacked first second third }
{
    Entry {
        note: first / 1024,
        scale: first / 256 % 4,
        style: first / 16 % 16,
        volume: first % 16,
        microseconds: second,
        header: third / 256,
        position: third % 256,
    }
}

// The entry at a position of a list in cells.
pub fn entry_at(list: &[u32], i: usize) -> Entry
    requires { i * entry_cells + 2 < length list.now }
    ensures { result ≡ entry_at list.now i }
{
    let at = i * ENTRY_CELLS;
    entry_of(list[at], list[at + 1], list[at + 2])
}
