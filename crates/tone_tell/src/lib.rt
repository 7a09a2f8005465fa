#![tactic(auto)]

// Instructions told without a branch. In new messages the processor cannot foresee which kind comes next, and each time that
// it is wrong costs more than telling four of them. So widths and faults are looked up in packed numbers by the kind.
ghost use Rattle.std.specs.Prelude.{◌≡◌, ◌+◌, ◌≤◌, get_or};
ghost use Rattle.tone_tell.specs.Telling.{bits_on, note_on, fault_on, fault_rows, behind};
ghost use Rattle.tone_tell.specs.Answers.{ToldOf, NotesAlone, Sure};

// What was told: what is left on top, and the bits, the notes and the faults of the instructions that were taken away.
#[derive(Clone, Copy)]
pub struct Told {
    pub rest: u64,
    pub bits: u32,
    pub notes: u32,
    pub faults: u32,
}

// The bits of the instruction on top, its id among them; 63 where it is none.
fn bits_on(x: u64) -> u32
    ensures { (result ≡ bits_on x) × (result ≤ 63) }
{
    ((0x3F3F_0708_0505_0C3Fu64 >> (8 * (x >> 61))) % 64) as u32
}

// 1 for a note or a pause.
fn note_on(x: u64) -> u32
    ensures { (result ≡ note_on x) × (result ≤ 1) }
{
    (x >> 61 == 1) as u32
}

// The marks of a kind. Every kind of three bits has its arm, so that no bound is tested.
fn fault_row(kind: u64) -> u64
    ensures { result ≡ get_or fault_rows kind 0 }
{
    match kind {
        0 => 0xFFFF_FFFF_FFFF_FFFF,
        1 => 0xFFF8_8888_8888_8888,
        2 => 0,
        3 => 0xFFFF_0000_0000_0000,
        4 => 0,
        5 => 0,
        6 => 0xFFFF_FFFF_FFFF_FFFF,
        7 => 0xFFFF_FFFF_FFFF_FFFF,
        _ => 0,
    }
}

// 1 where what is on top is no instruction of the table.
fn fault_on(x: u64) -> u32
    ensures { (result ≡ fault_on x) × (result ≤ 1) }
{
    ((fault_row(x >> 61) >> ((x >> 55) % 64)) % 2) as u32
}

// Takes one instruction more away.
fn next(t: Told) -> Told
    requires { (t.bits ≤ 189) × (t.notes ≤ 3) × (t.faults ≤ 3) }
    ensures rest_value { (result.rest ≡ behind t.rest) × (result.bits ≡ t.bits + bits_on t.rest) × (result.notes ≡ t.notes + note_on t.rest) × (result.faults ≡ t.faults + fault_on t.rest) }
    ensures bits_bound { (result.bits ≤ t.bits + 63) × (result.notes ≤ t.notes + 1) × (result.faults ≤ t.faults + 1) }
{
    let x = t.rest;
    let w = bits_on(x);
    Told {
        rest: x << w,
        bits: t.bits + w,
        notes: t.notes + note_on(x),
        faults: t.faults + fault_on(x),
    }
}

// Nothing was taken away.
fn begin(x: u64) -> Told
    ensures { (result.rest ≡ x) × (result.bits ≡ 0) × (result.notes ≡ 0) × (result.faults ≡ 0) }
{
    Told {
        rest: x,
        bits: 0,
        notes: 0,
        faults: 0,
    }
}

// Tells the four instructions on top.
fn four(x: u64) -> Told
    ensures { ToldOf 4 x result }
{
    next(next(next(next(begin(x)))))
}

// Tells the `n` instructions on top, one by one.
fn few(x: u64, n: u32) -> Told
    requires { n ≤ 4 }
    ensures { ToldOf n x result }
{
    let mut told = begin(x);
    for _ in 0..n {
        told = next(told);
    }
    told
}

// Are the four instructions on top notes or pauses? Where they are, each stands twelve bits behind the one before.
fn notes_alone(x: u64) -> bool
    ensures { Sure result (NotesAlone x) }
{
    note_on(x) + note_on(x << 12) + note_on(x << 24) + note_on(x << 36) == 4
}

// Tells four notes or pauses, of which none waits for the one before.
fn four_notes(x: u64) -> Told
    requires { NotesAlone x }
    ensures { ToldOf 4 x result }
{
    Told {
        rest: x << 48,
        bits: 48,
        notes: 4,
        faults: fault_on(x) + fault_on(x << 12) + fault_on(x << 24) + fault_on(x << 36),
    }
}

// Tells the `n` instructions on top, most often four. Where one of them is faulty, the numbers of those behind it mean nothing.
pub fn tell(x: u64, n: u32) -> Told
    requires { n ≤ 4 }
    ensures { ToldOf n x result }
{
    if n != 4 {
        return few(x, n);
    }
    if notes_alone(x) {
        return four_notes(x);
    }
    four(x)
}
