#![tactic(auto)]

ghost use Rattle.std.specs.Prelude.{◌≡◌, true, [], ◌∷◌, ◌≤◌, length};
ghost use Rattle.tone_elements.specs.Answers.{notes as notes_of};
ghost use Rattle.edit_change.specs.Change.{is_new as isNewOf, carries_new, carried, removed as removedOf, in_body};
ghost use Rattle.edit_change.specs.Answers.{Puts, overdone_of, ground_of, ground_as};

use bits::Ground;
use edit_build::Piece;

// What an edit does at an instruction: replace it, insert before it, or delete it. The new instruction is one table entry.
#[derive(Clone, Copy)]
pub enum Edit {
    Replace(u32),
    Insert(u32),
    Delete,
}

// ---- the new instruction

// Is the entry an instruction of kind 1 to 5 whose code is in the table?
fn is_new(cell: u32) -> bool
    ensures { result ≡ isNewOf cell }
{
    let kind = cell / 65536;
    let payload = cell % 65536;
    if kind < 1 {
        return false;
    }
    if 5 < kind {
        return false;
    }
    if payload < 1u32 << tone_elements::width(kind) {
        return tone_elements::allowed(kind, payload);
    }
    false
}

// Does the edit carry such an instruction, where it carries one?
pub fn carries_new(edit: Edit) -> bool
    ensures { result ≡ carries_new edit }
{
    match edit {
        Edit::Replace(cell) => is_new(cell),
        Edit::Insert(cell) => is_new(cell),
        Edit::Delete => true,
    }
}

// The bits of an instruction.
fn piece_of(cell: u32) -> Piece
    requires { isNewOf cell ≡ true }
    ensures { Puts (cell ∷ []) result.width result.value }
{
    let kind = cell / 65536;
    let w = tone_elements::width(kind);
    Piece {
        width: 3 + w,
        value: (kind << w) + cell % 65536,
    }
}

// The bits that an edit puts: those of its instruction, or none.
pub fn carried_piece(edit: Edit) -> Piece
    requires { carries_new edit ≡ true }
    ensures { Puts (carried edit) result.width result.value }
{
    match edit {
        Edit::Replace(cell) => piece_of(cell),
        Edit::Insert(cell) => piece_of(cell),
        Edit::Delete => Piece { width: 0, value: 0 },
    }
}

// ---- what is taken away and put

// How many instructions an edit takes away.
pub fn removed(edit: Edit) -> u32
    ensures { (result ≡ removedOf edit) × (result ≤ 1) }
{
    match edit {
        Edit::Replace(_) => 1,
        Edit::Insert(_) => 0,
        Edit::Delete => 1,
    }
}

// How many instructions an edit puts.
pub fn added(edit: Edit) -> u32
    ensures { (result ≡ length (carried edit)) × (result ≤ 1) }
{
    match edit {
        Edit::Replace(_) => 1,
        Edit::Insert(_) => 1,
        Edit::Delete => 0,
    }
}

// How many notes or pauses an edit puts.
pub fn carried_notes(edit: Edit) -> u32
    ensures { (result ≡ notes_of (carried edit)) × (result ≤ 1) }
{
    match edit {
        Edit::Replace(cell) => tone_elements::note_in(cell),
        Edit::Insert(cell) => tone_elements::note_in(cell),
        Edit::Delete => 0,
    }
}

// ---- the grounds

// Is the position that of one of `n` instructions? Insert at the count appends.
fn in_body(edit: Edit, i: usize, n: usize) -> bool
    ensures { result ≡ in_body edit i n }
{
    match edit {
        Edit::Replace(_) => i < n,
        Edit::Insert(_) => i <= n,
        Edit::Delete => i < n,
    }
}

// A part's only instruction is not deleted, and none is inserted into a part of 255.
fn overdone(edit: Edit, n: usize) -> Result<(), Ground>
    ensures { result ≡ ground_as (overdone_of edit n) }
{
    match edit {
        Edit::Replace(_) => Ok(()),
        Edit::Insert(_) => {
            if n == 255 {
                return Err(Ground::FullPart);
            }
            Ok(())
        }
        Edit::Delete => {
            if n == 1 {
                return Err(Ground::OnlyOne);
            }
            Ok(())
        }
    }
}

// The ground against an edit at position `i` of `n` instructions, where there is one. A recall has no instruction of its own.
pub fn ground(edit: Edit, i: usize, n: usize) -> Result<(), Ground>
    ensures { result ≡ ground_as (ground_of edit i n) }
{
    if n < 1 {
        return Err(Ground::NotThere);
    }
    if in_body(edit, i, n) {
        return overdone(edit, n);
    }
    Err(Ground::NotThere)
}
