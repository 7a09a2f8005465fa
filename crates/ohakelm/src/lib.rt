#![tactic(auto)]

ghost use Rattle.std.specs.Prelude.{◌≡◌, length};
ghost use Rattle.tone_read.specs.Promise.{numbers as tone_numbers};
ghost use Rattle.list.specs.Promise.{numbers_of as listed_numbers};
ghost use Rattle.edit.specs.Promise.{numbers_of as edit_numbers};
ghost use Rattle.edit_change.specs.declared.Edit.TheVariants.{Replace, Insert, Delete};
ghost use Rattle.bitmap_ahead.specs.declared.Kind.TheVariants.{Icon, Logo};
ghost use Rattle.bitmap_ahead.specs.Ahead.{said, nothing};
ghost use Rattle.bitmap_answers.specs.Promise.{IconReadExport, LogoReadExport};
ghost use Rattle.pack_answers.specs.Promise.{PackReadExport, PackMessageExport, PackWriteExport, PackSalvageExport};
ghost use Rattle.ohakelm.specs.Promise.{VersionExport, ReadExport, WriteExport, LabelExport, ListExport, RowsExport, EditExport, BitmapReadExport, BitmapWriteExport, KindWriteExport, read_as, supplied_as, listed_as, edited_as};

use bitmap_ahead::Kind;
use bitmap_answers::{BitmapAnswer, LogoAnswer};
use bits::{OctetCount, Refusal};
use edit::Edited;
use edit_change::Edit;
use label::Supplier;
use list::Listed;
use list_rules::Entry;
use pack_answers::{PackAnswer, SalvageAnswer, StretchAnswer};
use tone_read::Reading;
use written::WrittenAnswer;

// ---- answers

// What reading a tone answers.
#[repr(C)]
#[derive(Clone, Copy)]
pub struct ToneAnswer {
    pub refusal: u32,
    pub place: usize,
    pub song: u32,
    pub unicode: bool,
    pub characters: usize,
    pub patterns: usize,
    pub entries: usize,
}

impl From<Result<Reading, Refusal>> for ToneAnswer {
    ghost from_gives = { λ reading r. r ≡ read_as (tone_numbers reading) };

    fn from(reading: Result<Reading, Refusal>) -> ToneAnswer {
        match reading {
            Err(refusal) => ToneAnswer {
                refusal: refusal.why.number(),
                place: refusal.place.0,
                song: 0,
                unicode: false,
                characters: 0,
                patterns: 0,
                entries: 0,
            },
            Ok(tone) => ToneAnswer {
                refusal: 0,
                place: 0,
                song: tone.song,
                unicode: tone.unicode,
                characters: tone.characters as usize,
                patterns: tone.patterns as usize,
                entries: tone.entries as usize,
            },
        }
    }
}

// Which buffer supplies a label, and which stretch of it.
#[repr(C)]
#[derive(Clone, Copy)]
pub struct LabelAnswer {
    pub stand_in: bool,
    pub start: usize,
    pub length: usize,
}

impl From<Supplier> for LabelAnswer {
    ghost from_gives = { λ supplier r. r ≡ supplied_as supplier };

    fn from(supplier: Supplier) -> LabelAnswer {
        match supplier {
            Supplier::StandIn(octets) => LabelAnswer {
                stand_in: true,
                start: 0,
                length: octets.0,
            },
            Supplier::Title(octets) => LabelAnswer {
                stand_in: false,
                start: 0,
                length: octets.0,
            },
        }
    }
}

// What making a list answers.
#[repr(C)]
#[derive(Clone, Copy)]
pub struct ListAnswer {
    pub refusal: u32,
    pub place: usize,
    pub entries: usize,
    pub mark: u32,
}

impl From<Result<Listed, Refusal>> for ListAnswer {
    ghost from_gives = { λ listing r. r ≡ listed_as (listed_numbers listing) };

    fn from(listing: Result<Listed, Refusal>) -> ListAnswer {
        match listing {
            Err(refusal) => ListAnswer {
                refusal: refusal.why.number(),
                place: refusal.place.0,
                entries: 0,
                mark: 0,
            },
            Ok(Listed { entries, mark }) => ListAnswer {
                refusal: 0,
                place: 0,
                entries: entries as usize,
                mark,
            },
        }
    }
}

// What an edit answers.
#[repr(C)]
#[derive(Clone, Copy)]
pub struct EditAnswer {
    pub refusal: u32,
    pub place: usize,
    pub length: usize,
    pub entries: usize,
    pub mark: u32,
    pub change: i32,
}

impl From<Result<Edited, Refusal>> for EditAnswer {
    ghost from_gives = { λ editing r. r ≡ edited_as (edit_numbers editing) };

    fn from(editing: Result<Edited, Refusal>) -> EditAnswer {
        match editing {
            Err(refusal) => EditAnswer {
                refusal: refusal.why.number(),
                place: refusal.place.0,
                length: 0,
                entries: 0,
                mark: 0,
                change: 0,
            },
            Ok(edited) => EditAnswer {
                refusal: 0,
                place: 0,
                length: edited.length.0,
                entries: edited.entries as usize,
                mark: edited.mark,
                change: edited.change,
            },
        }
    }
}

// ---- the version

// The version of the library, 0.10.0.
pub fn ohakelm_version() -> u32
    ensures { VersionExport result }
{
    1000
}

// ---- tones

// Reads a tone message into a lent table and a lent title.
pub fn ohakelm_read(msg: &[u8], table: &mut [u32], title: &mut [u8]) -> ToneAnswer
    ensures { ReadExport msg.now table.old title.old table.new title.new result }
{
    tone_read::read(msg, table, title).into()
}

// Writes a tone message from a song type, a title and a table.
pub fn ohakelm_write(
    song: u32,
    unicode: bool,
    title: &[u8],
    table: &[u32],
    out: &mut [u8],
) -> WrittenAnswer
    ensures { WriteExport song unicode title.now table.now out.old out.new result }
{
    tone_write::write(song, unicode, title, table, out).into()
}

// Finds the label for the screen: which buffer supplies it, and which stretch of that buffer it is.
#[tactic(auto, using(crate::proofs::Exits::label_told))]
pub fn ohakelm_label(title: &[u8], unicode: bool, stand_in: &[u8]) -> LabelAnswer
    ensures { LabelExport title.now unicode stand_in.now result }
{
    label::supplied(title, unicode, stand_in).into()
}

// Makes the playing list of a tone message, three cells an entry.
pub fn ohakelm_list(msg: &[u8], list: &mut [u32]) -> ListAnswer
    ensures { ListExport msg.now list.old list.new result }
{
    list::list(msg, list).into()
}

// Makes the playing list in both forms: three cells an entry, and one record an entry.
pub fn ohakelm_rows(msg: &[u8], list: &mut [u32], rows: &mut [Entry]) -> ListAnswer
    ensures { RowsExport msg.now list.old rows.old list.new rows.new result }
{
    list::rows(msg, list, rows).into()
}

// ---- edits

// Puts another instruction in an instruction's place.
pub fn ohakelm_replace(
    buf: &mut [u8],
    used: usize,
    pattern: usize,
    instruction: usize,
    cell: u32,
    list: &mut [u32],
) -> EditAnswer
    ensures { EditExport (Replace cell) buf.old used pattern instruction list.old buf.new list.new result }
{
    edit::edit_message(
        buf,
        OctetCount(used),
        Edit::Replace(cell),
        pattern,
        instruction,
        list,
    )
    .into()
}

// Inserts an instruction before another one, or behind the last.
pub fn ohakelm_insert(
    buf: &mut [u8],
    used: usize,
    pattern: usize,
    instruction: usize,
    cell: u32,
    list: &mut [u32],
) -> EditAnswer
    ensures { EditExport (Insert cell) buf.old used pattern instruction list.old buf.new list.new result }
{
    edit::edit_message(
        buf,
        OctetCount(used),
        Edit::Insert(cell),
        pattern,
        instruction,
        list,
    )
    .into()
}

// Deletes an instruction.
pub fn ohakelm_delete(
    buf: &mut [u8],
    used: usize,
    pattern: usize,
    instruction: usize,
    list: &mut [u32],
) -> EditAnswer
    ensures { EditExport Delete buf.old used pattern instruction list.old buf.new list.new result }
{
    edit::edit_message(
        buf,
        OctetCount(used),
        Edit::Delete,
        pattern,
        instruction,
        list,
    )
    .into()
}

// ---- bitmaps

// Reads a bitmap: its sizes, its black pixels and the stretch of the message that is the image.
pub fn ohakelm_bitmap_read(msg: &[u8]) -> BitmapAnswer
    ensures { BitmapReadExport msg.now result }
{
    match bitmap::read(msg) {
        Err(refusal) => BitmapAnswer {
            refusal: refusal.why.number(),
            place: refusal.place.0,
            width: 0,
            height: 0,
            black: 0,
            start: 0,
            length: 0,
        },
        Ok(read) => BitmapAnswer {
            refusal: 0,
            place: 0,
            width: read.width,
            height: read.height,
            black: read.black,
            start: 4,
            length: bitmap::image(msg).len(),
        },
    }
}

// Writes a bitmap from its sizes and its image.
pub fn ohakelm_bitmap_write(width: u32, height: u32, image: &[u8], out: &mut [u8]) -> WrittenAnswer
    ensures { BitmapWriteExport width height image.now out.old out.new result }
{
    bitmap::write(width, height, image, out).into()
}

// ---- icons and logos

// Reads a CLI icon: its sizes, its black pixels and the stretch of the message that is the image.
pub fn ohakelm_icon_read(msg: &[u8]) -> BitmapAnswer
    ensures { IconReadExport msg.now result }
{
    bitmap_answers::read_icon(msg)
}

// Writes a CLI icon from its sizes and its image. It says nothing ahead.
pub fn ohakelm_icon_write(width: u32, height: u32, image: &[u8], out: &mut [u8]) -> WrittenAnswer
    ensures { KindWriteExport Icon nothing width height image.now out.old out.new result }
{
    let none = &image[0..0];
    bitmap_kinds::write(Kind::Icon, none, none, none, width, height, image, out).into()
}

// Reads an operator logo: as an icon, and the stretches that are its two network codes and its date.
pub fn ohakelm_logo_read(msg: &[u8]) -> LogoAnswer
    ensures { LogoReadExport msg.now result }
{
    bitmap_answers::read_logo(msg)
}

// Writes an operator logo from its codes, its date, its sizes and its image.
pub fn ohakelm_logo_write(
    mcc: &[u8],
    mnc: &[u8],
    date: &[u8],
    width: u32,
    height: u32,
    image: &[u8],
    out: &mut [u8],
) -> WrittenAnswer
    ensures { KindWriteExport Logo (said mcc.now mnc.now date.now) width height image.now out.old out.new result }
{
    bitmap_kinds::write(Kind::Logo, mcc, mnc, date, width, height, image, out).into()
}

// ---- packs

// Reads a pack: how many messages it has.
pub fn ohakelm_pack_read(pack: &[u8]) -> PackAnswer
    ensures { PackReadExport pack.now result }
{
    pack_answers::read_pack(pack)
}

// Finds a message of a pack, counted from 0: the stretch of the pack that it is.
pub fn ohakelm_pack_message(pack: &[u8], n: u32) -> StretchAnswer
    ensures { PackMessageExport pack.now n result }
{
    pack_answers::find_message(pack, n)
}

// Writes a pack of messages that lie back to back, with a row of their lengths.
pub fn ohakelm_pack_write(msgs: &[u8], lengths: &[u32], out: &mut [u8]) -> WrittenAnswer
    ensures { PackWriteExport msgs.now lengths.now out.old out.new result }
{
    pack_answers::write_pack(msgs, lengths, out)
}

// Gets the tones out of a broken pack: a new pack of the messages that are kept, and a report.
pub fn ohakelm_pack_salvage(pack: &[u8], out: &mut [u8], report: &mut [u32]) -> SalvageAnswer
    ensures { PackSalvageExport pack.now out.old report.old out.new report.new result }
{
    pack_answers::salvage_pack(pack, out, report)
}
