#![tactic(auto)]

// What C calls: each call of the library `ohakelm` under its C name, with the same promise. include/ohakelm.h says it in C.
ghost use Rattle.std.specs.Prelude.{◌≡◌};
ghost use Rattle.edit_change.specs.declared.Edit.TheVariants.{Replace, Insert, Delete};
ghost use Rattle.bitmap_ahead.specs.declared.Kind.TheVariants.{Icon, Logo};
ghost use Rattle.bitmap_ahead.specs.Ahead.{said, nothing};
ghost use Rattle.bitmap_answers.specs.Promise.{IconReadExport, LogoReadExport};
ghost use Rattle.pack_answers.specs.Promise.{PackReadExport, PackMessageExport, PackWriteExport, PackSalvageExport};
ghost use Rattle.ohakelm.specs.Promise.{VersionExport, ReadExport, WriteExport, LabelExport, ListExport, RowsExport, EditExport, BitmapReadExport, BitmapWriteExport, KindWriteExport};

use bitmap_answers::{BitmapAnswer, LogoAnswer};
use list_rules::Entry;
use ohakelm::{EditAnswer, LabelAnswer, ListAnswer, ToneAnswer};
use pack_answers::{PackAnswer, SalvageAnswer, StretchAnswer};
use written::WrittenAnswer;

// ---- the version

// The version of the library, 0.10.0.
#[unsafe(no_mangle)]
pub extern "C" fn ohakelm_version() -> u32
    ensures { VersionExport result }
{
    ohakelm::ohakelm_version()
}

// ---- tones

// Reads a tone message into a lent table and a lent title.
#[unsafe(no_mangle)]
pub extern "C" fn ohakelm_read(msg: &[u8], table: &mut [u32], title: &mut [u8]) -> ToneAnswer
    ensures { ReadExport msg.now table.old title.old table.new title.new result }
{
    ohakelm::ohakelm_read(msg, table, title)
}

// Writes a tone message from a song type, a title and a table.
#[unsafe(no_mangle)]
pub extern "C" fn ohakelm_write(
    song: u32,
    unicode: bool,
    title: &[u8],
    table: &[u32],
    out: &mut [u8],
) -> WrittenAnswer
    ensures { WriteExport song unicode title.now table.now out.old out.new result }
{
    ohakelm::ohakelm_write(song, unicode, title, table, out)
}

// Finds the label for the screen: which buffer supplies it, and which stretch of that buffer it is.
#[unsafe(no_mangle)]
pub extern "C" fn ohakelm_label(title: &[u8], unicode: bool, stand_in: &[u8]) -> LabelAnswer
    ensures { LabelExport title.now unicode stand_in.now result }
{
    ohakelm::ohakelm_label(title, unicode, stand_in)
}

// Makes the playing list of a tone message, three cells an entry.
#[unsafe(no_mangle)]
pub extern "C" fn ohakelm_list(msg: &[u8], list: &mut [u32]) -> ListAnswer
    ensures { ListExport msg.now list.old list.new result }
{
    ohakelm::ohakelm_list(msg, list)
}

// Makes the playing list in both forms: three cells an entry, and one record an entry.
#[unsafe(no_mangle)]
pub extern "C" fn ohakelm_rows(msg: &[u8], list: &mut [u32], rows: &mut [Entry]) -> ListAnswer
    ensures { RowsExport msg.now list.old rows.old list.new rows.new result }
{
    ohakelm::ohakelm_rows(msg, list, rows)
}

// ---- edits

// Puts another instruction in an instruction's place.
#[unsafe(no_mangle)]
pub extern "C" fn ohakelm_replace(
    buf: &mut [u8],
    used: usize,
    pattern: usize,
    instruction: usize,
    cell: u32,
    list: &mut [u32],
) -> EditAnswer
    ensures { EditExport (Replace cell) buf.old used pattern instruction list.old buf.new list.new result }
{
    ohakelm::ohakelm_replace(buf, used, pattern, instruction, cell, list)
}

// Inserts an instruction before another one, or behind the last.
#[unsafe(no_mangle)]
pub extern "C" fn ohakelm_insert(
    buf: &mut [u8],
    used: usize,
    pattern: usize,
    instruction: usize,
    cell: u32,
    list: &mut [u32],
) -> EditAnswer
    ensures { EditExport (Insert cell) buf.old used pattern instruction list.old buf.new list.new result }
{
    ohakelm::ohakelm_insert(buf, used, pattern, instruction, cell, list)
}

// Deletes an instruction.
#[unsafe(no_mangle)]
pub extern "C" fn ohakelm_delete(
    buf: &mut [u8],
    used: usize,
    pattern: usize,
    instruction: usize,
    list: &mut [u32],
) -> EditAnswer
    ensures { EditExport Delete buf.old used pattern instruction list.old buf.new list.new result }
{
    ohakelm::ohakelm_delete(buf, used, pattern, instruction, list)
}

// ---- bitmaps

// Reads a bitmap: its sizes, its black pixels and the stretch of the message that is the image.
#[unsafe(no_mangle)]
pub extern "C" fn ohakelm_bitmap_read(msg: &[u8]) -> BitmapAnswer
    ensures { BitmapReadExport msg.now result }
{
    ohakelm::ohakelm_bitmap_read(msg)
}

// Writes a bitmap from its sizes and its image.
#[unsafe(no_mangle)]
pub extern "C" fn ohakelm_bitmap_write(
    width: u32,
    height: u32,
    image: &[u8],
    out: &mut [u8],
) -> WrittenAnswer
    ensures { BitmapWriteExport width height image.now out.old out.new result }
{
    ohakelm::ohakelm_bitmap_write(width, height, image, out)
}

// ---- icons and logos

// Reads a CLI icon: its sizes, its black pixels and the stretch of the message that is the image.
#[unsafe(no_mangle)]
pub extern "C" fn ohakelm_icon_read(msg: &[u8]) -> BitmapAnswer
    ensures { IconReadExport msg.now result }
{
    ohakelm::ohakelm_icon_read(msg)
}

// Writes a CLI icon from its sizes and its image. It says nothing ahead.
#[unsafe(no_mangle)]
pub extern "C" fn ohakelm_icon_write(
    width: u32,
    height: u32,
    image: &[u8],
    out: &mut [u8],
) -> WrittenAnswer
    ensures { KindWriteExport Icon nothing width height image.now out.old out.new result }
{
    ohakelm::ohakelm_icon_write(width, height, image, out)
}

// Reads an operator logo: as an icon, and the stretches that are its two network codes and its date.
#[unsafe(no_mangle)]
pub extern "C" fn ohakelm_logo_read(msg: &[u8]) -> LogoAnswer
    ensures { LogoReadExport msg.now result }
{
    ohakelm::ohakelm_logo_read(msg)
}

// Writes an operator logo from its codes, its date, its sizes and its image.
#[unsafe(no_mangle)]
pub extern "C" fn ohakelm_logo_write(
    mcc: &[u8],
    mnc: &[u8],
    date: &[u8],
    width: u32,
    height: u32,
    image: &[u8],
    out: &mut [u8],
) -> WrittenAnswer
    ensures { KindWriteExport Logo (said mcc.now mnc.now date.now) width height image.now out.old out.new result }
{
    ohakelm::ohakelm_logo_write(mcc, mnc, date, width, height, image, out)
}

// ---- packs

// Reads a pack: how many messages it has.
#[unsafe(no_mangle)]
pub extern "C" fn ohakelm_pack_read(pack: &[u8]) -> PackAnswer
    ensures { PackReadExport pack.now result }
{
    ohakelm::ohakelm_pack_read(pack)
}

// Finds a message of a pack, counted from 0: the stretch of the pack that it is.
#[unsafe(no_mangle)]
pub extern "C" fn ohakelm_pack_message(pack: &[u8], n: u32) -> StretchAnswer
    ensures { PackMessageExport pack.now n result }
{
    ohakelm::ohakelm_pack_message(pack, n)
}

// Writes a pack of messages that lie back to back, with a row of their lengths.
#[unsafe(no_mangle)]
pub extern "C" fn ohakelm_pack_write(msgs: &[u8], lengths: &[u32], out: &mut [u8]) -> WrittenAnswer
    ensures { PackWriteExport msgs.now lengths.now out.old out.new result }
{
    ohakelm::ohakelm_pack_write(msgs, lengths, out)
}

// Gets the tones out of a broken pack: a new pack of the messages that are kept, and a report.
#[unsafe(no_mangle)]
pub extern "C" fn ohakelm_pack_salvage(
    pack: &[u8],
    out: &mut [u8],
    report: &mut [u32],
) -> SalvageAnswer
    ensures { PackSalvageExport pack.now out.old report.old out.new report.new result }
{
    ohakelm::ohakelm_pack_salvage(pack, out, report)
}
