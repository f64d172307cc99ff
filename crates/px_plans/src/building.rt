// Writes the pieces of a block at their offsets, from the last to the first: the definition takes each byte
// from the first piece that has it.
//
// A piece is made in memory by a vector that doubles, and then copied to its place. So a function
// here asks for at most six bytes for each byte that it writes, and for 131,072 more, twice the
// 65,536 bytes of one write, if an allocation fails. `Err` of a function that has `memory`: an
// allocation failed, and what the block then contains is not stated.
ghost use Rattle.std.specs.Prelude.{◌≡◌, ◌≤◌, ◌<◌, ◌+◌, ◌*◌, ◌^◌, [], ◌∷◌, length, replicate, Some, option_map, flat_map, IfSome, OnOk};
ghost use Rattle.std.specs.Prelude.{IfOk};
ghost use Rattle.px_bytes.specs.Devices.{CanCountFailure, Sends, device_of};
ghost use Rattle.px_bytes.specs.Allocations.{CountsAllocFailure, AsksAtMost};
ghost use Rattle.px_bytes.specs.Parts.{limit};
ghost use Rattle.px_bytes.specs.Waiting.{AddsBuffered};
ghost use Rattle.px_meaning.specs.Directory.{dirs};
ghost use Rattle.px_meaning.specs.Writable.{IsWritable, items};
ghost use Rattle.px_meaning.specs.calls.Seen.{thumb_of};
ghost use Rattle.px_plans.specs.calls.Building.{AreInside, PutsOver, at_places, contents_in, value_pieces, dir_pieces};
ghost use Rattle.px_plans.specs.calls.Building.{IsPiece, piece_bytes, pieces_size};
ghost use Rattle.px_layout.specs.calls.Items.{item_of, entry_of, CountsFit};
ghost use Rattle.px_plans.specs.calls.Layouts.{plan_of_layout, meaning_of_layout, header_in, table_in};
ghost use Rattle.px_layout.specs.Laid.{all_strip_contents, jpeg_contents, strip_contents, thumb_contents, header, laid};
ghost use Rattle.px_layout.specs.Plans.{Legal, place};

use crate::layout::Layout;
use crate::put_item::{place_of, put_item};
use crate::put_table::{put_header, put_table};
use px_bytes::{AllocFailed, CAPACITY, Failed, Growing, Memory, Pending, Sink};
use px_layout::{Chunk, Entries, Entry, Item, entries_in};
use px_tree::{Dir, Strips, Thumb, needs_place};

// Copies bytes into the block from the offset `at` on.
fn put_at(block: &mut [u8], at: u32, bytes: &[u8])
    requires { at + length bytes.now ≤ length block.old }
    ensures len { length block.new ≡ length block.old }
    ensures bytes { PutsOver block.old block.new ((at, bytes.now) ∷ []) }
{
    let at = at as usize;
    block[at..at + bytes.len()].copy_from_slice(bytes);
}

// ---- one piece

// A piece of a block: the header, the table of a directory, or the value of an entry.
#[derive(Clone, Copy)]
pub(crate) enum Piece<'e, 'm, 'a> {
    Header,
    Table(Dir, &'e Entries<'m, 'a>),
    Value(Item<'m, 'a>),
}

// Adds the bytes of a piece to the output buffer `pending`, which `writer` gets when it is full.
// `Err`: a call of the writer failed.
fn put_piece<W: Sink>(
    pending: &mut Pending<'_>,
    writer: &mut W,
    layout: &Layout,
    piece: Piece,
) -> Result<(), Failed>
    requires few { CanCountFailure (W.calls writer.old) }
    requires piece { IsPiece piece }
    ensures { AddsBuffered W.calls W.bytes_taken result writer.old writer.new pending.old pending.new (piece_bytes layout.now piece.entry) }
{
    match piece {
        Piece::Header => put_header(pending, writer, layout),
        Piece::Table(dir, entries) => put_table(pending, writer, layout, dir, entries),
        Piece::Value(item) => put_item(pending, writer, layout, item),
    }
}

// Writes the bytes of a piece, by an output buffer of `CAPACITY` bytes on the stack. `Err`: a call
// of the writer failed.
fn write_piece<W: Sink>(writer: &mut W, layout: &Layout, piece: Piece) -> Result<(), Failed>
    requires few { CanCountFailure (W.calls writer.old) }
    requires piece { IsPiece piece }
    ensures { Sends result (device_of W.calls W.bytes_taken writer.old writer.new) (piece_bytes layout.now piece.entry) }
{
    let mut space = [0; CAPACITY];
    let mut pending = Pending::new(&mut space);
    put_piece(&mut pending, writer, layout, piece)?;
    pending.send(writer)
}

// The bytes of a piece, in a vector of its own.
fn bytes_of(memory: &mut Memory, layout: &Layout, piece: Piece) -> Result<Vec<u8>, AllocFailed>
    requires { IsPiece piece }
    ensures bytes { IfOk result (λ v. v.items ≡ piece_bytes layout.now piece.entry) }
    ensures memory { CountsAllocFailure result memory.old memory.new }
    ensures asked { AsksAtMost (6 * length (piece_bytes layout.now piece.entry) + 131072) memory.old memory.new }
    ensures paid { OnOk result (AsksAtMost (6 * length (piece_bytes layout.now piece.entry)) memory.old memory.new) }
{
    let mut writer = Growing::new(memory);
    // A write fails if an allocation failed, which `finish_in` reports.
    let _ = write_piece(&mut writer, layout, piece);
    writer.finish_in(memory)
}

// ---- all pieces

// Writes the strips, the last first.
fn lay_strips(block: &mut [u8], layout: &Layout, strips: &Strips)
    requires few { length strips.now ≤ limit }
    requires inside { AreInside (length block.old) (at_places layout.now (strip_contents 0 strips.now)) }
    ensures len { length block.new ≡ length block.old }
    ensures bytes { PutsOver block.old block.new (at_places layout.now (strip_contents 0 strips.now)) }
{
    for i in (0..strips.len()).rev() {
        let at = place_of(layout.plan, Chunk::Strip(i as u32));
        put_at(block, at, strips.at(i));
    }
}

// Writes the strips, if the thumbnail has any.
fn lay_all_strips(block: &mut [u8], layout: &Layout, strips: &Option<Strips>)
    requires few { IfSome strips.now (λ s. length s ≤ limit) }
    requires inside { AreInside (length block.old) (at_places layout.now (all_strip_contents strips.now)) }
    ensures len { length block.new ≡ length block.old }
    ensures bytes { PutsOver block.old block.new (at_places layout.now (all_strip_contents strips.now)) }
{
    if let Some(strips) = strips {
        lay_strips(block, layout, strips);
    }
}

// Writes the JPEG, if the thumbnail has one.
fn lay_jpeg(block: &mut [u8], layout: &Layout, jpeg: Option<&[u8]>)
    requires { AreInside (length block.old) (at_places layout.now (jpeg_contents (option_map (λ x. x.now) jpeg))) }
    ensures len { length block.new ≡ length block.old }
    ensures bytes { PutsOver block.old block.new (at_places layout.now (jpeg_contents (option_map (λ x. x.now) jpeg.entry))) }
{
    if let Some(bytes) = jpeg {
        put_at(block, place_of(layout.plan, Chunk::Jpeg), bytes);
    }
}

// Writes the strips of a thumbnail and then its JPEG: pieces are written from the last to the
// first.
fn lay_parts(block: &mut [u8], layout: &Layout, thumb: &Thumb)
    requires few { IfSome (thumb_of thumb.now).strips (λ s. length s ≤ limit) }
    requires strips { AreInside (length block.old) (at_places layout.now (all_strip_contents (thumb_of thumb.now).strips)) }
    requires jpeg { AreInside (length block.old) (at_places layout.now (jpeg_contents (thumb_of thumb.now).jpeg)) }
    ensures len { length block.new ≡ length block.old }
    ensures bytes { PutsOver block.old block.new (at_places layout.now (thumb_contents (Some (thumb_of thumb.now)))) }
{
    lay_all_strips(block, layout, &thumb.strips);
    lay_jpeg(block, layout, thumb.jpeg);
}

// Writes the JPEG and the strips, if the meaning has a thumbnail.
fn lay_thumb(block: &mut [u8], layout: &Layout)
    requires fits { IsWritable (meaning_of_layout layout.now) }
    requires legal { Legal (meaning_of_layout layout.now) (plan_of_layout layout.now) }
    requires len { length block.old ≡ (plan_of_layout layout.now).length }
    ensures len { length block.new ≡ length block.old }
    ensures bytes { PutsOver block.old block.new (at_places layout.now (thumb_contents (meaning_of_layout layout.now).thumb)) }
{
    match &layout.m.thumb {
        Some(thumb) => lay_parts(block, layout, thumb),
        None => {}
    }
}

// Writes the value of an entry at its offset. A value of up to four bytes is in the entry, and
// nothing is written.
fn lay_value(
    memory: &mut Memory,
    block: &mut [u8],
    layout: &Layout,
    dir: Dir,
    entry: &Entry,
) -> Result<(), AllocFailed>
    requires counted { CountsFit (item_of entry.now.item) }
    requires inside { AreInside (length block.old) (value_pieces layout.now dir (entry_of entry.now ∷ [])) }
    ensures memory { CountsAllocFailure result memory.old memory.new }
    ensures asked { AsksAtMost (6 * pieces_size (value_pieces layout.now dir (entry_of entry.now ∷ [])) + 131072)
        memory.old memory.new }
    ensures paid { OnOk result (AsksAtMost (6 * pieces_size (value_pieces layout.now dir (entry_of entry.now ∷ [])))
        memory.old memory.new) }
    ensures len { length block.new ≡ length block.old }
    ensures bytes { OnOk result (PutsOver block.old block.new (value_pieces layout.now dir (entry_of entry.now ∷ []))) }
{
    let Entry { tag, item } = *entry;
    if !needs_place(item.size()) {
        return Ok(());
    }
    let bytes = bytes_of(memory, layout, Piece::Value(item))?;
    let at = place_of(layout.plan, Chunk::Placed(dir, tag));
    put_at(block, at, &bytes);
    Ok(())
}

// Writes the values of a directory that are at offsets, the last first.
fn lay_values(
    memory: &mut Memory,
    block: &mut [u8],
    layout: &Layout,
    dir: Dir,
    entries: &Entries,
) -> Result<(), AllocFailed>
    requires { AreInside (length block.old) (value_pieces layout.now dir entries.now) }
    ensures memory { CountsAllocFailure result memory.old memory.new }
    ensures asked { AsksAtMost (6 * pieces_size (value_pieces layout.now dir entries.now) + 131072)
        memory.old memory.new }
    ensures paid { OnOk result (AsksAtMost (6 * pieces_size (value_pieces layout.now dir entries.now))
        memory.old memory.new) }
    ensures len { length block.new ≡ length block.old }
    ensures bytes { OnOk result (PutsOver block.old block.new (value_pieces layout.now dir entries.now)) }
{
    for i in (0..entries.len()).rev() {
        let entry = entries.at(i);
        lay_value(memory, block, layout, dir, &entry)?;
    }
    Ok(())
}

// Writes the table of a directory at its offset: the number of entries, the entries, and the offset
// of the next directory.
fn lay_table(
    memory: &mut Memory,
    block: &mut [u8],
    layout: &Layout,
    dir: Dir,
    entries: &Entries,
) -> Result<(), AllocFailed>
    requires few { length entries.now < 2 ^ 16 }
    requires inside { place (plan_of_layout layout.now) (Chunk.Table dir) + length (table_in layout.now dir entries.now)
        ≤ length block.old }
    ensures memory { CountsAllocFailure result memory.old memory.new }
    ensures asked { AsksAtMost (6 * length (table_in layout.now dir entries.now) + 131072) memory.old memory.new }
    ensures paid { OnOk result (AsksAtMost (6 * length (table_in layout.now dir entries.now)) memory.old memory.new) }
    ensures len { length block.new ≡ length block.old }
    ensures bytes { OnOk result (PutsOver block.old block.new
        ((place (plan_of_layout layout.now) (Chunk.Table dir), table_in layout.now dir entries.now) ∷ [])) }
{
    let bytes = bytes_of(memory, layout, Piece::Table(dir, entries))?;
    put_at(block, place_of(layout.plan, Chunk::Table(dir)), &bytes);
    Ok(())
}

// Writes a directory: the values that are at offsets, and then the table.
fn lay_entries(
    memory: &mut Memory,
    block: &mut [u8],
    layout: &Layout,
    dir: Dir,
    entries: &Entries,
) -> Result<(), AllocFailed>
    requires few { length entries.now < 2 ^ 16 }
    requires values { AreInside (length block.old) (value_pieces layout.now dir entries.now) }
    requires table { place (plan_of_layout layout.now) (Chunk.Table dir) + length (table_in layout.now dir entries.now) ≤ length block.old }
    ensures memory { CountsAllocFailure result memory.old memory.new }
    ensures asked { AsksAtMost
        (6 * (length (table_in layout.now dir entries.now) + pieces_size (value_pieces layout.now dir entries.now)) + 131072)
        memory.old memory.new }
    ensures paid { OnOk result (AsksAtMost
        (6 * (length (table_in layout.now dir entries.now) + pieces_size (value_pieces layout.now dir entries.now)))
        memory.old memory.new) }
    ensures len { length block.new ≡ length block.old }
    ensures bytes { OnOk result (PutsOver block.old block.new
        ((place (plan_of_layout layout.now) (Chunk.Table dir), table_in layout.now dir entries.now)
        ∷ value_pieces layout.now dir entries.now)) }
{
    lay_values(memory, block, layout, dir, entries)?;
    lay_table(memory, block, layout, dir, entries)
}

// Writes a directory. Nothing is written if the meaning lacks it.
fn lay_dir(
    memory: &mut Memory,
    block: &mut [u8],
    layout: &Layout,
    dir: Dir,
) -> Result<(), AllocFailed>
    requires fits { IsWritable (meaning_of_layout layout.now) }
    requires legal { Legal (meaning_of_layout layout.now) (plan_of_layout layout.now) }
    requires len { length block.old ≡ (plan_of_layout layout.now).length }
    ensures memory { CountsAllocFailure result memory.old memory.new }
    ensures asked { AsksAtMost (6 * pieces_size (dir_pieces layout.now (meaning_of_layout layout.now) dir) + 131072)
        memory.old memory.new }
    ensures paid { OnOk result (AsksAtMost (6 * pieces_size (dir_pieces layout.now (meaning_of_layout layout.now) dir))
        memory.old memory.new) }
    ensures len { length block.new ≡ length block.old }
    ensures bytes { OnOk result (PutsOver block.old block.new (dir_pieces layout.now (meaning_of_layout layout.now) dir)) }
{
    match entries_in(layout.m, dir) {
        Some(entries) => lay_entries(memory, block, layout, dir, &entries),
        None => Ok(()),
    }
}

// Writes all directories, the last first.
fn lay_dirs(memory: &mut Memory, block: &mut [u8], layout: &Layout) -> Result<(), AllocFailed>
    requires fits { IsWritable (meaning_of_layout layout.now) }
    requires legal { Legal (meaning_of_layout layout.now) (plan_of_layout layout.now) }
    requires len { length block.old ≡ (plan_of_layout layout.now).length }
    ensures memory { CountsAllocFailure result memory.old memory.new }
    ensures asked { AsksAtMost (6 * pieces_size (at_places layout.now (flat_map (contents_in layout.now) dirs)) + 131072)
        memory.old memory.new }
    ensures paid { OnOk result (AsksAtMost (6 * pieces_size (at_places layout.now (flat_map (contents_in layout.now) dirs)))
        memory.old memory.new) }
    ensures len { length block.new ≡ length block.old }
    ensures bytes { OnOk result (PutsOver block.old block.new (at_places layout.now (flat_map (contents_in layout.now) dirs))) }
{
    lay_dir(memory, block, layout, Dir::Thumb)?;
    lay_dir(memory, block, layout, Dir::Gps)?;
    lay_dir(memory, block, layout, Dir::Interop)?;
    lay_dir(memory, block, layout, Dir::Exif)?;
    lay_dir(memory, block, layout, Dir::Main)
}

// Writes the header, the first eight bytes: the byte order, the number 42, and the offset of the
// main directory. TIFF 6.0 section 2, "Image File Header".
fn lay_header(memory: &mut Memory, block: &mut [u8], layout: &Layout) -> Result<(), AllocFailed>
    requires { 8 ≤ length block.old }
    ensures memory { CountsAllocFailure result memory.old memory.new }
    ensures asked { AsksAtMost (6 * length (header_in layout.now) + 131072) memory.old memory.new }
    ensures paid { OnOk result (AsksAtMost (6 * length (header_in layout.now)) memory.old memory.new) }
    ensures len { length block.new ≡ length block.old }
    ensures bytes { OnOk result (PutsOver block.old block.new ((0, header_in layout.now) ∷ [])) }
{
    let bytes = bytes_of(memory, layout, Piece::Header)?;
    put_at(block, 0, &bytes);
    Ok(())
}

// Writes the whole block over filler bytes, of which `block` consists before: the thumbnail's
// bytes, the directories, and the header. Bytes that no chunk has stay filler.
pub(crate) fn lay_all(
    memory: &mut Memory,
    block: &mut [u8],
    layout: &Layout,
) -> Result<(), AllocFailed>
    requires fits { IsWritable (meaning_of_layout layout.now) }
    requires legal { Legal (meaning_of_layout layout.now) (plan_of_layout layout.now) }
    requires len { length block.old ≡ (plan_of_layout layout.now).length }
    requires bare { block.old ≡ replicate (plan_of_layout layout.now).length layout.now.filler }
    ensures memory { CountsAllocFailure result memory.old memory.new }
    ensures asked { AsksAtMost (6 * (plan_of_layout layout.now).length + 131072) memory.old memory.new }
    ensures len { length block.new ≡ length block.old }
    ensures bytes { OnOk result (block.new ≡ laid (meaning_of_layout layout.now)
        (plan_of_layout layout.now) layout.now.order layout.now.filler) }
{
    lay_thumb(block, layout);
    lay_dirs(memory, block, layout)?;
    lay_header(memory, block, layout)
}
