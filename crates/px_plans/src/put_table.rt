// The header and the tables of directories. TIFF 6.0 section 2, "Image File Header" and "Image File Directory".
//
// `pending` is the output buffer, and `writer` gets its bytes when it is full. `Err` of a function
// here: a call of the writer failed, which has taken a prefix of the buffered bytes and of those
// that the function adds.
ghost use Rattle.std.specs.Prelude.{◌<◌, ◌^◌, length, flat_map};
ghost use Rattle.px_bytes.specs.Devices.{CanCountFailure};
ghost use Rattle.px_bytes.specs.Waiting.{AddsBuffered};
ghost use Rattle.px_plans.specs.calls.Layouts.{header_in, entry_in, next_in, table_in};

use crate::layout::Layout;
use crate::put_item::{put_entry, put_place};
use px_bytes::{Failed, Pending, Sink};
use px_layout::{Chunk, Entries, put_filler, put_long, put_short};
use px_tree::{Dir, magic_of};

// Adds the header: the byte order, the number 42, and the offset of the main directory.
pub(crate) fn put_header<W: Sink>(
    pending: &mut Pending<'_>,
    writer: &mut W,
    layout: &Layout,
) -> Result<(), Failed>
    requires { CanCountFailure (W.calls writer.old) }
    ensures { AddsBuffered W.calls W.bytes_taken result writer.old writer.new pending.old pending.new
        (header_in layout.now) }
{
    pending.put(writer, &magic_of(layout.order))?;
    put_place(pending, writer, layout, Chunk::Table(Dir::Main))
}

// Adds the entries of a directory by ascending tag, twelve bytes each.
fn put_entries<W: Sink>(
    pending: &mut Pending<'_>,
    writer: &mut W,
    layout: &Layout,
    dir: Dir,
    entries: &Entries,
) -> Result<(), Failed>
    requires { CanCountFailure (W.calls writer.old) }
    ensures { AddsBuffered W.calls W.bytes_taken result writer.old writer.new pending.old pending.new
        (flat_map (entry_in layout.now dir) entries.now) }
{
    for i in 0..entries.len() {
        let entry = entries.at(i);
        put_entry(pending, writer, layout, dir, &entry)?;
    }
    Ok(())
}

// Adds the offset of the thumbnail directory, or 0 if the meaning has no thumbnail.
fn put_next_of_main<W: Sink>(
    pending: &mut Pending<'_>,
    writer: &mut W,
    layout: &Layout,
) -> Result<(), Failed>
    requires { CanCountFailure (W.calls writer.old) }
    ensures { AddsBuffered W.calls W.bytes_taken result writer.old writer.new pending.old pending.new (next_in layout.now Dir.Main) }
{
    match &layout.m.thumb {
        Some(_) => put_place(pending, writer, layout, Chunk::Table(Dir::Thumb)),
        None => put_long(pending, writer, layout.order, 0),
    }
}

// Adds the last four bytes of a table: the offset of the thumbnail directory after the main
// directory, 0 after the thumbnail directory, and filler after the others, where these bytes are
// not read.
fn put_next<W: Sink>(
    pending: &mut Pending<'_>,
    writer: &mut W,
    layout: &Layout,
    dir: Dir,
) -> Result<(), Failed>
    requires { CanCountFailure (W.calls writer.old) }
    ensures { AddsBuffered W.calls W.bytes_taken result writer.old writer.new pending.old pending.new (next_in layout.now dir) }
{
    match dir {
        Dir::Main => put_next_of_main(pending, writer, layout),
        Dir::Thumb => put_long(pending, writer, layout.order, 0),
        Dir::Exif | Dir::Interop | Dir::Gps => put_filler(pending, writer, layout.filler, 4),
    }
}

// Adds the table of a directory: the number of its entries in two bytes, so fewer than 65,536; the
// entries; and the offset of the next directory in four.
pub(crate) fn put_table<W: Sink>(
    pending: &mut Pending<'_>,
    writer: &mut W,
    layout: &Layout,
    dir: Dir,
    entries: &Entries,
) -> Result<(), Failed>
    requires few { CanCountFailure (W.calls writer.old) }
    requires counted { length entries.now < 2 ^ 16 }
    ensures { AddsBuffered W.calls W.bytes_taken result writer.old writer.new pending.old pending.new
        (table_in layout.now dir entries.now) }
{
    put_short(pending, writer, layout.order, entries.len() as u16)?;
    put_entries(pending, writer, layout, dir, entries)?;
    put_next(pending, writer, layout, dir)
}
