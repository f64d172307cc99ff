// The listing of a block.
//
// `pending` is the output buffer, and `writer` gets its bytes when it is full. `Err` of a function
// here: a call of the writer failed, which has taken a prefix of the buffered bytes and of those
// that the function adds.
ghost use Rattle.std.specs.Prelude.{◌++◌, Some, codes, flat_map, option_map};
ghost use Rattle.px_bytes.specs.Devices.{CanCountFailure, device_of};
ghost use Rattle.px_bytes.specs.Waiting.{Adds};
ghost use Rattle.px_meaning.specs.calls.Seen.{exif_of, thumb_of, meaning_of};
ghost use Rattle.px_text.specs.Listing.{field_lines, jpeg_lines, strip_line, strips_lines, record_lines, directory_lines, exif_lines};
ghost use Rattle.px_text.specs.Listing.{thumb_lines, exif_listing, iim_listing};
ghost use Rattle.px_text.specs.Words.{sized_bytes};

use crate::dataset_lines::{count_datasets, put_datasets};
use crate::field_lines::put_fields;
use crate::texts::{put_number, put_sized};
use px_bytes::{Failed, Pending, Sink};
use px_iim::Iim;
use px_meaning::{ExifPart, Fields, Meaning, Strips, Thumb};

// Adds the record in the main directory: the number of its DataSets and the DataSets.
fn put_record<W: Sink>(
    pending: &mut Pending<'_>,
    writer: &mut W,
    iim: &Option<Iim>,
) -> Result<(), Failed>
    requires { CanCountFailure (W.calls writer.old) }
    ensures { Adds result (device_of W.calls W.bytes_taken writer.old writer.new) pending.old pending.new (record_lines iim.now) }
{
    let Some(iim) = iim else {
        return Ok(());
    };
    put_number(pending, writer, b"record ", count_datasets(iim), b":\n")?;
    put_datasets(pending, writer, iim)
}

// Adds a directory's name and its fields.
fn put_titled<W: Sink>(
    pending: &mut Pending<'_>,
    writer: &mut W,
    name: &[u8],
    fields: &Fields,
) -> Result<(), Failed>
    requires { CanCountFailure (W.calls writer.old) }
    ensures { Adds result (device_of W.calls W.bytes_taken writer.old writer.new) pending.old pending.new
        (name.now ++ field_lines fields.now) }
{
    pending.put(writer, name)?;
    put_fields(pending, writer, fields)
}

// Adds a directory that has only fields.
fn put_directory<W: Sink>(
    pending: &mut Pending<'_>,
    writer: &mut W,
    name: &[u8],
    fields: &Option<Fields>,
) -> Result<(), Failed>
    requires { CanCountFailure (W.calls writer.old) }
    ensures { Adds result (device_of W.calls W.bytes_taken writer.old writer.new) pending.old pending.new
        (directory_lines name.now fields.now) }
{
    match fields {
        Some(fields) => put_titled(pending, writer, name, fields),
        None => Ok(()),
    }
}

// Adds the Exif directory and the Interoperability directory that it has a pointer to: nothing if
// the meaning lacks them.
fn put_exif<W: Sink>(
    pending: &mut Pending<'_>,
    writer: &mut W,
    exif: &Option<ExifPart>,
) -> Result<(), Failed>
    requires { CanCountFailure (W.calls writer.old) }
    ensures { Adds result (device_of W.calls W.bytes_taken writer.old writer.new) pending.old pending.new
        (exif_lines (option_map exif_of exif.now)) }
{
    let Some(exif) = exif else {
        return Ok(());
    };
    put_titled(pending, writer, b"[exif]\n", &exif.fields)?;
    put_directory(pending, writer, b"[interop]\n", &exif.interop)
}

// Adds a word and a part of the thumbnail.
fn put_part<W: Sink>(
    pending: &mut Pending<'_>,
    writer: &mut W,
    word: &[u8],
    bytes: &[u8],
) -> Result<(), Failed>
    requires { CanCountFailure (W.calls writer.old) }
    ensures { Adds result (device_of W.calls W.bytes_taken writer.old writer.new) pending.old pending.new
        (word.now ++ sized_bytes bytes.now) }
{
    pending.put(writer, word)?;
    put_sized(pending, writer, bytes)
}

// Adds the line of the JPEG, if the thumbnail has one.
fn put_jpeg<W: Sink>(
    pending: &mut Pending<'_>,
    writer: &mut W,
    jpeg: Option<&[u8]>,
) -> Result<(), Failed>
    requires { CanCountFailure (W.calls writer.old) }
    ensures { Adds result (device_of W.calls W.bytes_taken writer.old writer.new) pending.old pending.new
        (jpeg_lines (option_map (λ x. x.now) jpeg.entry)) }
{
    match jpeg {
        Some(bytes) => put_part(pending, writer, b"jpeg", bytes),
        None => Ok(()),
    }
}

// Adds a line for each strip, in their order.
fn put_each_strip<W: Sink>(
    pending: &mut Pending<'_>,
    writer: &mut W,
    strips: &Strips,
) -> Result<(), Failed>
    requires { CanCountFailure (W.calls writer.old) }
    ensures { Adds result (device_of W.calls W.bytes_taken writer.old writer.new) pending.old pending.new
        (flat_map strip_line strips.now) }
{
    for i in 0..strips.len() {
        put_part(pending, writer, b"strip", strips.at(i))?;
    }
    Ok(())
}

// Adds the number of strips and the strips.
fn put_strips<W: Sink>(
    pending: &mut Pending<'_>,
    writer: &mut W,
    strips: &Option<Strips>,
) -> Result<(), Failed>
    requires { CanCountFailure (W.calls writer.old) }
    ensures { Adds result (device_of W.calls W.bytes_taken writer.old writer.new) pending.old pending.new (strips_lines strips.now) }
{
    let Some(strips) = strips else {
        return Ok(());
    };
    put_number(pending, writer, b"strips ", strips.len(), b":\n")?;
    put_each_strip(pending, writer, strips)
}

// Adds the thumbnail directory, its JPEG and its strips: nothing if the meaning has no thumbnail.
fn put_thumb<W: Sink>(
    pending: &mut Pending<'_>,
    writer: &mut W,
    thumb: &Option<Thumb>,
) -> Result<(), Failed>
    requires { CanCountFailure (W.calls writer.old) }
    ensures { Adds result (device_of W.calls W.bytes_taken writer.old writer.new) pending.old pending.new
        (thumb_lines (option_map thumb_of thumb.now)) }
{
    let Some(thumb) = thumb else {
        return Ok(());
    };
    put_titled(pending, writer, b"[thumb]\n", &thumb.fields)?;
    put_jpeg(pending, writer, thumb.jpeg)?;
    put_strips(pending, writer, &thumb.strips)
}

// Adds the first line, and the main directory with its record.
fn put_main<W: Sink>(
    pending: &mut Pending<'_>,
    writer: &mut W,
    fields: &Fields,
    iim: &Option<Iim>,
) -> Result<(), Failed>
    requires { CanCountFailure (W.calls writer.old) }
    ensures { Adds result (device_of W.calls W.bytes_taken writer.old writer.new) pending.old pending.new
        (codes "exif\n[main]\n" ++ field_lines fields.now ++ record_lines iim.now) }
{
    put_titled(pending, writer, b"exif\n[main]\n", fields)?;
    put_record(pending, writer, iim)
}

/// Adds the listing of an Exif block to the output buffer: the line `exif`; for each directory that the meaning has,
/// in the order main, Exif, Interoperability, GPS and thumbnail, a line with its name, as `[main]`, and a line for
/// each field with tag, type, count and elements; after the main one's fields the record, a line with its number of
/// DataSets and a line for each; after the thumbnail's fields its JPEG and strips. It allocates nothing. It ends at
/// the first call that fails, which is counted: the writer has then taken a prefix of the buffered bytes and of this
/// listing after them.
#[tactic(auto, unfolding(crate::specs::Listing::exif_listing))]
pub fn put_exif_listing<W: Sink>(
    pending: &mut Pending<'_>,
    writer: &mut W,
    meaning: &Meaning,
) -> Result<(), Failed>
    requires { CanCountFailure (W.calls writer.old) }
    ensures { Adds result (device_of W.calls W.bytes_taken writer.old writer.new) pending.old pending.new
        (exif_listing (meaning_of meaning.now)) }
{
    put_main(pending, writer, &meaning.main, &meaning.iptc)?;
    put_exif(pending, writer, &meaning.exif)?;
    put_directory(pending, writer, b"[gps]\n", &meaning.gps)?;
    put_thumb(pending, writer, &meaning.thumb)
}

/// Adds the listing of a record to the output buffer: the line `iim`, and a line for each DataSet, group by group,
/// with its record number, its own number, the length of its data and the data. It allocates nothing. It ends at the
/// first call that fails, which is counted: the writer has then taken a prefix of the buffered bytes and of this
/// listing after them.
#[tactic(auto, unfolding(crate::specs::Listing::iim_listing))]
pub fn put_iim_listing<W: Sink>(
    pending: &mut Pending<'_>,
    writer: &mut W,
    iim: &Iim,
) -> Result<(), Failed>
    requires { CanCountFailure (W.calls writer.old) }
    ensures { Adds result (device_of W.calls W.bytes_taken writer.old writer.new) pending.old pending.new (iim_listing iim.now) }
{
    pending.put(writer, b"iim\n")?;
    put_datasets(pending, writer, iim)
}
