// The lines of captions, escaped, group by group.
//
// `pending` is the output buffer, and `writer` gets its bytes when it is full. `Err` of a function
// here: a call of the writer failed, which has taken a prefix of the buffered bytes and of those
// that the function adds.
ghost use Rattle.std.specs.Prelude.{◌≡◌, [], ◌∷◌, map, filter_map};
ghost use Rattle.px_bytes.specs.Devices.{CanCountFailure, device_of};
ghost use Rattle.px_bytes.specs.Waiting.{Adds};
ghost use Rattle.px_iim.specs.calls.View.{item_view};
ghost use Rattle.px_meaning.specs.Roles.{at_tag};
ghost use Rattle.px_meaning.specs.calls.Seen.{meaning_of};
ghost use Rattle.px_text.specs.Captions.{is_plain, escaped_byte, escaped, labelled, text_captions, caption_line, caption_lines};
ghost use Rattle.px_text.specs.Captions.{charset_line, iim_captions, iim_lines, record_lines, exif_captions, exif_text, iim_text};
ghost use Rattle.px_text.specs.calls.CaptionView.{caption_view};

use crate::caption::Caption;
use crate::captions_in::{declares_utf8, text_of};
use crate::labels::{GROUPS, Label, TEXTS, label_of, label_word};
use crate::texts::put_hex;
use px_bytes::{Failed, Pending, Sink};
use px_iim::{Iim, Item};
use px_meaning::{Fields, Meaning};

// Whether a byte is printed as it is: from 20 to 7E, the printable characters of ASCII, but 5C, the
// backslash with which escapes begin.
fn is_plain(byte: u8) -> bool
    ensures { result ≡ is_plain byte }
{
    0x20 <= byte && byte <= 0x7E && byte != 0x5C
}

// Adds one byte: a printable character of ASCII as it is, and any other byte, or a backslash, as a
// backslash and two hexadecimal digits.
fn put_byte<W: Sink>(pending: &mut Pending<'_>, writer: &mut W, byte: u8) -> Result<(), Failed>
    requires { CanCountFailure (W.calls writer.old) }
    ensures { Adds result (device_of W.calls W.bytes_taken writer.old writer.new) pending.old pending.new (escaped_byte byte) }
{
    if is_plain(byte) {
        return pending.put(writer, &[byte]);
    }
    pending.put(writer, b"\\")?;
    put_hex(pending, writer, &[byte])
}

// Adds bytes, and escapes all that are not plain.
fn put_escaped<W: Sink>(
    pending: &mut Pending<'_>,
    writer: &mut W,
    bytes: &[u8],
) -> Result<(), Failed>
    requires { CanCountFailure (W.calls writer.old) }
    ensures { Adds result (device_of W.calls W.bytes_taken writer.old writer.new) pending.old pending.new (escaped bytes.now) }
{
    for i in 0..bytes.len() {
        put_byte(pending, writer, bytes[i])?;
    }
    Ok(())
}

// Adds the line of a caption: its label, its text with escapes, and a line feed.
#[tactic(auto, unfolding(crate::specs::Captions::caption_line))]
fn put_line<W: Sink>(
    pending: &mut Pending<'_>,
    writer: &mut W,
    caption: Caption,
) -> Result<(), Failed>
    requires { CanCountFailure (W.calls writer.old) }
    ensures { Adds result (device_of W.calls W.bytes_taken writer.old writer.new) pending.old pending.new
        (caption_line (caption_view caption.entry)) }
{
    pending.put(writer, label_word(caption.label))?;
    put_escaped(pending, writer, caption.text)?;
    pending.put(writer, b"\n")
}

// Adds the line of a DataSet if it has a label.
fn put_item<W: Sink>(pending: &mut Pending<'_>, writer: &mut W, item: &Item) -> Result<(), Failed>
    requires { CanCountFailure (W.calls writer.old) }
    ensures { Adds result (device_of W.calls W.bytes_taken writer.old writer.new) pending.old pending.new
        (caption_lines (filter_map labelled (item_view item.now ∷ []))) }
{
    match label_of(item.number) {
        Some(label) => put_line(
            pending,
            writer,
            Caption {
                label,
                text: item.octets,
            },
        ),
        None => Ok(()),
    }
}

// Adds the lines of a group's DataSets that have a label.
fn put_group<W: Sink>(
    pending: &mut Pending<'_>,
    writer: &mut W,
    items: &[Item],
) -> Result<(), Failed>
    requires { CanCountFailure (W.calls writer.old) }
    ensures { Adds result (device_of W.calls W.bytes_taken writer.old writer.new) pending.old pending.new
        (caption_lines (filter_map labelled (map item_view items.now))) }
{
    for item in items {
        put_item(pending, writer, item)?;
    }
    Ok(())
}

// Adds the lines of a record's captions: DataSets of record 2, group by group.
fn put_groups<W: Sink>(pending: &mut Pending<'_>, writer: &mut W, iim: &Iim) -> Result<(), Failed>
    requires { CanCountFailure (W.calls writer.old) }
    ensures { Adds result (device_of W.calls W.bytes_taken writer.old writer.new) pending.old pending.new
        (caption_lines (iim_captions iim.now)) }
{
    for i in 0..GROUPS.len() {
        put_group(pending, writer, iim.group(2, GROUPS[i]))?;
    }
    Ok(())
}

// The line that shows whether a record declares UTF-8.
fn charset_line(declared: bool) -> &'static [u8]
    ensures { result.now ≡ charset_line declared }
{
    if declared {
        b"charset: UTF-8\n"
    } else {
        b"charset: not declared\n"
    }
}

// Adds the lines of a record.
fn put_iim<W: Sink>(pending: &mut Pending<'_>, writer: &mut W, iim: &Iim) -> Result<(), Failed>
    requires { CanCountFailure (W.calls writer.old) }
    ensures { Adds result (device_of W.calls W.bytes_taken writer.old writer.new) pending.old pending.new (iim_lines iim.now) }
{
    pending.put(writer, charset_line(declares_utf8(iim)))?;
    put_groups(pending, writer, iim)
}

// Adds the lines of the record in a main directory.
fn put_record<W: Sink>(
    pending: &mut Pending<'_>,
    writer: &mut W,
    iim: &Option<Iim>,
) -> Result<(), Failed>
    requires { CanCountFailure (W.calls writer.old) }
    ensures { Adds result (device_of W.calls W.bytes_taken writer.old writer.new) pending.old pending.new (record_lines iim.now) }
{
    match iim {
        Some(iim) => put_iim(pending, writer, iim),
        None => Ok(()),
    }
}

// Adds the line of the field with this tag if it is a text.
fn put_text<W: Sink>(
    pending: &mut Pending<'_>,
    writer: &mut W,
    fields: &Fields,
    tag: u16,
    label: Label,
) -> Result<(), Failed>
    requires { CanCountFailure (W.calls writer.old) }
    ensures { Adds result (device_of W.calls W.bytes_taken writer.old writer.new) pending.old pending.new
        (caption_lines (text_captions label (at_tag tag fields.now))) }
{
    let Some(value) = fields.get(tag) else {
        return Ok(());
    };
    let Some(text) = text_of(value) else {
        return Ok(());
    };
    put_line(pending, writer, Caption { label, text })
}

// Adds the lines of a main directory.
fn put_texts<W: Sink>(
    pending: &mut Pending<'_>,
    writer: &mut W,
    fields: &Fields,
) -> Result<(), Failed>
    requires { CanCountFailure (W.calls writer.old) }
    ensures { Adds result (device_of W.calls W.bytes_taken writer.old writer.new) pending.old pending.new
        (caption_lines (exif_captions fields.now)) }
{
    for i in 0..TEXTS.len() {
        let (tag, label) = TEXTS[i];
        put_text(pending, writer, fields, tag, label)?;
    }
    Ok(())
}

/// Adds the text of an Exif block's captions to the output buffer: the line `exif`; a line `LABEL: TEXT` for each of
/// the fields ImageDescription, Artist and Copyright of the main directory that is ASCII or UTF-8; and, if it has a
/// record, the lines of that, as `put_iim_captions` has them after `iim`. Bytes from 20 to 7E except the backslash
/// are printed as they are; any other byte is a backslash and two hexadecimal digits. It allocates nothing. It ends
/// at the first call that fails, which is counted: the writer has then taken a prefix of the buffered bytes and of
/// these lines after them.
pub fn put_exif_captions<W: Sink>(
    pending: &mut Pending<'_>,
    writer: &mut W,
    meaning: &Meaning,
) -> Result<(), Failed>
    requires { CanCountFailure (W.calls writer.old) }
    ensures { Adds result (device_of W.calls W.bytes_taken writer.old writer.new) pending.old pending.new
        (exif_text (meaning_of meaning.now)) }
{
    pending.put(writer, b"exif\n")?;
    put_texts(pending, writer, &meaning.main)?;
    put_record(pending, writer, &meaning.iptc)
}

/// Adds the text of a record's captions to the output buffer: the line `iim`; `charset: UTF-8` or
/// `charset: not declared`; and a line `LABEL: TEXT` for each DataSet of record 2 with a label, group by group: 5,
/// 120, 105, 110, 115, 116, 80 with 85, 25 and 103. Bytes from 20 to 7E except the backslash are printed as they are;
/// any other byte is a backslash and two hexadecimal digits. It allocates nothing. It ends at the first call that
/// fails, which is counted: the writer has then taken a prefix of the buffered bytes and of these lines after them.
pub fn put_iim_captions<W: Sink>(
    pending: &mut Pending<'_>,
    writer: &mut W,
    iim: &Iim,
) -> Result<(), Failed>
    requires { CanCountFailure (W.calls writer.old) }
    ensures { Adds result (device_of W.calls W.bytes_taken writer.old writer.new) pending.old pending.new (iim_text iim.now) }
{
    pending.put(writer, b"iim\n")?;
    put_iim(pending, writer, iim)
}
