// The listing and the captions of a file: written as text, and the captions as a list.
ghost use Rattle.std.specs.Prelude.{◌≡◌, length, IfOk, OnOk, ◌*◌};
ghost use Rattle.px_bytes.specs.Devices.{CanCountFailure, device_of, SendsFlushed};
ghost use Rattle.px_bytes.specs.Allocations.{CountsAllocFailure, AsksAtMost};
ghost use Rattle.px_bytes.specs.Waiting.{Adds};
ghost use Rattle.px_engine.specs.Asking.{text_request};
ghost use Rattle.px_engine.specs.Prints.{caption_text, listing, captions_in};
ghost use Rattle.px_engine.specs.calls.Ends.{WritesText};
ghost use Rattle.px_engine.specs.calls.Faults.{as_fault};
ghost use Rattle.px_engine.specs.calls.Seen.{said_view};
ghost use Rattle.px_text.specs.Captions.{caption_bytes};

use crate::error::Fault;
use crate::meaning::Said;
use px_bytes::{AllocFailed, CAPACITY, Failed, Growing, Memory, Pending, Sink};
use px_text::{
    Captions, exif_captions_in, iim_captions_in, put_exif_captions, put_exif_listing,
    put_iim_captions, put_iim_listing,
};

// Adds the listing to the output buffer.
fn put_listing<W: Sink>(
    pending: &mut Pending<'_>,
    writer: &mut W,
    meaning: &Said,
) -> Result<(), Failed>
    requires { CanCountFailure (W.calls writer.old) }
    ensures { Adds result (device_of W.calls W.bytes_taken writer.old writer.new) pending.old pending.new
        (listing (said_view meaning.now)) }
{
    match meaning {
        Said::Exif(tree) => put_exif_listing(pending, writer, tree),
        Said::Iim(iim) => put_iim_listing(pending, writer, iim),
    }
}

// Adds the captions to the output buffer.
fn put_captions<W: Sink>(
    pending: &mut Pending<'_>,
    writer: &mut W,
    meaning: &Said,
) -> Result<(), Failed>
    requires { CanCountFailure (W.calls writer.old) }
    ensures { Adds result (device_of W.calls W.bytes_taken writer.old writer.new) pending.old pending.new
        (caption_text (said_view meaning.now)) }
{
    match meaning {
        Said::Exif(tree) => put_exif_captions(pending, writer, tree),
        Said::Iim(iim) => put_iim_captions(pending, writer, iim),
    }
}

// Writes the output buffer and flushes once.
fn send_and_flush<W: Sink>(pending: &mut Pending<'_>, writer: &mut W) -> Result<(), Failed>
    requires { CanCountFailure (W.calls writer.old) }
    ensures text { SendsFlushed result (device_of W.calls W.bytes_taken writer.old writer.new) pending.old.bytes }
    ensures flushed { OnOk result (W.unflushed writer.new ≡ 0) }
{
    pending.send(writer)?;
    writer.flush_all()
}

// Writes the listing and flushes once.
fn send_listing<W: Sink>(meaning: &Said, writer: &mut W) -> Result<(), Failed>
    requires { CanCountFailure (W.calls writer.old) }
    ensures text { SendsFlushed result (device_of W.calls W.bytes_taken writer.old writer.new) (listing (said_view meaning.now)) }
    ensures flushed { OnOk result (W.unflushed writer.new ≡ 0) }
{
    let mut space = [0; CAPACITY];
    let mut pending = Pending::new(&mut space);
    put_listing(&mut pending, writer, meaning)?;
    send_and_flush(&mut pending, writer)
}

// Writes the captions and flushes once.
fn send_captions<W: Sink>(meaning: &Said, writer: &mut W) -> Result<(), Failed>
    requires { CanCountFailure (W.calls writer.old) }
    ensures text { SendsFlushed result (device_of W.calls W.bytes_taken writer.old writer.new) (caption_text (said_view meaning.now)) }
    ensures flushed { OnOk result (W.unflushed writer.new ≡ 0) }
{
    let mut space = [0; CAPACITY];
    let mut pending = Pending::new(&mut space);
    put_captions(&mut pending, writer, meaning)?;
    send_and_flush(&mut pending, writer)
}

// The result of writing a text, as the result of a run: a failed call is `WriteFailed`.
fn as_fault(outcome: Result<(), Failed>) -> Result<(), Fault>
    ensures { result ≡ as_fault outcome }
{
    match outcome {
        Ok(()) => Ok(()),
        Err(_) => Err(Fault::WriteFailed),
    }
}

// Writes the listing and flushes once. It allocates nothing.
pub(crate) fn write_listing<W: Sink>(meaning: &Said, writer: &mut W) -> Result<(), Fault>
    requires { CanCountFailure (W.calls writer.old) }
    ensures text { WritesText result (W.bytes_taken writer.old) (W.bytes_taken writer.new) (W.calls writer.old) (W.calls writer.new)
        (listing (said_view meaning.now)) }
    ensures flushed { OnOk result (W.unflushed writer.new ≡ 0) }
{
    as_fault(send_listing(meaning, writer))
}

// Writes the captions and flushes once. It allocates nothing.
pub(crate) fn write_captions<W: Sink>(meaning: &Said, writer: &mut W) -> Result<(), Fault>
    requires { CanCountFailure (W.calls writer.old) }
    ensures text { WritesText result (W.bytes_taken writer.old) (W.bytes_taken writer.new) (W.calls writer.old) (W.calls writer.new)
        (caption_text (said_view meaning.now)) }
    ensures flushed { OnOk result (W.unflushed writer.new ≡ 0) }
{
    as_fault(send_captions(meaning, writer))
}

// The listing, in memory. `Err`: an allocation failed.
pub(crate) fn listing(memory: &mut Memory, meaning: &Said) -> Result<Vec<u8>, AllocFailed>
    ensures text { IfOk result (λ text. text.items ≡ listing (said_view meaning.now)) }
    ensures memory { CountsAllocFailure result memory.old memory.new }
    ensures asked { AsksAtMost (text_request (length (listing (said_view meaning.now)))) memory.old memory.new }
{
    let mut writer = Growing::new(memory);
    // A write fails if an allocation failed, which `finish_in` reports.
    let _ = send_listing(meaning, &mut writer);
    writer.finish_in(memory)
}

// The text of the captions, in memory. `Err`: an allocation failed.
pub(crate) fn caption_text(memory: &mut Memory, meaning: &Said) -> Result<Vec<u8>, AllocFailed>
    ensures text { IfOk result (λ text. text.items ≡ caption_text (said_view meaning.now)) }
    ensures memory { CountsAllocFailure result memory.old memory.new }
    ensures asked { AsksAtMost (text_request (length (caption_text (said_view meaning.now)))) memory.old memory.new }
{
    let mut writer = Growing::new(memory);
    // A write fails if an allocation failed, which `finish_in` reports.
    let _ = send_captions(meaning, &mut writer);
    writer.finish_in(memory)
}

/// The captions of a file. Of an Exif block these are the fields ImageDescription, Artist and Copyright of
/// its main directory, if they are ASCII or UTF-8, and then the captions of a record in it. Of a record they
/// are its labelled DataSets, group by group, each in list order. The bytes are those that were read.
///
/// Allocates the list. `Err`: an allocation failed.
pub fn captions_of_in<'a>(
    memory: &mut Memory,
    meaning: &Said<'a>,
) -> Result<Captions<'a>, AllocFailed>
    ensures captions { IfOk result (λ c. c ≡ captions_in (said_view meaning.now)) }
    ensures memory { CountsAllocFailure result memory.old memory.new }
    ensures asked { AsksAtMost (caption_bytes * length (captions_in (said_view meaning.now)).1) memory.old memory.new }
{
    match meaning {
        Said::Exif(tree) => exif_captions_in(memory, tree),
        Said::Iim(iim) => iim_captions_in(memory, iim),
    }
}
