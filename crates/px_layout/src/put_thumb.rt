// Puts the thumbnail's bytes, after all directories: the JPEG, then the strips, each padded to an even number
// of bytes. CIPA DC-008 4.5.5; TIFF 6.0 section 8.
//
// `pending` is the output buffer, and `writer` gets its bytes when it is full. `Err` of a function
// here: a call of the writer failed, which has taken a prefix of the buffered bytes and of those
// that the function adds.
ghost use Rattle.std.specs.Prelude.{Some, option_map, flat_map};
ghost use Rattle.px_bytes.specs.Devices.{CanCountFailure};
ghost use Rattle.px_bytes.specs.Waiting.{AddsBuffered};
ghost use Rattle.px_meaning.specs.calls.Seen.{thumb_of};
ghost use Rattle.px_layout.specs.Laid.{jpeg_contents, strip_contents, all_strip_contents, thumb_contents};
ghost use Rattle.px_layout.specs.Normal.{padded};

use crate::put::put_padding;
use px_bytes::{Failed, Pending, Sink};
use px_meaning::{Strips, Thumb};

// Puts bytes, and a zero after an odd number of bytes.
fn put_padded<W: Sink>(
    pending: &mut Pending<'_>,
    writer: &mut W,
    bytes: &[u8],
) -> Result<(), Failed>
    requires { CanCountFailure (W.calls writer.old) }
    ensures { AddsBuffered W.calls W.bytes_taken result writer.old writer.new pending.old pending.new (padded bytes.now) }
{
    pending.put(writer, bytes)?;
    put_padding(pending, writer, bytes.len() as u64)
}

// Puts the strips in order, each padded. `run_at` gives several strips at once if no zero comes
// between them.
fn put_strips<W: Sink>(
    pending: &mut Pending<'_>,
    writer: &mut W,
    strips: &Strips,
) -> Result<(), Failed>
    requires { CanCountFailure (W.calls writer.old) }
    ensures { AddsBuffered W.calls W.bytes_taken result writer.old writer.new pending.old pending.new (flat_map
        (λ c. padded c.1) (strip_contents 0 strips.now)) }
{
    let count = strips.len();
    let mut i = 0;
    while i < count {
        let run = strips.run_at(i);
        put_padded(pending, writer, run.bytes)?;
        i += run.count;
    }
    Ok(())
}

// Puts the strips, if the thumbnail has any.
fn put_all_strips<W: Sink>(
    pending: &mut Pending<'_>,
    writer: &mut W,
    strips: &Option<Strips>,
) -> Result<(), Failed>
    requires { CanCountFailure (W.calls writer.old) }
    ensures { AddsBuffered W.calls W.bytes_taken result writer.old writer.new pending.old pending.new (flat_map
        (λ c. padded c.1) (all_strip_contents strips.now)) }
{
    match strips {
        Some(strips) => put_strips(pending, writer, strips),
        None => Ok(()),
    }
}

// Puts the JPEG with its padding, if the thumbnail has one.
fn put_jpeg<W: Sink>(
    pending: &mut Pending<'_>,
    writer: &mut W,
    jpeg: Option<&[u8]>,
) -> Result<(), Failed>
    requires { CanCountFailure (W.calls writer.old) }
    ensures { AddsBuffered W.calls W.bytes_taken result writer.old writer.new pending.old pending.new (flat_map
        (λ c. padded c.1) (jpeg_contents (option_map (λ x. x.now) jpeg.entry))) }
{
    match jpeg {
        Some(bytes) => put_padded(pending, writer, bytes),
        None => Ok(()),
    }
}

// Puts the JPEG of a thumbnail, and its strips after that.
fn put_parts<W: Sink>(
    pending: &mut Pending<'_>,
    writer: &mut W,
    thumb: &Thumb,
) -> Result<(), Failed>
    requires { CanCountFailure (W.calls writer.old) }
    ensures { AddsBuffered W.calls W.bytes_taken result writer.old writer.new pending.old pending.new (flat_map
        (λ c. padded c.1) (thumb_contents (Some (thumb_of thumb.now)))) }
{
    put_jpeg(pending, writer, thumb.jpeg)?;
    put_all_strips(pending, writer, &thumb.strips)
}

// Puts the JPEG and the strips, if there is a thumbnail.
#[tactic(auto, unfolding(crate::specs::Laid::thumb_contents))]
pub(crate) fn put_thumb<W: Sink>(
    pending: &mut Pending<'_>,
    writer: &mut W,
    thumb: &Option<Thumb>,
) -> Result<(), Failed>
    requires { CanCountFailure (W.calls writer.old) }
    ensures { AddsBuffered W.calls W.bytes_taken result writer.old writer.new pending.old pending.new (flat_map
        (λ c. padded c.1) (thumb_contents (option_map thumb_of thumb.now))) }
{
    match thumb {
        Some(thumb) => put_parts(pending, writer, thumb),
        None => Ok(()),
    }
}
