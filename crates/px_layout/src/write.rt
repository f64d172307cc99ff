// Writes a normal form to a writer.
ghost use Rattle.std.specs.Prelude.{◌≡◌, IfErr, OnOk, length};
ghost use Rattle.px_bytes.specs.declared.causes.WriteRefusal.TheVariants.{NormalTooLong};
ghost use Rattle.px_meaning.specs.Writable.{IsWritable};
ghost use Rattle.px_meaning.specs.calls.Seen.{meaning_of};
ghost use Rattle.px_layout.specs.Writing.{WritesExif};
ghost use Rattle.px_layout.specs.Normal.{normal_exif};
ghost use Rattle.px_bytes.specs.Devices.{CanCountFailure, IsShort, SendsOnce};

use crate::form::NormalForm;
use crate::put_form::put_normal;
use px_bytes::{CAPACITY, Pending, Sink, WriteRefusal};
use px_meaning::Meaning;

/// Writes the normal form of a meaning that can be written (`is_writable`), and flushes the writer once at the end.
/// Returns the form's length in bytes, at most `LIMIT`.
///
/// The form has the most significant byte first. After the header come the main directory, then the Exif,
/// Interoperability, GPS and thumbnail directories. Each table is followed by its placed values by ascending
/// tag. The JPEG and the strips come last. Each part follows directly after the one before, and is padded with
/// a 0 to an even number of bytes. TIFF 6.0 section 2; CIPA DC-008 4.6.3 and 4.5.5.
///
/// `NormalTooLong`: the form is longer than `LIMIT`; nothing is written. `WriteFailed`: a call of the writer
/// failed, or the flush, which ends the call; the writer has taken a prefix of the form. `OutOfMemory` never
/// comes: it allocates nothing.
///
/// `NormalForm::new` computes the byte offset of each part first. A form of at most 8,192 bytes is one write if
/// the writer takes it whole, since all of it fits into the output buffer. A longer form is written in pieces of
/// up to 8,192 bytes, and a longer value at once.
pub fn write_normal_in<W: Sink>(m: &Meaning, writer: &mut W) -> Result<u64, WriteRefusal>
    requires few { CanCountFailure (W.calls writer.old) }
    requires fits { IsWritable (meaning_of m.now) }
    ensures form { WritesExif result (W.bytes_taken writer.old) (W.bytes_taken writer.new) (W.calls writer.old) (W.calls writer.new)
        (meaning_of m.now) }
    ensures flushed { OnOk result (W.unflushed writer.new ≡ 0) }
    ensures once { IsShort (length (normal_exif (meaning_of m.now))) → SendsOnce W.wrote W.flushed writer.old writer.new
        (normal_exif (meaning_of m.now)) }
    ensures untouched { IfErr result (λ e. e ≡ NormalTooLong → writer.new ≡ writer.old) }
{
    let form = NormalForm::new(m)?;
    let len = form.len();
    let mut space = [0; CAPACITY];
    let mut pending = Pending::new(&mut space);
    put_normal(&mut pending, writer, &form)?;
    pending.send(writer)?;
    writer.flush_all()?;
    Ok(len)
}
