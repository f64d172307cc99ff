// The call with an allocator, which is one call of its `_in` form. It is for callers of this crate: nothing that
// ships calls it.
ghost use Rattle.std.specs.Prelude.{◌≡◌, IfErr, OnOk, length};
ghost use Rattle.px_bytes.specs.declared.causes.WriteRefusal.TheVariants.{NormalTooLong};
ghost use Rattle.px_meaning.specs.Writable.{IsWritable};
ghost use Rattle.px_meaning.specs.calls.Seen.{meaning_of};
ghost use Rattle.px_layout.specs.Writing.{WritesExif};
ghost use Rattle.px_layout.specs.Normal.{normal_exif};
ghost use Rattle.px_bytes.specs.Devices.{CanCountFailure, IsShort, SendsOnce};

use crate::write::write_normal_in;
use px_bytes::{Sink, WriteRefusal};
use px_meaning::Meaning;
use std::alloc::Global;

/// Writes the normal form of a meaning that can be written (`is_writable`), and flushes the writer once at the end.
/// Returns the form's length in bytes, at most `LIMIT`. `write_normal_in` describes the form.
///
/// `NormalTooLong`: the form is longer than `LIMIT`; nothing is written. `WriteFailed`: a call of the writer
/// failed, or the flush, which ends the call; the writer has taken a prefix of the form. `OutOfMemory` never
/// comes: it allocates nothing, and leaves the allocator alone. A form of at most 8,192 bytes is offered in one
/// write, and no other follows if the writer takes it whole.
pub fn write_normal<W: Sink>(
    _alloc: Global,
    m: &Meaning,
    writer: &mut W,
) -> Result<u64, WriteRefusal>
    requires few { CanCountFailure (W.calls writer.old) }
    requires fits { IsWritable (meaning_of m.now) }
    ensures form { WritesExif result (W.bytes_taken writer.old) (W.bytes_taken writer.new) (W.calls writer.old) (W.calls writer.new)
        (meaning_of m.now) }
    ensures flushed { OnOk result (W.unflushed writer.new ≡ 0) }
    ensures once { IsShort (length (normal_exif (meaning_of m.now))) → SendsOnce W.wrote W.flushed writer.old writer.new
        (normal_exif (meaning_of m.now)) }
    ensures untouched { IfErr result (λ e. e ≡ NormalTooLong → writer.new ≡ writer.old) }
{
    write_normal_in(m, writer)
}
