// The calls over the global allocator, each one call of its `_in` form with memory of its own, in the order of their
// modules. They are for callers of this crate: nothing that ships calls them.
ghost use Rattle.std.specs.Prelude.{◌≡◌, ℕ, IfOk, IfErr, OnOk, OnErr};
ghost use Rattle.px_bytes.specs.Reading.{ReadsUpTo, ConsumesAtMost};
ghost use Rattle.px_engine.specs.Input.{most_read, HasMeaning, IsRefused, CountsReads, IsReadFault, IsRunFault};
ghost use Rattle.px_engine.specs.Slices.{IsKindOf, PutsForm, IsSameMeaning, IsRunFaultAt, IsFormOf, IsUnwritten, IsUnwrittenAt};
ghost use Rattle.px_engine.specs.calls.Seen.{said_view};
ghost use Rattle.px_bytes.specs.Devices.{CanCountFailure};
ghost use Rattle.px_engine.specs.Prints.{captions_in, caption_text, listing, Prints, IsTextOf};
ghost use Rattle.px_engine.specs.Runs.{Checks, FormOnce, Normalises, Compares, CountsWrites, CountsSides, Untouched};
ghost use Rattle.px_engine.specs.Files.{Said as AnyMeaning};
ghost use Rattle.px_engine.specs.Headline.{Headline};

use crate::error::{CompareFault, Fault};
use crate::headline::{NormalForms, normalise_both_in};
use crate::kind::BlockKind;
use crate::meaning::{Said, read_any_in};
use crate::normal::Given;
use crate::slice::{
    captions_text_in, check_of_in, normal_form_in, put_form_in, same_of_in, show_of_in,
};
use crate::stream::{captions_in, check_in, compare_in, normalise_in, read_all_in, show_in};
use crate::text::captions_of_in;
use px_bytes::{Memory, Refusal, Sink, Source};
use px_text::Captions;
use std::alloc::{AllocError, Global};

/// Reads to the reader's end, or the first `LIMIT` + 7 bytes, one more than the longest block and the six bytes
/// before it. A read of 0 bytes is the end. It ends at the first call that fails. Allocates the bytes and one buffer.
/// `ReadFailed`: a call of the reader failed. `OutOfMemory`: an allocation failed. No other fault comes. The memory
/// is its own: an allocation that failed is counted nowhere.
pub fn read_all<R: Source>(alloc: Global, reader: &mut R) -> Result<Vec<u8>, Fault>
    requires { CanCountFailure (R.calls reader.old) }
    ensures found { IfOk result (λ v. ReadsUpTo (R.bytes_left reader.old) (R.bytes_left reader.new) most_read v.items) }
    ensures lost { ConsumesAtMost (R.bytes_left reader.old) (R.bytes_left reader.new) most_read }
    ensures fault { IfErr result IsReadFault }
    ensures count { CountsReads result (R.calls reader.old) (R.calls reader.new) }
{
    read_all_in(&mut Memory::new(alloc), reader)
}

/// The meaning of a file: an Exif block after the six bytes `45 78 69 66 00 00`; otherwise a block of DataSets if
/// the first byte is `1C`, or else an Exif block.
///
/// The meaning borrows the file's bytes. Allocates as `read_block_in` and `read_iim_in` do. `Content`: the first
/// fault of the block, judged as its kind; these two functions have the order of the checks. Offsets count from
/// the block's first byte. `OutOfMemory`: an allocation failed. The memory is its own: an allocation that failed
/// is counted nowhere.
pub fn read_any<'a>(alloc: Global, file: &'a [u8]) -> Result<Said<'a>, Refusal>
    ensures meaning { IfOk result (λ s. HasMeaning file.now (said_view s)) }
    ensures refused { IfErr result (λ r. (refused : ℕ) × IsRefused file.now refused r) }
{
    read_any_in(&mut Memory::new(alloc), file)
}

/// The captions of a file. Of an Exif block these are the fields ImageDescription, Artist and Copyright of its
/// main directory, if they are ASCII or UTF-8, and then the captions of a record in it. Of a record they are its
/// labelled DataSets, group by group, each in list order. The bytes are those that were read.
///
/// Allocates the list. `Err`: an allocation failed. The memory is its own: an allocation that failed is counted
/// nowhere.
pub fn captions_of<'a>(alloc: Global, meaning: &Said<'a>) -> Result<Captions<'a>, AllocError>
    ensures { IfOk result (λ c. c ≡ captions_in (said_view meaning.now)) }
{
    Ok(captions_of_in(&mut Memory::new(alloc), meaning)?)
}

/// Reads a file and returns the kind of its block if it has a meaning. Allocates the file's bytes, and the meaning of
/// an Exif block. `Refused`: the block's first fault. `ReadFailed`: a call of the reader failed, which ends the run.
/// `OutOfMemory`: an allocation failed. `NormalTooLong` and `WriteFailed` never come. The memory is its own: an
/// allocation that failed is counted nowhere.
pub fn check<R: Source>(alloc: Global, reader: &mut R) -> Result<BlockKind, Fault>
    requires { CanCountFailure (R.calls reader.old) }
    ensures done { Checks result (R.bytes_left reader.old) }
    ensures lost { ConsumesAtMost (R.bytes_left reader.old) (R.bytes_left reader.new) most_read }
    ensures reads { CountsReads result (R.calls reader.old) (R.calls reader.new) }
{
    check_in(&mut Memory::new(alloc), reader)
}

/// Reads a file and writes its normal form. Returns the form's length in bytes, at most `LIMIT`.
///
/// It writes nothing until the file is read and judged and the form is known to fit. So after `WriteFailed` the
/// writer has taken a prefix of the form, and after any other fault nothing. Allocates the file's bytes and the
/// meaning. `Refused`: the block's first fault; the file has no meaning. `NormalTooLong`: the form is longer than
/// `LIMIT`, which happens only for blocks longer than half of it. `ReadFailed`, `WriteFailed`: a call of that
/// device failed, which ends the run. `OutOfMemory`: an allocation failed. The memory is its own: an allocation
/// that failed is counted nowhere.
pub fn normalise<R: Source, W: Sink>(
    alloc: Global,
    reader: &mut R,
    writer: &mut W,
) -> Result<u64, Fault>
    requires reading { CanCountFailure (R.calls reader.old) }
    requires writing { CanCountFailure (W.calls writer.old) }
    ensures done { Normalises result (R.bytes_left reader.old) (W.bytes_taken writer.old) (W.bytes_taken writer.new) }
    ensures once { FormOnce W.wrote W.flushed result (R.bytes_left reader.old) writer.old writer.new }
    ensures lost { ConsumesAtMost (R.bytes_left reader.old) (R.bytes_left reader.new) most_read }
    ensures reads { CountsReads result (R.calls reader.old) (R.calls reader.new) }
    ensures writes { CountsWrites result (W.calls writer.old) (W.calls writer.new) }
    ensures flushed { OnOk result (W.unflushed writer.new ≡ 0) }
{
    normalise_in(&mut Memory::new(alloc), reader, writer)
}

/// Reads a file and writes its listing: a line for each directory, field and DataSet. It writes parts of up to
/// 8,192 bytes, a shorter text in one, and then flushes once.
///
/// It writes nothing until the file is read and judged. So after `WriteFailed` the writer has taken a prefix of
/// the text, and after any other fault nothing. Allocates the file's bytes and the meaning, but not the text.
/// `Refused`: the block's first fault. `ReadFailed`, `WriteFailed`: a call of that device failed, which ends the
/// run. `OutOfMemory`: an allocation failed. `NormalTooLong` is never returned. The memory is its own: an
/// allocation that failed is counted nowhere.
pub fn show<R: Source, W: Sink>(alloc: Global, reader: &mut R, writer: &mut W) -> Result<(), Fault>
    requires reading { CanCountFailure (R.calls reader.old) }
    requires writing { CanCountFailure (W.calls writer.old) }
    ensures done { Prints listing result (R.bytes_left reader.old) (W.bytes_taken writer.old) (W.bytes_taken writer.new) }
    ensures lost { ConsumesAtMost (R.bytes_left reader.old) (R.bytes_left reader.new) most_read }
    ensures reads { CountsReads result (R.calls reader.old) (R.calls reader.new) }
    ensures writes { CountsWrites result (W.calls writer.old) (W.calls writer.new) }
    ensures flushed { OnOk result (W.unflushed writer.new ≡ 0) }
{
    show_in(&mut Memory::new(alloc), reader, writer)
}

/// Reads a file and writes its captions, one for each line. It writes and flushes as `show` does. Bytes from 20 to
/// 7E except the backslash are printed as they are; any other byte is a backslash and two hexadecimal digits.
///
/// It writes nothing until the file is read and judged. So after `WriteFailed` the writer has taken a prefix of
/// the text, and after any other fault nothing. Allocates the file's bytes and the meaning, but not the text.
/// `Refused`: the block's first fault. `ReadFailed`, `WriteFailed`: a call of that device failed, which ends the
/// run. `OutOfMemory`: an allocation failed. `NormalTooLong` is never returned. The memory is its own: an
/// allocation that failed is counted nowhere.
pub fn captions<R: Source, W: Sink>(
    alloc: Global,
    reader: &mut R,
    writer: &mut W,
) -> Result<(), Fault>
    requires reading { CanCountFailure (R.calls reader.old) }
    requires writing { CanCountFailure (W.calls writer.old) }
    ensures done { Prints caption_text result (R.bytes_left reader.old) (W.bytes_taken writer.old) (W.bytes_taken writer.new) }
    ensures lost { ConsumesAtMost (R.bytes_left reader.old) (R.bytes_left reader.new) most_read }
    ensures reads { CountsReads result (R.calls reader.old) (R.calls reader.new) }
    ensures writes { CountsWrites result (W.calls writer.old) (W.calls writer.new) }
    ensures flushed { OnOk result (W.unflushed writer.new ≡ 0) }
{
    captions_in(&mut Memory::new(alloc), reader, writer)
}

/// Reads two files and returns whether they mean the same: the same tree of directories, or the same record. It
/// judges the first before it reads the second: a fault of the first leaves the second reader unchanged. It doesn't
/// matter whether the normal forms can be written.
///
/// Allocates the bytes and the meaning of both files. `Refused`: the first fault of that side's block. `ReadFailed`:
/// a call of that side's reader failed. `OutOfMemory`: an allocation failed. `NormalTooLong` and `WriteFailed` never
/// come. The memory is its own: an allocation that failed is counted nowhere.
pub fn compare<R: Source, S: Source>(
    alloc: Global,
    first: &mut R,
    second: &mut S,
) -> Result<bool, CompareFault>
    requires first { CanCountFailure (R.calls first.old) }
    requires second { CanCountFailure (S.calls second.old) }
    ensures done { Compares result (R.bytes_left first.old) (S.bytes_left second.old) }
    ensures untouched { Untouched result second.old second.new }
    ensures lost { ConsumesAtMost (R.bytes_left first.old) (R.bytes_left first.new) most_read }
    ensures lost_too { ConsumesAtMost (S.bytes_left second.old) (S.bytes_left second.new) most_read }
    ensures reads { CountsSides result (R.calls first.old) (R.calls first.new) (S.calls second.old) (S.calls second.new) }
{
    compare_in(&mut Memory::new(alloc), first, second)
}

/// The kind of block in a file that has a meaning. Allocates a bit for each byte of an Exif block, and the fields of
/// its thumbnail directory; nothing for a block of DataSets, and no copy of the file. `Refused`: the first fault of
/// the block. `OutOfMemory`: an allocation failed. No other fault comes. The memory is its own: an allocation that
/// failed is counted nowhere.
pub fn check_of(alloc: Global, file: &[u8]) -> Result<BlockKind, Fault>
    ensures kind { IfOk result (IsKindOf file.now) }
    ensures no_meaning { IfErr result (λ e. (refused : ℕ) × IsRunFault file.now refused e) }
{
    check_of_in(&mut Memory::new(alloc), file)
}

/// The normal form of a file, of at most `LIMIT` bytes. Allocates the meaning, and once exactly the form's bytes, but
/// no copy of the file. `Refused`: the first fault of the block. `NormalTooLong`: the form is longer than `LIMIT`.
/// `OutOfMemory`: an allocation failed. No other fault comes. The memory is its own: an allocation that failed is
/// counted nowhere.
pub fn normal_form(alloc: Global, file: &[u8]) -> Result<Vec<u8>, Fault>
    ensures formed { IfOk result (λ v. (s : AnyMeaning) × IsFormOf file.now s v.items) }
    ensures unwritten { IfErr result (λ e. (refused : ℕ) × IsUnwritten file.now refused e) }
{
    normal_form_in(&mut Memory::new(alloc), file)
}

/// Writes the normal form of a file to the start of `out` if it fits. `Whole`: `out` begins with the form, and is
/// unchanged after it. `Needs`: the form is longer than `out`, which is unchanged. Both have the form's length.
/// Allocates the meaning, but no copy of the file. On an error `out` is unchanged. `Refused`: the first fault of the
/// block. `NormalTooLong`: the form is longer than `LIMIT`. `OutOfMemory`: an allocation failed. No other fault
/// comes. The memory is its own: an allocation that failed is counted nowhere.
pub fn put_form(alloc: Global, file: &[u8], out: &mut [u8]) -> Result<Given, Fault>
    ensures put { IfOk result (λ given. PutsForm file.now given out.old out.new) }
    ensures unwritten { IfErr result (λ e. (refused : ℕ) × IsUnwritten file.now refused e) }
    ensures kept { OnErr result (out.new ≡ out.old) }
{
    put_form_in(&mut Memory::new(alloc), file, out)
}

/// The text that `show` prints of a file. Allocates the meaning and the text: less than four bytes for each byte of a
/// value or DataSet, and less than 30 more for each line. `Refused`: the first fault of the block. `OutOfMemory`: an
/// allocation failed. No other fault comes. The memory is its own: an allocation that failed is counted nowhere.
pub fn show_of(alloc: Global, file: &[u8]) -> Result<Vec<u8>, Fault>
    ensures text { IfOk result (λ text. IsTextOf listing file.now text.items) }
    ensures no_meaning { IfErr result (λ e. (refused : ℕ) × IsRunFault file.now refused e) }
{
    show_of_in(&mut Memory::new(alloc), file)
}

/// The text that `captions` prints of a file. Allocates the meaning and the text: at most three bytes for each byte
/// of a caption, and at most 22 more for each line. `Refused`: the first fault of the block. `OutOfMemory`: an
/// allocation failed. No other fault comes. The memory is its own: an allocation that failed is counted nowhere.
pub fn captions_text(alloc: Global, file: &[u8]) -> Result<Vec<u8>, Fault>
    ensures text { IfOk result (λ text. IsTextOf caption_text file.now text.items) }
    ensures no_meaning { IfErr result (λ e. (refused : ℕ) × IsRunFault file.now refused e) }
{
    captions_text_in(&mut Memory::new(alloc), file)
}

/// Whether two files mean the same: the same tree of directories, or the same record. It doesn't matter whether their
/// normal forms can be written. The first file is judged before the second. Allocates the meaning of both, and no
/// copy of either. `Refused`: the first fault of that side's block. `OutOfMemory`: an allocation failed. No other
/// fault comes. The memory is its own: an allocation that failed is counted nowhere.
pub fn same_of(alloc: Global, first: &[u8], second: &[u8]) -> Result<bool, CompareFault>
    ensures same { IfOk result (IsSameMeaning first.now second.now) }
    ensures no_meaning { IfErr result (λ e. (refused : ℕ) × IsRunFaultAt first.now second.now refused e) }
{
    same_of_in(&mut Memory::new(alloc), first, second)
}

/// Normalises two files in memory. Its contract states the main promise: the bytes of each file have one meaning; two
/// files mean the same exactly if their normal forms are equal; a normal form has the meaning of its file, and is its
/// own normal form. A file is refused for its content only if it has no meaning.
///
/// Allocates as `normal_form_in` does, for both files. The fault names its file; if that is the second, the first has
/// a normal form. `Refused`: the first fault of the block. `NormalTooLong`: the form is longer than `LIMIT`.
/// `OutOfMemory`: an allocation failed. No other fault comes. The memory is its own: an allocation that failed is
/// counted nowhere.
pub fn normalise_both(
    alloc: Global,
    first: &[u8],
    second: &[u8],
) -> Result<NormalForms, CompareFault>
    ensures done { IfOk result (λ forms. Headline first.now second.now forms.first.items forms.second.items) }
    ensures failed { IfErr result (λ e. (refused : ℕ) × IsUnwrittenAt first.now second.now refused e) }
{
    normalise_both_in(&mut Memory::new(alloc), first, second)
}
