// Files from readers: read, checked, normalised, compared and printed to writers.
ghost use Rattle.std.specs.Prelude.{◌≡◌, IfOk, IfErr, ◌+◌, OnOk, length};
ghost use Rattle.px_bytes.specs.Allocations.{AsksAtMost};
ghost use Rattle.px_bytes.specs.Reading.{ReadsUpTo, ConsumesAtMost, readable, read_request};
ghost use Rattle.px_engine.specs.Asking.{block_request, run_request};
ghost use Rattle.px_engine.specs.Input.{most_read, CountsReads, IsReadFault, CountsAllocFailureInRun, CountsAllocFailureInPair};
ghost use Rattle.px_engine.specs.calls.Second.{CountsSecond, ComparesSecond};
ghost use Rattle.px_engine.specs.calls.Seen.{said_view};
ghost use Rattle.px_bytes.specs.Devices.{CanCountFailure};
ghost use Rattle.px_engine.specs.Runs.{Checks, FormOnce, Normalises, Compares, CountsWrites, CountsSides, Untouched};
ghost use Rattle.px_engine.specs.Prints.{caption_text, listing, Prints, PrintsRead, ReadsNothing};

use crate::error::{CompareFault, Fault, Side};
use crate::kind::BlockKind;
use crate::meaning::{Said, judge, judge_side, same_second};
use crate::normal::write_form;
use crate::slice::check_of_in;
use crate::text::{write_captions, write_listing};
use px_bytes::{LIMIT, Memory, Sink, Source, read_up_to_in};

/// Reads to the reader's end, or the first `LIMIT` + 7 bytes, 16,777,223, one more than the longest block and the six
/// bytes before it. A read of 0 bytes is the end. It ends at the first call that fails; even then the reader has lost
/// no more than that. Allocates the bytes and one buffer: it asks for at most ten bytes and an eighth for each byte that
/// it can read, and 729,088 more. `ReadFailed`: a call of the reader failed. `OutOfMemory`: an allocation failed. No
/// other fault comes.
pub fn read_all_in<R: Source>(memory: &mut Memory, reader: &mut R) -> Result<Vec<u8>, Fault>
    requires { CanCountFailure (R.calls reader.old) }
    ensures found { IfOk result (λ v. ReadsUpTo (R.bytes_left reader.old) (R.bytes_left reader.new) most_read v.items) }
    ensures lost { ConsumesAtMost (R.bytes_left reader.old) (R.bytes_left reader.new) most_read }
    ensures fault { IfErr result IsReadFault }
    ensures count { CountsReads result (R.calls reader.old) (R.calls reader.new) }
    ensures memory { CountsAllocFailureInRun result memory.old memory.new }
    ensures asked { AsksAtMost (read_request (readable (R.bytes_left reader.old) most_read)) memory.old memory.new }
{
    Ok(read_up_to_in(memory, reader, LIMIT as usize + 7)?)
}

// Reads one of two files.
pub(crate) fn read_side<R: Source>(
    memory: &mut Memory,
    reader: &mut R,
    side: Side,
) -> Result<Vec<u8>, CompareFault>
    requires { CanCountFailure (R.calls reader.old) }
    ensures found { IfOk result (λ v. ReadsUpTo (R.bytes_left reader.old) (R.bytes_left reader.new) most_read v.items) }
    ensures side { IfErr result (λ e. e.side ≡ side) }
    ensures lost { ConsumesAtMost (R.bytes_left reader.old) (R.bytes_left reader.new) most_read }
    ensures fault { IfErr result (λ e. IsReadFault e.fault) }
    ensures count { CountsSecond result (R.calls reader.old) (R.calls reader.new) }
    ensures memory { CountsAllocFailureInPair result memory.old memory.new }
    ensures asked { AsksAtMost (read_request (readable (R.bytes_left reader.old) most_read)) memory.old memory.new }
{
    match read_all_in(memory, reader) {
        Ok(file) => Ok(file),
        Err(fault) => Err(CompareFault { side, fault }),
    }
}

/// Reads a file and writes its normal form. Returns the form's length in bytes, at most `LIMIT`.
///
/// It writes nothing until the file is read and judged and the form is known to fit. So after `WriteFailed`
/// the writer has taken a prefix of the form, and after any other fault nothing. Allocates the file's bytes
/// and the meaning. `Refused`: the block's first fault; the file has no meaning. `NormalTooLong`: the form is
/// longer than `LIMIT`, which happens only for blocks longer than half of it. `ReadFailed`, `WriteFailed`: a
/// call of that device failed, which ends the run. `OutOfMemory`: an allocation failed.
pub fn normalise_in<R: Source, W: Sink>(
    memory: &mut Memory,
    reader: &mut R,
    writer: &mut W,
) -> Result<u64, Fault>
    requires reading { CanCountFailure (R.calls reader.old) }
    requires writing { CanCountFailure (W.calls writer.old) }
    ensures done { Normalises result (R.bytes_left reader.old) (W.bytes_taken writer.old) (W.bytes_taken writer.new) }
    ensures once { FormOnce W.wrote W.flushed result (R.bytes_left reader.old) writer.old writer.new }
    ensures lost { ConsumesAtMost (R.bytes_left reader.old) (R.bytes_left reader.new) most_read }
    ensures reads { CountsReads result (R.calls reader.old) (R.calls reader.new) }
    ensures writes { CountsWrites result (W.calls writer.old) (W.calls writer.new) }
    ensures flushed { OnOk result (W.unflushed writer.new ≡ 0) }
    ensures memory { CountsAllocFailureInRun result memory.old memory.new }
    ensures asked { AsksAtMost (run_request (R.bytes_left reader.old)) memory.old memory.new }
{
    let file = read_all_in(memory, reader)?;
    let meaning = judge(memory, &file)?;
    let done = write_form(&meaning, writer);
    drop(meaning);
    done
}

/// Reads a file, its first `LIMIT` + 7 bytes at most, and returns the kind of its meaning. Allocates the file's
/// bytes, and the meaning of an Exif block. If the reader's bytes are known: `Ok`: the file has a meaning of this
/// kind. `Refused`: the block's first fault, at an offset of at most `LIMIT`; the file has no meaning. `ReadFailed`:
/// a call of the reader failed, which is counted and ends the run. `OutOfMemory`: an allocation failed.
/// `NormalTooLong` and `WriteFailed` never come.
pub fn check_in<R: Source>(memory: &mut Memory, reader: &mut R) -> Result<BlockKind, Fault>
    requires { CanCountFailure (R.calls reader.old) }
    ensures done { Checks result (R.bytes_left reader.old) }
    ensures lost { ConsumesAtMost (R.bytes_left reader.old) (R.bytes_left reader.new) most_read }
    ensures reads { CountsReads result (R.calls reader.old) (R.calls reader.new) }
    ensures memory { CountsAllocFailureInRun result memory.old memory.new }
    ensures asked { AsksAtMost (run_request (R.bytes_left reader.old)) memory.old memory.new }
{
    let file = read_all_in(memory, reader)?;
    check_of_in(memory, &file)
}

/// Reads a file and writes its listing: a line for each directory, field and DataSet. It writes parts of up
/// to 8,192 bytes, a shorter text in one, and then flushes once.
///
/// It writes nothing until the file is read and judged. So after `WriteFailed` the writer has taken a prefix
/// of the text, and after any other fault nothing. Allocates the file's bytes and the meaning, but not the
/// text. `Refused`: the block's first fault. `ReadFailed`, `WriteFailed`: a call of that device failed, which
/// ends the run. `OutOfMemory`: an allocation failed. `NormalTooLong` is never returned.
pub fn show_in<R: Source, W: Sink>(
    memory: &mut Memory,
    reader: &mut R,
    writer: &mut W,
) -> Result<(), Fault>
    requires reading { CanCountFailure (R.calls reader.old) }
    requires writing { CanCountFailure (W.calls writer.old) }
    ensures done { Prints listing result (R.bytes_left reader.old) (W.bytes_taken writer.old) (W.bytes_taken writer.new) }
    ensures lost { ConsumesAtMost (R.bytes_left reader.old) (R.bytes_left reader.new) most_read }
    ensures reads { CountsReads result (R.calls reader.old) (R.calls reader.new) }
    ensures writes { CountsWrites result (W.calls writer.old) (W.calls writer.new) }
    ensures flushed { OnOk result (W.unflushed writer.new ≡ 0) }
    ensures memory { CountsAllocFailureInRun result memory.old memory.new }
    ensures asked { AsksAtMost (run_request (R.bytes_left reader.old)) memory.old memory.new }
{
    let file = read_all_in(memory, reader)?;
    let meaning = judge(memory, &file)?;
    let done = write_listing(&meaning, writer);
    drop(meaning);
    done
}

/// Reads a file and writes its captions, one for each line. It writes and flushes as `show` does. Bytes from
/// 20 to 7E except the backslash are printed as they are; any other byte is a backslash and two hexadecimal
/// digits.
///
/// Errors, output after each, and memory are as for `show_in`.
pub fn captions_in<R: Source, W: Sink>(
    memory: &mut Memory,
    reader: &mut R,
    writer: &mut W,
) -> Result<(), Fault>
    requires reading { CanCountFailure (R.calls reader.old) }
    requires writing { CanCountFailure (W.calls writer.old) }
    ensures done { Prints caption_text result (R.bytes_left reader.old) (W.bytes_taken writer.old) (W.bytes_taken writer.new) }
    ensures lost { ConsumesAtMost (R.bytes_left reader.old) (R.bytes_left reader.new) most_read }
    ensures reads { CountsReads result (R.calls reader.old) (R.calls reader.new) }
    ensures writes { CountsWrites result (W.calls writer.old) (W.calls writer.new) }
    ensures flushed { OnOk result (W.unflushed writer.new ≡ 0) }
    ensures memory { CountsAllocFailureInRun result memory.old memory.new }
    ensures asked { AsksAtMost (run_request (R.bytes_left reader.old)) memory.old memory.new }
{
    let file = read_all_in(memory, reader)?;
    let meaning = judge(memory, &file)?;
    let done = write_captions(&meaning, writer);
    drop(meaning);
    done
}

/// Writes the listing of a file that was read, as `show_in` does for a reader: it writes nothing until the file is judged, and
/// flushes once. Allocates the meaning. `ReadFailed` and `NormalTooLong` are never returned.
pub fn show_file_in<W: Sink>(memory: &mut Memory, file: &[u8], writer: &mut W) -> Result<(), Fault>
    requires { CanCountFailure (W.calls writer.old) }
    ensures done { PrintsRead listing result file.now (W.bytes_taken writer.old) (W.bytes_taken writer.new) }
    ensures reads { ReadsNothing result }
    ensures writes { CountsWrites result (W.calls writer.old) (W.calls writer.new) }
    ensures flushed { OnOk result (W.unflushed writer.new ≡ 0) }
    ensures memory { CountsAllocFailureInRun result memory.old memory.new }
    ensures asked { AsksAtMost (block_request (length file.now)) memory.old memory.new }
{
    let meaning = judge(memory, file)?;
    let done = write_listing(&meaning, writer);
    drop(meaning);
    done
}

/// Writes the captions of a file that was read, as `captions_in` does for a reader, with the results of `show_file_in`.
pub fn captions_file_in<W: Sink>(
    memory: &mut Memory,
    file: &[u8],
    writer: &mut W,
) -> Result<(), Fault>
    requires { CanCountFailure (W.calls writer.old) }
    ensures done { PrintsRead caption_text result file.now (W.bytes_taken writer.old) (W.bytes_taken writer.new) }
    ensures reads { ReadsNothing result }
    ensures writes { CountsWrites result (W.calls writer.old) (W.calls writer.new) }
    ensures flushed { OnOk result (W.unflushed writer.new ≡ 0) }
    ensures memory { CountsAllocFailureInRun result memory.old memory.new }
    ensures asked { AsksAtMost (block_request (length file.now)) memory.old memory.new }
{
    let meaning = judge(memory, file)?;
    let done = write_captions(&meaning, writer);
    drop(meaning);
    done
}

// Reads the second of two files and returns whether it means the same as the first.
fn compare_second<S: Source>(
    memory: &mut Memory,
    meaning: &Said,
    second: &mut S,
) -> Result<bool, CompareFault>
    requires { CanCountFailure (S.calls second.old) }
    ensures done { ComparesSecond result (said_view meaning.now) (S.bytes_left second.old) }
    ensures lost { ConsumesAtMost (S.bytes_left second.old) (S.bytes_left second.new) most_read }
    ensures reads { CountsSecond result (S.calls second.old) (S.calls second.new) }
    ensures memory { CountsAllocFailureInPair result memory.old memory.new }
    ensures asked { AsksAtMost (run_request (S.bytes_left second.old)) memory.old memory.new }
{
    let file = read_side(memory, second, Side::Second)?;
    same_second(memory, meaning, &file)
}

/// Reads two files and returns whether they mean the same: the same tree of directories, or the same record.
/// It judges the first before it reads the second: a fault of the first leaves the second reader unchanged.
/// It doesn't matter whether the normal forms can be written.
///
/// Allocates the bytes and the meaning of both files. `Refused`: the first fault of that side's block.
/// `ReadFailed`: a call of that side's reader failed. `OutOfMemory`: an allocation failed.
pub fn compare_in<R: Source, S: Source>(
    memory: &mut Memory,
    first: &mut R,
    second: &mut S,
) -> Result<bool, CompareFault>
    requires first { CanCountFailure (R.calls first.old) }
    requires second { CanCountFailure (S.calls second.old) }
    ensures done { Compares result (R.bytes_left first.old) (S.bytes_left second.old) }
    ensures untouched { Untouched result second.old second.new }
    ensures lost { ConsumesAtMost (R.bytes_left first.old) (R.bytes_left first.new) most_read }
    ensures lost_too { ConsumesAtMost (S.bytes_left second.old) (S.bytes_left second.new) most_read }
    ensures reads { CountsSides result (R.calls first.old) (R.calls first.new) (S.calls second.old) (S.calls second.new) }
    ensures memory { CountsAllocFailureInPair result memory.old memory.new }
    ensures asked { AsksAtMost (run_request (R.bytes_left first.old) + run_request (S.bytes_left second.old))
        memory.old memory.new }
{
    let file = read_side(memory, first, Side::First)?;
    let meaning = judge_side(memory, &file, Side::First)?;
    let same = compare_second(memory, &meaning, second);
    drop(meaning);
    same
}
