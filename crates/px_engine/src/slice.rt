// Files in memory: checked, normalised, compared and printed without a copy of their bytes.
ghost use Rattle.std.specs.Prelude.{◌≡◌, ◌+◌, length, IfOk, IfErr, OnErr};
ghost use Rattle.px_bytes.specs.Allocations.{AsksAtMost};
ghost use Rattle.px_engine.specs.Asking.{block_request, form_request, AsksByKind, AsksForText};
ghost use Rattle.px_engine.specs.Input.{IsRunFault, CountsAllocFailureInRun, CountsAllocFailureInPair};
ghost use Rattle.px_engine.specs.Slices.{IsKindOf, PutsForm, IsSameMeaning, IsRunFaultAt, IsFormOf, IsUnwritten};
ghost use Rattle.px_engine.specs.Prints.{caption_text, listing, IsTextOf};
ghost use Rattle.px_engine.specs.Files.{Said as AnyMeaning, kind_of};
ghost use Rattle.px_engine.specs.calls.Putting.{given_of, PutsBlock, IsUnput};
ghost use Rattle.px_engine.specs.declared.kind.BlockKind.TheVariants as kind;

use crate::error::{CompareFault, Fault, Side};
use crate::kind::{BlockKind, block_of, kind_of};
use crate::meaning::{judge, judge_any_in, judge_side, read_exif, read_record, same_second};
use crate::normal::{Given, form_of, put_exif, put_record};
use crate::text::{caption_text, listing};
use px_bytes::Memory;

/// The kind of the meaning of a file. `Refused`: the first fault of the block; the file has no meaning.
/// `OutOfMemory`: an allocation failed. No other fault comes. Allocates a bit for each byte of an Exif block, and the
/// fields of its thumbnail directory; nothing for a block of DataSets, and no copy of the file.
pub fn check_of_in(memory: &mut Memory, file: &[u8]) -> Result<BlockKind, Fault>
    ensures kind { IfOk result (IsKindOf file.now) }
    ensures no_meaning { IfErr result (IsRunFault file.now memory.new.failed_allocations) }
    ensures memory { CountsAllocFailureInRun result memory.old memory.new }
    ensures asked { AsksAtMost (block_request (length file.now)) memory.old memory.new }
    ensures kept { AsksByKind (kind_of file.now) memory.old memory.new }
{
    match judge_any_in(memory, file) {
        Ok(kind) => Ok(kind),
        Err(refusal) => Err(Fault::from(refusal)),
    }
}

/// The normal form of a file's meaning, of at most `LIMIT` bytes, 16,777,216. Allocates the meaning, and once exactly
/// the form's bytes, but no copy of the file. `Refused`: the first fault of the block; the file has no meaning.
/// `NormalTooLong`: it has a meaning, the form is longer than `LIMIT`, and the block than half of it. `OutOfMemory`:
/// an allocation failed. No other fault comes.
pub fn normal_form_in(memory: &mut Memory, file: &[u8]) -> Result<Vec<u8>, Fault>
    ensures formed { IfOk result (λ v. (s : AnyMeaning) × IsFormOf file.now s v.items) }
    ensures unwritten { IfErr result (IsUnwritten file.now memory.new.failed_allocations) }
    ensures memory { CountsAllocFailureInRun result memory.old memory.new }
    ensures asked { AsksAtMost (form_request (length file.now)) memory.old memory.new }
{
    let meaning = judge(memory, file)?;
    form_of(memory, &meaning)
}

// The result of a run, from whether the form is no longer than `LIMIT`.
fn given_of(put: Option<Given>) -> Result<Given, Fault>
    ensures { result ≡ given_of put }
{
    match put {
        Some(given) => Ok(given),
        None => Err(Fault::NormalTooLong),
    }
}

// Writes the normal form of an Exif block to the start of `out` if it fits. The meaning has hundreds of bytes, so
// it is not moved out of the result.
fn put_exif_in(memory: &mut Memory, block: &[u8], out: &mut [u8]) -> Result<Given, Fault>
    ensures put { IfOk result (λ given. PutsBlock kind.Exif block.now given out.old out.new) }
    ensures unput { IfErr result (IsUnput kind.Exif block.now memory.new.failed_allocations) }
    ensures kept { OnErr result (out.new ≡ out.old) }
    ensures memory { CountsAllocFailureInRun result memory.old memory.new }
    ensures asked { AsksAtMost (block_request (length block.now)) memory.old memory.new }
{
    match &read_exif(memory, block) {
        Ok(meaning) => given_of(put_exif(meaning, out)),
        Err(refusal) => Err(Fault::from(*refusal)),
    }
}

// Writes the normal form of a record to the start of `out` if it fits.
fn put_record_in(memory: &mut Memory, block: &[u8], out: &mut [u8]) -> Result<Given, Fault>
    ensures put { IfOk result (λ given. PutsBlock kind.Iim block.now given out.old out.new) }
    ensures unput { IfErr result (IsUnput kind.Iim block.now memory.new.failed_allocations) }
    ensures kept { OnErr result (out.new ≡ out.old) }
    ensures memory { CountsAllocFailureInRun result memory.old memory.new }
    ensures asked { AsksAtMost (block_request (length block.now)) memory.old memory.new }
{
    match &read_record(memory, block) {
        Ok(iim) => given_of(put_record(iim, out)),
        Err(refusal) => Err(Fault::from(*refusal)),
    }
}

/// Writes the normal form of a file's meaning, of at most `LIMIT` bytes, 16,777,216, to the start of `out` if it
/// fits. `Whole`: `out` begins with the form, and is unchanged after it. `Needs`: the form is longer than `out`,
/// which is unchanged. Both have the form's length. Allocates the meaning, but no copy of the file.
///
/// On an error `out` is unchanged. `Refused`: the first fault of the block; the file has no meaning. `NormalTooLong`:
/// it has a meaning, the form is longer than `LIMIT`, and the block than half of it. `OutOfMemory`: an allocation
/// failed. No other fault comes.
pub fn put_form_in(memory: &mut Memory, file: &[u8], out: &mut [u8]) -> Result<Given, Fault>
    ensures put { IfOk result (λ given. PutsForm file.now given out.old out.new) }
    ensures unwritten { IfErr result (IsUnwritten file.now memory.new.failed_allocations) }
    ensures kept { OnErr result (out.new ≡ out.old) }
    ensures memory { CountsAllocFailureInRun result memory.old memory.new }
    ensures asked { AsksAtMost (block_request (length file.now)) memory.old memory.new }
{
    let block = block_of(file);
    match kind_of(file) {
        BlockKind::Exif => put_exif_in(memory, block, out),
        BlockKind::Iim => put_record_in(memory, block, out),
    }
}

/// The text that `show` prints of a file. Allocates the meaning and the text: less than four bytes for each byte of a
/// value or DataSet, and less than 30 more for each line. `Refused`: the first fault of the block; the file has no
/// meaning. `OutOfMemory`: an allocation failed. No other fault comes.
pub fn show_of_in(memory: &mut Memory, file: &[u8]) -> Result<Vec<u8>, Fault>
    ensures text { IfOk result (λ text. IsTextOf listing file.now text.items) }
    ensures no_meaning { IfErr result (IsRunFault file.now memory.new.failed_allocations) }
    ensures memory { CountsAllocFailureInRun result memory.old memory.new }
    ensures asked { AsksForText listing file.now memory.old memory.new }
{
    let meaning = judge(memory, file)?;
    let text = listing(memory, &meaning);
    drop(meaning);
    match text {
        Ok(text) => Ok(text),
        Err(_) => Err(Fault::OutOfMemory),
    }
}

/// The text that `captions` prints of a file. Allocates the meaning and the text: at most three bytes for each byte
/// of a caption, and at most 22 more for each line. `Refused`: the first fault of the block; the file has no meaning.
/// `OutOfMemory`: an allocation failed. No other fault comes.
pub fn captions_text_in(memory: &mut Memory, file: &[u8]) -> Result<Vec<u8>, Fault>
    ensures text { IfOk result (λ text. IsTextOf caption_text file.now text.items) }
    ensures no_meaning { IfErr result (IsRunFault file.now memory.new.failed_allocations) }
    ensures memory { CountsAllocFailureInRun result memory.old memory.new }
    ensures asked { AsksForText caption_text file.now memory.old memory.new }
{
    let meaning = judge(memory, file)?;
    let text = caption_text(memory, &meaning);
    drop(meaning);
    match text {
        Ok(text) => Ok(text),
        Err(_) => Err(Fault::OutOfMemory),
    }
}

/// Whether two files, which both have a meaning, have the same: the same tree of directories, or the same record. It
/// doesn't matter whether their normal forms can be written. The first file is judged before the second. Allocates
/// the meaning of both, and no copy of either. An error names the side; if that is the second, the first file has a
/// meaning. `Refused`: the first fault of that side's block; the file has no meaning. `OutOfMemory`: an allocation
/// failed. No other fault comes.
pub fn same_of_in(memory: &mut Memory, first: &[u8], second: &[u8]) -> Result<bool, CompareFault>
    ensures same { IfOk result (IsSameMeaning first.now second.now) }
    ensures no_meaning { IfErr result (IsRunFaultAt first.now second.now memory.new.failed_allocations) }
    ensures memory { CountsAllocFailureInPair result memory.old memory.new }
    ensures asked { AsksAtMost (block_request (length first.now) + block_request (length second.now))
        memory.old memory.new }
{
    let meaning = judge_side(memory, first, Side::First)?;
    let same = same_second(memory, &meaning, second);
    drop(meaning);
    same
}
