// The meaning of a file: read and judged, and whether two are the same.
ghost use Rattle.std.specs.Prelude.{◌≡◌, ◌↔◌, IsTrue, ℕ, length, IfOk, IfErr};
ghost use Rattle.px_engine.specs.calls.Seen.{said_view};
ghost use Rattle.px_bytes.specs.Checks.{CountsAllocFailureInBlock, CountsAllocFailureInBlockBy};
ghost use Rattle.px_bytes.specs.Allocations.{AsksAtMost};
ghost use Rattle.px_meaning.specs.calls.Seen.{meaning_of};
ghost use Rattle.px_engine.specs.Asking.{block_request, AsksByKind};
ghost use Rattle.px_engine.specs.Input.{HasMeaningAs, IsRefusedIn, HasMeaning, IsRefused, CountsAllocFailureInRun};
ghost use Rattle.px_engine.specs.Input.{CountsAllocFailureInPair, IsRunFault};
ghost use Rattle.px_engine.specs.Slices.{IsKindOf};
ghost use Rattle.px_engine.specs.calls.Kinds.{HasMeaningOfKind};
ghost use Rattle.px_engine.specs.calls.Second.{IsSameAsFirst};
ghost use Rattle.px_engine.specs.declared.kind.BlockKind.TheVariants as kind;
ghost use Rattle.px_engine.specs.Files as files;

use crate::error::{CompareFault, Fault, Side};
use crate::kind::{BlockKind, block_of, kind_of};
use px_bytes::{Block, LIMIT, Memory, Refusal};
use px_iim::{Iim, judge_iim, read_iim_in, same_iim};
use px_tree::{Meaning, judge_block_in, read_block_in, same_meaning};

/// The meaning of a file. Values and data are borrowed from the bytes that were read.
#[derive(Drop)]
pub enum Said<'a> {
    /// The meaning of an Exif block.
    Exif(Meaning<'a>),
    /// The record of a block of DataSets.
    Iim(Iim<'a>),
}

/// Whether two meanings are the same tree of directories or the same record. An Exif block never means the
/// same as a block of DataSets. It allocates nothing.
pub fn same(first: &Said, second: &Said) -> bool
    ensures { IsTrue result ↔ (said_view first.now ≡ said_view second.now) }
{
    match (first, second) {
        (Said::Exif(first), Said::Exif(second)) => same_meaning(first, second),
        (Said::Iim(first), Said::Iim(second)) => same_iim(first, second),
        _ => false,
    }
}

// The meaning of an Exif block.
pub(crate) fn read_exif<'a>(memory: &mut Memory, bytes: &'a [u8]) -> Result<Meaning<'a>, Refusal>
    ensures meaning { IfOk result (λ m. HasMeaningAs kind.Exif bytes.now (files.Exif (meaning_of m))) }
    ensures refused { IfErr result (IsRefusedIn kind.Exif bytes.now memory.new.failed_allocations) }
    ensures memory { CountsAllocFailureInBlock result memory.old memory.new }
    ensures asked { AsksAtMost (block_request (length bytes.now)) memory.old memory.new }
{
    px_layout::laws::normal_bound();
    px_tree::fault_laws::faults_decide();
    match Block::new(bytes) {
        Ok(block) => read_block_in(memory, block),
        Err(cause) => Err(Refusal::Content {
            cause,
            place: LIMIT,
        }),
    }
}

// The meaning of a block of DataSets.
pub(crate) fn read_record<'a>(memory: &mut Memory, bytes: &'a [u8]) -> Result<Iim<'a>, Refusal>
    ensures meaning { IfOk result (λ i. HasMeaningAs kind.Iim bytes.now (files.Iim i)) }
    ensures refused { IfErr result (IsRefusedIn kind.Iim bytes.now memory.new.failed_allocations) }
    ensures memory { CountsAllocFailureInBlock result memory.old memory.new }
    ensures asked { AsksAtMost (block_request (length bytes.now)) memory.old memory.new }
{
    read_iim_in(memory, bytes)
}

// Judges a block as an Exif block, and keeps nothing of it.
fn judge_exif(memory: &mut Memory, bytes: &[u8]) -> Result<(), Refusal>
    ensures meaning { IfOk result (λ u. HasMeaningOfKind kind.Exif bytes.now) }
    ensures refused { IfErr result (IsRefusedIn kind.Exif bytes.now memory.new.failed_allocations) }
    ensures memory { CountsAllocFailureInBlock result memory.old memory.new }
    ensures asked { AsksAtMost (block_request (length bytes.now)) memory.old memory.new }
{
    px_layout::laws::normal_bound();
    px_tree::fault_laws::faults_decide();
    match Block::new(bytes) {
        Ok(block) => judge_block_in(memory, block),
        Err(cause) => Err(cause.at(LIMIT)),
    }
}

// Judges a block as a block of DataSets, and keeps nothing of it.
fn judge_record(bytes: &[u8]) -> Result<(), Refusal>
    ensures meaning { IfOk result (λ u. HasMeaningOfKind kind.Iim bytes.now) }
    ensures refused { (refused : ℕ) → IfErr result (IsRefusedIn kind.Iim bytes.now refused) }
    ensures memory { (refused : ℕ) → CountsAllocFailureInBlockBy result refused refused }
{
    judge_iim(bytes)
}

// Judges a block as one of this kind.
fn judge_block(memory: &mut Memory, kind: BlockKind, bytes: &[u8]) -> Result<(), Refusal>
    ensures meaning { IfOk result (λ u. HasMeaningOfKind kind bytes.now) }
    ensures refused { IfErr result (IsRefusedIn kind bytes.now memory.new.failed_allocations) }
    ensures memory { CountsAllocFailureInBlock result memory.old memory.new }
    ensures asked { AsksAtMost (block_request (length bytes.now)) memory.old memory.new }
    ensures kept { AsksByKind kind memory.old memory.new }
{
    match kind {
        BlockKind::Exif => judge_exif(memory, bytes),
        BlockKind::Iim => judge_record(bytes),
    }
}

// The kind of the block in a file that has a meaning. Allocates what `judge_block_in` does for an Exif block, and
// nothing for a block of DataSets.
pub(crate) fn judge_any_in(memory: &mut Memory, file: &[u8]) -> Result<BlockKind, Refusal>
    ensures kind { IfOk result (IsKindOf file.now) }
    ensures refused { IfErr result (IsRefused file.now memory.new.failed_allocations) }
    ensures memory { CountsAllocFailureInBlock result memory.old memory.new }
    ensures asked { AsksAtMost (block_request (length file.now)) memory.old memory.new }
    ensures kept { AsksByKind (files.kind_of file.now) memory.old memory.new }
{
    let kind = kind_of(file);
    judge_block(memory, kind, block_of(file))?;
    Ok(kind)
}

/// The meaning of a file: an Exif block after the six bytes `45 78 69 66 00 00`; otherwise a block of
/// DataSets if the first byte is `1C`, or else an Exif block.
///
/// The meaning borrows the file's bytes. Allocates as `read_block_in` and `read_iim_in` do. `Content`: the
/// first fault of the block, judged as its kind; these two functions have the order of the checks. Offsets
/// count from the block's first byte. `OutOfMemory`: an allocation failed.
pub fn read_any_in<'a>(memory: &mut Memory, file: &'a [u8]) -> Result<Said<'a>, Refusal>
    ensures meaning { IfOk result (λ s. HasMeaning file.now (said_view s)) }
    ensures refused { IfErr result (IsRefused file.now memory.new.failed_allocations) }
    ensures memory { CountsAllocFailureInBlock result memory.old memory.new }
    ensures asked { AsksAtMost (block_request (length file.now)) memory.old memory.new }
{
    let bytes = block_of(file);
    match kind_of(file) {
        BlockKind::Exif => Ok(Said::Exif(read_exif(memory, bytes)?)),
        BlockKind::Iim => Ok(Said::Iim(read_record(memory, bytes)?)),
    }
}

// The meaning of a file, or the fault of a run.
pub(crate) fn judge<'a>(memory: &mut Memory, file: &'a [u8]) -> Result<Said<'a>, Fault>
    ensures meaning { IfOk result (λ s. HasMeaning file.now (said_view s)) }
    ensures no_meaning { IfErr result (IsRunFault file.now memory.new.failed_allocations) }
    ensures memory { CountsAllocFailureInRun result memory.old memory.new }
    ensures asked { AsksAtMost (block_request (length file.now)) memory.old memory.new }
{
    match read_any_in(memory, file) {
        Ok(meaning) => Ok(meaning),
        Err(refusal) => Err(Fault::from(refusal)),
    }
}

// The meaning of one of two files.
pub(crate) fn judge_side<'a>(
    memory: &mut Memory,
    file: &'a [u8],
    side: Side,
) -> Result<Said<'a>, CompareFault>
    ensures meaning { IfOk result (λ s. HasMeaning file.now (said_view s)) }
    ensures side { IfErr result (λ e. e.side ≡ side) }
    ensures no_meaning { IfErr result (λ e. IsRunFault file.now memory.new.failed_allocations e.fault) }
    ensures memory { CountsAllocFailureInPair result memory.old memory.new }
    ensures asked { AsksAtMost (block_request (length file.now)) memory.old memory.new }
{
    match judge(memory, file) {
        Ok(meaning) => Ok(meaning),
        Err(fault) => Err(CompareFault { side, fault }),
    }
}

// Judges the second of two files and returns whether it means the same as the first. Each owner of a meaning
// passes it to a call that drops it: dropping it at the end of a body would mean a proof about each of its
// fields.
pub(crate) fn same_second(
    memory: &mut Memory,
    meaning: &Said,
    second: &[u8],
) -> Result<bool, CompareFault>
    ensures same { IsSameAsFirst result (said_view meaning.now) second.now memory.new.failed_allocations }
    ensures memory { CountsAllocFailureInPair result memory.old memory.new }
    ensures asked { AsksAtMost (block_request (length second.now)) memory.old memory.new }
{
    let other = judge_side(memory, second, Side::Second)?;
    let same = same(meaning, &other);
    drop(other);
    Ok(same)
}
