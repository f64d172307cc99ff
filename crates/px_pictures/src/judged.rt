// Judges the blocks of a picture: whether each has a meaning. `Err` of a call is the first fault of
// the first block that has none, or `OutOfMemory`: an allocation failed.
ghost use Rattle.std.specs.Prelude.{◌≡◌, length, IfOk, IfErr};
ghost use Rattle.px_bytes.specs.Checks.{CountsAllocFailureInBlock};
ghost use Rattle.px_bytes.specs.Allocations.{AsksAtMost};
ghost use Rattle.px_meaning.specs.Says.{SaysExif};
ghost use Rattle.px_meaning.specs.Tree.{Meaning as Tree};
ghost use Rattle.px_tree.specs.Asking.{exif_request};
ghost use Rattle.px_tree.specs.Refused.{IsRefused};
ghost use Rattle.px_pictures.specs.Asking.{exif_requests};
ghost use Rattle.px_pictures.specs.Faults.{AllExif, AllIptc, AllRead, IsBlockFault, CountsAllocFailureInMetadata};
ghost use Rattle.px_pictures.specs.Metadata.{blocks_of};
ghost use Rattle.px_pictures.specs.calls.Judging.{fault_of, ExifFails, IptcFails, AreFew, IsFew};

use crate::blocks::{ExifBlocks, IptcBlocks};
use crate::faults::{MetadataFault, MetadataKind};
use crate::found::Metadata;
use px_bytes::{Block, LIMIT, Memory, Refusal};
use px_iim::judge_iim;
use px_tree::judge_block_in;

// The refusal of the block with `number` others of its kind before it, as a fault of the picture.
fn fault_of(kind: MetadataKind, number: usize, refusal: Refusal) -> MetadataFault
    ensures { result ≡ fault_of kind number refusal }
{
    match refusal {
        Refusal::Content { cause, place } => MetadataFault::Block {
            kind,
            number,
            cause,
            place,
        },
        Refusal::OutOfMemory => MetadataFault::OutOfMemory,
    }
}

// Judges an Exif block, and keeps nothing of it.
fn judge_exif(memory: &mut Memory, bytes: &[u8]) -> Result<(), Refusal>
    ensures meaning { IfOk result (λ _. (m : Tree) × SaysExif bytes.now m) }
    ensures refused { IfErr result (IsRefused bytes.now memory.new.failed_allocations) }
    ensures memory { CountsAllocFailureInBlock result memory.old memory.new }
    ensures asked { AsksAtMost (exif_request (length bytes.now)) memory.old memory.new }
{
    px_tree::fault_laws::faults_decide();
    match Block::new(bytes) {
        Ok(block) => judge_block_in(memory, block),
        Err(cause) => Err(cause.at(LIMIT)),
    }
}

// Judges Exif blocks, one after another.
fn judge_exif_blocks(memory: &mut Memory, blocks: ExifBlocks) -> Result<(), MetadataFault>
    requires { AreFew blocks }
    ensures meaning { IfOk result (λ _. AllExif blocks.entry) }
    ensures fault { IfErr result (ExifFails blocks.entry memory.new.failed_allocations) }
    ensures memory { CountsAllocFailureInMetadata result memory.old memory.new }
    ensures asked { AsksAtMost (exif_requests blocks.entry) memory.old memory.new }
{
    let mut left = blocks;
    let mut number = 0;
    loop {
        let Some(block) = left.next() else {
            return Ok(());
        };
        match judge_exif(memory, block) {
            Ok(()) => number += 1,
            Err(refusal) => return Err(fault_of(MetadataKind::Exif, number, refusal)),
        }
    }
}

// Judges IPTC blocks, one after another. Allocates nothing.
fn judge_iptc_blocks(blocks: IptcBlocks) -> Result<(), MetadataFault>
    requires { AreFew blocks }
    ensures meaning { IfOk result (λ _. AllIptc blocks.entry) }
    ensures fault { IfErr result (IptcFails blocks.entry) }
{
    let mut left = blocks;
    let mut number = 0;
    loop {
        let Some(block) = left.next() else {
            return Ok(());
        };
        match judge_iim(block) {
            Ok(()) => number += 1,
            Err(refusal) => return Err(fault_of(MetadataKind::Iptc, number, refusal)),
        }
    }
}

// Judges the blocks of a picture: the Exif blocks, and then the IPTC blocks.
pub(crate) fn judge_all(memory: &mut Memory, found: &Metadata) -> Result<(), MetadataFault>
    requires { IsFew (blocks_of found.now) }
    ensures meaning { IfOk result (λ _. AllRead (blocks_of found.now)) }
    ensures fault { IfErr result (IsBlockFault (blocks_of found.now) memory.new.failed_allocations) }
    ensures memory { CountsAllocFailureInMetadata result memory.old memory.new }
    ensures asked { AsksAtMost (exif_requests (blocks_of found.now).exif) memory.old memory.new }
{
    judge_exif_blocks(memory, found.exif())?;
    judge_iptc_blocks(found.iptc())
}
