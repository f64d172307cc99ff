// Judges a whole block, and keeps nothing of it.
ghost use Rattle.std.specs.Prelude.{◌≤◌, length, IfOk, IfErr, ⊤};
ghost use Rattle.px_bytes.specs.Parts.{limit};
ghost use Rattle.px_bytes.specs.Checks.{CountsAllocFailureInBlock, Judges};
ghost use Rattle.px_bytes.specs.Allocations.{AsksAtMost};
ghost use Rattle.px_meaning.specs.Tree as spec;
ghost use Rattle.px_meaning.specs.Writable.{IsWritable};
ghost use Rattle.px_meaning.specs.Says.{SaysExif};
ghost use Rattle.px_tree.specs.Checks.{tree_checks};
ghost use Rattle.px_tree.specs.Refused.{IsRefused};
ghost use Rattle.px_tree.specs.Asking.{exif_request};

use crate::header::{judge_header, order_in};
use crate::source::BlockReader;
use crate::thumbnail::read_thumb;
use crate::tree::{Directories, is_alone, read_main, read_others};
use px_bytes::{Block, Memory, Order, Ranges, Refusal};
use px_meaning::Dir;

// Judges a block that has a header. Most blocks of a few bytes have one directory: their check ends with it.
fn judge_tree(memory: &mut Memory, block: &[u8], order: Order) -> Result<(), Refusal>
    requires least { 8 ≤ length block.now }
    requires bounded { length block.now ≤ limit }
    ensures judged { Judges result (tree_checks block.now order) (λ _. ⊤) }
    ensures memory { CountsAllocFailureInBlock result memory.old memory.new }
    ensures asked { AsksAtMost (exif_request (length block.now)) memory.old memory.new }
{
    let mut claimed = Ranges::with_capacity_in(memory, block.len() as u32)?;
    let source = BlockReader {
        block,
        order,
        dir: Dir::Main,
        keeps_fields: false,
    };
    let main = read_main(memory, &source, &mut claimed)?;
    if is_alone(block, order, &main) {
        return Ok(());
    }
    let directories = read_others(memory, &source, &mut claimed, main)?;
    let Directories { thumb, .. } = directories;
    let thumb = read_thumb(memory, block, order, &mut claimed, thumb)?;
    drop(thumb);
    Ok(())
}

/// Judges a block as `read_block_in` does, without the record and the meaning. `Ok`: the block has a meaning, which
/// can be written. `Content`: the cause and byte offset, at most `LIMIT`, of its first fault; it has no meaning.
/// `OutOfMemory`: an allocation failed, and nothing is said of the block.
///
/// Allocates the claimed ranges and the fields of the thumbnail directory while it judges, and asks for at most what
/// `read_block_in` does. The cost is linear in the block's length.
pub fn judge_block_in(memory: &mut Memory, block: Block) -> Result<(), Refusal>
    ensures meaning { IfOk result (λ _. (m : spec.Meaning) × SaysExif block.entry m × IsWritable m) }
    ensures refused { IfErr result (IsRefused block.entry memory.new.failed_allocations) }
    ensures memory { CountsAllocFailureInBlock result memory.old memory.new }
    ensures asked { AsksAtMost (exif_request (length block.entry)) memory.old memory.new }
{
    let bytes = block.bytes();
    judge_header(bytes)?;
    let order = order_in(bytes);
    judge_tree(memory, bytes, order)
}
