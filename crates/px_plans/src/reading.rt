// Reads a block that a plan laid out.
ghost use Rattle.std.specs.Prelude.{◌≡◌, ℕ, length, IfOk, IfErr};
ghost use Rattle.px_bytes.specs.declared.Order.{Order};
ghost use Rattle.px_bytes.specs.Checks.{CountsAllocFailureInBlock};
ghost use Rattle.px_bytes.specs.Allocations.{AsksAtMost};
ghost use Rattle.px_layout.specs.Laid.{laid};
ghost use Rattle.px_layout.specs.Plans.{Plan, Legal};
ghost use Rattle.px_plans.specs.RoundTrip.{ReadsBack};
ghost use Rattle.px_meaning.specs.Writable.{IsWritable};
ghost use Rattle.px_tree.specs.Asking.{exif_request};
ghost use Rattle.px_tree.specs.Refused.{IsRefused};
ghost use Rattle.px_meaning.specs.Says.{SaysExif};
ghost use Rattle.px_meaning.specs.Tree.{Meaning as Tree};
ghost use Rattle.px_meaning.specs.calls.Seen.{meaning_of};

use px_bytes::{Block, Memory, Refusal};
use px_tree::{Meaning, read_block_in};

/// The round trip: a block that any legal plan lays out for a meaning that can be written, in either byte order and
/// with any filler, is read as that meaning, unless an allocation failed (`OutOfMemory`); `Content` never comes for
/// it. For any other block the result is that of `read_block_in`: its meaning, or its first fault (`Content`), or
/// `OutOfMemory`.
pub fn read_back_in<'a>(memory: &mut Memory, block: Block<'a>) -> Result<Meaning<'a>, Refusal>
    ensures back { (m : Tree) (plan : Plan) (o : Order) (filler : ℕ) → IsWritable m → Legal m plan → block.entry ≡ laid m plan o filler →
        ReadsBack meaning_of result m memory.old.failed_allocations memory.new.failed_allocations }
    ensures means { IfOk result (λ m. SaysExif block.entry (meaning_of m)) }
    ensures refused { IfErr result (IsRefused block.entry memory.new.failed_allocations) }
    ensures memory { CountsAllocFailureInBlock result memory.old memory.new }
    ensures asked { AsksAtMost (exif_request (length block.entry)) memory.old memory.new }
{
    read_block_in(memory, block)
}
