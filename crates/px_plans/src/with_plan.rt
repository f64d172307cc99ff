// A block by the caller's plan.
ghost use Rattle.std.specs.Prelude.{◌≡◌, IfOk, replicate};
ghost use Rattle.px_bytes.specs.Allocations.{CountsAllocFailure, IsModestRequest, AsksAtMost};
ghost use Rattle.px_meaning.specs.Writable.{IsWritable};
ghost use Rattle.px_meaning.specs.calls.Seen.{meaning_of};
ghost use Rattle.px_layout.specs.Laid.{laid};
ghost use Rattle.px_plans.specs.calls.Planned.{plan_of};
ghost use Rattle.px_layout.specs.Plans.{Legal};
ghost use Rattle.px_plans.specs.Asking.{write_request};

use crate::building::lay_all;
use crate::layout::Layout;
use crate::plan::Plan;
use px_bytes::{AllocFailed, Memory, Order};
use px_tree::Meaning;

/// The block that a legal plan lays out: the header, and each chunk at its offset, in either byte order, with
/// the byte `filler` in all gaps. It has the plan's length and the given meaning. TIFF 6.0 section 2.
///
/// The caller makes sure that the meaning can be written (`is_writable`) and that the plan is legal for it
/// (`is_legal`). Allocates the block, and one chunk at a time. It asks for at most seven bytes for each byte of the
/// block, and 131,072. `Err`: an allocation failed.
pub fn write_with_in(
    memory: &mut Memory,
    m: &Meaning,
    plan: &Plan,
    order: Order,
    filler: u8,
) -> Result<Vec<u8>, AllocFailed>
    requires fits { IsWritable (meaning_of m.now) }
    requires legal { Legal (meaning_of m.now) (plan_of plan.now) }
    ensures block { IfOk result (λ block. block.items ≡ laid (meaning_of m.now) (plan_of plan.now) order filler) }
    ensures memory { CountsAllocFailure result memory.old memory.new }
    ensures asked { AsksAtMost (write_request (plan_of plan.now).length) memory.old memory.new }
{
    let layout = Layout {
        m,
        plan,
        order,
        filler,
    };
    let mut block = filled(memory, plan.len() as usize, filler)?;
    lay_all(memory, &mut block, &layout)?;
    Ok(block)
}

// A block of `n` bytes, each of which is the filler. `Err`: the allocation failed.
fn filled(memory: &mut Memory, n: usize, filler: u8) -> Result<Vec<u8>, AllocFailed>
    requires { IsModestRequest n }
    ensures bytes { IfOk result (λ block. block.items ≡ replicate n filler) }
    ensures memory { CountsAllocFailure result memory.old memory.new }
    ensures asked { AsksAtMost n memory.old memory.new }
{
    let mut block = memory.list();
    memory.resize(&mut block, n, filler)?;
    Ok(block)
}
