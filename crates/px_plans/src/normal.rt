// The plan of the normal form.
ghost use Rattle.std.specs.Prelude.{◌≡◌, ◌≤◌, ◌+◌, OnOk, length};
ghost use Rattle.px_bytes.specs.Allocations.{AsksAtMost};
ghost use Rattle.px_bytes.specs.Parts.{limit};
ghost use Rattle.px_bytes.specs.calls.Writing.{CountsAllocFailureInWrite};
ghost use Rattle.px_meaning.specs.Writable.{IsWritable};
ghost use Rattle.px_meaning.specs.calls.Seen.{meaning_of};
ghost use Rattle.px_layout.specs.Chunks.{chunks};
ghost use Rattle.px_plans.specs.Asking.{place_request, plan_request};
ghost use Rattle.px_plans.specs.calls.Planned.{plan_of, bare, paid_of};
ghost use Rattle.px_plans.specs.calls.PlanningNormal.{NextResult, AllResult, PlanResult};

use crate::plan::Plan;
use crate::sizing::chunk_sizes;
use px_bytes::{Memory, WriteRefusal};
use px_layout::{Chunk, end_padded};
use px_tree::Meaning;

// Gives a chunk of `size` bytes the offset `at`. Returns the next even offset after the chunk.
// `NormalTooLong`: that is greater than `LIMIT`. `OutOfMemory`: an allocation failed.
fn place_next(
    memory: &mut Memory,
    plan: &mut Plan,
    at: u32,
    chunk: Chunk,
    size: u64,
) -> Result<u32, WriteRefusal>
    requires { at ≤ limit }
    ensures next { NextResult result (plan_of plan.old) (plan_of plan.new) at (chunk, size) }
    ensures memory { CountsAllocFailureInWrite result memory.old memory.new }
    ensures asked { memory.new.asked ≤ memory.old.asked + paid_of plan.old + place_request 1 }
    ensures paid { OnOk result (memory.new.asked + paid_of plan.new ≤ memory.old.asked + paid_of plan.old + place_request 1) }
{
    let Some(end) = end_padded(at, size) else {
        return Err(WriteRefusal::NormalTooLong);
    };
    plan.place_in(memory, chunk, at)?;
    Ok(end)
}

// Gives chunks their offsets, one after the other from the header on. Returns where they end.
fn place_all(
    memory: &mut Memory,
    plan: &mut Plan,
    chunks: &[(Chunk, u64)],
) -> Result<u32, WriteRefusal>
    requires { plan_of plan.old ≡ bare 8 }
    ensures all { AllResult result (plan_of plan.new) chunks.now }
    ensures memory { CountsAllocFailureInWrite result memory.old memory.new }
    ensures asked { memory.new.asked ≤ memory.old.asked + paid_of plan.old + place_request (length chunks.now) }
{
    let mut at = 8;
    for i in 0..chunks.len() {
        let (chunk, size) = chunks[i];
        at = place_next(memory, plan, at, chunk, size)?;
    }
    Ok(at)
}

/// The plan of the normal form of a meaning that can be written (`is_writable`). For each directory: the table, and
/// the values of more than four bytes by ascending tag; then the JPEG, and the strips. Each chunk follows the one
/// before, the first follows the header, and each is padded to an even number of bytes.
///
/// `Ok`: this plan, which is legal; the form has at most `LIMIT` bytes, 16,777,216. `NormalTooLong`: the form is
/// longer. `OutOfMemory`: an allocation failed, and nothing is said of the form. `WriteFailed` never comes. Allocates
/// the plan, and a list of the chunks while it works.
pub fn plan_normal_in(memory: &mut Memory, m: &Meaning) -> Result<Plan, WriteRefusal>
    requires { IsWritable (meaning_of m.now) }
    ensures plan { PlanResult result (meaning_of m.now) }
    ensures memory { CountsAllocFailureInWrite result memory.old memory.new }
    ensures asked { AsksAtMost (plan_request (length (chunks (meaning_of m.now)))) memory.old memory.new }
{
    let chunks = chunk_sizes(memory, m)?;
    let mut plan = Plan::new_in(memory, 8);
    let len = place_all(memory, &mut plan, &chunks)?;
    plan.set_len(len);
    Ok(plan)
}
