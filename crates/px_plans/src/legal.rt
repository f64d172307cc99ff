// Whether a plan is legal.
ghost use Rattle.std.specs.Prelude.{◌≡◌, ◌≤◌, true, List, ◌∷◌, [], length, IfOk, OnErr, IsTrue, ◌↔◌};
ghost use Rattle.px_bytes.specs.Claimed.{mark_bytes};
ghost use Rattle.px_bytes.specs.Allocations.{CountsAllocFailure, AsksAtMost};
ghost use Rattle.px_bytes.specs.Parts.{limit};
ghost use Rattle.px_bytes.specs.Range.{Range, range, Agrees};
ghost use Rattle.px_meaning.specs.Writable.{IsWritable};
ghost use Rattle.px_meaning.specs.calls.Seen.{meaning_of};
ghost use Rattle.px_plans.specs.calls.Planned.{plan_of};
ghost use Rattle.px_layout.specs.Chunks.{chunks};
ghost use Rattle.px_layout.specs.Plans.{place, Legal};
ghost use Rattle.px_plans.specs.Asking.{legal_request};
ghost use Rattle.px_plans.specs.calls.Judging.{is_placed, all_placed};

use crate::plan::Plan;
use crate::sizing::chunk_sizes;
use px_bytes::{AllocFailed, LIMIT, Memory, Ranges};
use px_layout::Chunk;
use px_tree::Meaning;

// Whether a chunk of `size` bytes has an offset, is inside the plan's length, and shares no byte with a
// claimed range. If so, it claims its range.
fn claim(
    memory: &mut Memory,
    plan: &Plan,
    claimed: &mut Ranges,
    chunk: Chunk,
    size: u64,
) -> Result<bool, AllocFailed>
    requires { (plan_of plan.now).length ≤ limit }
    ensures memory { CountsAllocFailure result memory.old memory.new }
    ensures free { (taken : List Range) → Agrees taken claimed.old.ranges →
        IfOk result (λ free. (free ≡ is_placed (plan_of plan.now) taken (chunk, size))
        × (free ≡ true → Agrees (range (place (plan_of plan.now) chunk) size ∷ taken) claimed.new.ranges)) }
    ensures capacity { claimed.old.capacity ≤ claimed.new.capacity }
    ensures fits { (plan_of plan.now).length ≤ claimed.old.capacity → memory.new.asked ≡ memory.old.asked }
{
    let Some(offset) = plan.offset(chunk) else {
        return Ok(false);
    };
    let len = u64::from(plan.len());
    if size > len {
        return Ok(false);
    }
    if u64::from(offset) + size > len {
        return Ok(false);
    }
    claimed.add_in(memory, offset, size as u32)
}

// Claims the range of each chunk. False: one of them has no offset, passes the plan's length, or
// shares a byte with a claimed range.
fn claim_all(
    memory: &mut Memory,
    plan: &Plan,
    claimed: &mut Ranges,
    chunks: &[(Chunk, u64)],
) -> Result<bool, AllocFailed>
    requires { (plan_of plan.now).length ≤ limit }
    ensures memory { CountsAllocFailure result memory.old memory.new }
    ensures free { (taken : List Range) → Agrees taken claimed.old.ranges →
        IfOk result (λ free. free ≡ all_placed (plan_of plan.now) taken chunks.now) }
    ensures fits { (plan_of plan.now).length ≤ claimed.old.capacity → memory.new.asked ≡ memory.old.asked }
{
    for i in 0..chunks.len() {
        let (chunk, size) = chunks[i];
        if !claim(memory, plan, claimed, chunk, size)? {
            return Ok(false);
        }
    }
    Ok(true)
}

// Whether all chunks have offsets, are inside the plan's length, and share no byte with the header or one
// another.
fn are_apart(memory: &mut Memory, plan: &Plan, chunks: &[(Chunk, u64)]) -> Result<bool, AllocFailed>
    requires { (plan_of plan.now).length ≤ limit }
    ensures memory { CountsAllocFailure result memory.old memory.new }
    ensures free { IfOk result (λ free. free ≡ all_placed (plan_of plan.now) (range 0 8 ∷ []) chunks.now) }
    ensures asked { 8 ≤ (plan_of plan.now).length → AsksAtMost (mark_bytes (plan_of plan.now).length) memory.old memory.new }
{
    let mut claimed = Ranges::with_capacity_in(memory, plan.len())?;
    claimed.add_in(memory, 0, 8)?;
    claim_all(memory, plan, &mut claimed, chunks)
}

/// Whether a plan is legal for a meaning that can be written (`is_writable`): it has exactly the meaning's chunks,
/// its length is at least 8 and at most `LIMIT`, each chunk is inside it, and no two chunks share a byte, nor
/// a chunk and the header. TIFF 6.0 section 7, "No Duplicate Pointers".
///
/// Allocates a list of the chunks, and a bit for each byte of the block, if the length is legal: it asks for at
/// most 64 bytes for each chunk, and for these bits. The cost grows as n log n with the number of chunks, and by a
/// word for each 64 of their bytes. `Err`: an allocation failed.
pub fn is_legal_in(memory: &mut Memory, m: &Meaning, plan: &Plan) -> Result<bool, AllocFailed>
    requires { IsWritable (meaning_of m.now) }
    ensures legal { IfOk result (λ legal. IsTrue legal ↔ Legal (meaning_of m.now) (plan_of plan.now)) }
    ensures least { OnErr result (8 ≤ (plan_of plan.now).length) }
    ensures most { OnErr result ((plan_of plan.now).length ≤ limit) }
    ensures memory { CountsAllocFailure result memory.old memory.new }
    ensures asked { AsksAtMost (legal_request (length (chunks (meaning_of m.now))) (plan_of plan.now).length) memory.old memory.new }
{
    if plan.len() < 8 {
        return Ok(false);
    }
    if plan.len() > LIMIT {
        return Ok(false);
    }
    let chunks = chunk_sizes(memory, m)?;
    // If each of the meaning's chunks has an offset, no other does exactly if the numbers are equal.
    if plan.count() != chunks.len() as u128 {
        return Ok(false);
    }
    are_apart(memory, plan, &chunks)
}
