// The calls over the global allocator, each one call of its `_in` form with memory of its own, in the order of their
// modules. They are for callers of this crate: nothing that ships calls them.
ghost use Rattle.std.specs.Prelude.{◌≡◌, ◌≤◌, None, IsSome, IfOk, OnErr, true, false, if◌then◌else◌, length, IsTrue, ◌↔◌};
ghost use Rattle.px_plans.specs.calls.Planned.{plan_of, bare, with_chunk};
ghost use Rattle.px_bytes.specs.Parts.{limit};
ghost use Rattle.px_meaning.specs.Writable.{IsWritable};
ghost use Rattle.px_meaning.specs.calls.Seen.{meaning_of};
ghost use Rattle.px_plans.specs.calls.PlanningNormal.{PlanResult};
ghost use Rattle.px_layout.specs.Plans.{Legal};
ghost use Rattle.px_layout.specs.Laid.{laid};

use crate::legal::is_legal_in;
use crate::normal::plan_normal_in;
use crate::plan::Plan;
use crate::with_plan::write_with_in;
use px_bytes::{Memory, Order, WriteRefusal};
use px_layout::Chunk;
use px_tree::Meaning;
use std::alloc::{AllocError, Global};

impl Plan {
    /// A plan of a block of `len` bytes without any chunk. It allocates nothing. Later calls use `alloc`.
    pub fn new(alloc: Global, len: u32) -> Plan
        ensures { plan_of result ≡ bare len }
    {
        Plan::new_in(&Memory::new(alloc), len)
    }

    /// Places a chunk at an offset and returns true, or returns false and changes nothing if it is placed already.
    /// It accepts any offset: `is_legal` judges a plan. `Err`: an allocation failed, the chunk isn't placed, and
    /// nothing has changed. Placing `n` chunks in a new plan asks for at most 32 bytes for each. The memory is its
    /// own: an allocation that failed is counted nowhere.
    pub fn place(&mut self, chunk: Chunk, offset: u32) -> Result<bool, AllocError>
        ensures placed { IfOk result (λ placed. placed ≡ true → (plan_of self.old).offset chunk ≡ None) }
        ensures there { IfOk result (λ placed. placed ≡ false → IsSome ((plan_of self.old).offset chunk)) }
        ensures after { IfOk result (λ placed. plan_of self.new
            ≡ (if placed then with_chunk (plan_of self.old) chunk offset else plan_of self.old)) }
        ensures err { OnErr result (plan_of self.new ≡ plan_of self.old) }
        ensures unplaced { OnErr result ((plan_of self.old).offset chunk ≡ None) }
    {
        let mut memory = Memory::new(self.offsets.allocator());
        Ok(self.place_in(&mut memory, chunk, offset)?)
    }
}

/// The plan of the normal form of a meaning that can be written (`is_writable`). For each directory: the table,
/// the values of more than four bytes by ascending tag, the JPEG, and the strips. Each chunk follows the one
/// before, the first follows the header, and each is padded to an even number of bytes. The plan is legal.
///
/// Allocates the plan, and a list of the chunks while it works. `NormalTooLong`: the normal form is longer than
/// `LIMIT`. `WriteFailed` is never returned. `OutOfMemory`: an allocation failed. The memory is its own: an
/// allocation that failed is counted nowhere.
pub fn plan_normal(alloc: Global, m: &Meaning) -> Result<Plan, WriteRefusal>
    requires { IsWritable (meaning_of m.now) }
    ensures { PlanResult result (meaning_of m.now) }
{
    plan_normal_in(&mut Memory::new(alloc), m)
}

/// Whether a plan is legal for a meaning that can be written (`is_writable`): it has exactly the meaning's chunks,
/// its length is at least 8 and at most `LIMIT`, each chunk is inside it, and no two chunks share a byte, nor a
/// chunk and the header. TIFF 6.0 section 7, "No Duplicate Pointers".
///
/// Allocates a list of the chunks, and a bit for each byte of the block, if the length is legal: it asks for at
/// most 64 bytes for each chunk, and for these bits. The cost grows as n log n with the number of chunks, and by a
/// word for each 64 of their bytes. `Err`: an allocation failed. The memory is its own: an allocation that failed
/// is counted nowhere.
pub fn is_legal(alloc: Global, m: &Meaning, plan: &Plan) -> Result<bool, AllocError>
    requires { IsWritable (meaning_of m.now) }
    ensures legal { IfOk result (λ legal. IsTrue legal ↔ Legal (meaning_of m.now) (plan_of plan.now)) }
    ensures least { OnErr result (8 ≤ (plan_of plan.now).length) }
    ensures most { OnErr result ((plan_of plan.now).length ≤ limit) }
{
    Ok(is_legal_in(&mut Memory::new(alloc), m, plan)?)
}

/// The block that a legal plan lays out: the header, and each chunk at its offset, in either byte order, with the
/// byte `filler` in all gaps. It has the plan's length and the given meaning. TIFF 6.0 section 2.
///
/// The caller makes sure that the meaning can be written (`is_writable`) and that the plan is legal for it
/// (`is_legal`). Allocates the block, and one chunk at a time. It asks for at most seven bytes for each byte of
/// the block, and 131,072. `Err`: an allocation failed. The memory is its own: an allocation that failed is
/// counted nowhere.
pub fn write_with(
    alloc: Global,
    m: &Meaning,
    plan: &Plan,
    order: Order,
    filler: u8,
) -> Result<Vec<u8>, AllocError>
    requires fits { IsWritable (meaning_of m.now) }
    requires legal { Legal (meaning_of m.now) (plan_of plan.now) }
    ensures { IfOk result (λ block. block.items ≡ laid (meaning_of m.now) (plan_of plan.now) order filler) }
{
    Ok(write_with_in(&mut Memory::new(alloc), m, plan, order, filler)?)
}
