// Plans: the offset of each chunk of a block.
ghost use Rattle.std.specs.Prelude.{◌≡◌, ◌≤◌, ◌+◌, None, IsSome, IfOk, OnOk, OnErr, true, false, if◌then◌else◌};
ghost use Rattle.px_bytes.specs.Allocations.{CountsAllocFailure};
ghost use Rattle.px_plans.specs.calls.Kept.{offset_in, size_in};
ghost use Rattle.px_plans.specs.calls.Counted.{IsCount};

use crate::offsets::Offsets;
use px_bytes::{AllocFailed, Memory};
use px_layout::Chunk;

/// A layout: the length of a block in bytes, and the offset of each of its chunks. TIFF 6.0 section 2 leaves
/// offsets free.
///
/// The offsets of values and of strips are in vectors by tag and by number, eight bytes each, where one is found in
/// the logarithm of their number. One that is placed after those with a lesser tag or number is appended; any other
/// moves those after it.
#[derive(Drop)]
pub struct Plan {
    len: u32,
    pub(crate) offsets: Offsets,
    ghost counted: { IsCount (size_in offsets) (offset_in offsets) },
}

impl Plan {
    ghost use Rattle.px_plans.specs.Asking.{place_request};
    ghost use Rattle.px_plans.specs.calls.Planned.{plan_of, bare, with_chunk, with_length, paid_of};

    /// A plan of a block of `len` bytes without any chunk. It allocates nothing. Later calls use the
    /// allocator of `memory`.
    #[tactic(auto, unfolding(crate::specs::calls::Planned::plan_of, crate::specs::calls::Planned::paid_of))]
    pub fn new_in(memory: &Memory, len: u32) -> Plan
        ensures plan { plan_of result ≡ bare len }
        ensures paid { paid_of result ≡ 0 }
    {
        Plan {
            len,
            offsets: Offsets::new(memory),
        }
    }

    /// The length of the block in bytes. It allocates nothing.
    #[tactic(auto, unfolding(crate::specs::calls::Planned::plan_of))]
    pub fn len(&self) -> u32
        ensures { result ≡ (plan_of self.now).length }
    {
        self.len
    }

    /// The offset of a chunk from the block's first byte, or None if it isn't placed. It allocates nothing.
    #[tactic(auto, unfolding(crate::specs::calls::Planned::plan_of))]
    pub fn offset(&self, chunk: Chunk) -> Option<u32>
        ensures { result ≡ (plan_of self.now).offset chunk }
    {
        self.offsets.offset(chunk)
    }

    /// Places a chunk at an offset and returns true, or returns false and changes nothing if it is placed
    /// already. It accepts any offset: `is_legal` judges a plan. `Err`: an allocation failed, the chunk isn't
    /// placed, and nothing has changed. Placing `n` chunks in a new plan asks for at most 32 bytes for each.
    #[tactic(auto, unfolding(crate::specs::calls::Planned::plan_of, crate::specs::calls::Planned::paid_of))]
    pub fn place_in(
        &mut self,
        memory: &mut Memory,
        chunk: Chunk,
        offset: u32,
    ) -> Result<bool, AllocFailed>
        ensures placed { IfOk result (λ placed. placed ≡ true → (plan_of self.old).offset chunk ≡ None) }
        ensures there { IfOk result (λ placed. placed ≡ false → IsSome ((plan_of self.old).offset chunk)) }
        ensures after { IfOk result (λ placed. plan_of self.new
            ≡ (if placed then with_chunk (plan_of self.old) chunk offset else plan_of self.old)) }
        ensures err { OnErr result (plan_of self.new ≡ plan_of self.old) }
        ensures unplaced { OnErr result ((plan_of self.old).offset chunk ≡ None) }
        ensures memory { CountsAllocFailure result memory.old memory.new }
        ensures asked { memory.new.asked ≤ memory.old.asked + paid_of self.old + place_request 1 }
        ensures paid { OnOk result (memory.new.asked + paid_of self.new ≤ memory.old.asked + paid_of self.old + place_request 1) }
    {
        if self.offsets.offset(chunk).is_some() {
            return Ok(false);
        }
        self.offsets.put(memory, chunk, offset)?;
        Ok(true)
    }

    // The number of chunks that are placed.
    #[tactic(auto, unfolding(crate::specs::calls::Planned::plan_of))]
    pub(crate) fn count(&self) -> u128
        ensures { IsCount result (plan_of self.now).offset }
    {
        self.offsets.size()
    }

    // Sets the length of the block.
    #[tactic(auto, unfolding(crate::specs::calls::Planned::plan_of))]
    pub(crate) fn set_len(&mut self, len: u32)
        ensures { plan_of self.new ≡ with_length (plan_of self.old) len }
    {
        self.len = len;
    }
}
