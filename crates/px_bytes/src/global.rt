// The calls over the global allocator, each one call of its `_in` form with memory of its own, in the order of their
// modules. They are for callers of this crate: nothing that ships calls them.
ghost use Rattle.std.specs.Prelude.{◌≡◌, ◌⊎◌, ◌<◌, ◌≤◌, ◌+◌, List, [], ◌∷◌, true, false, IfOk, OnErr};
ghost use Rattle.px_bytes.specs.Parts.{limit};
ghost use Rattle.px_bytes.specs.Claimed.{IsFree, IsTaken, Takes};
ghost use Rattle.px_bytes.specs.Range.{Range, range, is_free, Agrees};
ghost use Rattle.px_bytes.specs.Devices.{CanCountFailure};
ghost use Rattle.px_bytes.specs.Reading.{ReadsUpTo, ConsumesAtMost, CountsRead};

use crate::devices::Source;
use crate::memory::Memory;
use crate::ranges::Ranges;
use crate::read_all::{ReadFault, read_up_to_in};
use std::alloc::{AllocError, Global};

impl Ranges {
    /// The empty set, with memory of its own. It allocates nothing.
    pub fn new(alloc: Global) -> Ranges
        ensures { result.ranges ≡ [] }
    {
        Ranges::new_in(&Memory::new(alloc))
    }

    /// Claims the `len` bytes at offset `start` and returns true, or returns false and changes nothing if one of
    /// them is claimed already. An empty range always returns true and is not added. The cost is one word for each
    /// 64 bytes, however many ranges there are. `Err`: an allocation failed, and nothing has changed. The memory
    /// is its own: an allocation that failed is counted nowhere.
    pub fn add(&mut self, start: u32, len: u32) -> Result<bool, AllocError>
        requires { start + len ≤ limit }
        ensures free { IfOk result (λ free. free ≡ true → IsFree self.old.ranges start (start + len)) }
        ensures taken { IfOk result (λ free. free ≡ false → IsTaken self.old.ranges start (start + len)) }
        ensures claimed { IfOk result (λ free. free ≡ true → 0 < len →
            Takes self.old.ranges self.new.ranges start (start + len)) }
        ensures same { IfOk result (λ free. (free ≡ false) ⊎ (len ≡ 0) → self.new ≡ self.old) }
        ensures err { OnErr result (self.new ≡ self.old) }
        ensures needed { OnErr result (0 < len × IsFree self.old.ranges start (start + len)) }

        // The same for any list of ranges that leaves the same bytes free.
        ensures listed { (taken : List Range) → Agrees taken self.old.ranges →
            IfOk result (λ free. (free ≡ is_free taken (range start len))
            × (free ≡ true → Agrees (range start len ∷ taken) self.new.ranges)) }
    {
        let mut memory = Memory::new(*self.marks.allocator());
        Ok(self.add_in(&mut memory, start, len)?)
    }
}

/// Reads to the reader's end, or up to `most` bytes, and requests no byte more. A read of 0 bytes is the end. It
/// ends at the first call that fails. Allocates the bytes and one buffer: it asks for at most ten bytes and an
/// eighth for each byte that it reads, and 729,088 more. After an error the reader has lost at most its first
/// `most` bytes. `ReadFailed`: a call of the reader failed. `OutOfMemory`: an allocation failed. The memory is its
/// own: an allocation that failed is counted nowhere.
pub fn read_up_to<R: Source>(
    alloc: Global,
    reader: &mut R,
    most: usize,
) -> Result<Vec<u8>, ReadFault>
    requires { CanCountFailure (R.calls reader.old) }
    ensures found { IfOk result (λ all. ReadsUpTo
        (R.bytes_left reader.old) (R.bytes_left reader.new) most all.items) }
    ensures lost { OnErr result (ConsumesAtMost
        (R.bytes_left reader.old) (R.bytes_left reader.new) most) }
    ensures count { CountsRead result (R.calls reader.old) (R.calls reader.new) }
{
    read_up_to_in(&mut Memory::new(alloc), reader, most)
}
