// The calls over the global allocator, each one call of its `_in` form with memory of its own, in the order of their
// modules. They are for callers of this crate: nothing that ships calls them.
ghost use Rattle.std.specs.Prelude.{◌≡◌, ◌≤◌, ◌+◌, ℕ, [], length, Some, IfOk, OnOk, OnErr, IfErr, ◌++◌};
ghost use Rattle.px_bytes.specs.Parts.{limit};
ghost use Rattle.px_iim.specs.Group.{put, IsRecord};
ghost use Rattle.px_iim.specs.Record.{normal_iim, SaysIim, iim_of};
ghost use Rattle.px_iim.specs.Writing.{longest_counted};
ghost use Rattle.px_bytes.specs.Checks.{Judges};
ghost use Rattle.px_iim.specs.Check.{iim_checks};
ghost use Rattle.px_iim.specs.calls.Reading.{RefusesIim};

use crate::iim::Iim;
use crate::read::read_iim_in;
use crate::write::append_iim_in;
use px_bytes::{Memory, Refusal};
use std::alloc::{AllocError, Global};

impl<'a> Iim<'a> {
    /// A record without a DataSet, with memory of its own. It allocates nothing.
    pub fn new(alloc: Global) -> Iim<'a>
        ensures { result ≡ [] }
    {
        Iim::new_in(&Memory::new(alloc))
    }

    /// Appends a DataSet to its group, with any record number, any DataSet number, and at most `LIMIT` bytes of
    /// data. A DataSet that is not the last of the record moves those after it. `Err`: an allocation failed, and
    /// nothing has changed. The memory is its own: an allocation that failed is counted nowhere.
    pub fn push(&mut self, rec: u8, number: u8, octets: &'a [u8]) -> Result<(), AllocError>
        requires { length octets.now ≤ limit }
        ensures done { OnOk result (self.new ≡ put (record { rec = rec; number = number; octets = octets.now }) self.old) }
        ensures failed { OnErr result (self.new ≡ self.old) }
    {
        let mut memory = Memory::new(*self.items.allocator());
        self.push_in(&mut memory, rec, number, octets)?;
        Ok(())
    }
}

/// The record of a block of DataSets. IIM 4.2, chapter 1. Its data are borrowed from the block. Allocates the
/// record's list. If more than 64 DataSets are out of order, it also allocates a second list of them, or counters
/// for their groups, whichever is smaller.
///
/// `Content`: the first check that fails. `TooLong` at `LIMIT`: the block has more octets than that. Then, for
/// each DataSet: `NoMarker`: it doesn't begin with `1C`; `DataSetCut`: fewer than five octets are left;
/// `LengthForm`: an extended count has no octets or more than four; `DataSetCut`: the octets of the count or the
/// data pass the end. The block ends after a DataSet if at most three octets are left, all of them zero. Offsets
/// count from the first octet. `OutOfMemory`: an allocation failed. It asks for at most 24 bytes for each five
/// octets of the block, and 262,144 for sorting; for a block that is refused, for nothing. The memory is its own:
/// an allocation that failed is counted nowhere.
pub fn read_iim<'a>(alloc: Global, bytes: &'a [u8]) -> Result<Iim<'a>, Refusal>
    ensures judged { Judges result (iim_checks bytes.now) (SaysIim bytes.now) }
    ensures computed { IfOk result (λ i. iim_of bytes.now ≡ Some i) }
    ensures whole { IfOk result IsRecord }
    ensures is_fault { IfErr result (λ e. (refused : ℕ) × RefusesIim bytes.now refused e) }
{
    read_iim_in(&mut Memory::new(alloc), bytes)
}

/// Appends the normal form, of at most twice `LIMIT` bytes (`normal_len` is Some). `Err`: an allocation failed,
/// and the vector's items are unchanged. The memory is its own: an allocation that failed is counted nowhere.
pub fn append_iim(iim: &Iim, out: &mut Vec<u8>) -> Result<(), AllocError>
    requires { length (normal_iim iim.now) ≤ longest_counted }
    ensures done { OnOk result (out.new.items ≡ out.old.items ++ normal_iim iim.now) }
    ensures failed { OnErr result (out.new.items ≡ out.old.items) }
{
    let mut memory = Memory::new(*out.allocator());
    append_iim_in(&mut memory, iim, out)?;
    Ok(())
}
