// Reads a whole block, DataSet by DataSet.
ghost use Rattle.std.specs.Prelude.{◌≡◌, ◌≤◌, ◌+◌, ◌*◌, ℕ, length, Some, is_some, IfOk, IfErr};
ghost use Rattle.px_bytes.specs.Checks.{Judges, CountsAllocFailureInBlock};
ghost use Rattle.px_bytes.specs.declared.Refusal.TheVariants.{OutOfMemory};
ghost use Rattle.px_bytes.specs.Allocations.{AsksAtMost};
ghost use Rattle.px_bytes.specs.Parts.{limit};
ghost use Rattle.px_iim.specs.Asking.{item_bytes, iim_request, RefusesFirst, dataset_count, put_request};
ghost use Rattle.px_iim.specs.Group.{Record, IsRecord};
ghost use Rattle.px_iim.specs.Record.{SaysIim, iim_of};
ghost use Rattle.px_iim.specs.Check.{iim_checks};
ghost use Rattle.px_iim.specs.calls.Reading.{RefusesIim};

use crate::dataset::{dataset_at, is_end, read_dataset, rest};
use crate::digits::read_by_digits;
use crate::iim::Iim;
use crate::ordered::read_ordered;
use crate::sorting::read_sorted;
use crate::survey::survey;
use px_bytes::{Cause, LIMIT, Memory, Refusal};

// Reads the `count` DataSets of a block, and inserts each at its position.
fn read_put<'a>(memory: &mut Memory, bytes: &'a [u8], count: usize) -> Result<Iim<'a>, Refusal>
    requires bounded { length bytes.now ≤ limit }
    requires few { 5 * count ≤ limit }
    requires meaning { (i : Record) × (iim_of bytes.now ≡ Some i) × (dataset_count i ≤ 64) }
    ensures judged { Judges result (iim_checks bytes.now) (λ i. iim_of bytes.now ≡ Some i) }
    ensures memory { CountsAllocFailureInBlock result memory.old memory.new }
    ensures asked { AsksAtMost (item_bytes * count + 64 * put_request 64) memory.old memory.new }
    ensures read { IfErr result (λ e. e ≡ OutOfMemory) }
{
    let mut record = Iim::with_capacity(memory, count)?;
    let mut at = 0;
    loop {
        let found = dataset_at(bytes, at)?;
        record.push_in(memory, found.rec, found.number, found.octets)?;
        at += found.size;
        if is_end(rest(bytes, at)) {
            return Ok(record);
        }
    }
}

// Judges a block that isn't too long, and reads its groups.
fn read_groups<'a>(memory: &mut Memory, bytes: &'a [u8]) -> Result<Iim<'a>, Refusal>
    requires { length bytes.now ≤ limit }
    ensures judged { Judges result (iim_checks bytes.now) (λ i. iim_of bytes.now ≡ Some i) }
    ensures memory { CountsAllocFailureInBlock result memory.old memory.new }
    ensures asked { AsksAtMost (iim_request (length bytes.now)) memory.old memory.new }
    ensures refused { RefusesFirst result memory.old memory.new }
{
    let seen = survey(bytes)?;
    if seen.in_order {
        return Ok(read_ordered(memory, bytes, seen.count)?);
    }
    if seen.is_few() {
        return read_put(memory, bytes, seen.count);
    }
    if seen.is_short() {
        return Ok(read_by_digits(memory, bytes, seen.count)?);
    }
    Ok(read_sorted(memory, bytes, seen.count, seen.keys)?)
}

/// The record of a block of DataSets. IIM 4.2, chapter 1. Its data are borrowed from the block. Allocates the
/// record's list. If more than 64 DataSets are out of order, it also allocates a second list of them, or counters
/// for their groups, whichever is smaller.
///
/// `Content`: the first check that fails. `TooLong` at `LIMIT`: the block has more octets than that. Then, for
/// each DataSet: `NoMarker`: it doesn't begin with `1C`; `DataSetCut`: fewer than five octets are left;
/// `LengthForm`: an extended count has no octets or more than four; `DataSetCut`: the octets of the count or
/// the data pass the end. The block ends after a DataSet if at most three octets are left, all of them zero.
/// Offsets count from the first octet. `OutOfMemory`: an allocation failed. It asks for at most 24
/// bytes for each five octets of the block, and 262,144 for sorting; for a block that is refused, for nothing.
pub fn read_iim_in<'a>(memory: &mut Memory, bytes: &'a [u8]) -> Result<Iim<'a>, Refusal>
    ensures judged { Judges result (iim_checks bytes.now) (SaysIim bytes.now) }
    ensures computed { IfOk result (λ i. iim_of bytes.now ≡ Some i) }
    ensures whole { IfOk result IsRecord }
    ensures is_fault { IfErr result (RefusesIim bytes.now memory.new.failed_allocations) }
    ensures memory { CountsAllocFailureInBlock result memory.old memory.new }
    ensures asked { AsksAtMost (iim_request (length bytes.now)) memory.old memory.new }
    ensures refused { RefusesFirst result memory.old memory.new }
{
    if bytes.len() > LIMIT as usize {
        return Err(Cause::TooLong.at(LIMIT));
    }
    read_groups(memory, bytes)
}

/// Judges a block as `read_iim` does. `Ok`: all checks pass, and the block has a record. `Content`: the first check
/// that fails, at an offset of at most `LIMIT`; it is a fault of the block, which has no record. `OutOfMemory` never
/// comes: it allocates nothing.
pub fn judge_iim(bytes: &[u8]) -> Result<(), Refusal>
    ensures judged { Judges result (iim_checks bytes.now) (λ u. (i : Record) × SaysIim bytes.now i) }
    ensures is_fault { (refused : ℕ) → IfErr result (RefusesIim bytes.now refused) }
{
    if bytes.len() > LIMIT as usize {
        return Err(Cause::TooLong.at(LIMIT));
    }
    survey(bytes)?;
    Ok(())
}

/// Whether the octets are a block with a record, as `read_iim` judges them: true exactly if they have one. Allocates
/// nothing.
pub fn accepts(bytes: &[u8]) -> bool
    ensures { result ≡ is_some (iim_of bytes.now) }
{
    if bytes.len() > LIMIT as usize {
        return false;
    }
    let mut at = 0;
    loop {
        let Ok(found) = read_dataset(rest(bytes, at)) else {
            return false;
        };
        at += found.size;
        if is_end(rest(bytes, at)) {
            return true;
        }
    }
}
