// Writes and measures the normal form.
ghost use Rattle.std.specs.Prelude.{◌≡◌, ◌≤◌, ◌<◌, ◌+◌, ◌++◌, length, map, vec_len, vec_capacity, OnOk, OnErr};
ghost use Rattle.std.specs.List.{flat_map};
ghost use Rattle.px_bytes.specs.Devices.{CanCountFailure, IsShort, SendsOnce, WritesOnce, device_of};
ghost use Rattle.px_bytes.specs.Allocations.{CountsAllocFailure, AsksAtMost, enlarged};
ghost use Rattle.px_bytes.specs.Parts.{limit};
ghost use Rattle.px_bytes.specs.Waiting.{Waits, Adds, AddsBuffered};
ghost use Rattle.px_iim.specs.Record.{normal_dataset, normal_iim};
ghost use Rattle.px_iim.specs.calls.View.{item_view};
ghost use Rattle.px_iim.specs.Writing.{WritesIim, WritesPart, longest_counted, within};
ghost use Rattle.px_iim.specs.calls.Heads.{Grows, AreShort};

use crate::group::Item;
use crate::head::head;
use crate::iim::Iim;
use px_bytes::{AllocFailed, CAPACITY, Failed, LIMIT, Memory, Pending, Sink, WriteRefusal};

// Adds one DataSet of record `rec` in the normal form to the output buffer `pending`, which
// `writer` gets when it is full: the head, and then the data. `Err`: a call of the writer failed.
fn put_item<W: Sink>(
    pending: &mut Pending<'_>,
    writer: &mut W,
    rec: u8,
    item: &Item,
) -> Result<(), Failed>
    requires few { CanCountFailure (W.calls writer.old) }
    requires short { length item.now.octets.now ≤ limit }
    ensures { AddsBuffered W.calls W.bytes_taken result writer.old writer.new pending.old pending.new
        (normal_dataset rec (item_view item.now)) }
{
    let (octets, len) = head(rec, item.number, item.octets.len() as u32);
    pending.put(writer, &octets[..len])?;
    pending.put(writer, item.octets)
}

// Adds the DataSets of one group of record `rec`, one after another, to the output buffer.
fn put_group<W: Sink>(
    pending: &mut Pending<'_>,
    writer: &mut W,
    rec: u8,
    items: &[Item],
) -> Result<(), Failed>
    requires few { CanCountFailure (W.calls writer.old) }
    requires short { AreShort (map item_view items.now) }
    ensures { AddsBuffered W.calls W.bytes_taken result writer.old writer.new pending.old pending.new
        (flat_map (normal_dataset rec) (map item_view items.now)) }
{
    for item in items {
        put_item(pending, writer, rec, item)?;
    }
    Ok(())
}

/// Adds the normal form to the output buffer, group by group. If the buffered bytes and the form fit into the buffer,
/// all wait there, and the writer isn't called; a call fails only if they don't fit. It allocates nothing. It ends at
/// the first call that fails: the writer has then taken a prefix of the buffered bytes and of the form after them. A
/// record with a DataSet has a form of at least five bytes.
pub fn put_iim<W: Sink>(pending: &mut Pending<'_>, writer: &mut W, iim: &Iim) -> Result<(), Failed>
    requires { CanCountFailure (W.calls writer.old) }
    ensures bytes { Adds result (device_of W.calls W.bytes_taken writer.old writer.new) pending.old pending.new (normal_iim iim.now) }
    ensures waits { Waits result writer.old writer.new pending.old pending.new (normal_iim iim.now) }
{
    for (rec, _, items) in iim.iter() {
        put_group(pending, writer, rec, items)?;
    }
    Ok(())
}

/// The length of the normal form in bytes, or None if it is more than twice `LIMIT`. The record keeps it, so
/// the call is cheap. It allocates nothing.
pub fn normal_len(iim: &Iim) -> Option<u32>
    ensures { result ≡ within (length (normal_iim iim.now)) }
{
    iim.form_len()
}

/// Writes the normal form of a record that isn't empty, and returns its length: the groups in ascending order, each
/// list in its order, a standard length up to 32,767 bytes of data, otherwise `80 04` and four bytes. It doesn't
/// flush.
///
/// `Ok`: the writer took exactly the form, of at most `LIMIT` bytes, 16,777,216. `NormalTooLong`: the form is longer,
/// and nothing was written. `WriteFailed`: a call of the writer failed, which is counted, and it took a prefix of the
/// form. `OutOfMemory` never comes. It allocates nothing: the output buffer is on the stack. A form of at most 8,192
/// bytes is written at once; a longer one in parts of up to 8,192 bytes, and longer data directly.
pub fn write_iim_part<W: Sink>(iim: &Iim, writer: &mut W) -> Result<u64, WriteRefusal>
    requires few { CanCountFailure (W.calls writer.old) }
    requires some { 0 < length iim.now }
    ensures form { WritesPart result (W.bytes_taken writer.old) (W.bytes_taken writer.new) (W.calls writer.old) (W.calls writer.new)
        iim.now }
    ensures once { IsShort (length (normal_iim iim.now)) → WritesOnce W.wrote writer.old writer.new (normal_iim iim.now) }
{
    let len = normal_len(iim).unwrap_or(LIMIT + 1);
    if len > LIMIT {
        return Err(WriteRefusal::NormalTooLong);
    }
    let mut space = [0; CAPACITY];
    let mut pending = Pending::new(&mut space);
    put_iim(&mut pending, writer, iim)?;
    pending.send(writer)?;
    Ok(u64::from(len))
}

/// Writes the normal form of a record that isn't empty as `write_iim_part` does, and then flushes once. `Ok`: the
/// writer took exactly the form, whose length is returned, at most `LIMIT` bytes, 16,777,216, and then the flush.
/// `NormalTooLong`: the form is longer, and nothing was written. `WriteFailed`: one call failed, a write or the
/// flush, and the writer took a prefix of the form. `OutOfMemory` never comes: it allocates nothing.
pub fn write_iim<W: Sink>(iim: &Iim, writer: &mut W) -> Result<u64, WriteRefusal>
    requires few { CanCountFailure (W.calls writer.old) }
    requires some { 0 < length iim.now }
    ensures form { WritesIim result (W.bytes_taken writer.old) (W.bytes_taken writer.new) (W.calls writer.old) (W.calls writer.new)
        iim.now }
    ensures flushed { OnOk result (W.unflushed writer.new ≡ 0) }
    ensures once { IsShort (length (normal_iim iim.now)) → SendsOnce W.wrote W.flushed writer.old writer.new (normal_iim iim.now) }
{
    let len = write_iim_part(iim, writer)?;
    writer.flush_all()?;
    Ok(len)
}

// Appends the normal form of a DataSet to a vector that has capacity for it.
fn append_item(
    memory: &mut Memory,
    rec: u8,
    item: &Item,
    out: &mut Vec<u8>,
) -> Result<(), AllocFailed>
    requires few { length item.now.octets.now ≤ limit }
    requires space { vec_len out.old + length (normal_dataset rec (item_view item.now)) ≤ vec_capacity out.old }
    ensures grown { Grows result out.old.items out.new.items (normal_dataset rec (item_view item.now)) }
    ensures memory { CountsAllocFailure result memory.old memory.new }
    ensures asked { memory.new.asked ≡ memory.old.asked }
    ensures space { vec_len out.new + vec_capacity out.old
        ≤ vec_len out.old + vec_capacity out.new + length (normal_dataset rec (item_view item.now)) }
{
    let (octets, len) = head(rec, item.number, item.octets.len() as u32);
    memory.extend_from_slice(out, &octets[..len])?;
    memory.extend_from_slice(out, item.octets)
}

// Appends the normal forms of all DataSets of a group of record `rec`; the vector has capacity for
// them.
fn append_group(
    memory: &mut Memory,
    rec: u8,
    items: &[Item],
    out: &mut Vec<u8>,
) -> Result<(), AllocFailed>
    requires short { AreShort (map item_view items.now) }
    requires space { vec_len out.old + length (flat_map (normal_dataset rec) (map item_view items.now)) ≤ vec_capacity out.old }
    ensures grown { Grows result out.old.items out.new.items (flat_map (normal_dataset rec) (map item_view items.now)) }
    ensures memory { CountsAllocFailure result memory.old memory.new }
    ensures asked { memory.new.asked ≡ memory.old.asked }
    ensures space { vec_len out.new + vec_capacity out.old
        ≤ vec_len out.old + vec_capacity out.new + length (flat_map (normal_dataset rec) (map item_view items.now)) }
{
    for item in items {
        append_item(memory, rec, item, out)?;
    }
    Ok(())
}

// Appends the normal form of a record; the vector has capacity for it.
fn append_record(memory: &mut Memory, iim: &Iim, out: &mut Vec<u8>) -> Result<(), AllocFailed>
    requires { vec_len out.old + length (normal_iim iim.now) ≤ vec_capacity out.old }
    ensures grown { Grows result out.old.items out.new.items (normal_iim iim.now) }
    ensures memory { CountsAllocFailure result memory.old memory.new }
    ensures asked { memory.new.asked ≡ memory.old.asked }
{
    for (rec, _, items) in iim.iter() {
        append_group(memory, rec, items, out)?;
    }
    Ok(())
}

/// Appends the normal form, of at most twice `LIMIT` bytes (`normal_len` is Some). It asks for memory only if
/// the vector lacks space for the form. `Err`: an allocation failed, and the vector's items are unchanged.
pub fn append_iim_in(memory: &mut Memory, iim: &Iim, out: &mut Vec<u8>) -> Result<(), AllocFailed>
    requires { length (normal_iim iim.now) ≤ longest_counted }
    ensures done { OnOk result (out.new.items ≡ out.old.items ++ normal_iim iim.now) }
    ensures failed { OnErr result (out.new.items ≡ out.old.items) }
    ensures memory { CountsAllocFailure result memory.old memory.new }
    ensures fits { vec_len out.old + length (normal_iim iim.now) ≤ vec_capacity out.old → memory.new.asked ≡ memory.old.asked }
    ensures asked { AsksAtMost (enlarged (vec_capacity out.old) (vec_len out.old + length (normal_iim iim.now))) memory.old memory.new }
{
    memory.reserve(out, normal_len(iim).unwrap_or(0) as usize)?;
    let before = out.len();
    let result = append_record(memory, iim, out);
    if result.is_err() {
        out.truncate(before);
    }
    result
}
