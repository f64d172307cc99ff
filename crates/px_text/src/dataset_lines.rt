// The lines of DataSets: record number, DataSet number, length and data.
//
// `pending` is the output buffer, and `writer` gets its bytes when it is full. `Err` of a function
// here: a call of the writer failed, which has taken a prefix of the buffered bytes and of those
// that the function adds.
ghost use Rattle.std.specs.Prelude.{◌≡◌, map, length, flat_map};
ghost use Rattle.px_bytes.specs.Devices.{CanCountFailure, device_of};
ghost use Rattle.px_bytes.specs.Waiting.{Adds};
ghost use Rattle.px_iim.specs.Asking.{dataset_count};
ghost use Rattle.px_iim.specs.calls.View.{item_view};
ghost use Rattle.px_text.specs.Listing.{dataset_line, dataset_lines};

use crate::texts::{put_decimal, put_ended, put_sized};
use px_bytes::{Failed, Pending, Sink};
use px_iim::{Iim, Item};

// Adds the line of one DataSet, as `2:120 3: 616263` for the three bytes `abc` in DataSet 2:120.
#[tactic(auto, unfolding(crate::specs::Listing::dataset_line))]
fn put_dataset<W: Sink>(
    pending: &mut Pending<'_>,
    writer: &mut W,
    rec: u8,
    item: &Item,
) -> Result<(), Failed>
    requires { CanCountFailure (W.calls writer.old) }
    ensures { Adds result (device_of W.calls W.bytes_taken writer.old writer.new) pending.old pending.new
        (dataset_line rec (item_view item.now)) }
{
    put_ended(pending, writer, rec, b":")?;
    put_decimal(pending, writer, item.number)?;
    put_sized(pending, writer, item.octets)
}

// Adds the lines of the DataSets of one group, all of record `rec`, in their order.
fn put_group<W: Sink>(
    pending: &mut Pending<'_>,
    writer: &mut W,
    rec: u8,
    items: &[Item],
) -> Result<(), Failed>
    requires { CanCountFailure (W.calls writer.old) }
    ensures { Adds result (device_of W.calls W.bytes_taken writer.old writer.new) pending.old pending.new
        (flat_map (dataset_line rec) (map item_view items.now)) }
{
    for item in items {
        put_dataset(pending, writer, rec, item)?;
    }
    Ok(())
}

// Adds a line for each DataSet: the groups in ascending order, each list in its order.
pub(crate) fn put_datasets<W: Sink>(
    pending: &mut Pending<'_>,
    writer: &mut W,
    iim: &Iim,
) -> Result<(), Failed>
    requires { CanCountFailure (W.calls writer.old) }
    ensures { Adds result (device_of W.calls W.bytes_taken writer.old writer.new) pending.old pending.new (dataset_lines iim.now) }
{
    for (rec, _, items) in iim.iter() {
        put_group(pending, writer, rec, items)?;
    }
    Ok(())
}

// The number of DataSets in a group.
fn count_group(items: &[Item]) -> u64
    ensures { result ≡ length items.now }
{
    items.len() as u64
}

// The number of DataSets. The sum is a u128, so it can't overflow.
pub(crate) fn count_datasets(iim: &Iim) -> u128
    ensures { result ≡ dataset_count iim.now }
{
    // The number of groups is a u32, and that of each group's DataSets a u64.
    let _ = iim.groups();
    let mut count = 0;
    for (_, _, items) in iim.iter() {
        count += count_group(items) as u128;
    }
    count
}
