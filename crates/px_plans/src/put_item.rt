// The entries of a table, added to the output buffer. TIFF 6.0 section 2, "IFD Entry" and "Value/Offset".
//
// `pending` is the output buffer, and `writer` gets its bytes when it is full. `Err` of a function
// here: a call of the writer failed, which has taken a prefix of the buffered bytes and of those
// that the function adds.
ghost use Rattle.std.specs.Prelude.{◌≡◌, ◌≤◌, ◌-◌, ◌*◌, ◌++◌, length, take, map, flat_map};
ghost use Rattle.std.specs.List.{AllByRecursion, range_with_len};
ghost use Rattle.px_bytes.specs.Devices.{CanCountFailure};
ghost use Rattle.px_bytes.specs.Parts.{limit};
ghost use Rattle.px_bytes.specs.Waiting.{AddsBuffered};
ghost use Rattle.px_layout.specs.calls.Items.{item_of, entry_of, CountsFit};
ghost use Rattle.px_plans.specs.calls.Layouts.{plan_of_layout, item_in, last_in, entry_in};
ghost use Rattle.px_layout.specs.Laid.{long_bytes, item_bytes, last_bytes};
ghost use Rattle.px_plans.specs.calls.Planned.{plan_of};
ghost use Rattle.px_layout.specs.Plans.{place};

use crate::layout::Layout;
use crate::plan::Plan;
use px_bytes::{Failed, Pending, Sink};
use px_iim::put_iim;
use px_layout::{
    Chunk, Entry, Item, entry_head, put_filler, put_long, put_strip_lengths, put_value,
};
use px_tree::{Dir, needs_place};

// The offset of a chunk.
pub(crate) fn place_of(plan: &Plan, chunk: Chunk) -> u32
    ensures { result ≡ place (plan_of plan.now) chunk }
{
    plan.offset(chunk).unwrap_or(0)
}

// Adds the offset of a chunk in the layout's byte order.
pub(crate) fn put_place<W: Sink>(
    pending: &mut Pending<'_>,
    writer: &mut W,
    layout: &Layout,
    chunk: Chunk,
) -> Result<(), Failed>
    requires { CanCountFailure (W.calls writer.old) }
    ensures { AddsBuffered W.calls W.bytes_taken result writer.old writer.new pending.old pending.new
        (long_bytes layout.now.order (place (plan_of_layout layout.now) chunk)) }
{
    put_long(pending, writer, layout.order, place_of(layout.plan, chunk))
}

// Adds the offsets of the strips below `count`, each as a LONG.
fn put_strip_offsets<W: Sink>(
    pending: &mut Pending<'_>,
    writer: &mut W,
    layout: &Layout,
    count: u32,
) -> Result<(), Failed>
    requires { CanCountFailure (W.calls writer.old) }
    ensures { AddsBuffered W.calls W.bytes_taken result writer.old writer.new pending.old pending.new (flat_map
        (λ i. long_bytes layout.now.order (place (plan_of_layout layout.now) (Chunk.Strip i))) (range_with_len 0 count)) }
{
    for i in 0..count {
        put_place(pending, writer, layout, Chunk::Strip(i))?;
    }
    Ok(())
}

// Adds the value of an entry: the elements of a field, the DataSets of a record, an offset, or the
// offsets or lengths of strips.
#[tactic(auto, unfolding(px_layout::specs::Laid::item_bytes))]
pub(crate) fn put_item<W: Sink>(
    pending: &mut Pending<'_>,
    writer: &mut W,
    layout: &Layout,
    item: Item,
) -> Result<(), Failed>
    requires few { CanCountFailure (W.calls writer.old) }
    requires counted { CountsFit (item_of item) }
    ensures { AddsBuffered W.calls W.bytes_taken result writer.old writer.new pending.old pending.new
        (item_in layout.now (item_of item.entry)) }
{
    match item {
        Item::Field(value) => put_value(pending, writer, layout.order, value),
        Item::Record(iim) => put_iim(pending, writer, iim),
        Item::Link(dir) => put_place(pending, writer, layout, Chunk::Table(dir)),
        Item::JpegOffset => put_place(pending, writer, layout, Chunk::Jpeg),
        Item::JpegLength(len) => put_long(pending, writer, layout.order, len),
        Item::StripOffsets(strips) => {
            put_strip_offsets(pending, writer, layout, strips.len() as u32)
        }
        Item::StripLengths(strips) => put_strip_lengths(pending, writer, layout.order, strips),
    }
}

// Adds the last four bytes of an entry: its value and filler, or the value's offset.
#[tactic(auto, unfolding(px_layout::specs::Laid::last_bytes))]
fn put_last<W: Sink>(
    pending: &mut Pending<'_>,
    writer: &mut W,
    layout: &Layout,
    dir: Dir,
    entry: &Entry,
) -> Result<(), Failed>
    requires few { CanCountFailure (W.calls writer.old) }
    requires counted { CountsFit (item_of entry.now.item) }
    ensures { AddsBuffered W.calls W.bytes_taken result writer.old writer.new pending.old pending.new
        (last_in layout.now dir (entry_of entry.now)) }
{
    let Entry { tag, item } = *entry;
    let size = item.size();
    if needs_place(size) {
        return put_place(pending, writer, layout, Chunk::Placed(dir, tag));
    }
    put_item(pending, writer, layout, item)?;
    put_filler(pending, writer, layout.filler, 4 - size as usize)
}

// Adds an entry of a directory.
pub(crate) fn put_entry<W: Sink>(
    pending: &mut Pending<'_>,
    writer: &mut W,
    layout: &Layout,
    dir: Dir,
    entry: &Entry,
) -> Result<(), Failed>
    requires few { CanCountFailure (W.calls writer.old) }
    requires counted { CountsFit (item_of entry.now.item) }
    ensures { AddsBuffered W.calls W.bytes_taken result writer.old writer.new pending.old pending.new
        (entry_in layout.now dir (entry_of entry.now)) }
{
    pending.put(writer, &entry_head(layout.order, entry))?;
    put_last(pending, writer, layout, dir, entry)
}
