// Puts numbers, values and filler into the output buffer.
//
// `pending` is the output buffer, and `writer` gets its bytes when it is full. `Err` of a function
// here: a call of the writer failed, which has taken a prefix of the buffered bytes and of those
// that the function adds.
ghost use Rattle.std.specs.Prelude.{◌≡◌, ◌≤◌, ◌%◌, length, replicate, flat_map};
ghost use Rattle.px_bytes.specs.Devices.{CanCountFailure};
ghost use Rattle.px_bytes.specs.Numbers.{spelling};
ghost use Rattle.px_bytes.specs.Waiting.{AddsBuffered, FitsBuffer};
ghost use Rattle.px_field.specs.Values.{encode, encoded};
ghost use Rattle.px_meaning.specs.Writable.{Field};
ghost use Rattle.px_layout.specs.Laid.{long_bytes};
ghost use Rattle.px_layout.specs.calls.Given.{head_bytes};
ghost use Rattle.px_layout.specs.calls.Items.{item_of, entry_of, CountsFit};

use crate::items::{Entry, Item};
use px_bytes::{Encode, Failed, Order, Pending, Sink};
use px_field::Value;

/// Puts a number of two bytes, in a byte order, into the output buffer, after the bytes that wait there. If they fit,
/// they wait, and the writer is unchanged; otherwise each waits or is written. Allocates nothing. `Err`: they don't
/// fit, and a call of the writer failed, which is counted; it has taken a prefix of the waiting bytes and these.
pub fn put_short<W: Sink>(
    pending: &mut Pending<'_>,
    writer: &mut W,
    order: Order,
    n: u16,
) -> Result<(), Failed>
    requires { CanCountFailure (W.calls writer.old) }
    ensures { AddsBuffered W.calls W.bytes_taken result writer.old writer.new pending.old pending.new (spelling order 2 n) }
{
    let mut bytes = [0; 2];
    order.put16(n, &mut bytes);
    pending.put(writer, &bytes)
}

/// Puts a number of four bytes, in a byte order, into the output buffer, after the bytes that wait there. If they
/// fit, they wait, and the writer is unchanged; otherwise each waits or is written. Allocates nothing. `Err`: they
/// don't fit, and a call of the writer failed, which is counted; it has taken a prefix of the waiting bytes and
/// these.
pub fn put_long<W: Sink>(
    pending: &mut Pending<'_>,
    writer: &mut W,
    order: Order,
    n: u32,
) -> Result<(), Failed>
    requires { CanCountFailure (W.calls writer.old) }
    ensures { AddsBuffered W.calls W.bytes_taken result writer.old writer.new pending.old pending.new (long_bytes order n) }
{
    let mut bytes = [0; 4];
    order.put32(n, &mut bytes);
    pending.put(writer, &bytes)
}

/// Puts `count` bytes of filler, at most four, into the output buffer, after the bytes that wait there. If they fit,
/// they wait, and the writer is unchanged; otherwise each waits or is written. Allocates nothing. `Err`: they don't
/// fit, and a call of the writer failed, which is counted; it has taken a prefix of the waiting bytes and these.
pub fn put_filler<W: Sink>(
    pending: &mut Pending<'_>,
    writer: &mut W,
    filler: u8,
    count: usize,
) -> Result<(), Failed>
    requires few { CanCountFailure (W.calls writer.old) }
    requires most { count ≤ 4 }
    ensures { AddsBuffered W.calls W.bytes_taken result writer.old writer.new pending.old pending.new (replicate count filler) }
{
    if count == 0 {
        return Ok(());
    }
    pending.put(writer, &[filler; 4][..count])
}

// Puts the 0 that pads an odd number of bytes.
pub(crate) fn put_padding<W: Sink>(
    pending: &mut Pending<'_>,
    writer: &mut W,
    len: u64,
) -> Result<(), Failed>
    requires { CanCountFailure (W.calls writer.old) }
    ensures { AddsBuffered W.calls W.bytes_taken result writer.old writer.new pending.old pending.new (replicate (len % 2) 0) }
{
    if len % 2 == 0 {
        return Ok(());
    }
    pending.put(writer, &[0])
}

// Puts the elements of a value, as many at a time as `piece` has space for.
fn put_by_pieces<W: Sink>(
    pending: &mut Pending<'_>,
    writer: &mut W,
    order: Order,
    value: &Value,
    piece: &mut [u8],
) -> Result<(), Failed>
    requires few { CanCountFailure (W.calls writer.old) }
    requires space { 8 ≤ length piece.old }
    ensures { AddsBuffered W.calls W.bytes_taken result writer.old writer.new pending.old pending.new
        (flat_map (encode order) value.now.elements) }
{
    let width = value.width();
    let mut i = 0;
    while i < value.count() {
        let count = value.encode_many(order, i, piece);
        pending.put(writer, &piece[..count as usize * width as usize])?;
        i += count;
    }
    Ok(())
}

// Puts a value of eight bytes, such as one RATIONAL: the most common size of a placed value. Only one caller
// has it in its loop.
pub(crate) fn put_eight<W: Sink>(
    pending: &mut Pending<'_>,
    writer: &mut W,
    order: Order,
    value: &Value,
) -> Result<(), Failed>
    requires few { CanCountFailure (W.calls writer.old) }
    requires encoded { length (encoded order value.now) ≡ 8 }
    ensures { AddsBuffered W.calls W.bytes_taken result writer.old writer.new pending.old pending.new (encoded order value.now) }
{
    pending.put(writer, &value.encode_eight(order))
}

// A value in a byte order.
#[derive(Drop)]
struct Ordered<'v, 'a> {
    order: Order,
    value: &'v Value<'a>,
}

impl<'v, 'a> Encode for Ordered<'v, 'a> {
    ghost use Rattle.px_field.specs.Values.{encoded};

    ghost bytes = { λ o. encoded o.order o.value.now };

    // Writes the elements in the byte order `order`, one after another.
    fn encode(&self, out: &mut [u8]) {
        self.value.encode_all(self.order, out);
    }
}

// The size of the buffer in which the bytes of a value are swapped if they don't fit into the output buffer. It is
// cleared for each value.
const MANY: usize = 1024;

// From so many bytes on a value that doesn't fit is written without a copy into the output buffer.
const LONG: u64 = 65_536;

// The size of the buffer in which the bytes of such a value are swapped, if the writer fills no slice: larger than
// the usual output buffer, so that each piece is written directly.
const DIRECT: usize = 16_384;

// Puts the elements of a long value that doesn't fit into the output buffer.
#[inline(never)]
fn put_large<W: Sink>(
    pending: &mut Pending<'_>,
    writer: &mut W,
    order: Order,
    value: &Value,
) -> Result<(), Failed>
    requires few { CanCountFailure (W.calls writer.old) }
    requires long { ¬ FitsBuffer pending.old (encoded order value.now) }
    ensures { AddsBuffered W.calls W.bytes_taken result writer.old writer.new pending.old pending.new
        (flat_map (encode order) value.now.elements) }
{
    pending.send(writer)?;
    if writer.write_encoded(&Ordered { order, value }, value.size() as usize) {
        return Ok(());
    }
    put_by_pieces(pending, writer, order, value, &mut [0; DIRECT])
}

// Puts the elements of a value. Those that fit are swapped directly into the output buffer.
fn put_elements<W: Sink>(
    pending: &mut Pending<'_>,
    writer: &mut W,
    order: Order,
    value: &Value,
) -> Result<(), Failed>
    requires { CanCountFailure (W.calls writer.old) }
    ensures { AddsBuffered W.calls W.bytes_taken result writer.old writer.new pending.old pending.new
        (flat_map (encode order) value.now.elements) }
{
    let size = value.size();
    if size <= pending.free() as u64 {
        pending.put_encoded(&Ordered { order, value }, size as usize);
        return Ok(());
    }
    if size >= LONG {
        return put_large(pending, writer, order, value);
    }
    put_by_pieces(pending, writer, order, value, &mut [0; MANY])
}

/// Puts the encoding of a value in a byte order into the output buffer, after the bytes that wait there. If its bytes
/// were read in that order, they are put as they are. If they fit, they wait, and the writer is unchanged; otherwise
/// each waits or is written. Allocates nothing. `Err`: they don't fit, and a call of the writer failed, which is
/// counted and ends the call; it has taken a prefix of the waiting bytes and these.
pub fn put_value<W: Sink>(
    pending: &mut Pending<'_>,
    writer: &mut W,
    order: Order,
    value: &Value,
) -> Result<(), Failed>
    requires { CanCountFailure (W.calls writer.old) }
    ensures { AddsBuffered W.calls W.bytes_taken result writer.old writer.new pending.old pending.new (encoded order value.now) }
{
    if let Some(bytes) = value.in_order(order) {
        return pending.put(writer, bytes);
    }
    put_elements(pending, writer, order, value)
}

// The first eight bytes of a field's entry: tag, type and count.
pub(crate) fn field_head(order: Order, tag: u16, value: &Value) -> [u8; 8]
    ensures { result ≡ head_bytes order (tag, Field value.now) }
{
    let form = Item::Field(value).form();
    let mut head = [0; 8];
    order.put16(tag, &mut head[..2]);
    order.put16(form.code(), &mut head[2..4]);
    order.put32(value.count(), &mut head[4..]);
    head
}

/// The first eight bytes of an entry: tag, type and count. TIFF 6.0 section 2, "IFD Entry".
pub fn entry_head(order: Order, entry: &Entry) -> [u8; 8]
    requires { CountsFit (item_of entry.now.item) }
    ensures { result ≡ head_bytes order (entry_of entry.now) }
{
    let Entry { tag, item } = *entry;
    let mut head = [0; 8];
    order.put16(tag, &mut head[..2]);
    order.put16(item.form().code(), &mut head[2..4]);
    order.put32(item.count(), &mut head[4..]);
    head
}
