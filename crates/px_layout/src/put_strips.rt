// Puts the lengths of strips into the output buffer. TIFF 6.0 section 8, "StripByteCounts".
//
// `pending` is the output buffer, and `writer` gets its bytes when it is full. `Err` of a function
// here: a call of the writer failed, which has taken a prefix of the buffered bytes and of those
// that the function adds.
ghost use Rattle.std.specs.Prelude.{◌≡◌, ◌≤◌, ◌-◌, ◌*◌, ◌++◌, length, take, map, flat_map};
ghost use Rattle.std.specs.List.{AllByRecursion};
ghost use Rattle.px_bytes.specs.Devices.{CanCountFailure};
ghost use Rattle.px_bytes.specs.Parts.{limit};
ghost use Rattle.px_bytes.specs.Waiting.{AddsBuffered};
ghost use Rattle.px_field.specs.Forms.{size};
ghost use Rattle.px_field.specs.Values.{form_in, encode};
ghost use Rattle.px_layout.specs.Laid.{long_bytes};

use crate::put::put_value;
use px_bytes::{Failed, Order, Pending, Sink};
use px_field::Value;
use px_meaning::Strips;

// How many offsets or lengths of strips are encoded before they are put.
pub(crate) const AT_ONCE: usize = 64;

// Encodes the lengths of the strips from `start` up to `end`, each of which is decoded by itself.
fn encode_each(order: Order, strips: &Strips, start: usize, end: usize, into: &mut [u8])
    requires rising { start ≤ end }
    requires inside { end ≤ length strips.now }
    requires short { AllByRecursion (λ n. n ≤ limit) (map (λ x. length x) strips.now) }
    requires space { length into.old ≡ 4 * (end - start) }
    ensures { flat_map (long_bytes order) (take end (map (λ x. length x) strips.now))
        ≡ flat_map (long_bytes order) (take start (map (λ x. length x) strips.now)) ++ into.new }
{
    for i in start..end {
        let at = 4 * (i - start);
        order.put32(strips.len_at(i) as u32, &mut into[at..at + 4]);
    }
}

// Encodes the elements of a value from `start` up to `end`, each in four bytes.
fn encode_longs(order: Order, longs: &Value, start: usize, end: usize, into: &mut [u8])
    requires width { size (form_in longs.now.kind) ≡ 4 }
    requires rising { start ≤ end }
    requires inside { end ≤ length longs.now.elements }
    requires space { length into.old ≡ 4 * (end - start) }
    ensures { flat_map (encode order) (take end longs.now.elements)
        ≡ flat_map (encode order) (take start longs.now.elements) ++ into.new }
{
    // Shows that an index is a `u32`.
    let _ = longs.count();
    longs.encode_many(order, start as u32, into);
}

// Encodes the lengths of the strips from `start` up to `end`. LONGs of a block are swapped many at a time.
pub(crate) fn encode_lengths(
    order: Order,
    strips: &Strips,
    start: usize,
    end: usize,
    into: &mut [u8],
)
    requires rising { start ≤ end }
    requires inside { end ≤ length strips.now }
    requires short { AllByRecursion (λ n. n ≤ limit) (map (λ x. length x) strips.now) }
    requires space { length into.old ≡ 4 * (end - start) }
    ensures { flat_map (long_bytes order) (take end (map (λ x. length x) strips.now))
        ≡ flat_map (long_bytes order) (take start (map (λ x. length x) strips.now)) ++ into.new }
{
    match strips.long_lengths() {
        Some(lengths) => encode_longs(order, lengths, start, end, into),
        None => encode_each(order, strips, start, end, into),
    }
}

// Puts the lengths of strips, each of which is decoded by itself.
fn put_each_length<W: Sink>(
    pending: &mut Pending<'_>,
    writer: &mut W,
    order: Order,
    strips: &Strips,
) -> Result<(), Failed>
    requires few { CanCountFailure (W.calls writer.old) }
    requires short { AllByRecursion (λ n. n ≤ limit) (map (λ x. length x) strips.now) }
    ensures { AddsBuffered W.calls W.bytes_taken result writer.old writer.new pending.old pending.new (flat_map
        (long_bytes order) (map (λ x. length x) strips.now)) }
{
    let mut piece = [0; 4 * AT_ONCE];
    let mut i = 0;
    while i < strips.len() {
        let count = AT_ONCE.min(strips.len() - i);
        let bytes = &mut piece[..4 * count];
        encode_each(order, strips, i, i + count, bytes);
        pending.put(writer, bytes)?;
        i += count;
    }
    Ok(())
}

/// Puts the lengths of strips in bytes, each at most `LIMIT` and a LONG in a byte order, into the output buffer,
/// after the bytes that wait there. If they fit, they wait, and the writer is unchanged; otherwise each waits or is
/// written. If a block has them all as LONGs, they are put as one value. Allocates nothing. `Err`: they don't fit,
/// and a call of the writer failed, which is counted and ends the call; it has taken a prefix of the waiting bytes
/// and these.
pub fn put_strip_lengths<W: Sink>(
    pending: &mut Pending<'_>,
    writer: &mut W,
    order: Order,
    strips: &Strips,
) -> Result<(), Failed>
    requires few { CanCountFailure (W.calls writer.old) }
    requires short { AllByRecursion (λ n. n ≤ limit) (map (λ x. length x) strips.now) }
    ensures { AddsBuffered W.calls W.bytes_taken result writer.old writer.new pending.old pending.new (flat_map
        (long_bytes order) (map (λ x. length x) strips.now)) }
{
    match strips.long_lengths() {
        Some(lengths) => put_value(pending, writer, order, lengths),
        None => put_each_length(pending, writer, order, strips),
    }
}
