// The header of a block. TIFF 6.0 section 2, "Image File Header".
ghost use Rattle.std.specs.Prelude.{◌≡◌, ◌≤◌, length, take, true, Some, ⊤};
ghost use Rattle.px_bytes.specs.Parts.{limit};
ghost use Rattle.px_bytes.specs.Numbers.{AreBytes};
ghost use Rattle.px_bytes.specs.Checks.{ContentOnly, Judges};
ghost use Rattle.px_meaning.specs.Directory.{magic};
ghost use Rattle.px_tree.specs.Checks.{same_bytes, begins_header, order_of, header_checks};

use px_bytes::{Cause, Order, Refusal};
use px_meaning::magic_of;

// The first byte of a header for the order with the least byte first; the other header has another.
const FIRST_OF_LEAST: u8 = 0x49;

// Whether the first bytes, up to four, begin a header of this byte order.
fn begins(block: &[u8], order: Order) -> bool
    ensures { result ≡ same_bytes (take 4 block.now) (take (length block.now) (magic order)) }
{
    let magic = magic_of(order);
    let n = block.len().min(4);
    block[..n] == magic[..n]
}

// Whether the first bytes, up to four, begin a header.
fn is_begun(block: &[u8]) -> bool
    ensures { result ≡ begins_header block.now }
{
    if block.is_empty() {
        return false;
    }
    if block[0] == FIRST_OF_LEAST {
        return begins(block, Order::Least);
    }
    begins(block, Order::Most)
}

// Checks that a block of at most `LIMIT` bytes has a header. `Ok`: it has eight bytes or more, and begins with `II`
// or `MM` and 42 in that order. `Content`: the first check that fails: `UnknownKind` at 0 if its first bytes, up to
// four, don't begin so, or there are none; then `HeaderCut` at its length. `OutOfMemory` never comes.
pub fn judge_header(block: &[u8]) -> Result<(), Refusal>
    requires { length block.now ≤ limit }
    ensures judged { Judges result (header_checks block.now) (λ _. ⊤) }
    ensures content { ContentOnly result }
{
    if !is_begun(block) {
        return Err(Cause::UnknownKind.at(0));
    }
    if block.len() < 8 {
        return Err(Cause::HeaderCut.at(block.len() as u32));
    }
    Ok(())
}

// The byte order in the header of a block that has one: of its first four bytes.
pub fn order_in(block: &[u8]) -> Order
    requires least { 8 ≤ length block.now }
    requires begun { begins_header block.now ≡ true }
    ensures is_order { order_of block.now ≡ Some result }
    ensures bytes { AreBytes block.now }
{
    if block[0] == FIRST_OF_LEAST {
        return Order::Least;
    }
    Order::Most
}
