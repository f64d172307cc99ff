// Values as bytes, in either byte order.
ghost use Rattle.std.specs.Prelude.{◌≡◌, ◌<◌, ◌≤◌, ◌+◌, ◌++◌, ◌*◌, length, take, drop, Some, slice_get, OnOk, OnErr, IsOk, vec_len};
ghost use Rattle.std.specs.Prelude.{vec_capacity};
ghost use Rattle.px_bytes.specs.Allocations.{CountsAllocFailure, AsksAtMost, enlarged};
ghost use Rattle.px_field.specs.declared.forms.Element.{Element};
ghost use Rattle.px_bytes.specs.Numbers.{spelling};
ghost use Rattle.px_field.specs.Forms.{size};
ghost use Rattle.px_field.specs.Values.{form_in, encode, encoded};

use crate::forms::Element;
use crate::values::Value;
use px_bytes::{AllocFailed, Memory, Order};

impl<'a> Value<'a> {
    /// Writes the encoding of the element at index `i`, below `count`, into the first bytes of `into`.
    /// Returns its length in bytes: 1, 2, 4 or 8. The rest of `into` is unchanged.
    pub fn spell_at(&self, order: Order, i: u32, into: &mut [u8; 8]) -> usize
        requires { i < length self.now.elements }
        ensures width { result ≡ size (form_in self.now.kind) }
        ensures front { (e : Element) → slice_get self.now.elements i ≡ Some e → take result into.new ≡ encode order e }
        ensures rest { drop result into.new ≡ drop result into.old }
    {
        encode_element(order, self.element(i), into)
    }
}

/// Appends the encoding of the value in `order`: `size` bytes. `Err`: an allocation failed, and the vector's
/// items are unchanged. It allocates only if the vector has too little capacity, and asks for the new capacity:
/// the bytes that are needed, or twice the old capacity if that is more.
pub fn append_value_in(
    memory: &mut Memory,
    order: Order,
    value: &Value,
    out: &mut Vec<u8>,
) -> Result<(), AllocFailed>
    ensures done { OnOk result (out.new.items ≡ out.old.items ++ encoded order value.now) }
    ensures failed { OnErr result (out.new.items ≡ out.old.items) }
    ensures space { vec_len out.old + length (encoded order value.now) ≤ vec_capacity out.old → IsOk result }
    ensures memory { CountsAllocFailure result memory.old memory.new }
    ensures fits { vec_len out.old + length (encoded order value.now) ≤ vec_capacity out.old → memory.new.asked ≡ memory.old.asked }
    ensures asked { AsksAtMost (enlarged (vec_capacity out.old) (vec_len out.old + length (encoded order value.now)))
        memory.old memory.new }
{
    if let Some(bytes) = value.in_order(order) {
        return memory.extend_from_slice(out, bytes);
    }
    memory.reserve(out, value.size() as usize)?;
    append_elements(memory, order, value, out)
}

// Appends the encoding of each element; the vector has capacity for all.
fn append_elements(
    memory: &mut Memory,
    order: Order,
    value: &Value,
    out: &mut Vec<u8>,
) -> Result<(), AllocFailed>
    requires { vec_len out.old + length value.now.elements * size (form_in value.now.kind) ≤ vec_capacity out.old }
    ensures ok { IsOk result }
    ensures done { out.new.items ≡ out.old.items ++ encoded order value.now }
    ensures memory { memory.new.failed_allocations ≡ memory.old.failed_allocations }
    ensures asked { memory.new.asked ≡ memory.old.asked }
{
    let mut piece = [0; 8];
    for i in 0..value.count() {
        let width = value.spell_at(order, i, &mut piece);
        memory.extend_from_slice(out, &piece[..width])?;
    }
    Ok(())
}

// Writes the encoding of the element into the first bytes of `into`. Returns its length.
fn encode_element(order: Order, element: Element, into: &mut [u8; 8]) -> usize
    ensures width { result ≡ length (encode order element) }
    ensures front { into.new ≡ encode order element ++ drop result into.old }
{
    match element {
        Element::Byte(n) => {
            into[0] = n;
            1
        }
        Element::Short(n) => encode16(order, n, into),
        Element::SShort(n) => encode16(order, n.cast_unsigned(), into),
        Element::Long(n) | Element::Float(n) => encode32(order, n, into),
        Element::SLong(n) => encode32(order, n.cast_unsigned(), into),
        Element::Rational(n, d) => encode_fraction(order, n, d, into),
        Element::SRational(n, d) => encode_fraction(
            order,
            n.cast_unsigned(),
            d.cast_unsigned(),
            into,
        ),
        Element::Double(n) => {
            order.put64(n, into);
            8
        }
    }
}

// Writes `n` into the first two bytes of `into` and leaves the others. Returns 2, the number of
// bytes written.
fn encode16(order: Order, n: u16, into: &mut [u8; 8]) -> usize
    ensures width { result ≡ 2 }
    ensures front { into.new ≡ spelling order 2 n ++ drop 2 into.old }
{
    order.put16(n, &mut into[..2]);
    2
}

// Writes `n` into the first four bytes of `into` and leaves the others. Returns 4, the number of
// bytes written.
fn encode32(order: Order, n: u32, into: &mut [u8; 8]) -> usize
    ensures width { result ≡ 4 }
    ensures front { into.new ≡ spelling order 4 n ++ drop 4 into.old }
{
    order.put32(n, &mut into[..4]);
    4
}

// Fills `into` with a fraction, the numerator `n` and then the denominator `d`, as TIFF 6.0 section
// 2, "Types", orders them. Returns 8, the number of bytes written.
fn encode_fraction(order: Order, n: u32, d: u32, into: &mut [u8; 8]) -> usize
    ensures width { result ≡ 8 }
    ensures front { into.new ≡ spelling order 4 n ++ spelling order 4 d }
{
    order.put32(n, &mut into[..4]);
    order.put32(d, &mut into[4..]);
    8
}
