// A value: bytes in some byte order, seen as the elements that they encode.
ghost use Rattle.std.specs.Prelude.{◌≡◌, ◌<◌, ◌≤◌, ◌+◌, ◌-◌, ◌*◌, ◌/◌, ◌%◌, length, map, flat_map, take, drop, min, Some, slice_get};
ghost use Rattle.std.specs.Prelude.{IsTrue, ◌↔◌, ◌++◌, IsSome, IfSome, replicate, unwrap_or, true, false};
ghost use Rattle.px_bytes.specs.declared.Order.{Order};
ghost use Rattle.px_bytes.specs.Parts.{limit};
ghost use Rattle.px_field.specs.declared.forms.Form.TheVariants.{Short, Long};
ghost use Rattle.px_field.specs.declared.turning.Width.TheVariants.{Pair};
ghost use Rattle.px_field.specs.calls.Turning.{width_of};
ghost use Rattle.px_field.specs.Forms.{size};
ghost use Rattle.px_field.specs.Values.{count_in, element_of, elements, form_in, is_bytes, encode, encoded, value_in, whole_in, widened};
ghost use Rattle.px_field.specs.Values.{IsOf, IsValue, IsWhole};

use crate::forms::{Element, Form, Kind};
use crate::turning::{Way, Width, turn, turned_long, turned_pair, turned_short};
use px_bytes::Order;
use std::marker::Model;

/// The value of a field: its kind and its elements.
///
/// A value borrows the bytes that it was read from. Reading copies nothing, and no method allocates: each
/// access reads an element from the bytes.
#[derive(Debug, Drop)]
pub struct Value<'a> {
    raw: &'a [u8],
    order: Order,
    form: Form,
    widened: bool,
}

impl<'a> Model for Value<'a> {
    ghost use Rattle.px_field.specs.Values as values;

    ghost Value = { values.Value };

    ghost use Rattle.px_field.specs.calls.Views.{value_of, IsSound};

    ghost view = { value_of };

    ghost invariant = { IsSound };
}

/// The value of type `form` that the bytes encode in `order`: TIFF 6.0 section 2, "Types".
///
/// The caller makes sure that `raw` is a whole number of elements, perhaps none, of at most `LIMIT` bytes.
/// Each such `raw` encodes a value, so there is no error.
pub fn read_value<'a>(form: Form, order: Order, raw: &'a [u8]) -> Value<'a>
    requires whole { length raw.now % size form ≡ 0 }
    requires bounded { length raw.now ≤ limit }
    ensures value { result ≡ value_in order form raw.now }
    ensures encodes { raw.now ≡ encoded order result }
{
    Value {
        raw,
        order,
        form,
        widened: false,
    }
}

/// The whole numbers that a SHORT or LONG encodes in `order`, for a tag that treats both types as the same.
///
/// The caller makes sure that `form` is `Short` or `Long`, and that `raw` is a whole number of its elements,
/// perhaps none, of at most `LIMIT` bytes. The value is of kind `Whole`, and its elements are `Long` in both
/// cases.
pub fn read_whole<'a>(form: Form, order: Order, raw: &'a [u8]) -> Value<'a>
    requires whole { length raw.now % size form ≡ 0 }
    requires bounded { length raw.now ≤ limit }
    requires width { IsWhole form }
    ensures { result ≡ whole_in order form raw.now }
{
    Value {
        raw,
        order,
        form,
        widened: true,
    }
}

impl<'a> Value<'a> {
    /// The type of the value, or `Whole`.
    pub fn kind(&self) -> Kind
        ensures kind { result ≡ self.now.kind }

        // Each element is of that kind and in its range.
        ensures ranges { IsValue self.now }
    {
        if self.widened {
            Kind::Whole
        } else {
            Kind::Of(self.form)
        }
    }

    /// The elements of a BYTE, ASCII, SBYTE, UNDEFINED or UTF-8 as the slice that was read; `None` for any
    /// other kind.
    pub fn bytes(&self) -> Option<&'a [u8]>
        ensures which { IsSome result ↔ IsTrue (is_bytes self.now.kind) }
        ensures elements { IfSome result (λ s. self.now.elements ≡ map Element.Byte s.now) }
    {
        match self.form {
            Form::Byte | Form::Ascii | Form::SByte | Form::Undefined | Form::Utf8 => Some(self.raw),
            _ => None,
        }
    }

    /// If there is a result, it is the value's encoding in `order`. There is one if the elements are bytes. When else
    /// there is one is not stated: it is the bytes that were read, if they were read in that order and the value
    /// isn't widened; `None` for a value of the other order, and for SHORTs that are whole numbers.
    pub fn in_order(&self, order: Order) -> Option<&'a [u8]>
        ensures encoded { IfSome result (λ s. s.now ≡ encoded order self.now) }
        ensures bytes { IsTrue (is_bytes self.now.kind) → IsSome result }
    {
        if self.form.size() == 1 {
            return Some(self.raw);
        }
        if self.order != order {
            return None;
        }
        if !self.widened {
            return Some(self.raw);
        }
        match self.form {
            Form::Long => Some(self.raw),
            _ => None,
        }
    }

    /// The number of elements, at most `LIMIT`.
    pub fn count(&self) -> u32
        ensures count { result ≡ length self.now.elements }
        ensures bounded { result ≤ limit }
    {
        self.raw.len() as u32 / self.form.size()
    }

    /// The element at index `i`, which is below `count`.
    #[inline(always)]
    pub fn element(&self, i: u32) -> Element
        requires { i < length self.now.elements }
        ensures element { slice_get self.now.elements i ≡ Some result }
        ensures range { IsOf (form_in self.now.kind) result }
    {
        let element = element_in(self.order, self.form, self.raw, i);
        if self.widened {
            widen(element)
        } else {
            element
        }
    }

    /// The bytes of each element in the encoding: 1, 2, 4 or 8.
    pub fn width(&self) -> u32
        ensures { result ≡ size (form_in self.now.kind) }
    {
        if self.widened { 4 } else { self.form.size() }
    }

    /// Encodes the elements from index `i`, at most `count`, into the first bytes of `into`: as many as the
    /// value has and as fit. Returns how many. Each takes `width` bytes. It makes one pass and allocates
    /// nothing.
    pub fn encode_many(&self, order: Order, i: u32, into: &mut [u8]) -> u32
        requires { i ≤ length self.now.elements }
        ensures count { result ≡ min (length self.now.elements - i) (length into.old / size (form_in self.now.kind)) }
        ensures front { take (result * size (form_in self.now.kind)) into.new
            ≡ flat_map (encode order) (take result (drop i self.now.elements)) }
    {
        let rest = self.count() - i;
        let width = self.width();
        let count = how_many(rest, width, into.len());
        let way = Way {
            width: Width::of(self.form, self.widened),
            read: self.order,
            write: order,
        };
        let raw = slice_from(self.raw, self.form, i, count);
        turn(
            way,
            count as usize,
            raw,
            &mut into[..count as usize * width as usize],
        );
        count
    }

    /// Encodes the whole value; `into` has exactly its size.
    pub fn encode_all(&self, order: Order, into: &mut [u8])
        requires { length into.old ≡ length (encoded order self.now) }
        ensures { into.new ≡ encoded order self.now }
    {
        // Uses the value's invariant: the elements take as many bytes as their encoding.
        let _ = &self.raw;
        if let Some(same) = self.in_order(order) {
            into.copy_from_slice(same);
            return;
        }
        self.encode_many(order, 0, into);
    }

    /// The encoding of a value of eight bytes, such as one RATIONAL, without a loop.
    pub fn encode_eight(&self, order: Order) -> [u8; 8]
        requires { length (encoded order self.now) ≡ 8 }
        ensures { result ≡ encoded order self.now }
    {
        if is_fraction(self.form) {
            return turned_pair(self.order, order, self.raw);
        }
        let mut bytes = [0; 8];
        self.encode_all(order, &mut bytes);
        bytes
    }

    /// The encoding of a value of at most four bytes, then zeros. One SHORT, one LONG and single bytes need
    /// no loop.
    pub fn encode_four(&self, order: Order) -> [u8; 4]
        requires { length (encoded order self.now) ≤ 4 }
        ensures { result ≡ encoded order self.now ++ replicate (4 - length (encoded order self.now)) 0 }
    {
        if is_one_short(self.form, self.widened, self.raw) {
            return turned_short(self.order, order, self.raw);
        }
        if is_one_long(self.form, self.raw) {
            return turned_long(self.order, order, self.raw);
        }
        if self.form.size() == 1 {
            return padded_four(self.raw);
        }
        self.encode_few(order)
    }

    // The encoding of any value of at most four bytes, then zeros, without a special case.
    fn encode_few(&self, order: Order) -> [u8; 4]
        requires { length (encoded order self.now) ≤ 4 }
        ensures { result ≡ encoded order self.now ++ replicate (4 - length (encoded order self.now)) 0 }
    {
        let mut bytes = [0; 4];
        let size = self.size() as usize;
        self.encode_all(order, &mut bytes[..size]);
        bytes
    }

    /// The length of the value's encoding in bytes, in either order. A value of kind `Whole` takes four for
    /// each element, so one read from SHORT takes twice the bytes that were read.
    pub fn size(&self) -> u64
        ensures encoded { (order : Order) → result ≡ length (encoded order self.now) }
        ensures elements { result ≡ length self.now.elements * size (form_in self.now.kind) }
        ensures bounded { result ≤ 2 * limit }
    {
        if self.widened {
            4 * u64::from(self.count())
        } else {
            self.raw.len() as u64
        }
    }
}

/// Whether two values have the same kind and the same elements in the same sequence. The orders in which they
/// were read don't matter.
pub fn same_value(a: &Value, b: &Value) -> bool
    ensures { IsTrue result ↔ (a.now ≡ b.now) }
{
    if a.kind() != b.kind() {
        return false;
    }
    if let Some(same) = same_bytes(Order::Most, a, b) {
        return same;
    }
    if let Some(same) = same_bytes(Order::Least, a, b) {
        return same;
    }
    same_elements(a, b)
}

// Whether two values of one kind have the same bytes, if both were read in `order` and neither is
// widened. None: one was read in the other order or is widened.
fn same_bytes(order: Order, a: &Value, b: &Value) -> Option<bool>
    requires kind { a.now.kind ≡ b.now.kind }
    requires left { IsValue a.now }
    requires right { IsValue b.now }
    ensures { IfSome result (λ same. IsTrue same ↔ (a.now ≡ b.now)) }
{
    let x = a.in_order(order)?;
    let y = b.in_order(order)?;
    Some(x == y)
}

// Whether two values have the same elements.
fn same_elements(a: &Value, b: &Value) -> bool
    ensures { IsTrue result ↔ (a.now.elements ≡ b.now.elements) }
{
    let count = a.count();
    if count != b.count() {
        return false;
    }
    for i in 0..count {
        if a.element(i) != b.element(i) {
            return false;
        }
    }
    true
}

// The byte at an index, or 0 after the last.
fn byte_or_zero(raw: &[u8], i: usize) -> u8
    ensures { result ≡ unwrap_or (slice_get raw.now i) 0 }
{
    match raw.get(i) {
        Some(byte) => *byte,
        None => 0,
    }
}

// The bytes, which are at most four, and then zeros, so that there are four.
#[tactic(auto, using(crate::proofs::TurnLaws::four_bytes))]
fn padded_four(raw: &[u8]) -> [u8; 4]
    requires { length raw.now ≤ 4 }
    ensures { result ≡ raw.now ++ replicate (4 - length raw.now) 0 }
{
    [
        byte_or_zero(raw, 0),
        byte_or_zero(raw, 1),
        byte_or_zero(raw, 2),
        byte_or_zero(raw, 3),
    ]
}

// Whether an element is two numbers of four bytes.
fn is_fraction(form: Form) -> bool
    ensures { result ≡ true → width_of false form ≡ Pair }
{
    matches!(form, Form::Rational | Form::SRational)
}

// Whether a value is one SHORT and is written as one.
fn is_one_short(form: Form, widened: bool, raw: &[u8]) -> bool
    ensures { result ≡ true → (form ≡ Short) × (widened ≡ false) × (length raw.now ≡ 2) }
{
    form == Form::Short && !widened && raw.len() == 2
}

// Whether a value is one LONG, widened or not.
fn is_one_long(form: Form, raw: &[u8]) -> bool
    ensures { result ≡ true → (form ≡ Long) × (length raw.now ≡ 4) }
{
    form == Form::Long && raw.len() == 4
}

// How many of `rest` elements of a width fit into so many bytes. Usually all do, which needs no division.
#[tactic(auto, using(crate::proofs::TurnLaws::space_for, crate::proofs::TurnLaws::space_of))]
fn how_many(rest: u32, width: u32, space: usize) -> u32
    requires { 0 < width }
    ensures count { result ≡ min rest (space / width) }
    ensures fits { result * width ≤ space }
{
    if rest as usize * width as usize <= space {
        return rest;
    }
    let most = space / width as usize;
    if most < rest as usize {
        most as u32
    } else {
        rest
    }
}

// The bytes of the elements from index `i` on.
#[tactic(auto, using(crate::proofs::TurnLaws::parts_fit))]
fn slice_from(raw: &[u8], form: Form, i: u32, count: u32) -> &[u8]
    requires bounded { length raw.now ≤ limit }
    requires inside { i + count ≤ count_in form raw.now }
    ensures value { result.now ≡ drop (i * size form) raw.now }
    ensures space { count * size form ≤ length result.now }
{
    &raw[i as usize * form.size() as usize..]
}

// The element of a type at index `i`, which the bytes contain.
#[tactic(auto, using(crate::proofs::ViewLemmas::element_fits))]
#[inline(always)]
fn element_in(order: Order, form: Form, raw: &[u8], i: u32) -> Element
    requires bounded { length raw.now ≤ limit }
    requires inside { i < count_in form raw.now }
    ensures { slice_get (elements order form (count_in form raw.now) raw.now) i ≡ Some result }
{
    let size = form.size() as usize;
    let at = i as usize * size;
    read_element(order, form, &raw[at..at + size])
}

// The element of a type that the bytes encode.
#[inline(always)]
fn read_element(order: Order, form: Form, bytes: &[u8]) -> Element
    requires { length bytes.now ≡ size form }
    ensures { result ≡ element_of order form bytes.now }
{
    match form {
        Form::Byte | Form::Ascii | Form::SByte | Form::Undefined | Form::Utf8 => Element::Byte(
            bytes[0],
        ),
        Form::Short => Element::Short(order.get16(bytes)),
        Form::Long => Element::Long(order.get32(bytes)),
        Form::Rational => Element::Rational(order.get32(&bytes[..4]), order.get32(&bytes[4..])),
        Form::SShort => Element::SShort(order.get16(bytes).cast_signed()),
        Form::SLong => Element::SLong(order.get32(bytes).cast_signed()),
        Form::SRational => Element::SRational(
            order.get32(&bytes[..4]).cast_signed(),
            order.get32(&bytes[4..]).cast_signed(),
        ),
        Form::Float => Element::Float(order.get32(bytes)),
        Form::Double => Element::Double(order.get64(bytes)),
    }
}

// An unsigned number of two or four bytes as one of four.
#[inline(always)]
fn widen(element: Element) -> Element
    ensures { result ≡ widened element }
{
    match element {
        Element::Short(n) => Element::Long(u32::from(n)),
        other => other,
    }
}
