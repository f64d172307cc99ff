// The lines of fields: tag, type, count and elements.
//
// `pending` is the output buffer, and `writer` gets its bytes when it is full. `Err` of a function
// here: a call of the writer failed, which has taken a prefix of the buffered bytes and of those
// that the function adds.
ghost use Rattle.std.specs.Prelude.{◌≡◌, ◌++◌, codes, decimal, flat_map, length};
ghost use Rattle.hex.specs.Hex.{encode_lower};
ghost use Rattle.px_bytes.specs.Devices.{CanCountFailure, device_of};
ghost use Rattle.px_bytes.specs.Waiting.{Adds};
ghost use Rattle.px_bytes.specs.declared.Order.TheVariants.{Most};
ghost use Rattle.px_bytes.specs.Numbers.{spelling};
ghost use Rattle.px_field.specs.declared.Kind.{Kind};
ghost use Rattle.px_text.specs.Listing.{type_word, element_text, shown_elements, field_line, field_lines};

use crate::texts::{put_decimal, put_ended, put_hex, put_shown};
use itoa::Integer;
use px_bytes::{Failed, Order, Pending, Sink};
use px_field::{Element, Form, Kind, Value};
use px_meaning::Fields;

// The name of a type between two spaces.
fn form_word(form: Form) -> &'static [u8]
    ensures { result.now ≡ codes " " ++ type_word (Kind.Of form) ++ codes " " }
{
    match form {
        Form::Byte => b" BYTE ",
        Form::Ascii => b" ASCII ",
        Form::Short => b" SHORT ",
        Form::Long => b" LONG ",
        Form::Rational => b" RATIONAL ",
        Form::SByte => b" SBYTE ",
        Form::Undefined => b" UNDEFINED ",
        Form::SShort => b" SSHORT ",
        Form::SLong => b" SLONG ",
        Form::SRational => b" SRATIONAL ",
        Form::Float => b" FLOAT ",
        Form::Double => b" DOUBLE ",
        Form::Utf8 => b" UTF8 ",
    }
}

// The name of a kind between two spaces: its type, or WHOLE at a tag that treats SHORT and LONG as one.
fn type_word(kind: Kind) -> &'static [u8]
    ensures { result.now ≡ codes " " ++ type_word kind ++ codes " " }
{
    match kind {
        Kind::Of(form) => form_word(form),
        Kind::Whole => b" WHOLE ",
    }
}

// Adds a number of two bytes in hexadecimal, most significant byte first.
fn put_digits16<W: Sink>(pending: &mut Pending<'_>, writer: &mut W, n: u16) -> Result<(), Failed>
    requires { CanCountFailure (W.calls writer.old) }
    ensures { Adds result (device_of W.calls W.bytes_taken writer.old writer.new) pending.old pending.new
        (encode_lower (spelling Most 2 n)) }
{
    let mut bytes = [0; 2];
    Order::Most.put16(n, &mut bytes);
    put_hex(pending, writer, &bytes)
}

// Adds a number of four bytes in hexadecimal, most significant byte first.
fn put_digits32<W: Sink>(pending: &mut Pending<'_>, writer: &mut W, n: u32) -> Result<(), Failed>
    requires { CanCountFailure (W.calls writer.old) }
    ensures { Adds result (device_of W.calls W.bytes_taken writer.old writer.new) pending.old pending.new
        (encode_lower (spelling Most 4 n)) }
{
    let mut bytes = [0; 4];
    Order::Most.put32(n, &mut bytes);
    put_hex(pending, writer, &bytes)
}

// Adds a number of eight bytes in hexadecimal, most significant byte first.
fn put_digits64<W: Sink>(pending: &mut Pending<'_>, writer: &mut W, n: u64) -> Result<(), Failed>
    requires { CanCountFailure (W.calls writer.old) }
    ensures { Adds result (device_of W.calls W.bytes_taken writer.old writer.new) pending.old pending.new
        (encode_lower (spelling Most 8 n)) }
{
    let mut bytes = [0; 8];
    Order::Most.put64(n, &mut bytes);
    put_hex(pending, writer, &bytes)
}

// Adds a fraction as its two numbers in decimal with a slash between them. It is not reduced,
// because the numbers are the value.
fn put_fraction<W: Sink, I: Integer>(
    pending: &mut Pending<'_>,
    writer: &mut W,
    numerator: I,
    denominator: I,
) -> Result<(), Failed>
    requires { CanCountFailure (W.calls writer.old) }
    ensures { Adds result (device_of W.calls W.bytes_taken writer.old writer.new) pending.old pending.new
        (I.text numerator ++ codes "/" ++ I.text denominator) }
{
    put_ended(pending, writer, numerator, b"/")?;
    put_decimal(pending, writer, denominator)
}

// Adds one element: a byte, FLOAT or DOUBLE in hexadecimal, a whole number in decimal, and a
// fraction as its two numbers.
fn put_element<W: Sink>(
    pending: &mut Pending<'_>,
    writer: &mut W,
    element: Element,
) -> Result<(), Failed>
    requires { CanCountFailure (W.calls writer.old) }
    ensures { Adds result (device_of W.calls W.bytes_taken writer.old writer.new) pending.old pending.new (element_text element) }
{
    match element {
        Element::Byte(n) => put_hex(pending, writer, &[n]),
        Element::Short(n) => put_decimal(pending, writer, n),
        Element::Long(n) => put_decimal(pending, writer, n),
        Element::Rational(n, d) => put_fraction(pending, writer, n, d),
        Element::SShort(n) => put_decimal(pending, writer, n),
        Element::SLong(n) => put_decimal(pending, writer, n),
        Element::SRational(n, d) => put_fraction(pending, writer, n, d),
        Element::Float(n) => put_digits32(pending, writer, n),
        Element::Double(n) => put_digits64(pending, writer, n),
    }
}

// Adds a space and an element.
fn put_apart<W: Sink>(
    pending: &mut Pending<'_>,
    writer: &mut W,
    element: Element,
) -> Result<(), Failed>
    requires { CanCountFailure (W.calls writer.old) }
    ensures { Adds result (device_of W.calls W.bytes_taken writer.old writer.new) pending.old pending.new
        (codes " " ++ element_text element) }
{
    pending.put(writer, b" ")?;
    put_element(pending, writer, element)
}

// Adds a space and the element, for each element.
fn put_elements<W: Sink>(
    pending: &mut Pending<'_>,
    writer: &mut W,
    value: &Value,
) -> Result<(), Failed>
    requires { CanCountFailure (W.calls writer.old) }
    ensures { Adds result (device_of W.calls W.bytes_taken writer.old writer.new) pending.old pending.new
        (flat_map (λ e. codes " " ++ element_text e) value.now.elements) }
{
    for i in 0..value.count() {
        put_apart(pending, writer, value.element(i))?;
    }
    Ok(())
}

// Adds a space and the elements of the value: bytes without spaces between them, other elements
// with one. Nothing without an element.
fn put_value<W: Sink>(
    pending: &mut Pending<'_>,
    writer: &mut W,
    value: &Value,
) -> Result<(), Failed>
    requires { CanCountFailure (W.calls writer.old) }
    ensures { Adds result (device_of W.calls W.bytes_taken writer.old writer.new) pending.old pending.new
        (shown_elements value.now.kind value.now.elements) }
{
    match value.bytes() {
        Some(bytes) => put_shown(pending, writer, bytes),
        None => put_elements(pending, writer, value),
    }
}

// Adds the part of the line before the elements: the tag in hexadecimal, the type, the number of
// elements and a colon.
fn put_head<W: Sink>(
    pending: &mut Pending<'_>,
    writer: &mut W,
    tag: u16,
    value: &Value,
) -> Result<(), Failed>
    requires { CanCountFailure (W.calls writer.old) }
    ensures { Adds result (device_of W.calls W.bytes_taken writer.old writer.new) pending.old pending.new
        (encode_lower (spelling Most 2 tag) ++ codes " " ++ type_word value.now.kind ++ codes " " ++ decimal (length value.now.elements)
        ++ codes ":") }
{
    put_digits16(pending, writer, tag)?;
    pending.put(writer, type_word(value.kind()))?;
    put_ended(pending, writer, value.count(), b":")
}

// Adds the line of one field, as `0112 SHORT 1: 1` for Orientation.
#[tactic(auto, unfolding(crate::specs::Listing::field_line))]
fn put_field<W: Sink>(
    pending: &mut Pending<'_>,
    writer: &mut W,
    tag: u16,
    value: &Value,
) -> Result<(), Failed>
    requires { CanCountFailure (W.calls writer.old) }
    ensures { Adds result (device_of W.calls W.bytes_taken writer.old writer.new) pending.old pending.new
        (field_line (tag, value.now)) }
{
    put_head(pending, writer, tag, value)?;
    put_value(pending, writer, value)?;
    pending.put(writer, b"\n")
}

// Adds a line for each field, by ascending tag.
pub(crate) fn put_fields<W: Sink>(
    pending: &mut Pending<'_>,
    writer: &mut W,
    fields: &Fields,
) -> Result<(), Failed>
    requires { CanCountFailure (W.calls writer.old) }
    ensures { Adds result (device_of W.calls W.bytes_taken writer.old writer.new) pending.old pending.new (field_lines fields.now) }
{
    for i in 0..fields.len() {
        let (tag, value) = fields.at(i);
        put_field(pending, writer, tag, value)?;
    }
    Ok(())
}
