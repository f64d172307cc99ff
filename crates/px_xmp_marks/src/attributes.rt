// Attributes. XML 1.0, productions 10, 25 and 41.
ghost use Rattle.std.specs.Prelude.{◌≡◌, ◌≤◌, ◌+◌, true, Some, length, option_map, IfSome};
ghost use Rattle.px_xmp_marks.specs.Reading.{eq_len, value_len, quoted_len, att_value, attribute, attribute_view};

use crate::names::{Name, begins_with, is_space, read_name, space_len};
use memchr::{memchr2, memchr3};
use px_xmp_text::{TextKind, first_fault};

/// An attribute, as it is written.
#[derive(Clone, Copy, Debug, PartialEq, Eq)]
pub struct Attribute<'a> {
    /// Its name.
    pub name: Name<'a>,
    /// What is between its quotation marks. It has a text as the value of an attribute.
    pub value: &'a [u8],
    /// The length of the whole attribute, with both quotation marks.
    pub size: usize,
}

// Whether an equals sign is at the start, and no white space follows it.
fn begins_with_eq(octets: &[u8]) -> bool
    ensures eq { result ≡ true → eq_len octets.now ≡ Some 1 }
    ensures some { result ≡ true → 1 ≤ length octets.now }
{
    if octets.len() < 2 {
        return false;
    }
    if octets[0] != b'=' {
        return false;
    }
    !is_space(octets[1])
}

// The length of the equals sign at the start, with the white space around it. None: there is no
// sign.
#[tactic(auto, unfolding(crate::specs::Reading::eq_len))]
pub(crate) fn eq_len(octets: &[u8]) -> Option<usize>
    ensures value { result ≡ eq_len octets.now }
    ensures within { IfSome result (λ n. n ≤ length octets.now) }
{
    if begins_with_eq(octets) {
        return Some(1);
    }
    let before = space_len(octets);
    let rest = octets.split_at(before).1;
    if !begins_with(rest, b'=') {
        return None;
    }
    Some(before + 1 + space_len(rest.split_at(1).1))
}

// The number of octets before the first quotation mark of this kind. None: there is none, or `<` precedes it.
fn quoted_len(octets: &[u8], quote: u8) -> Option<usize>
    ensures value { result ≡ quoted_len quote 0 octets.now }
    ensures within { IfSome result (λ n. n + 1 ≤ length octets.now) }
{
    let Some(n) = memchr2(quote, b'<', octets) else {
        return None;
    };
    if octets[n] != quote {
        return None;
    }
    Some(n)
}

// The length of the value before the first quotation mark of this kind. None: there is none, or `<` or `&` precedes it.
fn plain_value_len(octets: &[u8], quote: u8) -> Option<usize>
    ensures value { IfSome result (λ n. value_len quote octets.now ≡ Some n) }
    ensures within { IfSome result (λ n. n + 1 ≤ length octets.now) }
{
    px_xmp_text::laws::no_fault_unless_reference();
    let Some(n) = memchr3(quote, b'<', b'&', octets) else {
        return None;
    };
    if octets[n] != quote {
        return None;
    }
    Some(n)
}

// The length of the value before the first quotation mark of this kind, if it has a text, which may have references.
#[tactic(auto, unfolding(crate::specs::Reading::value_len))]
#[inline(never)]
fn whole_value_len(octets: &[u8], quote: u8) -> Option<usize>
    ensures value { result ≡ value_len quote octets.now }
    ensures within { IfSome result (λ n. n + 1 ≤ length octets.now) }
{
    let Some(len) = quoted_len(octets, quote) else {
        return None;
    };
    match first_fault(octets.split_at(len).0, TextKind::AttributeValue) {
        Some(_) => None,
        None => Some(len),
    }
}

// The length of the value before the first quotation mark of this kind, if it has a text. Most values have no reference, and one
// look is enough.
fn value_len(octets: &[u8], quote: u8) -> Option<usize>
    ensures value { result ≡ value_len quote octets.now }
    ensures within { IfSome result (λ n. n + 1 ≤ length octets.now) }
{
    match plain_value_len(octets, quote) {
        Some(len) => Some(len),
        None => whole_value_len(octets, quote),
    }
}

// The quoted value at the start, without its quotation marks. None: there is none, or it has no
// text.
#[tactic(auto, unfolding(crate::specs::Reading::att_value))]
pub(crate) fn att_value<'a>(octets: &'a [u8]) -> Option<&'a [u8]>
    ensures value { option_map (λ v. v.now) result ≡ att_value octets.now }
    ensures within { IfSome result (λ v. length v.now + 2 ≤ length octets.now) }
{
    if octets.is_empty() {
        return None;
    }
    let quote = octets[0];
    if quote != b'"' && quote != b'\'' {
        return None;
    }
    let rest = octets.split_at(1).1;
    let Some(len) = value_len(rest, quote) else {
        return None;
    };
    Some(rest.split_at(len).0)
}

/// The attribute at the start of some octets. None if they begin with no attribute whose name is of ASCII. It allocates
/// nothing. XML 1.0, production 41.
#[tactic(auto, unfolding(crate::specs::Reading::attribute))]
pub fn read_attribute<'a>(octets: &'a [u8]) -> Option<Attribute<'a>>
    ensures value { option_map attribute_view result ≡ attribute octets.now }
    ensures within { IfSome result (λ a. (1 ≤ a.size) × (a.size ≤ length octets.now)) }
{
    let Some(name) = read_name(octets) else {
        return None;
    };
    let rest = octets.split_at(name.size).1;
    let Some(eq) = eq_len(rest) else {
        return None;
    };
    let Some(value) = att_value(rest.split_at(eq).1) else {
        return None;
    };
    Some(Attribute {
        name,
        value,
        size: name.size + eq + (value.len() + 2),
    })
}
