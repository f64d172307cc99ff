// References. XML 1.0, 4.1 and 4.6.
ghost use Rattle.std.specs.Prelude.{◌≡◌, ◌<◌, ◌≤◌, ◌+◌, length, drop, option_map, IfSome};
ghost use Rattle.px_xmp_text.specs.References.{digit_value, digits, character_reference, entity_reference, reference, digits_view};
ghost use Rattle.px_xmp_text.specs.References.{reference_view};

use crate::characters::is_char;

/// The greatest number of a character.
const MOST: u32 = 0x10FFFF;

// The number that digits mean, and how many they are.
#[derive(Clone, Copy, Debug, PartialEq, Eq)]
struct Digits {
    number: u32,
    size: usize,
}

/// A reference: the character that it means, and its length.
#[derive(Clone, Copy, Debug, PartialEq, Eq)]
pub struct Reference {
    /// The character.
    pub character: char,
    /// The number of octets, from `&` to `;`.
    pub size: usize,
}

// The value of a hexadecimal digit. None: the octet is no such digit.
fn digit_value(octet: u8) -> Option<u32>
    ensures value { result ≡ digit_value octet }
    ensures bound { IfSome result (λ d. d < 16) }
{
    match octet {
        b'0'..=b'9' => Some(u32::from(octet - b'0')),
        b'a'..=b'f' => Some(u32::from(octet - b'a') + 10),
        b'A'..=b'F' => Some(u32::from(octet - b'A') + 10),
        _ => None,
    }
}

// The number in the digits before the first semicolon. None: there are none, or no character has
// the number.
#[tactic(auto, unfolding(crate::specs::References::digits))]
fn read_digits(octets: &[u8], base: u32) -> Option<Digits>
    requires { base ≤ 16 }
    ensures value { option_map digits_view result ≡ digits base 0 0 octets.now }
    ensures bound { IfSome result (λ n. n.size < length octets.now) }
{
    let mut number = 0u32;
    for (i, octet) in octets.iter().enumerate() {
        if *octet == b';' {
            if i == 0 {
                return None;
            }
            return Some(Digits { number, size: i });
        }
        let Some(digit) = digit_value(*octet) else {
            return None;
        };
        if base <= digit {
            return None;
        }
        number = number * base + digit;
        if MOST < number {
            return None;
        }
    }
    None
}

// The character reference at the start, whose first `head` octets precede its digits. None: there
// is none.
#[tactic(auto, unfolding(crate::specs::References::character_reference))]
fn character_reference(octets: &[u8], head: usize, base: u32) -> Option<Reference>
    requires base { base ≤ 16 }
    requires inside { head ≤ length octets.now }
    requires short { head ≤ 3 }
    ensures value { option_map reference_view result ≡ character_reference head base octets.now }
    ensures bound { IfSome result (λ r. (1 ≤ r.size) × (r.size ≤ length octets.now)) }
{
    let Some(digits) = read_digits(octets.split_at(head).1, base) else {
        return None;
    };
    if !is_char(digits.number) {
        return None;
    }
    match char::from_u32(digits.number) {
        Some(character) => Some(Reference {
            character,
            size: head + digits.size + 1,
        }),
        None => None,
    }
}

// A reference to this character of `size` octets, always Some.
fn reference_to(character: char, size: usize) -> Option<Reference>
    ensures { result ≡ Some (record { character = character; size = size }) }
{
    Some(Reference { character, size })
}

// The reference at the start to one of the five entities that XML defines (4.6). None: there is
// none.
#[tactic(auto, unfolding(crate::specs::References::entity_reference))]
fn entity_reference(octets: &[u8]) -> Option<Reference>
    ensures value { option_map reference_view result ≡ entity_reference octets.now }
    ensures bound { IfSome result (λ r. (1 ≤ r.size) × (r.size ≤ length octets.now)) }
{
    if octets.starts_with(b"&amp;") {
        return reference_to('&', 5);
    }
    if octets.starts_with(b"&lt;") {
        return reference_to('<', 4);
    }
    if octets.starts_with(b"&gt;") {
        return reference_to('>', 4);
    }
    if octets.starts_with(b"&quot;") {
        return reference_to('"', 6);
    }
    if octets.starts_with(b"&apos;") {
        return reference_to('\'', 6);
    }
    None
}

/// The reference at the start of some octets: to one of the five entities that XML defines, or by the number of a
/// character that XML allows. None if they begin with no such reference. It allocates nothing. XML 1.0, 4.1 and 4.6.
#[tactic(auto, unfolding(crate::specs::References::reference))]
pub fn read_reference(octets: &[u8]) -> Option<Reference>
    ensures value { option_map reference_view result ≡ reference octets.now }
    ensures bound { IfSome result (λ r. (1 ≤ r.size) × (r.size ≤ length octets.now)) }
{
    if let Some(entity) = entity_reference(octets) {
        return Some(entity);
    }
    if octets.starts_with(b"&#x") {
        return character_reference(octets, 3, 16);
    }
    if octets.starts_with(b"&#") {
        return character_reference(octets, 2, 10);
    }
    None
}
