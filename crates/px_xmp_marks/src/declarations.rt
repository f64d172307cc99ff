// The XML declaration. XML 1.0, 2.8, 2.9 and 4.3.3.
ghost use Rattle.std.specs.Prelude.{◌≡◌, ◌≤◌, ◌+◌, length, option_map, codes, IfSome};
ghost use Rattle.px_xmp_marks.specs.Declarations.{every, is_digit, is_letter, is_version, is_encoding_char, is_encoding, is_standalone};
ghost use Rattle.px_xmp_marks.specs.Declarations.{part, part_view, standalone_part, encoding_part, version_part, size_of, value_of};
ghost use Rattle.px_xmp_marks.specs.Declarations.{end_len, rest_len, declaration, declaration_view};

use crate::attributes::{att_value, eq_len};
use crate::names::space_len;

/// The XML declaration, as it is written.
#[derive(Clone, Copy, Debug, PartialEq, Eq)]
pub struct Declaration<'a> {
    /// The name of the encoding. None: none is named.
    pub encoding: Option<&'a [u8]>,
    /// The length of the declaration.
    pub size: usize,
}

// A part of the declaration: its value, and its length with the white space before it.
#[derive(Clone, Copy, Debug, PartialEq, Eq)]
struct Info<'a> {
    value: &'a [u8],
    size: usize,
}

// Whether an octet is one of 0 to 9.
fn is_digit(octet: u8) -> bool
    ensures { result ≡ is_digit octet }
{
    b'0' <= octet && octet <= b'9'
}

// Whether an octet is a letter of ASCII.
fn is_letter(octet: u8) -> bool
    ensures { result ≡ is_letter octet }
{
    (b'a' <= octet && octet <= b'z') || (b'A' <= octet && octet <= b'Z')
}

// Whether the name of an encoding may contain an octet after its first. Production 81.
fn is_encoding_char(octet: u8) -> bool
    ensures { result ≡ is_encoding_char octet }
{
    is_letter(octet) || is_digit(octet) || octet == b'.' || octet == b'_' || octet == b'-'
}

// Whether each octet is a digit.
fn are_digits(octets: &[u8]) -> bool
    ensures { result ≡ every is_digit octets.now }
{
    for octet in octets {
        if !is_digit(*octet) {
            return false;
        }
    }
    true
}

// Whether the name of an encoding can contain each octet.
fn are_encoding_chars(octets: &[u8]) -> bool
    ensures { result ≡ every is_encoding_char octets.now }
{
    for octet in octets {
        if !is_encoding_char(*octet) {
            return false;
        }
    }
    true
}

// Whether a value is the number of a version.
fn is_version(value: &[u8]) -> bool
    ensures { result ≡ is_version value.now }
{
    if value.len() < 3 {
        return false;
    }
    let (head, rest) = value.split_at(3);
    head[0] == b'1' && head[1] == b'.' && is_digit(head[2]) && are_digits(rest)
}

// Whether a value is the name of an encoding.
fn is_encoding(value: &[u8]) -> bool
    ensures { result ≡ is_encoding value.now }
{
    if value.is_empty() {
        return false;
    }
    let (head, rest) = value.split_at(1);
    is_letter(head[0]) && are_encoding_chars(rest)
}

// Whether a value is `yes` or `no`.
fn is_standalone(value: &[u8]) -> bool
    ensures { result ≡ is_standalone value.now }
{
    if value.len() == 2 {
        return value[0] == b'n' && value[1] == b'o';
    }
    value.len() == 3 && value[0] == b'y' && value[1] == b'e' && value[2] == b's'
}

// The part of a declaration at the start that has this name, with its value. None: there is none.
#[tactic(auto, unfolding(crate::specs::Declarations::part))]
fn read_part<'a>(octets: &'a [u8], name: &[u8]) -> Option<Info<'a>>
    ensures value { option_map part_view result ≡ part name.now octets.now }
    ensures within { IfSome result (λ i. i.size ≤ length octets.now) }
{
    let space = space_len(octets);
    if space == 0 {
        return None;
    }
    let after = octets.split_at(space).1;
    if !after.starts_with(name) {
        return None;
    }
    let rest = after.split_at(name.len()).1;
    let Some(eq) = eq_len(rest) else {
        return None;
    };
    let Some(value) = att_value(rest.split_at(eq).1) else {
        return None;
    };
    Some(Info {
        value,
        size: space + name.len() + eq + (value.len() + 2),
    })
}

// The version at the start. None: there is none.
#[tactic(auto, unfolding(crate::specs::Declarations::checked))]
fn read_version<'a>(octets: &'a [u8]) -> Option<Info<'a>>
    ensures value { option_map part_view result ≡ version_part octets.now }
    ensures within { IfSome result (λ i. i.size ≤ length octets.now) }
{
    let Some(info) = read_part(octets, b"version") else {
        return None;
    };
    if !is_version(info.value) {
        return None;
    }
    Some(info)
}

// The encoding at the start. None: there is none.
#[tactic(auto, unfolding(crate::specs::Declarations::checked))]
fn read_encoding<'a>(octets: &'a [u8]) -> Option<Info<'a>>
    ensures value { option_map part_view result ≡ encoding_part octets.now }
    ensures within { IfSome result (λ i. i.size ≤ length octets.now) }
{
    let Some(info) = read_part(octets, b"encoding") else {
        return None;
    };
    if !is_encoding(info.value) {
        return None;
    }
    Some(info)
}

// The standalone document declaration at the start.
#[tactic(auto, unfolding(crate::specs::Declarations::checked))]
fn standalone_len(octets: &[u8]) -> usize
    ensures value { result ≡ size_of (standalone_part octets.now) }
    ensures within { result ≤ length octets.now }
{
    let Some(info) = read_part(octets, b"standalone") else {
        return 0;
    };
    if !is_standalone(info.value) {
        return 0;
    }
    info.size
}

// The length of the end of a declaration at the start. None: it doesn't end here.
#[tactic(auto, unfolding(crate::specs::Declarations::end_len))]
fn end_len(octets: &[u8]) -> Option<usize>
    ensures value { result ≡ end_len octets.now }
    ensures within { IfSome result (λ n. n ≤ length octets.now) }
{
    let space = space_len(octets);
    if !octets.split_at(space).1.starts_with(b"?>") {
        return None;
    }
    Some(space + 2)
}

// The length of what follows the encoding, to the end of the declaration. None: it has no end
// there.
#[tactic(auto, unfolding(crate::specs::Declarations::rest_len))]
fn rest_len(octets: &[u8]) -> Option<usize>
    ensures value { result ≡ rest_len octets.now }
    ensures within { IfSome result (λ n. n ≤ length octets.now) }
{
    let size = standalone_len(octets);
    let Some(end) = end_len(octets.split_at(size).1) else {
        return None;
    };
    Some(size + end)
}

/// The XML declaration at the start of some octets. None if they begin with none. It allocates nothing. XML 1.0,
/// production 23.
#[tactic(auto, unfolding(crate::specs::Declarations::declaration))]
pub fn read_declaration<'a>(octets: &'a [u8]) -> Option<Declaration<'a>>
    ensures value { option_map declaration_view result ≡ declaration octets.now }
    ensures within { IfSome result (λ d. (1 ≤ d.size) × (d.size ≤ length octets.now)) }
{
    if !octets.starts_with(b"<?xml") {
        return None;
    }
    let rest = octets.split_at(5).1;
    let Some(version) = read_version(rest) else {
        return None;
    };
    let after = rest.split_at(version.size).1;
    match read_encoding(after) {
        Some(encoding) => match rest_len(after.split_at(encoding.size).1) {
            Some(len) => Some(Declaration {
                encoding: Some(encoding.value),
                size: 5 + version.size + (encoding.size + len),
            }),
            None => None,
        },
        None => match rest_len(after) {
            Some(len) => Some(Declaration {
                encoding: None,
                size: 5 + version.size + len,
            }),
            None => None,
        },
    }
}
