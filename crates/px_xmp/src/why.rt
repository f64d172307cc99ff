// Why no mark begins at a place: of XML, or of names that are for another reader.
ghost use Rattle.std.specs.Prelude.{◌≡◌, true};
ghost use Rattle.px_xmp.specs.Refusals.{is_unread, IsMarkCause};

use px_xmp_forms::Cause;
use px_xmp_marks::{len_before, next_attribute, read_name};
use px_xmp_text::{TextKind, first_fault};

// The octets from an offset on.
fn after(octets: &[u8], offset: usize) -> &[u8] {
    octets.split_at(offset.min(octets.len())).1
}

// Whether an octet of ASCII ends a name.
fn ends_name(octet: u8) -> bool {
    octet <= b' '
        || octet == b'='
        || octet == b'/'
        || octet == b'>'
        || octet == b'<'
        || octet == b'?'
        || octet == b'"'
        || octet == b'\''
}

// Whether a name is at the start that is not of ASCII.
fn has_rare_name(octets: &[u8]) -> bool {
    for octet in octets {
        if *octet >= 0x80 {
            return true;
        }
        if ends_name(*octet) {
            return false;
        }
    }
    false
}

// The octets after white space.
fn after_space(octets: &[u8]) -> &[u8] {
    for (n, octet) in octets.iter().enumerate() {
        if *octet != b' ' && *octet != b'\t' && *octet != b'\n' && *octet != b'\r' {
            return octets.split_at(n).1;
        }
    }
    b""
}

// Whether the quoted value at the start has an `&` that begins no reference.
fn has_bad_value(octets: &[u8]) -> bool {
    if octets.is_empty() || (octets[0] != b'"' && octets[0] != b'\'') {
        return false;
    }
    let rest = octets.split_at(1).1;
    let len = len_before(rest, octets[0]);
    let value = rest.split_at(len).0;
    first_fault(value, TextKind::AttributeValue).is_some()
}

// Why no attribute begins after some octets of a tag.
fn attribute_cause(octets: &[u8]) -> Cause
    ensures { is_unread result ≡ true }
{
    let name = after_space(octets);
    if has_rare_name(name) {
        return Cause::RareName;
    }
    let equals = after(name, len_before(name, b'='));
    if has_bad_value(after_space(after(equals, 1))) {
        return Cause::BadReference;
    }
    Cause::BadMarkup
}

// What follows the attributes of a tag that can be read.
fn unread_rest(octets: &[u8]) -> &[u8] {
    let mut rest = octets;
    while let Some(next) = next_attribute(rest) {
        rest = next.rest;
    }
    rest
}

// Why no tag begins with what follows `<` or `</`.
fn tag_cause(octets: &[u8]) -> Cause
    ensures { is_unread result ≡ true }
{
    if has_rare_name(octets) {
        return Cause::RareName;
    }
    match read_name(octets) {
        Some(name) => attribute_cause(unread_rest(after(octets, name.size))),
        None => Cause::BadMarkup,
    }
}

// Why no character data is at the start.
fn data_cause(octets: &[u8]) -> Cause
    ensures { is_unread result ≡ true }
{
    let data = octets.split_at(len_before(octets, b'<')).0;
    match first_fault(data, TextKind::CharacterData) {
        Some(_) => Cause::BadReference,
        None => Cause::BadMarkup,
    }
}

// Why no mark begins with some octets, which are not empty.
pub(crate) fn mark_cause(octets: &[u8]) -> Cause
    ensures { IsMarkCause octets.now result }
{
    if !octets.starts_with(b"<") {
        return data_cause(octets);
    }
    if octets.starts_with(b"<!DOCTYPE") {
        return Cause::DocumentType;
    }
    if octets.starts_with(b"<!") {
        return Cause::BadMarkup;
    }
    let is_other = octets.starts_with(b"</") || octets.starts_with(b"<?");
    tag_cause(after(octets, if is_other { 2 } else { 1 }))
}
