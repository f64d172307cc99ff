// Namespaces, and the URIs of resources.
ghost use Rattle.std.specs.Prelude.{◌≡◌, ◌≤◌, ◌++◌, ◌&&◌, ◌||◌, ◌==◌, ◌↔◌, true, not, nat_eq, codes, length, take, drop};
ghost use Rattle.std.specs.List.{list_all, starts_with, position_or_len};
ghost use Rattle.px_xmp_forms.specs.Languages.{is_letter, is_digit};
ghost use Rattle.px_xmp_forms.specs.Spaces.{is_known_space, is_space_octet, is_rare_space};
ghost use Rattle.px_xmp_forms.specs.Uris.{is_excluded, is_uri_octet, are_uri_octets, is_scheme_octet, is_scheme, IsAbsolute};
ghost use Rattle.px_xmp_forms.specs.Labels.{is_name_start, is_name_char, are_name_chars, name_at_end, before_name};
ghost use Rattle.px_xmp_forms.specs.calls.Ends.{before_start};

/// The namespace of RDF.
pub const RDF: &[u8] = b"http://www.w3.org/1999/02/22-rdf-syntax-ns#";

/// The namespace of `x:xmpmeta`.
pub const META: &[u8] = b"adobe:ns:meta/";

// The namespace of the prefix `xml`. Namespaces in XML 1.0, 3.
const XML: &[u8] = b"http://www.w3.org/XML/1998/namespace";

// The namespace of the prefix `xmlns`. Namespaces in XML 1.0, 3.
const XMLNS: &[u8] = b"http://www.w3.org/2000/xmlns/";

// Whether an octet is a letter of ASCII.
pub(crate) fn is_letter(octet: u8) -> bool
    ensures { result ≡ is_letter octet }
{
    (b'a' <= octet && octet <= b'z') || (b'A' <= octet && octet <= b'Z')
}

// Whether an octet is one of 0 to 9.
pub(crate) fn is_digit(octet: u8) -> bool
    ensures { result ≡ is_digit octet }
{
    b'0' <= octet && octet <= b'9'
}

// Whether a name can begin with an octet.
fn is_name_start(octet: u8) -> bool
    ensures { result ≡ is_name_start octet }
{
    is_letter(octet) || octet == b'_'
}

// Whether a name can contain an octet.
fn is_name_char(octet: u8) -> bool
    ensures { result ≡ is_name_char octet }
{
    is_name_start(octet) || is_digit(octet) || octet == b'-' || octet == b'.'
}

// Whether a URI can contain an octet, which is no quotation mark.
fn is_uri_octet(octet: u8) -> bool
    ensures { result ≡ is_uri_octet octet }
{
    b'!' <= octet && octet <= b'~' && !is_excluded(octet)
}

// Whether URIs do not contain an octet of ASCII.
fn is_excluded(octet: u8) -> bool
    ensures { result ≡ is_excluded octet }
{
    octet == b'<'
        || octet == b'>'
        || octet == b'"'
        || octet == b'{'
        || octet == b'}'
        || octet == b'|'
        || octet == b'\\'
        || octet == b'^'
        || octet == b'`'
}

// The offset in a namespace after its last octet that no name can contain.
fn last_part(space: &[u8]) -> usize
    ensures within { result ≤ length space.now }
    ensures chars { are_name_chars (drop result space.now) ≡ true }
    ensures name { name_at_end space.now ≡ name_at_end (drop result space.now) }
    ensures before { before_name space.now ≡ take result space.now ++ before_name (drop result space.now) }
{
    let mut start = space.len();
    while start > 0 {
        if !is_name_char(space[start - 1]) {
            return start;
        }
        start -= 1;
    }
    0
}

// The number of octets before the first that a name can begin with.
fn before_name(octets: &[u8]) -> usize
    ensures value { result ≡ before_start octets.now }
    ensures within { result ≤ length octets.now }
{
    for (n, octet) in octets.iter().enumerate() {
        if is_name_start(*octet) {
            return n;
        }
    }
    octets.len()
}

/// A namespace, before the longest name at its end, and this name, which is empty if there is none.
pub fn split_space<'a>(space: &'a [u8]) -> (&'a [u8], &'a [u8])
    ensures joined { result.0.now ++ result.1.now ≡ space.now }
    ensures before { result.0.now ≡ before_name space.now }
    ensures name { result.1.now ≡ name_at_end space.now }
{
    let start = last_part(space);
    let size = start + before_name(space.split_at(start).1);
    space.split_at(size)
}

// Whether a namespace that this reader compares can have an octet.
fn is_space_octet(octet: u8) -> bool
    ensures { result ≡ is_space_octet octet }
{
    is_uri_octet(octet) && octet != b'&' && octet != b'\''
}

// Whether a namespace that this reader compares can have each of these octets.
fn are_space_octets(space: &[u8]) -> bool
    ensures { result ≡ list_all is_space_octet space.now }
{
    for octet in space {
        if !is_space_octet(*octet) {
            return false;
        }
    }
    true
}

// Whether a namespace is RDF's, that of `x:xmpmeta`, or XML's.
fn is_known_space(space: &[u8]) -> bool
    ensures { result ≡ is_known_space space.now }
{
    space == RDF || space == META || space == XML
}

/// Whether a namespace, which is not empty, is for another reader: it has odd characters, could be part of a name, or begins
/// as one of XML's own.
pub fn is_rare_space(space: &[u8]) -> bool
    ensures { result ≡ is_rare_space space.now }
{
    if is_known_space(space) {
        return false;
    }
    if !are_space_octets(space) || split_space(space).0.is_empty() {
        return true;
    }
    space.starts_with(RDF) || space.starts_with(XML) || space.starts_with(XMLNS)
}

// The number of octets before the first colon, or of all octets if there is none.
fn scheme_len(uri: &[u8]) -> usize
    ensures within { result ≤ length uri.now }
    ensures first { result ≡ position_or_len (λ o. o == 58) uri.now }
{
    for (n, octet) in uri.iter().enumerate() {
        if *octet == b':' {
            return n;
        }
    }
    uri.len()
}

// Whether a scheme can contain an octet.
fn is_scheme_octet(octet: u8) -> bool
    ensures { result ≡ is_scheme_octet octet }
{
    is_letter(octet) || is_digit(octet) || octet == b'+' || octet == b'.' || octet == b'-'
}

// Whether a scheme can contain each octet.
fn are_scheme_octets(octets: &[u8]) -> bool
    ensures { result ≡ list_all is_scheme_octet octets.now }
{
    for octet in octets {
        if !is_scheme_octet(*octet) {
            return false;
        }
    }
    true
}

// Whether octets are a scheme. RFC 3986, 3.1.
fn is_scheme(octets: &[u8]) -> bool
    ensures { result ≡ is_scheme octets.now }
{
    match octets.split_first() {
        Some((first, rest)) => is_letter(*first) && are_scheme_octets(rest),
        None => false,
    }
}

// Whether an octet is no ampersand, or begins the reference of one.
fn is_no_stray(octet: u8, octets: &[u8]) -> bool
    ensures { result ≡ (not (octet == 38) || starts_with nat_eq octets.now (codes "&amp;")) }
{
    octet != b'&' || octets.starts_with(b"&amp;")
}

// Whether octets are those of a URI as the value of an attribute has them, in which `&` is `&amp;`.
fn are_uri_octets(octets: &[u8]) -> bool
    ensures { result ≡ are_uri_octets octets.now }
{
    for (n, octet) in octets.iter().enumerate() {
        if !is_uri_octet(*octet) {
            return false;
        }
        if !is_no_stray(*octet, octets.split_at(n).1) {
            return false;
        }
    }
    true
}

/// Whether the value of an attribute is an absolute URI of ASCII.
pub fn is_absolute(value: &[u8]) -> bool
    ensures { result ≡ true ↔ IsAbsolute value.now }
{
    let (scheme, rest) = value.split_at(scheme_len(value));
    if !rest.starts_with(b":") {
        return false;
    }
    is_scheme(scheme) && are_uri_octets(value)
}
