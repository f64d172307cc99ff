// White space and names. XML 1.0, 2.3; Namespaces in XML 1.0, 3 and 4.
ghost use Rattle.std.specs.Prelude.{◌≡◌, ◌≤◌, ◌<◌, ◌+◌, suc, true, false, length, drop, option_map, IfSome};
ghost use Rattle.px_xmp_marks.specs.Reading.{is_space, is_name_start, is_name_char, space_len, name_len, ncname, begins_with};
ghost use Rattle.px_xmp_marks.specs.Reading.{name, name_view};

/// A name, as it is written.
#[derive(Clone, Copy, Debug, PartialEq, Eq)]
pub struct Name<'a> {
    /// What precedes the colon. It is empty if there is no colon.
    pub prefix: &'a [u8],
    /// What follows the colon, or the whole name.
    pub local: &'a [u8],
    /// The length of the whole name.
    pub size: usize,
}

// A plus at the place of each octet of white space, and a point at every other place.
static SPACES: [u8; 256] = *b"\
    .........++..+..................\
    +...............................\
    ................................\
    ................................\
    ................................\
    ................................\
    ................................\
    ................................";

// Whether an octet is white space.
pub(crate) fn is_space(octet: u8) -> bool
    ensures { result ≡ is_space octet }
{
    SPACES[octet as usize] == b'+'
}

// Whether a name can begin with an octet.
fn is_name_start(octet: u8) -> bool
    ensures { result ≡ is_name_start octet }
{
    (b'a' <= octet && octet <= b'z') || (b'A' <= octet && octet <= b'Z') || octet == b'_'
}

// Each octet that a name can contain is at its own place, and a comma at every other place.
static NAME_CHARS: [u8; 256] = *b"\
    ,,,,,,,,,,,,,,,,,,,,,,,,,,,,,,,,\
    ,,,,,,,,,,,,,-.,0123456789,,,,,,\
    ,ABCDEFGHIJKLMNOPQRSTUVWXYZ,,,,_\
    ,abcdefghijklmnopqrstuvwxyz,,,,,\
    ,,,,,,,,,,,,,,,,,,,,,,,,,,,,,,,,\
    ,,,,,,,,,,,,,,,,,,,,,,,,,,,,,,,,\
    ,,,,,,,,,,,,,,,,,,,,,,,,,,,,,,,,\
    ,,,,,,,,,,,,,,,,,,,,,,,,,,,,,,,,";

// Whether a name can contain an octet.
fn is_name_char(octet: u8) -> bool
    ensures { result ≡ is_name_char octet }
{
    NAME_CHARS[octet as usize] != b','
}

// Whether white space is at a place.
fn is_space_at(octets: &[u8], at: usize) -> bool
    requires { at < length octets.now }
    ensures stops { result ≡ false → space_len (drop at octets.now) ≡ 0 }
    ensures goes_on { result ≡ true → space_len (drop at octets.now) ≡ suc (space_len (drop (at + 1) octets.now)) }
{
    is_space(octets[at])
}

// How many of four octets from a place on are white space, before the first that is none.
fn four_spaces(octets: &[u8], at: usize) -> usize
    requires { at + 4 ≤ length octets.now }
    ensures few { result < 4 → space_len (drop at octets.now) ≡ result }
    ensures all { result ≡ 4 → space_len (drop at octets.now) ≡ 4 + space_len (drop (at + 4) octets.now) }
    ensures within { result ≤ 4 }
{
    if !is_space_at(octets, at) {
        return 0;
    }
    if !is_space_at(octets, at + 1) {
        return 1;
    }
    if !is_space_at(octets, at + 2) {
        return 2;
    }
    if !is_space_at(octets, at + 3) {
        return 3;
    }
    4
}

// The number of octets of white space at the start, one after another.
fn short_space_len(octets: &[u8]) -> usize
    ensures value { result ≡ space_len octets.now }
    ensures within { result ≤ length octets.now }
{
    for (n, octet) in octets.iter().enumerate() {
        if !is_space(*octet) {
            return n;
        }
    }
    octets.len()
}

// The number of octets of white space at the start.
pub(crate) fn space_len(octets: &[u8]) -> usize
    ensures value { result ≡ space_len octets.now }
    ensures within { result ≤ length octets.now }
{
    let mut at = 0;
    while octets.len() - at >= 4 {
        let len = four_spaces(octets, at);
        if len < 4 {
            return at + len;
        }
        at += 4;
    }
    at + short_space_len(octets.split_at(at).1)
}

// Whether a name can contain the octet at a place.
fn is_char_at(octets: &[u8], at: usize) -> bool
    requires { at < length octets.now }
    ensures stops { result ≡ false → name_len (drop at octets.now) ≡ 0 }
    ensures goes_on { result ≡ true → name_len (drop at octets.now) ≡ suc (name_len (drop (at + 1) octets.now)) }
{
    is_name_char(octets[at])
}

// How many of four octets from a place on a name can contain, before the first that it can not.
fn four_len(octets: &[u8], at: usize) -> usize
    requires { at + 4 ≤ length octets.now }
    ensures few { result < 4 → name_len (drop at octets.now) ≡ result }
    ensures all { result ≡ 4 → name_len (drop at octets.now) ≡ 4 + name_len (drop (at + 4) octets.now) }
    ensures within { result ≤ 4 }
{
    if !is_char_at(octets, at) {
        return 0;
    }
    if !is_char_at(octets, at + 1) {
        return 1;
    }
    if !is_char_at(octets, at + 2) {
        return 2;
    }
    if !is_char_at(octets, at + 3) {
        return 3;
    }
    4
}

// The number of octets at the start that a name can contain, one after another.
fn short_len(octets: &[u8]) -> usize
    ensures value { result ≡ name_len octets.now }
    ensures within { result ≤ length octets.now }
{
    for (n, octet) in octets.iter().enumerate() {
        if !is_name_char(*octet) {
            return n;
        }
    }
    octets.len()
}

// The number of octets at the start that a name can contain.
fn name_len(octets: &[u8]) -> usize
    ensures value { result ≡ name_len octets.now }
    ensures within { result ≤ length octets.now }
{
    let mut at = 0;
    while octets.len() - at >= 4 {
        let len = four_len(octets, at);
        if len < 4 {
            return at + len;
        }
        at += 4;
    }
    at + short_len(octets.split_at(at).1)
}

// The length of the name without a colon at the start. None: there is none.
#[tactic(auto, unfolding(crate::specs::Reading::ncname))]
pub(crate) fn ncname_len(octets: &[u8]) -> Option<usize>
    ensures value { result ≡ ncname octets.now }
    ensures within { IfSome result (λ n. n ≤ length octets.now) }
{
    if octets.is_empty() {
        return None;
    }
    if !is_name_start(octets[0]) {
        return None;
    }
    Some(name_len(octets))
}

// Whether octets begin with `octet`.
pub(crate) fn begins_with(octets: &[u8], octet: u8) -> bool
    ensures { result ≡ begins_with octet octets.now }
{
    !octets.is_empty() && octets[0] == octet
}

/// The name at the start of some octets. None if they begin with no name, or a colon is followed by none. It
/// allocates nothing. Namespaces in XML 1.0, productions 7 to 11.
#[tactic(auto, unfolding(crate::specs::Reading::name))]
pub fn read_name<'a>(octets: &'a [u8]) -> Option<Name<'a>>
    ensures value { option_map name_view result ≡ name octets.now }
    ensures within { IfSome result (λ n. n.size ≤ length octets.now) }
{
    let Some(len) = ncname_len(octets) else {
        return None;
    };
    let (first, rest) = octets.split_at(len);
    if !begins_with(rest, b':') {
        return Some(Name {
            prefix: rest.split_at(0).0,
            local: first,
            size: len,
        });
    }
    let after = rest.split_at(1).1;
    let Some(more) = ncname_len(after) else {
        return None;
    };
    Some(Name {
        prefix: first,
        local: after.split_at(more).0,
        size: len + 1 + more,
    })
}
