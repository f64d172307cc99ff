// The characters of XML. XML 1.0, 2.2.
ghost use Rattle.std.specs.Prelude.{◌≡◌, ◌≤◌, length, take, drop, MatchOption};
ghost use Rattle.std.specs.Str.{StartsWithNoChar};
ghost use Rattle.px_xmp_text.specs.References.{is_char};
ghost use Rattle.px_xmp_text.specs.Characters.{AreCharacters, IsFirstBad};
ghost use Rattle.px_xmp_text.specs.calls.Forbidden.{IsForbidden};
ghost use Rattle.px_xmp_text.specs.calls.Usual.{is_usual, are_usual};

/// Whether XML allows the character with this number. XML 1.0, 2.2.
pub fn is_char(number: u32) -> bool
    ensures { result ≡ is_char number }
{
    number == 0x09
        || number == 0x0A
        || number == 0x0D
        || (0x20 <= number && number <= 0xD7FF)
        || (0xE000 <= number && number <= 0xFFFD)
        || (0x10000 <= number && number <= 0x10FFFF)
}

// The longest text at the start, in UTF-8.
fn text_at_start(octets: &[u8]) -> &str
    ensures start { result.now ≡ take (length result.now) octets.now }
    ensures within { length result.now ≤ length octets.now }
    ensures none { StartsWithNoChar (drop (length result.now) octets.now) }
{
    match str::from_utf8(octets) {
        Ok(text) => text,
        Err(error) => match str::from_utf8(octets.split_at(error.valid_up_to()).0) {
            Ok(text) => text,
            Err(_) => "",
        },
    }
}

// Whether an octet is in no character that XML forbids, after another octet.
fn is_usual(last: u8, octet: u8) -> bool
    ensures { result ≡ is_usual last octet }
{
    (octet >= 0x20 || octet == b'\t' || octet == b'\n' || octet == b'\r')
        && !(last == 0xEF && octet == 0xBF)
}

// Whether each octet is usual after the one before it (`is_usual`).
fn are_usual(octets: &[u8]) -> bool
    ensures { result ≡ are_usual 0 octets.now }
{
    // without an end before the last octet, so that many are looked at at once
    let mut all = true;
    let mut last = 0;
    for octet in octets {
        all &= is_usual(last, *octet);
        last = *octet;
    }
    all
}

// The offset of the first character that XML does not allow, by a look at each character. None: all
// are allowed.
fn search_forbidden(text: &str) -> Option<usize>
    ensures { MatchOption result (AreCharacters text.now) (IsForbidden text.now) }
{
    for (at, character) in text.char_indices() {
        if !is_char(u32::from(character)) {
            return Some(at);
        }
    }
    None
}

// The offset of the first character that XML does not allow. Most texts have none, which a look at each octet shows.
fn first_forbidden(text: &str) -> Option<usize>
    ensures { MatchOption result (AreCharacters text.now) (IsForbidden text.now) }
{
    if are_usual(text.as_bytes()) {
        return None;
    }
    search_forbidden(text)
}

/// The offset of the first place where no character that XML allows is, in UTF-8. None: the octets are such characters. It
/// allocates nothing. XML 1.0, 2.2 and 4.3.3.
pub fn first_bad_character(octets: &[u8]) -> Option<usize>
    ensures { MatchOption result (AreCharacters octets.now) (IsFirstBad octets.now) }
{
    let text = text_at_start(octets);
    if let Some(at) = first_forbidden(text) {
        return Some(at);
    }
    if text.len() == octets.len() {
        return None;
    }
    Some(text.len())
}
