// Languages. RFC 3066, 2.1.
ghost use Rattle.std.specs.Prelude.{◌≡◌, ◌≤◌, ◌<◌, ◌++◌, ◌∷◌, ◌⊎◌, ◌↔◌, [], ℕ, List, true, length, take, IfSome, MatchOption};
ghost use Rattle.std.specs.List.{list_all, prefix_len};
ghost use Rattle.px_xmp_forms.specs.Languages.{language_limit, is_part_octet, IsPart, EndsPart, IsLanguage};

use crate::spaces::{is_digit, is_letter};

// The most characters of a language.
pub(crate) const LANGUAGE_LIMIT: usize = 100;

// The most characters of a part.
const PART_LIMIT: usize = 8;

// Whether a part of a language, the first or another, can contain an octet.
fn is_part_octet(is_first: bool, octet: u8) -> bool
    ensures { result ≡ is_part_octet is_first octet }
{
    is_letter(octet) || (!is_first && is_digit(octet))
}

// The number of octets at the start that a part can contain.
fn part_len(octets: &[u8], is_first: bool) -> usize
    ensures within { result ≤ length octets.now }
    ensures part { list_all (is_part_octet is_first) (take result octets.now) ≡ true }
    ensures longest { result ≡ prefix_len (is_part_octet is_first) octets.now }
{
    for (n, octet) in octets.iter().enumerate() {
        if !is_part_octet(is_first, *octet) {
            return n;
        }
    }
    octets.len()
}

// What follows the part at the start. None: there is none.
fn after_part<'a>(octets: &'a [u8], is_first: bool) -> Option<&'a [u8]>
    ensures part { IfSome result (λ rest. (part : List ℕ) × IsPart is_first part × (octets.now ≡ part ++ rest.now)) }
    ensures shorter { IfSome result (λ rest. length rest.now ≤ length octets.now) }
    ensures longest { (part rest : List ℕ) → IsPart is_first part → EndsPart rest → octets.now ≡ part ++ rest →
        MatchOption result ⊥ (λ after. after.now ≡ rest) }
{
    let len = part_len(octets, is_first);
    if len == 0 {
        return None;
    }
    if len > PART_LIMIT {
        return None;
    }
    Some(octets.split_at(len).1)
}

// What follows a hyphen at the start. None: there is none.
fn after_hyphen<'a>(octets: &'a [u8]) -> Option<&'a [u8]>
    ensures hyphen { IfSome result (λ rest. octets.now ≡ 45 ∷ rest.now) }
    ensures shorter { IfSome result (λ rest. length rest.now < length octets.now) }
    ensures found { (rest : List ℕ) → octets.now ≡ 45 ∷ rest → MatchOption result ⊥ (λ after. after.now ≡ rest) }
{
    let Some((first, rest)) = octets.split_first() else {
        return None;
    };
    if *first != b'-' {
        return None;
    }
    Some(rest)
}

// Whether octets are parts of a language, with hyphens between them.
fn are_parts(octets: &[u8]) -> bool
    ensures { result ≡ true ↔ IsLanguage octets.now }
{
    let mut rest = octets;
    let mut is_first = true;
    while let Some(after) = after_part(rest, is_first) {
        if after.is_empty() {
            return true;
        }
        let Some(other) = after_hyphen(after) else {
            return false;
        };
        rest = other;
        is_first = false;
    }
    false
}

/// Whether octets are a language: parts of at most 8 letters, after the first one also digits, with hyphens between them; or
/// nothing, which ends an outer language. It has at most 100 characters.
pub fn is_language(octets: &[u8]) -> bool
    ensures is { result ≡ true → (octets.now ≡ []) ⊎ IsLanguage octets.now }
    ensures accepts { (octets.now ≡ []) ⊎ IsLanguage octets.now → length octets.now ≤ language_limit → result ≡ true }
{
    if octets.is_empty() {
        return true;
    }
    if octets.len() > LANGUAGE_LIMIT {
        return false;
    }
    are_parts(octets)
}
