// The pieces of a text: a reference, an end of a line, or an octet.
ghost use Rattle.std.specs.Prelude.{◌≡◌, ◌≤◌, ℕ, List, length, if◌then◌else◌, ◌∷◌, option_map, IfSome};
ghost use Rattle.px_xmp_text.specs.Texts.{piece, white_space, begins_with_feed, first_fault};

use crate::references::read_reference;

/// Where a text is.
#[derive(Clone, Copy, Debug, PartialEq, Eq)]
pub enum TextKind {
    /// The character data of an element, with references. XML 1.0, 2.4.
    CharacterData,
    /// The content of a CDATA section, without references. XML 1.0, 2.7.
    CdataSection,
    /// The value of an attribute, with references; white space means spaces. XML 1.0, 3.3.3.
    AttributeValue,
}

// What a white space octet means.
pub(crate) fn white_space(kind: TextKind, octet: u8) -> u8
    ensures { result ≡ white_space kind octet }
{
    match kind {
        TextKind::CharacterData | TextKind::CdataSection => octet,
        TextKind::AttributeValue => b' ',
    }
}

// The length of an end of a line that begins with CR.
pub(crate) fn line_end_len(octets: &[u8]) -> usize
    requires { 1 ≤ length octets.now }
    ensures value { (o : ℕ) (x : List ℕ) → octets.now ≡ o ∷ x → result ≡ (if begins_with_feed x then 2 else 1) }
    ensures low { 1 ≤ result }
    ensures high { result ≤ length octets.now }
{
    if octets.len() > 1 && octets[1] == b'\n' {
        2
    } else {
        1
    }
}

// The length of the first piece, or None if it means nothing.
#[tactic(auto, unfolding(crate::specs::Texts::piece))]
fn piece_len(octets: &[u8], kind: TextKind) -> Option<usize>
    requires { 1 ≤ length octets.now }
    ensures value { result ≡ option_map (λ p. p.1) (piece kind octets.now) }
    ensures bound { IfSome result (λ n. (1 ≤ n) × (n ≤ length octets.now)) }
{
    let octet = octets[0];
    if octet == b'&' {
        if kind == TextKind::CdataSection {
            return Some(1);
        }
        let Some(reference) = read_reference(octets) else {
            return None;
        };
        return Some(reference.size);
    }
    if octet == b'\r' {
        return Some(line_end_len(octets));
    }
    Some(1)
}

/// The byte offset of the first `&` that begins no reference. None: the octets have a text. It allocates nothing.
pub fn first_fault(octets: &[u8], kind: TextKind) -> Option<usize>
    ensures { result ≡ first_fault kind octets.now }
{
    // most texts have no reference, and one look at each octet is enough
    if !octets.contains(&b'&') {
        return None;
    }
    let mut at = 0;
    while at < octets.len() {
        match piece_len(octets.split_at(at).1, kind) {
            Some(len) => at += len,
            None => return Some(at),
        }
    }
    None
}
