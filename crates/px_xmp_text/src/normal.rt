// The normal form of a text.
ghost use Rattle.std.specs.Prelude.{◌≡◌, ◌≤◌, ◌<◌, ◌+◌, ◌*◌, ◌++◌, ℕ, suc, List, Some, length, drop, true, false, is_some};
ghost use Rattle.std.specs.Prelude.{IfSome, IsOk, OnOk, OnErr, vec_len, vec_capacity};
ghost use Rattle.std.specs.Char.{encode_utf8};
ghost use Rattle.px_bytes.specs.Allocations.{CountsAllocFailure, AsksAtMost, enlarged};
ghost use Rattle.px_bytes.specs.Parts.{limit};
ghost use Rattle.px_xmp_text.specs.Texts.{piece, text_of, text_in, normal_text, normal_octet};
ghost use Rattle.px_xmp_text.specs.calls.Appending.{is_plain, plain_len, AppendsPart};

use crate::pieces::{TextKind, line_end_len, white_space};
use crate::references::read_reference;
use px_bytes::{AllocFailed, Memory};

// Appends octets to a vector that has space for them, as each function below does.
fn append(memory: &mut Memory, out: &mut Vec<u8>, octets: &[u8])
    requires { vec_len out.old + length octets.now ≤ vec_capacity out.old }
    ensures items { out.new.items ≡ out.old.items ++ octets.now }
    ensures len { vec_len out.new ≡ vec_len out.old + length octets.now }
    ensures capacity { vec_capacity out.old ≤ vec_capacity out.new }
    ensures failed_allocations { memory.new.failed_allocations ≡ memory.old.failed_allocations }
    ensures asked { memory.new.asked ≡ memory.old.asked }
{
    let _has_space = memory.extend_from_slice(out, octets);
}

// Appends the normal form of an octet.
fn append_octet(memory: &mut Memory, out: &mut Vec<u8>, octet: u8)
    requires { vec_len out.old + length (normal_octet octet) ≤ vec_capacity out.old }
    ensures items { out.new.items ≡ out.old.items ++ normal_octet octet }
    ensures len { vec_len out.new ≡ vec_len out.old + length (normal_octet octet) }
    ensures capacity { vec_capacity out.old ≤ vec_capacity out.new }
    ensures failed_allocations { memory.new.failed_allocations ≡ memory.old.failed_allocations }
    ensures asked { memory.new.asked ≡ memory.old.asked }
{
    if octet == b'&' {
        append(memory, out, b"&amp;");
    } else if octet == b'<' {
        append(memory, out, b"&lt;");
    } else if octet == b'>' {
        append(memory, out, b"&gt;");
    } else if octet == b'\r' {
        append(memory, out, b"&#13;");
    } else {
        append(memory, out, &[octet]);
    }
}

// Appends the normal form of octets.
fn append_octets(memory: &mut Memory, out: &mut Vec<u8>, octets: &[u8])
    requires { vec_len out.old + length (normal_text octets.now) ≤ vec_capacity out.old }
    ensures items { out.new.items ≡ out.old.items ++ normal_text octets.now }
    ensures len { vec_len out.new ≡ vec_len out.old + length (normal_text octets.now) }
    ensures capacity { vec_capacity out.old ≤ vec_capacity out.new }
    ensures failed_allocations { memory.new.failed_allocations ≡ memory.old.failed_allocations }
    ensures asked { memory.new.asked ≡ memory.old.asked }
{
    for octet in octets {
        append_octet(memory, out, *octet);
    }
}

// Appends the normal form of a character.
fn append_character(memory: &mut Memory, out: &mut Vec<u8>, character: char)
    requires { vec_len out.old + length (normal_text (encode_utf8 character)) ≤ vec_capacity out.old }
    ensures items { out.new.items ≡ out.old.items ++ normal_text (encode_utf8 character) }
    ensures len { vec_len out.new ≡ vec_len out.old + length (normal_text (encode_utf8 character)) }
    ensures capacity { vec_capacity out.old ≤ vec_capacity out.new }
    ensures failed_allocations { memory.new.failed_allocations ≡ memory.old.failed_allocations }
    ensures asked { memory.new.asked ≡ memory.old.asked }
{
    let mut space = [0u8; 4];
    let text = character.encode_utf8(&mut space);
    append_octets(memory, out, text.as_bytes());
}

// Appends the normal form of the first piece. Returns the length of the piece.
#[tactic(auto, unfolding(crate::specs::Texts::piece))]
fn append_piece(memory: &mut Memory, out: &mut Vec<u8>, octets: &[u8], kind: TextKind) -> usize
    requires some { 1 ≤ length octets.now }
    requires good { is_some (piece kind octets.now) ≡ true }
    requires room { IfSome (piece kind octets.now) (λ p. vec_len out.old + length (normal_text p.0) ≤ vec_capacity out.old) }
    ensures len { IfSome (piece kind octets.now) (λ p. (result ≡ p.1) × (vec_len out.new ≡ vec_len out.old + length (normal_text p.0))) }
    ensures items { IfSome (piece kind octets.now) (λ p. out.new.items ≡ out.old.items ++ normal_text p.0) }
    ensures bound { (1 ≤ result) × (result ≤ length octets.now) }
    ensures capacity { vec_capacity out.old ≤ vec_capacity out.new }
    ensures failed_allocations { memory.new.failed_allocations ≡ memory.old.failed_allocations }
    ensures asked { memory.new.asked ≡ memory.old.asked }
{
    let octet = octets[0];
    if octet == b'&' {
        if kind != TextKind::CdataSection {
            let Some(reference) = read_reference(octets) else {
                return 1;
            };
            append_character(memory, out, reference.character);
            return reference.size;
        }
        append_octet(memory, out, octet);
        return 1;
    }
    if octet == b'\r' {
        append_octet(memory, out, white_space(kind, b'\n'));
        return line_end_len(octets);
    }
    if octet == b'\t' || octet == b'\n' {
        append_octet(memory, out, white_space(kind, octet));
        return 1;
    }
    append_octet(memory, out, octet);
    1
}

// A plus at the place of each octet that means itself and is its own normal form, and a point at every other place.
static PLAIN: [u8; 256] = *b"\
    ................................\
    ++++++.+++++++++++++++++++++.+.+\
    ++++++++++++++++++++++++++++++++\
    ++++++++++++++++++++++++++++++++\
    ++++++++++++++++++++++++++++++++\
    ++++++++++++++++++++++++++++++++\
    ++++++++++++++++++++++++++++++++\
    ++++++++++++++++++++++++++++++++";

// Whether an octet means itself and is its own normal form.
fn is_plain(octet: u8) -> bool
    ensures { result ≡ is_plain octet }
{
    PLAIN[octet as usize] == b'+'
}

// Whether the octet at a place is plain.
fn is_plain_at(octets: &[u8], at: usize) -> bool
    requires { at < length octets.now }
    ensures stops { result ≡ false → plain_len (drop at octets.now) ≡ 0 }
    ensures goes_on { result ≡ true → plain_len (drop at octets.now) ≡ suc (plain_len (drop (at + 1) octets.now)) }
{
    is_plain(octets[at])
}

// How many of four octets from a place on are plain, before the first that is not.
fn four_len(octets: &[u8], at: usize) -> usize
    requires { at + 4 ≤ length octets.now }
    ensures few { result < 4 → plain_len (drop at octets.now) ≡ result }
    ensures all { result ≡ 4 → plain_len (drop at octets.now) ≡ 4 + plain_len (drop (at + 4) octets.now) }
    ensures within { result ≤ 4 }
{
    if !is_plain_at(octets, at) {
        return 0;
    }
    if !is_plain_at(octets, at + 1) {
        return 1;
    }
    if !is_plain_at(octets, at + 2) {
        return 2;
    }
    if !is_plain_at(octets, at + 3) {
        return 3;
    }
    4
}

// The number of plain octets at the start, one after another.
fn short_len(octets: &[u8]) -> usize
    ensures value { result ≡ plain_len octets.now }
    ensures within { result ≤ length octets.now }
{
    for (n, octet) in octets.iter().enumerate() {
        if !is_plain(*octet) {
            return n;
        }
    }
    octets.len()
}

// The number of plain octets at the start.
fn plain_len(octets: &[u8]) -> usize
    ensures value { result ≡ plain_len octets.now }
    ensures within { result ≤ length octets.now }
{
    let mut at = 0;
    while octets.len() - at >= 4 {
        let len = four_len(octets, at);
        if len < 4 {
            return at + len;
        }
        at += 4;
    }
    at + short_len(octets.split_at(at).1)
}

// Appends the normal form of the plain octets at the start or, if there are none, of the first piece. Returns how many
// octets it has read.
fn append_part(memory: &mut Memory, out: &mut Vec<u8>, octets: &[u8], kind: TextKind) -> usize
    requires some { 1 ≤ length octets.now }
    requires good { (m : ℕ) × (t : List ℕ) × (text_in m kind octets.now ≡ Some t) }
    requires room { vec_len out.old + 5 * length octets.now ≤ vec_capacity out.old }
    ensures value { (m : ℕ) (t : List ℕ) → text_in m kind octets.now ≡ Some t
        → AppendsPart kind octets.now t result out.old.items out.new.items }
    ensures bound { (1 ≤ result) × (result ≤ length octets.now) }
    ensures room { vec_len out.new + vec_capacity out.old ≤ vec_len out.old + vec_capacity out.new + 5 * result }
    ensures failed_allocations { memory.new.failed_allocations ≡ memory.old.failed_allocations }
    ensures asked { memory.new.asked ≡ memory.old.asked }
{
    let len = plain_len(octets);
    if len == 0 {
        return append_piece(memory, out, octets, kind);
    }
    append(memory, out, octets.split_at(len).0);
    len
}

// Appends the normal form of the text of octets to a vector that has space for it.
fn append_text(memory: &mut Memory, out: &mut Vec<u8>, octets: &[u8], kind: TextKind)
    requires good { (t : List ℕ) × (text_of kind octets.now ≡ Some t) }
    requires room { vec_len out.old + 5 * length octets.now ≤ vec_capacity out.old }
    ensures items { (t : List ℕ) → text_of kind octets.now ≡ Some t → out.new.items ≡ out.old.items ++ normal_text t }
    ensures failed_allocations { memory.new.failed_allocations ≡ memory.old.failed_allocations }
    ensures asked { memory.new.asked ≡ memory.old.asked }
{
    let mut at = 0;
    while at < octets.len() {
        at += append_part(memory, out, octets.split_at(at).1, kind);
    }
}

/// Appends the normal form of the text of octets that have one, and are no more than `LIMIT`. It asks for nothing if
/// the vector has space for five times the octets, which no normal form exceeds, and otherwise makes that space.
/// `Err`: that allocation failed, and the vector's items are unchanged.
pub fn append_normal_in(
    memory: &mut Memory,
    out: &mut Vec<u8>,
    octets: &[u8],
    kind: TextKind,
) -> Result<(), AllocFailed>
    requires good { (t : List ℕ) × (text_of kind octets.now ≡ Some t) }
    requires few { length octets.now ≤ limit }
    ensures done { (t : List ℕ) → text_of kind octets.now ≡ Some t → OnOk result (out.new.items ≡ out.old.items ++ normal_text t) }
    ensures failed { OnErr result (out.new.items ≡ out.old.items) }
    ensures memory { CountsAllocFailure result memory.old memory.new }
    ensures fits { vec_len out.old + 5 * length octets.now ≤ vec_capacity out.old →
        IsOk result × (memory.new.asked ≡ memory.old.asked) }
    ensures asked { AsksAtMost (enlarged (vec_capacity out.old) (vec_len out.old + 5 * length octets.now)) memory.old memory.new }
{
    memory.reserve(out, 5 * octets.len())?;
    append_text(memory, out, octets, kind);
    Ok(())
}
