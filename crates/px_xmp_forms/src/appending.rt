// Octets and texts, appended to a form.
// `Err` of a call is why it writes nothing more: `Content`, what can't be written, as a form
// that is too long; or `OutOfMemory`, a failed allocation.
ghost use Rattle.std.specs.Prelude.{◌≡◌, ◌≤◌, ◌+◌, ◌*◌, ◌++◌, ◌∷◌, length, List, ℕ, true, Some, is_some, min, OnOk, IfOk};
ghost use Rattle.std.specs.Prelude.{vec_len, vec_capacity};
ghost use Rattle.px_bytes.specs.Allocations.{AsksAtMost, enlarged};
ghost use Rattle.px_bytes.specs.Parts.{limit};
ghost use Rattle.px_xmp_text.specs.Texts.{text_of, normal_text};
ghost use Rattle.px_xmp_text.specs.declared.pieces.TextKind.TheVariants.{AttributeValue};
ghost use Rattle.px_xmp_forms.specs.Forms.{most, TextFits, is_space, is_white, IsSameText};
ghost use Rattle.px_xmp_forms.specs.calls.Blanks.{BeginsWithSpace};
ghost use Rattle.px_xmp_forms.specs.Allocations.{CountsAllocFailureInPacket};
ghost use Rattle.px_xmp_forms.specs.Causes.{IsRare, FailsByMemory};

use crate::faults::{Cause, Refusal};
use px_bytes::Memory;
use px_xmp_text::{TextKind, append_normal_in, first_fault};

/// The most octets of a packet, and of a normal form.
pub const LIMIT: usize = 16777216;

// The most octets of a form that is not finished. White space between elements is among them, until the next element.
pub(crate) const MOST: usize = 33554432;

// Whether `more` octets may follow `len`: a form that isn't finished has at most `MOST`.
pub(crate) fn has_space(len: usize, more: usize) -> bool
    ensures fits { len + more ≤ most → result ≡ true }
    ensures within { result ≡ true → len + more ≤ most }
{
    len <= MOST && more <= MOST - len
}

// Makes space for exactly `more` further octets, or for `MOST`, which then are appended without growing again.
pub(crate) fn reserve(memory: &mut Memory, out: &mut Vec<u8>, more: usize) -> Result<(), Refusal>
    ensures items { OnOk result (out.new.items ≡ out.old.items) }
    ensures memory { CountsAllocFailureInPacket result memory.old memory.new }
    ensures rare { IsRare result }
    ensures accepts { FailsByMemory result }
    ensures space { OnOk result (vec_len out.new + min most more ≤ vec_capacity out.new) }
    ensures asked { AsksAtMost (vec_len out.old + more) memory.old memory.new }
{
    memory.reserve_exact(out, more.min(MOST))?;
    Ok(())
}

/// Appends octets. `Content`: the form is too long.
pub fn append(memory: &mut Memory, out: &mut Vec<u8>, octets: &[u8]) -> Result<(), Refusal>
    ensures items { OnOk result (out.new.items ≡ out.old.items ++ octets.now) }
    ensures memory { CountsAllocFailureInPacket result memory.old memory.new }
    ensures rare { IsRare result }
    ensures accepts { length out.old.items + length octets.now ≤ most → FailsByMemory result }
    ensures capacity { vec_capacity out.old ≤ vec_capacity out.new }
    ensures fits { min most (length out.old.items + length octets.now) ≤ vec_capacity out.old → memory.new.asked ≡ memory.old.asked }
    ensures asked { AsksAtMost (enlarged (vec_capacity out.old) (length out.old.items + length octets.now)) memory.old memory.new }
{
    if octets.is_empty() {
        return Ok(());
    }
    if !has_space(out.len(), octets.len()) {
        return Err(Cause::RareLength.at(LIMIT));
    }
    memory.extend_from_slice(out, octets)?;
    Ok(())
}

/// Appends the normal form of the text of octets. `Content`: they have none, or the form is too long. A document without a fault
/// has no octets without a text, so that this says of no packet that it is wrong.
pub fn append_text(
    memory: &mut Memory,
    out: &mut Vec<u8>,
    octets: &[u8],
    kind: TextKind,
) -> Result<(), Refusal>
    ensures items { OnOk result ((t : List ℕ) × (text_of kind octets.now ≡ Some t) × (out.new.items ≡ out.old.items ++ normal_text t)) }
    ensures memory { CountsAllocFailureInPacket result memory.old memory.new }
    ensures rare { IsRare result }
    ensures accepts { TextFits kind octets.now (length out.old.items) → FailsByMemory result }
    ensures asked { AsksAtMost (enlarged (vec_capacity out.old) (length out.old.items + 5 * length octets.now)) memory.old memory.new }
{
    px_xmp_text::laws::fault_or_text();
    if octets.len() > LIMIT {
        return Err(Cause::RareLength.at(LIMIT));
    }
    if first_fault(octets, kind).is_some() {
        return Err(Cause::RareText.at(0));
    }
    append_normal_in(memory, out, octets, kind)?;
    if out.len() > MOST {
        return Err(Cause::RareLength.at(LIMIT));
    }
    Ok(())
}

// Whether the value of an attribute has a text.
fn has_text(octets: &[u8]) -> bool
    ensures { result ≡ is_some (text_of AttributeValue octets.now) }
{
    px_xmp_text::laws::fault_or_text();
    first_fault(octets, TextKind::AttributeValue).is_none()
}

// The normal form of the text of a value that has one.
fn value_form(memory: &mut Memory, octets: &[u8]) -> Result<Vec<u8>, Refusal>
    requires text { (t : List ℕ) × (text_of AttributeValue octets.now ≡ Some t) }
    ensures value { (t : List ℕ) → text_of AttributeValue octets.now ≡ Some t → IfOk result (λ form. form.items ≡ normal_text t) }
    ensures memory { CountsAllocFailureInPacket result memory.old memory.new }
    ensures rare { IsRare result }
    ensures accepts { length octets.now ≤ limit → FailsByMemory result }
    ensures asked { AsksAtMost (10 * length octets.now + 4) memory.old memory.new }
{
    if octets.len() > LIMIT {
        return Err(Cause::RareLength.at(LIMIT));
    }
    let mut form = memory.list();
    append_normal_in(memory, &mut form, octets, TextKind::AttributeValue)?;
    Ok(form)
}

/// Whether two values of attributes have the same text, or both have none. `Content`: one is longer than a packet.
pub fn same_text(memory: &mut Memory, a: &[u8], b: &[u8]) -> Result<bool, Refusal>
    ensures value { IfOk result (λ same. IsSameText a.now b.now same) }
    ensures memory { CountsAllocFailureInPacket result memory.old memory.new }
    ensures rare { IsRare result }
    ensures accepts { length a.now ≤ limit → length b.now ≤ limit → FailsByMemory result }
    ensures asked { AsksAtMost (10 * (length a.now + length b.now) + 8) memory.old memory.new }
{
    if a == b {
        return Ok(true);
    }
    if !has_text(a) {
        return Ok(!has_text(b));
    }
    if !has_text(b) {
        return Ok(false);
    }
    px_xmp_text::laws::normal_is_injective();
    let first = value_form(memory, a)?;
    let second = value_form(memory, b)?;
    Ok(first.as_slice() == second.as_slice())
}

// Whether an octet is white space.
fn is_space(octet: u8) -> bool
    ensures { result ≡ is_space octet }
{
    octet == b' ' || octet == b'\t' || octet == b'\n' || octet == b'\r'
}

// The number of octets of the white space character at the start of a form. It is 0 if there is none.
fn space_len(form: &[u8]) -> usize
    requires { 1 ≤ length form.now }
    ensures within { result ≤ length form.now }
    ensures value { (o : ℕ) (t : List ℕ) → form.now ≡ normal_text (o ∷ t) → BeginsWithSpace form.now o t result }
{
    if is_space(form[0]) {
        return 1;
    }
    if form.starts_with(b"&#13;") {
        return 5;
    }
    0
}

/// Whether the normal form of a text is white space, or nothing.
pub fn is_blank(form: &[u8]) -> bool
    ensures { (t : List ℕ) → form.now ≡ normal_text t → result ≡ is_white t }
{
    let mut rest = form;
    while !rest.is_empty() {
        let len = space_len(rest);
        if len == 0 {
            return false;
        }
        rest = rest.split_at(len).1;
    }
    true
}
