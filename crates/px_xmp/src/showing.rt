// The form of a packet for showing it, with its bags as they are in the packet.
// `Err` of a call is why it reads no further: `Content`, what is wrong or rare and its byte offset
// in the packet; or `OutOfMemory`, a failed allocation.
ghost use Rattle.std.specs.Prelude.{◌≤◌, length, IfSome, IfOk, OnOk};
ghost use Rattle.px_bytes.specs.Parts.{limit};
ghost use Rattle.px_xmp_forms.specs.Forms.{IsNormal};
ghost use Rattle.px_xmp_forms.specs.Allocations.{CountsAllocFailureInPacket};
ghost use Rattle.px_xmp_forms.specs.Causes.{IfWrong, FailsByMemory};
ghost use Rattle.px_xmp.specs.Packet.{IsPacket};
ghost use Rattle.px_xmp.specs.Accepted.{FormFits, PacketFits};
ghost use Rattle.px_xmp.specs.Refusals.{IfRefused, IsRefused};
ghost use Rattle.px_xmp.specs.Asking.{AsksOnlyForRdf};
ghost use Rattle.px_xmp.specs.Laws.{IsFormOfPacket, HasNoMeaning, SayTheSame};

use crate::packet::{around_len, form_in, head_len, normal_form_in, unpadded_len};
use crate::reader::Reader;
use crate::subject::Subject;
use px_bytes::Memory;
use px_xmp_forms::{BagOrder, Refusal};
use px_xmp_marks::len_before;

// How far a search for a bag has come before a tag of a form, and after it. It is 0 outside of bags; in a bag it is one more than the
// items, and lists in them, that have begun.
fn seen_after(tag: &[u8], seen: usize) -> usize {
    if tag.starts_with(b"</rdf:Bag>") {
        return 0;
    }
    if tag.starts_with(b"<rdf:Bag>") {
        return seen.saturating_add(1);
    }
    let begins = tag.starts_with(b"<rdf:li")
        || tag.starts_with(b"<rdf:Seq>")
        || tag.starts_with(b"<rdf:Alt>");
    if begins && seen > 0 {
        return seen.saturating_add(1);
    }
    seen
}

// What follows `<rdf:` of the first bag in a form. A form has few octets that are `B`, and many that are `<`.
fn after_bag(form: &[u8]) -> &[u8] {
    let mut rest = form;
    while !rest.is_empty() {
        let (before, bag) = rest.split_at(len_before(rest, b'B'));
        if before.ends_with(b"<rdf:") && bag.starts_with(b"Bag>") {
            return bag;
        }
        rest = bag.split_at(bag.len().min(1)).1;
    }
    rest
}

// Whether a form has a bag with two items, or with a list in an item. The items of every other bag are in the packet's order.
fn has_bag(form: &[u8]) -> bool {
    let mut rest = after_bag(form);
    let mut seen = 1;
    while !rest.is_empty() {
        rest = rest.split_at(len_before(rest, b'<')).1;
        seen = seen_after(rest, seen);
        if seen > 2 {
            return true;
        }
        rest = rest.split_at(rest.len().min(1)).1;
    }
    false
}

// The form of a packet that has a normal form, with the items of each bag in the packet's order. No fault is judged again.
fn written_form(memory: &mut Memory, packet: &[u8]) -> Result<Vec<u8>, Refusal>
    ensures memory { CountsAllocFailureInPacket result memory.old memory.new }
    ensures normal { IfOk result (λ form. IsNormal form.items) }
    ensures bound { IfOk result (λ form. length form.items ≤ limit) }
{
    let rest = packet.split_at(around_len(packet)).1;
    let document = rest.split_at(unpadded_len(rest)).0;
    let octets = document.split_at(head_len(document)).1;
    let mut reader = Reader::new(memory, octets, 0, BagOrder::AsWritten);
    let mut subject = Subject {
        value: None,
        other: None,
    };
    reader.read_document(memory, &mut subject)?;
    reader.output.whole(memory)
}

// The form of a packet, as `written_form` returns it. None: the packet is refused.
fn written_if_any(memory: &mut Memory, packet: &[u8]) -> Result<Option<Vec<u8>>, Refusal>
    ensures memory { CountsAllocFailureInPacket result memory.old memory.new }
    ensures normal { IfOk result (λ o. IfSome o (λ form. IsNormal form.items)) }
    ensures bound { IfOk result (λ o. IfSome o (λ form. length form.items ≤ limit)) }
    ensures accepts { FailsByMemory result }
{
    match written_form(memory, packet) {
        Ok(form) => Ok(Some(form)),
        Err(Refusal::Content { .. }) => Ok(None),
        Err(Refusal::OutOfMemory) => Err(Refusal::OutOfMemory),
    }
}

// The normal form of a packet, if there is one.
fn normal_if_any(memory: &mut Memory, packet: &[u8]) -> Result<Option<Vec<u8>>, Refusal>
    ensures form { IfOk result (λ o. IfSome o (λ form. IsFormOfPacket packet.now form.items)) }
    ensures memory { CountsAllocFailureInPacket result memory.old memory.new }
    ensures accepts { FailsByMemory result }
{
    match form_in(memory, packet) {
        Ok(form) => Ok(Some(form)),
        Err(Refusal::Content { .. }) => Ok(None),
        Err(Refusal::OutOfMemory) => Err(Refusal::OutOfMemory),
    }
}

// The form of a packet with its bags as they are written, if that is not this normal form of the packet, but has it as its normal form.
fn other_form(memory: &mut Memory, packet: &[u8], form: &[u8]) -> Result<Option<Vec<u8>>, Refusal>
    ensures form { IfOk result (λ o. IfSome o (λ other. IsFormOfPacket other.items form.now)) }
    ensures memory { CountsAllocFailureInPacket result memory.old memory.new }
    ensures normal { IfOk result (λ o. IfSome o (λ other. IsNormal other.items)) }
    ensures bound { IfOk result (λ o. IfSome o (λ other. length other.items ≤ limit)) }
    ensures accepts { FailsByMemory result }
{
    let Some(other) = written_if_any(memory, packet)? else {
        return Ok(None);
    };
    if other.as_slice() == form {
        return Ok(None);
    }
    let Some(again) = normal_if_any(memory, other.as_slice())? else {
        return Ok(None);
    };
    if again.as_slice() == form {
        return Ok(Some(other));
    }
    Ok(None)
}

/// The form of a packet for showing it: its normal form, except that the items of each bag are in the packet's order.
///
/// It is a packet that means the same: it is read again, and if that gave another normal form, the packet's would be returned. That the
/// order is the packet's no contract states. The errors are those of `normal_form_in`.
pub fn unsorted_form_in(memory: &mut Memory, packet: &[u8]) -> Result<Vec<u8>, Refusal>
    ensures packet { OnOk result (IsPacket packet.now) }
    ensures means { IfOk result (λ form. SayTheSame packet.now form.items) }
    ensures memory { CountsAllocFailureInPacket result memory.old memory.new }
    ensures refused { IfWrong result (HasNoMeaning packet.now) }
    ensures normal { IfOk result (λ form. IsNormal form.items) }
    ensures bound { IfOk result (λ form. length form.items ≤ limit) }
    ensures accepts { PacketFits packet.now → FailsByMemory result }
    ensures own { FormFits packet.now → FailsByMemory result }
    ensures layer { IfRefused result (IsRefused packet.now) }
    ensures asked { AsksOnlyForRdf packet.now memory.old memory.new }
{
    crate::laws::form_is_its_own();
    crate::laws::forms_decide();
    let form = normal_form_in(memory, packet)?;
    if !has_bag(form.as_slice()) {
        return Ok(form);
    }
    match other_form(memory, packet, form.as_slice())? {
        Some(other) => Ok(other),
        None => Ok(form),
    }
}
