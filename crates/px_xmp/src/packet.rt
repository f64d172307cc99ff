// A packet: its document, and what is around it.
// `Err` of a call is why it reads no further: `Content`, what is wrong or rare and its byte offset
// in the packet; or `OutOfMemory`, a failed allocation.
ghost use Rattle.std.specs.Prelude.{◌≡◌, ◌≤◌, ◌+◌, ℕ, Option, List, length, take, drop, true, false, IfOk, OnOk};
ghost use Rattle.px_bytes.specs.Parts.{limit};
ghost use Rattle.px_xmp_marks.specs.Declarations.{every};
ghost use Rattle.px_xmp_text.specs.Values.{Content};
ghost use Rattle.px_xmp_document.specs.Document.{IsSplit, order_mark_len, IsFile};
ghost use Rattle.px_xmp_forms.specs.Forms.{IsNormal};
ghost use Rattle.px_xmp_forms.specs.Allocations.{CountsAllocFailureInPacket};
ghost use Rattle.px_xmp_forms.specs.Causes.{IfWrong, FailsByMemory};
ghost use Rattle.px_xmp.specs.Packet.{is_padding, is_wide, AreAround, BeginsBare, EndsBare, IsPacket};
ghost use Rattle.px_xmp.specs.Meaning.{HasMeaning};
ghost use Rattle.px_xmp.specs.Accepted.{FormFits, DocumentFits, PacketFits};
ghost use Rattle.px_xmp.specs.calls.Around.{BeginsAround};
ghost use Rattle.px_xmp.specs.Refusals.{IfRefused, IsRefusedDocument, IsRefused};
ghost use Rattle.px_xmp.specs.Asking.{AsksOnlyForRdf};
ghost use Rattle.px_xmp.specs.Laws.{IsFormOf, IsFormOfPacket, HasForm, HasNoMeaning, IsReadableForm};

use crate::causes::cause_of;
use crate::crowded::first_crowded;
use crate::reader::Reader;
use crate::subject::Subject;
use px_bytes::Memory;
use px_xmp_document::first_fault;
use px_xmp_forms::{BagOrder, Cause, LIMIT, Refusal};
use px_xmp_marks::read_declaration;

// Whether an octet is padding.
fn is_padding(octet: u8) -> bool
    ensures { result ≡ is_padding octet }
{
    octet == 0 || octet == b' ' || octet == b'\t' || octet == b'\n' || octet == b'\r'
}

// The length of the padding or the byte order mark at the start: of one octet, or of three. It is 0 if neither is there.
fn piece_len(octets: &[u8]) -> usize
    ensures within { result ≤ length octets.now }
    ensures piece { BeginsAround octets.now result }
{
    if octets.is_empty() {
        return 0;
    }
    if is_padding(octets[0]) {
        return 1;
    }
    if octets.starts_with(b"\xEF\xBB\xBF") {
        return 3;
    }
    0
}

// The number of octets at the start that are byte order marks and padding.
pub(crate) fn around_len(packet: &[u8]) -> usize
    ensures within { result ≤ length packet.now }
    ensures around { (pieces : List (List ℕ)) × AreAround pieces (take result packet.now) }
    ensures first { BeginsBare (drop result packet.now) }
{
    let mut at = 0;
    'pieces: loop {
        let len = piece_len(packet.split_at(at).1);
        if len == 0 {
            return at;
        }
        at += len;
    }
}

// The number of octets before the padding at the end.
pub(crate) fn unpadded_len(octets: &[u8]) -> usize
    ensures within { result ≤ length octets.now }
    ensures padding { every is_padding (drop result octets.now) ≡ true }
    ensures last { EndsBare (take result octets.now) }
{
    let mut len = octets.len();
    while len > 0 {
        if !is_padding(octets[len - 1]) {
            return len;
        }
        len -= 1;
    }
    0
}

// Whether a packet begins as UTF-16 or UTF-32 does.
fn is_wide(packet: &[u8]) -> bool
    ensures { result ≡ is_wide packet.now }
{
    packet.starts_with(b"\xFF\xFE")
        || packet.starts_with(b"\xFE\xFF")
        || packet.starts_with(b"\x00\x00\xFE\xFF")
        || packet.starts_with(b"<\x00")
        || packet.starts_with(b"\x00<")
        || packet.starts_with(b"\x00\x00\x00<")
}

// The length of the XML declaration at the start.
fn declaration_len(document: &[u8]) -> usize
    ensures parts { (e : Option (List ℕ)) × IsSplit document.now (take result document.now) e (drop result document.now) }
    ensures within { result ≤ length document.now }
{
    px_xmp_marks::laws::declarations_are_read();
    px_xmp_marks::laws::only_declarations_are_read();
    match read_declaration(document) {
        Some(declaration) => declaration.size,
        None => 0,
    }
}

// The length of the byte order mark at the start.
fn order_mark_len(document: &[u8]) -> usize
    ensures value { result ≡ order_mark_len document.now }
    ensures within { result ≤ length document.now }
{
    if document.starts_with(b"\xEF\xBB\xBF") {
        return 3;
    }
    0
}

// The length of the byte order mark and the declaration at the start.
pub(crate) fn head_len(document: &[u8]) -> usize
    ensures parts { (d : List ℕ) × (e : Option (List ℕ))
        × IsSplit (drop (order_mark_len document.now) document.now) d e (drop result document.now) }
    ensures within { result ≤ length document.now }
{
    let mark = order_mark_len(document);
    mark + declaration_len(document.split_at(mark).1)
}

// The form of a document that begins at an offset of the packet.
fn document_form(memory: &mut Memory, document: &[u8], start: usize) -> Result<Vec<u8>, Refusal>
    ensures document { OnOk result (IsFile document.now) }
    ensures form { start + length document.now ≤ limit → IfOk result (λ form. IsFormOf document.now start form.items) }
    ensures readable { start + length document.now ≤ limit → IfOk result (λ form. FormFits form.items) }
    ensures memory { CountsAllocFailureInPacket result memory.old memory.new }
    ensures refused { start + length document.now ≤ limit
        → IfWrong result ((c : Content) → IsFile document.now → HasMeaning document.now start c → ⊥) }
    ensures normal { IfOk result (λ form. IsNormal form.items) }
    ensures bound { IfOk result (λ form. length form.items ≤ limit) }
    ensures accepts { start + length document.now ≤ limit → DocumentFits document.now start → FailsByMemory result }
    ensures layer { start + length document.now ≤ limit → IfRefused result (IsRefusedDocument document.now start) }
    ensures asked { (IsFile document.now → ⊥) → memory.new.asked ≡ memory.old.asked }
{
    px_xmp_marks::laws::marks_are_read();
    px_xmp_marks::laws::start_tags_are_read();
    px_xmp_marks::laws::declarations_are_read();
    px_xmp_document::laws::one_fault();
    let head = head_len(document);
    if let Some(at) = first_crowded(document.split_at(head).1) {
        return Err(Cause::RareCount.at(start.saturating_add(head).saturating_add(at)));
    }
    if let Some(fault) = first_fault(document) {
        return Err(cause_of(document, fault).at(start.saturating_add(fault.offset)));
    }
    crate::laws::meanings_are_readable();
    crate::laws::one_meaning();
    crate::laws::files_have_nodes();
    let octets = document.split_at(head).1;
    let mut reader = Reader::new(memory, octets, start.saturating_add(head), BagOrder::Sorted);
    let mut subject = Subject {
        value: None,
        other: None,
    };
    reader.read_document(memory, &mut subject)?;
    if let Some(place) = subject.other {
        return Err(Cause::SeveralSubjects.at(place));
    }
    reader.output.whole(memory)
}

// The form of a packet.
pub(crate) fn form_in(memory: &mut Memory, packet: &[u8]) -> Result<Vec<u8>, Refusal>
    ensures packet { OnOk result (IsPacket packet.now) }
    ensures narrow { OnOk result (is_wide packet.now ≡ false) }
    ensures form { IfOk result (λ form. IsFormOfPacket packet.now form.items) }
    ensures readable { IfOk result (λ form. FormFits form.items) }
    ensures memory { CountsAllocFailureInPacket result memory.old memory.new }
    ensures refused { IfWrong result (HasNoMeaning packet.now) }
    ensures normal { IfOk result (λ form. IsNormal form.items) }
    ensures bound { IfOk result (λ form. length form.items ≤ limit) }
    ensures accepts { PacketFits packet.now → FailsByMemory result }
    ensures layer { IfRefused result (IsRefused packet.now) }
    ensures asked { AsksOnlyForRdf packet.now memory.old memory.new }
{
    if packet.len() > LIMIT {
        return Err(Cause::TooLong.at(LIMIT));
    }
    if is_wide(packet) {
        return Err(Cause::RareEncoding.at(0));
    }
    let (before, rest) = packet.split_at(around_len(packet));
    let document = rest.split_at(unpadded_len(rest)).0;
    document_form(memory, document, before.len())
}

/// The normal form of a packet: that of what its document means.
///
/// `Content`: the first fault, of the length, the document or RDF. If `Cause::is_rare`, the packet may have a meaning, which
/// this crate does not read; otherwise it has none. `OutOfMemory`, exactly if an allocation failed in this call. Nothing is
/// allocated for a packet that is refused before RDF.
pub fn normal_form_in(memory: &mut Memory, packet: &[u8]) -> Result<Vec<u8>, Refusal>
    ensures packet { OnOk result (IsPacket packet.now) }
    ensures narrow { OnOk result (is_wide packet.now ≡ false) }
    ensures form { IfOk result (λ form. IsFormOfPacket packet.now form.items) }
    ensures readable { IfOk result (λ form. FormFits form.items) }
    ensures memory { CountsAllocFailureInPacket result memory.old memory.new }
    ensures refused { IfWrong result (HasNoMeaning packet.now) }
    ensures normal { IfOk result (λ form. IsNormal form.items) }
    ensures bound { IfOk result (λ form. length form.items ≤ limit) }
    ensures accepts { PacketFits packet.now → FailsByMemory result }
    ensures own { FormFits packet.now → FailsByMemory result }
    ensures same { IsReadableForm packet.now → IfOk result (λ form. form.items ≡ packet.now) }
    ensures layer { IfRefused result (IsRefused packet.now) }
    ensures asked { AsksOnlyForRdf packet.now memory.old memory.new }
{
    crate::laws::forms_fit();
    crate::laws::form_is_its_own();
    crate::laws::one_meaning();
    form_in(memory, packet)
}

/// Judges a packet as `normal_form_in` does, with the same errors.
pub fn check_in(memory: &mut Memory, packet: &[u8]) -> Result<(), Refusal>
    ensures packet { OnOk result (IsPacket packet.now) }
    ensures form { OnOk result (HasForm packet.now) }
    ensures memory { CountsAllocFailureInPacket result memory.old memory.new }
    ensures refused { IfWrong result (HasNoMeaning packet.now) }
    ensures accepts { PacketFits packet.now → FailsByMemory result }
    ensures own { FormFits packet.now → FailsByMemory result }
    ensures layer { IfRefused result (IsRefused packet.now) }
    ensures asked { AsksOnlyForRdf packet.now memory.old memory.new }
{
    normal_form_in(memory, packet)?;
    Ok(())
}
