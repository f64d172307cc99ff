// The XMP of a picture: its packet with the properties of its extended XMP. XMP part 3, 1.1.3.1.
ghost use Rattle.std.specs.Prelude.{◌≡◌, ◌≤◌, ◌++◌, ℕ, List, length, None, IfOk, IfSome, MatchOption, OnOk};
ghost use Rattle.px_bytes.specs.Allocations.{CountsAllocFailure};
ghost use Rattle.px_bytes.specs.Parts.{limit};
ghost use Rattle.px_jpeg.specs.Pieces.{pieces, range};
ghost use Rattle.px_pictures.specs.Xmp.{has_part};
ghost use Rattle.px_xmp.specs.Accepted.{PacketFits};
ghost use Rattle.px_xmp.specs.Packet.{IsPacket};
ghost use Rattle.px_xmp.specs.Laws.{IsFormOfPacket};
ghost use Rattle.px_xmp_forms.specs.Forms.{IsNormal};
ghost use Rattle.px_xmp_text.specs.Values.{packet_end};
ghost use Rattle.px_xmp_pictures.specs.Extension.{extension_pieces, IsExtension};
ghost use Rattle.px_xmp_pictures.specs.Joined.{packet_start, Names, IsNamed, NamesNone, IsLeftPacket};
ghost use Rattle.px_xmp_pictures.specs.Joined.{HasExtension, IsJoinedPacket, PartsFit, IsJoined, IsNotJoined};
ghost use Rattle.px_xmp_pictures.specs.Counts.{IfLeft, CountsAllocFailureInXmp};

use crate::digests::is_name_of;
use crate::portions::{
    NAME_LEN, in_order, join_portions, only_packet, portions_in, range, total_of,
};
use crate::unjoined::Unjoined;
use px_bytes::{AllocFailed, Memory};
use px_jpeg::Front;
use px_xmp::{check_in, normal_form_in};

// The octets of a normal form before its properties.
const PACKET_START: &[u8] = b"<x:xmpmeta xmlns:x=\"adobe:ns:meta/\">\
    <rdf:RDF xmlns:rdf=\"http://www.w3.org/1999/02/22-rdf-syntax-ns#\"><rdf:Description rdf:about=\"\">";

// The octets of a normal form after its properties.
const PACKET_END: &[u8] = b"</rdf:Description></rdf:RDF></x:xmpmeta>";

// How a normal form begins xmpNote:HasExtendedXMP, whatever its value is.
const LABEL: &[u8] = b"<p:HasExtendedXMP xmlns:p=\"http://ns.adobe.com/xmp/note/\"";

// How a normal form begins xmpNote:HasExtendedXMP if its value is a text without a language.
const POINTER_START: &[u8] = b"<p:HasExtendedXMP xmlns:p=\"http://ns.adobe.com/xmp/note/\">";

// How a normal form ends xmpNote:HasExtendedXMP.
const POINTER_END: &[u8] = b"</p:HasExtendedXMP>";

// The name of extended XMP in a form, and the octets of the form around the element that has it.
#[derive(Clone, Copy, Debug, PartialEq, Eq)]
struct Pointer<'a> {
    front: &'a [u8],
    name: &'a [u8],
    back: &'a [u8],
}

// What follows `first` in octets that begin with it. None: they don't.
fn after<'a>(octets: &'a [u8], first: &[u8]) -> Option<&'a [u8]>
    ensures { MatchOption result ((rest : List ℕ) → octets.now ≡ first.now ++ rest → ⊥) (λ rest. octets.now ≡ first.now ++ rest.now) }
{
    if octets.len() < first.len() {
        return None;
    }
    let (start, rest) = octets.split_at(first.len());
    if start != first {
        return None;
    }
    Some(rest)
}

// What precedes `last` in octets that end with it. None: they don't.
fn before<'a>(octets: &'a [u8], last: &[u8]) -> Option<&'a [u8]>
    ensures { MatchOption result ((rest : List ℕ) → octets.now ≡ rest ++ last.now → ⊥) (λ rest. octets.now ≡ rest.now ++ last.now) }
{
    if octets.len() < last.len() {
        return None;
    }
    let (rest, end) = octets.split_at(octets.len() - last.len());
    if end != last {
        return None;
    }
    Some(rest)
}

// The element at the start of some octets, if it has a name of extended XMP as its text.
fn pointer_at<'a>(front: &'a [u8], octets: &'a [u8]) -> Option<Pointer<'a>>
    ensures front { IfSome result (λ p. p.front.now ≡ front.now) }
    ensures named { MatchOption result ((name back : List ℕ) → Names octets.now name back → ⊥)
        (λ p. Names octets.now p.name.now p.back.now) }
{
    let Some(rest) = after(octets, POINTER_START) else {
        return None;
    };
    if rest.len() < NAME_LEN {
        return None;
    }
    let (name, rest) = rest.split_at(NAME_LEN);
    let Some(back) = after(rest, POINTER_END) else {
        return None;
    };
    Some(Pointer { front, name, back })
}

// The first element of a form that names extended XMP, if it has a name as its text.
fn find_pointer<'a>(form: &'a [u8]) -> Option<Pointer<'a>>
    ensures { MatchOption result ((front name back : List ℕ) → IsNamed form.now front name back → ⊥)
        (λ p. IsNamed form.now p.front.now p.name.now p.back.now) }
{
    for (n, _) in form.iter().enumerate() {
        let (front, rest) = form.split_at(n);
        if rest.starts_with(LABEL) {
            return pointer_at(front, rest);
        }
    }
    None
}

// Whether a list begins at some place in the octets.
#[tactic(auto, using(crate::proofs::PartLaws::part_further))]
fn has_part(wanted: &[u8], octets: &[u8]) -> bool
    ensures { result ≡ has_part wanted.now octets.now }
{
    for (n, _) in octets.iter().enumerate() {
        if octets.split_at(n).1.starts_with(wanted) {
            return true;
        }
    }
    false
}

// The properties of a normal form, without the elements around them. None: these elements are not
// around it.
fn properties_of<'a>(form: &'a [u8]) -> Option<&'a [u8]>
    ensures { MatchOption result ((ps : List ℕ) → form.now ≡ packet_start ++ ps ++ packet_end → ⊥)
        (λ ps. form.now ≡ packet_start ++ ps.now ++ packet_end) }
{
    match after(form, PACKET_START) {
        Some(rest) => before(rest, PACKET_END),
        None => None,
    }
}

// Three lists in a row.
fn join_three(
    memory: &mut Memory,
    first: &[u8],
    second: &[u8],
    third: &[u8],
) -> Result<Vec<u8>, AllocFailed>
    ensures joined { IfOk result (λ v. v.items ≡ first.now ++ second.now ++ third.now) }
    ensures memory { CountsAllocFailure result memory.old memory.new }
{
    let mut octets = memory.list();
    memory.extend_from_slice(&mut octets, first)?;
    memory.extend_from_slice(&mut octets, second)?;
    memory.extend_from_slice(&mut octets, third)?;
    Ok(octets)
}

// Sees that the octets of a form up to an element end in no other: with the end of a form they are a packet.
fn check_outermost(memory: &mut Memory, front: &[u8]) -> Result<(), Unjoined>
    ensures packet { OnOk result (IsPacket (front.now ++ packet_end)) }
    ensures left { IfLeft result (PacketFits (front.now ++ packet_end) → ⊥) }
    ensures memory { CountsAllocFailureInXmp result memory.old memory.new }
{
    let packet = join_three(memory, front, PACKET_END, b"")?;
    check_in(memory, packet.as_slice())?;
    Ok(())
}

// The extended XMP with a name.
fn extension_in(memory: &mut Memory, front: &Front, name: &[u8]) -> Result<Vec<u8>, Unjoined>
    ensures extension { let all = extension_pieces (pieces front.now.octets None front.now.parts) in
        IfOk result (λ v. IsExtension front.now.octets all name.now v.items) }
    ensures left { let all = extension_pieces (pieces front.now.octets None front.now.parts) in
        IfLeft result ((x : List ℕ) → IsExtension front.now.octets all name.now x → length x ≤ limit → ⊥) }
    ensures memory { CountsAllocFailureInXmp result memory.old memory.new }
{
    let bytes = front.bytes();
    let portions = in_order(portions_in(memory, front, name)?);
    let Some(total) = total_of(bytes, portions.as_slice()) else {
        return Err(Unjoined::NotRead);
    };
    let octets = join_portions(memory, bytes, portions.as_slice(), total)?;
    if !is_name_of(name, octets.as_slice()) {
        return Err(Unjoined::NotRead);
    }
    Ok(octets)
}

// The form of the extended XMP with a name.
fn extension_form(memory: &mut Memory, front: &Front, name: &[u8]) -> Result<Vec<u8>, Unjoined>
    ensures extended { let all = extension_pieces (pieces front.now.octets None front.now.parts) in
        IfOk result (λ v. HasExtension front.now.octets all name.now v.items) }
    ensures left { let all = extension_pieces (pieces front.now.octets None front.now.parts) in
        IfLeft result ((x : List ℕ) → IsExtension front.now.octets all name.now x → PacketFits x → ⊥) }
    ensures memory { CountsAllocFailureInXmp result memory.old memory.new }
{
    let octets = extension_in(memory, front, name)?;
    let form = normal_form_in(memory, octets.as_slice())?;
    Ok(form)
}

// The packet of a form with the properties of another one in place of the element that names it.
fn joined_packet(memory: &mut Memory, front: &Front, form: &[u8]) -> Result<Vec<u8>, Unjoined>
    ensures joined { let all = extension_pieces (pieces front.now.octets None front.now.parts) in
        IfOk result (λ v. IsJoinedPacket front.now.octets all form.now v.items) }
    ensures left { let all = extension_pieces (pieces front.now.octets None front.now.parts) in
        IfLeft result ((whole : List ℕ) → (j : IsJoinedPacket front.now.octets all form.now whole) → PartsFit j → ⊥) }
    ensures memory { CountsAllocFailureInXmp result memory.old memory.new }
{
    px_xmp::laws::one_packet();
    px_xmp::laws::one_meaning();
    let Some(pointer) = find_pointer(form) else {
        return Err(Unjoined::NotRead);
    };
    check_outermost(memory, pointer.front)?;
    let extension = extension_form(memory, front, pointer.name)?;
    let Some(properties) = properties_of(extension.as_slice()) else {
        return Err(Unjoined::NotRead);
    };
    let packet = join_three(memory, pointer.front, properties, pointer.back)?;
    Ok(packet)
}

// The form of a packet that names no extended XMP.
fn plain_form(memory: &mut Memory, packet: &[u8]) -> Result<Vec<u8>, Unjoined>
    ensures form { IfOk result (λ form. IsFormOfPacket packet.now form.items) }
    ensures normal { IfOk result (λ form. IsNormal form.items) }
    ensures none { IfOk result (λ form. NamesNone form.items) }
    ensures left { IfLeft result (IsLeftPacket packet.now) }
    ensures memory { CountsAllocFailureInXmp result memory.old memory.new }
{
    let form = normal_form_in(memory, packet)?;
    if has_part(LABEL, form.as_slice()) {
        return Err(Unjoined::NotRead);
    }
    Ok(form)
}

// The form of a packet of a picture.
fn packet_form(
    memory: &mut Memory,
    front: &Front,
    start: usize,
    size: usize,
) -> Result<Vec<u8>, Unjoined>
    ensures form { IfOk result (λ form. IsFormOfPacket (range front.now.octets start size) form.items) }
    ensures left { IfLeft result (PacketFits (range front.now.octets start size) → ⊥) }
    ensures memory { CountsAllocFailureInXmp result memory.old memory.new }
{
    let form = normal_form_in(memory, range(front.bytes(), start, size))?;
    Ok(form)
}

// The form of the only packet of a picture, if it names no extended XMP.
pub(crate) fn only_form(
    memory: &mut Memory,
    front: &Front,
    start: usize,
    size: usize,
) -> Result<Vec<u8>, Unjoined>
    ensures form { IfOk result (λ form. IsFormOfPacket (range front.now.octets start size) form.items) }
    ensures normal { IfOk result (λ form. IsNormal form.items) }
    ensures none { IfOk result (λ form. NamesNone form.items) }
    ensures left { IfLeft result (IsLeftPacket (range front.now.octets start size)) }
    ensures memory { CountsAllocFailureInXmp result memory.old memory.new }
{
    let form = plain_form(memory, range(front.bytes(), start, size))?;
    Ok(form)
}

// The form of the only packet of a picture with the properties of its extended XMP.
pub(crate) fn joined_form(memory: &mut Memory, front: &Front) -> Result<Vec<u8>, Unjoined>
    ensures joined { IfOk result (λ form. IsJoined front.now form.items) }
    ensures normal { IfOk result (λ form. IsNormal form.items) }
    ensures none { IfOk result (λ form. NamesNone form.items) }
    ensures left { IfLeft result (IsNotJoined front.now) }
    ensures memory { CountsAllocFailureInXmp result memory.old memory.new }
{
    px_xmp::laws::one_packet();
    px_xmp::laws::one_meaning();
    let Some(packet) = only_packet(front) else {
        return Err(Unjoined::NotRead);
    };
    let form = packet_form(memory, front, packet.start, packet.size)?;
    let joined = joined_packet(memory, front, form.as_slice())?;
    let whole = plain_form(memory, joined.as_slice())?;
    Ok(whole)
}
