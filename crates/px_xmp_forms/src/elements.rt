// The elements of the normal form: a property or a member with its value.
// `Err` of a call is why it writes nothing more: `Content`, what can't be written, as a form
// that is too long; or `OutOfMemory`, a failed allocation.
ghost use Rattle.std.specs.Prelude.{◌≡◌, ◌≤◌, ◌+◌, ◌++◌, [], ℕ, List, length, min, vec_capacity, OnOk, IfOk};
ghost use Rattle.std.specs.Str.{str_to_ascii_lowercase};
ghost use Rattle.px_xmp_text.specs.Texts.{normal_text};
ghost use Rattle.px_xmp_text.specs.Values.{IsLabel, IsContent, Without, Literal, Uri, written};
ghost use Rattle.px_xmp_text.specs.Values as values;
ghost use Rattle.px_xmp_forms.specs.Entries.{ValueFits, Plain, Inside};
ghost use Rattle.px_xmp_forms.specs.Outputs.{IsElement, value_of};
ghost use Rattle.px_xmp_forms.specs.Forms.{most, language_octets, HaveShortLanguages, IsTextForm};
ghost use Rattle.px_xmp_forms.specs.Languages.{language_limit};
ghost use Rattle.px_xmp_forms.specs.Labels.{label_view, compound_view};
ghost use Rattle.px_xmp_forms.specs.Allocations.{CountsAllocFailureInPacket, tag_octets, text_request, uri_request};
ghost use Rattle.px_xmp_forms.specs.Causes.{IsRare, FailsByMemory};
ghost use Rattle.px_bytes.specs.Allocations.{AsksAtMost};

use crate::appending::{LIMIT, append, reserve};
use crate::faults::{Cause, Refusal};
use crate::labels::{
    Container, Content, Label, append_label, append_label_end, append_start, append_stop, has,
    is_label, label_size,
};
use crate::languages::LANGUAGE_LIMIT;
use crate::pieces::{Piece, TextForm};
use px_bytes::Memory;

// An element, and the number of its octets that have its name.
#[derive(Drop)]
pub(crate) struct Element {
    pub(crate) piece: Piece,
    pub(crate) label_len: usize,
}

// The most octets around members or properties, without the tags of their element.
const COMPOUND: usize = 26;

// The octets of the attribute for a resource besides the URI, with the end of the tag.
const RESOURCE: usize = 18;

// The octets of the attribute for a language besides the language, with the end of the start tag.
const LANGUAGE: usize = 13;

// The space for the element of a label around `more` octets.
fn element_size(label: Label, more: usize) -> usize
    ensures bound { result ≤ tag_octets (label_view label.entry) + more }
    ensures enough { min most (tag_octets (label_view label.entry) + more) ≤ result }
{
    label_size(label).saturating_add(more)
}

// The space for the attribute for a language, with the end of the start tag, and a text.
fn text_size(language: &[u8], content: &[u8]) -> usize
    ensures bound { result ≤ length (language_octets language.now) + length content.now }
    ensures enough { min most (length (language_octets language.now) + length content.now) ≤ result }
{
    if language.is_empty() {
        return content.len().saturating_add(1);
    }
    content
        .len()
        .saturating_add(language.len())
        .saturating_add(LANGUAGE)
}

// A language in lower case.
fn lower(memory: &mut Memory, language: &[u8]) -> Result<Vec<u8>, Refusal>
    ensures value { IfOk result (λ v. v.items ≡ str_to_ascii_lowercase language.now) }
    ensures memory { CountsAllocFailureInPacket result memory.old memory.new }
    ensures rare { IsRare result }
    ensures accepts { FailsByMemory result }
    ensures asked { length language.now ≤ most → AsksAtMost (length language.now) memory.old memory.new }
{
    let mut octets = memory.list();
    reserve(memory, &mut octets, language.len())?;
    for octet in language {
        memory.push(&mut octets, octet.to_ascii_lowercase())?;
    }
    Ok(octets)
}

// Appends the attribute for a language, and the end of the start tag.
fn append_attribute(memory: &mut Memory, out: &mut Vec<u8>, language: &[u8]) -> Result<(), Refusal>
    requires { 1 ≤ length language.now }
    ensures items { OnOk result (out.new.items ≡ out.old.items ++ language_octets language.now) }
    ensures memory { CountsAllocFailureInPacket result memory.old memory.new }
    ensures rare { IsRare result }
    ensures accepts { length out.old.items + length (language_octets language.now) ≤ most → FailsByMemory result }
    ensures capacity { vec_capacity out.old ≤ vec_capacity out.new }
    ensures fits { min most (length out.old.items + length (language_octets language.now)) ≤ vec_capacity out.old
        → memory.new.asked ≡ memory.old.asked }
{
    append(memory, out, b" xml:lang=\"")?;
    append(memory, out, language)?;
    append(memory, out, b"\">")
}

// Appends the attribute for a language in lower case, if there is one, and the end of the start tag.
fn append_language(memory: &mut Memory, out: &mut Vec<u8>, language: &[u8]) -> Result<(), Refusal>
    ensures items { OnOk result (out.new.items ≡ out.old.items ++ language_octets (str_to_ascii_lowercase language.now)) }
    ensures can { OnOk result (Without 34 (str_to_ascii_lowercase language.now)) }
    ensures short { OnOk result (length (str_to_ascii_lowercase language.now) ≤ language_limit) }
    ensures memory { CountsAllocFailureInPacket result memory.old memory.new }
    ensures rare { IsRare result }
    ensures accepts { Without 34 (str_to_ascii_lowercase language.now) → length (str_to_ascii_lowercase language.now) ≤ language_limit
        → length out.old.items + length (language_octets (str_to_ascii_lowercase language.now)) ≤ most → FailsByMemory result }
    ensures capacity { vec_capacity out.old ≤ vec_capacity out.new }
    ensures asked { min most (length out.old.items + length (language_octets language.now)) ≤ vec_capacity out.old
        → AsksAtMost (length language.now) memory.old memory.new }
{
    if language.is_empty() {
        return append(memory, out, b">");
    }
    if language.len() > LANGUAGE_LIMIT {
        return Err(Cause::RareLanguage.at(LIMIT));
    }
    let octets = lower(memory, language)?;
    let language = octets.as_slice();
    if has(language, b'"') {
        return Err(Cause::RareLanguage.at(LIMIT));
    }
    append_attribute(memory, out, language)
}

// The element of a text.
#[tactic(auto, using(crate::proofs::ElementLaws::literal_length))]
fn literal_element(
    memory: &mut Memory,
    label: Label,
    language: &[u8],
    content: &[u8],
) -> Result<Element, Refusal>
    requires label { IsLabel (label_view label) }
    requires form { IsTextForm content.now }
    ensures value { (t : List ℕ) → content.now ≡ normal_text t →
        IfOk result (λ x. IsElement x (label_view label.entry) (Plain (Literal (str_to_ascii_lowercase language.now) t))) }
    ensures memory { CountsAllocFailureInPacket result memory.old memory.new }
    ensures rare { IsRare result }
    ensures accepts { (t : List ℕ) → content.now ≡ normal_text t
        → ValueFits (label_view label.entry) (Plain (Literal (str_to_ascii_lowercase language.now) t)) → FailsByMemory result }
    ensures asked { AsksAtMost (text_request (label_view label.entry) language.now content.now) memory.old memory.new }
{
    let mut octets = memory.list();
    reserve(
        memory,
        &mut octets,
        element_size(label, text_size(language, content)),
    )?;
    append_label(memory, &mut octets, label)?;
    let label_len = octets.as_slice().len();
    append_language(memory, &mut octets, language)?;
    append(memory, &mut octets, content)?;
    append_label_end(memory, &mut octets, label)?;
    Ok(Element {
        piece: Piece::of(octets),
        label_len,
    })
}

// The element of a resource.
#[tactic(auto, using(crate::proofs::ElementLaws::uri_length))]
fn resource_element(memory: &mut Memory, label: Label, uri: &TextForm) -> Result<Element, Refusal>
    requires { IsLabel (label_view label) }
    ensures value { (t : List ℕ) → uri.now ≡ normal_text t → IfOk result (λ x. IsElement x (label_view label.entry) (Plain (Uri t))) }
    ensures memory { CountsAllocFailureInPacket result memory.old memory.new }
    ensures rare { IsRare result }
    ensures accepts { (t : List ℕ) → uri.now ≡ normal_text t → ValueFits (label_view label.entry) (Plain (Uri t)) → FailsByMemory result }
    ensures asked { AsksAtMost (uri_request (label_view label.entry) uri.now) memory.old memory.new }
{
    let uri = uri.octets();
    if has(uri, b'"') {
        return Err(Cause::RareResource.at(LIMIT));
    }
    let mut octets = memory.list();
    reserve(
        memory,
        &mut octets,
        element_size(label, uri.len().saturating_add(RESOURCE)),
    )?;
    append_label(memory, &mut octets, label)?;
    let label_len = octets.as_slice().len();
    append(memory, &mut octets, b" rdf:resource=\"")?;
    append(memory, &mut octets, uri)?;
    append(memory, &mut octets, b"\"/>")?;
    Ok(Element {
        piece: Piece::of(octets),
        label_len,
    })
}

// The element of a container or, without one, of a structure.
#[tactic(auto, using(crate::proofs::ElementLaws::nested_length))]
fn nested_element(
    memory: &mut Memory,
    label: Label,
    container: Option<Container>,
    inner: Piece,
) -> Result<Element, Refusal>
    requires { IsLabel (label_view label) }
    ensures value { (c : values.Content) → inner ≡ written c [] → IsContent c → HaveShortLanguages c →
        IfOk result (λ x. IsElement x (label_view label.entry) (Inside (compound_view container) c)) }
    ensures memory { CountsAllocFailureInPacket result memory.old memory.new }
    ensures rare { IsRare result }
    ensures accepts { (c : values.Content) → inner ≡ written c []
        → ValueFits (label_view label.entry) (Inside (compound_view container) c) → FailsByMemory result }
{
    let mut tags = memory.list();
    reserve(memory, &mut tags, element_size(label, COMPOUND))?;
    append_label(memory, &mut tags, label)?;
    let label_len = tags.as_slice().len();
    append_start(memory, &mut tags, container)?;
    let front_len = tags.as_slice().len();
    append_stop(memory, &mut tags, container)?;
    append_label_end(memory, &mut tags, label)?;
    let (front, back) = tags.as_slice().split_at(front_len);
    let piece = inner.between(memory, front, back)?;
    Ok(Element { piece, label_len })
}

// The element of a text that is the value of an attribute. `Content`: it cannot be written.
pub(crate) fn text_element(
    memory: &mut Memory,
    label: Label,
    language: &[u8],
    content: &[u8],
) -> Result<Element, Refusal>
    requires { IsTextForm content.now }
    ensures value { (t : List ℕ) → content.now ≡ normal_text t →
        IfOk result (λ x. IsElement x (label_view label.entry) (Plain (Literal (str_to_ascii_lowercase language.now) t))) }
    ensures memory { CountsAllocFailureInPacket result memory.old memory.new }
    ensures rare { IsRare result }
    ensures accepts { (t : List ℕ) → content.now ≡ normal_text t
        → ValueFits (label_view label.entry) (Plain (Literal (str_to_ascii_lowercase language.now) t)) → FailsByMemory result }
    ensures asked { AsksAtMost (text_request (label_view label.entry) language.now content.now) memory.old memory.new }
{
    if !is_label(label) {
        return Err(Cause::RareNamespace.at(LIMIT));
    }
    literal_element(memory, label, language, content)
}

// The element of a value: its text or resource, or what is inside it. `Content`: it cannot be written.
pub(crate) fn write_element(
    memory: &mut Memory,
    label: Label,
    content: Content,
    text: &TextForm,
    inner: Piece,
) -> Result<Element, Refusal>
    ensures value { (t : List ℕ) (c : values.Content) → text.now ≡ normal_text t → inner ≡ written c [] → IsContent c
        → HaveShortLanguages c → IfOk result (λ x. IsElement x (label_view label.entry) (value_of content.entry t c)) }
    ensures memory { CountsAllocFailureInPacket result memory.old memory.new }
    ensures rare { IsRare result }
    ensures accepts { (t : List ℕ) (c : values.Content) → text.now ≡ normal_text t → inner ≡ written c []
        → ValueFits (label_view label.entry) (value_of content.entry t c) → FailsByMemory result }
{
    if !is_label(label) {
        return Err(Cause::RareNamespace.at(LIMIT));
    }
    match content {
        Content::Text(language) => literal_element(memory, label, language, text.octets()),
        Content::Resource => resource_element(memory, label, text),
        Content::Structure => nested_element(memory, label, None, inner),
        Content::Members(container) => nested_element(memory, label, Some(container), inner),
    }
}
