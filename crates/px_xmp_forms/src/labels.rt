// The tags of the normal form.
// `Err` of a call is why it writes nothing more: `Content`, what can't be written, as a form
// that is too long; or `OutOfMemory`, a failed allocation.
ghost use Rattle.std.specs.Prelude.{◌≡◌, ◌≤◌, ◌+◌, ◌++◌, ◌↔◌, [], true, length, min, vec_capacity, OnOk};
ghost use Rattle.px_xmp_text.specs.Values.{opening_tag, end_tag, compound_start, compound_end, IsLabel};
ghost use Rattle.px_xmp_forms.specs.Forms.{most, has};
ghost use Rattle.px_xmp_forms.specs.Labels.{label_of};
ghost use Rattle.px_xmp_forms.specs.Labels.{label_view, property_view, local_octets, container_view, compound_view, container_octets};
ghost use Rattle.px_xmp_forms.specs.Allocations.{CountsAllocFailureInPacket, tag_octets};
ghost use Rattle.px_xmp_forms.specs.Causes.{IsRare, FailsByMemory};

use crate::appending::append;
use crate::faults::Refusal;
use crate::spaces::split_space;
use px_bytes::Memory;

/// The three containers.
#[derive(Clone, Copy, Debug, PartialEq, Eq)]
pub enum Container {
    /// `rdf:Bag`, without an order.
    Bag,
    /// `rdf:Seq`.
    Seq,
    /// `rdf:Alt`.
    Alt,
}

impl Container {
    // The name of the element of an array, and the end of its tag. XMP part 1, 7.7.
    fn name(self) -> &'static [u8]
        ensures { result.now ≡ container_octets self }
    {
        match self {
            Container::Bag => b"rdf:Bag>",
            Container::Seq => b"rdf:Seq>",
            Container::Alt => b"rdf:Alt>",
        }
    }
}

/// The name of a property: a namespace and a local name, joined.
#[derive(Clone, Copy, Debug, PartialEq, Eq)]
pub struct Property<'a> {
    // The namespace, before the name at its end.
    space: &'a [u8],
    // This name, to which the local name is joined.
    head: &'a [u8],
    local: &'a [u8],
}

impl<'a> Property<'a> {
    /// The name with a namespace and a local name.
    pub fn new(space: &'a [u8], local: &'a [u8]) -> Property<'a>
        ensures { property_view result ≡ label_of space.now local.now }
    {
        let (space, head) = split_space(space);
        Property { space, head, local }
    }
}

/// What an element is that has a value.
#[derive(Clone, Copy, Debug, PartialEq, Eq)]
pub enum Label<'a> {
    /// A property.
    Property(Property<'a>),
    /// A member of a container.
    Member,
}

/// Where an attribute is that is a property.
#[derive(Clone, Copy, Debug, PartialEq, Eq)]
pub struct Origin<'a> {
    /// The language of the texts in its element, which is empty if there is none.
    pub language: &'a [u8],
    /// The offset of its element's tag in the packet.
    pub place: usize,
}

/// What a value is.
#[derive(Clone, Copy, Debug, PartialEq, Eq)]
pub enum Content<'a> {
    /// A text in a language, which is empty if there is none.
    Text(&'a [u8]),
    /// Properties.
    Structure,
    /// A resource: no content, and an attribute.
    Resource,
    /// Members.
    Members(Container),
}

// The number of octets of a property's tags, without what is between them.
fn property_size(name: Property) -> usize
    ensures bound { result ≤ tag_octets (property_view name.entry) }
    ensures enough { min most (tag_octets (property_view name.entry)) ≤ result }
{
    let local = name.head.len().saturating_add(name.local.len());
    let tags = b"<p: xmlns:p=\"\"</p:>"
        .len()
        .saturating_add(name.space.len());
    tags.saturating_add(local).saturating_add(local)
}

// The number of octets of an element's tags, without the end of its start tag and what is between them.
pub(crate) fn label_size(label: Label) -> usize
    ensures bound { result ≤ tag_octets (label_view label.entry) }
    ensures enough { min most (tag_octets (label_view label.entry)) ≤ result }
{
    match label {
        Label::Property(name) => property_size(name),
        Label::Member => b"<rdf:li</rdf:li>".len(),
    }
}

// Appends the local name of a property.
fn append_local(memory: &mut Memory, out: &mut Vec<u8>, name: Property) -> Result<(), Refusal>
    ensures items { OnOk result (out.new.items ≡ out.old.items ++ local_octets name.entry) }
    ensures memory { CountsAllocFailureInPacket result memory.old memory.new }
    ensures rare { IsRare result }
    ensures accepts { length out.old.items + length (local_octets name.entry) ≤ most → FailsByMemory result }
    ensures capacity { vec_capacity out.old ≤ vec_capacity out.new }
    ensures fits { min most (length out.old.items + length (local_octets name.entry)) ≤ vec_capacity out.old → memory.new.asked ≡ memory.old.asked }
{
    append(memory, out, name.head)?;
    append(memory, out, name.local)
}

// Appends the start tag of a property, without its end.
fn append_property(memory: &mut Memory, out: &mut Vec<u8>, name: Property) -> Result<(), Refusal>
    ensures items { OnOk result (out.new.items ≡ out.old.items ++ opening_tag (property_view name.entry) []) }
    ensures memory { CountsAllocFailureInPacket result memory.old memory.new }
    ensures rare { IsRare result }
    ensures accepts { length out.old.items + length (opening_tag (property_view name.entry) []) ≤ most → FailsByMemory result }
    ensures capacity { vec_capacity out.old ≤ vec_capacity out.new }
    ensures fits { min most (length out.old.items + length (opening_tag (property_view name.entry) [])) ≤ vec_capacity out.old → memory.new.asked ≡ memory.old.asked }
{
    append(memory, out, b"<p:")?;
    append_local(memory, out, name)?;
    append(memory, out, b" xmlns:p=\"")?;
    append(memory, out, name.space)?;
    append(memory, out, b"\"")
}

// Appends a start tag, without its end.
pub(crate) fn append_label(
    memory: &mut Memory,
    out: &mut Vec<u8>,
    label: Label,
) -> Result<(), Refusal>
    ensures items { OnOk result (out.new.items ≡ out.old.items ++ opening_tag (label_view label.entry) []) }
    ensures memory { CountsAllocFailureInPacket result memory.old memory.new }
    ensures rare { IsRare result }
    ensures accepts { length out.old.items + length (opening_tag (label_view label.entry) []) ≤ most → FailsByMemory result }
    ensures capacity { vec_capacity out.old ≤ vec_capacity out.new }
    ensures fits { min most (length out.old.items + length (opening_tag (label_view label.entry) [])) ≤ vec_capacity out.old → memory.new.asked ≡ memory.old.asked }
{
    match label {
        Label::Property(name) => append_property(memory, out, name),
        Label::Member => append(memory, out, b"<rdf:li"),
    }
}

// Appends the end tag of a property.
fn append_property_end(
    memory: &mut Memory,
    out: &mut Vec<u8>,
    name: Property,
) -> Result<(), Refusal>
    ensures items { OnOk result (out.new.items ≡ out.old.items ++ end_tag (property_view name.entry) []) }
    ensures memory { CountsAllocFailureInPacket result memory.old memory.new }
    ensures rare { IsRare result }
    ensures accepts { length out.old.items + length (end_tag (property_view name.entry) []) ≤ most → FailsByMemory result }
    ensures capacity { vec_capacity out.old ≤ vec_capacity out.new }
    ensures fits { min most (length out.old.items + length (end_tag (property_view name.entry) [])) ≤ vec_capacity out.old → memory.new.asked ≡ memory.old.asked }
{
    append(memory, out, b"</p:")?;
    append_local(memory, out, name)?;
    append(memory, out, b">")
}

// Appends an end tag.
pub(crate) fn append_label_end(
    memory: &mut Memory,
    out: &mut Vec<u8>,
    label: Label,
) -> Result<(), Refusal>
    ensures items { OnOk result (out.new.items ≡ out.old.items ++ end_tag (label_view label.entry) []) }
    ensures memory { CountsAllocFailureInPacket result memory.old memory.new }
    ensures rare { IsRare result }
    ensures accepts { length out.old.items + length (end_tag (label_view label.entry) []) ≤ most → FailsByMemory result }
    ensures capacity { vec_capacity out.old ≤ vec_capacity out.new }
    ensures fits { min most (length out.old.items + length (end_tag (label_view label.entry) [])) ≤ vec_capacity out.old → memory.new.asked ≡ memory.old.asked }
{
    match label {
        Label::Property(name) => append_property_end(memory, out, name),
        Label::Member => append(memory, out, b"</rdf:li>"),
    }
}

// Appends the start tag of a container in an element.
fn append_container(
    memory: &mut Memory,
    out: &mut Vec<u8>,
    container: Container,
) -> Result<(), Refusal>
    ensures items { OnOk result (out.new.items ≡ out.old.items ++ compound_start (container_view container) []) }
    ensures memory { CountsAllocFailureInPacket result memory.old memory.new }
    ensures rare { IsRare result }
    ensures accepts { length out.old.items + length (compound_start (container_view container) []) ≤ most → FailsByMemory result }
    ensures capacity { vec_capacity out.old ≤ vec_capacity out.new }
    ensures fits { min most (length out.old.items + length (compound_start (container_view container) [])) ≤ vec_capacity out.old → memory.new.asked ≡ memory.old.asked }
{
    append(memory, out, b"><")?;
    append(memory, out, container.name())
}

// Appends the end tag of a container.
fn append_container_end(
    memory: &mut Memory,
    out: &mut Vec<u8>,
    container: Container,
) -> Result<(), Refusal>
    ensures items { OnOk result (out.new.items ≡ out.old.items ++ compound_end (container_view container) []) }
    ensures memory { CountsAllocFailureInPacket result memory.old memory.new }
    ensures rare { IsRare result }
    ensures accepts { length out.old.items + length (compound_end (container_view container) []) ≤ most → FailsByMemory result }
    ensures capacity { vec_capacity out.old ≤ vec_capacity out.new }
    ensures fits { min most (length out.old.items + length (compound_end (container_view container) [])) ≤ vec_capacity out.old → memory.new.asked ≡ memory.old.asked }
{
    append(memory, out, b"</")?;
    append(memory, out, container.name())
}

// Appends what precedes members in their element or, without a container, properties.
pub(crate) fn append_start(
    memory: &mut Memory,
    out: &mut Vec<u8>,
    container: Option<Container>,
) -> Result<(), Refusal>
    ensures items { OnOk result (out.new.items ≡ out.old.items ++ compound_start (compound_view container) []) }
    ensures memory { CountsAllocFailureInPacket result memory.old memory.new }
    ensures rare { IsRare result }
    ensures accepts { length out.old.items + length (compound_start (compound_view container) []) ≤ most → FailsByMemory result }
    ensures capacity { vec_capacity out.old ≤ vec_capacity out.new }
    ensures fits { min most (length out.old.items + length (compound_start (compound_view container) [])) ≤ vec_capacity out.old → memory.new.asked ≡ memory.old.asked }
{
    match container {
        Some(container) => append_container(memory, out, container),
        None => append(memory, out, b" rdf:parseType=\"Resource\">"),
    }
}

// Appends what follows members or, without a container, properties, before the end tag of their
// element.
pub(crate) fn append_stop(
    memory: &mut Memory,
    out: &mut Vec<u8>,
    container: Option<Container>,
) -> Result<(), Refusal>
    ensures items { OnOk result (out.new.items ≡ out.old.items ++ compound_end (compound_view container) []) }
    ensures memory { CountsAllocFailureInPacket result memory.old memory.new }
    ensures rare { IsRare result }
    ensures accepts { length out.old.items + length (compound_end (compound_view container) []) ≤ most → FailsByMemory result }
    ensures capacity { vec_capacity out.old ≤ vec_capacity out.new }
    ensures fits { min most (length out.old.items + length (compound_end (compound_view container) [])) ≤ vec_capacity out.old → memory.new.asked ≡ memory.old.asked }
{
    match container {
        Some(container) => append_container_end(memory, out, container),
        None => append(memory, out, b""),
    }
}

// Whether one of `octets` is `octet`.
pub(crate) fn has(octets: &[u8], octet: u8) -> bool
    ensures { result ≡ has octet octets.now }
{
    octets.contains(&octet)
}

// Whether the name of a property can be written.
fn is_property(name: Property) -> bool
    ensures { result ≡ true ↔ IsLabel (property_view name.entry) }
{
    if has(name.space, b'"') {
        return false;
    }
    if has(name.head, b' ') {
        return false;
    }
    if has(name.local, b' ') {
        return false;
    }
    true
}

// Whether a label can be written.
pub(crate) fn is_label(label: Label) -> bool
    ensures { result ≡ true ↔ IsLabel (label_view label.entry) }
{
    match label {
        Label::Property(name) => is_property(name),
        Label::Member => true,
    }
}
