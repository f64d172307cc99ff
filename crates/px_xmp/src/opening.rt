// Reads the attributes of an element of RDF, some of which are properties.
// `Err` of a call is why it reads no further: `Content`, what is wrong or rare and its byte offset
// in the packet; or `OutOfMemory`, a failed allocation.
ghost use Rattle.std.specs.Prelude.{◌≡◌, ◌≤◌, ℕ, List, [], Some, length, OnOk, IfOk};
ghost use Rattle.px_bytes.specs.Parts.{limit};
ghost use Rattle.px_xmp_text.specs.Texts.{text_of};
ghost use Rattle.px_xmp_text.specs.Values as values;
ghost use Rattle.px_xmp_text.specs.Values.{Structure};
ghost use Rattle.px_xmp_marks.specs.Reading.{Attr, next_view};
ghost use Rattle.px_xmp_forms.specs.Allocations.{CountsAllocFailureInPacket};
ghost use Rattle.px_xmp_forms.specs.Causes.{IsRare, FailsByMemory};
ghost use Rattle.px_xmp_forms.specs.Entries.{Entry};
ghost use Rattle.px_xmp_forms.specs.Forms.{TextFits};
ghost use Rattle.px_xmp_forms.specs.Uris.{IsAbsolute};
ghost use Rattle.px_xmp_text.specs.declared.pieces.TextKind.TheVariants.{AttributeValue};
ghost use Rattle.px_xmp_forms.specs.Outputs.{State, Has};
ghost use Rattle.px_xmp.specs.Tags.{plain, fields_in};
ghost use Rattle.px_xmp.specs.Meaning.{literal, label_in};
ghost use Rattle.px_xmp.specs.calls.Listed.{AreListed};
ghost use Rattle.px_xmp.specs.calls.Opening.{name_of};
ghost use Rattle.px_xmp.specs.calls.Contents.{PropertyPut, PropertiesPut, ResourcePut, IsFilled};
ghost use Rattle.px_xmp.specs.calls.Fits.{EntryFits, AttributesFit, FillingFits};

use crate::attributes::next_plain;
use crate::elements::{Around, DEPTH_LIMIT, Filling};
use crate::names::Named;
use crate::scope::Scope;
use px_bytes::Memory;
use px_xmp_forms::{Cause, Origin, Output, Refusal, is_absolute};
use px_xmp_marks::NextAttribute;

// The only value of rdf:parseType that XMP has.
const PARSE_TYPE: &[u8] = b"Resource";

// Adds the property that an attribute is, which is an element of the normal form.
pub(crate) fn put_property(
    memory: &mut Memory,
    output: &mut Output,
    name: Named,
    value: &[u8],
    around: Around,
) -> Result<(), Refusal>
    ensures value { (s : State) → Has output.old s
        → OnOk result (PropertyPut (name_of name.entry) value.now around.entry.language.now around.entry.depth
        around.entry.place s output.new) }
    ensures memory { CountsAllocFailureInPacket result memory.old memory.new }
    ensures rare { IsRare result }
    ensures accepts { (label : values.Label) (t : List ℕ) → label_in Structure (name_of name.entry) ≡ Some label
        → text_of AttributeValue value.now ≡ Some t → length value.now ≤ limit
        → EntryFits around.entry.depth label (literal around.entry.language.now t) → FailsByMemory result }
{
    let Some(label) = name.property() else {
        return Err(Cause::RareAttribute.at(around.place));
    };
    if around.depth >= DEPTH_LIMIT {
        return Err(Cause::RareDepth.at(around.place));
    }
    let origin = Origin {
        language: around.language,
        place: around.place,
    };
    output.put_attribute(memory, label, value, origin)
}

// Reads attributes that are all properties.
#[inline(never)]
pub(crate) fn put_properties<'a>(
    memory: &mut Memory,
    output: &mut Output,
    scope: &Scope<'a>,
    attributes: &'a [u8],
    around: Around<'a>,
) -> Result<(), Refusal>
    ensures value { (s : State) (all : List Attr) → Has output.old s → AreListed attributes.now all
        → OnOk result (PropertiesPut (fields_in scope.now all) around.entry.language.now around.entry.depth
        around.entry.place s output.new) }
    ensures memory { CountsAllocFailureInPacket result memory.old memory.new }
    ensures rare { IsRare result }
    ensures accepts { (all : List Attr) (es : List Entry) → AreListed attributes.now all
        → AttributesFit around.entry.language.now around.entry.place around.entry.depth (fields_in scope.now all) es
        → FailsByMemory result }
{
    let mut found = next_plain(attributes);
    while let Some(next) = found {
        let name = scope.attribute(next.attribute.name);
        put_property(memory, output, name, next.attribute.value, around)?;
        found = next_plain(next.rest);
    }
    Ok(())
}

// Puts the resource that the only attribute of a property or a member names.
fn put_resource<'a>(
    memory: &mut Memory,
    output: &mut Output,
    first: NextAttribute<'a>,
    around: Around<'a>,
) -> Result<(), Refusal>
    ensures value { (s : State) → Has output.old s → OnOk result (ResourcePut (next_view first.entry) s output.new) }
    ensures memory { CountsAllocFailureInPacket result memory.old memory.new }
    ensures rare { IsRare result }
    ensures accepts { (more : List Attr) → AreListed (next_view first.entry).rest more → plain more ≡ []
        → IsAbsolute (next_view first.entry).attribute.value → TextFits AttributeValue (next_view first.entry).attribute.value 0
        → FailsByMemory result }
{
    if !is_absolute(first.attribute.value) {
        return Err(Cause::RareResource.at(around.place));
    }
    output.put_resource(memory, first.attribute.value)?;
    if next_plain(first.rest).is_some() {
        return Err(Cause::RareAttribute.at(around.place));
    }
    Ok(())
}

// Reads the attributes of a property or a member.
#[inline(never)]
pub(crate) fn read_filling<'a>(
    memory: &mut Memory,
    output: &mut Output,
    scope: &Scope<'a>,
    attributes: &'a [u8],
    around: Around<'a>,
) -> Result<Filling, Refusal>
    ensures value { (s : State) (all : List Attr) → Has output.old s → AreListed attributes.now all
        → IfOk result (λ f. IsFilled f (fields_in scope.now all) around.entry.language.now around.entry.depth
        around.entry.place s output.new) }
    ensures memory { CountsAllocFailureInPacket result memory.old memory.new }
    ensures rare { IsRare result }
    ensures accepts { (all : List Attr) → AreListed attributes.now all
        → FillingFits around.entry.language.now around.entry.place around.entry.depth (fields_in scope.now all) → FailsByMemory result }
{
    let Some(first) = next_plain(attributes) else {
        return Ok(Filling::Any);
    };
    let name = scope.attribute(first.attribute.name);
    if name.is_rdf(b"parseType") {
        if first.attribute.value != PARSE_TYPE || next_plain(first.rest).is_some() {
            return Err(Cause::RareAttribute.at(around.place));
        }
        return Ok(Filling::Properties);
    }
    if name.is_rdf(b"resource") {
        put_resource(memory, output, first, around)?;
        return Ok(Filling::Resource);
    }
    put_properties(memory, output, scope, attributes, around)?;
    Ok(Filling::Attributes)
}
