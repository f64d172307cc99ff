// The cause for which a packet is refused whose document has a fault.
ghost use Rattle.std.specs.Prelude.{◌≡◌, ◌≤◌, length};
ghost use Rattle.px_xmp.specs.Refusals.{IsNestingCause, attribute_cause, space_cause, IsDocumentCause, IsCauseOf};

use crate::why::mark_cause;
use px_xmp_document::{Cause as DocumentCause, Fault, SpaceCause};
use px_xmp_forms::Cause;
use px_xmp_markup::{AttributeCause, TreeCause};

// The cause for a fault of the nesting of elements. `octets` begin where the fault is.
fn nesting_cause(cause: TreeCause, octets: &[u8]) -> Cause
    ensures { IsNestingCause cause octets.now result }
{
    match cause {
        TreeCause::NoMark => mark_cause(octets),
        TreeCause::DocumentType => Cause::DocumentType,
        TreeCause::OtherEnd => Cause::OtherEnd,
        TreeCause::TooDeep => Cause::TooDeep,
        TreeCause::OutsideRoot => Cause::NoRoot,
        TreeCause::SecondRoot => Cause::NoRoot,
        TreeCause::NoRoot => Cause::NoRoot,
        TreeCause::NoEnd => Cause::BadMarkup,
    }
}

// The cause for a fault of attributes.
fn attributes_cause(cause: AttributeCause) -> Cause
    ensures { result ≡ attribute_cause cause }
{
    match cause {
        AttributeCause::NoMark => Cause::BadMarkup,
        AttributeCause::AttributeTwice => Cause::AttributeTwice,
    }
}

// The cause for a fault of prefixes.
fn spaces_cause(cause: SpaceCause) -> Cause
    ensures { result ≡ space_cause cause }
{
    match cause {
        SpaceCause::NoMark => Cause::BadMarkup,
        SpaceCause::Undeclared => Cause::BadPrefix,
        SpaceCause::Reserved => Cause::BadPrefix,
        SpaceCause::RareSpace => Cause::RareNamespace,
        SpaceCause::TooMany => Cause::RareCount,
        SpaceCause::ManyAttributes => Cause::RareCount,
        SpaceCause::SameName => Cause::AttributeTwice,
    }
}

// The cause for a fault of a document. `octets` begin where the fault is.
fn document_cause(cause: DocumentCause, octets: &[u8]) -> Cause
    ensures { IsDocumentCause cause octets.now result }
{
    match cause {
        DocumentCause::NoCharacter => Cause::BadCharacter,
        DocumentCause::OtherEncoding => Cause::RareEncoding,
        DocumentCause::Nesting(cause) => nesting_cause(cause, octets),
        DocumentCause::Attributes(cause) => attributes_cause(cause),
        DocumentCause::Spaces(cause) => spaces_cause(cause),
    }
}

// The cause of a fault of a document. A declaration that is not read is one of another version or form.
pub(crate) fn cause_of(document: &[u8], fault: Fault) -> Cause
    ensures { fault.offset ≤ length document.now → IsCauseOf document.now fault.cause fault.offset result }
{
    let octets = document.split_at(fault.offset.min(document.len())).1;
    if fault.offset == 0 && octets.starts_with(b"<?xml") {
        return Cause::RareEncoding;
    }
    document_cause(fault.cause, octets)
}
