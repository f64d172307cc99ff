// The first fault of the marks that follow the declaration.
ghost use Rattle.std.specs.Prelude.{MatchOption};
ghost use Rattle.px_xmp_document.specs.Elements.{AreElements, IsElementFault};

use crate::faults::{Cause, Fault};
use crate::spaces::space_fault;
use crate::walk::walk;
use px_xmp_markup::{attribute_fault, tree_fault};

// The first fault of the elements, by a walk for the nesting, one for the attributes and one for
// the prefixes. None: there is none.
fn layered_fault(octets: &[u8]) -> Option<Fault>
    ensures { MatchOption result (AreElements octets.now) (λ f. IsElementFault octets.now f.cause f.offset) }
{
    if let Some(fault) = tree_fault(octets) {
        return Some(Fault {
            cause: Cause::Nesting(fault.cause),
            offset: fault.offset,
        });
    }
    if let Some(fault) = attribute_fault(octets) {
        return Some(Fault {
            cause: Cause::Attributes(fault.cause),
            offset: fault.offset,
        });
    }
    match space_fault(octets) {
        Some(fault) => Some(Fault {
            cause: Cause::Spaces(fault.cause),
            offset: fault.offset,
        }),
        None => None,
    }
}

// The first fault of the elements. None: they are nested, with distinct attributes, and their prefixes are declared. One walk is
// enough unless attributes or prefixes are wrong.
pub(crate) fn element_fault(octets: &[u8]) -> Option<Fault>
    ensures { MatchOption result (AreElements octets.now) (λ f. IsElementFault octets.now f.cause f.offset) }
{
    match walk(octets) {
        Ok(()) => None,
        Err(Some(fault)) => Some(Fault {
            cause: Cause::Nesting(fault.cause),
            offset: fault.offset,
        }),
        Err(None) => layered_fault(octets),
    }
}
