//! The elements and attributes of an XMP packet, whose marks are those of px_xmp_marks: whether elements are nested in
//! one root element, each end tag with the name of its start tag and at most 100 inside one another; and whether each
//! tag has each attribute once, by the name that is written. It works on octets, and allocates nothing.
#![tactic(auto)]

mod attributes;
mod faults;
mod kinds;
pub mod laws;
mod names;
mod nesting;
mod tree;

pub use attributes::{are_repeated, attribute_fault};
pub use faults::{AttributeCause, AttributeFault, TreeCause, TreeFault};
pub use kinds::{Mark, MarkKind, read_mark, read_other_mark, start_kind};
pub use nesting::Nesting;
pub use tree::tree_fault;
