//! An XML document without a document type, as a packet of XMP is one: a byte order mark or none, characters in UTF-8, an
//! XML declaration or none, and one root element, in which each prefix is declared and each declaration allowed by
//! Namespaces in XML 1.0, 3, 5 and 6. It works on octets, and allocates nothing.
#![tactic(auto)]

mod document;
mod elements;
mod faults;
pub mod laws;
mod scopes;
mod spaces;
mod stored;
mod tags;
mod walk;

pub use document::first_fault;
pub use faults::{Cause, Fault, SpaceCause};
