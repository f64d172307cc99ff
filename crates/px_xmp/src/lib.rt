//! What an XMP packet means: RDF/XML as XMP part 1 (ISO 16684-1), section 7, lets programs write it. A packet is read into
//! its normal form, or refused with its first fault. Nothing is fetched, and no entity is expanded but XML's five.
//!
//! Three layers judge a packet, and the first layer with a fault decides: the length, the document (`px_xmp_document`), and
//! RDF. A fault of RDF is the first from the left; that a packet has several subjects is reported last.
//!
//! It is proved that a packet with a form is a document, that this document has a meaning by the productions of RDF/XML that
//! XMP has, and that the form is the normal packet of this meaning. So two packets with equal forms mean the same, and with
//! different forms don't. Each packet with such a meaning is proved to be accepted, if memory suffices and the packet is within
//! the limits of this crate and those below. A packet that is refused by a cause that is not rare has no such meaning. Each
//! refusal is one of the first layer with a fault, and before RDF it has the place of this fault. Which fault of RDF is the first
//! is tested, and no contract states it.
#![tactic(auto)]

mod attributes;
mod causes;
mod content;
mod crowded;
mod elements;
pub mod laws;
mod marks;
mod names;
mod opening;
mod packet;
mod reader;
mod root;
mod scope;
mod showing;
mod source;
mod subject;
mod why;

pub use packet::{check_in, normal_form_in};
pub use px_xmp_forms::{Cause, LIMIT, Refusal};
pub use showing::unsorted_form_in;
