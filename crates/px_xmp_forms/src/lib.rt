//! The parts of the normal form of an XMP packet: labels, texts, resources, structures and containers, and properties and
//! members in order. How a packet is read into them is found elsewhere. What is written is the normal packet, as px_xmp_text
//! defines it, of the properties that the calls have put into the output.
//!
//! Each call that allocates takes the caller's `Memory`.
#![tactic(auto)]

mod appending;
mod elements;
mod faults;
mod items;
mod labels;
mod languages;
mod output;
mod pieces;
mod spaces;

pub use appending::{LIMIT, append, append_text, is_blank, same_text};
pub use faults::{Cause, Refusal};
pub use items::BagOrder;
pub use labels::{Container, Content, Label, Origin, Property};
pub use languages::is_language;
pub use output::Output;
pub use spaces::{META, RDF, is_absolute, is_rare_space, split_space};
