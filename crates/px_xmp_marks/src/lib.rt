//! The marks of XML 1.0 with namespaces, as they are written: names, attributes, tags, character data, CDATA sections,
//! comments, processing instructions and the XML declaration; and marks in a row. Namespaces are found elsewhere. A name
//! has ASCII letters, digits, `_`, `-` and `.` alone, as those of XMP have; others are for another reader. It works on
//! octets, and allocates nothing.
#![tactic(auto)]

mod attributes;
mod comments;
mod declarations;
mod instructions;
pub mod laws;
mod listing;
mod locals;
mod marks;
mod names;
mod naming;
mod searching;
mod sections;
mod stored;
mod tags;

pub use attributes::{Attribute, read_attribute};
pub use comments::read_comment;
pub use declarations::{Declaration, read_declaration};
pub use instructions::read_instruction;
pub use listing::{NextAttribute, next_attribute};
pub use locals::are_locals_distinct;
pub use marks::{Mark, first_bad_mark, mark_len, read_mark};
pub use names::{Name, read_name};
pub use naming::read_names;
pub use searching::len_before;
pub use sections::read_section;
pub use stored::{StoredTag, read_stored_tag};
pub use tags::{EndTag, StartTag, read_end_tag, read_start_tag};
