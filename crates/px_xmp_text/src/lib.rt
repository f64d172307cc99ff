//! The texts of XML 1.0: characters, references, and what character data, CDATA sections and attribute values mean (2.2,
//! 2.11, 3.3.3 and 4.1); and the normal form of a text. It works on the octets of UTF-8. Which ones markup ends is found
//! elsewhere.
//!
//! Only `append_normal_in` allocates, through the caller's `Memory`.
#![tactic(auto)]

mod characters;
pub mod laws;
mod normal;
mod pieces;
mod references;

pub use characters::{first_bad_character, is_char};
pub use normal::append_normal_in;
pub use pieces::{TextKind, first_fault};
pub use references::{Reference, read_reference};
