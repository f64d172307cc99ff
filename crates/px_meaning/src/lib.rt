//! The meaning of an Exif block, and the parts of a block that carry it: directories, tags and their roles, fields,
//! strips. This crate decides whether two meanings are the same and whether a meaning can be written. It reads no
//! block, and writes none. It knows a tag only by its role in its directory: a field, a pointer, the record, or a
//! part of the thumbnail.
//!
//! Functions over an allocator are for callers of this crate: nothing that ships calls them.
#![tactic(auto)]

mod fields;
mod fitting;
mod global;
pub mod laws;
mod meanings;
mod parts;
mod roles;
mod same;
mod strip_lists;
mod strip_runs;
mod strips;
pub mod tags;

pub use fields::Fields;
pub use fitting::{is_record_in, is_writable};
pub use meanings::{ExifPart, Meaning, Thumb};
pub use parts::{magic_of, needs_place, number16, number32, part_of, table_len};
pub use roles::{Dir, Role, has_no_use, role_where};
pub use same::same_meaning;
pub use strip_lists::{StripLists, number_in};
pub use strip_runs::StripRun;
pub use strips::Strips;
