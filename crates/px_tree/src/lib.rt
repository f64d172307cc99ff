//! The reader of Exif blocks: the meaning of a block, whatever its layout, or why it is refused. What a meaning
//! is, and what can be asked of one, is in px_meaning; its public items can be named through this crate too. This
//! crate writes nothing and opens no file.
//!
//! Functions over an allocator are for callers of this crate: nothing that ships calls them.
//!
//! ```
//! let bytes = b"MM\x00\x2a\x00\x00\x00\x08\x00\x01\x01\x12\x00\x03\x00\x00\x00\x01\x00\x01\x00\x00\x00\x00\x00\x00";
//! let block = Block::new(bytes).ok().ok_or("too long")?;
//! let meaning = read_block(rt.alloc(), block)?; // Err(Content { cause, place }) if it is refused
//! let orientation = meaning.main.get(0x0112); // Some: SHORT 1
//! let (tag, value) = meaning.main.at(0); // the fields are in the order of their tags
//! meaning.thumb.is_none(); // true: no directory follows
//! is_writable(&meaning); // true: what is read can be written
//! ```
#![tactic(auto)]

mod claiming;
mod entries;
mod entry_values;
pub mod fault_laws;
mod field_reading;
mod global;
mod header;
mod judging;
mod links;
mod read;
mod records;
mod rising;
mod source;
mod tables;
mod thumbnail;
mod tree;
mod uses;

pub use global::read_block;
pub use judging::judge_block_in;
pub use px_meaning::{
    Dir, ExifPart, Fields, Meaning, Role, StripRun, Strips, Thumb, is_writable, laws, magic_of,
    needs_place, same_meaning, table_len,
};
pub use read::read_block_in;
