//! The normal form of an Exif meaning: one block for each meaning. `write_normal` writes it to a writer, and
//! `put_normal` puts it into an output buffer. This crate also has the pieces of any block of a meaning: the
//! entries of its directories, their heads, the values and the lengths of strips. px_plans writes them by
//! other plans. This crate reads no block, opens no file and changes no value.
//!
//! Nothing here allocates. `write_normal` takes an allocator and leaves it alone. It is for callers of this
//! crate: nothing that ships calls it. `write_normal_in` is the form without the allocator.
//!
//! ```
//! let bytes = b"II\x2a\x00\x08\x00\x00\x00\x01\x00\x12\x01\x03\x00\x01\x00\x00\x00\x01\x00\x00\x00\x00\x00\x00\x00";
//! let block = Block::new(bytes).ok().ok_or("too long")?;
//! let meaning = read_block(rt.alloc(), block)?; // what is read can be written
//! let mut writer = Watched::new(Vec::new(rt.alloc()));
//! let len = write_normal(rt.alloc(), &meaning, &mut writer)?; // 26: 4D 4D 00 2A 00 00 00 08 ..
//! ```
#![tactic(auto)]

mod chunks;
mod entries;
mod form;
mod global;
mod items;
pub mod laws;
mod put;
mod put_form;
mod put_running;
mod put_strips;
mod put_thumb;
mod starts;
mod tables;
mod write;

pub use chunks::Chunk;
pub use entries::{Entries, entries_in};
pub use form::NormalForm;
pub use global::write_normal;
pub use items::{Entry, Item};
pub use put::{entry_head, put_filler, put_long, put_short, put_value};
pub use put_form::put_normal;
pub use put_strips::put_strip_lengths;
pub use px_bytes::WriteRefusal;
pub use starts::end_padded;
pub use tables::table_len;
pub use write::write_normal_in;
