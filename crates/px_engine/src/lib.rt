//! The meaning of a metadata file of either kind: an Exif block, perhaps after the six bytes that precede it
//! in a JPEG segment, or a block of IPTC-NAA IIM DataSets. This crate reads a file, compares two, writes the
//! normal form, and prints a listing and the captions. It opens no file: bytes come from any `Source` and go
//! to any `Sink`, or are in memory. It edits nothing and repairs no block.
//!
//! Each function that allocates has two forms. The one whose name ends in `_in` takes a `Memory`, and its
//! contract states that it returns `OutOfMemory` exactly if an allocation failed. The other takes an
//! allocator. It is for callers of this crate: nothing that ships calls it.
//!
//! ```
//! let file = b"\x1c\x02\x78\x80\x04\x00\x00\x00\x03abc\x00"; // a caption with an extended length, then a zero
//! let mut reader = Watched::new(file.as_slice());
//! let mut writer = Watched::new(Vec::new(rt.alloc()));
//! let len = normalise(rt.alloc(), &mut reader, &mut writer)?; // 8: 1C 02 78 00 03 61 62 63
//! let mut first = Watched::new(file.as_slice());
//! let mut second = Watched::new(writer.into_inner().as_slice());
//! compare(rt.alloc(), &mut first, &mut second)?; // true
//! let mut lines = Watched::new(Vec::new(rt.alloc()));
//! captions(rt.alloc(), &mut Watched::new(file.as_slice()), &mut lines)?; // iim, charset: not declared, caption: abc
//! ```
#![tactic(auto)]

mod error;
mod global;
mod headline;
mod kind;
pub mod laws;
mod meaning;
mod normal;
mod slice;
mod stream;
mod text;
mod version;

pub use error::{CompareFault, Fault, Side};
pub use global::{
    captions, captions_of, captions_text, check, check_of, compare, normal_form, normalise,
    normalise_both, put_form, read_all, read_any, same_of, show, show_of,
};
pub use headline::{NormalForms, normalise_both_in};
pub use kind::BlockKind;
pub use meaning::{Said, read_any_in, same};
pub use normal::Given;
pub use px_text::{Caption, Captions, Label};
pub use slice::{
    captions_text_in, check_of_in, normal_form_in, put_form_in, same_of_in, show_of_in,
};
pub use stream::{
    captions_file_in, captions_in, check_in, compare_in, normalise_in, read_all_in, show_file_in,
    show_in,
};
pub use text::captions_of_in;
pub use version::VERSION;
