//! The Exif and IPTC of JPEG pictures: the blocks of a picture, and whether two pictures have the same. It opens no
//! file. What a picture has behind its head and its pixels are not read; of its XMP the places are found.
#![tactic(auto)]

mod blocks;
mod compared;
mod comparison;
mod faults;
mod found;
mod global;
mod joining;
mod judged;
pub mod laws;
mod left;
mod places;
mod ranges;
mod runs;
mod same;
mod unread;
mod xmp;

pub use blocks::{ExifBlocks, IptcBlocks};
pub use comparison::compare_metadata_in;
pub use faults::{Comparison, MetadataFault, MetadataKind, PictureFault, PictureSide};
pub use found::{Metadata, metadata_of_in};
pub use global::same_metadata;
pub use places::{BlockPlace, Places, block_count, joined_len, places_of, put_joined};
pub use same::same_metadata_in;
pub use unread::{Unread, unread_in};
