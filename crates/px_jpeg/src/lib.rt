//! The head of a JPEG picture: what stands before its first scan. ITU-T T.81, Annex B. It finds the segments
//! with metadata without reading what is in them. It opens no file and allocates nothing.
#![tactic(auto)]

mod bytes;
mod contents;
mod extended;
mod faults;
mod fronts;
mod head;
pub mod laws;
mod packets;
mod parts;
mod pieces;
mod resources;

pub use contents::{HeadPart, WithPieces, with_pieces};
pub use extended::{EXTENDED_HEAD, Extended, read_extended};
pub use faults::{HeadCause, HeadFault};
pub use fronts::{Front, find_front};
pub use head::{Head, Parts, find_parts, read_head};
pub use packets::{FoundXmp, find_xmp};
pub use parts::Part;
pub use pieces::{Piece, Pieces, SegmentKind};
pub use resources::{Resource, Resources, find_resources};
