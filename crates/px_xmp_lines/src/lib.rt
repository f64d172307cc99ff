//! The lines of a packet of XMP: a listing of its properties, and its captions. A packet is read into its normal form by px_xmp,
//! and the lines are those of the form's parts, one after another.
//!
//! It is proved that a packet with lines is a document, how many allocations failed, and that only space to tilde and line feeds are
//! printed. Which properties a line has is tested, and no contract states it.
#![tactic(auto)]

mod captions;
mod escaping;
mod listing;
mod names;
mod packets;
mod parts;

pub use packets::{captions_in, is_packet, listing_in};
