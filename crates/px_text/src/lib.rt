//! Text output: the listing has one line for each directory, field and DataSet, the captions one line for
//! each labelled text. Lines go through an output buffer, so nothing is allocated. Every line ends with one
//! line feed; hexadecimal digits are in lower case. The list of captions, for callers that print them in
//! another way, is allocated.
//!
//! ```
//! let iim = read_iim(rt.alloc(), b"\x1c\x02\x78\x00\x03abc")?;
//! let mut writer = Watched::new(Vec::new(rt.alloc()));
//! let mut space = [0; CAPACITY];
//! let mut pending = Pending::new(&mut space);
//! put_iim_listing(&mut pending, &mut writer, &iim)?; // iim, 2:120 3: 616263
//! put_iim_captions(&mut pending, &mut writer, &iim)?; // iim, charset: not declared, caption: abc
//! pending.send(&mut writer)?;
//! let captions = iim_captions_in(&mut Memory::new(rt.alloc()), &iim)?;
//! captions.at(0); // the label Caption, and the bytes abc
//! ```
#![tactic(auto)]

mod caption;
mod caption_lines;
mod captions_in;
mod dataset_lines;
mod field_lines;
mod labels;
mod listing;
mod texts;

pub use caption::{Caption, Captions};
pub use caption_lines::{put_exif_captions, put_iim_captions};
pub use captions_in::{exif_captions_in, iim_captions_in};
pub use labels::Label;
pub use listing::{put_exif_listing, put_iim_listing};
