//! Whether two JPEG pictures have the same Exif, IPTC and XMP. Exif and IPTC are compared by px_pictures, and XMP by the normal
//! forms of px_xmp. Extended XMP is joined to the packet that names it. It opens no file.
//!
//! What is proved of Exif and IPTC is what px_pictures proves. Of XMP it is proved where the packets are, which pieces of extended XMP
//! are joined and to what, and that the answer is that of the normal forms of what the packets mean. A picture's only packet is left only
//! if it has no meaning within the limits of px_xmp, or names extended XMP, and extended XMP only if it can't be joined within the limits.
#![tactic(auto)]

mod comparing;
mod digests;
mod joining;
mod portions;
mod reading;
mod unjoined;

pub use comparing::compare_all_in;
