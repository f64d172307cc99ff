// The meaning of a block.
use crate::fields::Fields;
use crate::strips::Strips;
use px_iim::Iim;

/// The Exif directory, and the Interoperability directory if it points to one. CIPA DC-008 4.6.3.
#[derive(Drop)]
pub struct ExifPart<'a> {
    /// The fields of the Exif directory.
    pub fields: Fields<'a>,
    /// The fields of the Interoperability directory, if there is one.
    pub interop: Option<Fields<'a>>,
}

/// The thumbnail directory with the thumbnail's bytes. CIPA DC-008 4.5.5; TIFF 6.0 section 8.
#[derive(Drop)]
pub struct Thumb<'a> {
    /// The fields of the directory, without the offsets and lengths of the thumbnail's bytes.
    pub fields: Fields<'a>,
    /// The bytes of the JPEG, perhaps none, or None without its entries.
    pub jpeg: Option<&'a [u8]>,
    /// The strips, perhaps none, or None without their entries.
    pub strips: Option<Strips<'a>>,
}

/// The meaning of an Exif block: a tree of directories, each a map from tag to value. Values, the JPEG and
/// strips are borrowed from the block that was read.
#[derive(Drop)]
pub struct Meaning<'a> {
    /// The fields of the main directory, without pointers and the record.
    pub main: Fields<'a>,
    /// The record at 0x83BB, if the bytes there are one.
    pub iptc: Option<Iim<'a>>,
    /// The Exif directory, if the main directory points to one.
    pub exif: Option<ExifPart<'a>>,
    /// The fields of the GPS directory, if the main directory points to one.
    pub gps: Option<Fields<'a>>,
    /// The thumbnail directory, if the main directory has a next directory.
    pub thumb: Option<Thumb<'a>>,
}
