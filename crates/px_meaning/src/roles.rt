// Directories, and the role of a tag in each.
ghost use Rattle.std.specs.Prelude.{◌≡◌, ◌<◌, true};
ghost use Rattle.px_meaning.specs.Roles.{role};
ghost use Rattle.px_meaning.specs.calls.Used.{HasNoUse};

use crate::tags::{
    EXIF_IFD_POINTER, FREE_OFFSETS, GPS_INFO_IFD_POINTER, IMAGE_LENGTH, IMAGE_WIDTH,
    INTEROPERABILITY_IFD_POINTER, IPTC_NAA, JPEG_AC_TABLES, JPEG_DC_TABLES,
    JPEG_INTERCHANGE_FORMAT, JPEG_INTERCHANGE_FORMAT_LENGTH, JPEG_Q_TABLES, PIXEL_X_DIMENSION,
    PIXEL_Y_DIMENSION, ROWS_PER_STRIP, STRIP_BYTE_COUNTS, STRIP_OFFSETS, SUB_IFDS, TILE_OFFSETS,
};

/// A directory: the main one of TIFF 6.0, or one of those that CIPA DC-008 adds.
#[derive(Clone, Copy, Debug, PartialEq, Eq)]
pub enum Dir {
    /// The main directory (0th IFD), at the header's offset.
    Main,
    /// The Exif directory, at tag 0x8769 of the main directory.
    Exif,
    /// The Interoperability directory, at tag 0xA005 of the Exif directory.
    Interop,
    /// The GPS directory, at tag 0x8825 of the main directory.
    Gps,
    /// The thumbnail directory (1st IFD), the next one after the main directory.
    Thumb,
}

impl Dir {
    /// Each directory, in the order in which they are read.
    pub const ALL: [Dir; 5] = [Dir::Main, Dir::Exif, Dir::Interop, Dir::Gps, Dir::Thumb];
}

/// The role of a tag in a directory.
#[derive(Clone, Copy, Debug, PartialEq, Eq)]
pub enum Role {
    /// A field, kept unchanged.
    Plain,
    /// A field for which SHORT and LONG mean the same.
    Widened,
    /// A tag that this directory must not have.
    Forbidden,
    /// An IPTC record if its bytes are one, otherwise a field.
    Record,
    /// The offset of the thumbnail's JPEG.
    JpegOffset,
    /// The length of the thumbnail's JPEG.
    JpegLength,
    /// The offsets of the thumbnail's strips.
    StripOffsets,
    /// The lengths of the thumbnail's strips.
    StripLengths,
    /// A pointer to a directory.
    To(Dir),
}

// The role of a tag that no directory uses.
#[tactic(auto, unfolding(crate::specs::Roles::role))]
fn common_role(tag: u16) -> Role
    ensures { result ≡ role Dir.Gps tag }
{
    match tag {
        STRIP_OFFSETS
        | STRIP_BYTE_COUNTS
        | FREE_OFFSETS
        | TILE_OFFSETS
        | SUB_IFDS
        | JPEG_INTERCHANGE_FORMAT
        | JPEG_INTERCHANGE_FORMAT_LENGTH
        | JPEG_Q_TABLES
        | JPEG_DC_TABLES
        | JPEG_AC_TABLES
        | EXIF_IFD_POINTER
        | GPS_INFO_IFD_POINTER
        | INTEROPERABILITY_IFD_POINTER => Role::Forbidden,
        _ => Role::Plain,
    }
}

// The role of any tag in a directory.
#[tactic(auto, unfolding(crate::specs::Roles::role))]
fn any_role(dir: Dir, tag: u16) -> Role
    ensures { result ≡ role dir tag }
{
    match (dir, tag) {
        (Dir::Main, EXIF_IFD_POINTER) => Role::To(Dir::Exif),
        (Dir::Main, GPS_INFO_IFD_POINTER) => Role::To(Dir::Gps),
        (Dir::Main, IPTC_NAA) => Role::Record,
        (Dir::Main, IMAGE_WIDTH | IMAGE_LENGTH | ROWS_PER_STRIP) => Role::Widened,
        (Dir::Exif, INTEROPERABILITY_IFD_POINTER) => Role::To(Dir::Interop),
        (Dir::Exif, PIXEL_X_DIMENSION | PIXEL_Y_DIMENSION) => Role::Widened,
        (Dir::Thumb, JPEG_INTERCHANGE_FORMAT) => Role::JpegOffset,
        (Dir::Thumb, JPEG_INTERCHANGE_FORMAT_LENGTH) => Role::JpegLength,
        (Dir::Thumb, STRIP_OFFSETS) => Role::StripOffsets,
        (Dir::Thumb, STRIP_BYTE_COUNTS) => Role::StripLengths,
        (Dir::Thumb, IMAGE_WIDTH | IMAGE_LENGTH | ROWS_PER_STRIP) => Role::Widened,
        _ => common_role(tag),
    }
}

// Whether a tag lies between two others and is none of them.
fn is_between(low: u16, tag: u16, high: u16) -> bool
    ensures { result ≡ true → (low < tag) × (tag < high) }
{
    low < tag && tag < high
}

/// True only if no directory has a special use for the tag or refuses it: it is none of 19 tags. That a tag with no
/// use gives true is not stated. For most tags one comparison is enough.
#[tactic(auto, using(crate::proofs::tables::NoUse::between_tables))]
pub fn has_no_use(tag: u16) -> bool
    ensures { result ≡ true → HasNoUse tag }
{
    if is_between(JPEG_AC_TABLES, tag, IPTC_NAA) {
        return true;
    }
    match tag {
        SUB_IFDS
        | TILE_OFFSETS
        | FREE_OFFSETS
        | STRIP_OFFSETS
        | STRIP_BYTE_COUNTS
        | ROWS_PER_STRIP
        | IMAGE_WIDTH
        | IMAGE_LENGTH
        | JPEG_INTERCHANGE_FORMAT
        | JPEG_INTERCHANGE_FORMAT_LENGTH
        | JPEG_Q_TABLES
        | JPEG_DC_TABLES
        | JPEG_AC_TABLES
        | IPTC_NAA
        | EXIF_IFD_POINTER
        | GPS_INFO_IFD_POINTER
        | PIXEL_X_DIMENSION
        | PIXEL_Y_DIMENSION
        | INTEROPERABILITY_IFD_POINTER => false,
        _ => true,
    }
}

/// The role of a tag in a directory, as `role_of` returns it, given a flag that is true only if no directory has a
/// special use for the tag or refuses it.
#[tactic(auto, using(crate::proofs::tables::NoUse::no_use_plain))]
pub fn role_where(is_common: bool, dir: Dir, tag: u16) -> Role
    requires { is_common ≡ true → HasNoUse tag }
    ensures { result ≡ role dir tag }
{
    if is_common {
        return Role::Plain;
    }
    any_role(dir, tag)
}

/// The role of a tag in a directory: a plain field, one whose SHORT and LONG mean the same, a pointer, a part of the
/// thumbnail, the record, or forbidden.
pub fn role_of(dir: Dir, tag: u16) -> Role
    ensures { result ≡ role dir tag }
{
    role_where(has_no_use(tag), dir, tag)
}
