//! The tags that have a special use in some directory, named as in their standards.

// The pointers of CIPA DC-008.
pub const EXIF_IFD_POINTER: u16 = 0x8769;

// The offset of the GPS directory: CIPA DC-008 4.6.3.
pub const GPS_INFO_IFD_POINTER: u16 = 0x8825;

// The offset of the Interoperability directory, in the Exif directory: CIPA DC-008 4.6.3.
pub const INTEROPERABILITY_IFD_POINTER: u16 = 0xA005;

// The record of IPTC-NAA.
pub const IPTC_NAA: u16 = 0x83BB;

// The thumbnail's bytes: TIFF 6.0, CIPA DC-008.
pub const STRIP_OFFSETS: u16 = 0x0111;

// The length of each strip: TIFF 6.0 section 8.
pub const STRIP_BYTE_COUNTS: u16 = 0x0117;

// The offset of the JPEG: CIPA DC-008 4.5.5.
pub const JPEG_INTERCHANGE_FORMAT: u16 = 0x0201;

// The length of the JPEG: CIPA DC-008 4.5.5.
pub const JPEG_INTERCHANGE_FORMAT_LENGTH: u16 = 0x0202;

// SHORT and LONG mean the same: TIFF 6.0, CIPA DC-008.
pub const IMAGE_WIDTH: u16 = 0x0100;

// The rows of the image: TIFF 6.0 section 8.
pub const IMAGE_LENGTH: u16 = 0x0101;

// The rows of each strip but the last: TIFF 6.0 section 8.
pub const ROWS_PER_STRIP: u16 = 0x0116;

// The columns of the image: CIPA DC-008.
pub const PIXEL_X_DIMENSION: u16 = 0xA002;

// The rows of the image: CIPA DC-008.
pub const PIXEL_Y_DIMENSION: u16 = 0xA003;

// Offsets that no directory follows: TIFF 6.0, and for SubIFDs a later technical note.
pub const FREE_OFFSETS: u16 = 0x0120;

// The offset of each tile: TIFF 6.0 section 15.
pub const TILE_OFFSETS: u16 = 0x0144;

// The offsets of further directories.
pub const SUB_IFDS: u16 = 0x014A;

// The offsets of the quantization tables: TIFF 6.0 section 22.
pub const JPEG_Q_TABLES: u16 = 0x0207;

// The offsets of the Huffman tables for DC coefficients: TIFF 6.0 section 22.
pub const JPEG_DC_TABLES: u16 = 0x0208;

// The offsets of the Huffman tables for AC coefficients: TIFF 6.0 section 22.
pub const JPEG_AC_TABLES: u16 = 0x0209;
