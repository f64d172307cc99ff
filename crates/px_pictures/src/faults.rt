// Why pictures are not compared.
use crate::unread::Unread;
use px_bytes::Cause;
use px_jpeg::HeadFault;

/// The kind of a block.
#[derive(Clone, Copy, Debug, PartialEq, Eq)]
pub enum MetadataKind {
    /// Exif, of an APP1 segment.
    Exif,
    /// IPTC, of Photoshop's resource 0x0404.
    Iptc,
}

/// Why a picture's blocks, or their meanings, are not read.
#[derive(Clone, Copy, Debug, PartialEq, Eq)]
pub enum MetadataFault {
    /// It has no head: the cause and the byte offset of the first fault.
    Head(HeadFault),
    /// The blocks that have more than one piece have more than 16 times `LIMIT` bytes in all.
    TooLong,
    /// A block has no meaning: its first fault.
    Block {
        /// The kind of the block.
        kind: MetadataKind,
        /// How many blocks of this kind are before it.
        number: usize,
        /// What is wrong.
        cause: Cause,
        /// The byte offset from the block's first byte, at most `LIMIT`.
        place: u32,
    },
    /// An allocation failed.
    OutOfMemory,
}

/// One of two pictures that are compared.
#[derive(Clone, Copy, Debug, PartialEq, Eq)]
pub enum PictureSide {
    /// The first.
    First,
    /// The second.
    Second,
}

/// What a comparison of two pictures says.
#[derive(Clone, Copy, Debug, PartialEq, Eq)]
pub enum Comparison {
    /// They have the same Exif and IPTC, and of both all is read that other programs may read as such.
    Same,
    /// Their Exif or IPTC is different.
    Different,
    /// The Exif and IPTC that is read of both is the same, and the picture of this side has this first place that isn't read.
    /// In the second picture only if there is none in the first.
    NotRead(PictureSide, Unread),
}

/// Why two pictures are not compared.
#[derive(Clone, Copy, Debug, PartialEq, Eq)]
pub struct PictureFault {
    /// The picture with the fault.
    pub side: PictureSide,
    /// Its fault.
    pub fault: MetadataFault,
}
