// The comparison of two JPEG pictures, and why they are not compared, as numbers.
ghost use Rattle.std.specs.Prelude.{◌≡◌, IfOk, IfErr, MatchOption};
ghost use Rattle.px_pictures.specs.declared.faults.MetadataFault.TheVariants.{OutOfMemory};
ghost use Rattle.px_pictures.specs.Asking.{AsksForBoth};
ghost use Rattle.px_pictures.specs.Faults.{IsPictureFault, CountsAllocFailureInPicture};
ghost use Rattle.px_xmp_pictures.specs.Asking.{AsksWithoutXmp};
ghost use Rattle.px_c.specs.declared.pictures.Compared.TheVariants.{Blocks, All};
ghost use Rattle.px_c.specs.Pictures.{IsSeenFault, IsAnswer, block_kind};

use crate::jpeg::head_cause;
use px_bytes::Memory;
use px_pictures::{Comparison, MetadataFault, MetadataKind, PictureFault};

// The cause of a picture of which too many bytes would be joined.
pub(crate) const TOO_LONG: u32 = 105;

/// Why two pictures are not compared: the first fault of a head, or of a block.
#[repr(C)]
#[derive(Clone, Copy, Drop)]
pub struct ExifnormPictureFault {
    /// The number of a `Cause`, 1 to 19, for a block. For a head that of an `ExifnormJpegFault`, or 105 if the blocks that
    /// have more than one piece have more than 16 times `LIMIT` bytes in all.
    pub cause: u32,
    /// The kind of the block: 1 for Exif, 2 for IPTC. 0 for a head.
    pub kind: u32,
    /// How many blocks of this kind are before it. 0 for a head.
    pub number: usize,
    /// The byte offset, in the block or in the picture. 0 if the pieces have too many bytes.
    pub place: usize,
}

// What is compared of two pictures.
#[derive(Clone, Copy)]
pub(crate) enum Compared {
    // Exif and IPTC.
    Blocks,
    // XMP too.
    All,
}

// Two pictures.
#[derive(Clone, Copy)]
pub(crate) struct Pair<'a> {
    pub first: &'a [u8],
    pub second: &'a [u8],
}

// Compares two pictures: their Exif and IPTC, or their XMP too.
pub(crate) fn compare_in(
    memory: &mut Memory,
    compared: Compared,
    first: &[u8],
    second: &[u8],
) -> Result<Comparison, PictureFault>
    ensures compared { IfOk result (IsAnswer compared first.now second.now) }
    ensures fault { IfErr result (IsPictureFault first.now second.now memory.new.failed_allocations) }
    ensures memory { CountsAllocFailureInPicture result memory.old memory.new }
    ensures asked { compared ≡ Blocks → AsksForBoth first.now second.now memory.old memory.new }
    ensures asked_for_all { compared ≡ All → AsksWithoutXmp first.now second.now memory.old memory.new }
{
    match compared {
        Compared::Blocks => px_pictures::compare_metadata_in(memory, first, second),
        Compared::All => px_xmp_pictures::compare_all_in(memory, first, second),
    }
}

// The kind of a block as a number.
fn block_kind(kind: MetadataKind) -> u32
    ensures { result ≡ block_kind kind }
{
    match kind {
        MetadataKind::Exif => 1,
        MetadataKind::Iptc => 2,
    }
}

// A fault as numbers; `None` if an allocation failed.
pub(crate) fn seen_fault(fault: MetadataFault) -> Option<ExifnormPictureFault>
    ensures { MatchOption result (fault ≡ OutOfMemory) (IsSeenFault fault) }
{
    match fault {
        MetadataFault::Head(head) => Some(ExifnormPictureFault {
            cause: head_cause(head.cause),
            kind: 0,
            number: 0,
            place: head.place,
        }),
        MetadataFault::TooLong => Some(ExifnormPictureFault {
            cause: TOO_LONG,
            kind: 0,
            number: 0,
            place: 0,
        }),
        MetadataFault::Block {
            kind,
            number,
            cause,
            place,
        } => Some(ExifnormPictureFault {
            cause: cause.number(),
            kind: block_kind(kind),
            number,
            place: place as usize,
        }),
        MetadataFault::OutOfMemory => None,
    }
}
