// The cause of a refusal as numbers.
ghost use Rattle.std.specs.Prelude.{◌≡◌, Some};
ghost use Rattle.px_bytes.specs.Causes.{cause_of};

use px_bytes::Cause;

/// Why a block is refused: the number of the first fault's cause, and its byte offset from the block's first
/// byte. The six bytes before an Exif block aren't counted.
#[repr(C)]
#[derive(Clone, Copy, Drop)]
pub struct ExifnormFault {
    /// The number of a `Cause`, 1 to 19; of a packet of XMP 201 to 212, and 251 to 262.
    pub cause: u32,
    /// The byte offset, at most `LIMIT`.
    pub place: u32,
}

// The refusal of a block, as the structure of C has it.
pub(crate) fn fault_from(cause: Cause, place: u32) -> ExifnormFault
    ensures cause { cause_of result.cause ≡ Some cause }
    ensures place { result.place ≡ place }
{
    ExifnormFault {
        cause: cause.number(),
        place,
    }
}
