// Whether two pictures have the same Exif and IPTC.
ghost use Rattle.std.specs.Prelude.{◌≡◌, ◌+◌, length, IfOk, IfErr};
ghost use Rattle.px_bytes.specs.Allocations.{AsksAtMost};
ghost use Rattle.px_pictures.specs.Asking.{join_request, exif_requests, blocks_request, AsksForBoth};
ghost use Rattle.px_pictures.specs.Faults.{AllRead, IsHeadFault, IsBlockFault, IsPictureFault, CountsAllocFailureInPicture};
ghost use Rattle.px_pictures.specs.Metadata.{HasBlocks, blocks_of};
ghost use Rattle.px_pictures.specs.Same.{IsSameMetadata};
ghost use Rattle.px_pictures.specs.calls.Judging.{IsFew, AreSameBlocks, AreAlikeBlocks, AreSameAsFirst};
ghost use Rattle.px_pictures.specs.calls.Judging.{BlocksFail, SecondFails, AsksForSecond};

use crate::compared::{Likeness, same_blocks};
use crate::faults::{PictureFault, PictureSide};
use crate::found::{Metadata, metadata_of_in};
use crate::judged::judge_all;
use px_bytes::Memory;

// The blocks of one of two pictures, or why there are none: the fault of this picture.
pub(crate) fn found<'a>(
    memory: &mut Memory,
    bytes: &'a [u8],
    side: PictureSide,
) -> Result<Metadata<'a>, PictureFault>
    ensures found { IfOk result (λ m. (m.octets ≡ bytes.now) × HasBlocks bytes.now (blocks_of m)) }
    ensures few { IfOk result (λ m. IsFew (blocks_of m)) }
    ensures fault { IfErr result (λ e. (e.side ≡ side) × IsHeadFault bytes.now memory.new.failed_allocations e.fault) }
    ensures memory { CountsAllocFailureInPicture result memory.old memory.new }
    ensures asked { AsksAtMost (join_request (length bytes.now)) memory.old memory.new }
{
    match metadata_of_in(memory, bytes) {
        Ok(found) => Ok(found),
        Err(fault) => Err(PictureFault { side, fault }),
    }
}

// Judges the blocks of one of two pictures. `Err`: the first fault, of this picture.
fn judge(memory: &mut Memory, found: &Metadata, side: PictureSide) -> Result<(), PictureFault>
    requires { IsFew (blocks_of found.now) }
    ensures meaning { IfOk result (λ _. AllRead (blocks_of found.now)) }
    ensures fault { IfErr result (λ e. (e.side ≡ side) × IsBlockFault (blocks_of found.now) memory.new.failed_allocations e.fault) }
    ensures memory { CountsAllocFailureInPicture result memory.old memory.new }
    ensures asked { AsksAtMost (exif_requests (blocks_of found.now).exif) memory.old memory.new }
{
    match judge_all(memory, found) {
        Ok(()) => Ok(()),
        Err(fault) => Err(PictureFault { side, fault }),
    }
}

// Judges the blocks of two pictures and compares them.
pub(crate) fn same_found(
    memory: &mut Memory,
    first: &Metadata,
    second: &Metadata,
) -> Result<Likeness, PictureFault>
    requires first { IsFew (blocks_of first.now) }
    requires second { IsFew (blocks_of second.now) }
    ensures same { IfOk result (λ found. AreSameBlocks (blocks_of first.now) (blocks_of second.now) found.same) }
    ensures alike { IfOk result (λ found. AreAlikeBlocks (blocks_of first.now) (blocks_of second.now) found.alike) }
    ensures fault { IfErr result (λ e.
        BlocksFail e.side (blocks_of first.now) (blocks_of second.now) memory.new.failed_allocations e.fault) }
    ensures memory { CountsAllocFailureInPicture result memory.old memory.new }
    ensures asked { AsksAtMost (blocks_request (blocks_of first.now) + blocks_request (blocks_of second.now)) memory.old memory.new }
{
    judge(memory, first, PictureSide::First)?;
    judge(memory, second, PictureSide::Second)?;
    match same_blocks(memory, first, second) {
        Ok(found) => Ok(found),
        Err(fault) => Err(PictureFault {
            side: PictureSide::First,
            fault,
        }),
    }
}

// Finds and judges the blocks of the second picture too, and returns whether the blocks of both
// mean the same.
fn same_second(memory: &mut Memory, first: &Metadata, second: &[u8]) -> Result<bool, PictureFault>
    requires { IsFew (blocks_of first.now) }
    ensures same { IfOk result (AreSameAsFirst (blocks_of first.now) second.now) }
    ensures fault { IfErr result (λ e. SecondFails e.side (blocks_of first.now) second.now memory.new.failed_allocations e.fault) }
    ensures memory { CountsAllocFailureInPicture result memory.old memory.new }
    ensures asked { AsksForSecond (blocks_request (blocks_of first.now)) second.now memory.old memory.new }
{
    let other = found(memory, second, PictureSide::Second)?;
    let found = same_found(memory, first, &other);
    drop(other);
    match found {
        Ok(found) => Ok(found.same),
        Err(fault) => Err(fault),
    }
}

/// Whether two pictures have the same Exif and IPTC: equally many Exif blocks and equally many IPTC blocks, which mean
/// the same, pair by pair, in order. Each slice is a whole JPEG file or its first bytes: what follows the head is
/// not read. First both heads are read, then all blocks of the first picture are judged, then those of the
/// second, and then the meanings are compared.
///
/// Allocates what `metadata_of_in` does, and the meanings of two blocks at a time; each block is read at most
/// twice. `Head`, `TooLong`: as for `metadata_of_in`. `Block`: the first fault of the first faulty block, of which
/// `side` names the picture; its Exif blocks come before its IPTC blocks. `OutOfMemory`: an allocation failed.
pub fn same_metadata_in(
    memory: &mut Memory,
    first: &[u8],
    second: &[u8],
) -> Result<bool, PictureFault>
    ensures same { IfOk result (IsSameMetadata first.now second.now) }
    ensures fault { IfErr result (IsPictureFault first.now second.now memory.new.failed_allocations) }
    ensures memory { CountsAllocFailureInPicture result memory.old memory.new }
    ensures asked { AsksForBoth first.now second.now memory.old memory.new }
{
    px_meaning::laws::one_meaning();
    let one = found(memory, first, PictureSide::First)?;
    let same = same_second(memory, &one, second);
    drop(one);
    same
}
