// The three answers of a comparison: the same, different, or the same as far as it was read.
ghost use Rattle.std.specs.Prelude.{◌≡◌, ◌+◌, IfOk, IfErr};
ghost use Rattle.px_bytes.specs.Allocations.{AsksAtMost};
ghost use Rattle.px_pictures.specs.Asking.{blocks_request, AsksForBoth};
ghost use Rattle.px_pictures.specs.Faults.{IsPictureFault, CountsAllocFailureInPicture};
ghost use Rattle.px_pictures.specs.Metadata.{blocks_of};
ghost use Rattle.px_pictures.specs.Same.{IsComparison};
ghost use Rattle.px_pictures.specs.calls.Judging.{IsFew, AreCompared, IsComparedWith, BlocksFail, SecondFails, AsksForSecond};

use crate::faults::{Comparison, PictureFault, PictureSide};
use crate::found::Metadata;
use crate::same::{found, same_found};
use px_bytes::Memory;

// Compares two pictures whose blocks are found.
fn compare_found(
    memory: &mut Memory,
    first: &Metadata,
    second: &Metadata,
) -> Result<Comparison, PictureFault>
    requires first { IsFew (blocks_of first.now) }
    requires second { IsFew (blocks_of second.now) }
    ensures compared { IfOk result (AreCompared first.now second.now) }
    ensures fault { IfErr result (λ e.
        BlocksFail e.side (blocks_of first.now) (blocks_of second.now) memory.new.failed_allocations e.fault) }
    ensures memory { CountsAllocFailureInPicture result memory.old memory.new }
    ensures asked { AsksAtMost (blocks_request (blocks_of first.now) + blocks_request (blocks_of second.now)) memory.old memory.new }
{
    let found = same_found(memory, first, second)?;
    if !found.alike {
        return Ok(Comparison::Different);
    }
    if let Some(place) = first.unread() {
        return Ok(Comparison::NotRead(PictureSide::First, place));
    }
    if let Some(place) = second.unread() {
        return Ok(Comparison::NotRead(PictureSide::Second, place));
    }
    if !found.same {
        return Ok(Comparison::Different);
    }
    Ok(Comparison::Same)
}

// Finds the blocks of the second picture too, and compares.
fn compare_second(
    memory: &mut Memory,
    first: &Metadata,
    second: &[u8],
) -> Result<Comparison, PictureFault>
    requires { IsFew (blocks_of first.now) }
    ensures compared { IfOk result (IsComparedWith first.now second.now) }
    ensures fault { IfErr result (λ e. SecondFails e.side (blocks_of first.now) second.now memory.new.failed_allocations e.fault) }
    ensures memory { CountsAllocFailureInPicture result memory.old memory.new }
    ensures asked { AsksForSecond (blocks_request (blocks_of first.now)) second.now memory.old memory.new }
{
    let other = found(memory, second, PictureSide::Second)?;
    let outcome = compare_found(memory, first, &other);
    drop(other);
    outcome
}

/// Compares the Exif and IPTC of two pictures as `same_metadata_in` does. All blocks have meanings. `Different`: some pair doesn't mean
/// the same; or there are not equally many, and `unread_in` finds no place that isn't read in either picture. `Same`: there are
/// equally many, which mean the same, pair by pair, in order, and there is no such place. `NotRead`: each pair means the same, and
/// this is the first such place, which may have what the other picture has more: of the first picture, or, if that has none, of the
/// second.
///
/// Allocates what `same_metadata_in` does. Errors as for `same_metadata_in`, with the picture: the first fault, where both
/// heads are read first, then the first picture's blocks, then the second's, Exif before IPTC.
pub fn compare_metadata_in(
    memory: &mut Memory,
    first: &[u8],
    second: &[u8],
) -> Result<Comparison, PictureFault>
    ensures compared { IfOk result (IsComparison first.now second.now) }
    ensures fault { IfErr result (IsPictureFault first.now second.now memory.new.failed_allocations) }
    ensures memory { CountsAllocFailureInPicture result memory.old memory.new }
    ensures asked { AsksForBoth first.now second.now memory.old memory.new }
{
    px_meaning::laws::one_meaning();
    let one = found(memory, first, PictureSide::First)?;
    let outcome = compare_second(memory, &one, second);
    drop(one);
    outcome
}
