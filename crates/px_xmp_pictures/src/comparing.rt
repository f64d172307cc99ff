// The answer for two pictures, of all three kinds of metadata.
ghost use Rattle.std.specs.Prelude.{◌≡◌, length, MatchBool, IfOk, IfErr};
ghost use Rattle.px_bytes.specs.Allocations.{AsksAtMost};
ghost use Rattle.px_pictures.specs.Asking.{join_request};
ghost use Rattle.px_pictures.specs.Faults.{IsHeadFault, IsPictureFault, CountsAllocFailureInPicture};
ghost use Rattle.px_pictures.specs.declared.faults.PictureSide.TheVariants.{Second};
ghost use Rattle.px_pictures.specs.Metadata.{Blocks, HasBlocks};
ghost use Rattle.px_xmp_pictures.specs.Asking.{HasNoXmp, AsksForNoXmp, AsksWithoutXmp};
ghost use Rattle.px_xmp_pictures.specs.Xmp.{HasXmp, absent_answer, IsFormAnswer, IsXmpAnswer, IsXmpComparison};
ghost use Rattle.px_xmp_pictures.specs.Same.{joint, IsComparisonOfAll};
ghost use Rattle.px_xmp_pictures.specs.declared.reading.ReadXmp.{ReadXmp};

use crate::reading::{ReadXmp, read_xmp};
use px_bytes::Memory;
use px_pictures::{Comparison, PictureFault, PictureSide, Unread, compare_metadata_in};

// Whether two forms have the same bytes.
fn are_equal(first: &[u8], second: &[u8]) -> bool
    ensures { MatchBool result (first.now ≡ second.now) (first.now ≡ second.now → ⊥) }
{
    first == second
}

// The answer for two forms.
fn forms_answer(first: &[u8], second: &[u8]) -> Comparison
    ensures { IsFormAnswer first.now second.now result }
{
    if are_equal(first, second) {
        return Comparison::Same;
    }
    Comparison::Different
}

// The answer for XMP that only the other picture has. If there is a place, it is the first of this picture that isn't read.
fn absent_answer(side: PictureSide, unread: Option<Unread>) -> Comparison
    ensures { result ≡ absent_answer side unread }
{
    match unread {
        Some(place) => Comparison::NotRead(side, place),
        None => Comparison::Different,
    }
}

// The answer for the XMP of two pictures.
fn xmp_answer(first: &ReadXmp, second: &ReadXmp) -> Comparison
    ensures { IsXmpAnswer first.now second.now result }
{
    match (first, second) {
        (ReadXmp::NotRead(place), _) => Comparison::NotRead(PictureSide::First, *place),
        (_, ReadXmp::NotRead(place)) => Comparison::NotRead(PictureSide::Second, *place),
        (ReadXmp::Absent(_), ReadXmp::Absent(_)) => Comparison::Same,
        (ReadXmp::Form(form), ReadXmp::Form(other)) => {
            forms_answer(form.as_slice(), other.as_slice())
        }
        (ReadXmp::Absent(unread), ReadXmp::Form(_)) => absent_answer(PictureSide::First, *unread),
        (ReadXmp::Form(_), ReadXmp::Absent(unread)) => absent_answer(PictureSide::Second, *unread),
    }
}

// Reads the XMP of the second picture too, and compares.
fn compare_second(
    memory: &mut Memory,
    first: &ReadXmp,
    second: &[u8],
) -> Result<Comparison, PictureFault>
    ensures compared { IfOk result (λ c. (y : ReadXmp) × HasXmp second.now y × IsXmpAnswer first.now y c) }
    ensures fault { IfErr result (λ e. (e.side ≡ Second) × IsHeadFault second.now memory.new.failed_allocations e.fault) }
    ensures memory { CountsAllocFailureInPicture result memory.old memory.new }
    ensures asked { HasNoXmp second.now → AsksAtMost (join_request (length second.now)) memory.old memory.new }
{
    let other = read_xmp(memory, second, PictureSide::Second)?;
    let answer = xmp_answer(first, &other);
    drop(other);
    Ok(answer)
}

// Compares the XMP of two pictures.
fn compare_xmp(memory: &mut Memory, first: &[u8], second: &[u8]) -> Result<Comparison, PictureFault>
    ensures compared { IfOk result (IsXmpComparison first.now second.now) }
    ensures fault { IfErr result (IsPictureFault first.now second.now memory.new.failed_allocations) }
    ensures memory { CountsAllocFailureInPicture result memory.old memory.new }
    ensures asked { AsksForNoXmp first.now second.now memory.old memory.new }
{
    let one = read_xmp(memory, first, PictureSide::First)?;
    let answer = compare_second(memory, &one, second);
    drop(one);
    answer
}

// The answer of two comparisons of the same pictures. A known difference comes first, and then the first picture.
fn joint(blocks: Comparison, xmp: Comparison) -> Comparison
    ensures { result ≡ joint blocks xmp }
{
    match (blocks, xmp) {
        (Comparison::Different, _) => Comparison::Different,
        (_, Comparison::Different) => Comparison::Different,
        (Comparison::NotRead(PictureSide::First, place), _) => {
            Comparison::NotRead(PictureSide::First, place)
        }
        (_, Comparison::NotRead(PictureSide::First, place)) => {
            Comparison::NotRead(PictureSide::First, place)
        }
        (Comparison::NotRead(PictureSide::Second, place), _) => {
            Comparison::NotRead(PictureSide::Second, place)
        }
        (Comparison::Same, other) => other,
    }
}

/// Compares the Exif, IPTC and XMP of two pictures. `Different`: their Exif or IPTC is different by `compare_metadata_in`, or the XMP of
/// both is read, and their packets, joined with their extended XMP, have different normal forms, or only one has any, and the other has no
/// place that `compare_metadata_in` doesn't read. `Same`: none of this, and all is read. Otherwise `NotRead`, with a place of the first
/// picture, or of the second if all of the first is read: that of `compare_metadata_in`, or else that of XMP in another place
/// (`other_xmp`), or of a packet that is wrong or rare or whose extended XMP is missing, or, if there is a second packet or extended XMP
/// that isn't joined, of whichever comes first.
///
/// Allocates what `compare_metadata_in` does, the joined bytes of one picture at a time again, and two forms; and of a picture with
/// extended XMP 32 bytes for each piece, the joined pieces, and the forms of both packets and of both together. Errors as for
/// `compare_metadata_in`.
pub fn compare_all_in(
    memory: &mut Memory,
    first: &[u8],
    second: &[u8],
) -> Result<Comparison, PictureFault>
    ensures compared { IfOk result (IsComparisonOfAll first.now second.now) }
    ensures fault { IfErr result (IsPictureFault first.now second.now memory.new.failed_allocations) }
    ensures memory { CountsAllocFailureInPicture result memory.old memory.new }
    ensures asked { AsksWithoutXmp first.now second.now memory.old memory.new }
{
    match compare_metadata_in(memory, first, second)? {
        Comparison::Different => Ok(Comparison::Different),
        blocks => {
            let xmp = compare_xmp(memory, first, second)?;
            Ok(joint(blocks, xmp))
        }
    }
}
