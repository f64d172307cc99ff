// The calls over memory. Each returns `NO_MEMORY` exactly if an allocation failed in that call.
ghost use Rattle.std.specs.Prelude.{◌≡◌, ◌≢◌, ◌⊎◌, ◌+◌, length, true};
ghost use Rattle.px_bytes.specs.Allocations.{AsksAtMost};
ghost use Rattle.px_engine.specs.Asking.{block_request, AsksForText};
ghost use Rattle.px_engine.specs.declared.error.Fault.TheVariants.{NormalTooLong};
ghost use Rattle.px_engine.specs.declared.normal.Given.TheVariants.{Whole, Needs};
ghost use Rattle.px_engine.specs.declared.kind.BlockKind.TheVariants.{Iim};
ghost use Rattle.px_engine.specs.Files.{Said, kind_of};
ghost use Rattle.px_engine.specs.Slices.{PutsForm, IsUnwritten};
ghost use Rattle.px_engine.specs.Input.{HasMeaning};
ghost use Rattle.px_engine.specs.Prints.{caption_text, listing};
ghost use Rattle.px_pictures.specs.Asking.{AsksForBoth, join_request};
ghost use Rattle.px_pictures.specs.declared.faults.PictureSide.TheVariants.{First, Second};
ghost use Rattle.px_xmp_pictures.specs.Asking.{AsksWithoutXmp};
ghost use Rattle.px_c.specs.declared.pictures.Compared.TheVariants.{Blocks, All};
ghost use Rattle.px_c.specs.Outcomes.{Refuses, PutsTextOf, IsOfKind, AreCompared};
ghost use Rattle.px_c.specs.Pictures.{ArePicturesCompared, LeavesUnread, RefusesPicture};
ghost use Rattle.px_c.specs.Unread.{ShowsUnread, RefusesJoining};
ghost use Rattle.px_c.specs.Numbers as status;

use crate::faults::{ExifnormFault, fault_from};
use crate::giving::give;
use crate::jpeg::{ExifnormJpegFault, head_cause};
use crate::pictures::{
    Compared, ExifnormPictureFault, Pair, TOO_LONG as JOINED_TOO_LONG, seen_fault,
};
use crate::statuses::{
    DONE, NO_MEMORY, NOT_READ, REFUSED, SECOND_NOT_READ, SECOND_REFUSED, TOO_LITTLE_ROOM, TOO_LONG,
};
use crate::unread::{ExifnormUnreadPart, seen_unread};
use px_bytes::Memory;
use px_engine::{BlockKind, Fault, Given, Side};
use px_pictures::{Comparison, MetadataFault, PictureSide};

// The kind of the block in a file.
pub(crate) fn check_in(
    memory: &mut Memory,
    file: &[u8],
    kind: &mut u32,
    fault: &mut ExifnormFault,
) -> u32
    ensures known { (result ≡ status.done) ⊎ (result ≡ status.refused) ⊎ (result ≡ status.no_memory) }
    ensures done { result ≡ status.done → IsOfKind file.now kind.new }
    ensures refused { result ≡ status.refused → Refuses file.now fault.new }
    ensures kind { result ≢ status.done → kind.new ≡ kind.old }
    ensures fault { result ≢ status.refused → fault.new ≡ fault.old }
    ensures lacking { result ≡ status.no_memory → memory.new.failed_allocations ≡ memory.old.failed_allocations + 1 }
    ensures memory { result ≢ status.no_memory → memory.new.failed_allocations ≡ memory.old.failed_allocations }
    ensures datasets { kind_of file.now ≡ Iim → result ≢ status.no_memory }
    ensures asked { AsksAtMost (block_request (length file.now)) memory.old memory.new }
{
    match px_engine::check_of_in(memory, file) {
        Ok(BlockKind::Exif) => {
            *kind = 1;
            DONE
        }
        Ok(BlockKind::Iim) => {
            *kind = 2;
            DONE
        }
        Err(Fault::Refused { cause, place }) => {
            *fault = fault_from(cause, place);
            REFUSED
        }
        Err(Fault::OutOfMemory) => NO_MEMORY,
        Err(Fault::NormalTooLong) => unreachable!(),
        Err(Fault::ReadFailed) => unreachable!(),
        Err(Fault::WriteFailed) => unreachable!(),
    }
}

// Writes the normal form of a file to the start of `out`.
pub(crate) fn normalise_in(
    memory: &mut Memory,
    file: &[u8],
    out: &mut [u8],
    written: &mut usize,
    fault: &mut ExifnormFault,
) -> u32
    ensures known { (result ≡ status.done) ⊎ (result ≡ status.refused) ⊎ (result ≡ status.too_long) ⊎ (result ≡ status.no_memory)
        ⊎ (result ≡ status.too_little_room) }
    ensures done { result ≡ status.done → PutsForm file.now (Whole written.new) out.old out.new }
    ensures refused { result ≡ status.refused → Refuses file.now fault.new }
    ensures long { result ≡ status.too_long → IsUnwritten file.now 0 NormalTooLong }
    ensures short { result ≡ status.too_little_room → PutsForm file.now (Needs written.new) out.old out.new }
    ensures out { result ≢ status.done → out.new ≡ out.old }
    ensures written { result ≢ status.done → result ≢ status.too_little_room → written.new ≡ written.old }
    ensures fault { result ≢ status.refused → fault.new ≡ fault.old }
    ensures lacking { result ≡ status.no_memory → memory.new.failed_allocations ≡ memory.old.failed_allocations + 1 }
    ensures memory { result ≢ status.no_memory → memory.new.failed_allocations ≡ memory.old.failed_allocations }
    ensures asked { AsksAtMost (block_request (length file.now)) memory.old memory.new }
{
    match px_engine::put_form_in(memory, file, out) {
        Ok(Given::Whole(len)) => {
            *written = len;
            DONE
        }
        Ok(Given::Needs(needed)) => {
            *written = needed;
            TOO_LITTLE_ROOM
        }
        Err(Fault::Refused { cause, place }) => {
            *fault = fault_from(cause, place);
            REFUSED
        }
        Err(Fault::NormalTooLong) => TOO_LONG,
        Err(Fault::OutOfMemory) => NO_MEMORY,
        Err(Fault::ReadFailed) => unreachable!(),
        Err(Fault::WriteFailed) => unreachable!(),
    }
}

// Whether two files mean the same.
pub(crate) fn compare_in(
    memory: &mut Memory,
    first: &[u8],
    second: &[u8],
    same: &mut u32,
    fault: &mut ExifnormFault,
) -> u32
    ensures known { (result ≡ status.done) ⊎ (result ≡ status.refused) ⊎ (result ≡ status.no_memory) ⊎ (result ≡ status.second_refused) }
    ensures done { result ≡ status.done → AreCompared first.now second.now same.new }
    ensures refused { result ≡ status.refused → Refuses first.now fault.new }
    ensures second { result ≡ status.second_refused → ((s : Said) × HasMeaning first.now s) × Refuses second.now fault.new }
    ensures same { result ≢ status.done → same.new ≡ same.old }
    ensures fault { result ≢ status.refused → result ≢ status.second_refused → fault.new ≡ fault.old }
    ensures lacking { result ≡ status.no_memory → memory.new.failed_allocations ≡ memory.old.failed_allocations + 1 }
    ensures memory { result ≢ status.no_memory → memory.new.failed_allocations ≡ memory.old.failed_allocations }
    ensures asked { AsksAtMost (block_request (length first.now) + block_request (length second.now)) memory.old memory.new }
{
    match px_engine::same_of_in(memory, first, second) {
        Ok(true) => {
            *same = 1;
            DONE
        }
        Ok(false) => {
            *same = 0;
            DONE
        }
        Err(e) => match (e.side, e.fault) {
            (Side::First, Fault::Refused { cause, place }) => {
                *fault = fault_from(cause, place);
                REFUSED
            }
            (Side::Second, Fault::Refused { cause, place }) => {
                *fault = fault_from(cause, place);
                SECOND_REFUSED
            }
            (_, Fault::OutOfMemory) => NO_MEMORY,
            (_, Fault::NormalTooLong) => unreachable!(),
            (_, Fault::ReadFailed) => unreachable!(),
            (_, Fault::WriteFailed) => unreachable!(),
        },
    }
}

// Writes the listing of a file to the start of `out`.
pub(crate) fn show_in(
    memory: &mut Memory,
    file: &[u8],
    out: &mut [u8],
    written: &mut usize,
    fault: &mut ExifnormFault,
) -> u32
    ensures known { (result ≡ status.done) ⊎ (result ≡ status.refused) ⊎ (result ≡ status.no_memory) ⊎ (result ≡ status.too_little_room) }
    ensures done { result ≡ status.done → PutsTextOf listing file.now (Whole written.new) out.old out.new }
    ensures refused { result ≡ status.refused → Refuses file.now fault.new }
    ensures short { result ≡ status.too_little_room → PutsTextOf listing file.now (Needs written.new) out.old out.new }
    ensures out { result ≢ status.done → out.new ≡ out.old }
    ensures written { result ≢ status.done → result ≢ status.too_little_room → written.new ≡ written.old }
    ensures fault { result ≢ status.refused → fault.new ≡ fault.old }
    ensures lacking { result ≡ status.no_memory → memory.new.failed_allocations ≡ memory.old.failed_allocations + 1 }
    ensures memory { result ≢ status.no_memory → memory.new.failed_allocations ≡ memory.old.failed_allocations }
    ensures asked { AsksForText listing file.now memory.old memory.new }
{
    match px_engine::show_of_in(memory, file) {
        Ok(text) => give(&text, out, written),
        Err(Fault::Refused { cause, place }) => {
            *fault = fault_from(cause, place);
            REFUSED
        }
        Err(Fault::OutOfMemory) => NO_MEMORY,
        Err(Fault::NormalTooLong) => unreachable!(),
        Err(Fault::ReadFailed) => unreachable!(),
        Err(Fault::WriteFailed) => unreachable!(),
    }
}

// Writes the captions of a file to the start of `out`.
pub(crate) fn captions_in(
    memory: &mut Memory,
    file: &[u8],
    out: &mut [u8],
    written: &mut usize,
    fault: &mut ExifnormFault,
) -> u32
    ensures known { (result ≡ status.done) ⊎ (result ≡ status.refused) ⊎ (result ≡ status.no_memory) ⊎ (result ≡ status.too_little_room) }
    ensures done { result ≡ status.done → PutsTextOf caption_text file.now (Whole written.new) out.old out.new }
    ensures refused { result ≡ status.refused → Refuses file.now fault.new }
    ensures short { result ≡ status.too_little_room → PutsTextOf caption_text file.now (Needs written.new) out.old out.new }
    ensures out { result ≢ status.done → out.new ≡ out.old }
    ensures written { result ≢ status.done → result ≢ status.too_little_room → written.new ≡ written.old }
    ensures fault { result ≢ status.refused → fault.new ≡ fault.old }
    ensures lacking { result ≡ status.no_memory → memory.new.failed_allocations ≡ memory.old.failed_allocations + 1 }
    ensures memory { result ≢ status.no_memory → memory.new.failed_allocations ≡ memory.old.failed_allocations }
    ensures asked { AsksForText caption_text file.now memory.old memory.new }
{
    match px_engine::captions_text_in(memory, file) {
        Ok(text) => give(&text, out, written),
        Err(Fault::Refused { cause, place }) => {
            *fault = fault_from(cause, place);
            REFUSED
        }
        Err(Fault::OutOfMemory) => NO_MEMORY,
        Err(Fault::NormalTooLong) => unreachable!(),
        Err(Fault::ReadFailed) => unreachable!(),
        Err(Fault::WriteFailed) => unreachable!(),
    }
}

// Whether two JPEG pictures have the same metadata, and whether all of it is read.
fn compare_pictures_in(
    memory: &mut Memory,
    compared: Compared,
    pictures: Pair,
    same: &mut u32,
    unread: &mut ExifnormUnreadPart,
    fault: &mut ExifnormPictureFault,
) -> u32
    ensures known { (result ≡ status.done) ⊎ (result ≡ status.refused) ⊎ (result ≡ status.no_memory) ⊎ (result ≡ status.second_refused)
        ⊎ (result ≡ status.not_read) ⊎ (result ≡ status.second_not_read) }
    ensures done { result ≡ status.done → ArePicturesCompared compared pictures.entry.first.now pictures.entry.second.now same.new }
    ensures left { result ≡ status.not_read → LeavesUnread compared First pictures.entry.first.now pictures.entry.second.now unread.new }
    ensures left_second { result ≡ status.second_not_read
        → LeavesUnread compared Second pictures.entry.first.now pictures.entry.second.now unread.new }
    ensures refused { result ≡ status.refused → RefusesPicture First pictures.entry.first.now pictures.entry.second.now fault.new }
    ensures second { result ≡ status.second_refused → RefusesPicture Second pictures.entry.first.now pictures.entry.second.now fault.new }
    ensures same { result ≢ status.done → same.new ≡ same.old }
    ensures unread { result ≢ status.not_read → result ≢ status.second_not_read → unread.new ≡ unread.old }
    ensures fault { result ≢ status.refused → result ≢ status.second_refused → fault.new ≡ fault.old }
    ensures lacking { result ≡ status.no_memory → memory.new.failed_allocations ≡ memory.old.failed_allocations + 1 }
    ensures memory { result ≢ status.no_memory → memory.new.failed_allocations ≡ memory.old.failed_allocations }
    ensures asked { compared ≡ Blocks → AsksForBoth pictures.entry.first.now pictures.entry.second.now memory.old memory.new }
    ensures asked_for_all { compared ≡ All → AsksWithoutXmp pictures.entry.first.now pictures.entry.second.now memory.old memory.new }
{
    match crate::pictures::compare_in(memory, compared, pictures.first, pictures.second) {
        Ok(Comparison::Same) => {
            *same = 1;
            DONE
        }
        Ok(Comparison::Different) => {
            *same = 0;
            DONE
        }
        Ok(Comparison::NotRead(PictureSide::First, place)) => {
            *unread = seen_unread(Some(place));
            NOT_READ
        }
        Ok(Comparison::NotRead(PictureSide::Second, place)) => {
            *unread = seen_unread(Some(place));
            SECOND_NOT_READ
        }
        Err(e) => match (seen_fault(e.fault), e.side) {
            (None, _) => NO_MEMORY,
            (Some(seen), PictureSide::First) => {
                *fault = seen;
                REFUSED
            }
            (Some(seen), PictureSide::Second) => {
                *fault = seen;
                SECOND_REFUSED
            }
        },
    }
}

// Whether two JPEG pictures have the same Exif and IPTC, and whether all of it is read.
pub(crate) fn jpeg_same_blocks_in(
    memory: &mut Memory,
    first: &[u8],
    second: &[u8],
    same: &mut u32,
    unread: &mut ExifnormUnreadPart,
    fault: &mut ExifnormPictureFault,
) -> u32
    ensures known { (result ≡ status.done) ⊎ (result ≡ status.refused) ⊎ (result ≡ status.no_memory) ⊎ (result ≡ status.second_refused)
        ⊎ (result ≡ status.not_read) ⊎ (result ≡ status.second_not_read) }
    ensures done { result ≡ status.done → ArePicturesCompared Blocks first.now second.now same.new }
    ensures left { result ≡ status.not_read → LeavesUnread Blocks First first.now second.now unread.new }
    ensures left_second { result ≡ status.second_not_read → LeavesUnread Blocks Second first.now second.now unread.new }
    ensures refused { result ≡ status.refused → RefusesPicture First first.now second.now fault.new }
    ensures second { result ≡ status.second_refused → RefusesPicture Second first.now second.now fault.new }
    ensures same { result ≢ status.done → same.new ≡ same.old }
    ensures unread { result ≢ status.not_read → result ≢ status.second_not_read → unread.new ≡ unread.old }
    ensures fault { result ≢ status.refused → result ≢ status.second_refused → fault.new ≡ fault.old }
    ensures lacking { result ≡ status.no_memory → memory.new.failed_allocations ≡ memory.old.failed_allocations + 1 }
    ensures memory { result ≢ status.no_memory → memory.new.failed_allocations ≡ memory.old.failed_allocations }
    ensures asked { AsksForBoth first.now second.now memory.old memory.new }
{
    let pictures = Pair { first, second };
    compare_pictures_in(memory, Compared::Blocks, pictures, same, unread, fault)
}

// Whether two JPEG pictures have the same Exif, IPTC and XMP, and whether all of it is read.
pub(crate) fn jpeg_same_in(
    memory: &mut Memory,
    first: &[u8],
    second: &[u8],
    same: &mut u32,
    unread: &mut ExifnormUnreadPart,
    fault: &mut ExifnormPictureFault,
) -> u32
    ensures known { (result ≡ status.done) ⊎ (result ≡ status.refused) ⊎ (result ≡ status.no_memory) ⊎ (result ≡ status.second_refused)
        ⊎ (result ≡ status.not_read) ⊎ (result ≡ status.second_not_read) }
    ensures done { result ≡ status.done → ArePicturesCompared All first.now second.now same.new }
    ensures left { result ≡ status.not_read → LeavesUnread All First first.now second.now unread.new }
    ensures left_second { result ≡ status.second_not_read → LeavesUnread All Second first.now second.now unread.new }
    ensures refused { result ≡ status.refused → RefusesPicture First first.now second.now fault.new }
    ensures second { result ≡ status.second_refused → RefusesPicture Second first.now second.now fault.new }
    ensures same { result ≢ status.done → same.new ≡ same.old }
    ensures unread { result ≢ status.not_read → result ≢ status.second_not_read → unread.new ≡ unread.old }
    ensures fault { result ≢ status.refused → result ≢ status.second_refused → fault.new ≡ fault.old }
    ensures lacking { result ≡ status.no_memory → memory.new.failed_allocations ≡ memory.old.failed_allocations + 1 }
    ensures memory { result ≢ status.no_memory → memory.new.failed_allocations ≡ memory.old.failed_allocations }
    ensures asked { AsksWithoutXmp first.now second.now memory.old memory.new }
{
    let pictures = Pair { first, second };
    compare_pictures_in(memory, Compared::All, pictures, same, unread, fault)
}

// The first place in a JPEG picture that the comparison doesn't read.
pub(crate) fn jpeg_unread_in(
    memory: &mut Memory,
    bytes: &[u8],
    unread: &mut ExifnormUnreadPart,
    fault: &mut ExifnormJpegFault,
) -> u32
    ensures known { (result ≡ status.done) ⊎ (result ≡ status.refused) ⊎ (result ≡ status.no_memory) }
    ensures done { result ≡ status.done → ShowsUnread bytes.now unread.new }
    ensures refused { result ≡ status.refused → RefusesJoining bytes.now fault.new }
    ensures unread { result ≢ status.done → unread.new ≡ unread.old }
    ensures fault { result ≢ status.refused → fault.new ≡ fault.old }
    ensures lacking { result ≡ status.no_memory → memory.new.failed_allocations ≡ memory.old.failed_allocations + 1 }
    ensures memory { result ≢ status.no_memory → memory.new.failed_allocations ≡ memory.old.failed_allocations }
    ensures asked { AsksAtMost (join_request (length bytes.now)) memory.old memory.new }
{
    match px_pictures::unread_in(memory, bytes) {
        Ok(found) => {
            *unread = seen_unread(found);
            DONE
        }
        Err(MetadataFault::Head(head)) => {
            *fault = ExifnormJpegFault {
                cause: head_cause(head.cause),
                place: head.place,
            };
            REFUSED
        }
        Err(MetadataFault::TooLong) => {
            *fault = ExifnormJpegFault {
                cause: JOINED_TOO_LONG,
                place: 0,
            };
            REFUSED
        }
        Err(MetadataFault::OutOfMemory) => NO_MEMORY,
        Err(MetadataFault::Block { .. }) => unreachable!(),
    }
}
