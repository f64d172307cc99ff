//! The engine for C: the kind of a block in memory, its normal form, its texts, whether two blocks mean the
//! same, where the blocks of a JPEG picture and its packet of XMP are, whether the Exif, IPTC and XMP of two pictures are the same, and the
//! normal form of a packet of XMP. Each call returns one of the
//! statuses of `statuses`. Its contract states for each status when it comes, what the call has written to
//! its output arguments, and what is unchanged. For each input exactly one status other than `NO_MEMORY` is
//! possible. `NO_MEMORY` is returned instead exactly if an allocation failed: each call that allocates is
//! one line over its `_in` variant in `over_memory`, whose contract states this. Calls share no state, so
//! any number of threads may call at once.
//!
//! `include/exifnorm.h` declares these calls for C. A slice is a pointer and a length there, and a `Global`
//! is no argument.
#![tactic(auto)]

ghost use Rattle.std.specs.Prelude.{◌≡◌, ◌≢◌, ◌⊎◌, ◌≤◌, length};
ghost use Rattle.px_engine.specs.declared.error.Fault.TheVariants.{NormalTooLong};
ghost use Rattle.px_engine.specs.declared.normal.Given.TheVariants.{Whole, Needs};
ghost use Rattle.px_engine.specs.declared.kind.BlockKind.TheVariants.{Iim};
ghost use Rattle.px_engine.specs.Files.{Said, kind_of};
ghost use Rattle.px_engine.specs.Slices.{IsPut, PutsForm, IsUnwritten};
ghost use Rattle.px_engine.specs.Input.{HasMeaning};
ghost use Rattle.px_engine.specs.Prints.{caption_text, listing};
ghost use Rattle.px_xmp.specs.Laws.{HasForm, IsReadableForm};
ghost use Rattle.px_xmp.specs.Accepted.{FormFits, PacketFits};
ghost use Rattle.px_pictures.specs.declared.faults.PictureSide.TheVariants.{First, Second};
ghost use Rattle.px_c.specs.declared.pictures.Compared.TheVariants.{Blocks, All};
ghost use Rattle.px_c.specs.Blocks.{StoresBlocks, StoresEnded, IsTooShortForBlocks};
ghost use Rattle.px_c.specs.Jpeg.{StoresHead, StoresFront, IsTooShort, StoresResources, IsTooShortForResources};
ghost use Rattle.px_c.specs.Numbers.{cause_name};
ghost use Rattle.px_c.specs.Outcomes.{Refuses, PutsText, PutsTextOf, IsOfKind, AreCompared};
ghost use Rattle.px_c.specs.Packets.{ShowsPacket, LeavesRest, RefusesHead};
ghost use Rattle.px_c.specs.Pictures.{ArePicturesCompared, LeavesUnread, RefusesPicture};
ghost use Rattle.px_c.specs.Unread.{ShowsUnread, RefusesJoining};
ghost use Rattle.px_c.specs.Xmp.{PutsXmp, PutsUnsorted, RefusesPacket, LeavesPacket};
ghost use Rattle.px_c.specs.Numbers as status;

mod blocks;
mod faults;
mod giving;
mod jpeg;
mod names;
mod over_memory;
mod packets;
mod pictures;
pub mod statuses;
mod unread;
mod xmp;

use blocks::put_blocks;
pub use blocks::{ExifnormJpegBlock, ExifnormJpegSizes};
pub use faults::ExifnormFault;
use giving::give_text;
pub use jpeg::{ExifnormJpegFault, ExifnormJpegPart, ExifnormPhotoshopResource};
use jpeg::{head_cause, put_parts, store_resources};
use names::cause_name;
use over_memory::{
    captions_in, check_in, compare_in, jpeg_same_blocks_in, jpeg_same_in, jpeg_unread_in,
    normalise_in, show_in,
};
pub use packets::ExifnormJpegPacket;
use packets::put_xmp;
pub use pictures::ExifnormPictureFault;
use px_bytes::Memory;
use px_engine::VERSION;
use px_jpeg::{find_front, find_resources, read_head};
use statuses::{DONE, NO_MEMORY, REFUSED, SECOND_REFUSED, TOO_LITTLE_ROOM, TOO_LONG};
use std::alloc::Global;
pub use unread::ExifnormUnreadPart;
use xmp::{xmp_check_in, xmp_normalise_in, xmp_unsorted_in};

/// Stores the kind of the block in a file in `kind`: 1 for Exif, 2 for IIM. It keeps nothing of the block.
/// Allocates a bit for each byte of an Exif block, and the fields of its thumbnail directory.
///
/// `REFUSED`: the file has no meaning, and `fault` is its block's first fault. `NO_MEMORY`: an allocation
/// failed, and the block is Exif: one of DataSets is checked without an allocation. Only success changes `kind`, and only
/// a refusal changes `fault`.
#[unsafe(no_mangle)]
pub extern "C" fn exifnorm_check(
    alloc: Global,
    file: &[u8],
    kind: &mut u32,
    fault: &mut ExifnormFault,
) -> u32
    ensures known { (result ≡ status.done) ⊎ (result ≡ status.refused) ⊎ (result ≡ status.no_memory) }
    ensures done { result ≡ status.done → IsOfKind file.now kind.new }
    ensures refused { result ≡ status.refused → Refuses file.now fault.new }
    ensures kind { result ≢ status.done → kind.new ≡ kind.old }
    ensures fault { result ≢ status.refused → fault.new ≡ fault.old }
    ensures datasets { kind_of file.now ≡ Iim → result ≢ status.no_memory }
{
    check_in(&mut Memory::new(alloc), file, kind, fault)
}

/// Writes the normal form of a file to the start of `out`, and its length to `written`. Allocates only the
/// meaning of the file: the form, which has at most twice the block's bytes, is written directly into `out`.
///
/// `REFUSED`: the file has no meaning, and `fault` is its block's first fault. `TOO_LONG`: the form is longer
/// than `LIMIT`. `TOO_LITTLE_ROOM`: `out` is shorter than the form, whose length is in `written`.
/// `NO_MEMORY`: an allocation failed. Only success changes `out`, and only as far as the form goes. Only
/// success and `TOO_LITTLE_ROOM` change `written`. Only a refusal changes `fault`.
#[unsafe(no_mangle)]
pub extern "C" fn exifnorm_normalise(
    alloc: Global,
    file: &[u8],
    out: &mut [u8],
    written: &mut usize,
    fault: &mut ExifnormFault,
) -> u32
    ensures known { (result ≡ status.done) ⊎ (result ≡ status.refused) ⊎ (result ≡ status.too_long) ⊎ (result ≡ status.no_memory)
        ⊎ (result ≡ status.too_little_room) }
    ensures done { result ≡ status.done → PutsForm file.now (Whole written.new) out.old out.new }
    ensures refused { result ≡ status.refused → Refuses file.now fault.new }
    ensures long { result ≡ status.too_long → IsUnwritten file.now 0 NormalTooLong }
    ensures short { result ≡ status.too_little_room → PutsForm file.now (Needs written.new) out.old out.new }
    ensures out { result ≢ status.done → out.new ≡ out.old }
    ensures written { result ≢ status.done → result ≢ status.too_little_room → written.new ≡ written.old }
    ensures fault { result ≢ status.refused → fault.new ≡ fault.old }
{
    normalise_in(&mut Memory::new(alloc), file, out, written, fault)
}

/// Stores in `same` whether two files mean the same: 1 if they do, 0 if they don't. It doesn't matter whether
/// their normal forms can be written. Allocates the meaning of both.
///
/// `REFUSED`: the first file has no meaning, and `fault` is its block's first fault. `SECOND_REFUSED`: the
/// first has a meaning, the second has none, and `fault` is of the second. `NO_MEMORY`: an allocation failed.
/// Only success changes `same`, and only a refusal changes `fault`.
#[unsafe(no_mangle)]
pub extern "C" fn exifnorm_compare(
    alloc: Global,
    first: &[u8],
    second: &[u8],
    same: &mut u32,
    fault: &mut ExifnormFault,
) -> u32
    ensures known { (result ≡ status.done) ⊎ (result ≡ status.refused) ⊎ (result ≡ status.no_memory) ⊎ (result ≡ status.second_refused) }
    ensures done { result ≡ status.done → AreCompared first.now second.now same.new }
    ensures refused { result ≡ status.refused → Refuses first.now fault.new }
    ensures second { result ≡ status.second_refused → ((s : Said) × HasMeaning first.now s) × Refuses second.now fault.new }
    ensures same { result ≢ status.done → same.new ≡ same.old }
    ensures fault { result ≢ status.refused → result ≢ status.second_refused → fault.new ≡ fault.old }
{
    compare_in(&mut Memory::new(alloc), first, second, same, fault)
}

/// Writes the listing of a file to the start of `out`, a line for each directory, field and DataSet, and its
/// length to `written`. It adds no zero byte. Allocates the meaning and the text: less than four bytes for
/// each byte of a value or DataSet, and less than 30 more for each line.
///
/// Statuses and changes are as for `exifnorm_normalise`, except that no listing is too long.
#[unsafe(no_mangle)]
pub extern "C" fn exifnorm_show(
    alloc: Global,
    file: &[u8],
    out: &mut [u8],
    written: &mut usize,
    fault: &mut ExifnormFault,
) -> u32
    ensures known { (result ≡ status.done) ⊎ (result ≡ status.refused) ⊎ (result ≡ status.no_memory) ⊎ (result ≡ status.too_little_room) }
    ensures done { result ≡ status.done → PutsTextOf listing file.now (Whole written.new) out.old out.new }
    ensures refused { result ≡ status.refused → Refuses file.now fault.new }
    ensures short { result ≡ status.too_little_room → PutsTextOf listing file.now (Needs written.new) out.old out.new }
    ensures out { result ≢ status.done → out.new ≡ out.old }
    ensures written { result ≢ status.done → result ≢ status.too_little_room → written.new ≡ written.old }
    ensures fault { result ≢ status.refused → fault.new ≡ fault.old }
{
    show_in(&mut Memory::new(alloc), file, out, written, fault)
}

/// Writes the captions of a file to the start of `out`, one for each line, and the text's length to
/// `written`. It adds no zero byte. Bytes from 20 to 7E except the backslash are written as they are; any
/// other byte is a backslash and two hexadecimal digits. Allocates the meaning and the text: at most three
/// bytes for each byte of a caption, and at most 22 more for each line.
///
/// Statuses and changes are as for `exifnorm_show`.
#[unsafe(no_mangle)]
pub extern "C" fn exifnorm_captions(
    alloc: Global,
    file: &[u8],
    out: &mut [u8],
    written: &mut usize,
    fault: &mut ExifnormFault,
) -> u32
    ensures known { (result ≡ status.done) ⊎ (result ≡ status.refused) ⊎ (result ≡ status.no_memory) ⊎ (result ≡ status.too_little_room) }
    ensures done { result ≡ status.done → PutsTextOf caption_text file.now (Whole written.new) out.old out.new }
    ensures refused { result ≡ status.refused → Refuses file.now fault.new }
    ensures short { result ≡ status.too_little_room → PutsTextOf caption_text file.now (Needs written.new) out.old out.new }
    ensures out { result ≢ status.done → out.new ≡ out.old }
    ensures written { result ≢ status.done → result ≢ status.too_little_room → written.new ≡ written.old }
    ensures fault { result ≢ status.refused → fault.new ≡ fault.old }
{
    captions_in(&mut Memory::new(alloc), file, out, written, fault)
}

/// Stores the parts of the head of the picture that begins with these bytes at the start of `parts`, and their
/// number in `count`. Allocates nothing.
///
/// `REFUSED`: the bytes are no head, and `fault` is its first fault; the parts before it are stored and counted.
/// `TOO_LITTLE_ROOM`: `parts` has fewer than `count` elements, and is unchanged. Only a refusal changes `fault`.
#[unsafe(no_mangle)]
pub extern "C" fn exifnorm_jpeg_parts(
    bytes: &[u8],
    parts: &mut [ExifnormJpegPart],
    count: &mut usize,
    fault: &mut ExifnormJpegFault,
) -> u32
    ensures known { (result ≡ status.done) ⊎ (result ≡ status.refused) ⊎ (result ≡ status.too_little_room) }
    ensures done { result ≡ status.done → StoresHead bytes.now count.new parts.old parts.new }
    ensures refused { result ≡ status.refused → StoresFront bytes.now fault.new count.new parts.old parts.new }
    ensures short { result ≡ status.too_little_room → IsTooShort bytes.now count.new parts.old parts.new }
    ensures fault { result ≢ status.refused → fault.new ≡ fault.old }
{
    match read_head(bytes) {
        Ok(_) => put_parts(bytes, parts, count),
        Err(why) => {
            if put_parts(bytes, parts, count) == TOO_LITTLE_ROOM {
                return TOO_LITTLE_ROOM;
            }
            *fault = ExifnormJpegFault {
                cause: head_cause(why.cause),
                place: why.place,
            };
            REFUSED
        }
    }
}

/// Stores where the blocks of a picture are at the start of `blocks`, in order: of Exif, of Photoshop's image resources,
/// of XMP and of extended XMP. A block of one piece is a range of the picture. Those of more pieces are joined: they are
/// ranges of the bytes that the call writes to the start of `out`. `sizes` has the number of blocks, and that of these
/// bytes, at most that of the picture's. The picture may be its first bytes, as far as its head goes. Allocates nothing.
///
/// `REFUSED`: the bytes have no head, and `fault` is the first fault; the blocks that end before it are stored and
/// counted. If the bytes end before the head does, more of them may continue a block of Exif: that block is left out.
/// A block of Photoshop's resources is stored as far as it goes, and each resource in it is whole. `TOO_LITTLE_ROOM`:
/// `blocks` has fewer than `sizes.blocks` elements, or `out` fewer than `sizes.joined` bytes; both are unchanged. `blocks`
/// and `out` are changed only as far as `sizes` says. Only a refusal changes `fault`.
#[unsafe(no_mangle)]
pub extern "C" fn exifnorm_jpeg_blocks(
    bytes: &[u8],
    blocks: &mut [ExifnormJpegBlock],
    out: &mut [u8],
    sizes: &mut ExifnormJpegSizes,
    fault: &mut ExifnormJpegFault,
) -> u32
    ensures known { (result ≡ status.done) ⊎ (result ≡ status.refused) ⊎ (result ≡ status.too_little_room) }
    ensures done { result ≡ status.done → StoresBlocks bytes.now sizes.new blocks.old blocks.new out.old out.new }
    ensures refused { result ≡ status.refused → StoresEnded bytes.now fault.new sizes.new blocks.old blocks.new out.old out.new }
    ensures short { result ≡ status.too_little_room → IsTooShortForBlocks bytes.now sizes.new blocks.old blocks.new out.old out.new }
    ensures fault { result ≢ status.refused → fault.new ≡ fault.old }
    ensures few { sizes.new.joined ≤ length bytes.now }
{
    match read_head(bytes) {
        Ok(head) => put_blocks(&head.front(), blocks, out, sizes),
        Err(why) => {
            if put_blocks(&find_front(bytes), blocks, out, sizes) == TOO_LITTLE_ROOM {
                return TOO_LITTLE_ROOM;
            }
            *fault = ExifnormJpegFault {
                cause: head_cause(why.cause),
                place: why.place,
            };
            REFUSED
        }
    }
}

/// Stores in `same` whether two pictures have the same Exif, IPTC and XMP: 1 if `exifnorm_jpeg_same_blocks` stores 1, and neither has XMP
/// or both have one packet, and these, joined with their extended XMP, have equal normal forms; 0 if `exifnorm_jpeg_same_blocks` stores 0,
/// or all XMP of both is read and is different: the forms differ, or only one has a packet, and `exifnorm_jpeg_unread` finds nothing in the
/// other. A packet that is refused as wrong has no meaning; which others have no form is tested, and no contract states it. Allocates what
/// `compare_all_in` of px_xmp_pictures does.
///
/// `NOT_READ`: what is read is the same, and `unread` is a place of the first picture that isn't read: as `exifnorm_jpeg_same_blocks`
/// stores it, or else of XMP in an APP1 segment by another mark or in Photoshop's resource 0x0424, of a packet that is wrong or
/// rare or whose extended XMP is missing, or, if there is a second packet or extended XMP that isn't joined to the packet, of whichever
/// comes first. `SECOND_NOT_READ`: there is none in the first, and `unread` is that of the second.
/// `REFUSED`, `SECOND_REFUSED` and `NO_MEMORY`, and what a status changes, are as for `exifnorm_jpeg_same_blocks`.
#[unsafe(no_mangle)]
pub extern "C" fn exifnorm_jpeg_same(
    alloc: Global,
    first: &[u8],
    second: &[u8],
    same: &mut u32,
    unread: &mut ExifnormUnreadPart,
    fault: &mut ExifnormPictureFault,
) -> u32
    ensures known { (result ≡ status.done) ⊎ (result ≡ status.refused) ⊎ (result ≡ status.no_memory) ⊎ (result ≡ status.second_refused)
        ⊎ (result ≡ status.not_read) ⊎ (result ≡ status.second_not_read) }
    ensures done { result ≡ status.done → ArePicturesCompared All first.now second.now same.new }
    ensures left { result ≡ status.not_read → LeavesUnread All First first.now second.now unread.new }
    ensures left_second { result ≡ status.second_not_read → LeavesUnread All Second first.now second.now unread.new }
    ensures refused { result ≡ status.refused → RefusesPicture First first.now second.now fault.new }
    ensures second { result ≡ status.second_refused → RefusesPicture Second first.now second.now fault.new }
    ensures same { result ≢ status.done → same.new ≡ same.old }
    ensures unread { result ≢ status.not_read → result ≢ status.second_not_read → unread.new ≡ unread.old }
    ensures fault { result ≢ status.refused → result ≢ status.second_refused → fault.new ≡ fault.old }
{
    jpeg_same_in(&mut Memory::new(alloc), first, second, same, unread, fault)
}

/// Stores in `same` whether two pictures have the same Exif and IPTC: 1 if they have as many blocks of each kind,
/// these mean the same, pair by pair, in order, and `exifnorm_jpeg_unread` finds nothing in either; 0 if one pair doesn't mean
/// the same, or they have not as many and it finds nothing in either. XMP is not compared. Exif is that of APP1, IPTC that of
/// Photoshop's resource 0x0404, of which one without a byte is no block. Each picture may be its first bytes, as far as its
/// head goes. Allocates what `compare_metadata_in` of px_pictures does: the blocks in several pieces, and the meanings of two blocks at
/// a time.
///
/// `NOT_READ`: each pair means the same, and `unread` is the first place of the first picture that isn't read.
/// `SECOND_NOT_READ`: there is none in the first, and `unread` is that of the second. `REFUSED`: `fault` is in the
/// first picture; `SECOND_REFUSED`: in the second. It is the first fault: that of the first head, or that too many of
/// its bytes are joined; then the same of the second; then of a block of the first picture, then of the second.
/// `NO_MEMORY`: an allocation failed. Only success changes `same`, only `NOT_READ` and `SECOND_NOT_READ` change
/// `unread`, and only a refusal changes `fault`.
#[unsafe(no_mangle)]
pub extern "C" fn exifnorm_jpeg_same_blocks(
    alloc: Global,
    first: &[u8],
    second: &[u8],
    same: &mut u32,
    unread: &mut ExifnormUnreadPart,
    fault: &mut ExifnormPictureFault,
) -> u32
    ensures known { (result ≡ status.done) ⊎ (result ≡ status.refused) ⊎ (result ≡ status.no_memory) ⊎ (result ≡ status.second_refused)
        ⊎ (result ≡ status.not_read) ⊎ (result ≡ status.second_not_read) }
    ensures done { result ≡ status.done → ArePicturesCompared Blocks first.now second.now same.new }
    ensures left { result ≡ status.not_read → LeavesUnread Blocks First first.now second.now unread.new }
    ensures left_second { result ≡ status.second_not_read → LeavesUnread Blocks Second first.now second.now unread.new }
    ensures refused { result ≡ status.refused → RefusesPicture First first.now second.now fault.new }
    ensures second { result ≡ status.second_refused → RefusesPicture Second first.now second.now fault.new }
    ensures same { result ≢ status.done → same.new ≡ same.old }
    ensures unread { result ≢ status.not_read → result ≢ status.second_not_read → unread.new ≡ unread.old }
    ensures fault { result ≢ status.refused → result ≢ status.second_refused → fault.new ≡ fault.old }
{
    jpeg_same_blocks_in(&mut Memory::new(alloc), first, second, same, unread, fault)
}

/// Stores in `unread` the first place in a picture at which something is that other programs read as metadata, or
/// may, and that `exifnorm_jpeg_same_blocks` doesn't read: an APP1 segment that seems to be Exif by another mark, an APP13
/// segment with another mark than Photoshop's and `Adobe_CM`, Photoshop's resource 0x0422, resource 0x0404 by another
/// signature than `8BIM`, which is read here and by some other programs alone, or what follows the last resource,
/// unless that is zeros. `found` is 0 if there is none: of two such pictures the comparison has read all. Allocates
/// the blocks in several pieces.
///
/// `REFUSED`: the bytes have no head, or too many bytes are joined, and `fault` says which. `NO_MEMORY`: an
/// allocation failed. Only success changes `unread`, and only a refusal changes `fault`.
#[unsafe(no_mangle)]
pub extern "C" fn exifnorm_jpeg_unread(
    alloc: Global,
    bytes: &[u8],
    unread: &mut ExifnormUnreadPart,
    fault: &mut ExifnormJpegFault,
) -> u32
    ensures known { (result ≡ status.done) ⊎ (result ≡ status.refused) ⊎ (result ≡ status.no_memory) }
    ensures done { result ≡ status.done → ShowsUnread bytes.now unread.new }
    ensures refused { result ≡ status.refused → RefusesJoining bytes.now fault.new }
    ensures unread { result ≢ status.done → unread.new ≡ unread.old }
    ensures fault { result ≢ status.refused → fault.new ≡ fault.old }
{
    jpeg_unread_in(&mut Memory::new(alloc), bytes, unread, fault)
}

/// Stores in `packet` where the packet of XMP of a picture is: the bytes of the APP1 segment that begins with
/// `http://ns.adobe.com/xap/1.0/` and a zero, after that zero. `found` is 0 if no segment of the head has one. The picture
/// may be its first bytes, as far as its head goes. The packet itself isn't read. Allocates nothing.
///
/// `NOT_READ`: there is a second packet, or extended XMP, and `unread` is the place of whichever comes first. `REFUSED`: the
/// bytes have no head, and `fault` is its first fault. Only success changes `packet`, only `NOT_READ` changes `unread`, and
/// only a refusal changes `fault`.
#[unsafe(no_mangle)]
pub extern "C" fn exifnorm_jpeg_xmp(
    bytes: &[u8],
    packet: &mut ExifnormJpegPacket,
    unread: &mut ExifnormUnreadPart,
    fault: &mut ExifnormJpegFault,
) -> u32
    ensures known { (result ≡ status.done) ⊎ (result ≡ status.refused) ⊎ (result ≡ status.not_read) }
    ensures done { result ≡ status.done → ShowsPacket bytes.now packet.new }
    ensures left { result ≡ status.not_read → LeavesRest bytes.now unread.new }
    ensures refused { result ≡ status.refused → RefusesHead bytes.now fault.new }
    ensures packet { result ≢ status.done → packet.new ≡ packet.old }
    ensures unread { result ≢ status.not_read → unread.new ≡ unread.old }
    ensures fault { result ≢ status.refused → fault.new ≡ fault.old }
{
    match read_head(bytes) {
        Ok(head) => put_xmp(&head.front(), packet, unread),
        Err(why) => {
            *fault = ExifnormJpegFault {
                cause: head_cause(why.cause),
                place: why.place,
            };
            REFUSED
        }
    }
}

/// Stores Photoshop's image resources at the start of these bytes at the start of `resources`, and their number in
/// `count`. They end where no resource is. The bytes are those of one block: its pieces, one after another.
/// Allocates nothing.
///
/// `TOO_LITTLE_ROOM`: `resources` has fewer than `count` elements, and is unchanged.
#[unsafe(no_mangle)]
pub extern "C" fn exifnorm_photoshop_resources(
    bytes: &[u8],
    resources: &mut [ExifnormPhotoshopResource],
    count: &mut usize,
) -> u32
    ensures known { (result ≡ status.done) ⊎ (result ≡ status.too_little_room) }
    ensures done { result ≡ status.done → StoresResources bytes.now count.new resources.old resources.new }
    ensures short { result ≡ status.too_little_room → IsTooShortForResources bytes.now count.new resources.old resources.new }
{
    let found = find_resources(bytes);
    *count = found.len();
    if *count > resources.len() {
        return TOO_LITTLE_ROOM;
    }
    store_resources(found, resources);
    DONE
}

/// Judges a packet of XMP: whether it has a normal form. Allocates what `exifnorm_xmp_normalise` does.
///
/// Statuses and changes are as for `exifnorm_xmp_normalise`, except that there is no `out` that could be too short.
#[unsafe(no_mangle)]
pub extern "C" fn exifnorm_xmp_check(alloc: Global, packet: &[u8], fault: &mut ExifnormFault) -> u32
    ensures known { (result ≡ status.done) ⊎ (result ≡ status.refused) ⊎ (result ≡ status.rare) ⊎ (result ≡ status.no_memory) }
    ensures done { result ≡ status.done → HasForm packet.now }
    ensures refused { result ≡ status.refused → RefusesPacket packet.now fault.new }
    ensures rare { result ≡ status.rare → LeavesPacket packet.now fault.new }
    ensures fault { result ≢ status.refused → result ≢ status.rare → fault.new ≡ fault.old }
    ensures accepts { PacketFits packet.now → (result ≡ status.done) ⊎ (result ≡ status.no_memory) }
    ensures own { FormFits packet.now → (result ≡ status.done) ⊎ (result ≡ status.no_memory) }
{
    xmp_check_in(&mut Memory::new(alloc), packet, fault)
}

/// Writes the normal form of a packet of XMP to the start of `out`, and its length to `written`: that of what the packet means,
/// which is a packet that means the same, and is neither refused nor left as rare. Allocates the form, and the values of the
/// elements that are open.
///
/// `REFUSED`: the packet is wrong, and has no meaning; `fault` is its first fault. `RARE`: it is in a form of RDF/XML that this
/// library doesn't read, or beyond its limits, and `fault` is where; a packet with a meaning within the limits is neither, nor is a
/// form. `TOO_LITTLE_ROOM`: `out` is shorter than the form, whose length is in `written`. `NO_MEMORY`: an
/// allocation failed. Only success changes `out`, and only as far as the form goes. Only success and `TOO_LITTLE_ROOM` change
/// `written`. Only `REFUSED` and `RARE` change `fault`.
#[unsafe(no_mangle)]
pub extern "C" fn exifnorm_xmp_normalise(
    alloc: Global,
    packet: &[u8],
    out: &mut [u8],
    written: &mut usize,
    fault: &mut ExifnormFault,
) -> u32
    ensures known { (result ≡ status.done) ⊎ (result ≡ status.refused) ⊎ (result ≡ status.rare) ⊎ (result ≡ status.no_memory)
        ⊎ (result ≡ status.too_little_room) }
    ensures done { result ≡ status.done → PutsXmp packet.now (Whole written.new) out.old out.new }
    ensures refused { result ≡ status.refused → RefusesPacket packet.now fault.new }
    ensures rare { result ≡ status.rare → LeavesPacket packet.now fault.new }
    ensures short { result ≡ status.too_little_room → PutsXmp packet.now (Needs written.new) out.old out.new }
    ensures out { result ≢ status.done → out.new ≡ out.old }
    ensures written { result ≢ status.done → result ≢ status.too_little_room → written.new ≡ written.old }
    ensures fault { result ≢ status.refused → result ≢ status.rare → fault.new ≡ fault.old }
    ensures accepts { PacketFits packet.now → (result ≡ status.done) ⊎ (result ≡ status.no_memory)
        ⊎ (result ≡ status.too_little_room) }
    ensures own { FormFits packet.now → (result ≡ status.done) ⊎ (result ≡ status.no_memory) ⊎ (result ≡ status.too_little_room) }
    ensures same { IsReadableForm packet.now → result ≡ status.done → IsPut (Whole written.new) packet.now out.old out.new }
{
    xmp_normalise_in(&mut Memory::new(alloc), packet, out, written, fault)
}

/// Writes the form of a packet of XMP for showing it to the start of `out`, and its length to `written`: the normal form, except
/// that the members of each bag are in the packet's order. Two packets that mean the same may differ in it. Allocates three forms,
/// and the values of the elements that are open.
///
/// The form is a packet that means the same. Statuses and changes are as for `exifnorm_xmp_normalise`. That members are in the
/// packet's order is tested, and no contract states it.
#[unsafe(no_mangle)]
pub extern "C" fn exifnorm_xmp_unsorted(
    alloc: Global,
    packet: &[u8],
    out: &mut [u8],
    written: &mut usize,
    fault: &mut ExifnormFault,
) -> u32
    ensures known { (result ≡ status.done) ⊎ (result ≡ status.refused) ⊎ (result ≡ status.rare) ⊎ (result ≡ status.no_memory)
        ⊎ (result ≡ status.too_little_room) }
    ensures done { result ≡ status.done → PutsUnsorted packet.now (Whole written.new) out.old out.new }
    ensures refused { result ≡ status.refused → RefusesPacket packet.now fault.new }
    ensures rare { result ≡ status.rare → LeavesPacket packet.now fault.new }
    ensures short { result ≡ status.too_little_room → PutsUnsorted packet.now (Needs written.new) out.old out.new }
    ensures out { result ≢ status.done → out.new ≡ out.old }
    ensures written { result ≢ status.done → result ≢ status.too_little_room → written.new ≡ written.old }
    ensures fault { result ≢ status.refused → result ≢ status.rare → fault.new ≡ fault.old }
    ensures accepts { PacketFits packet.now → (result ≡ status.done) ⊎ (result ≡ status.no_memory)
        ⊎ (result ≡ status.too_little_room) }
    ensures own { FormFits packet.now → (result ≡ status.done) ⊎ (result ≡ status.no_memory) ⊎ (result ≡ status.too_little_room) }
{
    xmp_unsorted_in(&mut Memory::new(alloc), packet, out, written, fault)
}

/// Writes the name of the cause with this number, of a block, of a JPEG's head or of a packet of XMP, and a zero byte to the
/// start of `out`, and the number of these bytes to `written`. A number of no cause has the empty name. `TOO_LITTLE_ROOM`: `out`
/// is too short and unchanged; 20 bytes are always enough. It allocates nothing.
#[unsafe(no_mangle)]
pub extern "C" fn exifnorm_cause_name(cause: u32, out: &mut [u8], written: &mut usize) -> u32
    ensures known { (result ≡ status.done) ⊎ (result ≡ status.too_little_room) }
    ensures done { result ≡ status.done → PutsText (cause_name cause) (Whole written.new) out.old out.new }
    ensures short { result ≡ status.too_little_room → PutsText (cause_name cause) (Needs written.new) out.old out.new }
    ensures out { result ≡ status.too_little_room → out.new ≡ out.old }
{
    give_text(cause_name(cause), out, written)
}

/// Writes the version of the library and a zero byte to the start of `out`, and the number of these bytes to
/// `written`. `TOO_LITTLE_ROOM`: `out` is too short and unchanged. It allocates nothing.
#[unsafe(no_mangle)]
pub extern "C" fn exifnorm_version(out: &mut [u8], written: &mut usize) -> u32
    ensures known { (result ≡ status.done) ⊎ (result ≡ status.too_little_room) }
    ensures done { result ≡ status.done → PutsText VERSION.now (Whole written.new) out.old out.new }
    ensures short { result ≡ status.too_little_room → PutsText VERSION.now (Needs written.new) out.old out.new }
    ensures out { result ≡ status.too_little_room → out.new ≡ out.old }
{
    give_text(VERSION.as_bytes(), out, written)
}
