// The XMP of one picture.
ghost use Rattle.std.specs.Prelude.{◌≡◌, ℕ, false, length, IfOk, IfErr};
ghost use Rattle.px_bytes.specs.Allocations.{AsksAtMost};
ghost use Rattle.px_jpeg.specs.declared.packets.FoundXmp.TheVariants.{Absent};
ghost use Rattle.px_jpeg.specs.Xmp.{xmp_of};
ghost use Rattle.px_pictures.specs.Asking.{join_request};
ghost use Rattle.px_pictures.specs.declared.faults.MetadataFault.TheVariants as fault;
ghost use Rattle.px_pictures.specs.Faults.{IsHeadFault, CountsAllocFailureInMetadata, CountsAllocFailureInMetadataBy};
ghost use Rattle.px_pictures.specs.Faults.{CountsAllocFailureInPicture};
ghost use Rattle.px_pictures.specs.Metadata.{Blocks, HasBlocks};
ghost use Rattle.px_xmp_pictures.specs.Asking.{HasNoXmp};
ghost use Rattle.px_xmp_pictures.specs.Xmp.{IsXmp, HasXmp};
ghost use Rattle.px_xmp_pictures.specs.Counts.{CountsAllocFailureOfXmp};
ghost use Rattle.px_xmp_pictures.specs.declared.reading.ReadXmp.TheVariants.{NotRead};
ghost use Rattle.px_xmp_pictures.specs.declared.unjoined.Unjoined.TheVariants as unjoined;

use crate::joining::{joined_form, only_form};
use crate::unjoined::Unjoined;
use px_bytes::Memory;
use px_jpeg::{FoundXmp, Front, find_xmp, read_head};
use px_pictures::{Metadata, MetadataFault, PictureFault, PictureSide, Unread, metadata_of_in};

// What is known of the XMP of a picture.
#[derive(Drop)]
pub(crate) enum ReadXmp {
    // There is none where it is looked for. It may be in this place, the first that a comparison of blocks doesn't read, if there is one.
    Absent(Option<Unread>),
    // There is one packet. With the extended XMP, if there is any, it has this normal form.
    Form(Vec<u8>),
    // At this place is XMP that isn't read.
    NotRead(Unread),
}

// The result for a picture whose XMP at this offset isn't read.
fn not_read(start: usize) -> ReadXmp
    ensures { result ≡ NotRead (record { joined = false; start = start }) }
{
    ReadXmp::NotRead(Unread {
        joined: false,
        start,
    })
}

// What is known of XMP at an offset that has no form.
fn left_at(why: Unjoined, start: usize) -> Result<ReadXmp, MetadataFault>
    ensures left { IfOk result (λ x. x ≡ NotRead (record { joined = false; start = start })) }
    ensures why { IfOk result (λ x. why ≡ unjoined.NotRead) }
    ensures fault { IfErr result (λ e. e ≡ fault.OutOfMemory) }
    ensures memory { (old new : ℕ) → CountsAllocFailureOfXmp why old new → CountsAllocFailureInMetadataBy result old new }
{
    match why {
        Unjoined::NotRead => Ok(not_read(start)),
        Unjoined::OutOfMemory => Err(MetadataFault::OutOfMemory),
    }
}

// The XMP of a picture.
fn xmp_in(memory: &mut Memory, found: &Metadata, front: &Front) -> Result<ReadXmp, MetadataFault>
    requires { found.now.octets ≡ front.now.octets }
    ensures read { IfOk result (IsXmp front.now) }
    ensures fault { IfErr result (λ e. e ≡ fault.OutOfMemory) }
    ensures memory { CountsAllocFailureInMetadata result memory.old memory.new }
    ensures asked { xmp_of front.now.octets front.now.parts ≡ Absent → memory.new.asked ≡ memory.old.asked }
{
    if let Some(place) = found.other_xmp() {
        return Ok(ReadXmp::NotRead(place));
    }
    match find_xmp(front) {
        FoundXmp::Absent => Ok(ReadXmp::Absent(found.unread())),
        FoundXmp::NotRead { start } => match joined_form(memory, front) {
            Ok(form) => Ok(ReadXmp::Form(form)),
            Err(why) => left_at(why, start),
        },
        FoundXmp::Packet { start, size } => match only_form(memory, front, start, size) {
            Ok(form) => Ok(ReadXmp::Form(form)),
            Err(why) => left_at(why, start),
        },
    }
}

// The XMP of one of two pictures, or why its blocks aren't found.
pub(crate) fn read_xmp(
    memory: &mut Memory,
    bytes: &[u8],
    side: PictureSide,
) -> Result<ReadXmp, PictureFault>
    ensures read { IfOk result (HasXmp bytes.now) }
    ensures blocks { IfOk result (λ _. (x : Blocks) × HasBlocks bytes.now x) }
    ensures fault { IfErr result (λ e. (e.side ≡ side) × IsHeadFault bytes.now memory.new.failed_allocations e.fault) }
    ensures memory { CountsAllocFailureInPicture result memory.old memory.new }
    ensures asked { HasNoXmp bytes.now → AsksAtMost (join_request (length bytes.now)) memory.old memory.new }
{
    let front = match read_head(bytes) {
        Ok(head) => head.front(),
        Err(fault) => {
            let fault = MetadataFault::Head(fault);
            return Err(PictureFault { side, fault });
        }
    };
    let found = match metadata_of_in(memory, bytes) {
        Ok(found) => found,
        Err(fault) => return Err(PictureFault { side, fault }),
    };
    let xmp = xmp_in(memory, &found, &front);
    drop(found);
    match xmp {
        Ok(xmp) => Ok(xmp),
        Err(fault) => Err(PictureFault { side, fault }),
    }
}
