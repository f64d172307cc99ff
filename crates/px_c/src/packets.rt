// The packet of XMP of a JPEG picture. Nothing is allocated.
ghost use Rattle.std.specs.Prelude.{◌≡◌, ◌≢◌, ◌⊎◌};
ghost use Rattle.px_jpeg.specs.Xmp.{xmp_of};
ghost use Rattle.px_c.specs.Packets.{IsSeenPacket, IsSeenRest};
ghost use Rattle.px_c.specs.Numbers as status;

use crate::statuses::{DONE, NOT_READ};
use crate::unread::ExifnormUnreadPart;
use px_jpeg::{FoundXmp, Front, find_xmp};

/// Where the packet of XMP of a picture is.
#[repr(C)]
#[derive(Clone, Copy, Drop)]
pub struct ExifnormJpegPacket {
    /// 1 if there is one, otherwise 0.
    pub found: u32,
    /// Its offset in the picture; 0 if there is none.
    pub start: usize,
    /// The number of its bytes; 0 if there is none.
    pub size: usize,
}

// Stores the packet of some parts, or the place of what isn't read.
pub(crate) fn put_xmp(
    front: &Front,
    packet: &mut ExifnormJpegPacket,
    unread: &mut ExifnormUnreadPart,
) -> u32
    ensures known { (result ≡ status.done) ⊎ (result ≡ status.not_read) }
    ensures done { result ≡ status.done → IsSeenPacket (xmp_of front.now.octets front.now.parts) packet.new }
    ensures left { result ≡ status.not_read → IsSeenRest (xmp_of front.now.octets front.now.parts) unread.new }
    ensures packet { result ≢ status.done → packet.new ≡ packet.old }
    ensures unread { result ≢ status.not_read → unread.new ≡ unread.old }
{
    match find_xmp(front) {
        FoundXmp::Absent => {
            *packet = ExifnormJpegPacket {
                found: 0,
                start: 0,
                size: 0,
            };
            DONE
        }
        FoundXmp::Packet { start, size } => {
            *packet = ExifnormJpegPacket {
                found: 1,
                start,
                size,
            };
            DONE
        }
        FoundXmp::NotRead { start } => {
            *unread = ExifnormUnreadPart {
                found: 1,
                joined: 0,
                start,
            };
            NOT_READ
        }
    }
}
