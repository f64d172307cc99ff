// The blocks of a picture.
ghost use Rattle.std.specs.Prelude.{◌≡◌, length, IfOk, IfErr};
ghost use Rattle.px_bytes.specs.Allocations.{AsksAtMost};
ghost use Rattle.px_pictures.specs.Asking.{join_request, AsksToJoin};
ghost use Rattle.px_pictures.specs.Metadata.{HasBlocks, blocks_of};
ghost use Rattle.px_pictures.specs.Faults.{IsHeadFault, CountsAllocFailureInMetadata};

use crate::blocks::{ExifBlocks, IptcBlocks};
use crate::faults::MetadataFault;
use crate::joining::{join_in, joined_size};
use crate::runs::runs_of;
use px_bytes::Memory;
use px_jpeg::{Front, find_resources, read_head};
use std::marker::Model;

/// The blocks of a picture. A block of one piece is a range of the picture; of all others it owns the bytes. Contracts
/// see the picture and the parts of its head, of which `blocks_of` are the lists of blocks.
#[derive(Drop)]
pub struct Metadata<'a> {
    pub(crate) front: Front<'a>,
    // The bytes of the blocks that have more than one piece, one after another.
    pub(crate) octets: Vec<u8>,
}

impl<'a> Model for Metadata<'a> {
    ghost use Rattle.std.specs.Prelude.{◌≡◌, None};
    ghost use Rattle.px_jpeg.specs.Head.{Picture, HasHead};
    ghost use Rattle.px_jpeg.specs.Pieces.{pieces};
    ghost use Rattle.px_pictures.specs.calls.Runs.{joined_octets};

    ghost Value = { Picture };

    ghost view = { λ m. m.front };

    ghost invariant = { λ m. HasHead m.front.octets m.front.parts
        × (m.octets.items ≡ joined_octets m.front.octets (pieces m.front.octets None m.front.parts)) };
}

/// The blocks of the picture that begins with these bytes. They may be a whole file or only its first bytes: what
/// follows the head is not read. Allocates nothing if each block of Exif and of Photoshop's resources has one piece,
/// and otherwise once the bytes of the blocks that have more than one.
///
/// `Head`: the bytes have no head, and this is the first fault. `TooLong`: they have one, and the blocks that have
/// more than one piece have more than 16 times `LIMIT` bytes in all, 268,435,456. `OutOfMemory`: an allocation
/// failed. `Block` never comes.
pub fn metadata_of_in<'a>(
    memory: &mut Memory,
    bytes: &'a [u8],
) -> Result<Metadata<'a>, MetadataFault>
    ensures found { IfOk result (λ m. (m.octets ≡ bytes.now) × HasBlocks bytes.now (blocks_of m)) }
    ensures fault { IfErr result (IsHeadFault bytes.now memory.new.failed_allocations) }
    ensures memory { CountsAllocFailureInMetadata result memory.old memory.new }
    ensures asked { AsksAtMost (join_request (length bytes.now)) memory.old memory.new }
    ensures joined { AsksToJoin bytes.now memory.old memory.new }
{
    px_jpeg::laws::one_head();
    let front = match read_head(bytes) {
        Ok(head) => head.front(),
        Err(fault) => return Err(MetadataFault::Head(fault)),
    };
    let Some(size) = joined_size(&front) else {
        return Err(MetadataFault::TooLong);
    };
    match join_in(memory, &front, size) {
        Ok(octets) => Ok(Metadata { front, octets }),
        Err(_) => Err(MetadataFault::OutOfMemory),
    }
}

impl<'a> Metadata<'a> {
    /// The Exif blocks, in order: those of APP1.
    pub fn exif(&self) -> ExifBlocks<'_, 'a>
        ensures { result ≡ (blocks_of self.now).exif }
    {
        ExifBlocks {
            runs: runs_of(self.octets.as_slice(), &self.front),
        }
    }

    /// The IPTC blocks, in order: the data of Photoshop's resources 0x0404 that have a byte.
    pub fn iptc(&self) -> IptcBlocks<'_, 'a>
        ensures { result ≡ (blocks_of self.now).iptc }
    {
        let octets = self.octets.as_slice().split_at(0).0;
        IptcBlocks {
            octets,
            resources: find_resources(octets),
            runs: runs_of(self.octets.as_slice(), &self.front),
        }
    }
}
