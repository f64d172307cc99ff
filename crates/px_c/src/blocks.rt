// The blocks of a JPEG picture in the caller's arrays. Nothing is allocated.
ghost use Rattle.std.specs.Prelude.{◌≡◌, ◌⊎◌, ◌≤◌, ◌<◌, ◌++◌, length, map, drop};
ghost use Rattle.px_jpeg.specs.Blocks.{blocks};
ghost use Rattle.px_jpeg.specs.Front.{HasFront};
ghost use Rattle.px_pictures.specs.Places.{joined_bytes};
ghost use Rattle.px_c.specs.Blocks.{seen_place, StoresPlaces};
ghost use Rattle.px_c.specs.Numbers as status;

use crate::jpeg::piece_kind;
use crate::statuses::{DONE, TOO_LITTLE_ROOM};
use px_jpeg::Front;
use px_pictures::{BlockPlace, Places, block_count, joined_len, places_of, put_joined};

/// Where a block is.
#[repr(C)]
#[derive(Clone, Copy, Drop)]
pub struct ExifnormJpegBlock {
    /// What it contains: 1 for Exif, 2 for Photoshop's image resources, 3 for XMP, 4 for extended XMP.
    pub kind: u32,
    /// 0 if it has one piece: it is a range of the picture. 1 if it has more: it is a range of the joined bytes.
    pub joined: u32,
    /// The offset of its first byte.
    pub start: usize,
    /// The number of its bytes.
    pub size: usize,
}

/// How many blocks a picture has.
#[repr(C)]
#[derive(Clone, Copy, Drop)]
pub struct ExifnormJpegSizes {
    /// The number of blocks.
    pub blocks: usize,
    /// The number of joined bytes: those of the blocks that have more than one piece.
    pub joined: usize,
}

// The place of a block, as the structure of C has it.
fn seen_place(place: &BlockPlace) -> ExifnormJpegBlock
    ensures { result ≡ seen_place place.now }
{
    ExifnormJpegBlock {
        kind: piece_kind(place.kind),
        joined: u32::from(place.joined),
        start: place.start,
        size: place.size,
    }
}

// Stores the places at the start of `out`, in which there is room for them.
fn store_places(found: Places, out: &mut [ExifnormJpegBlock])
    requires { length found ≤ length out.old }
    ensures { out.new ≡ map seen_place found.entry ++ drop (length found.entry) out.old }
{
    let mut left = found;
    let mut n = 0;
    loop {
        let Some(place) = left.next() else {
            return;
        };
        out[n] = seen_place(&place);
        n += 1;
    }
}

// Stores the blocks of some parts at the start of `stored`, and the joined bytes at the start of `out`, if both fit; and
// how many they are in `sizes`.
pub(crate) fn put_blocks(
    front: &Front,
    stored: &mut [ExifnormJpegBlock],
    out: &mut [u8],
    sizes: &mut ExifnormJpegSizes,
) -> u32
    requires { HasFront front.now.octets front.now.parts }
    ensures known { (result ≡ status.done) ⊎ (result ≡ status.too_little_room) }
    ensures done { result ≡ status.done
        → StoresPlaces front.now.octets front.now.parts sizes.new stored.old stored.new out.old out.new }
    ensures short { result ≡ status.too_little_room → (sizes.new.blocks ≡ length (blocks front.now.octets front.now.parts))
        × (sizes.new.joined ≡ length (joined_bytes front.now.octets front.now.parts))
        × ((length stored.old < sizes.new.blocks) ⊎ (length out.old < sizes.new.joined)) × (stored.new ≡ stored.old) × (out.new ≡ out.old) }
    ensures few { sizes.new.joined ≤ length front.now.octets }
{
    let count = block_count(front);
    let joined = joined_len(front);
    *sizes = ExifnormJpegSizes {
        blocks: count,
        joined,
    };
    if count > stored.len() {
        return TOO_LITTLE_ROOM;
    }
    if joined > out.len() {
        return TOO_LITTLE_ROOM;
    }
    store_places(places_of(front), stored);
    put_joined(front, out);
    DONE
}
