// The parts of a JPEG picture's head, and Photoshop's image resources, in the caller's arrays. Nothing is allocated.
ghost use Rattle.std.specs.Prelude.{◌≡◌, ◌⊎◌, ◌≤◌, ◌++◌, List, length, map, drop};
ghost use Rattle.px_jpeg.specs.declared.parts.Part.{Part};
ghost use Rattle.px_jpeg.specs.Fault.{IsFront};
ghost use Rattle.px_c.specs.Jpeg.{head_cause, piece_kind, seen_part, seen_parts, seen_resource, IsStored, IsShort};
ghost use Rattle.px_c.specs.Numbers as status;

use crate::statuses::{DONE, TOO_LITTLE_ROOM};
use px_jpeg::{
    HeadCause, HeadPart, Resource, Resources, SegmentKind, WithPieces, find_parts, with_pieces,
};

/// A part of a head: a marker with its segment's data, or one that stands alone.
#[repr(C)]
#[derive(Clone, Copy, Drop)]
pub struct ExifnormJpegPart {
    /// The second byte of the marker.
    pub marker: u32,
    /// What the data contain: 1 for Exif, 2 for Photoshop's image resources, 3 for XMP, 4 for extended XMP, and 0
    /// for all else.
    pub kind: u32,
    /// 1 if a block begins with it. 0 if it continues the block of the part before, or if the kind is 0.
    pub begins: u32,
    /// The offset of the data, after the mark that tells the kind.
    pub start: usize,
    /// The number of their bytes.
    pub size: usize,
}

/// Why bytes are no head.
#[repr(C)]
#[derive(Clone, Copy, Drop)]
pub struct ExifnormJpegFault {
    /// 101 for `NoStart`, 102 for `NoMarker`, 103 for `LengthForm`, 104 for `HeadCut`.
    pub cause: u32,
    /// The offset of the part that has the fault.
    pub place: usize,
}

/// One of Photoshop's image resources.
#[repr(C)]
#[derive(Clone, Copy, Drop)]
pub struct ExifnormPhotoshopResource {
    /// Its number: 0x0404 for IPTC's DataSets.
    pub number: usize,
    /// The offset of its data.
    pub start: usize,
    /// The number of their bytes.
    pub size: usize,
}

// The number that C has for the cause of a head's fault.
pub(crate) fn head_cause(cause: HeadCause) -> u32
    ensures { result ≡ head_cause cause }
{
    match cause {
        HeadCause::NoStart => 101,
        HeadCause::NoMarker => 102,
        HeadCause::LengthForm => 103,
        HeadCause::HeadCut => 104,
    }
}

// The number that C has for what a segment contains.
pub(crate) fn piece_kind(kind: SegmentKind) -> u32
    ensures { result ≡ piece_kind kind }
{
    match kind {
        SegmentKind::Exif => 1,
        SegmentKind::Photoshop => 2,
        SegmentKind::Xmp => 3,
        SegmentKind::ExtendedXmp => 4,
    }
}

// A part of the head, with its piece, as the structure of C has it.
fn seen_part(found: &HeadPart) -> ExifnormJpegPart
    ensures { result ≡ seen_part found.now }
{
    let marker = u32::from(found.part.code);
    match found.piece {
        None => ExifnormJpegPart {
            marker,
            kind: 0,
            begins: 0,
            start: found.part.start,
            size: found.part.size,
        },
        Some(piece) => ExifnormJpegPart {
            marker,
            kind: piece_kind(piece.kind),
            begins: u32::from(piece.begins),
            start: piece.start,
            size: piece.size,
        },
    }
}

// One of Photoshop's image resources, as the structure of C has it.
fn seen_resource(found: &Resource) -> ExifnormPhotoshopResource
    ensures { result ≡ seen_resource found.now }
{
    ExifnormPhotoshopResource {
        number: found.number,
        start: found.start,
        size: found.size,
    }
}

// Stores the parts at the start of `out`, in which there is room for them.
fn store_parts(found: WithPieces, out: &mut [ExifnormJpegPart])
    requires { length found ≤ length out.old }
    ensures { out.new ≡ map seen_part found.entry ++ drop (length found.entry) out.old }
{
    let mut left = found;
    let mut n = 0;
    loop {
        let Some(part) = left.next() else {
            return;
        };
        out[n] = seen_part(&part);
        n += 1;
    }
}

// Stores the resources at the start of `out`, in which there is room for them.
pub(crate) fn store_resources(found: Resources, out: &mut [ExifnormPhotoshopResource])
    requires { length found ≤ length out.old }
    ensures { out.new ≡ map seen_resource found.entry ++ drop (length found.entry) out.old }
{
    let mut left = found;
    let mut n = 0;
    loop {
        let Some(resource) = left.next() else {
            return;
        };
        out[n] = seen_resource(&resource);
        n += 1;
    }
}

// Stores the parts that are found in a picture at the start of `out`, if they fit, and their number in `count`.
pub(crate) fn put_parts(bytes: &[u8], out: &mut [ExifnormJpegPart], count: &mut usize) -> u32
    ensures known { (result ≡ status.done) ⊎ (result ≡ status.too_little_room) }
    ensures done { result ≡ status.done → (parts : List Part) × IsFront bytes.now parts
        × IsStored (seen_parts bytes.now parts) count.new out.old out.new }
    ensures short { result ≡ status.too_little_room → (parts : List Part) × IsFront bytes.now parts
        × IsShort (seen_parts bytes.now parts) count.new out.old out.new }
{
    let found = with_pieces(bytes, find_parts(bytes));
    *count = found.len();
    if *count > out.len() {
        return TOO_LITTLE_ROOM;
    }
    store_parts(found, out);
    DONE
}
