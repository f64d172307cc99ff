// The XMP of a picture, and what it contains beside its packets that ExifTool reads as XMP too.
ghost use Rattle.std.specs.Prelude.{◌≡◌, ◌<◌, if◌then◌else◌, length, None, IfSome};
ghost use Rattle.px_jpeg.specs.Head.{HasHead};
ghost use Rattle.px_jpeg.specs.Pieces.{range, with_pieces};
ghost use Rattle.px_jpeg.specs.ResourceReading.{resources_of};
ghost use Rattle.px_jpeg.specs.Xmp.{xmp_of};
ghost use Rattle.px_pictures.specs.Xmp.{has_part, begins_as_xmp, has_mark_of_xmp, may_have_xmp, xmp_segment};
ghost use Rattle.px_pictures.specs.Xmp.{has_xmp, xmp_resource, xmp_in_block, xmp_in_blocks, IsOtherXmp};

use crate::found::Metadata;
use crate::places::{BlockPlace, Places, places_of};
use crate::ranges::range;
use crate::unread::{Unread, whole_of};
use px_jpeg::{FoundXmp, Front, Resource, SegmentKind, find_resources, find_xmp, with_pieces};

// The number of the image resource with XMP.
const XMP: usize = 0x0424;

// Whether a list begins at some place in the bytes.
#[tactic(auto, using(crate::proofs::PartLaws::part_further))]
fn has_part(wanted: &[u8], octets: &[u8]) -> bool
    ensures { result ≡ has_part wanted.now octets.now }
{
    for (n, _) in octets.iter().enumerate() {
        if octets.split_at(n).1.starts_with(wanted) {
            return true;
        }
    }
    false
}

// Whether the data of a segment begin as XMP by another mark.
#[tactic(auto, unfolding(crate::specs::Xmp::begins_as_xmp))]
fn begins_as_xmp(octets: &[u8]) -> bool
    ensures { result ≡ begins_as_xmp octets.now }
{
    octets.starts_with(b"http") || octets.starts_with(b"XMP\0")
}

// Whether the data of a segment have `<?xpacket` or `<exif:`, by which ExifTool finds XMP.
#[tactic(auto, unfolding(crate::specs::Xmp::has_mark_of_xmp))]
fn has_mark_of_xmp(octets: &[u8]) -> bool
    ensures { result ≡ has_mark_of_xmp octets.now }
{
    has_part(b"<?xpacket", octets) || has_part(b"<exif:", octets)
}

// Whether a segment with this marker and these data may have XMP.
fn may_have_xmp(code: u8, octets: &[u8]) -> bool
    ensures { result ≡ may_have_xmp code octets.now }
{
    code == 0xE1 && (begins_as_xmp(octets) || has_mark_of_xmp(octets))
}

// The offset of the data of the first segment without a piece of a block that may have XMP. None:
// there is no such segment.
fn xmp_segment(front: &Front) -> Option<usize>
    ensures { result ≡ xmp_segment front.now.octets (with_pieces front.now.octets None front.now.parts) }
{
    let bytes = front.bytes();
    let mut left = with_pieces(bytes, front.parts());
    loop {
        let Some(found) = left.next() else {
            return None;
        };
        let part = found.part;
        if found.piece.is_none() && may_have_xmp(part.code, range(bytes, part.start, part.size)) {
            return Some(part.start);
        }
    }
}

// Whether a resource has XMP: its number is 0x0424, and it has a byte.
fn has_xmp(resource: &Resource) -> bool
    ensures { result ≡ has_xmp resource.now }
{
    resource.number == XMP && resource.size > 0
}

// The offset in Photoshop's resources of the first XMP. None: they have none.
fn xmp_resource(octets: &[u8]) -> Option<usize>
    ensures value { result ≡ xmp_resource (resources_of 0 octets.now) }
    ensures within { IfSome result (λ at. at < length octets.now) }
{
    let mut left = find_resources(octets);
    loop {
        let Some(resource) = left.next() else {
            return None;
        };
        if has_xmp(&resource) {
            return Some(resource.start);
        }
    }
}

// The place of the first XMP in Photoshop's resources. `whole` is what the block is a range of.
// None: the block has no XMP there.
fn xmp_in_block(whole: &[u8], place: &BlockPlace) -> Option<Unread>
    ensures { result ≡ xmp_in_block place.now.kind (range whole.now place.now.start place.now.size) place.now }
{
    match place.kind {
        SegmentKind::Photoshop => match xmp_resource(range(whole, place.start, place.size)) {
            Some(at) => Some(Unread {
                joined: place.joined,
                start: place.start + at,
            }),
            None => None,
        },
        SegmentKind::Exif | SegmentKind::Xmp | SegmentKind::ExtendedXmp => None,
    }
}

// The place of the first XMP in resources of these blocks. `all` are the joined bytes. None: there
// is none.
fn xmp_in_blocks(picture: &[u8], all: &[u8], places: Places) -> Option<Unread>
    ensures { result ≡ xmp_in_blocks picture.now all.now places.entry }
{
    let mut left = places;
    loop {
        let Some(place) = left.next() else {
            return None;
        };
        if let Some(found) = xmp_in_block(whole_of(picture, all, place.joined), &place) {
            return Some(found);
        }
    }
}

impl<'a> Metadata<'a> {
    /// The bytes of a range of the picture, without those that pass its end.
    pub fn range(&self, start: usize, size: usize) -> &'a [u8]
        ensures { result.now ≡ range self.now.octets start size }
    {
        range(self.front.bytes(), start, size)
    }

    /// The XMP of the picture by its own marks, as `find_xmp` of px_jpeg returns it. It allocates nothing.
    pub fn xmp(&self) -> FoundXmp
        ensures value { result ≡ xmp_of self.now.octets self.now.parts }
        ensures head { HasHead self.now.octets self.now.parts }
    {
        find_xmp(&self.front)
    }

    /// The first place beside the packets of XMP and extended XMP in which ExifTool reads XMP: an APP1 segment without a
    /// piece of a block that begins with `http`, or with `XMP` and a zero, or that has `<?xpacket` or `<exif:`; or else
    /// Photoshop's resource 0x0424, with any data. `None`: there is none. It allocates nothing.
    pub fn other_xmp(&self) -> Option<Unread>
        ensures { IsOtherXmp self.now.octets result }
    {
        let places = places_of(&self.front);
        if let Some(start) = xmp_segment(&self.front) {
            return Some(Unread {
                joined: false,
                start,
            });
        }
        xmp_in_blocks(self.front.bytes(), self.octets.as_slice(), places)
    }
}
