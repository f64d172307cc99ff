// What a picture contains beside its blocks that other programs read as metadata, or may.
ghost use Rattle.std.specs.Prelude.{◌≡◌, ◌<◌, ◌≤◌, if◌then◌else◌, length, true, None, IfSome, IfOk, IfErr};
ghost use Rattle.px_bytes.specs.Allocations.{AsksAtMost};
ghost use Rattle.px_jpeg.specs.Pieces.{range, with_pieces};
ghost use Rattle.px_pictures.specs.Asking.{join_request};
ghost use Rattle.px_pictures.specs.Faults.{IsHeadFault, CountsAllocFailureInMetadata};
ghost use Rattle.px_pictures.specs.Unread.{is_letter, names_exif, seems_exif, is_colour_model, may_have_metadata, unread_segment};
ghost use Rattle.px_pictures.specs.Unread.{are_zeros, is_adobe, is_doubtful, unread_rest, unread_resources};
ghost use Rattle.px_pictures.specs.Unread.{IsUnread, unread_in_block, unread_in_blocks};

use crate::faults::MetadataFault;
use crate::found::{Metadata, metadata_of_in};
use crate::places::{BlockPlace, Places, places_of};
use crate::ranges::range;
use px_bytes::Memory;
use px_jpeg::{Front, Resource, SegmentKind, find_resources, with_pieces};

// The number of the image resource that contains IPTC's DataSets.
const IPTC: usize = 0x0404;

// The number of the image resource in which Photoshop may repeat the Exif.
const EXIF: usize = 0x0422;

/// A place in a picture from which on something is not read.
#[derive(Clone, Copy, Debug, PartialEq, Eq)]
pub struct Unread {
    /// Whether the offset is one in the joined bytes, which `put_joined` writes, and not in the picture.
    pub joined: bool,
    /// The offset.
    pub start: usize,
}

// Whether a byte is this letter, in either case.
fn is_letter(upper: u8, lower: u8, octet: u8) -> bool
    ensures { result ≡ is_letter upper lower octet }
{
    octet == upper || octet == lower
}

// Whether 'Exif' in any case and a zero are at an index, and one more byte follows.
#[tactic(auto, unfolding(crate::specs::Unread::names_exif))]
fn names_exif(at: usize, octets: &[u8]) -> bool
    requires { at ≤ 4 }
    ensures { result ≡ names_exif at octets.now }
{
    octets.len() >= at + 6
        && is_letter(b'E', b'e', octets[at])
        && is_letter(b'X', b'x', octets[at + 1])
        && is_letter(b'I', b'i', octets[at + 2])
        && is_letter(b'F', b'f', octets[at + 3])
        && octets[at + 4] == 0
}

// Whether other programs read the data of an APP1 segment as Exif.
#[tactic(auto, unfolding(crate::specs::Unread::seems_exif))]
fn seems_exif(octets: &[u8]) -> bool
    ensures { result ≡ seems_exif octets.now }
{
    names_exif(0, octets)
        || names_exif(1, octets)
        || names_exif(2, octets)
        || names_exif(3, octets)
        || names_exif(4, octets)
}

// Whether the data of an APP13 segment are Adobe's colour model, which no program reads as Exif or IPTC.
#[tactic(auto, unfolding(crate::specs::Unread::is_colour_model))]
fn is_colour_model(octets: &[u8]) -> bool
    ensures { result ≡ is_colour_model octets.now }
{
    octets.starts_with(b"Adobe_CM")
}

// Whether a segment with this marker and these data may have metadata.
#[tactic(auto, unfolding(crate::specs::Unread::may_have_metadata))]
fn may_have_metadata(code: u8, octets: &[u8]) -> bool
    ensures { result ≡ may_have_metadata code octets.now }
{
    (code == 0xE1 && seems_exif(octets))
        || (code == 0xED && !octets.is_empty() && !is_colour_model(octets))
}

// The offset of the data of the first segment without a piece of a block that may have metadata.
// None: there is no such segment.
fn unread_segment(front: &Front) -> Option<usize>
    ensures { result ≡ unread_segment front.now.octets (with_pieces front.now.octets None front.now.parts) }
{
    let bytes = front.bytes();
    let mut left = with_pieces(bytes, front.parts());
    loop {
        let Some(found) = left.next() else {
            return None;
        };
        let part = found.part;
        if found.piece.is_none()
            && may_have_metadata(part.code, range(bytes, part.start, part.size))
        {
            return Some(part.start);
        }
    }
}

// Whether all bytes are zero.
fn are_zeros(octets: &[u8]) -> bool
    ensures { result ≡ are_zeros octets.now }
{
    for octet in octets {
        if *octet != 0 {
            return false;
        }
    }
    true
}

// Whether a signature is Adobe's.
#[tactic(auto, unfolding(crate::specs::Unread::is_adobe))]
fn is_adobe(signature: &[u8]) -> bool
    ensures { result ≡ is_adobe signature.now }
{
    signature.starts_with(b"8BIM")
}

// Whether a resource has Exif, which isn't read, or IPTC by another signature than Adobe's.
#[tactic(auto, unfolding(crate::specs::Unread::is_doubtful))]
fn is_doubtful(signature: &[u8], resource: &Resource) -> bool
    ensures value { result ≡ is_doubtful signature.now resource.now }
    ensures some { result ≡ true → 0 < resource.now.size }
{
    (resource.number == EXIF || (resource.number == IPTC && !is_adobe(signature)))
        && resource.size > 0
}

// The offset `at` after the last resource, if anything but zeros follows. None: only zeros follow,
// or nothing.
fn unread_rest(octets: &[u8], at: usize) -> Option<usize>
    ensures value { result ≡ unread_rest octets.now at }
    ensures within { IfSome result (λ at. at < length octets.now) }
{
    if are_zeros(octets.split_at(at.min(octets.len())).1) {
        return None;
    }
    Some(at)
}

// The offset in Photoshop's resources at which something is that isn't read. None: all is read.
fn unread_resources(octets: &[u8]) -> Option<usize>
    ensures value { result ≡ unread_resources octets.now }
    ensures within { IfSome result (λ at. at < length octets.now) }
{
    let mut left = find_resources(octets);
    let mut at = 0;
    loop {
        let Some(resource) = left.next() else {
            return unread_rest(octets, at);
        };
        if is_doubtful(range(octets, at, 4), &resource) {
            return Some(resource.start);
        }
        at = resource.start + resource.size + resource.size % 2;
    }
}

// The bytes of which a block is a range: the joined bytes `all`, or the picture.
pub(crate) fn whole_of<'b>(picture: &'b [u8], all: &'b [u8], joined: bool) -> &'b [u8]
    ensures { result.now ≡ (if joined then all.now else picture.now) }
{
    if joined {
        return all;
    }
    picture
}

// The place in a block at which something is that isn't read. `whole` is what the block is a range
// of. None: all of the block is read.
fn unread_in_block(whole: &[u8], place: &BlockPlace) -> Option<Unread>
    ensures { result ≡ unread_in_block place.now.kind (range whole.now place.now.start place.now.size) place.now }
{
    match place.kind {
        SegmentKind::Photoshop => match unread_resources(range(whole, place.start, place.size)) {
            Some(at) => Some(Unread {
                joined: place.joined,
                start: place.start + at,
            }),
            None => None,
        },
        SegmentKind::Exif | SegmentKind::Xmp | SegmentKind::ExtendedXmp => None,
    }
}

// The first place that isn't read in these blocks. `all` are the joined bytes. None: there is none.
fn unread_in_blocks(picture: &[u8], all: &[u8], places: Places) -> Option<Unread>
    ensures { result ≡ unread_in_blocks picture.now all.now places.entry }
{
    let mut left = places;
    loop {
        let Some(place) = left.next() else {
            return None;
        };
        if let Some(found) = unread_in_block(whole_of(picture, all, place.joined), &place) {
            return Some(found);
        }
    }
}

impl<'a> Metadata<'a> {
    /// The first place in the picture that isn't read, as `unread_in` returns it: in an APP1 or APP13 segment that
    /// has no piece of a block, or else in Photoshop's resources. `None`: there is none. It allocates nothing.
    pub fn unread(&self) -> Option<Unread>
        ensures { IsUnread self.now.octets result }
    {
        let places = places_of(&self.front);
        if let Some(start) = unread_segment(&self.front) {
            return Some(Unread {
                joined: false,
                start,
            });
        }
        unread_in_blocks(self.front.bytes(), self.octets.as_slice(), places)
    }
}

/// The first place in a picture at which something is that other programs read as metadata, or may, and that
/// `same_metadata_in` doesn't read. `None`: there is no such place. Such a place is an APP1 segment that seems to be
/// Exif by another mark, an APP13 segment with another mark than Photoshop's and `Adobe_CM`, Photoshop's resource
/// 0x0422, resource 0x0404 by another signature than `8BIM`, which is read here and by some other programs alone, or
/// what follows the last resource, unless that is zeros. Segments come before resources. Allocates what
/// `metadata_of_in` does, and has its faults: `Head`, `TooLong` and `OutOfMemory`; `Block` never comes.
pub fn unread_in(memory: &mut Memory, bytes: &[u8]) -> Result<Option<Unread>, MetadataFault>
    ensures found { IfOk result (IsUnread bytes.now) }
    ensures fault { IfErr result (IsHeadFault bytes.now memory.new.failed_allocations) }
    ensures memory { CountsAllocFailureInMetadata result memory.old memory.new }
    ensures asked { AsksAtMost (join_request (length bytes.now)) memory.old memory.new }
{
    let found = metadata_of_in(memory, bytes)?;
    let place = found.unread();
    drop(found);
    Ok(place)
}
