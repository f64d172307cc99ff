// The packet of XMP of a picture. XMP part 3, 1.1.3.
ghost use Rattle.std.specs.Prelude.{◌≡◌, ◌∷◌, [], MatchOption};
ghost use Rattle.px_jpeg.specs.Xmp.{is_packet, xmp_pieces, xmp_of};

use crate::fronts::Front;
use crate::pieces::{Piece, Pieces, SegmentKind};

/// The XMP of a picture.
#[derive(Clone, Copy, Debug, PartialEq, Eq)]
pub enum FoundXmp {
    /// No segment has any.
    Absent,
    /// One segment has a packet, and none has another or extended XMP.
    Packet {
        /// The offset of the packet.
        start: usize,
        /// The number of its bytes.
        size: usize,
    },
    /// There is a second packet, or extended XMP, which this crate doesn't join.
    NotRead {
        /// The offset of the second packet or of the first piece of extended XMP, whichever comes first.
        start: usize,
    },
}

// Whether a piece of this kind is a packet.
fn is_packet(kind: SegmentKind) -> bool
    ensures { result ≡ is_packet kind }
{
    match kind {
        SegmentKind::Xmp => true,
        SegmentKind::Exif | SegmentKind::Photoshop | SegmentKind::ExtendedXmp => false,
    }
}

// The next packet or piece of extended XMP. None: no other is left.
fn next_of_xmp<'a>(left: &mut Pieces<'a>) -> Option<Piece>
    ensures { MatchOption result (xmp_pieces left.old ≡ []) (λ p. xmp_pieces left.old ≡ p ∷ xmp_pieces left.new) }
{
    loop {
        let Some(piece) = left.next() else {
            return None;
        };
        match piece.kind {
            SegmentKind::Xmp | SegmentKind::ExtendedXmp => return Some(piece),
            SegmentKind::Exif | SegmentKind::Photoshop => {}
        }
    }
}

/// The XMP of a picture whose head has these parts: the bytes of the one APP1 segment that begins with
/// `http://ns.adobe.com/xap/1.0/` and a zero, after that zero. Extended XMP begins with
/// `http://ns.adobe.com/xmp/extension/` and a zero. `Absent`: no segment begins with one of the two. `NotRead`: several
/// begin with the first, or one with the second; the offset is that of the second packet or of the first piece of
/// extended XMP, whichever comes first. Allocates nothing.
pub fn find_xmp(front: &Front) -> FoundXmp
    ensures { result ≡ xmp_of front.now.octets front.now.parts }
{
    let mut left = front.pieces();
    let Some(first) = next_of_xmp(&mut left) else {
        return FoundXmp::Absent;
    };
    if !is_packet(first.kind) {
        return FoundXmp::NotRead { start: first.start };
    }
    match next_of_xmp(&mut left) {
        None => FoundXmp::Packet {
            start: first.start,
            size: first.size,
        },
        Some(second) => FoundXmp::NotRead {
            start: second.start,
        },
    }
}
