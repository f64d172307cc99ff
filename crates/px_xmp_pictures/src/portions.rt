// The pieces of extended XMP of a picture, joined. XMP part 3, 1.1.3.1.
ghost use Rattle.std.specs.Prelude.{◌≡◌, ◌∷◌, [], ◌≤◌, ◌<◌, ◌+◌, length, drop, true, None, map, IfOk, MatchOption};
ghost use Rattle.std.specs.List.{AllByRecursion, flat_map};
ghost use Rattle.std.specs.List.Sorted.{IsPermutation, IsNonDecreasingBy};
ghost use Rattle.px_bytes.specs.Parts.{limit};
ghost use Rattle.px_jpeg.specs.Pieces.{range, pieces};
ghost use Rattle.px_jpeg.specs.Xmp.{is_packet};
ghost use Rattle.px_jpeg.specs.declared.pieces.Piece.{Piece as PieceValue};
ghost use Rattle.px_xmp_pictures.specs.declared.portions.Portion.{Portion as PortionValue};
ghost use Rattle.px_xmp_pictures.specs.Counts.{IfLeft, CountsAllocFailureInXmp};
ghost use Rattle.px_xmp_pictures.specs.Extension.{is_of_extension, packets, extension_pieces, portion_of, text_of};
ghost use Rattle.px_xmp_pictures.specs.Extension.{HasName, Follow};

use crate::unjoined::Unjoined;
use px_bytes::Memory;
use px_jpeg::{EXTENDED_HEAD, Front, Piece, Pieces, SegmentKind, read_extended};
use px_xmp::LIMIT;
use std::collections::BinaryHeap;

// The number of octets of the name of an extension.
pub(crate) const NAME_LEN: usize = 32;

// What a piece says of its place in the extension, and where the piece is in the picture. They are in order by their offsets.
#[derive(Clone, Copy, Debug, PartialEq, Eq, PartialOrd, Ord)]
pub(crate) struct Portion {
    pub(crate) offset: usize,
    pub(crate) total: usize,
    pub(crate) start: usize,
    pub(crate) size: usize,
}

// The bytes of a range, without those that pass the end.
pub(crate) fn range(bytes: &[u8], start: usize, size: usize) -> &[u8]
    ensures { result.now ≡ range bytes.now start size }
{
    let rest = bytes.split_at(start.min(bytes.len())).1;
    rest.split_at(size.min(rest.len())).0
}

// Whether a piece of this kind is a packet.
fn is_packet(kind: SegmentKind) -> bool
    ensures { result ≡ is_packet kind }
{
    match kind {
        SegmentKind::Xmp => true,
        SegmentKind::Exif | SegmentKind::Photoshop | SegmentKind::ExtendedXmp => false,
    }
}

// Whether a piece of this kind is one of extended XMP.
fn is_of_extension(kind: SegmentKind) -> bool
    ensures { result ≡ is_of_extension kind }
{
    match kind {
        SegmentKind::ExtendedXmp => true,
        SegmentKind::Exif | SegmentKind::Photoshop | SegmentKind::Xmp => false,
    }
}

// The next packet. None: none is left.
fn next_packet<'a>(left: &mut Pieces<'a>) -> Option<Piece>
    ensures { MatchOption result (packets left.old ≡ []) (λ p. packets left.old ≡ p ∷ packets left.new) }
{
    loop {
        let Some(piece) = left.next() else {
            return None;
        };
        if is_packet(piece.kind) {
            return Some(piece);
        }
    }
}

// The next piece of extended XMP. None: none is left.
fn next_of_extension<'a>(left: &mut Pieces<'a>) -> Option<Piece>
    ensures { MatchOption result (extension_pieces left.old ≡ []) (λ p. extension_pieces left.old ≡ p ∷ extension_pieces left.new) }
{
    loop {
        let Some(piece) = left.next() else {
            return None;
        };
        if is_of_extension(piece.kind) {
            return Some(piece);
        }
    }
}

// The packet of XMP, if there is exactly one.
pub(crate) fn only_packet(front: &Front) -> Option<Piece>
    ensures { let all = packets (pieces front.now.octets None front.now.parts) in
        MatchOption result ((p : PieceValue) → all ≡ p ∷ [] → ⊥) (λ p. all ≡ p ∷ []) }
{
    let mut left = front.pieces();
    let Some(first) = next_packet(&mut left) else {
        return None;
    };
    match next_packet(&mut left) {
        Some(_) => None,
        None => Some(first),
    }
}

// What a piece says of its place, if it is whole up to its text and has this name.
fn portion_of(bytes: &[u8], piece: &Piece, name: &[u8]) -> Option<Portion>
    ensures { MatchOption result (HasName bytes.now name.now piece.now → ⊥)
        (λ q. HasName bytes.now name.now piece.now × (q ≡ portion_of bytes.now piece.now)) }
{
    let octets = range(bytes, piece.start, piece.size);
    let Some(place) = read_extended(octets) else {
        return None;
    };
    if octets.split_at(NAME_LEN).0 != name {
        return None;
    }
    Some(Portion {
        offset: place.offset,
        total: place.total,
        start: piece.start,
        size: piece.size,
    })
}

// The bytes from an offset on.
fn rest(bytes: &[u8], at: usize) -> &[u8]
    ensures { result.now ≡ drop at bytes.now }
{
    bytes.split_at(at.min(bytes.len())).1
}

// The text of a piece.
fn text_of<'a>(bytes: &'a [u8], portion: &Portion) -> &'a [u8]
    ensures { result.now ≡ text_of bytes.now portion.now }
{
    rest(range(bytes, portion.start, portion.size), EXTENDED_HEAD)
}

// What all pieces of extended XMP say of their places, if all have this name.
pub(crate) fn portions_in(
    memory: &mut Memory,
    front: &Front,
    name: &[u8],
) -> Result<Vec<Portion>, Unjoined>
    ensures named { let all = extension_pieces (pieces front.now.octets None front.now.parts) in
        IfOk result (λ v. AllByRecursion (HasName front.now.octets name.now) all) }
    ensures portions { let all = extension_pieces (pieces front.now.octets None front.now.parts) in
        IfOk result (λ v. v.items ≡ map (portion_of front.now.octets) all) }
    ensures left { let all = extension_pieces (pieces front.now.octets None front.now.parts) in
        IfLeft result (AllByRecursion (HasName front.now.octets name.now) all → ⊥) }
    ensures memory { CountsAllocFailureInXmp result memory.old memory.new }
{
    let bytes = front.bytes();
    let mut left = front.pieces();
    let mut list = memory.list();
    loop {
        let Some(piece) = next_of_extension(&mut left) else {
            return Ok(list);
        };
        let Some(portion) = portion_of(bytes, &piece, name) else {
            return Err(Unjoined::NotRead);
        };
        memory.push(&mut list, portion)?;
    }
}

// The portions in order of their offsets. A heap sorts them, since std's own sorts call themselves.
pub(crate) fn in_order(portions: Vec<Portion>) -> Vec<Portion>
    ensures all { IsPermutation portions.items result.items }
    ensures order { IsNonDecreasingBy (λ (q : PortionValue). q.offset) result.items }
{
    BinaryHeap::from(portions).into_sorted_vec()
}

// The number of octets of all texts. None: it is greater than that of the longest packet.
pub(crate) fn total_of(bytes: &[u8], portions: &[Portion]) -> Option<usize>
    ensures { let len = length (flat_map (text_of bytes.now) portions.now) in
        MatchOption result (limit < len) (λ n. (n ≤ limit) × (n ≡ len)) }
{
    let mut total = 0;
    for portion in portions {
        let size = text_of(bytes, portion).len();
        if size > LIMIT - total {
            return None;
        }
        total += size;
    }
    Some(total)
}

// Whether a portion whose text has `size` octets says that the extension has `total`, begins at the offset `at`, and isn't empty.
fn follows(portion: &Portion, total: usize, at: usize, size: usize) -> bool
    ensures value { result ≡ true → (portion.now.total ≡ total) × (portion.now.offset ≡ at) × (0 < size) }
    ensures all { portion.now.total ≡ total → portion.now.offset ≡ at → 0 < size → result ≡ true }
{
    portion.total == total && portion.offset == at && size > 0
}

// The texts one after another, if each begins where those before it end.
pub(crate) fn join_portions(
    memory: &mut Memory,
    bytes: &[u8],
    portions: &[Portion],
    total: usize,
) -> Result<Vec<u8>, Unjoined>
    requires { total ≤ limit }
    ensures follow { IfOk result (λ v. Follow bytes.now (length v.items) 0 portions.now) }
    ensures joined { IfOk result (λ v. v.items ≡ flat_map (text_of bytes.now) portions.now) }
    ensures left { IfLeft result (Follow bytes.now total 0 portions.now → total ≡ length (flat_map (text_of bytes.now) portions.now) → ⊥) }
    ensures memory { CountsAllocFailureInXmp result memory.old memory.new }
{
    let mut octets = memory.list();
    memory.reserve_exact(&mut octets, total)?;
    for portion in portions {
        let text = text_of(bytes, portion);
        if !follows(portion, total, octets.len(), text.len()) {
            return Err(Unjoined::NotRead);
        }
        memory.extend_from_slice(&mut octets, text)?;
    }
    if octets.len() != total {
        return Err(Unjoined::NotRead);
    }
    Ok(octets)
}
