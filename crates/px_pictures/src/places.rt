// Where the blocks of a picture's first parts are.
ghost use Rattle.std.specs.Prelude.{◌≡◌, ◌≤◌, ◌<◌, ◌+◌, ◌^◌, ◌++◌, ◌∷◌, [], None, length, drop, MatchOption};
ghost use Rattle.px_jpeg.specs.Blocks.{blocks};
ghost use Rattle.px_jpeg.specs.Front.{HasFront};
ghost use Rattle.px_jpeg.specs.Pieces.{pieces};
ghost use Rattle.px_pictures.specs.Metadata.{joined_pieces};
ghost use Rattle.px_pictures.specs.Places.{joined_bytes, ArePlaces};
ghost use Rattle.px_pictures.specs.calls.Places.{places_from};
ghost use Rattle.px_pictures.specs.calls.Runs.{joined_octets};

use crate::joining::next_joined;
use crate::left::{Left, pieces_left};
use crate::ranges::range;
use crate::runs::rest_of_run;
use px_jpeg::{Front, SegmentKind};
use std::marker::Model;

/// Where the bytes of a block are: a range of the picture if it has one piece, and otherwise of the joined bytes.
#[derive(Clone, Copy, Debug, PartialEq, Eq)]
pub struct BlockPlace {
    /// What the block contains.
    pub kind: SegmentKind,
    /// Whether the range is one of the joined bytes, which `put_joined` writes, and not of the picture.
    pub joined: bool,
    /// The offset of the first byte.
    pub start: usize,
    /// The number of bytes.
    pub size: usize,
}

/// The places of the blocks that are left, in order: the result of `places_of`. Contracts see their list. It
/// allocates nothing.
#[derive(Drop)]
pub struct Places<'a> {
    left: Left<'a>,
    // The offset in the joined bytes at which the next joined block begins.
    at: usize,
}

impl<'a> Model for Places<'a> {
    ghost use Rattle.std.specs.Prelude.{◌≡◌, ◌<◌, ◌+◌, ◌^◌, true, List, length};
    ghost use Rattle.px_pictures.specs.declared.places.BlockPlace.{BlockPlace};
    ghost use Rattle.px_pictures.specs.Metadata.{next_begins, joined_pieces, sizes};
    ghost use Rattle.px_pictures.specs.calls.Places.{places_from};

    ghost Value = { List BlockPlace };

    ghost view = { λ s. places_from s.at s.left };

    ghost invariant = { λ s. (next_begins s.left ≡ true) × (s.at + sizes (joined_pieces s.left) < 2 ^ 63)
        × (length (places_from s.at s.left) < 2 ^ 63) };
}

/// The places of all blocks of a picture's first parts, in order: of Exif, of Photoshop's resources, of XMP and of
/// extended XMP. The bytes at each place are those of the block, and its kind is the block's. A block of one piece is
/// a range of the picture; one of several is a range of the joined bytes (`put_joined`). It allocates nothing.
pub fn places_of<'a>(front: &Front<'a>) -> Places<'a>
    requires { HasFront front.now.octets front.now.parts }
    ensures { ArePlaces front.now.octets front.now.parts result }
{
    // Its length bounds the number of blocks.
    let _bytes = front.bytes();
    Places {
        left: pieces_left(front),
        at: 0,
    }
}

// The number of places.
fn count_places(places: Places) -> usize
    ensures { result ≡ length places.entry }
{
    places.count()
}

/// The number of blocks of a picture's first parts, of any kind. It allocates nothing.
pub fn block_count(front: &Front) -> usize
    requires { HasFront front.now.octets front.now.parts }
    ensures { result ≡ length (blocks front.now.octets front.now.parts) }
{
    count_places(places_of(front))
}

impl<'a> Iterator for Places<'a> {
    ghost use Rattle.std.specs.Iterator.{item_count, YieldsFirst};

    type Item = BlockPlace;

    ghost next_gives = { YieldsFirst (λ left. left) };

    ghost remaining = { item_count (λ left. left) };

    // Where the next block is: a single piece is at its place in the picture, and several, which
    // are copied, at one in the joined bytes. None: no block is left.
    fn next(&mut self) -> Option<BlockPlace> {
        let Some(piece) = self.left.next_piece() else {
            return None;
        };
        let kind = piece.kind;
        if self.left.next_begins() {
            return Some(BlockPlace {
                kind,
                joined: false,
                start: piece.start,
                size: piece.size,
            });
        }
        let more = rest_of_run(&mut self.left);
        let start = self.at;
        let size = piece.size + more;
        self.at = start + size;
        Some(BlockPlace {
            kind,
            joined: true,
            start,
            size,
        })
    }
}

/// The number of joined bytes: those of the blocks that have more than one piece. It is at most that of the picture's bytes.
/// It allocates nothing.
pub fn joined_len(front: &Front) -> usize
    requires { HasFront front.now.octets front.now.parts }
    ensures joined { result ≡ length (joined_bytes front.now.octets front.now.parts) }
    ensures few { result ≤ length front.now.octets }
{
    let bytes = front.bytes();
    let mut left = pieces_left(front);
    let mut len = 0;
    loop {
        let Some(piece) = next_joined(&mut left) else {
            return len;
        };
        len += range(bytes, piece.start, piece.size).len();
    }
}

/// Writes the joined bytes to the start of `out`, which has space for them: the bytes of the blocks that have more
/// than one piece, one after another. It allocates nothing.
pub fn put_joined(front: &Front, out: &mut [u8])
    requires { length (joined_bytes front.now.octets front.now.parts) ≤ length out.old }
    ensures { let all = joined_bytes front.now.octets front.now.parts in out.new ≡ all ++ drop (length all) out.old }
{
    let bytes = front.bytes();
    let mut left = pieces_left(front);
    let mut at = 0;
    loop {
        let Some(piece) = next_joined(&mut left) else {
            return;
        };
        let octets = range(bytes, piece.start, piece.size);
        let end = at + octets.len();
        out[at..end].copy_from_slice(octets);
        at = end;
    }
}
