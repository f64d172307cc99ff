// Joins the pieces of the blocks that have more than one.
ghost use Rattle.std.specs.Prelude.{◌≡◌, ◌≤◌, ◌<◌, ◌∷◌, [], None, IfOk, MatchOption};
ghost use Rattle.px_bytes.specs.Allocations.{CountsAllocFailure, AsksAtMost};
ghost use Rattle.px_jpeg.specs.Pieces.{pieces};
ghost use Rattle.px_pictures.specs.Metadata.{joined_pieces, joined_size, most_joined};
ghost use Rattle.px_pictures.specs.calls.Runs.{joined_octets};

use crate::left::{Left, pieces_left};
use crate::ranges::range;
use px_bytes::{AllocFailed, LIMIT, Memory};
use px_jpeg::{Front, Piece};

// The greatest number of bytes that are joined.
const MOST_JOINED: usize = 16 * LIMIT as usize;

// The next piece of a block that has more than one. None: no such piece is left.
pub(crate) fn next_joined(left: &mut Left) -> Option<Piece>
    ensures { MatchOption result ((joined_pieces left.old ≡ []) × (joined_pieces left.new ≡ []))
        (λ p. joined_pieces left.old ≡ p ∷ joined_pieces left.new) }
{
    loop {
        let Some(piece) = left.next_piece() else {
            return None;
        };
        if !piece.begins || !left.next_begins() {
            return Some(piece);
        }
    }
}

// The number of bytes that are joined, or `None` if it is greater than `MOST_JOINED`.
pub(crate) fn joined_size(front: &Front) -> Option<usize>
    ensures { let all = joined_size front.now.octets front.now.parts in
        MatchOption result (most_joined < all) (λ n. (n ≡ all) × (all ≤ most_joined)) }
{
    let mut left = pieces_left(front);
    let mut size = 0;
    loop {
        let Some(piece) = next_joined(&mut left) else {
            return Some(size);
        };
        if piece.size > MOST_JOINED - size {
            return None;
        }
        size += piece.size;
    }
}

// The bytes of the pieces of the blocks that have more than one, one after another.
pub(crate) fn join_in(
    memory: &mut Memory,
    front: &Front,
    size: usize,
) -> Result<Vec<u8>, AllocFailed>
    requires all { size ≡ joined_size front.now.octets front.now.parts }
    requires fits { size ≤ most_joined }
    ensures joined { IfOk result (λ v. v.items
        ≡ joined_octets front.now.octets (pieces front.now.octets None front.now.parts)) }
    ensures memory { CountsAllocFailure result memory.old memory.new }
    ensures asked { AsksAtMost size memory.old memory.new }
{
    let bytes = front.bytes();
    let mut octets = memory.list();
    if size == 0 {
        return Ok(octets);
    }
    memory.reserve_exact(&mut octets, size)?;
    let mut left = pieces_left(front);
    loop {
        let Some(piece) = next_joined(&mut left) else {
            return Ok(octets);
        };
        memory.extend_from_slice(&mut octets, range(bytes, piece.start, piece.size))?;
    }
}
