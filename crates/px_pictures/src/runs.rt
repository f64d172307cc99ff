// The blocks of a picture's first parts, one after another, of any kind.
ghost use Rattle.std.specs.Prelude.{◌≡◌, ◌<◌, ◌^◌, ◌∷◌, [], None, MatchOption};
ghost use Rattle.px_jpeg.specs.Blocks.{blocks};
ghost use Rattle.px_jpeg.specs.Pieces.{pieces, AllInside};
ghost use Rattle.px_pictures.specs.calls.Runs.{joined_octets, run_size, run_rest, block_of};

use crate::left::{Left, pieces_left};
use crate::ranges::range;
use px_jpeg::{Front, SegmentKind};
use std::marker::Model;

// A block.
#[derive(Clone, Copy)]
pub(crate) struct Run<'b> {
    pub kind: SegmentKind,
    pub octets: &'b [u8],
}

// Passes the pieces that continue a block. Returns how many bytes they have.
pub(crate) fn rest_of_run(left: &mut Left) -> usize
    requires { run_size left.old < 2 ^ 63 }
    ensures size { result ≡ run_size left.old }
    ensures rest { left.new ≡ run_rest left.old }
{
    let mut size = 0;
    loop {
        if left.next_begins() {
            return size;
        }
        let Some(piece) = left.next_piece() else {
            return size;
        };
        size += piece.size;
    }
}

// The blocks that are left. Contracts see their list.
#[derive(Drop)]
pub(crate) struct Runs<'b, 'a> {
    // The picture. A block of one piece is a range of it.
    picture: &'b [u8],
    // The bytes of the other blocks that are left, one after another.
    octets: &'b [u8],
    left: Left<'a>,
}

impl<'b, 'a> Model for Runs<'b, 'a> {
    ghost use Rattle.std.specs.Prelude.{List};
    ghost use Rattle.px_jpeg.specs.Blocks.{JoinedBlock, joined};
    ghost use Rattle.px_pictures.specs.calls.Runs.{CanCut};

    ghost Value = { List JoinedBlock };

    ghost view = { λ s. (joined s.picture.now s.left).1 };

    ghost invariant = { λ s. CanCut s.picture.now s.octets.now s.left };
}

// The blocks of some parts. `octets` are the bytes of those that have more than one piece, one after another.
pub(crate) fn runs_of<'b, 'a>(octets: &'b [u8], front: &'b Front<'a>) -> Runs<'b, 'a>
    requires inside { AllInside front.now.octets front.now.parts }
    requires joined { octets.now ≡ joined_octets front.now.octets (pieces front.now.octets None front.now.parts) }
    ensures { result ≡ blocks front.now.octets front.now.parts }
{
    Runs {
        picture: front.bytes(),
        octets,
        left: pieces_left(front),
    }
}

impl<'b, 'a> Runs<'b, 'a> {
    // The next block, with all of its pieces. None: no block is left.
    pub(crate) fn next_run(&mut self) -> Option<Run<'b>>
        ensures { MatchOption result ((self.old ≡ []) × (self.new ≡ [])) (λ r. self.old ≡ block_of r ∷ self.new) }
    {
        let Some(piece) = self.left.next_piece() else {
            return None;
        };
        let kind = piece.kind;
        if self.left.next_begins() {
            let octets = range(self.picture, piece.start, piece.size);
            return Some(Run { kind, octets });
        }
        let more = rest_of_run(&mut self.left);
        let bytes = self.octets;
        let (octets, rest) = bytes.split_at(piece.size + more);
        self.octets = rest;
        Some(Run { kind, octets })
    }
}
