// The pieces of a picture's first parts that are left.
ghost use Rattle.std.specs.Prelude.{◌≡◌, ◌∷◌, [], None, MatchOption};
ghost use Rattle.px_jpeg.specs.Pieces.{pieces};
ghost use Rattle.px_pictures.specs.Metadata.{next_begins};

use px_jpeg::{Front, Piece, Pieces};
use std::marker::Model;

// The pieces that are left. Contracts see their list.
#[derive(Drop)]
pub(crate) struct Left<'a> {
    next: Option<Piece>,
    others: Pieces<'a>,
}

impl<'a> Model for Left<'a> {
    ghost use Rattle.std.specs.Prelude.{List};
    ghost use Rattle.px_jpeg.specs.declared.Piece.{Piece};
    ghost use Rattle.px_pictures.specs.calls.Runs.{with_next};

    ghost Value = { List Piece };

    ghost view = { λ s. with_next s.next s.others };
}

// The pieces of some parts.
pub(crate) fn pieces_left<'a>(front: &Front<'a>) -> Left<'a>
    ensures { result ≡ pieces front.now.octets None front.now.parts }
{
    let mut others = front.pieces();
    let next = others.next();
    Left { next, others }
}

impl<'a> Left<'a> {
    // Takes the next piece, and returns it. None: no piece is left.
    pub(crate) fn next_piece(&mut self) -> Option<Piece>
        ensures { MatchOption result ((self.old ≡ []) × (self.new ≡ [])) (λ p. self.old ≡ p ∷ self.new) }
    {
        let Some(piece) = self.next else {
            return None;
        };
        self.next = self.others.next();
        Some(piece)
    }

    // Whether a block begins with the next piece, or there is none.
    pub(crate) fn next_begins(&self) -> bool
        ensures { result ≡ next_begins self.now }
    {
        match self.next {
            Some(piece) => piece.begins,
            None => true,
        }
    }
}
