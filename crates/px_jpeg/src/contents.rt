// The parts of a head, each with the piece that it contains.
ghost use Rattle.std.specs.Prelude.{◌≡◌, ◌≤◌, ◌+◌, None, length, IfSome};
ghost use Rattle.px_jpeg.specs.Pieces.{mark_len, head_part, with_pieces, AllInside};

use crate::bytes::bytes_at;
use crate::head::Parts;
use crate::parts::Part;
use crate::pieces::{Piece, SegmentKind, piece_of, segment_kind};
use std::marker::Model;

/// A part of a head, and the piece in it.
#[derive(Clone, Copy, Debug, PartialEq, Eq)]
pub struct HeadPart {
    /// The part.
    pub part: Part,
    /// The bytes of it that belong to a block. `None`: it contains no block of a known kind.
    pub piece: Option<Piece>,
}

// A part of this kind, after a part of the kind `last`, with its piece. None: a part of no kind
// that px_jpeg knows.
fn head_part(
    bytes: &[u8],
    part: Part,
    kind: Option<SegmentKind>,
    last: Option<SegmentKind>,
) -> HeadPart
    requires inside { part.start + part.size ≤ length bytes.now }
    requires marked { IfSome kind (λ k. mark_len k ≤ part.size) }
    ensures { result ≡ head_part bytes.now part last kind }
{
    match kind {
        Some(known) => HeadPart {
            part,
            piece: Some(piece_of(bytes, &part, known, last)),
        },
        None => HeadPart { part, piece: None },
    }
}

/// The parts, in order, each with its piece. They are in these bytes, as those of `find_parts` are.
pub fn with_pieces<'a>(bytes: &'a [u8], parts: Parts<'a>) -> WithPieces<'a>
    requires { AllInside bytes.now parts }
    ensures { result ≡ with_pieces bytes.now None parts.entry }
{
    WithPieces {
        bytes,
        parts,
        last: None,
    }
}

/// The parts that are left, in order, each with its piece: the result of `with_pieces`. Contracts see their list.
/// It allocates nothing.
#[derive(Drop)]
pub struct WithPieces<'a> {
    bytes: &'a [u8],
    parts: Parts<'a>,
    // The kind of the part before.
    last: Option<SegmentKind>,
}

impl<'a> Model for WithPieces<'a> {
    ghost use Rattle.std.specs.Prelude.{List};
    ghost use Rattle.px_jpeg.specs.declared.contents.HeadPart.{HeadPart};
    ghost use Rattle.px_jpeg.specs.Pieces.{with_pieces, AllInside};

    ghost Value = { List HeadPart };

    ghost view = { λ s. with_pieces s.bytes.now s.last s.parts };

    ghost invariant = { λ s. AllInside s.bytes.now s.parts };
}

impl<'a> WithPieces<'a> {
    /// The number of parts that are left.
    pub fn len(&self) -> usize
        ensures { result ≡ length self.now }
    {
        self.parts.len()
    }
}

impl<'a> Iterator for WithPieces<'a> {
    ghost use Rattle.std.specs.Iterator.{item_count, YieldsFirst};

    type Item = HeadPart;

    ghost next_gives = { YieldsFirst (λ left. left) };

    ghost remaining = { item_count (λ left. left) };

    // The next part with its piece; the kind is kept for the part after it. None: no part is left.
    fn next(&mut self) -> Option<HeadPart> {
        let Some(part) = self.parts.next() else {
            return None;
        };
        let kind = segment_kind(part.code, bytes_at(self.bytes, part.start, part.size));
        let found = head_part(self.bytes, part, kind, self.last);
        self.last = kind;
        Some(found)
    }
}
