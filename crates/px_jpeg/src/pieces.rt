// The segments of a head that contain Exif, Photoshop's image resources or XMP. CIPA DC-008, 4.7.2; Adobe Photoshop File Formats.
ghost use Rattle.std.specs.Prelude.{◌≡◌, ◌≤◌, ◌<◌, ◌+◌, ◌∷◌, [], true, Some, None, length, take, drop, IfSome, MatchOption};
ghost use Rattle.px_jpeg.specs.Pieces.{is_exif, is_photoshop, is_xmp, is_extended, segment_kind, is_header, begins};
ghost use Rattle.px_jpeg.specs.Pieces.{mark_len, piece_of, pieces, AllInside};

use crate::bytes::bytes_at;
use crate::head::Parts;
use crate::parts::Part;
use std::marker::Model;

// The marker code of the segments that contain Exif or XMP (T.81, table B.1: FF E1).
pub(crate) const APP1: u8 = 0xE1;

// The marker code of the segments that contain Photoshop's image resources (T.81, table B.1: FF
// ED).
const APP13: u8 = 0xED;

/// What a segment contains.
#[derive(Clone, Copy, Debug, PartialEq, Eq)]
pub enum SegmentKind {
    /// A block of Exif, or a part of one: an APP1 segment whose data begin with `Exif` and two zeros.
    Exif,
    /// Photoshop's image resources, or a part of them: an APP13 segment whose data begin with `Photoshop 3.0` and
    /// a zero.
    Photoshop,
    /// A packet of XMP: an APP1 segment whose data begin with `http://ns.adobe.com/xap/1.0/` and a zero.
    Xmp,
    /// A piece of extended XMP: an APP1 segment whose data begin with `http://ns.adobe.com/xmp/extension/` and a
    /// zero. `read_extended` tells which piece it is.
    ExtendedXmp,
}

/// The bytes of one segment that belong to a block: its data after the mark that names the kind.
#[derive(Clone, Copy, Debug, PartialEq, Eq)]
pub struct Piece {
    /// What it contains.
    pub kind: SegmentKind,
    /// Whether a block begins here. Otherwise it continues the block of the piece before.
    pub begins: bool,
    /// The offset of the bytes.
    pub start: usize,
    /// Their number.
    pub size: usize,
}

// Whether a segment with this marker and these data contains Exif.
#[tactic(auto, unfolding(crate::specs::Pieces::is_exif))]
pub(crate) fn is_exif(code: u8, octets: &[u8]) -> bool
    ensures value { result ≡ is_exif code octets.now }
    ensures few { result ≡ true → 6 ≤ length octets.now }
{
    code == APP1 && octets.starts_with(b"Exif\0\0")
}

// Whether a segment with this marker and these data contains Photoshop's image resources.
#[tactic(auto, unfolding(crate::specs::Pieces::is_photoshop))]
fn is_photoshop(code: u8, octets: &[u8]) -> bool
    ensures value { result ≡ is_photoshop code octets.now }
    ensures few { result ≡ true → 14 ≤ length octets.now }
{
    code == APP13 && octets.starts_with(b"Photoshop 3.0\0")
}

// Whether a segment with this marker and these data contains a packet of XMP.
#[tactic(auto, unfolding(crate::specs::Pieces::is_xmp))]
fn is_xmp(code: u8, octets: &[u8]) -> bool
    ensures value { result ≡ is_xmp code octets.now }
    ensures few { result ≡ true → 29 ≤ length octets.now }
{
    code == APP1 && octets.starts_with(b"http://ns.adobe.com/xap/1.0/\0")
}

// Whether a segment with this marker and these data contains a piece of extended XMP.
#[tactic(auto, unfolding(crate::specs::Pieces::is_extended))]
fn is_extended(code: u8, octets: &[u8]) -> bool
    ensures value { result ≡ is_extended code octets.now }
    ensures few { result ≡ true → 35 ≤ length octets.now }
{
    code == APP1 && octets.starts_with(b"http://ns.adobe.com/xmp/extension/\0")
}

// What a segment of APP1 or APP13 with this marker and these data contains. None: none of these
// kinds.
#[tactic(auto, unfolding(crate::specs::Pieces::segment_kind))]
fn kind_in(code: u8, octets: &[u8]) -> Option<SegmentKind>
    ensures value { result ≡ segment_kind code octets.now }
    ensures few { IfSome result (λ kind. mark_len kind ≤ length octets.now) }
{
    if is_exif(code, octets) {
        return Some(SegmentKind::Exif);
    }
    if is_photoshop(code, octets) {
        return Some(SegmentKind::Photoshop);
    }
    if is_xmp(code, octets) {
        return Some(SegmentKind::Xmp);
    }
    if is_extended(code, octets) {
        return Some(SegmentKind::ExtendedXmp);
    }
    None
}

// What a segment with this marker and these data contains. None: none of these kinds. Most segments
// have another marker, and so their data are not looked at.
#[inline(always)]
pub(crate) fn segment_kind(code: u8, octets: &[u8]) -> Option<SegmentKind>
    ensures value { result ≡ segment_kind code octets.now }
    ensures few { IfSome result (λ kind. mark_len kind ≤ length octets.now) }
{
    if code == APP1 || code == APP13 {
        return kind_in(code, octets);
    }
    None
}

// Whether some bytes begin with a header of TIFF.
#[tactic(auto, unfolding(crate::specs::Pieces::is_header))]
pub(crate) fn is_header(octets: &[u8]) -> bool
    ensures { result ≡ is_header octets.now }
{
    octets.starts_with(b"II*\0") || octets.starts_with(b"MM\0*")
}

// Whether a block begins with these bytes, which follow a segment's mark, after a part of the kind
// `last`.
fn begins(kind: SegmentKind, last: Option<SegmentKind>, octets: &[u8]) -> bool
    ensures { result ≡ begins kind last octets.now }
{
    match kind {
        SegmentKind::Exif => match last {
            Some(SegmentKind::Exif) => is_header(octets),
            _ => true,
        },
        SegmentKind::Photoshop => match last {
            Some(SegmentKind::Photoshop) => false,
            _ => true,
        },
        SegmentKind::Xmp | SegmentKind::ExtendedXmp => true,
    }
}

// The number of bytes of the mark with which the data of this kind begin, its zeros included.
fn mark_len(kind: SegmentKind) -> usize
    ensures value { result ≡ mark_len kind }
    ensures few { result ≤ 35 }
{
    match kind {
        SegmentKind::Exif => 6,
        SegmentKind::Photoshop => 14,
        SegmentKind::Xmp => 29,
        SegmentKind::ExtendedXmp => 35,
    }
}

// The piece in a segment of this kind, after one of the kind `last`.
pub(crate) fn piece_of(
    bytes: &[u8],
    part: &Part,
    kind: SegmentKind,
    last: Option<SegmentKind>,
) -> Piece
    requires inside { part.now.start + part.now.size ≤ length bytes.now }
    requires marked { mark_len kind ≤ part.now.size }
    ensures { result ≡ piece_of bytes.now part.now kind last }
{
    let mark = mark_len(kind);
    let start = part.start + mark;
    let size = part.size - mark;
    Piece {
        kind,
        begins: begins(kind, last, bytes_at(bytes, start, size)),
        start,
        size,
    }
}

// The next piece of the parts that are left. None: no part that is left contains one.
fn next_piece<'a>(bytes: &[u8], parts: &mut Parts<'a>, last: Option<SegmentKind>) -> Option<Piece>
    requires { AllInside bytes.now parts.old }
    ensures inside { AllInside bytes.now parts.new }
    ensures steps { MatchOption result ((pieces bytes.now last parts.old ≡ []) × (parts.new ≡ []))
        (λ x. pieces bytes.now last parts.old ≡ x ∷ pieces bytes.now (Some x.kind) parts.new) }
{
    let mut before = last;
    loop {
        let Some(part) = parts.next() else {
            return None;
        };
        match segment_kind(part.code, bytes_at(bytes, part.start, part.size)) {
            Some(kind) => return Some(piece_of(bytes, &part, kind, before)),
            None => before = None,
        }
    }
}

/// The pieces that are left, in order: the result of `Front::pieces`. Contracts see their list. It
/// allocates nothing.
#[derive(Drop)]
pub struct Pieces<'a> {
    bytes: &'a [u8],
    parts: Parts<'a>,
    // The kind of the part before.
    last: Option<SegmentKind>,
}

impl<'a> Model for Pieces<'a> {
    ghost use Rattle.std.specs.Prelude.{List};
    ghost use Rattle.px_jpeg.specs.declared.pieces.Piece.{Piece};
    ghost use Rattle.px_jpeg.specs.Pieces.{pieces, AllInside};

    ghost Value = { List Piece };

    ghost view = { λ s. pieces s.bytes.now s.last s.parts };

    ghost invariant = { λ s. AllInside s.bytes.now s.parts };
}

impl<'a> Iterator for Pieces<'a> {
    ghost use Rattle.std.specs.Iterator.{item_count, YieldsFirst};

    type Item = Piece;

    ghost next_gives = { YieldsFirst (λ left. left) };

    ghost remaining = { item_count (λ left. left) };

    // The next part that contains a piece, without those that contain none. None: no such part is
    // left.
    fn next(&mut self) -> Option<Piece> {
        match next_piece(self.bytes, &mut self.parts, self.last) {
            Some(piece) => {
                self.last = Some(piece.kind);
                Some(piece)
            }
            None => None,
        }
    }
}

// The pieces of some parts, in order.
pub(crate) fn pieces_in<'a>(bytes: &'a [u8], parts: Parts<'a>) -> Pieces<'a>
    requires { AllInside bytes.now parts }
    ensures { result ≡ pieces bytes.now None parts.entry }
{
    Pieces {
        bytes,
        parts,
        last: None,
    }
}
