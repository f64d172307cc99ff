// The first parts of a picture: those whose blocks end before the head's fault.
ghost use Rattle.std.specs.Prelude.{◌≡◌, ◌≤◌, ◌+◌, ◌↔◌, true, false, None, Some, IsTrue, IfSome, MatchOption, length, take};
ghost use Rattle.px_jpeg.specs.declared.pieces.SegmentKind.TheVariants.{Exif};
ghost use Rattle.px_jpeg.specs.Front.{HasFront, IsEnded, MayContinue};
ghost use Rattle.px_jpeg.specs.Pieces.{mark_len, piece_of, pieces, AllInside};
ghost use Rattle.px_jpeg.specs.Reading.{is_part, starts, front};
ghost use Rattle.px_jpeg.specs.calls.Later.{MayBeLater};

use crate::bytes::{bytes_at, rest};
use crate::head::{Parts, find_parts, starts};
use crate::parts::{Part, is_last, marks, read_part};
use crate::pieces::{
    APP1, Pieces, SegmentKind, is_exif, is_header, piece_of, pieces_in, segment_kind,
};
use std::marker::Model;

/// The first parts of a picture: those of its head or, if the head has a fault, those whose blocks end before it. It
/// borrows the bytes. Contracts see the bytes and the parts.
#[derive(Drop)]
pub struct Front<'a> {
    bytes: &'a [u8],
    // The first of them: the start mark and the parts.
    known: &'a [u8],
}

impl<'a> Model for Front<'a> {
    ghost use Rattle.px_jpeg.specs.Head.{Picture};
    ghost use Rattle.px_jpeg.specs.Pieces.{AllInside};
    ghost use Rattle.px_jpeg.specs.Reading.{front};

    ghost Value = { Picture };

    ghost view = { λ f. record { octets = f.bytes.now; parts = front f.known.now } };

    ghost invariant = { λ f. AllInside f.bytes.now (front f.known.now) };
}

// The parts in the first bytes `known` of a picture.
pub(crate) fn front_in<'a>(bytes: &'a [u8], known: &'a [u8]) -> Front<'a>
    requires { AllInside bytes.now (front known.now) }
    ensures bytes { result.octets ≡ bytes.now }
    ensures parts { result.parts ≡ front known.now }
{
    Front { bytes, known }
}

// Whether a segment of APP1 with `size` bytes of data, of which `octets` are the first, may be Exif
// without a header of TIFF, which continues a block. 6 is the length of Exif's mark, and 10 that
// with the header's four bytes.
fn may_be_later(size: usize, octets: &[u8]) -> bool
    requires { length octets.now ≤ size }
    ensures { IsTrue result ↔ MayBeLater size octets.now }
{
    if size < 6 {
        return false;
    }
    if octets.len() < 6 {
        return b"Exif\0\0".starts_with(octets);
    }
    if !is_exif(APP1, octets) {
        return false;
    }
    if octets.len() < 10 {
        return true;
    }
    !is_header(rest(octets, 6))
}

// Whether bytes that are no part may be the first of a segment that continues the Exif of the part before it.
fn may_continue(octets: &[u8]) -> bool
    requires { is_part octets.now ≡ false }
    ensures { IsTrue result ↔ MayContinue octets.now }
{
    let n = marks(octets);
    let body = rest(octets, n);
    if body.is_empty() {
        return true;
    }
    if n == 0 {
        return false;
    }
    if body[0] != APP1 {
        return false;
    }
    if body.len() < 3 {
        return true;
    }
    let count = 256 * usize::from(body[1]) + usize::from(body[2]);
    if count < 2 {
        return false;
    }
    may_be_later(count - 2, rest(body, 3))
}

// Whether the bytes after a part of the kind `last` may continue its block of Exif.
fn is_open(last: Option<SegmentKind>, octets: &[u8]) -> bool
    requires { is_part octets.now ≡ false }
    ensures { IsTrue result ↔ ((last ≡ Some Exif) × MayContinue octets.now) }
{
    match last {
        Some(SegmentKind::Exif) => may_continue(octets),
        _ => false,
    }
}

// Whether a block begins in a part of this kind, after one of the kind `last`. Of a part of no kind, true.
fn begins_block(
    bytes: &[u8],
    part: &Part,
    kind: Option<SegmentKind>,
    last: Option<SegmentKind>,
) -> bool
    requires inside { part.now.start + part.now.size ≤ length bytes.now }
    requires marked { IfSome kind (λ k. mark_len k ≤ part.now.size) }
    ensures { MatchOption kind (result ≡ true) (λ k. result ≡ (piece_of bytes.now part.now k last).begins) }
{
    match kind {
        Some(known) => piece_of(bytes, part, known, last).begins,
        None => true,
    }
}

// The offset at which the parts end whose blocks end.
fn end_of_front(bytes: &[u8]) -> usize
    requires { starts bytes.now ≡ true }
    ensures within { result ≤ length bytes.now }
    ensures ended { IsEnded bytes.now (front (take result bytes.now)) }
    ensures front { HasFront bytes.now (front (take result bytes.now)) }
{
    let mut at = 2;
    // Where the block begins that the last part belongs to, and what that part contains.
    let mut begun = 2;
    let mut last = None;
    loop {
        let Ok(part) = read_part(rest(bytes, at), at) else {
            if is_open(last, rest(bytes, at)) {
                return begun;
            }
            return at;
        };
        let kind = segment_kind(part.code, bytes_at(bytes, part.start, part.size));
        if begins_block(bytes, &part, kind, last) {
            begun = at;
        }
        last = kind;
        at = part.start + part.size;
        if is_last(part.code) {
            return at;
        }
    }
}

/// The first parts of the picture that begins with these bytes. There are none, or the bytes begin with FF D8 and these
/// parts, one after another (`HasFront`). They are all parts of the head or, if it has a fault, all before the fault; but
/// if the last is Exif, and what follows may become a segment that continues its block, then those before that block
/// (`IsEnded`). Allocates nothing.
pub fn find_front<'a>(bytes: &'a [u8]) -> Front<'a>
    ensures bytes { result.octets ≡ bytes.now }
    ensures ended { IsEnded bytes.now result.parts }
    ensures front { HasFront bytes.now result.parts }
{
    if !starts(bytes) {
        return Front {
            bytes,
            known: bytes.split_at(0).0,
        };
    }
    Front {
        bytes,
        known: bytes.split_at(end_of_front(bytes)).0,
    }
}

impl<'a> Front<'a> {
    /// The bytes in which the parts were found.
    pub fn bytes(&self) -> &'a [u8]
        ensures { result.now ≡ self.now.octets }
    {
        self.bytes
    }

    /// The parts, in order. Each is in the bytes.
    pub fn parts(&self) -> Parts<'a>
        ensures value { result ≡ self.now.parts }
        ensures inside { AllInside self.now.octets self.now.parts }
    {
        find_parts(self.known)
    }

    /// The pieces of Exif, of Photoshop's image resources, of XMP and of extended XMP, in order.
    pub fn pieces(&self) -> Pieces<'a>
        ensures { result ≡ pieces self.now.octets None self.now.parts }
    {
        pieces_in(self.bytes, find_parts(self.known))
    }
}
