// The head of a picture: all parts before its first scan.
ghost use Rattle.std.specs.Prelude.{◌≡◌, length, MatchResult};
ghost use Rattle.px_jpeg.specs.Head.{HasHead};
ghost use Rattle.px_jpeg.specs.Pieces.{AllInside};
ghost use Rattle.px_jpeg.specs.Fault.{HasHeadFault, IsFront};
ghost use Rattle.px_jpeg.specs.Front.{HasFront};
ghost use Rattle.px_jpeg.specs.Reading.{starts, front};

use crate::bytes::rest;
use crate::faults::{HeadCause, HeadFault};
use crate::fronts::{Front, front_in};
use crate::parts::{Part, is_last, read_part};
use std::marker::Model;

/// A picture that has a head. It borrows the bytes. Contracts see the bytes and the parts of the head, the last
/// one included.
#[derive(Drop)]
pub struct Head<'a> {
    bytes: &'a [u8],
}

impl<'a> Model for Head<'a> {
    ghost use Rattle.std.specs.Prelude.{◌≡◌, true, [], unwrap_or, is_some};
    ghost use Rattle.px_jpeg.specs.Head.{Picture};
    ghost use Rattle.px_jpeg.specs.Reading.{head_of};

    ghost Value = { Picture };

    ghost view = { λ h. record { octets = h.bytes.now; parts = unwrap_or (head_of h.bytes.now) [] } };

    ghost invariant = { λ h. is_some (head_of h.bytes.now) ≡ true };
}

// Whether some bytes begin with the start mark.
pub(crate) fn starts(bytes: &[u8]) -> bool
    ensures { result ≡ starts bytes.now }
{
    bytes.len() >= 2 && bytes[0] == 0xFF && bytes[1] == 0xD8
}

/// The head of the picture that begins with these bytes. They may be a whole file or only its first bytes: what
/// follows the head is not read. Allocates nothing.
///
/// `NoStart` at 0: they do not begin with `FF D8`. Otherwise the first part that has a fault, and its offset:
/// `NoMarker`: another byte than `FF` is there, or 0 after `FF`; `LengthForm`: the segment's length is below 2;
/// `HeadCut`: the bytes end before the part, or before the head, does.
pub fn read_head<'a>(bytes: &'a [u8]) -> Result<Head<'a>, HeadFault>
    ensures { MatchResult result (λ head. (head.octets ≡ bytes.now) × HasHead bytes.now head.parts)
        (λ fault. HasHeadFault bytes.now fault.cause fault.place) }
{
    if !starts(bytes) {
        return Err(HeadFault {
            cause: HeadCause::NoStart,
            place: 0,
        });
    }
    let mut at = 2;
    loop {
        match read_part(rest(bytes, at), at) {
            Ok(part) => {
                at = part.start + part.size;
                if is_last(part.code) {
                    return Ok(Head { bytes });
                }
            }
            Err(cause) => return Err(HeadFault { cause, place: at }),
        }
    }
}

/// The parts of the picture that begins with these bytes, in order: those of its head or, if the head has a
/// fault, those before it. `read_head` tells which. Allocates nothing.
pub fn find_parts<'a>(bytes: &'a [u8]) -> Parts<'a>
    ensures front { IsFront bytes.now result }
    ensures computed { result ≡ front bytes.now }
    ensures inside { AllInside bytes.now result }
{
    Parts {
        bytes,
        at: 2,
        is_over: !starts(bytes),
    }
}

impl<'a> Head<'a> {
    /// The bytes in which the head was read.
    pub fn bytes(&self) -> &'a [u8]
        ensures { result.now ≡ self.now.octets }
    {
        self.bytes
    }

    /// The parts of the head as a `Front`, the type of the first parts of a picture that may have a fault.
    pub fn front(&self) -> Front<'a>
        ensures value { result ≡ self.now }
        ensures front { HasFront self.now.octets self.now.parts }
    {
        front_in(self.bytes, self.bytes)
    }

    /// The parts, in order. Each is in the bytes.
    pub fn parts(&self) -> Parts<'a>
        ensures value { result ≡ self.now.parts }
        ensures inside { AllInside self.now.octets self.now.parts }
    {
        Parts {
            bytes: self.bytes,
            at: 2,
            is_over: false,
        }
    }
}

/// The parts that are left, in order: the result of `Head::parts` and of `find_parts`. Contracts see their list.
/// It allocates nothing.
#[derive(Drop)]
pub struct Parts<'a> {
    bytes: &'a [u8],
    // The offset of the next part.
    at: usize,
    // Whether the last part was returned.
    is_over: bool,
}

impl<'a> Model for Parts<'a> {
    ghost use Rattle.std.specs.Prelude.{◌≡◌, ◌≤◌, false, List, length};
    ghost use Rattle.px_jpeg.specs.declared.parts.Part.{Part};
    ghost use Rattle.px_jpeg.specs.Reading.{left_of};

    ghost Value = { List Part };

    ghost view = { λ s. left_of s.is_over s.at s.bytes.now };

    ghost invariant = { λ s. s.is_over ≡ false → s.at ≤ length s.bytes.now };
}

impl<'a> Parts<'a> {
    /// The number of parts that are left.
    pub fn len(&self) -> usize
        ensures { result ≡ length self.now }
    {
        let left = Parts {
            bytes: self.bytes,
            at: self.at,
            is_over: self.is_over,
        };
        left.count()
    }
}

impl<'a> Iterator for Parts<'a> {
    ghost use Rattle.std.specs.Iterator.{item_count, YieldsFirst};

    type Item = Part;

    ghost next_gives = { YieldsFirst (λ left. left) };

    ghost remaining = { item_count (λ left. left) };

    // Reads the part at the offset `at`. None: the last one, SOS or EOI, was returned, or no part
    // begins here.
    fn next(&mut self) -> Option<Part> {
        if self.is_over {
            return None;
        }
        let bytes = self.bytes;
        let at = self.at;
        let Ok(part) = read_part(rest(bytes, at), at) else {
            return None;
        };
        self.at = part.start + part.size;
        self.is_over = is_last(part.code);
        Some(part)
    }
}
