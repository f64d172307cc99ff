// Reads one part of a head from the start of some bytes. ITU-T T.81, B.1.1.
ghost use Rattle.std.specs.Prelude.{◌≡◌, ◌≤◌, ◌<◌, ◌+◌, ◌*◌, ◌^◌, ℕ, List, length, drop, slice_index, true, MatchResult};
ghost use Rattle.px_jpeg.specs.Head.{stands_alone, is_last};
ghost use Rattle.px_jpeg.specs.Fault.{FaultAt};
ghost use Rattle.px_jpeg.specs.Reading.{marks, is_part, part, size};

use crate::bytes::rest;
use crate::faults::HeadCause;

/// A part of a head: a marker, and the data of its segment. A marker that stands alone has no data.
#[derive(Clone, Copy, Debug, PartialEq, Eq)]
pub struct Part {
    /// The second byte of the marker. The first is `FF`.
    pub code: u8,
    /// The offset of the data, or after a marker that stands alone.
    pub start: usize,
    /// The number of bytes of data.
    pub size: usize,
}

// Whether a marker with this code has no segment (T.81, table B.1).
pub(crate) fn stands_alone(code: u8) -> bool
    ensures { result ≡ stands_alone code }
{
    code == 0x01 || (0xD0 <= code && code <= 0xD9)
}

// Whether a head ends after the part with this marker: the header of a scan, or the end of the picture.
pub(crate) fn is_last(code: u8) -> bool
    ensures { result ≡ is_last code }
{
    code == 0xDA || code == 0xD9
}

// The number of bytes FF at the start.
pub(crate) fn marks(octets: &[u8]) -> usize
    ensures value { result ≡ marks octets.now }
    ensures within { result ≤ length octets.now }
{
    for (n, octet) in octets.iter().enumerate() {
        if *octet != 0xFF {
            return n;
        }
    }
    octets.len()
}

// The part at the start of some bytes, which are at offset `at` of the picture; or the cause for
// which no part is there.
pub(crate) fn read_part(octets: &[u8], at: usize) -> Result<Part, HeadCause>
    requires { at + length octets.now < 2 ^ 63 }
    ensures { MatchResult result (λ q. (is_part octets.now ≡ true) × (q ≡ part at octets.now)) (λ cause. FaultAt cause octets.now) }
{
    let n = marks(octets);
    let body = rest(octets, n);
    if body.is_empty() {
        return Err(HeadCause::HeadCut);
    }
    if n == 0 {
        return Err(HeadCause::NoMarker);
    }
    let code = body[0];
    if code == 0 {
        return Err(HeadCause::NoMarker);
    }
    if stands_alone(code) {
        return Ok(Part {
            code,
            start: at + n + 1,
            size: 0,
        });
    }
    if body.len() < 3 {
        return Err(HeadCause::HeadCut);
    }
    let count = 256 * usize::from(body[1]) + usize::from(body[2]);
    if count < 2 {
        return Err(HeadCause::LengthForm);
    }
    if body.len() - 1 < count {
        return Err(HeadCause::HeadCut);
    }
    Ok(Part {
        code,
        start: at + n + 3,
        size: count - 2,
    })
}
