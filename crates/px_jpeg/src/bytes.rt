// Ranges of bytes, and the number that four bytes encode.
ghost use Rattle.std.specs.Prelude.{◌≡◌, ◌≤◌, ◌<◌, ◌+◌, ◌^◌, length, take, drop};
ghost use Rattle.px_jpeg.specs.ResourceReading.{number4};

// The bytes from an index on.
pub(crate) fn rest(bytes: &[u8], at: usize) -> &[u8]
    requires { at ≤ length bytes.now }
    ensures { result.now ≡ drop at bytes.now }
{
    bytes.split_at(at).1
}

// The bytes of a range.
pub(crate) fn bytes_at(bytes: &[u8], start: usize, size: usize) -> &[u8]
    requires { start + size ≤ length bytes.now }
    ensures { result.now ≡ take size (drop start bytes.now) }
{
    rest(bytes, start).split_at(size).0
}

// The number in the first four bytes, most significant first.
pub(crate) fn number4(octets: &[u8]) -> usize
    requires { 4 ≤ length octets.now }
    ensures value { result ≡ number4 octets.now }
    ensures bound { result < 2 ^ 32 }
{
    256 * (256 * (256 * usize::from(octets[0]) + usize::from(octets[1])) + usize::from(octets[2]))
        + usize::from(octets[3])
}

// The number in the four bytes at an index, most significant first.
pub(crate) fn number4_at(octets: &[u8], at: usize) -> usize
    requires { at + 4 ≤ length octets.now }
    ensures { result ≡ number4 (drop at octets.now) }
{
    number4(rest(octets, at))
}
