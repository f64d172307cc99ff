// Reads one DataSet from the start of some bytes. IIM 4.2, chapter 1.
ghost use Rattle.std.specs.Prelude.{◌≡◌, ◌+◌, ◌≤◌, ◌<◌, ℕ, List, length, drop, true, Some, MatchResult};
ghost use Rattle.px_bytes.specs.declared.Order.TheVariants.{Most};
ghost use Rattle.px_bytes.specs.Checks.{first_false};
ghost use Rattle.px_bytes.specs.Numbers.{number};
ghost use Rattle.px_iim.specs.Record.{form, extra, count, size, is_marked, has_form, is_dataset, is_end};
ghost use Rattle.px_iim.specs.Check.{dataset_checks};
ghost use Rattle.px_bytes.specs.Parts.{limit};
ghost use Rattle.px_iim.specs.calls.Reading.{Reads, JudgesAt};

use px_bytes::{Cause, Order, Refusal};

/// The tag marker with which each DataSet begins (IIM 4.2, chapter 1).
pub const MARKER: u8 = 0x1C;

/// The top bit of the two bytes of a length. If it is set, the other bits are the number of bytes of the
/// length that follows.
pub(crate) const TOP_BIT: u32 = 0x8000;

// A DataSet, and the number of its bytes.
#[derive(Clone, Copy)]
pub(crate) struct Found<'a> {
    pub(crate) rec: u8,
    pub(crate) number: u8,
    pub(crate) octets: &'a [u8],
    pub(crate) size: usize,
}

// The bytes from an index on.
pub(crate) fn rest(bytes: &[u8], at: usize) -> &[u8]
    requires { at ≤ length bytes.now }
    ensures { result.now ≡ drop at bytes.now }
{
    bytes.split_at(at).1
}

// Whether the first byte is the tag marker, 1C, with which each DataSet begins (IIM 4.2 chapter 1).
// False without a byte.
fn is_marked(octets: &[u8]) -> bool
    ensures { result ≡ is_marked octets.now }
{
    !octets.is_empty() && octets[0] == MARKER
}

// The first two bytes of the length.
fn form(octets: &[u8]) -> u32
    requires { 5 ≤ length octets.now }
    ensures value { result ≡ form octets.now }
    ensures bound { result < 65536 }
{
    u32::from(Order::Most.get16(&octets[3..5]))
}

// How many bytes of length follow the first two, which were read as `pair`.
fn extra(pair: u32) -> u32
    ensures value { (x : List ℕ) → pair ≡ form x → result ≡ extra x }
    ensures bound { result ≤ pair }
{
    if pair < TOP_BIT {
        return 0;
    }
    pair - TOP_BIT
}

// Whether the first two bytes of a length, read as `pair`, are allowed: a standard length of up to
// 32,767 bytes of data, or the announcement of one to four more bytes with the length (IIM 4.2
// chapter 1, extended DataSets).
fn has_form(pair: u32) -> bool
    ensures { (x : List ℕ) → pair ≡ form x → result ≡ has_form x }
{
    if pair < TOP_BIT {
        return true;
    }
    let extra = extra(pair);
    1 <= extra && extra <= 4
}

// The number in up to four bytes, most significant first.
fn number_of(octets: &[u8]) -> u32
    requires { length octets.now ≤ 4 }
    ensures { result ≡ number Most (length octets.now) octets.now }
{
    let mut number = 0;
    for octet in octets {
        number = 256 * number + u32::from(*octet);
    }
    number
}

// The number of bytes of data, as the length says whose first two bytes were read as `pair`.
fn count(octets: &[u8], pair: u32) -> u32
    requires there { 5 + extra octets.now ≤ length octets.now }
    requires formed { has_form octets.now ≡ true }
    requires pair { pair ≡ form octets.now }
    ensures { result ≡ count octets.now }
{
    if pair < TOP_BIT {
        return pair;
    }
    let extra = extra(pair) as usize;
    number_of(&octets[5..5 + extra])
}

// The DataSet at the start of some bytes, and how many bytes it has; or the first check of it that
// fails.
pub(crate) fn read_dataset<'a>(octets: &'a [u8]) -> Result<Found<'a>, Cause>
    ensures { MatchResult result (Reads octets.now) (λ cause. (p : ℕ) → first_false (dataset_checks p octets.now) ≡ Some (cause, p)) }
{
    if !is_marked(octets) {
        return Err(Cause::NoMarker);
    }
    if octets.len() < 5 {
        return Err(Cause::DataSetCut);
    }
    let pair = form(octets);
    if !has_form(pair) {
        return Err(Cause::LengthForm);
    }
    let start = 5 + extra(pair) as usize;
    if octets.len() < start {
        return Err(Cause::DataSetCut);
    }
    let count = count(octets, pair) as usize;
    if octets.len() - start < count {
        return Err(Cause::DataSetCut);
    }
    Ok(Found {
        rec: octets[1],
        number: octets[2],
        octets: &octets[start..start + count],
        size: start + count,
    })
}

// The DataSet at the start of bytes that were judged to begin with one, without a second check.
pub(crate) fn judged_dataset<'a>(octets: &'a [u8]) -> Found<'a>
    requires { is_dataset octets.now ≡ true }
    ensures { Reads octets.now result }
{
    let pair = form(octets);
    let start = 5 + extra(pair) as usize;
    let count = count(octets, pair) as usize;
    Found {
        rec: octets[1],
        number: octets[2],
        octets: &octets[start..start + count],
        size: start + count,
    }
}

// Whether at most three bytes are left, all zero.
pub(crate) fn is_end(octets: &[u8]) -> bool
    ensures { result ≡ is_end octets.now }
{
    octets.len() <= 3 && octets.iter().all(|octet| *octet == 0)
}

// The DataSet at the offset `at`, and how many bytes it has. `Content`: the first check of it that
// fails, with that offset.
pub(crate) fn dataset_at<'a>(bytes: &'a [u8], at: usize) -> Result<Found<'a>, Refusal>
    requires inside { at ≤ length bytes.now }
    requires bounded { length bytes.now ≤ limit }
    ensures { JudgesAt result bytes.now at }
{
    match read_dataset(rest(bytes, at)) {
        Ok(found) => Ok(found),
        Err(cause) => Err(cause.at(at as u32)),
    }
}
