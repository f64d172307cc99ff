// Offsets and lengths of a thumbnail's strips. TIFF 6.0 section 8, "StripOffsets" and "StripByteCounts".
ghost use Rattle.std.specs.Prelude.{◌≡◌, ◌<◌, length, map, slice_get, Some, IfSome};
ghost use Rattle.px_meaning.specs.Thumbnail.{whole_number};
ghost use Rattle.px_meaning.specs.calls.Strips.{AreNamed, named_strips, longs};

use crate::parts::part_of;
use px_field::{Element, Form, Kind, Value};

/// The two lists of numbers that describe the strips, and their block.
#[derive(Drop)]
pub struct StripLists<'a> {
    /// The block that contains the strips.
    pub block: &'a [u8],
    /// The offsets of the strips.
    pub starts: Value<'a>,
    /// The lengths of the strips.
    pub sizes: Value<'a>,
}

// The number of a SHORT or a LONG.
#[inline(always)]
fn number_of(element: Element) -> u32
    ensures { result ≡ whole_number element }
{
    match element {
        Element::Short(n) => u32::from(n),
        Element::Long(n) => n,
        _ => 0,
    }
}

/// The number at an index of a list.
#[inline(always)]
pub fn number_in(list: &Value, i: u32) -> u32
    requires { i < length list.now.elements }
    ensures { slice_get (map whole_number list.now.elements) i ≡ Some result }
{
    // Nearly all lists have LONGs: for these the compiler makes a way of its own, without the other types.
    if list.kind() == Kind::Of(Form::Long) {
        return number_of(list.element(i));
    }
    number_of(list.element(i))
}

// The bytes of the strip at index `i`.
pub fn strip_at<'a>(lists: &StripLists<'a>, i: u32) -> &'a [u8]
    requires named { AreNamed lists.now }
    requires there { i < length lists.now.starts.elements }
    ensures { slice_get (named_strips (Some lists.now)) i ≡ Some result.now }
{
    let start = number_in(&lists.starts, i);
    let len = number_in(&lists.sizes, i);
    part_of(lists.block, start, len)
}

// The length of the strip at `i`, counted from 0. Required: the two lists have the same count, and each strip lies inside
// the block (`AreNamed`).
#[inline(always)]
pub fn strip_len(lists: &StripLists, i: u32) -> u32
    requires named { AreNamed lists.now }
    requires there { i < length lists.now.starts.elements }
    ensures { slice_get (map (λ x. length x) (named_strips (Some lists.now))) i ≡ Some result }
{
    number_in(&lists.sizes, i)
}

// If there is a result, it is a value of LONGs: the lengths of all strips, in order. When there is one is not stated:
// it is there if the block's list has LONGs.
pub fn long_sizes<'l, 'a>(lists: &'l StripLists<'a>) -> Option<&'l Value<'a>>
    requires { AreNamed lists.now }
    ensures { IfSome result (λ v. v.now ≡ longs (map (λ x. length x) (named_strips (Some lists.now)))) }
{
    match lists.sizes.kind() {
        Kind::Of(Form::Long) => Some(&lists.sizes),
        _ => None,
    }
}
