// Strips that follow one another directly in the block, so that they are written together.
ghost use Rattle.std.specs.Prelude.{◌≡◌, ◌<◌, ◌≤◌, ◌+◌, ◌-◌, ◌%◌, length, Some};
ghost use Rattle.px_bytes.specs.Parts.{part};
ghost use Rattle.px_meaning.specs.calls.Strips.{AreNamed, AreJoined, named_strips};

use crate::parts::bytes_between;
use crate::strip_lists::{StripLists, number_in};

/// The bytes of strips that follow one another directly in the block, and the number of these strips.
#[derive(Clone, Copy)]
pub struct StripRun<'a> {
    /// The bytes of the strips.
    pub bytes: &'a [u8],
    /// The number of strips, at least one.
    pub count: usize,
}

// The strip at `i`, whose bytes are those from `start` to `end`, and the next strips of an even length that follow
// it directly in the block.
fn longer_run<'a>(lists: &StripLists<'a>, i: u32, start: usize, end: usize) -> StripRun<'a>
    requires named { AreNamed lists.now }
    requires there { i < length lists.now.starts.elements }
    requires rising { start ≤ end }
    requires inside { end ≤ length lists.now.block.now }
    requires even { (end - start) % 2 ≡ 0 }
    requires first { AreJoined (named_strips (Some lists.now)) i (i + 1) (part lists.now.block.now start (end - start)) }
    ensures some { 0 < result.count }
    ensures inside { i + result.count ≤ length lists.now.starts.elements }
    ensures bytes { AreJoined (named_strips (Some lists.now)) i (i + result.count) result.bytes.now }
{
    let count = lists.starts.count();
    let mut end = end;
    for j in i + 1..count {
        let from = number_in(&lists.starts, j) as usize;
        let size = number_in(&lists.sizes, j) as usize;
        if from != end || size % 2 != 0 {
            return StripRun {
                bytes: bytes_between(lists.block, start, end),
                count: (j - i) as usize,
            };
        }
        end = from + size;
    }
    StripRun {
        bytes: bytes_between(lists.block, start, end),
        count: (count - i) as usize,
    }
}

// The strip at `i`, counted from 0, and perhaps some after it: `count` strips, at least one and no more than are
// left. Padding `bytes` once to an even length gives the same as padding each of these strips, one after another. How
// many they are is not stated: if its length is even, also the next strips of an even length that follow it directly
// in the block.
pub fn run_in<'a>(lists: &StripLists<'a>, i: u32) -> StripRun<'a>
    requires named { AreNamed lists.now }
    requires there { i < length lists.now.starts.elements }
    ensures some { 0 < result.count }
    ensures inside { i + result.count ≤ length lists.now.starts.elements }
    ensures bytes { AreJoined (named_strips (Some lists.now)) i (i + result.count) result.bytes.now }
{
    let start = number_in(&lists.starts, i) as usize;
    let size = number_in(&lists.sizes, i) as usize;
    let end = start + size;
    if size % 2 != 0 {
        return StripRun {
            bytes: bytes_between(lists.block, start, end),
            count: 1,
        };
    }
    longer_run(lists, i, start, end)
}
