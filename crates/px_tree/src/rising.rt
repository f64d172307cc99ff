// Strips in the block by ascending offset, as nearly all writers write them.
ghost use Rattle.std.specs.Prelude.{◌≡◌, ◌≤◌, length, IfSome};
ghost use Rattle.px_bytes.specs.Parts.{limit};
ghost use Rattle.px_meaning.specs.calls.Strips.{Rise, ranges_in};

use px_meaning::{StripLists, number_in};

// The range from the start of the first strip up to the end of the last, as offsets from the block's first byte.
#[derive(Clone, Copy)]
pub struct Span {
    pub start: u32,
    pub end: u32,
}

// The byte offset of the first strip; 0 if there is none.
fn first_start(lists: &StripLists) -> u32 {
    if lists.starts.count() == 0 {
        return 0;
    }
    number_in(&lists.starts, 0)
}

// If there is a result, it is a span inside the block in which all strips lie, and each starts at the end of the one
// before or after it. That there is one if the strips lie so is not stated.
pub fn rising_span(lists: &StripLists) -> Option<Span>
    requires bounded { length lists.now.block.now ≤ limit }
    requires same { length lists.now.starts.elements ≡ length lists.now.sizes.elements }
    ensures inside { IfSome result (λ s. s.end ≤ length lists.now.block.now) }
    ensures rise { IfSome result (λ s. Rise s.start s.end (ranges_in lists.now)) }
{
    let len = lists.block.len();
    let start = first_start(lists);
    if start as usize > len {
        return None;
    }
    let mut end = start;
    for i in 0..lists.starts.count() {
        let from = number_in(&lists.starts, i);
        let to = u64::from(from) + u64::from(number_in(&lists.sizes, i));
        if from < end || to > len as u64 {
            return None;
        }
        end = to as u32;
    }
    Some(Span { start, end })
}
