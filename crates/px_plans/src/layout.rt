// A meaning and how it is laid out.
use crate::plan::Plan;
use px_bytes::Order;
use px_tree::Meaning;

// A meaning, the offsets of its chunks, the byte order, and the byte for all gaps.
#[derive(Clone, Copy)]
pub(crate) struct Layout<'p, 'a> {
    pub(crate) m: &'p Meaning<'a>,
    pub(crate) plan: &'p Plan,
    pub(crate) order: Order,
    pub(crate) filler: u8,
}
