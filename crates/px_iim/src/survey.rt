// One pass over a block: it judges the block and finds what reading it needs.
ghost use Rattle.std.specs.Prelude.{◌≡◌, ◌≤◌, ◌<◌, ◌+◌, ◌*◌, ℕ, List, Some, IfOk, true, false, length, max};
ghost use Rattle.std.specs.List.{AllByRecursion};
ghost use Rattle.px_bytes.specs.Checks.{ContentOnly, Judges};
ghost use Rattle.px_bytes.specs.Parts.{limit};
ghost use Rattle.px_iim.specs.DataSet.{DataSet};
ghost use Rattle.px_iim.specs.Record.{sequence_of};
ghost use Rattle.px_iim.specs.Check.{iim_checks};
ghost use Rattle.px_iim.specs.calls.Runs.{key_of as group_key, AreNumbers, InOrder};

use crate::dataset::{dataset_at, is_end, rest};
use crate::group::key_of;
use px_bytes::Refusal;

// A block of at most so many DataSets that are out of order is read by inserting one after another.
const FEW: usize = 64;

// What the pass finds.
#[derive(Clone, Copy)]
pub(crate) struct Overview {
    // The number of DataSets.
    pub(crate) count: usize,
    // Greater than the key of each group (`key_of`).
    pub(crate) keys: usize,
    // Whether the DataSets are in the order of their groups.
    pub(crate) in_order: bool,
}

impl Overview {
    // Whether the DataSets are so few that each is inserted at its position, in whatever order they come.
    pub(crate) fn is_few(&self) -> bool
        ensures many { result ≡ false → FEW < self.now.count }
        ensures few { result ≡ true → self.now.count ≤ FEW }
    {
        self.count <= FEW
    }

    // Whether a list of the DataSets takes no more memory than a counter for each key: six counters are as large as
    // a DataSet.
    pub(crate) fn is_short(&self) -> bool
        ensures { result ≡ true → 6 * self.now.count ≤ self.now.keys }
    {
        self.count <= self.keys / 6
    }
}

// The smallest bound that is at least `keys` and greater than `key`.
fn past(keys: usize, key: usize) -> usize
    requires { key < 65536 }
    ensures { result ≡ max keys (key + 1) }
{
    keys.max(key + 1)
}

// Judges a block and counts its DataSets.
pub(crate) fn survey(bytes: &[u8]) -> Result<Overview, Refusal>
    requires { length bytes.now ≤ limit }
    ensures judged { Judges result (iim_checks bytes.now) (λ s. (ds : List DataSet)
        × (sequence_of (length bytes.now) bytes.now ≡ Some ds) × (s.count ≡ length ds)
        × AllByRecursion (λ d. group_key d < s.keys) ds × AreNumbers ds × (s.in_order ≡ true → InOrder ds)) }
    ensures few { IfOk result (λ s. (5 * s.count ≤ length bytes.now) × (s.keys ≤ 65536)) }
    ensures content { ContentOnly result }
{
    let mut at = 0;
    let mut count = 0;
    let mut keys = 0;
    let mut last = 0;
    let mut in_order = true;
    loop {
        let found = dataset_at(bytes, at)?;
        let key = key_of(found.rec, found.number);
        in_order = in_order & (last <= key);
        last = key;
        keys = past(keys, key);
        count += 1;
        at += found.size;
        if is_end(rest(bytes, at)) {
            return Ok(Overview {
                count,
                keys,
                in_order,
            });
        }
    }
}
