// The length of a normal form, counted DataSet by DataSet.
ghost use Rattle.std.specs.Prelude.{◌≡◌, ◌*◌, ◌≤◌, ◌+◌, ℕ, length, IfSome};
ghost use Rattle.px_bytes.specs.Parts.{limit};
ghost use Rattle.px_iim.specs.Record.{normal_count, normal_dataset};
ghost use Rattle.px_iim.specs.calls.View.{item_view};
ghost use Rattle.px_iim.specs.Writing.{within};

use crate::dataset::TOP_BIT;
use crate::group::Item;
use px_bytes::LIMIT;

// The greatest length of a normal form that is counted, in bytes.
const MOST: u32 = 2 * LIMIT;

// The length of a DataSet up to its data, in bytes.
fn head_len(count: u32) -> u32
    ensures value { result ≡ 3 + length (normal_count count) }
    ensures bound { result ≤ 9 }
{
    if count < TOP_BIT {
        return 5;
    }
    9
}

// The length `total`, and that of one more DataSet in the normal form. None: the sum is above MOST.
fn with_item(total: u32, item: &Item) -> Option<u32>
    requires counted { total ≤ 2 * limit }
    requires short { length item.now.octets.now ≤ limit }
    ensures { result ≡ within (total + length (normal_dataset 0 (item_view item.now))) }
{
    let len = item.octets.len() as u32;
    let longer = total + head_len(len) + len;
    if longer > MOST {
        return None;
    }
    Some(longer)
}

// The length `len` of a normal form, and that of one more DataSet. None: `len` is None, above MOST,
// or the sum is.
pub(crate) fn longer(len: Option<u32>, item: &Item) -> Option<u32>
    requires counted { IfSome len (λ total. total ≤ 2 * limit) }
    requires short { length item.now.octets.now ≤ limit }
    ensures { (n : ℕ) → len ≡ within n → result ≡ within (n + length (normal_dataset 0 (item_view item.now))) }
{
    match len {
        Some(total) => with_item(total, item),
        None => None,
    }
}
