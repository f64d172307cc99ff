// Compares records.
ghost use Rattle.std.specs.Prelude.{◌≡◌, map, MatchBool};
ghost use Rattle.px_iim.specs.calls.View.{item_view, part_view};

use crate::group::Item;
use crate::iim::Iim;

// Whether the data of two DataSets is the same, byte for byte.
fn same_octets(first: &[u8], second: &[u8]) -> bool
    ensures { MatchBool result (first.now ≡ second.now) (first.now ≡ second.now → ⊥) }
{
    first == second
}

// Whether two DataSets have the same number and the same data. The caller compares their record
// numbers.
fn same_item(first: &Item, second: &Item) -> bool
    ensures { MatchBool result (item_view first.now ≡ item_view second.now) (item_view first.now ≡ item_view second.now → ⊥) }
{
    first.number == second.number && same_octets(first.octets, second.octets)
}

// Whether two groups have the same DataSets in the same order: in a group, the order has a meaning.
fn same_items(first: &[Item], second: &[Item]) -> bool
    ensures { MatchBool result (map item_view first.now ≡ map item_view second.now)
        (map item_view first.now ≡ map item_view second.now → ⊥) }
{
    if first.len() != second.len() {
        return false;
    }
    for i in 0..first.len() {
        if !same_item(&first[i], &second[i]) {
            return false;
        }
    }
    true
}

// Whether two groups are the same. Each is its record number, the number that names the group, and
// its DataSets.
fn same_group(first: (u8, u8, &[Item]), second: (u8, u8, &[Item])) -> bool
    ensures { MatchBool result (part_view first.entry ≡ part_view second.entry) (part_view first.entry ≡ part_view second.entry → ⊥) }
{
    first.0 == second.0 && first.1 == second.1 && same_items(first.2, second.2)
}

/// Whether two records have the same groups with the same lists: the same numbers and data in the same order.
/// It allocates nothing.
pub fn same_iim(first: &Iim, second: &Iim) -> bool
    ensures { MatchBool result (first.now ≡ second.now) (first.now ≡ second.now → ⊥) }
{
    let mut others = second.iter();
    for group in first.iter() {
        let Some(other) = others.next() else {
            return false;
        };
        if !same_group(group, other) {
            return false;
        }
    }
    others.next().is_none()
}
