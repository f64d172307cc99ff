// Iterates over a record, group by group.
ghost use Rattle.std.specs.Prelude.{◌≡◌, ◌≤◌, ◌<◌, ℕ, length, slice_index_or};
ghost use Rattle.std.specs.Iterator.{item_count, YieldsFirstBy};
ghost use Rattle.px_iim.specs.calls.Runs.{key_of as group_key};
ghost use Rattle.px_iim.specs.calls.View.{dataset_view, part_view};
ghost use Rattle.px_iim.specs.declared.group.Item.{Item as AnyItem};

use crate::group::{Item, key_of, named};
use std::marker::Model;

// The number of DataSets at the start that are in the first one's group.
fn run_len(items: &[Item]) -> usize
    requires { 0 < length items.now }
    ensures some { 1 ≤ result }
    ensures within { result ≤ length items.now }
    ensures same { (k : ℕ) (d : AnyItem) → k < result
        → group_key (dataset_view (slice_index_or items.now k d)) ≡ group_key (dataset_view (slice_index_or items.now 0 d)) }
    ensures next { (d : AnyItem) → result < length items.now
        → group_key (dataset_view (slice_index_or items.now result d)) ≡ group_key (dataset_view (slice_index_or items.now 0 d)) → ⊥ }
{
    let first = items[0];
    let key = key_of(first.rec, first.number);
    let mut end = 1;
    while end < items.len() {
        let item = items[end];
        if key_of(item.rec, item.number) != key {
            return end;
        }
        end += 1;
    }
    end
}

/// The groups of a record that are left, in ascending order: the result of `Iim::iter`. Each item is the
/// record and number that name the group, and its DataSets. Contracts see the list of the groups left. It
/// allocates nothing.
#[derive(Drop)]
pub struct Groups<'b, 'a> {
    // The record's DataSets in the order of their groups; the first `at` of them were returned already.
    pub(crate) items: &'b [Item<'a>],
    pub(crate) at: usize,
}

impl<'b, 'a> Model for Groups<'b, 'a> {
    ghost use Rattle.std.specs.Prelude.{map, drop};
    ghost use Rattle.px_iim.specs.Group.{Record};
    ghost use Rattle.px_iim.specs.calls.Runs.{runs, InOrder, AreNumbers};
    ghost use Rattle.px_iim.specs.calls.View.{dataset_view};

    ghost Value = { Record };

    ghost view = { λ g. runs (map dataset_view (drop g.at g.items.now)) };

    ghost invariant = { λ g. InOrder (map dataset_view (drop g.at g.items.now)) × AreNumbers (map dataset_view (drop g.at g.items.now)) };
}

impl<'b, 'a> Iterator for Groups<'b, 'a> {
    // A group: its record number, the number that names the group, and its DataSets in order.
    type Item = (u8, u8, &'b [Item<'a>]);

    ghost next_gives = { YieldsFirstBy part_view (λ left. left) };

    ghost remaining = { item_count (λ left. left) };

    // The next group, in ascending order of record number and then of the number that names the
    // group. None: there is no other.
    fn next(&mut self) -> Option<(u8, u8, &'b [Item<'a>])> {
        let items = self.items;
        if self.at >= items.len() {
            return None;
        }
        let left = items.split_at(self.at).1;
        let first = left[0];
        let len = run_len(left);
        self.at += len;
        Some((
            first.rec,
            named(first.rec, first.number),
            left.split_at(len).0,
        ))
    }
}
