// A record: its DataSets in the order of their groups.
ghost use Rattle.std.specs.Prelude.{◌≡◌, ◌==◌, ◌<◌, ◌≤◌, ◌+◌, ◌*◌, [], length, map, slice_get, Some, IfOk, OnOk, OnErr};
ghost use Rattle.px_bytes.specs.Allocations.{CountsAllocFailure, AsksAtMost};
ghost use Rattle.px_bytes.specs.Parts.{limit};
ghost use Rattle.px_iim.specs.Asking.{item_bytes, dataset_count, put_request};
ghost use Rattle.px_iim.specs.Group.{named, put, items_at, AreGroups};
ghost use Rattle.px_iim.specs.Record.{normal_iim};
ghost use Rattle.px_iim.specs.calls.Runs.{runs, InOrder, AreNumbers};
ghost use Rattle.px_iim.specs.calls.View.{dataset_view, item_view, part_view, octets_left, octets_of};
ghost use Rattle.px_iim.specs.Writing.{within};

use crate::group::{All, Item, key_of, put_at, reserve_for};
use crate::length::longer;
use crate::places::{count_before, index_after};
use crate::walk::Groups;
use px_bytes::{AllocFailed, Memory};
use std::marker::Model;

/// The meaning of an IIM block: a map from group to a list of DataSets, none of which is empty. Contracts see
/// it as the list of its groups, in ascending order of record, then number. The data are borrowed.
///
/// All DataSets are in one vector, in the order of their groups. A group is a part of that vector and is
/// found by binary search. Each DataSet takes 24 bytes besides its data. The length of the normal form is
/// kept too.
#[derive(Drop)]
pub struct Iim<'a> {
    // In ascending order of their groups; within a group in its order.
    pub(crate) items: Vec<Item<'a>>,
    // The length of the normal form in bytes, or None above twice `LIMIT`.
    form_len: Option<u32>,
}

impl<'a> Model for Iim<'a> {
    ghost use Rattle.std.specs.Prelude.{◌≡◌, length, map};
    ghost use Rattle.px_iim.specs.Group.{Record, AreGroups};
    ghost use Rattle.px_iim.specs.Record.{normal_iim};
    ghost use Rattle.px_iim.specs.calls.Runs.{runs, InOrder, AreNumbers};
    ghost use Rattle.px_iim.specs.calls.View.{dataset_view};
    ghost use Rattle.px_iim.specs.Writing.{within};

    ghost Value = { Record };

    ghost view = { λ i. runs (map dataset_view i.items.items) };

    ghost invariant = { λ i. InOrder (map dataset_view i.items.items) × AreNumbers (map dataset_view i.items.items)
        × AreGroups (runs (map dataset_view i.items.items))
        × (i.form_len ≡ within (length (normal_iim (runs (map dataset_view i.items.items))))) };
}

impl<'a> Iim<'a> {
    /// A record without a DataSet. Later calls use the allocator of `memory`. It allocates nothing.
    pub fn new_in(memory: &Memory) -> Iim<'a>
        ensures { result ≡ [] }
    {
        Iim {
            items: memory.list(),
            form_len: Some(0),
        }
    }

    // A record without a DataSet, with capacity for `count` of them.
    pub(crate) fn with_capacity(memory: &mut Memory, count: usize) -> Result<Iim<'a>, AllocFailed>
        requires { 5 * count ≤ limit }
        ensures none { IfOk result (λ i. i ≡ []) }
        ensures memory { CountsAllocFailure result memory.old memory.new }
        ensures asked { AsksAtMost (item_bytes * count) memory.old memory.new }
    {
        let mut items = memory.list();
        reserve_for(memory, &mut items, count)?;
        Ok(Iim {
            items,
            form_len: Some(0),
        })
    }

    // The record of DataSets that are in order, with the length of its normal form.
    pub(crate) fn of_items(items: Vec<Item<'a>>, form_len: Option<u32>) -> Iim<'a>
        requires order { InOrder (map dataset_view items.items) }
        requires numbers { AreNumbers (map dataset_view items.items) }
        requires whole { AreGroups (runs (map dataset_view items.items)) }
        requires counted { form_len ≡ within (length (normal_iim (runs (map dataset_view items.items)))) }
        ensures { result ≡ runs (map dataset_view items.entry.items) }
    {
        Iim { items, form_len }
    }

    /// Appends a DataSet to its group, with any record number, any DataSet number, and at most `LIMIT` bytes
    /// of data. A DataSet that is not the last of the record moves those after it. `Err`: an allocation
    /// failed, and nothing has changed.
    pub fn push_in(
        &mut self,
        memory: &mut Memory,
        rec: u8,
        number: u8,
        octets: &'a [u8],
    ) -> Result<(), AllocFailed>
        requires { length octets.now ≤ limit }
        ensures done { OnOk result (self.new ≡ put (record { rec = rec; number = number; octets = octets.now }) self.old) }
        ensures failed { OnErr result (self.new ≡ self.old) }
        ensures memory { CountsAllocFailure result memory.old memory.new }
        ensures asked { AsksAtMost (put_request (dataset_count self.old)) memory.old memory.new }
    {
        let at = index_after(&self.items, key_of(rec, number));
        let item = Item {
            rec,
            number,
            octets,
        };
        put_at(memory, &mut self.items, at, item)?;
        self.form_len = longer(self.form_len, &item);
        Ok(())
    }

    /// Whether the record has no DataSet. It allocates nothing.
    pub fn is_empty(&self) -> bool
        ensures { result ≡ (length self.now == 0) }
    {
        self.items.is_empty()
    }

    /// The number of groups, at most 65,536. It allocates nothing. The cost is linear in the number of
    /// DataSets.
    pub fn groups(&self) -> u32
        ensures count { result ≡ length self.now }
        ensures whole { AreGroups self.now }
    {
        let mut count = 0;
        for _ in self.iter() {
            count += 1;
        }
        count
    }

    /// The groups in ascending order, each as `group_at` returns it. One pass over them is faster than a call
    /// of `group_at` for each. It allocates nothing.
    pub fn iter(&self) -> Groups<'_, 'a>
        ensures all { result ≡ self.now }
        ensures whole { AreGroups self.now }
    {
        Groups {
            items: self.items.as_slice(),
            at: 0,
        }
    }

    // The length of the normal form in bytes, or None if it is more than twice `LIMIT`.
    pub(crate) fn form_len(&self) -> Option<u32>
        ensures { result ≡ within (length (normal_iim self.now)) }
    {
        self.form_len
    }

    /// The group of a DataSet number, even if another number names the group: its DataSets in order, none
    /// without such a group. It allocates nothing.
    pub fn group(&self, rec: u8, number: u8) -> &[Item<'a>]
        ensures { map item_view result.now ≡ items_at rec (named rec number) self.now }
    {
        let key = key_of(rec, number);
        let items = self.items.as_slice();
        let after = items.split_at(count_before(items, key)).1;
        after.split_at(count_before(after, key + 1)).0
    }

    /// The data of the DataSets with exactly this number, in their group's order. It allocates nothing.
    pub fn all(&self, rec: u8, number: u8) -> All<'_, 'a>
        ensures { octets_left result ≡ octets_of number (items_at rec (named rec number) self.now) }
    {
        All {
            items: self.group(rec, number),
            at: 0,
            number,
        }
    }

    /// The group at index `i`, below `groups`, in ascending order of record, then number: the record and
    /// number that name it, and its DataSets. It allocates nothing. The cost is linear in the DataSets of the
    /// groups before it.
    pub fn group_at(&self, i: u32) -> (u8, u8, &[Item<'a>])
        requires { i < length self.now }
        ensures { slice_get self.now i ≡ Some (part_view result) }
    {
        let mut left = i;
        for group in self.iter() {
            if left == 0 {
                return group;
            }
            left -= 1;
        }
        (0, 0, self.items.split_at(0).0)
    }
}
