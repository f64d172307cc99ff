// DataSets, and the groups to which they belong.
ghost use Rattle.std.specs.Prelude.{◌≡◌, ◌+◌, ◌*◌, ◌/◌, ◌<◌, ◌≤◌, insert, max, vec_len, vec_capacity, OnOk, OnErr};
ghost use Rattle.px_bytes.specs.Allocations.{CountsAllocFailure, AsksAtMost};
ghost use Rattle.px_bytes.specs.Parts.{limit};
ghost use Rattle.px_iim.specs.Asking.{item_bytes, put_request};
ghost use Rattle.px_iim.specs.Group.{named};
ghost use Rattle.px_iim.specs.calls.View.{octets_left};

use px_bytes::{AllocFailed, LIMIT, Memory};

/// A DataSet in its group. The record number is the group's.
#[derive(Clone, Copy, Debug)]
pub struct Item<'a> {
    // Here the record number makes the item no larger: it fills a gap after the number.
    pub(crate) rec: u8,
    /// The DataSet number.
    pub number: u8,
    /// The data as they are in the block, at most `LIMIT` octets.
    pub octets: &'a [u8],
}

// The number that names a DataSet's group: in record 2 some numbers share one.
#[tactic(auto, unfolding(crate::specs::Group::named))]
pub(crate) fn named(rec: u8, number: u8) -> u8
    ensures { result ≡ named rec number }
{
    if rec != 2 {
        return number;
    }
    match number {
        27 => 26,
        47 | 50 => 45,
        85 => 80,
        _ => number,
    }
}

// The key of a group. Groups are ordered by record, then by number, and so are their keys.
pub(crate) fn key_of(rec: u8, number: u8) -> usize
    ensures value { result ≡ 256 * rec + named rec number }
    ensures bounded { result < 65536 }
    ensures byte { named rec number < 256 }
{
    256 * rec as usize + named(rec, number) as usize
}

// A list of more items than this is long.
const LONG: usize = 65536;

// How many more items a full list of `len` items gets capacity for: half as many, and at least three; in a long list a
// 32nd. So a long list needs few allocations and has little unused capacity. The system moves it without a copy.
fn capacity_to_add(len: usize) -> usize
    ensures some { 1 ≤ result }
    ensures most { result ≤ max 3 (len / 2) }
    ensures long { LONG < len → result ≤ len / 32 }
    ensures bounded { result ≤ limit / 2 }
{
    if len > LONG {
        return (len / 32).min(LIMIT as usize / 2);
    }
    (len / 2).max(3)
}

// Makes capacity for one more item in a full list. An empty list gets capacity for one item only, since many records
// have one DataSet.
fn reserve_more<'a>(memory: &mut Memory, list: &mut Vec<Item<'a>>) -> Result<(), AllocFailed>
    ensures items { list.new.items ≡ list.old.items }
    ensures len { vec_len list.new ≡ vec_len list.old }
    ensures space { OnOk result (vec_len list.new < vec_capacity list.new) }
    ensures first { vec_len list.old ≡ 0 → vec_capacity list.new ≤ max (vec_capacity list.old) 1 }
    ensures most { vec_capacity list.new ≤ max (vec_capacity list.old) (vec_len list.old + max 3 (vec_len list.old / 2)) }
    ensures long { LONG < vec_len list.old →
        vec_capacity list.new ≤ max (vec_capacity list.old) (vec_len list.old + vec_len list.old / 32) }
    ensures memory { CountsAllocFailure result memory.old memory.new }
    ensures asked { AsksAtMost (put_request (vec_len list.old)) memory.old memory.new }
{
    if list.len() < list.capacity() {
        return Ok(());
    }
    if list.is_empty() {
        return memory.reserve_exact(list, 1);
    }
    memory.reserve_exact(list, capacity_to_add(list.len()))
}

// Inserts an item at an index. Most items are appended at the end, and then no item is moved.
pub(crate) fn put_at<'a>(
    memory: &mut Memory,
    list: &mut Vec<Item<'a>>,
    at: usize,
    item: Item<'a>,
) -> Result<(), AllocFailed>
    requires { at ≤ vec_len list.old }
    ensures done { OnOk result (list.new.items ≡ insert list.old.items at item.entry) }
    ensures failed { OnErr result (list.new.items ≡ list.old.items) }
    ensures memory { CountsAllocFailure result memory.old memory.new }
    ensures asked { AsksAtMost (put_request (vec_len list.old)) memory.old memory.new }
{
    reserve_more(memory, list)?;
    if at == list.len() {
        list.push_reserved(item);
        return Ok(());
    }
    memory.insert(list, at, item)
}

// Makes capacity for exactly `count` more items.
pub(crate) fn reserve_for<'a>(
    memory: &mut Memory,
    list: &mut Vec<Item<'a>>,
    count: usize,
) -> Result<(), AllocFailed>
    requires { 5 * count ≤ limit }
    ensures items { list.new.items ≡ list.old.items }
    ensures len { vec_len list.new ≡ vec_len list.old }
    ensures space { OnOk result (vec_len list.new + count ≤ vec_capacity list.new) }
    ensures most { vec_capacity list.new ≤ max (vec_capacity list.old) (vec_len list.old + count) }
    ensures memory { CountsAllocFailure result memory.old memory.new }
    ensures asked { AsksAtMost (item_bytes * (vec_len list.old + count)) memory.old memory.new }
{
    memory.reserve_exact(list, count)
}

/// The iterator that `Iim::all` returns: the data of the DataSets of one number, in their group's order.
/// Allocates nothing.
#[derive(Clone, Copy)]
pub struct All<'b, 'a> {
    pub(crate) items: &'b [Item<'a>],
    pub(crate) at: usize,
    pub(crate) number: u8,
}

impl<'b, 'a> Iterator for All<'b, 'a> {
    ghost use Rattle.std.specs.Iterator.{item_count, YieldsFirstRef};
    ghost use Rattle.px_iim.specs.calls.View.{octets_left};

    // The data of one DataSet.
    type Item = &'a [u8];

    ghost next_gives = { YieldsFirstRef octets_left };

    ghost remaining = { item_count octets_left };

    // The data of the next DataSet of the number that `Iim::all` was asked for. None: there is no
    // other.
    fn next(&mut self) -> Option<&'a [u8]> {
        while self.at < self.items.len() {
            let item = self.items[self.at];
            self.at += 1;
            if item.number == self.number {
                return Some(item.octets);
            }
        }
        None
    }
}
