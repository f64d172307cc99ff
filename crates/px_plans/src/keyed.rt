// Offsets by key.
//
// A key is the tag of a value or the index of a strip. The list of pairs ascends by key.
ghost use Rattle.std.specs.Prelude.{◌≡◌, ◌+◌, ◌-◌, ◌*◌, ◌<◌, ◌≤◌, ◌^◌, OnOk, OnErr, IfOk, IfErr, None, Some, if◌then◌else◌, ◌==◌, ℕ};
ghost use Rattle.px_bytes.specs.Allocations.{CountsAllocFailure};
ghost use Rattle.px_plans.specs.calls.Keyed.{IsInOrder, IsAt, IsGapFor};

use px_bytes::{AllocFailed, Memory};
use std::alloc::Global;

// Offsets, each with its key, by ascending key. A key is found by binary search. An offset with the greatest key so
// far is appended; any other moves those after it.
#[derive(Drop)]
pub(crate) struct KeyedOffsets {
    list: Vec<(u32, u32)>,
    ghost ordered: { IsInOrder list.items },
}

impl KeyedOffsets {
    ghost use Rattle.px_plans.specs.calls.Kept.{key_in, keyed_size, keyed_paid};

    // No offsets. It allocates nothing.
    pub(crate) fn new(memory: &Memory) -> KeyedOffsets
        ensures none { (k : ℕ) → key_in result k ≡ None }
        ensures size { keyed_size result ≡ 0 }
        ensures paid { keyed_paid result ≡ 0 }
    {
        KeyedOffsets {
            list: memory.list(),
        }
    }

    // The allocator of the vector.
    pub(crate) fn allocator(&self) -> Global {
        *self.list.allocator()
    }

    // The number of keys that have an offset.
    pub(crate) fn size(&self) -> u128
        ensures value { result ≡ keyed_size self.now }
        ensures bound { result < 2 ^ 64 }
    {
        self.list.len() as u128
    }

    // The offset at a key, or None.
    pub(crate) fn offset(&self, key: u32) -> Option<u32>
        ensures { result ≡ key_in self.now key }
    {
        match position_of(&self.list, key) {
            Ok(i) => Some(self.list[i].1),
            Err(_) => None,
        }
    }

    // Adds the offset of a key that has none yet.
    pub(crate) fn put(
        &mut self,
        memory: &mut Memory,
        key: u32,
        offset: u32,
    ) -> Result<(), AllocFailed>
        requires { key_in self.old key ≡ None }
        ensures ok { OnOk result ((k : ℕ) → key_in self.new k ≡ (if key == k then Some offset else key_in self.old k)) }
        ensures err { OnErr result ((k : ℕ) → key_in self.new k ≡ key_in self.old k) }
        ensures size { OnOk result (keyed_size self.new ≡ keyed_size self.old + 1) }
        ensures kept { OnErr result (keyed_size self.new ≡ keyed_size self.old) }
        ensures memory { CountsAllocFailure result memory.old memory.new }
        ensures asked { memory.new.asked ≤ memory.old.asked + keyed_paid self.old + 32 }
        ensures paid { OnOk result (memory.new.asked + keyed_paid self.new ≤ memory.old.asked + keyed_paid self.old + 32) }
    {
        match position_of(&self.list, key) {
            Ok(_) => unreachable!(),
            Err(i) => memory.insert(&mut self.list, i, (key, offset)),
        }
    }
}

// `Ok`: the index of the key. `Err`: the list has no such key, and this is the index where it would
// be inserted.
fn position_of(list: &[(u32, u32)], key: u32) -> Result<usize, usize>
    requires { IsInOrder list.now }
    ensures found { IfOk result (IsAt list.now key) }
    ensures absent { IfErr result (IsGapFor list.now key) }
{
    let mut low = 0;
    let mut high = list.len();
    while low < high {
        let middle = low + (high - low) / 2;
        let here = list[middle].0;
        if here == key {
            return Ok(middle);
        }
        if here < key {
            low = middle + 1;
        } else {
            high = middle;
        }
    }
    Err(low)
}
