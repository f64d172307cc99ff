// Memory, which counts failed allocations.
ghost use Rattle.std.specs.Prelude.{◌≡◌, ◌≤◌, ◌<◌, ◌+◌, ◌-◌, ◌*◌, ◌++◌, ◌∷◌, [], true, false, length, take, replicate, insert, max};
ghost use Rattle.std.specs.Prelude.{vec_len, vec_capacity, string_bytes, string_len, string_capacity, is_ok, is_some, if◌then◌else◌, IfOk};
ghost use Rattle.std.specs.Prelude.{OnOk, OnErr, IsOk, IsErr, ◌↔◌, None, Some, ℕ};
ghost use Rattle.std.specs.BTreeMap.{get, insert_entry, btree_map_len, IsUnchanged, Updates};
ghost use Rattle.std.specs.Mem.{type_size};
ghost use Rattle.px_bytes.specs.Allocations.{CountsAllocFailure, IsModestRequest, enlarged};

use std::alloc::{AllocError, Global};
use std::collections::BTreeMap;
use std::marker::Model;
use std::mem::size_of;
use thiserror::Error;

/// The error that an allocation failed. Only `Memory` makes one.
#[derive(Debug, Drop, Error)]
#[error("out of memory")]
pub struct AllocFailed {
    _made: (),
}

impl From<AllocFailed> for AllocError {
    // A failed allocation, as std's error, for calls that return that type.
    fn from(_: AllocFailed) -> AllocError {
        AllocError
    }
}

/// The memory that a run may take. Contracts see how many allocations have failed, as they see how many
/// calls of a device have failed. Only its calls enlarge a vector, a map or a text. A call that fails counts
/// one failed allocation and leaves its vector, map or text as it was.
///
/// No call asks for more than twice what is in memory already, the vector and what is added to it, and sixteen
/// bytes for each byte of the longest block. So no request is one that memory could never meet.
///
/// Contracts also see how many bytes the allocator was asked for: the whole new capacity each time a vector
/// grows, whether the allocation succeeded or not. A vector that has space for what is added asks for nothing.
/// This is not what is allocated at one time. What a map and a text ask for is not counted.
#[derive(Drop)]
pub struct Memory {
    alloc: Global,
    refused: bool,
    // The number of failed allocations and of the bytes asked for, which only proofs read.
    counters: Counters,
}

impl Model for Memory {
    ghost use Rattle.std.specs.Prelude.{◌≡◌, nat_lt};
    ghost use Rattle.px_bytes.specs.Allocations.{MemoryCounts};

    ghost Value = { MemoryCounts };

    ghost view = { λ m. record { failed_allocations = m.counters.failed_allocations; asked = m.counters.asked } };

    ghost invariant = { λ m. m.refused ≡ nat_lt 0 m.counters.failed_allocations };
}

impl Memory {
    /// Memory over an allocator, with no failed allocation and no byte asked for. Allocates nothing.
    pub fn new(alloc: Global) -> Memory
        ensures { result ≡ record { failed_allocations = 0; asked = 0 } }
    {
        Memory {
            alloc,
            refused: false,
            counters: Counters::none(),
        }
    }

    /// Whether an allocation has failed.
    pub fn has_refused(&self) -> bool
        ensures { result ≡ true ↔ 0 < self.now.failed_allocations }
    {
        self.refused
    }

    /// New memory over the same allocator: its counts begin at no failed allocation and no byte
    /// asked for. Allocates nothing.
    pub fn fresh(&self) -> Memory
        ensures { result ≡ record { failed_allocations = 0; asked = 0 } }
    {
        Memory::new(self.alloc)
    }

    /// Takes over the counts of other memory. It adds the bytes that it asked for to its own. It returns
    /// `Err` and counts one failed allocation exactly if an allocation of that memory failed. Allocates nothing.
    pub fn join(&mut self, other: &Memory) -> Result<(), AllocFailed>
        ensures which { IsErr result ↔ 0 < other.now.failed_allocations }
        ensures memory { CountsAllocFailure result self.old self.new }
        ensures asked { self.new.asked ≡ self.old.asked + other.now.asked }
    {
        let counters = self.counters.besides(&other.counters);
        self.counters = counters;
        if other.refused {
            return Err(self.count_failure());
        }
        Ok(())
    }

    // Counts one more failed allocation.
    fn count_failure(&mut self) -> AllocFailed
        ensures failed_allocations { self.new.failed_allocations ≡ self.old.failed_allocations + 1 }
        ensures asked { self.new.asked ≡ self.old.asked }
    {
        self.refused = true;
        let counters = self.counters.one_more();
        self.counters = counters;
        AllocFailed { _made: () }
    }

    // Counts a request of capacity for `len` elements of `size` bytes each, and for `more` more.
    #[inline(always)]
    fn ask(&mut self, len: usize, more: usize, size: usize)
        ensures failed_allocations { self.new.failed_allocations ≡ self.old.failed_allocations }
        ensures asked { self.new.asked ≡ self.old.asked + (len + more) * size }
    {
        let counters = self.counters.asking(len, more, size);
        self.counters = counters;
    }

    // Makes the capacity exactly `more` more than the elements, which is more than it is. No other call asks
    // std for a vector's memory.
    #[inline(never)]
    fn enlarge<T>(&mut self, list: &mut Vec<T>, more: usize) -> Result<(), AllocFailed>
        requires size { IsModestRequest (type_size T.row) }
        requires lacks { vec_capacity list.old < vec_len list.old + more }
        ensures items { list.new.items ≡ list.old.items }
        ensures len { vec_len list.new ≡ vec_len list.old }
        ensures capacity { OnOk result (vec_capacity list.new ≡ vec_len list.old + more) }
        ensures kept { OnErr result (vec_capacity list.new ≡ vec_capacity list.old) }
        ensures memory { CountsAllocFailure result self.old self.new }
        ensures asked { self.new.asked ≡ self.old.asked + (vec_len list.old + more) * type_size T.row }
    {
        self.ask(list.len(), more, 1 * size_of::<T>());
        match list.reserve_exact(more) {
            Ok(()) => Ok(()),
            Err(_) => Err(self.count_failure()),
        }
    }

    // Makes capacity for at least `more` more elements, and at least doubles a capacity that is too small.
    #[inline(always)]
    fn have<T>(&mut self, list: &mut Vec<T>, more: usize) -> Result<(), AllocFailed>
        requires { IsModestRequest (type_size T.row) }
        ensures items { list.new.items ≡ list.old.items }
        ensures len { vec_len list.new ≡ vec_len list.old }
        ensures space { OnOk result (vec_len list.new + more ≤ vec_capacity list.new) }
        ensures capacity { vec_capacity list.old ≤ vec_capacity list.new }
        ensures larger { vec_capacity list.old < vec_len list.old + more →
            OnOk result (vec_capacity list.new ≡ enlarged (vec_capacity list.old) (vec_len list.old + more)) }
        ensures kept { OnErr result (vec_capacity list.new ≡ vec_capacity list.old) }
        ensures full { OnErr result (vec_capacity list.old < vec_len list.old + more) }
        ensures memory { CountsAllocFailure result self.old self.new }
        ensures fits { vec_len list.old + more ≤ vec_capacity list.old →
            IsOk result × (vec_capacity list.new ≡ vec_capacity list.old) × (self.new.asked ≡ self.old.asked) }
        ensures asked { vec_capacity list.old < vec_len list.old + more →
            self.new.asked ≡ self.old.asked + enlarged (vec_capacity list.old) (vec_len list.old + more) * type_size T.row }
    {
        if more <= list.capacity() - list.len() {
            return Ok(());
        }
        let twice = 2 * list.capacity().max(2);
        self.enlarge(list, more.max(twice - list.len()))
    }

    /// An empty vector. Allocates nothing.
    pub fn list<T>(&self) -> Vec<T>
        ensures items { result.items ≡ [] }
        ensures len { vec_len result ≡ 0 }
    {
        Vec::new(self.alloc)
    }

    /// An empty map. Allocates nothing.
    pub fn map<K: Ord, V>(&self) -> BTreeMap<K, V>
        ensures entries { result.entries ≡ [] }
        ensures len { btree_map_len result ≡ 0 }
    {
        BTreeMap::new(self.alloc)
    }

    /// An empty text. Allocates nothing.
    pub fn text(&self) -> String
        ensures bytes { string_bytes result ≡ [] }
        ensures len { string_len result ≡ 0 }
    {
        String::new(self.alloc)
    }

    /// Appends an element. Allocates if the vector has no capacity for one more. `Err`: that allocation
    /// failed; the vector's elements are as they were.
    pub fn push<T: Drop>(&mut self, list: &mut Vec<T>, x: T) -> Result<(), AllocFailed>
        requires { IsModestRequest (type_size T.row) }
        ensures items { list.new.items ≡ (if is_ok result then list.old.items ++ x ∷ [] else list.old.items) }
        ensures len { vec_len list.new ≡ (if is_ok result then vec_len list.old + 1 else vec_len list.old) }
        ensures capacity { vec_capacity list.old ≤ vec_capacity list.new }
        ensures larger { vec_capacity list.old < vec_len list.old + 1 →
            OnOk result (vec_capacity list.new ≡ enlarged (vec_capacity list.old) (vec_len list.old + 1)) }
        ensures full { OnErr result (vec_capacity list.old ≤ vec_len list.old) }
        ensures memory { CountsAllocFailure result self.old self.new }
        ensures fits { vec_len list.old + 1 ≤ vec_capacity list.old →
            IsOk result × (vec_capacity list.new ≡ vec_capacity list.old) × (self.new.asked ≡ self.old.asked) }
        ensures asked { vec_capacity list.old < vec_len list.old + 1 →
            self.new.asked ≡ self.old.asked + enlarged (vec_capacity list.old) (vec_len list.old + 1) * type_size T.row }
    {
        self.have(list, 1)?;
        list.push_reserved(x);
        Ok(())
    }

    /// Inserts an element at `index`, which is at most the number of elements. Allocates if the vector has no
    /// capacity for one more. `Err`: that allocation failed; the vector's elements are as they were.
    pub fn insert<T: Drop>(
        &mut self,
        list: &mut Vec<T>,
        index: usize,
        x: T,
    ) -> Result<(), AllocFailed>
        requires place { index ≤ vec_len list.old }
        requires size { IsModestRequest (type_size T.row) }
        ensures items { list.new.items ≡ (if is_ok result then insert list.old.items index x else list.old.items) }
        ensures len { vec_len list.new ≡ (if is_ok result then vec_len list.old + 1 else vec_len list.old) }
        ensures capacity { vec_capacity list.old ≤ vec_capacity list.new }
        ensures larger { vec_capacity list.old < vec_len list.old + 1 →
            OnOk result (vec_capacity list.new ≡ enlarged (vec_capacity list.old) (vec_len list.old + 1)) }
        ensures full { OnErr result (vec_capacity list.old ≤ vec_len list.old) }
        ensures memory { CountsAllocFailure result self.old self.new }
        ensures fits { vec_len list.old + 1 ≤ vec_capacity list.old →
            IsOk result × (vec_capacity list.new ≡ vec_capacity list.old) × (self.new.asked ≡ self.old.asked) }
        ensures asked { vec_capacity list.old < vec_len list.old + 1 →
            self.new.asked ≡ self.old.asked + enlarged (vec_capacity list.old) (vec_len list.old + 1) * type_size T.row }
    {
        self.have(list, 1)?;
        match list.insert(index, x) {
            Ok(()) => Ok(()),
            Err(_) => Err(self.count_failure()),
        }
    }

    /// Makes capacity for at least `more` more elements. A vector that lacks it gets at least twice the capacity
    /// that it has. `Err`: the allocation failed; the capacity is as it was. In either case the elements are.
    pub fn reserve<T>(&mut self, list: &mut Vec<T>, more: usize) -> Result<(), AllocFailed>
        requires size { IsModestRequest (type_size T.row) }
        requires bounded { IsModestRequest ((more - vec_len list.old) * type_size T.row) }
        ensures items { list.new.items ≡ list.old.items }
        ensures len { vec_len list.new ≡ vec_len list.old }
        ensures space { OnOk result (vec_len list.new + more ≤ vec_capacity list.new) }
        ensures capacity { vec_capacity list.old ≤ vec_capacity list.new }
        ensures larger { vec_capacity list.old < vec_len list.old + more →
            OnOk result (vec_capacity list.new ≡ enlarged (vec_capacity list.old) (vec_len list.old + more)) }
        ensures kept { OnErr result (vec_capacity list.new ≡ vec_capacity list.old) }
        ensures full { OnErr result (vec_capacity list.old < vec_len list.old + more) }
        ensures memory { CountsAllocFailure result self.old self.new }
        ensures fits { vec_len list.old + more ≤ vec_capacity list.old →
            IsOk result × (vec_capacity list.new ≡ vec_capacity list.old) × (self.new.asked ≡ self.old.asked) }
        ensures asked { vec_capacity list.old < vec_len list.old + more →
            self.new.asked ≡ self.old.asked + enlarged (vec_capacity list.old) (vec_len list.old + more) * type_size T.row }
    {
        self.have(list, more)
    }

    /// Like `reserve`, but makes capacity for exactly `more` more elements.
    pub fn reserve_exact<T>(&mut self, list: &mut Vec<T>, more: usize) -> Result<(), AllocFailed>
        requires size { IsModestRequest (type_size T.row) }
        requires bounded { IsModestRequest ((more - vec_len list.old) * type_size T.row) }
        ensures items { list.new.items ≡ list.old.items }
        ensures len { vec_len list.new ≡ vec_len list.old }
        ensures space { OnOk result (vec_len list.new + more ≤ vec_capacity list.new) }
        ensures exact { OnOk result (vec_capacity list.new ≡ max (vec_capacity list.old) (vec_len list.old + more)) }
        ensures kept { OnErr result (vec_capacity list.new ≡ vec_capacity list.old) }
        ensures full { OnErr result (vec_capacity list.old < vec_len list.old + more) }
        ensures memory { CountsAllocFailure result self.old self.new }
        ensures fits { vec_len list.old + more ≤ vec_capacity list.old → IsOk result × (self.new.asked ≡ self.old.asked) }
        ensures asked { vec_capacity list.old < vec_len list.old + more →
            self.new.asked ≡ self.old.asked + (vec_len list.old + more) * type_size T.row }
    {
        if more <= list.capacity() - list.len() {
            return Ok(());
        }
        self.enlarge(list, more)
    }

    /// Appends copies of the elements. Allocates if the vector has no capacity for all of them. `Err`: that
    /// allocation failed; the vector's elements are as they were.
    pub fn extend_from_slice<T: Copy>(
        &mut self,
        list: &mut Vec<T>,
        more: &[T],
    ) -> Result<(), AllocFailed>
        requires { IsModestRequest (type_size T.row) }
        ensures items { list.new.items ≡ (if is_ok result then list.old.items ++ more.now else list.old.items) }
        ensures len { vec_len list.new ≡ (if is_ok result then vec_len list.old + length more.now else vec_len list.old) }
        ensures capacity { vec_capacity list.old ≤ vec_capacity list.new }
        ensures larger { vec_capacity list.old < vec_len list.old + length more.now →
            OnOk result (enlarged (vec_capacity list.old) (vec_len list.old + length more.now) ≤ vec_capacity list.new) }
        ensures succeeds { vec_len list.old + length more.now ≤ vec_capacity list.old → IsOk result }
        ensures full { OnErr result (vec_capacity list.old < vec_len list.old + length more.now) }
        ensures memory { CountsAllocFailure result self.old self.new }
        ensures fits { vec_len list.old + length more.now ≤ vec_capacity list.old → self.new.asked ≡ self.old.asked }
        ensures asked { vec_capacity list.old < vec_len list.old + length more.now → self.new.asked
            ≡ self.old.asked + enlarged (vec_capacity list.old) (vec_len list.old + length more.now) * type_size T.row }
    {
        self.have(list, more.len())?;
        match list.extend_from_slice(more) {
            Ok(()) => Ok(()),
            Err(_) => Err(self.count_failure()),
        }
    }

    /// Makes the vector `n` elements long: it removes the last elements or appends copies of `x`. Allocates if
    /// the vector has no capacity for `n`. `Err`: that allocation failed; the elements are as they were.
    pub fn resize<T: Copy>(&mut self, list: &mut Vec<T>, n: usize, x: T) -> Result<(), AllocFailed>
        requires size { IsModestRequest (type_size T.row) }
        requires bounded { IsModestRequest ((n - 2 * vec_len list.old) * type_size T.row) }
        ensures items { list.new.items ≡ (if is_ok result then take n list.old.items ++ replicate (n - vec_len list.old) x else
            list.old.items) }
        ensures len { vec_len list.new ≡ (if is_ok result then n else vec_len list.old) }
        ensures capacity { vec_capacity list.old ≤ vec_capacity list.new }
        ensures kept { OnErr result (vec_capacity list.new ≡ vec_capacity list.old) }
        ensures full { OnErr result (vec_capacity list.old < n) }
        ensures memory { CountsAllocFailure result self.old self.new }
        ensures fits { n ≤ vec_capacity list.old → IsOk result × (self.new.asked ≡ self.old.asked) }
        ensures asked { vec_capacity list.old < n → self.new.asked ≡ self.old.asked + n * type_size T.row }
    {
        self.reserve_exact(list, n.saturating_sub(list.len()))?;
        match list.resize(n, x) {
            Ok(()) => Ok(()),
            Err(_) => Err(self.count_failure()),
        }
    }

    /// Puts a value at a key and returns the value that was at that key before. Allocates only if there was
    /// none. `Err`: that allocation failed; the map is as it was.
    pub fn put<K: Ord + Drop, V: Drop>(
        &mut self,
        map: &mut BTreeMap<K, V>,
        key: K,
        value: V,
    ) -> Result<Option<V>, AllocFailed>
        requires { IsModestRequest (type_size K.row + type_size V.row) }
        ensures old { IfOk result (λ old. old ≡ get K.cmp map.old key) }
        ensures updates { OnOk result (Updates K.cmp map.old map.new key (Some value)) }
        ensures entries { OnOk result (map.new.entries ≡ insert_entry K.cmp map.old.entries key value) }
        ensures len { IfOk result (λ old. btree_map_len map.new ≡ btree_map_len map.old + (if is_some old then 0 else 1)) }
        ensures absent { OnErr result (get K.cmp map.old key ≡ None) }
        ensures err { OnErr result (IsUnchanged map.old map.new) }
        ensures memory { CountsAllocFailure result self.old self.new }
    {
        match map.insert(key, value) {
            Ok(old) => Ok(old),
            Err(_) => Err(self.count_failure()),
        }
    }

    /// Appends `more` to a text. Allocates if the text has no capacity for all of it. `Err`: that allocation
    /// failed; the text is as it was.
    pub fn push_str(&mut self, text: &mut String, more: &str) -> Result<(), AllocFailed>
        ensures bytes { string_bytes text.new ≡ (if is_ok result then string_bytes text.old ++ more.now else string_bytes text.old) }
        ensures len { string_len text.new ≡ (if is_ok result then string_len text.old + length more.now else string_len text.old) }
        ensures full { OnErr result (string_capacity text.old < string_len text.old + length more.now) }
        ensures memory { CountsAllocFailure result self.old self.new }
    {
        match text.push_str(more) {
            Ok(()) => Ok(()),
            Err(_) => Err(self.count_failure()),
        }
    }
}

/// The number of failed allocations and the number of bytes asked for. It has no size when the program runs,
/// and its functions do nothing then.
#[derive(Drop)]
pub struct Counters {
    pub ghost failed_allocations: { ℕ },
    pub ghost asked: { ℕ },
}

impl Model for Counters {
    ghost use Rattle.std.specs.Borrow.{ftrue};

    ghost also_owns = { λ _. ftrue };
}

impl Counters {
    /// The counts before the first request: no allocation has failed, and no byte was asked for.
    pub fn none() -> Counters
        ensures { (result.failed_allocations ≡ 0) × (result.asked ≡ 0) }
    {
        Counters {}
    }

    /// The counts after one more failed allocation.
    #[inline(always)]
    pub fn one_more(&self) -> Counters
        ensures { (result.failed_allocations ≡ self.now.failed_allocations + 1) × (result.asked ≡ self.now.asked) }
    {
        Counters {}
    }

    /// The bytes of `_len` and `_more` elements of `_size` bytes each are added to the bytes asked for.
    #[inline(always)]
    pub fn asking(&self, _len: usize, _more: usize, _size: usize) -> Counters
        ensures { (result.failed_allocations ≡ self.now.failed_allocations) × (result.asked ≡ self.now.asked + (_len + _more) * _size) }
    {
        Counters {}
    }

    /// The bytes that `_other` asked for are added. The failed allocations stay the same.
    #[inline(always)]
    pub fn besides(&self, _other: &Counters) -> Counters
        ensures { (result.failed_allocations ≡ self.now.failed_allocations) × (result.asked ≡ self.now.asked + _other.now.asked) }
    {
        Counters {}
    }
}
