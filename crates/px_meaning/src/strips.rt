// The strips of a thumbnail.
ghost use Rattle.std.specs.Prelude.{◌≡◌, ◌<◌, ◌≤◌, ◌+◌, [], ◌∷◌, ◌++◌, length, map, slice_get, Some, OnOk, OnErr, IsTrue, ◌↔◌, IfSome};
ghost use Rattle.px_bytes.specs.Allocations.{CountsAllocFailure, AsksAtMost};
ghost use Rattle.px_meaning.specs.Asking.{strip_request};
ghost use Rattle.px_meaning.specs.calls.Strips.{AreNamed, AreJoined, named_strips, longs};

use crate::strip_lists::{StripLists, long_sizes, strip_at, strip_len};
use crate::strip_runs::{StripRun, run_in};
use px_bytes::{AllocFailed, Memory};
use px_field::Value;
use std::marker::Model;

/// The strips of an uncompressed thumbnail, in the order of the lists that name them: slices of the block
/// that was read. TIFF 6.0 section 8, "StripOffsets" and "StripByteCounts". Reading them allocates nothing:
/// the block has their lists.
#[derive(Drop)]
pub struct Strips<'a> {
    // The strips that a block names, followed by those that were pushed.
    named: Option<StripLists<'a>>,
    pub(crate) list: Vec<&'a [u8]>,
}

impl<'a> Model for Strips<'a> {
    ghost use Rattle.std.specs.Prelude.{List, ℕ, ◌++◌, map, IfSome};
    ghost use Rattle.px_meaning.specs.calls.Strips.{AreNamed, named_strips};

    ghost Value = { List (List ℕ) };

    ghost view = { λ s. named_strips s.named ++ map (λ x. x.now) s.list.items };

    ghost invariant = { λ s. IfSome s.named AreNamed };
}

impl<'a> Strips<'a> {
    /// No strips. Later calls allocate in that memory. Allocates nothing.
    pub fn new_in(memory: &Memory) -> Strips<'a>
        ensures { result ≡ [] }
    {
        Strips {
            named: None,
            list: memory.list(),
        }
    }

    /// The strips that a block names by two lists, of their offsets and of their lengths. Allocates nothing.
    pub fn of_lists(memory: &Memory, lists: StripLists<'a>) -> Strips<'a>
        requires { AreNamed lists }
        ensures { result ≡ named_strips (Some lists.entry) }
    {
        Strips {
            named: Some(lists),
            list: memory.list(),
        }
    }

    /// Appends a strip. Allocates if the list has no capacity for it. `Err`: an allocation failed; the strips
    /// are as they were.
    pub fn push_in(&mut self, memory: &mut Memory, strip: &'a [u8]) -> Result<(), AllocFailed>
        ensures ok { OnOk result (self.new ≡ self.old ++ strip.now ∷ []) }
        ensures err { OnErr result (self.new ≡ self.old) }
        ensures memory { CountsAllocFailure result memory.old memory.new }
        ensures asked { AsksAtMost (strip_request (length self.old)) memory.old memory.new }
    {
        memory.push(&mut self.list, strip)?;
        Ok(())
    }

    /// The number of strips. Allocates nothing.
    pub fn len(&self) -> usize
        ensures { result ≡ length self.now }
    {
        let Some(lists) = &self.named else {
            return self.list.len();
        };
        lists.starts.count() as usize + self.list.len()
    }

    /// Whether there are no strips. Allocates nothing.
    pub fn is_empty(&self) -> bool
        ensures { IsTrue result ↔ (self.now ≡ []) }
    {
        self.len() == 0
    }

    /// The bytes of the strip at `i`, counted from 0; `i` is less than `len`. Allocates nothing.
    pub fn at(&self, i: usize) -> &'a [u8]
        requires { i < length self.now }
        ensures { slice_get self.now i ≡ Some result.now }
    {
        let Some(lists) = &self.named else {
            return self.list[i];
        };
        let count = lists.starts.count();
        if i < count as usize {
            return strip_at(lists, i as u32);
        }
        self.list[i - count as usize]
    }

    /// The length in bytes of the strip at `i`; `i` is less than `len`. It reads one number, and `at` reads two.
    /// Allocates nothing.
    pub fn len_at(&self, i: usize) -> usize
        requires { i < length self.now }
        ensures { slice_get (map (λ x. length x) self.now) i ≡ Some result }
    {
        if let Some(lists) = &self.named {
            if i < lists.starts.count() as usize {
                return strip_len(lists, i as u32) as usize;
            }
        }
        self.at(i).len()
    }

    /// If there is a result, it is a value of LONGs: the lengths in bytes of all strips, in order. When there is one
    /// is not stated: `None` comes if the block's StripByteCounts are SHORTs, if no block names the strips, and if
    /// strips were pushed. Allocates nothing.
    pub fn long_lengths(&self) -> Option<&Value<'a>>
        ensures { IfSome result (λ v. v.now ≡ longs (map (λ x. length x) self.now)) }
    {
        if !self.list.is_empty() {
            return None;
        }
        match &self.named {
            Some(lists) => long_sizes(lists),
            None => None,
        }
    }

    /// The strip at `i`, and perhaps some after it that can be written together with it: `count`
    /// strips, at least one and no more than are left, and their bytes, one after another. Padding
    /// `bytes` once to an even length gives the same as padding each of these strips. How many
    /// strips a call returns is not stated: those of an even length that follow one another
    /// directly in the block. `i` is less than `len`. Allocates nothing.
    pub fn run_at(&self, i: usize) -> StripRun<'a>
        requires { i < length self.now }
        ensures some { 0 < result.count }
        ensures inside { i + result.count ≤ length self.now }
        ensures bytes { AreJoined self.now i (i + result.count) result.bytes.now }
    {
        if let Some(lists) = &self.named {
            if i < lists.starts.count() as usize {
                return run_in(lists, i as u32);
            }
        }
        StripRun {
            bytes: self.at(i),
            count: 1,
        }
    }
}
