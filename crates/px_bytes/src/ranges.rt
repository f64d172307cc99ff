// The ranges that a block claims, none of which share a byte.
ghost use Rattle.std.specs.Prelude.{◌≡◌, ◌⊎◌, ◌<◌, ◌≤◌, ◌+◌, ◌*◌, List, [], ◌∷◌, true, false, IfOk, IsOk, OnErr, ℕ, ◌/◌, ◌-◌, ◌^◌, length};
ghost use Rattle.std.specs.Prelude.{get_or, max, vec_capacity, OnOk};
ghost use Rattle.px_bytes.specs.Parts.{limit};
ghost use Rattle.px_bytes.specs.Allocations.{CountsAllocFailure, AsksAtMost, IsModestRequest};
ghost use Rattle.px_bytes.specs.Claimed.{IsFree, IsTaken, Takes, reach, claimed_bytes, mark_bytes};
ghost use Rattle.px_bytes.specs.Range.{Range, range, is_free, Agrees};
ghost use Rattle.px_bytes.specs.calls.Marks.{IsClear, HasOne, SameMarks, MarksRange};

use crate::memory::{AllocFailed, Memory};
use std::marker::Model;

/// A set of ranges of bytes. No range is empty, and no two share a byte. Contracts see the start and end of
/// each, the last one first, and up to which byte a range can be claimed without an allocation. Allocates a bit
/// for each byte up to the last end.
#[derive(Drop)]
pub struct Ranges {
    // A bit for each byte: set if a range claims it.
    pub(crate) marks: Vec<u64>,
    listed: Listed,
}

impl Model for Ranges {
    ghost use Rattle.std.specs.Prelude.{◌≡◌, length, ◌*◌, vec_capacity};
    ghost use Rattle.px_bytes.specs.Claimed.{Claims, AreApart, reach, mark_bytes};
    ghost use Rattle.px_bytes.specs.calls.Marked.{Marked, Once};

    ghost Value = { Claims };

    ghost view = { λ r. record { ranges = r.listed.ranges; capacity = 64 * vec_capacity r.marks } };

    // Each range has a byte, no two share one, and exactly their bytes are marked. There are no more words of
    // marks than the last claimed byte needs.
    ghost invariant = { λ r. AreApart r.listed.ranges × Marked r.listed.ranges r.marks.items
        × Once r.listed.ranges r.marks.items × (8 * length r.marks.items ≡ mark_bytes (reach r.listed.ranges)) };
}

impl Ranges {
    /// The empty set. Later calls use the allocator of `memory`. It allocates nothing.
    pub fn new_in(memory: &Memory) -> Ranges
        ensures { result.ranges ≡ [] }
    {
        Ranges {
            marks: memory.list(),
            listed: Listed::new(),
        }
    }

    /// The empty set, for the ranges of a block of `len` bytes, at most `LIMIT`: it requests one bit for each of
    /// these bytes at once. `Err`: the allocation failed.
    pub fn with_capacity_in(memory: &mut Memory, len: u32) -> Result<Ranges, AllocFailed>
        requires { len ≤ limit }
        ensures none { IfOk result (λ claimed. claimed.ranges ≡ []) }
        ensures space { IfOk result (λ claimed. len ≤ claimed.capacity) }
        ensures memory { CountsAllocFailure result memory.old memory.new }
        ensures asked { AsksAtMost (mark_bytes len) memory.old memory.new }
    {
        let marks = with_capacity(memory, len as usize)?;
        Ok(Ranges {
            marks,
            listed: Listed::new(),
        })
    }

    /// Whether no claimed range has a byte from `start` up to `end`, offsets from the block's first byte; if not,
    /// some range has one. It reads one word for each 64 of these bytes and allocates nothing.
    pub fn are_free(&self, start: u32, end: u32) -> bool
        ensures free { result ≡ true → IsFree self.now.ranges start end }
        ensures taken { result ≡ false → IsTaken self.now.ranges start end }
    {
        if end <= start {
            return true;
        }
        are_clear(&self.marks, start as usize, end as usize)
    }

    /// Claims the `len` bytes at offset `start` and returns true, or returns false and changes nothing if one
    /// of them is claimed already. An empty range always returns true and is not added. The cost is one word
    /// for each 64 bytes, however many ranges there are. `Err`: an allocation failed, and nothing has
    /// changed.
    pub fn add_in(&mut self, memory: &mut Memory, start: u32, len: u32) -> Result<bool, AllocFailed>
        requires { start + len ≤ limit }
        ensures free { IfOk result (λ free. free ≡ true → IsFree self.old.ranges start (start + len)) }
        ensures taken { IfOk result (λ free. free ≡ false → IsTaken self.old.ranges start (start + len)) }
        ensures claimed { IfOk result (λ free. free ≡ true → 0 < len →
            Takes self.old.ranges self.new.ranges start (start + len)) }
        ensures same { IfOk result (λ free. (free ≡ false) ⊎ (len ≡ 0) → self.new ≡ self.old) }
        ensures err { OnErr result (self.new ≡ self.old) }
        ensures needed { OnErr result (0 < len × IsFree self.old.ranges start (start + len)) }
        ensures memory { CountsAllocFailure result memory.old memory.new }
        ensures first { IfOk result (λ free. free ≡ true → 0 < len → self.new.ranges ≡ (start, start + len) ∷ self.old.ranges) }
        ensures space { self.old.capacity ≤ self.new.capacity }
        ensures fits { start + len ≤ self.old.capacity → IsOk result × (memory.new.asked ≡ memory.old.asked) }
        ensures asked { AsksAtMost (2 * mark_bytes (start + len) + 16) memory.old memory.new }
        ensures within { IfOk result (λ free. free ≡ true → 0 < len → claimed_bytes self.new.ranges ≤ reach self.new.ranges) }

        // The same for any list of ranges that leaves the same bytes free.
        ensures listed { (taken : List Range) → Agrees taken self.old.ranges →
            IfOk result (λ free. (free ≡ is_free taken (range start len))
            × (free ≡ true → Agrees (range start len ∷ taken) self.new.ranges)) }
    {
        if len == 0 {
            return Ok(true);
        }
        let end = start + len;
        if !put(memory, &mut self.marks, start as usize, end as usize)? {
            return Ok(false);
        }
        let listed = self.listed.with(start, end);
        self.listed = listed;
        Ok(true)
    }
}

// The claimed ranges, which only proofs read: each with its start and end, the last one first. It has no bytes at
// run time, and its calls do nothing.
#[derive(Drop)]
struct Listed {
    pub ghost ranges: { List (ℕ × ℕ) },
}

impl Model for Listed {
    ghost use Rattle.std.specs.Borrow.{ftrue};

    ghost also_owns = { λ _. ftrue };
}

impl Listed {
    // The empty list.
    fn new() -> Listed
        ensures { result.ranges ≡ [] }
    {
        Listed {}
    }

    // The list with one range more.
    #[inline(always)]
    fn with(&self, _start: u32, _end: u32) -> Listed
        ensures { result.ranges ≡ (_start, _end) ∷ self.now.ranges }
    {
        Listed {}
    }
}

// The bits of a word.
const WIDTH: usize = 64;

// A word with the bits from `low` up to `high` set.
#[inline(always)]
fn bits(low: usize, high: usize) -> u64
    requires some { low < high }
    requires bound { high ≤ 64 }
    ensures { result ≡ 2 ^ high - 2 ^ low }
{
    (u64::MAX >> (WIDTH - high)) - ((1 << low) - 1)
}

// The word at an index, or 0 past the end of the list: bytes there are not claimed.
#[inline(always)]
fn word_at(words: &[u64], at: usize) -> u64
    ensures { result ≡ get_or words.now at 0 }
{
    match words.get(at) {
        Some(word) => *word,
        None => 0,
    }
}

// Whether no bit from `low` up to `high` is set in the word at index `at`.
#[inline(always)]
fn is_word_clear(words: &[u64], at: usize, low: usize, high: usize) -> bool
    requires some { low < high }
    requires bound { high ≤ 64 }
    ensures clear { result ≡ true → IsClear words.now (at * 64 + low) (at * 64 + high) }
    ensures marked { result ≡ false → HasOne words.now (at * 64 + low) (at * 64 + high) }
{
    word_at(words, at) & bits(low, high) == 0
}

// Whether the words from index `from` up to `to` are all 0.
fn are_words_clear(words: &[u64], from: usize, to: usize) -> bool
    ensures clear { result ≡ true → IsClear words.now (from * 64) (to * 64) }
    ensures marked { result ≡ false → HasOne words.now (from * 64) (to * 64) }
{
    let end = to.min(words.len());
    let mut at = from;
    while at < end {
        if !is_word_clear(words, at, 0, WIDTH) {
            return false;
        }
        at += 1;
    }
    true
}

// Whether no bit from `start` up to `end` is set. It reads only the words that have one of these bits.
fn are_clear(words: &[u64], start: usize, end: usize) -> bool
    requires { start < end }
    ensures clear { result ≡ true → IsClear words.now start end }
    ensures marked { result ≡ false → HasOne words.now start end }
{
    let first = start / WIDTH;
    let last = (end - 1) / WIDTH;
    let high = (end - 1) % WIDTH + 1;
    if first == last {
        return is_word_clear(words, first, start % WIDTH, high);
    }
    is_word_clear(words, first, start % WIDTH, WIDTH)
        && are_words_clear(words, first + 1, last)
        && is_word_clear(words, last, 0, high)
}

// No bits set, with space for each before `end`: no call of `put` up to there allocates.
fn with_capacity(memory: &mut Memory, end: usize) -> Result<Vec<u64>, AllocFailed>
    requires { IsModestRequest end }
    ensures none { IfOk result (λ words. words.items ≡ []) }
    ensures space { IfOk result (λ words. end ≤ vec_capacity words * 64) }
    ensures memory { CountsAllocFailure result memory.old memory.new }
    ensures asked { AsksAtMost (mark_bytes end) memory.old memory.new }
{
    let mut words = memory.list();
    memory.reserve_exact(&mut words, end.div_ceil(WIDTH))?;
    Ok(words)
}

// Makes space for each bit before `end`.
fn reserve(memory: &mut Memory, words: &mut Vec<u64>, end: usize) -> Result<(), AllocFailed>
    requires { IsModestRequest end }
    ensures same { SameMarks words.old.items words.new.items }
    ensures space { OnOk result (end ≤ length words.new.items * 64) }
    ensures most { length words.new.items * 64 < max (length words.old.items * 64) end + 64 }
    ensures err { OnErr result (words.new.items ≡ words.old.items) }
    ensures memory { CountsAllocFailure result memory.old memory.new }
    ensures len { OnOk result (length words.new.items ≡ max (length words.old.items) ((end + 63) / 64)) }
    ensures capacity { vec_capacity words.old ≤ vec_capacity words.new }
    ensures kept { OnErr result (vec_capacity words.new ≡ vec_capacity words.old) }
    ensures fits { end ≤ vec_capacity words.old * 64 → IsOk result × (memory.new.asked ≡ memory.old.asked) }
    ensures asked { AsksAtMost (2 * mark_bytes end + 16) memory.old memory.new }
{
    let len = end.div_ceil(WIDTH);
    if len <= words.len() {
        return Ok(());
    }
    memory.reserve(words, len - words.len())?;
    memory.resize(words, len, 0)
}

// Sets the bits from `low` up to `high` in the word at index `at`.
#[inline(always)]
fn put_in_word(words: &mut [u64], at: usize, low: usize, high: usize)
    requires space { at < length words.old }
    requires some { low < high }
    requires bound { high ≤ 64 }
    ensures puts { MarksRange words.old words.new (at * 64 + low) (at * 64 + high) }
    ensures space { length words.new ≡ length words.old }
{
    words[at] |= bits(low, high);
}

// Sets all bits of the words from index `from` up to `to`.
fn put_words(words: &mut [u64], from: usize, to: usize)
    requires order { from ≤ to }
    requires space { to ≤ length words.old }
    ensures puts { MarksRange words.old words.new (from * 64) (to * 64) }
    ensures space { length words.new ≡ length words.old }
{
    let mut at = from;
    while at < to {
        put_in_word(words, at, 0, WIDTH);
        at += 1;
    }
}

// Sets each bit from `start` up to `end`. It writes only the words that have one of these bits.
fn put_all(words: &mut [u64], start: usize, end: usize)
    requires some { start < end }
    requires space { end ≤ length words.old * 64 }
    ensures { MarksRange words.old words.new start end }
{
    let first = start / WIDTH;
    let last = (end - 1) / WIDTH;
    let high = (end - 1) % WIDTH + 1;
    if first == last {
        put_in_word(words, first, start % WIDTH, high);
        return;
    }
    put_in_word(words, first, start % WIDTH, WIDTH);
    put_words(words, first + 1, last);
    put_in_word(words, last, 0, high);
}

// Like `put`, which calls it if bits are set, are in more than one word, or in a word that doesn't exist yet.
#[inline(never)]
fn put_far(
    memory: &mut Memory,
    words: &mut Vec<u64>,
    start: usize,
    end: usize,
) -> Result<bool, AllocFailed>
    requires some { start < end }
    requires bounded { IsModestRequest end }
    ensures free { IfOk result (λ free. free ≡ true → IsClear words.old.items start end) }
    ensures puts { IfOk result (λ free. free ≡ true → MarksRange words.old.items words.new.items start end) }
    ensures taken { IfOk result (λ free. free ≡ false → HasOne words.old.items start end) }
    ensures same { IfOk result (λ free. free ≡ false →
        (words.new.items ≡ words.old.items) × (vec_capacity words.new ≡ vec_capacity words.old)) }
    ensures err { OnErr result ((words.new.items ≡ words.old.items) × (vec_capacity words.new ≡ vec_capacity words.old)) }
    ensures needed { OnErr result (IsClear words.old.items start end) }
    ensures memory { CountsAllocFailure result memory.old memory.new }
    ensures len { IfOk result (λ free. free ≡ true → length words.new.items ≡ max (length words.old.items) ((end + 63) / 64)) }
    ensures capacity { vec_capacity words.old ≤ vec_capacity words.new }
    ensures fits { end ≤ vec_capacity words.old * 64 → IsOk result × (memory.new.asked ≡ memory.old.asked) }
    ensures asked { AsksAtMost (2 * mark_bytes end + 16) memory.old memory.new }
{
    if !are_clear(words, start, end) {
        return Ok(false);
    }
    reserve(memory, words, end)?;
    put_all(words, start, end);
    Ok(true)
}

// Sets the bits from `low` up to `high` in the word at index `at` if none of them is set. Returns whether
// none was.
#[inline(always)]
fn put_near(words: &mut [u64], at: usize, low: usize, high: usize) -> bool
    requires space { at < length words.old }
    requires some { low < high }
    requires bound { high ≤ 64 }
    ensures free { result ≡ true → IsClear words.old (at * 64 + low) (at * 64 + high) }
    ensures puts { result ≡ true → MarksRange words.old words.new (at * 64 + low) (at * 64 + high) }
    ensures taken { result ≡ false → HasOne words.old (at * 64 + low) (at * 64 + high) }
    ensures same { result ≡ false → words.new ≡ words.old }
    ensures len { length words.new ≡ length words.old }
{
    if !is_word_clear(words, at, low, high) {
        return false;
    }
    put_in_word(words, at, low, high);
    true
}

// Sets each bit from `start` up to `end` if a word that exists has them all, and none is set. Returns whether
// it did.
#[inline(always)]
fn put_in_one(words: &mut [u64], start: usize, end: usize) -> bool
    requires some { start < end }
    ensures free { result ≡ true → IsClear words.old start end }
    ensures puts { result ≡ true → MarksRange words.old words.new start end }
    ensures same { result ≡ false → words.new ≡ words.old }
    ensures len { result ≡ true → length words.new ≡ max (length words.old) ((end + 63) / 64) }
{
    let at = start / WIDTH;
    let last = (end - 1) / WIDTH;
    if at < last || words.len() <= at {
        return false;
    }
    put_near(words, at, start % WIDTH, (end - 1) % WIDTH + 1)
}

// Sets each bit from `start` up to `end` if none of them is set, and returns whether none was. It reads only
// the words that have one of these bits: for most calls this is a single word, which exists.
#[inline(always)]
fn put(
    memory: &mut Memory,
    words: &mut Vec<u64>,
    start: usize,
    end: usize,
) -> Result<bool, AllocFailed>
    requires some { start < end }
    requires bounded { IsModestRequest end }
    ensures free { IfOk result (λ free. free ≡ true → IsClear words.old.items start end) }
    ensures puts { IfOk result (λ free. free ≡ true → MarksRange words.old.items words.new.items start end) }
    ensures taken { IfOk result (λ free. free ≡ false → HasOne words.old.items start end) }
    ensures same { IfOk result (λ free. free ≡ false →
        (words.new.items ≡ words.old.items) × (vec_capacity words.new ≡ vec_capacity words.old)) }
    ensures err { OnErr result ((words.new.items ≡ words.old.items) × (vec_capacity words.new ≡ vec_capacity words.old)) }
    ensures needed { OnErr result (IsClear words.old.items start end) }
    ensures memory { CountsAllocFailure result memory.old memory.new }
    ensures len { IfOk result (λ free. free ≡ true → length words.new.items ≡ max (length words.old.items) ((end + 63) / 64)) }
    ensures capacity { vec_capacity words.old ≤ vec_capacity words.new }
    ensures fits { end ≤ vec_capacity words.old * 64 → IsOk result × (memory.new.asked ≡ memory.old.asked) }
    ensures asked { AsksAtMost (2 * mark_bytes end + 16) memory.old memory.new }
{
    // The usual result is a constant here, so that no caller looks at it again.
    if put_in_one(words, start, end) {
        return Ok(true);
    }
    put_far(memory, words, start, end)
}
