// Reads one directory. TIFF 6.0 section 2, "Image File Directory".
//
// `claimed` are the ranges of bytes that parts of the block read before have; to claim a range is
// to add it, and a byte in two of them is the fault `Overlap`. `Content` of a function here: the
// cause and the byte offset of the first check that fails. `OutOfMemory`: an allocation failed.
// `source` is the block with its byte order and the directory to read; `earlier` are the pointers
// to the directories read before, since one that leads to the same offset is the fault `Loop`.
ghost use Rattle.std.specs.Prelude.{◌≡◌, ◌≤◌, ◌+◌, ◌*◌, ◌++◌, List, ◌∷◌, length, true, IfOk};
ghost use Rattle.px_bytes.specs.Parts.{limit};
ghost use Rattle.px_bytes.specs.Range.{Range, range, Agrees};
ghost use Rattle.px_bytes.specs.Checks.{CountsAllocFailureInBlock, Judges};
ghost use Rattle.px_meaning.specs.Entry.{fields, table_size};
ghost use Rattle.px_meaning.specs.Directory.{entries_at};
ghost use Rattle.px_meaning.specs.Footprint.{dir_ranges};
ghost use Rattle.px_tree.specs.Checks.{opening_checks, dir_checks};
ghost use Rattle.px_tree.specs.calls.Reading.{HasTable};
ghost use Rattle.px_tree.specs.calls.Uses.{AreUses};
ghost use Rattle.px_tree.specs.calls.Linked.{offsets_of};
ghost use Rattle.px_meaning.specs.Asking.{field_bytes};
ghost use Rattle.px_tree.specs.calls.Paying.{paid, ClaimsPay, ClaimsBelow};

use crate::claiming::claim_range;
use crate::field_reading::{Entries, read_entries};
use crate::links::{Link, is_earlier};
use crate::source::BlockReader;
use crate::uses::Uses;
use px_bytes::{Cause, Memory, Ranges, Refusal};
use px_meaning::{Fields, number16, table_len};

// A directory: its fields if they are kept, its entries with a special use, its offset and its number of entries.
#[derive(Drop)]
pub struct Directory<'a> {
    pub fields: Fields<'a>,
    pub uses: Uses,
    pub at: u32,
    pub count: u16,
}

// Claims the table that the pointer `link` leads to, and returns the number of its entries.
// `Content`: `Loop`, `DirectoryOutside`, `EmptyDirectory` or `Overlap`.
fn open_table(
    memory: &mut Memory,
    source: &BlockReader,
    claimed: &mut Ranges,
    earlier: &[Option<Link>],
    link: Link,
) -> Result<u16, Refusal>
    requires bounded { length source.now.block.now ≤ limit }
    requires capacity { length source.now.block.now ≤ claimed.old.capacity }
    ensures judged { (taken : List Range) → Agrees taken claimed.old.ranges →
        Judges result (opening_checks source.now.block.now source.now.order
        (offsets_of earlier.now) taken link.place link.at)
        (λ n. Agrees (range link.at (table_size n) ∷ taken) claimed.new.ranges) }
    ensures there { IfOk result (λ n. HasTable source.now.block.now source.now.order link.at n) }
    ensures memory { CountsAllocFailureInBlock result memory.old memory.new }
    ensures table { IfOk result (λ n. memory.new.asked + paid claimed.old + n * field_bytes ≤ memory.old.asked + paid claimed.new) }
    ensures asked { ClaimsPay 0 memory.old memory.new claimed.old claimed.new }
    ensures below { ClaimsBelow (length source.now.block.now) claimed.old claimed.new }
    ensures capacity { claimed.old.capacity ≤ claimed.new.capacity }
{
    let block = source.block;
    let at = link.at;
    let place = link.place;
    if is_earlier(earlier, at) {
        return Err(Cause::Loop.at(place));
    }
    if u64::from(at) + 2 > block.len() as u64 {
        return Err(Cause::DirectoryOutside.at(place));
    }
    let count = number16(block, source.order, at);
    if count == 0 {
        return Err(Cause::EmptyDirectory.at(at));
    }
    let size = table_len(count);
    if u64::from(at) + u64::from(size) > block.len() as u64 {
        return Err(Cause::DirectoryOutside.at(place));
    }
    claim_range(memory, claimed, place, at, size)?;
    Ok(count)
}

// Reads the directory that a pointer leads to, if those at the earlier pointers were read: judges its table and its
// entries, and claims them and their values. Without its fields if none are kept. `Ok`: all checks pass, and its
// entries with a special use are kept. `Content`: the first check that fails: `Loop`, `DirectoryOutside`,
// `EmptyDirectory` or `Overlap` of the table, or one of an entry. `OutOfMemory`: an allocation failed.
pub fn read_directory<'a>(
    memory: &mut Memory,
    source: &BlockReader<'a>,
    claimed: &mut Ranges,
    earlier: &[Option<Link>],
    link: Link,
) -> Result<Directory<'a>, Refusal>
    requires bounded { length source.now.block.now ≤ limit }
    requires capacity { length source.now.block.now ≤ claimed.old.capacity }
    ensures judged { let b = source.now.block.now in let o = source.now.order in
        let d = source.now.dir in
        (taken : List Range) → Agrees taken claimed.old.ranges →
        Judges result (dir_checks b o (offsets_of earlier.now) taken link.place d link.at)
        (λ t. (source.now.keeps_fields ≡ true → t.fields ≡ fields b o d link.at)
        × Agrees (dir_ranges b o link.at ++ taken) claimed.new.ranges) }
    ensures there { let b = source.now.block.now in let o = source.now.order in
        IfOk result (λ t. (t.at ≡ link.at) × HasTable b o t.at t.count) }
    ensures uses { let b = source.now.block.now in let o = source.now.order in
        IfOk result (λ t. AreUses b o (entries_at b o t.at) (t.at + 2) t.uses) }
    ensures memory { CountsAllocFailureInBlock result memory.old memory.new }
    ensures asked { ClaimsPay 0 memory.old memory.new claimed.old claimed.new }
    ensures below { ClaimsBelow (length source.now.block.now) claimed.old claimed.new }
    ensures capacity { claimed.old.capacity ≤ claimed.new.capacity }
{
    let count = open_table(memory, source, claimed, earlier, link)?;
    let entries = read_entries(memory, source, claimed, link.at + 2, count)?;
    let Entries { fields, uses } = entries;
    Ok(Directory {
        fields,
        uses,
        at: link.at,
        count,
    })
}
