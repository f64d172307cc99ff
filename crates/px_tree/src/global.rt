// The call over the global allocator, which is one call of its `_in` form with memory of its own. It is for callers of
// this crate: nothing that ships calls it.
ghost use Rattle.std.specs.Prelude.{ℕ, IfOk, IfErr};
ghost use Rattle.px_meaning.specs.Writable.{IsWritable};
ghost use Rattle.px_meaning.specs.Says.{SaysExif};
ghost use Rattle.px_meaning.specs.calls.Seen.{meaning_of};
ghost use Rattle.px_tree.specs.Refused.{IsRefused};

use crate::read::read_block_in;
use px_bytes::{Block, Memory, Refusal};
use px_meaning::Meaning;
use std::alloc::Global;

/// The meaning of an Exif block. It doesn't depend on the byte order or the layout. TIFF 6.0 section 2; CIPA
/// DC-008 4.5 and 4.6.
///
/// The checks are made in this order: header; the directories main, Exif, Interoperability, GPS and thumbnail, for
/// each the table and then its entries; the thumbnail's bytes. Bytes at 0x83BB in the main directory, of type BYTE
/// or UNDEFINED, are a record if they can be read as one, and otherwise a field.
///
/// The values, the JPEG and the strips borrow the block's bytes. Allocates the fields, the record, and the claimed
/// ranges while it reads. It asks for at most eight bytes for each byte of the block, and 262,152. The cost is
/// linear in the block's length. `Content`: the cause and byte offset (at most `LIMIT`) of the block's first
/// fault; it has no meaning. `OutOfMemory`: an allocation failed. The memory is its own: an allocation that failed
/// is counted nowhere.
pub fn read_block<'a>(alloc: Global, block: Block<'a>) -> Result<Meaning<'a>, Refusal>
    ensures means { IfOk result (λ m. SaysExif block.entry (meaning_of m)) }
    ensures fits { IfOk result (λ m. IsWritable (meaning_of m)) }
    ensures refused { IfErr result (λ e. (refused : ℕ) × IsRefused block.entry refused e) }
{
    let mut memory = Memory::new(alloc);
    read_block_in(&mut memory, block)
}
