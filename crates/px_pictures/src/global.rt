// The call over the global allocator, which is one call of its `_in` form with memory of its own. It is for callers of
// this crate: nothing that ships calls it.
ghost use Rattle.std.specs.Prelude.{ℕ, IfOk, IfErr};
ghost use Rattle.px_pictures.specs.Faults.{IsPictureFault};
ghost use Rattle.px_pictures.specs.Same.{IsSameMetadata};

use crate::faults::PictureFault;
use crate::same::same_metadata_in;
use px_bytes::Memory;
use std::alloc::Global;

/// Whether two pictures have the same Exif and IPTC: equally many Exif blocks and equally many IPTC blocks, which
/// mean the same, pair by pair, in order. Each slice is a whole JPEG file or its first bytes: what follows the
/// head is not read. First both heads are read, then all blocks of the first picture are judged, then those of the
/// second, and then the meanings are compared.
///
/// Allocates what `metadata_of_in` does, and the meanings of two blocks at a time; each block is read at most
/// twice. `Head`, `TooLong`: as for `metadata_of_in`. `Block`: the first fault of the first faulty block, of which
/// `side` names the picture; its Exif blocks come before its IPTC blocks. `OutOfMemory`: an allocation failed. The
/// memory is its own: an allocation that failed is counted nowhere.
pub fn same_metadata(alloc: Global, first: &[u8], second: &[u8]) -> Result<bool, PictureFault>
    ensures same { IfOk result (IsSameMetadata first.now second.now) }
    ensures fault { IfErr result (λ e. (refused : ℕ) × IsPictureFault first.now second.now refused e) }
{
    same_metadata_in(&mut Memory::new(alloc), first, second)
}
