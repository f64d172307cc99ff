//! Laws of the definitions: the use of the footprint, and the meaning of a fault.
ghost use Rattle.px_tree.specs.FaultLaws.{OwnersOwn, FootprintCounts, FaultsDecide, FaultsBounded};

/// For any block and byte order: `owners`, a list of ranges of bytes, each with the offset of the entry or pointer
/// that refers to it (0 for the header), is without these offsets the footprint, in the same order: the header, the
/// tables, the values at offsets, the JPEG and the strips.
pub fn owners_own()
    ensures { OwnersOwn }
{}

/// If a block has a meaning (`SaysExif`), then another block that is at least as long, has at most `LIMIT` bytes,
/// 16,777,216, and is equal on the first one's footprint, has the same meaning. The footprint is the bytes of the
/// header, the tables, the values at offsets, the JPEG and the strips.
pub fn footprint_counts()
    ensures { FootprintCounts }
{}

/// The first fault of a block, by the order of the checks, is one of its faults, as each cause is defined
/// (`ExifFault`). A block with a fault has no meaning. Each block, any list of numbers, has a meaning or a first
/// fault.
pub fn faults_decide()
    ensures { FaultsDecide }
{}

/// The first fault of a block is at an offset of at most `LIMIT`, 16,777,216, however long the block is.
pub fn faults_bounded()
    ensures { FaultsBounded }
{}
