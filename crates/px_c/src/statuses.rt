// The statuses of all calls. 1 is not used: it is the program's exit status for different blocks.

/// Success.
pub const DONE: u32 = 0;
/// The block has no meaning; of two blocks, the first.
pub const REFUSED: u32 = 2;
/// The normal form is longer than `LIMIT`.
pub const TOO_LONG: u32 = 3;
/// An allocation failed.
pub const NO_MEMORY: u32 = 4;
/// The caller's buffer is too short.
pub const TOO_LITTLE_ROOM: u32 = 5;
/// The second of two blocks has no meaning.
pub const SECOND_REFUSED: u32 = 6;
/// Two pictures are the same as far as they are read, and a part of the first isn't read.
pub const NOT_READ: u32 = 7;
/// Two pictures are the same as far as they are read, and a part of the second isn't read; all of the first is.
pub const SECOND_NOT_READ: u32 = 8;
/// The packet of XMP may have a meaning that another reader reads.
pub const RARE: u32 = 9;
