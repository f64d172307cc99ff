// The chunks of a layout.
use px_meaning::Dir;

/// A part of a block that a plan puts at a byte offset. The header is not one: it is always at 0.
#[derive(Clone, Copy, Debug, PartialEq, Eq)]
pub enum Chunk {
    /// The table of a directory.
    Table(Dir),
    /// The value at a tag of a directory, of more than four bytes.
    Placed(Dir, u16),
    /// The thumbnail's JPEG.
    Jpeg,
    /// A strip of the thumbnail, counted from 0.
    Strip(u32),
}
