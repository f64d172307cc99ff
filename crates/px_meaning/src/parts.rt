// The parts of a block, and the numbers in them. TIFF 6.0 section 2, "Image File Header", "Types" and "Value/Offset".
ghost use Rattle.std.specs.Prelude.{◌≡◌, ◌≤◌, ◌+◌, ◌-◌, length};
ghost use Rattle.px_bytes.specs.Parts.{part};
ghost use Rattle.px_meaning.specs.Entry.{short, long, needs_place, table_size};
ghost use Rattle.px_meaning.specs.Directory.{magic};

use px_bytes::Order;

/// The `len` bytes of a block at an offset.
pub fn part_of<'a>(block: &'a [u8], at: u32, len: u32) -> &'a [u8]
    requires { at + len ≤ length block.now }
    ensures { result.now ≡ part block.now at len }
{
    let from = at as usize;
    &block[from..from + len as usize]
}

// The bytes of a block between two offsets.
pub fn bytes_between(block: &[u8], start: usize, end: usize) -> &[u8]
    requires rising { start ≤ end }
    requires inside { end ≤ length block.now }
    ensures { result.now ≡ part block.now start (end - start) }
{
    &block[start..end]
}

/// The number in the two bytes at an offset.
pub fn number16(block: &[u8], order: Order, at: u32) -> u16
    requires { at + 2 ≤ length block.now }
    ensures { result ≡ short order (part block.now at 2) }
{
    let from = at as usize;
    order.get16(&block[from..from + 2])
}

/// The number in the four bytes at an offset.
pub fn number32(block: &[u8], order: Order, at: u32) -> u32
    requires { at + 4 ≤ length block.now }
    ensures { result ≡ long order (part block.now at 4) }
{
    let from = at as usize;
    order.get32(&block[from..from + 4])
}

/// The length in bytes of a table of so many entries.
pub fn table_len(entries: u16) -> u32
    ensures { result ≡ table_size entries }
{
    2 + 12 * u32::from(entries) + 4
}

/// The first four bytes of a block in a byte order: "II" or "MM", and 42 in that order.
pub fn magic_of(order: Order) -> [u8; 4]
    ensures { result ≡ magic order }
{
    match order {
        Order::Least => [0x49, 0x49, 0x2A, 0],
        Order::Most => [0x4D, 0x4D, 0, 0x2A],
    }
}

/// Whether a value of `len` bytes is at an offset, because it doesn't fit into its entry.
pub fn needs_place(len: u64) -> bool
    ensures { result ≡ needs_place len }
{
    len > 4
}
