// The input for reading a directory.
use px_bytes::Order;
use px_meaning::Dir;

// A block, its byte order, the directory to read, and whether its fields are kept. A check keeps none.
#[derive(Clone, Copy)]
pub struct BlockReader<'a> {
    pub block: &'a [u8],
    pub order: Order,
    pub dir: Dir,
    pub keeps_fields: bool,
}
