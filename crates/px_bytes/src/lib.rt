//! The common base for reading and writing blocks of metadata: numbers in either byte order, blocks of
//! bounded length, ranges that share no byte, the causes of a refusal, readers and writers that count their
//! failures, an output buffer, and `Memory`, which counts failed allocations. This crate knows nothing of
//! directories, types or DataSets. It opens no file and allocates only through `Memory`.
//!
//! Functions over an allocator are for callers of this crate. The program and the C library call only the
//! `_in` forms.
//!
//! ```
//! let header = b"MM\x00\x2a\x00\x00\x00\x08";
//! let block = Block::new(header).ok().ok_or("too long")?;
//! let offset = block.u32_at(Order::Most, 4).ok_or("no offset")?;
//! let mut claimed = Ranges::new(rt.alloc());
//! claimed.add(0, offset)?; // true: the bytes were free
//! claimed.add(7, 1)?; // false: the header has claimed this byte
//! let mut encoded = [0u8; 4];
//! Order::Least.put32(offset, &mut encoded);
//! let mut writer = Watched::new(Vec::new(rt.alloc()));
//! write_whole(&mut writer, &encoded).ok().ok_or("a write failed")?; // 08 00 00 00
//! ```
#![tactic(auto)]

mod blocks;
mod causes;
mod devices;
mod global;
mod growing;
mod memory;
mod numbers;
mod pending;
mod ranges;
mod read_all;

pub use blocks::{Block, LIMIT};
pub use causes::{Cause, Refusal, WriteRefusal};
pub use devices::{Device, Encode, Failed, Flushes, Sink, Source, Watched, write_whole};
pub use global::read_up_to;
pub use growing::Growing;
pub use memory::{AllocFailed, Memory};
pub use numbers::{LeastFirst, MostFirst, Order, Spelling};
pub use pending::{CAPACITY, Pending};
pub use ranges::Ranges;
pub use read_all::{ReadFault, read_up_to_in};
