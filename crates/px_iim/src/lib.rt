//! Records of IPTC-NAA IIM 4.2: DataSets are read into groups, compared, and written in the normal form. This
//! crate decodes no character set, knows no DataSet by name, and repairs nothing.
//!
//! A record is a map from group to a list of DataSets. The order of DataSets matters only inside a group. In
//! record 2 these numbers share a group: 26 and 27; 45, 47 and 50; 80 and 85. Every other number of any
//! record has a group of its own.
//!
//! Only `Iim::push`, `read_iim`, `append_iim` and their `_in` forms allocate. An `_in` form takes a `Memory`,
//! which counts failed allocations. The other form is for callers of this crate: nothing that ships calls it.
//!
//! ```
//! let block = b"\x1c\x02\x78\x80\x04\x00\x00\x00\x03abc\x00"; // an extended length, then a zero
//! let iim = read_iim(rt.alloc(), block)?;
//! let captions = iim.group(2, 120); // one item, its data is "abc"
//! let mut again = Iim::new(rt.alloc());
//! again.push(2, 120, b"abc")?;
//! same_iim(&iim, &again); // true
//! let mut form = Vec::new(rt.alloc());
//! append_iim(&iim, &mut form)?; // 1C 02 78 00 03 61 62 63
//! ```
#![tactic(auto)]

mod dataset;
mod digits;
mod global;
mod group;
mod head;
mod iim;
pub mod laws;
mod length;
mod ordered;
mod places;
mod read;
mod same;
mod sorting;
mod survey;
mod walk;
mod write;

pub use dataset::MARKER;
pub use global::{append_iim, read_iim};
pub use group::{All, Item};
pub use iim::Iim;
pub use read::{accepts, judge_iim, read_iim_in};
pub use same::same_iim;
pub use walk::Groups;
pub use write::{append_iim_in, normal_len, put_iim, write_iim, write_iim_part};
