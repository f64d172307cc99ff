//! Types of fields and their values: the meaning of an entry's type, count and raw bytes (TIFF 6.0 section 2,
//! "Types", and UTF-8 of Exif 3.0).
//!
//! This crate knows no tags and no directories, reduces no fraction, checks no text, and takes FLOAT and
//! DOUBLE as bit patterns. A value borrows its raw bytes; only `append_value` and `append_value_in` allocate.
//!
//! `append_value` is over an allocator and is for callers of this crate: nothing that ships calls it.
//!
//! ```
//! let raw = [0x48, 0, 0, 0, 1, 0, 0, 0]; // 72/1, the least significant byte first
//! let value = read_value(Form::Rational, Order::Least, &raw);
//! let first = value.element(0); // Element::Rational(72, 1)
//! let mut out = Vec::new(rt.alloc());
//! append_value(Order::Most, &value, &mut out)?; // 00 00 00 48 00 00 00 01
//! let again = read_value(Form::Rational, Order::Most, &raw);
//! let same = same_value(&value, &again); // false: in the other order it is another fraction
//! let short = read_whole(Form::Short, Order::Most, &[0x0F, 0xA0]);
//! let long = read_whole(Form::Long, Order::Most, &[0, 0, 0x0F, 0xA0]);
//! let one = same_value(&short, &long); // true: the whole number 4000
//! ```
#![tactic(auto)]

mod forms;
mod global;
pub mod laws;
mod spelling;
mod turning;
mod values;

pub use forms::{Element, Form, Kind};
pub use global::append_value;
pub use spelling::append_value_in;
pub use values::{Value, read_value, read_whole, same_value};
