//! Plans: all blocks with a given Exif meaning, not only the normal form. `plan_normal` is the layout of the
//! normal form, `is_legal` judges any other, and `write_with` lays out a block in either byte order. The
//! program and the C library don't use this crate. It shows that the definitions of a layout can be met, and
//! tests use it to make blocks.
//!
//! Functions over an allocator are for callers of this crate: nothing that ships calls them.
//!
//! ```
//! let plan = plan_normal(rt.alloc(), &meaning)?;
//! plan.offset(Chunk::Table(Dir::Main)); // Some(8)
//! is_legal(rt.alloc(), &meaning, &plan)?; // true
//! write_with(rt.alloc(), &meaning, &plan, Order::Least, 0)?; // a block with the meaning
//! ```
#![tactic(auto)]

mod building;
mod global;
mod keyed;
mod layout;
mod legal;
mod normal;
mod offsets;
mod plan;
mod put_item;
mod put_table;
mod reading;
mod sizing;
mod with_plan;

pub use global::{is_legal, plan_normal, write_with};
pub use legal::is_legal_in;
pub use normal::plan_normal_in;
pub use plan::Plan;
pub use px_layout::Chunk;
pub use reading::read_back_in;
pub use with_plan::write_with_in;
