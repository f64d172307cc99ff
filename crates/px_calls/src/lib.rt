//! Tests of the libraries' public calls that neither the program nor the C library makes: values built or appended by
//! hand, plans, two files in memory at once, flushes, the blocks and parts of pictures, and runs of the program over
//! files of known bytes. They are in one crate because a crate with tests is proved twice, with and without them. Neither
//! the program nor the C library uses this crate.
#![tactic(auto)]

#[cfg(test)]
mod built;
#[cfg(test)]
mod bytes_tests;
mod devices;
#[cfg(test)]
mod engine_tests;
#[cfg(test)]
mod field_tests;
#[cfg(test)]
mod iim_tests;
#[cfg(test)]
mod jobs_tests;
#[cfg(test)]
mod jpeg_tests;
#[cfg(test)]
mod layout_tests;
#[cfg(test)]
mod pictures;
#[cfg(test)]
mod pictures_tests;
#[cfg(test)]
mod runs_tests;
#[cfg(test)]
mod tree_tests;

pub use devices::KeepsBack;
