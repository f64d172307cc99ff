//! The runs of the program `exifnorm`, for arguments, files and streams that its caller passes: px_cli passes those of the
//! system. A run is a job on one file or a comparison of two, with its output line and exit status, and flushes after each
//! line. Files of known bytes are another choice, at which the laws have no premise on readers and writers.
//!
//! ```
//! let mut files = Named::new(rt.alloc(), &[NamedFile { name: "block", bytes: b"\x1c\x02\x78\x00\x03abc" }]);
//! let mut memory = Memory::new(rt.alloc());
//! run_words(&Clap::new(rt.alloc()), &mut files, &mut memory, &["normalise", "block", "out"], &mut streams); // 0
//! files.written(); // the normal form
//! ```
//!
//! A job opens no file and knows no command line: bytes come from any `Source`, normal forms and lines go to any `Sink`.
//!
//! ```
//! let file = b"\x1c\x02\x78\x00\x03abc"; // a caption
//! let mut memory = Memory::new(rt.alloc());
//! let mut lines = Watched::new(Vec::new(rt.alloc()));
//! let (mut reader, mut out) = (Watched::new(file.as_slice()), Watched::new(io::sink()));
//! run_one_in(&mut memory, Job::Check, &mut reader, &mut out, &mut lines); // 0: ok iim
//! let (mut first, mut second) = (Watched::new(file.as_slice()), Watched::new(b"".as_slice()));
//! run_compare_in(&mut memory, &mut first, &mut second, &mut lines); // 2: refused: UnknownKind at 0 in file 2
//! report_fault(&mut lines, Fault::ReadFailed, Some(Side::First)); // 4: failed: ReadFailed in file 1
//! print_text(&mut lines, "OUT is FILE", 3); // 3: the text and a line feed
//! ```
//!
//! A run allocates through a `Memory`, so `failed: OutOfMemory` means that an allocation failed. A line
//! allocates nothing.
#![tactic(auto)]

mod job;
pub mod laws;
mod lines;
mod named;
mod opens;
mod packets;
mod printed;
mod run;

pub use job::{Job, run_compare_in, run_one_in};
pub use lines::{print_text, report_fault};
pub use named::{KnownFiles, Named, NamedFile};
pub use opens::Opens;
pub use run::{NoWords, Streams, run_given, run_words};
