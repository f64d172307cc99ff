//! Parses the program's command line: its arguments select standard input, files, the help text or the
//! version, or are refused. clap matches them. This crate opens no file, writes nothing, and knows nothing of
//! the content of files.
//!
//! ```
//! let (mut memory, clap) = (Memory::new(rt.alloc()), Clap::new(rt.alloc()));
//! parse(&mut memory, &clap, &["check", "a"], "1.0.0"); // One, with Check and the file a
//! parse(&mut memory, &clap, &["normalise", "a", "b"], "1.0.0"); // Normalise, with the files a and b
//! parse(&mut memory, &clap, &["normalise", "a", "a"], "1.0.0"); // Refused: OUT_IS_FILE
//! parse(&mut memory, &clap, &["--version"], "1.0.0"); // Help: exifnorm 1.0.0
//! ```
#![tactic(auto)]

mod grammar;
mod parser;
mod texts;
mod words;

pub use parser::{Clap, Parser};
pub use words::{OUT_IS_FILE, One, Text, Words, commands_are_taken, files_are_matched, parse};
