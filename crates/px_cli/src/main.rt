//! The program `exifnorm`: it prints the meaning of a block of Exif or IPTC (IIM) metadata, compares two
//! blocks, and writes a block's normal form. It opens no picture file, edits no metadata, repairs nothing,
//! and writes nothing to standard error. Of XMP it prints packets, which are in files of their own, and no more.
//!
//! ```text
//! exifnorm < block > normal           # the normal form of a block
//! exifnorm show block                 # the meaning of a block, a line for each field
//! exifnorm check block                # its kind, or why it is refused
//! exifnorm captions block             # its captions, names, keywords and rights
//! exifnorm normalise block normal     # the normal form, from file to file
//! exifnorm compare first second       # whether two blocks mean the same
//! ```
#![tactic(auto)]

mod files;

use crate::files::System;
use px_bytes::{Memory, Watched};
use px_runs::{NoWords, Streams, run_given};
use px_words::Clap;
use std::io::ErrorKind;
use std::process::ExitCode;
use std::{env, io};

// The words of the system, of which the first is the program's name. No contract of std describes them.
fn given(rt: &HostRuntime) -> Result<Vec<String>, NoWords> {
    match env::args(rt) {
        Ok(args) => match args.collect(rt.alloc()) {
            Ok(all) => Ok(all),
            Err(_) => Err(NoWords::OutOfMemory),
        },
        Err(error) if error.kind() == ErrorKind::OutOfMemory => Err(NoWords::OutOfMemory),
        Err(_) => Err(NoWords::NotText),
    }
}

// Runs the program with the system's words, files and standard streams, and with new memory.
fn main(rt: HostRuntime) -> ExitCode {
    let clap = Clap::new(rt.alloc());
    let mut files = System::new(&rt);
    let mut memory = Memory::new(rt.alloc());
    let mut streams = Streams {
        input: Watched::new(rt.reader()),
        out: Watched::new(io::writer(&rt)),
        lines: Watched::new(io::writer(&rt)),
    };
    ExitCode::from(run_given(&clap, &mut files, &mut memory, given(&rt), &mut streams))
}
