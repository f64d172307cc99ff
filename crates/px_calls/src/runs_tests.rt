// px_runs: the program over files of known bytes, at which the headline of its runs has no premise on readers and writers.
use crate::built::CAPTION;
use px_bytes::{Memory, Watched};
use px_runs::laws::known_outputs_decide;
use px_runs::{Named, NamedFile, Streams, run_words};
use px_words::Clap;
use std::io;
use std::test::Fail;

// `CAPTION` with a length of four bytes, and another caption.
const FILES: &[NamedFile<'static>] = &[
    NamedFile {
        name: "one",
        bytes: b"\x1c\x02\x78\x80\x04\x00\x00\x00\x03abc",
    },
    NamedFile {
        name: "same",
        bytes: CAPTION,
    },
    NamedFile {
        name: "other",
        bytes: b"\x1c\x02\x78\x00\x03abd",
    },
];

// The status of the program with these words.
fn status_of(rt: &HostRuntime, files: &mut Named, words: &[&str]) -> u8 {
    let mut streams = Streams {
        input: Watched::new(b"".as_slice()),
        out: Watched::new(io::sink()),
        lines: Watched::new(io::sink()),
    };
    let mut memory = Memory::new(rt.alloc());
    run_words(
        &Clap::new(rt.alloc()),
        files,
        &mut memory,
        words,
        &mut streams,
    )
}

#[test]
fn a_named_file_is_normalised(rt: HostRuntime) -> Result<(), Fail> {
    known_outputs_decide::<Named>();
    let mut files = Named::new(rt.alloc(), FILES);
    assert_eq!(rt; status_of(&rt, &mut files, &["normalise", "one", "out"]), 0);
    assert_eq!(rt; files.written().ok_or("nothing is written")?, CAPTION);
    assert_eq!(rt;
        status_of(&rt, &mut files, &["normalise", "other", "out"]),
        0
    );
    assert!(rt; files.written().ok_or("nothing is written")? != CAPTION);
    Ok(())
}

#[test]
fn named_files_are_compared(rt: HostRuntime) {
    let mut files = Named::new(rt.alloc(), FILES);
    assert_eq!(rt; status_of(&rt, &mut files, &["compare", "one", "same"]), 0);
    assert_eq!(rt; status_of(&rt, &mut files, &["compare", "one", "other"]), 1);
    assert_eq!(rt; status_of(&rt, &mut files, &["compare", "one", "none"]), 4);
}
