// px_runs: each line of the program is flushed, and the status reports a failed flush. No run of the program
// shows that.
use crate::built::CAPTION;
use crate::devices::KeepsBack;
use px_bytes::{Memory, Watched};
use px_runs::{Job, print_text, run_compare_in, run_one_in};
use std::io;
use std::process::Abort;

// Checks that so many bytes were taken, one flush was called, and its failure was reported.
fn check_kept_back(rt: &impl Abort, status: u8, lines: Watched<KeepsBack>, bytes: usize) {
    assert_eq!(rt; status, 4);
    let kept = lines.into_inner();
    assert_eq!(rt; kept.count, bytes);
    assert_eq!(rt; kept.flushes, 1);
}

#[test]
fn a_flush_follows_the_line_of_a_kind(rt: HostRuntime) {
    let mut memory = Memory::new(rt.alloc());
    let mut lines = Watched::new(KeepsBack::new());
    let (mut reader, mut out) = (Watched::new(CAPTION), Watched::new(io::sink()));
    let status = run_one_in(&mut memory, Job::Check, &mut reader, &mut out, &mut lines);
    check_kept_back(&rt, status, lines, 7);
}

#[test]
fn a_flush_follows_the_line_of_a_fault(rt: HostRuntime) {
    let mut memory = Memory::new(rt.alloc());
    let mut lines = Watched::new(KeepsBack::new());
    let (mut first, mut second) = (Watched::new(CAPTION), Watched::new(b"".as_slice()));
    let status = run_compare_in(&mut memory, &mut first, &mut second, &mut lines);
    check_kept_back(&rt, status, lines, 36);
}

#[test]
fn a_flush_follows_a_text(rt: HostRuntime) {
    let mut lines = Watched::new(KeepsBack::new());
    let status = print_text(&mut lines, "OUT is FILE", 3);
    check_kept_back(&rt, status, lines, 12);
}
