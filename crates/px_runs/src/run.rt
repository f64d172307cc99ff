// Runs the program for its arguments.
ghost use Rattle.std.specs.Prelude.{◌≡◌, drop, map, IfErr, IfOk};
ghost use Rattle.px_runs.specs.declared.job.Job.TheVariants.{Normalise};
ghost use Rattle.px_runs.specs.Endings.{Ends, IsIdle};
ghost use Rattle.px_runs.specs.Programs.{job_of, DoesRequest, EndsBeside, EndsFile, EndsFiles, EndsForm, EndsJob, EndsOther, EndsPair};
ghost use Rattle.px_runs.specs.Programs.{EndsWords, ReportsClosed, ReportsNoWords};
ghost use Rattle.px_bytes.specs.Devices.{CanCountFailure, no_calls, device_of};

use crate::job::{Job, run_compare_in, run_one_in};
use crate::lines::{print_text, report_fault};
use crate::opens::Opens;
use px_bytes::{Memory, Sink, Source, Watched};
use px_engine::{Fault, Side, VERSION};
use px_words::{OUT_IS_FILE, One, Parser, Words, parse};
use std::convert::AsStr;

/// Standard input, and standard output twice: for the normal form of standard input, and for all text.
#[derive(Drop)]
pub struct Streams<I, W, L> {
    pub input: I,
    pub out: W,
    pub lines: L,
}

/// Why there are no arguments: an allocation failed, or one of them is not text.
#[derive(Clone, Copy)]
pub enum NoWords {
    OutOfMemory,
    NotText,
}

// The arguments after the program's name.
fn after_name<S>(all: &[S]) -> &[S]
    ensures { result.now ≡ drop 1 all.now }
{
    if all.is_empty() {
        return all;
    }
    &all[1..]
}

/// Runs the program with the words of the system, of which the first is the program's name, as `run_words` does with
/// the others. Returns the exit status. If there are no words, it only writes a line to `lines`, and calls nothing
/// else: `failed: OutOfMemory` with status 4, or `refused words: they are not text` with status 3; the status is 4 if
/// that write fails.
pub fn run_given<S: AsStr + Drop, P: Parser, O: Opens, I: Source, W: Sink, L: Sink>(
    parser: &P,
    files: &mut O,
    memory: &mut Memory,
    given: Result<Vec<S>, NoWords>,
    streams: &mut Streams<I, W, L>,
) -> u8
    requires reading { CanCountFailure (I.calls streams.old.input) }
    requires writing { CanCountFailure (W.calls streams.old.out) }
    requires reporting { CanCountFailure (L.calls streams.old.lines) }
    ensures given { IfOk given (λ all. DoesRequest O.Reader.remaining O.Writer.contents O.opens O.makes O.closes
        (P.lacks parser.now) (map S.text (drop 1 all.items)) files.old files.new memory.old memory.new result
        (device_of I.calls I.bytes_left streams.old.input streams.new.input)
        (device_of W.calls W.bytes_taken streams.old.out streams.new.out)
        (device_of L.calls L.bytes_taken streams.old.lines streams.new.lines)) }
    ensures same { IfErr given (λ _. (files.new ≡ files.old) × (memory.new ≡ memory.old)
        × (streams.new.input ≡ streams.old.input) × (streams.new.out ≡ streams.old.out)) }
    ensures reported { IfErr given (λ why.
        ReportsNoWords why result (device_of L.calls L.bytes_taken streams.old.lines streams.new.lines)) }
{
    match given {
        Ok(all) => run_words(parser, files, memory, after_name(&all), streams),
        Err(NoWords::OutOfMemory) => report_fault(&mut streams.lines, Fault::OutOfMemory, None),
        Err(NoWords::NotText) => print_text(
            &mut streams.lines,
            "refused words: they are not text",
            3,
        ),
    }
}

/// Runs the program for its arguments. Returns the exit status. All text goes to `lines`, and the normal form
/// of standard input to `out`.
///
/// It opens `FILE`, then creates or empties `OUT`, then reads `FILE`, and closes `OUT` at the end. A comparison
/// opens both files before it reads either. A file that can't be opened is a failed read; one that can't be
/// created or closed is a failed write. If `OUT` is `FILE`, even by another name, the arguments are refused and the file
/// is unchanged. Without arguments it normalises standard input to `out`; otherwise it uses neither. It makes
/// no other call of the files.
pub fn run_words<'a, S: AsStr, P: Parser, O: Opens, I: Source, W: Sink, L: Sink>(
    parser: &P,
    files: &mut O,
    memory: &mut Memory,
    words: &'a [S],
    streams: &mut Streams<I, W, L>,
) -> u8
    requires reading { CanCountFailure (I.calls streams.old.input) }
    requires writing { CanCountFailure (W.calls streams.old.out) }
    requires reporting { CanCountFailure (L.calls streams.old.lines) }
    ensures { DoesRequest O.Reader.remaining O.Writer.contents O.opens O.makes O.closes
        (P.lacks parser.now) (map S.text words.entry.now) files.old files.new memory.old memory.new result
        (device_of I.calls I.bytes_left streams.old.input streams.new.input)
        (device_of W.calls W.bytes_taken streams.old.out streams.new.out)
        (device_of L.calls L.bytes_taken streams.old.lines streams.new.lines) }
{
    let asked = parse(memory, parser, words, VERSION);
    run_asked(files, memory, asked, streams)
}

// Does what the parsed arguments mean.
fn run_asked<O: Opens, I: Source, W: Sink, L: Sink>(
    files: &mut O,
    memory: &mut Memory,
    asked: Words,
    streams: &mut Streams<I, W, L>,
) -> u8
    requires reading { CanCountFailure (I.calls streams.old.input) }
    requires writing { CanCountFailure (W.calls streams.old.out) }
    requires reporting { CanCountFailure (L.calls streams.old.lines) }
    ensures { EndsWords O.Reader.remaining O.Writer.contents O.opens O.makes O.closes asked
        files.old files.new memory.old memory.new result (device_of I.calls I.bytes_left streams.old.input streams.new.input)
        (device_of W.calls W.bytes_taken streams.old.out streams.new.out)
        (device_of L.calls L.bytes_taken streams.old.lines streams.new.lines) }
{
    match asked {
        Words::Filter => run_filter(memory, streams),
        Words::One { what, file } => run_file(files, memory, what, file.as_str(), streams),
        Words::Normalise { file, out } => {
            run_form(
                files,
                memory,
                file.as_str(),
                out.as_str(),
                &mut streams.lines,
            )
        }
        Words::Compare { first, second } => {
            run_files(
                files,
                memory,
                first.as_str(),
                second.as_str(),
                &mut streams.lines,
            )
        }
        Words::Help(text) => print_text(&mut streams.lines, text.as_str(), 0),
        Words::Refused(text) => print_text(&mut streams.lines, text.as_str(), 3),
        Words::NoMemory | Words::Unread => report_fault(
            &mut streams.lines,
            Fault::OutOfMemory,
            None,
        ),
    }
}

// The job of a command with one file.
fn job_of(what: One) -> Job
    ensures { result ≡ job_of what }
{
    match what {
        One::Show => Job::Show,
        One::Check => Job::Check,
        One::Captions => Job::Captions,
    }
}

// Does a job on a file, and then lets go of its reader. Returns the exit status.
fn run_job<F: Source + Drop, W: Sink, L: Sink>(
    memory: &mut Memory,
    job: Job,
    mut reader: F,
    out: &mut W,
    lines: &mut L,
) -> u8
    requires reading { F.calls reader ≡ no_calls }
    requires writing { CanCountFailure (W.calls out.old) }
    requires reporting { CanCountFailure (L.calls lines.old) }
    ensures { EndsJob job (F.bytes_left reader) memory.old memory.new result
        (device_of W.calls W.bytes_taken out.old out.new) (device_of L.calls L.bytes_taken lines.old lines.new) }
{
    run_one_in(memory, job, &mut reader, out, lines)
}

// Compares two files, and then lets go of their readers. Returns the exit status.
fn run_pair<F: Source + Drop, S: Source + Drop, L: Sink>(
    memory: &mut Memory,
    mut first: F,
    mut second: S,
    lines: &mut L,
) -> u8
    requires first { F.calls first ≡ no_calls }
    requires second { S.calls second ≡ no_calls }
    requires reporting { CanCountFailure (L.calls lines.old) }
    ensures { EndsPair (F.bytes_left first) (S.bytes_left second)
        memory.old memory.new result (device_of L.calls L.bytes_taken lines.old lines.new) }
{
    run_compare_in(memory, &mut first, &mut second, lines)
}

// Normalises standard input to standard output.
fn run_filter<I: Source, W: Sink, L: Sink>(
    memory: &mut Memory,
    streams: &mut Streams<I, W, L>,
) -> u8
    requires reading { CanCountFailure (I.calls streams.old.input) }
    requires writing { CanCountFailure (W.calls streams.old.out) }
    requires reporting { CanCountFailure (L.calls streams.old.lines) }
    ensures { Ends Normalise (device_of I.calls I.bytes_left streams.old.input streams.new.input)
        (device_of W.calls W.bytes_taken streams.old.out streams.new.out)
        (device_of L.calls L.bytes_taken streams.old.lines streams.new.lines) memory.old memory.new result }
{
    run_one_in(
        memory,
        Job::Normalise,
        &mut streams.input,
        &mut streams.out,
        &mut streams.lines,
    )
}

// Prints something of a file.
fn run_file<O: Opens, I: Source, W: Sink, L: Sink>(
    files: &mut O,
    memory: &mut Memory,
    what: One,
    name: &str,
    streams: &mut Streams<I, W, L>,
) -> u8
    requires writing { CanCountFailure (W.calls streams.old.out) }
    requires reporting { CanCountFailure (L.calls streams.old.lines) }
    ensures input { IsIdle (device_of I.calls I.bytes_left streams.old.input streams.new.input) }
    ensures ends { EndsFile O.Reader.remaining O.Writer.contents O.opens O.makes O.closes (job_of what) name.now
        files.old files.new memory.old memory.new result (device_of W.calls W.bytes_taken streams.old.out streams.new.out)
        (device_of L.calls L.bytes_taken streams.old.lines streams.new.lines) }
{
    match files.open(name) {
        Ok(file) => {
            let reader = Watched::new(file);
            run_job(
                memory,
                job_of(what),
                reader,
                &mut streams.out,
                &mut streams.lines,
            )
        }
        Err(fault) => report_fault(&mut streams.lines, fault, None),
    }
}

// Reports that a file can't be closed, unless the job that wrote it has failed, with this status. Returns the status
// of the run.
fn report_closed<L: Sink>(closed: Result<(), Fault>, status: u8, lines: &mut L) -> u8
    requires { status ≡ 0 → CanCountFailure (L.calls lines.old) }
    ensures { ReportsClosed closed status result (device_of L.calls L.bytes_taken lines.old lines.new) }
{
    match closed {
        Ok(()) => status,
        Err(fault) => {
            if status != 0 {
                return status;
            }
            report_fault(lines, fault, None)
        }
    }
}

// Writes the normal form of an open file to another, unless both are the same file.
fn run_beside<O: Opens, L: Sink>(
    files: &mut O,
    memory: &mut Memory,
    file: O::Reader,
    out_name: &str,
    lines: &mut L,
) -> u8
    requires { CanCountFailure (L.calls lines.old) }
    ensures { EndsBeside O.Reader.remaining O.Writer.contents O.opens O.makes O.closes out_name.now file
        files.old files.new memory.old memory.new result (device_of L.calls L.bytes_taken lines.old lines.new) }
{
    match files.make_beside(out_name, &file) {
        Ok(Some(out)) => {
            let mut out = Watched::new(out);
            let status = run_job(memory, Job::Normalise, Watched::new(file), &mut out, lines);
            let closed = files.close(out.into_inner());
            report_closed(closed, status, lines)
        }
        Ok(None) => print_text(lines, OUT_IS_FILE, 3),
        Err(fault) => report_fault(lines, fault, None),
    }
}

// Writes the normal form of a file to another.
fn run_form<O: Opens, L: Sink>(
    files: &mut O,
    memory: &mut Memory,
    name: &str,
    out_name: &str,
    lines: &mut L,
) -> u8
    requires { CanCountFailure (L.calls lines.old) }
    ensures { EndsForm O.Reader.remaining O.Writer.contents O.opens O.makes O.closes name.now out_name.now
        files.old files.new memory.old memory.new result (device_of L.calls L.bytes_taken lines.old lines.new) }
{
    match files.open(name) {
        Ok(file) => run_beside(files, memory, file, out_name, lines),
        Err(fault) => report_fault(lines, fault, None),
    }
}

// Compares an open file with another.
fn run_other<O: Opens, L: Sink>(
    files: &mut O,
    memory: &mut Memory,
    file: O::Reader,
    name: &str,
    lines: &mut L,
) -> u8
    requires { CanCountFailure (L.calls lines.old) }
    ensures { EndsOther O.Reader.remaining O.Writer.contents O.opens O.makes O.closes file name.now
        files.old files.new memory.old memory.new result (device_of L.calls L.bytes_taken lines.old lines.new) }
{
    match files.open(name) {
        Ok(other) => run_pair(memory, Watched::new(file), Watched::new(other), lines),
        Err(fault) => report_fault(lines, fault, Some(Side::Second)),
    }
}

// Opens two files by their names and compares them. Returns the exit status.
fn run_files<O: Opens, L: Sink>(
    files: &mut O,
    memory: &mut Memory,
    first: &str,
    second: &str,
    lines: &mut L,
) -> u8
    requires { CanCountFailure (L.calls lines.old) }
    ensures { EndsFiles O.Reader.remaining O.Writer.contents O.opens O.makes O.closes first.now second.now
        files.old files.new memory.old memory.new result (device_of L.calls L.bytes_taken lines.old lines.new) }
{
    match files.open(first) {
        Ok(file) => run_other(files, memory, file, second, lines),
        Err(fault) => report_fault(lines, fault, Some(Side::First)),
    }
}
