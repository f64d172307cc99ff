// Output lines and exit statuses.
ghost use Rattle.std.specs.Prelude.{◌≡◌, ◌++◌, None};
ghost use Rattle.px_bytes.specs.Devices.{CanCountFailure, device_of, Sends};
ghost use Rattle.px_bytes.specs.Waiting.{Adds};
ghost use Rattle.px_engine.specs.declared.Fault.TheVariants.{Refused};
ghost use Rattle.px_runs.specs.Lines.{FlushesLast, end_of, line_of, status_of, Reports, ReportsFault, ReportsWords, is_ended};
ghost use Rattle.px_runs.specs.calls.Flushing.{Flushes};

use itoa::Buffer;
use px_bytes::{CAPACITY, Cause, Failed, Pending, Sink, write_whole};
use px_engine::{Fault, Side};

// The end of a line: for a comparison, the file that it is about.
fn ending(file: Option<Side>) -> &'static [u8]
    ensures { result.now ≡ end_of file }
{
    match file {
        None => b"\n",
        Some(Side::First) => b" in file 1\n",
        Some(Side::Second) => b" in file 2\n",
    }
}

// Adds the line of a refusal to the output buffer.
fn put_refusal<L: Sink>(
    pending: &mut Pending<'_>,
    lines: &mut L,
    cause: Cause,
    place: u32,
    file: Option<Side>,
) -> Result<(), Failed>
    requires { CanCountFailure (L.calls lines.old) }
    ensures { Adds result (device_of L.calls L.bytes_taken lines.old lines.new) pending.old pending.new
        (line_of (Refused cause place) file) }
{
    let mut digits = Buffer::new();
    pending.put(lines, b"refused: ")?;
    pending.put(lines, cause.name())?;
    pending.put(lines, b" at ")?;
    pending.put(lines, digits.format(place).as_bytes())?;
    pending.put(lines, ending(file))
}

// Adds a text and the end of its line.
fn put_ended<L: Sink>(
    pending: &mut Pending<'_>,
    lines: &mut L,
    text: &[u8],
    file: Option<Side>,
) -> Result<(), Failed>
    requires { CanCountFailure (L.calls lines.old) }
    ensures { Adds result (device_of L.calls L.bytes_taken lines.old lines.new) pending.old pending.new (text.now ++ end_of file) }
{
    pending.put(lines, text)?;
    pending.put(lines, ending(file))
}

// Adds the line of a fault.
fn put_line<L: Sink>(
    pending: &mut Pending<'_>,
    lines: &mut L,
    fault: Fault,
    file: Option<Side>,
) -> Result<(), Failed>
    requires { CanCountFailure (L.calls lines.old) }
    ensures { Adds result (device_of L.calls L.bytes_taken lines.old lines.new) pending.old pending.new (line_of fault file) }
{
    match fault {
        Fault::Refused { cause, place } => put_refusal(pending, lines, cause, place, file),
        Fault::NormalTooLong => put_ended(pending, lines, b"refused: NormalTooLong", file),
        Fault::OutOfMemory => put_ended(pending, lines, b"failed: OutOfMemory", file),
        Fault::ReadFailed => put_ended(pending, lines, b"failed: ReadFailed", file),
        Fault::WriteFailed => put_ended(pending, lines, b"failed: WriteFailed", file),
    }
}

// Writes the line of a fault, in one write if the writer takes it.
fn write_line<L: Sink>(lines: &mut L, fault: Fault, file: Option<Side>) -> Result<(), Failed>
    requires { CanCountFailure (L.calls lines.old) }
    ensures { Sends result (device_of L.calls L.bytes_taken lines.old lines.new) (line_of fault file) }
{
    let mut space = [0; CAPACITY];
    let mut pending = Pending::new(&mut space);
    put_line(&mut pending, lines, fault, file)?;
    pending.send(lines)
}

// Writes a text and the end of its line, in one write if both are short and the writer takes it.
fn write_ended<L: Sink>(lines: &mut L, text: &[u8], file: Option<Side>) -> Result<(), Failed>
    requires { CanCountFailure (L.calls lines.old) }
    ensures { Sends result (device_of L.calls L.bytes_taken lines.old lines.new) (text.now ++ end_of file) }
{
    let mut space = [0; CAPACITY];
    let mut pending = Pending::new(&mut space);
    put_ended(&mut pending, lines, text, file)?;
    pending.send(lines)
}

// The exit status of a fault whose line was written.
fn status(fault: Fault) -> u8
    ensures { result ≡ status_of fault }
{
    match fault {
        Fault::Refused { cause: _, place: _ } | Fault::NormalTooLong => 2,
        Fault::OutOfMemory | Fault::ReadFailed | Fault::WriteFailed => 4,
    }
}

// Flushes. Returns the exit status: `expected`, or 4 if the flush fails.
pub(crate) fn flushed<L: Sink>(lines: &mut L, expected: u8) -> u8
    requires { CanCountFailure (L.calls lines.old) }
    ensures reported { Flushes expected result (device_of L.calls L.bytes_taken lines.old lines.new) }
    ensures last { FlushesLast (L.calls lines.old) (L.calls lines.new) (L.unflushed lines.new) }
{
    match lines.flush_all() {
        Ok(()) => expected,
        Err(_) => 4,
    }
}

/// Writes the line of a fault and flushes once. Returns the exit status: the fault's, which is 2 for a refusal or too
/// long a form and 4 for the others; or 4 if a write or the flush fails, and then `lines` took a prefix of the line.
/// In a comparison, `file` is the side with the fault. No byte comes after the flush. It allocates nothing.
pub fn report_fault<L: Sink>(lines: &mut L, fault: Fault, file: Option<Side>) -> u8
    requires { CanCountFailure (L.calls lines.old) }
    ensures reported { ReportsFault fault file result (device_of L.calls L.bytes_taken lines.old lines.new) }
    ensures last { FlushesLast (L.calls lines.old) (L.calls lines.new) (L.unflushed lines.new) }
{
    match write_line(lines, fault, file) {
        Ok(()) => flushed(lines, status(fault)),
        Err(_) => 4,
    }
}

/// Writes a line and flushes once. Returns the exit status: `expected`; or 4 if a write or the flush fails, and then
/// `lines` took a prefix of the line. It allocates nothing.
pub fn print_bytes<L: Sink>(lines: &mut L, line: &[u8], expected: u8) -> u8
    requires { CanCountFailure (L.calls lines.old) }
    ensures reported { Reports expected line.now result (device_of L.calls L.bytes_taken lines.old lines.new) }
    ensures last { FlushesLast (L.calls lines.old) (L.calls lines.new) (L.unflushed lines.new) }
{
    match write_whole(lines, line) {
        Ok(()) => flushed(lines, expected),
        Err(_) => 4,
    }
}

// Whether a text ends in a line feed.
fn is_ended(text: &[u8]) -> bool
    ensures { result ≡ is_ended text.now }
{
    match text.last() {
        Some(last) => *last == b'\n',
        None => false,
    }
}

// Writes a text and a line feed, and flushes. Returns the exit status.
fn print_line<L: Sink>(lines: &mut L, text: &str, expected: u8) -> u8
    requires { CanCountFailure (L.calls lines.old) }
    ensures reported { Reports expected (text.now ++ end_of None) result (device_of L.calls L.bytes_taken lines.old lines.new) }
    ensures last { FlushesLast (L.calls lines.old) (L.calls lines.new) (L.unflushed lines.new) }
{
    match write_ended(lines, text.as_bytes(), None) {
        Ok(()) => flushed(lines, expected),
        Err(_) => 4,
    }
}

/// Writes a text, adds a line feed if the text doesn't end in one, and flushes once. Returns the exit status:
/// `expected`; or 4 if a write or the flush fails, and then `lines` took a prefix of all that. It allocates nothing.
pub fn print_text<L: Sink>(lines: &mut L, text: &str, expected: u8) -> u8
    requires { CanCountFailure (L.calls lines.old) }
    ensures reported { ReportsWords expected text.now result (device_of L.calls L.bytes_taken lines.old lines.new) }
    ensures last { FlushesLast (L.calls lines.old) (L.calls lines.new) (L.unflushed lines.new) }
{
    if is_ended(text.as_bytes()) {
        return print_bytes(lines, text.as_bytes(), expected);
    }
    print_line(lines, text, expected)
}
