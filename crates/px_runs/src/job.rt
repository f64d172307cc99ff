// Runs of the program over readers and writers.
ghost use Rattle.std.specs.Prelude.{◌≡◌, ◌≤◌, length};
ghost use Rattle.px_engine.specs.Input.{most_read};
ghost use Rattle.px_engine.specs.Prints.{caption_text, listing};
ghost use Rattle.px_runs.specs.Endings.{accepted, compared, compared_status, Ends, EndsCheck, EndsCompare, EndsNormalise, EndsShown};
ghost use Rattle.px_runs.specs.Endings.{ReportsChecked, ReportsCompared, ReportsWritten};
ghost use Rattle.px_runs.specs.Lines.{FlushesLast};
ghost use Rattle.px_runs.specs.calls.Printing.{PrintsFile};
ghost use Rattle.px_bytes.specs.Devices.{CanCountFailure, device_of};

use crate::lines::{print_bytes, report_fault};
use crate::packets::{Text, report_file};
use px_bytes::{Memory, Sink, Source};
use px_engine::{
    BlockKind, CompareFault, Fault, captions_file_in, check_in, compare_in, normalise_in,
    read_all_in, show_file_in,
};

/// What to do with one file.
#[derive(Clone, Copy, Debug, PartialEq, Eq)]
pub enum Job {
    /// Write the listing to the lines.
    Show,
    /// Write the block's kind to the lines.
    Check,
    /// Write the captions to the lines.
    Captions,
    /// Write the normal form to the writer of bytes.
    Normalise,
}

// Reports a failed normal form. A written one needs no line.
fn report_written<L: Sink>(lines: &mut L, written: Result<u64, Fault>) -> u8
    requires { CanCountFailure (L.calls lines.old) }
    ensures reported { ReportsWritten written result (device_of L.calls L.bytes_taken lines.old lines.new) }
    ensures last { FlushesLast (L.calls lines.old) (L.calls lines.new) (L.unflushed lines.new) }
{
    match written {
        Ok(_) => 0,
        Err(fault) => report_fault(lines, fault, None),
    }
}

// The line for an accepted block.
fn accepted(kind: BlockKind) -> &'static [u8]
    ensures { result.now ≡ accepted kind }
{
    match kind {
        BlockKind::Exif => b"ok exif\n",
        BlockKind::Iim => b"ok iim\n",
    }
}

// Reports the kind of a block.
fn report_checked<L: Sink>(lines: &mut L, checked: Result<BlockKind, Fault>) -> u8
    requires { CanCountFailure (L.calls lines.old) }
    ensures reported { ReportsChecked checked result (device_of L.calls L.bytes_taken lines.old lines.new) }
    ensures last { FlushesLast (L.calls lines.old) (L.calls lines.new) (L.unflushed lines.new) }
{
    match checked {
        Ok(kind) => print_bytes(lines, accepted(kind), 0),
        Err(fault) => report_fault(lines, fault, None),
    }
}

// The line for two accepted blocks.
fn compared(same: bool) -> &'static [u8]
    ensures { result.now ≡ compared same }
{
    match same {
        true => b"same\n",
        false => b"different\n",
    }
}

// The status for two accepted blocks.
fn compared_status(same: bool) -> u8
    ensures { result ≡ compared_status same }
{
    match same {
        true => 0,
        false => 1,
    }
}

// Reports whether two blocks mean the same.
fn report_compared<L: Sink>(lines: &mut L, same: Result<bool, CompareFault>) -> u8
    requires { CanCountFailure (L.calls lines.old) }
    ensures reported { ReportsCompared same result (device_of L.calls L.bytes_taken lines.old lines.new) }
    ensures last { FlushesLast (L.calls lines.old) (L.calls lines.new) (L.unflushed lines.new) }
{
    match same {
        Ok(same) => print_bytes(lines, compared(same), compared_status(same)),
        Err(e) => report_fault(lines, e.fault, Some(e.side)),
    }
}

// Writes the normal form to `out`, and the line of a fault to `lines`.
#[tactic(auto, using(crate::proofs::EndLaws::ends_normalise))]
fn run_normalise<R: Source, O: Sink, L: Sink>(
    memory: &mut Memory,
    reader: &mut R,
    out: &mut O,
    lines: &mut L,
) -> u8
    requires reading { CanCountFailure (R.calls reader.old) }
    requires writing { CanCountFailure (O.calls out.old) }
    requires reporting { CanCountFailure (L.calls lines.old) }
    ensures ends { EndsNormalise (device_of R.calls R.bytes_left reader.old reader.new)
        (device_of O.calls O.bytes_taken out.old out.new)
        (device_of L.calls L.bytes_taken lines.old lines.new)
        memory.old memory.new result }
    ensures form_last { FlushesLast (O.calls out.old) (O.calls out.new) (O.unflushed out.new) }
    ensures last { FlushesLast (L.calls lines.old) (L.calls lines.new) (L.unflushed lines.new) }
{
    report_written(lines, normalise_in(memory, reader, out))
}

// Reports the kind of the block.
#[tactic(auto, using(crate::proofs::EndLaws::ends_check))]
fn run_check<R: Source, L: Sink>(memory: &mut Memory, reader: &mut R, lines: &mut L) -> u8
    requires reading { CanCountFailure (R.calls reader.old) }
    requires reporting { CanCountFailure (L.calls lines.old) }
    ensures ends { EndsCheck (device_of R.calls R.bytes_left reader.old reader.new)
        (device_of L.calls L.bytes_taken lines.old lines.new)
        memory.old memory.new result }
    ensures last { FlushesLast (L.calls lines.old) (L.calls lines.new) (L.unflushed lines.new) }
{
    report_checked(lines, check_in(memory, reader))
}

// Writes the listing of a file that was read.
fn show_file<L: Sink>(memory: &mut Memory, file: &[u8], lines: &mut L) -> u8
    requires few { length file.now ≤ most_read }
    requires reporting { CanCountFailure (L.calls lines.old) }
    ensures ends { PrintsFile listing file.now (device_of L.calls L.bytes_taken lines.old lines.new) memory.old memory.new result }
    ensures last { FlushesLast (L.calls lines.old) (L.calls lines.new) (L.unflushed lines.new) }
{
    let printed = show_file_in(memory, file, lines);
    report_file(memory, file, Text::Listing, lines, printed)
}

// Writes the listing of the block or of the packet.
fn run_show<R: Source, L: Sink>(memory: &mut Memory, reader: &mut R, lines: &mut L) -> u8
    requires reading { CanCountFailure (R.calls reader.old) }
    requires reporting { CanCountFailure (L.calls lines.old) }
    ensures ends { EndsShown listing (device_of R.calls R.bytes_left reader.old reader.new)
        (device_of L.calls L.bytes_taken lines.old lines.new)
        memory.old memory.new result }
    ensures last { FlushesLast (L.calls lines.old) (L.calls lines.new) (L.unflushed lines.new) }
{
    match read_all_in(memory, reader) {
        Ok(file) => show_file(memory, file.as_slice(), lines),
        Err(fault) => report_fault(lines, fault, None),
    }
}

// Writes the captions of a file that was read.
fn captions_file<L: Sink>(memory: &mut Memory, file: &[u8], lines: &mut L) -> u8
    requires few { length file.now ≤ most_read }
    requires reporting { CanCountFailure (L.calls lines.old) }
    ensures ends { PrintsFile caption_text file.now (device_of L.calls L.bytes_taken lines.old lines.new) memory.old memory.new result }
    ensures last { FlushesLast (L.calls lines.old) (L.calls lines.new) (L.unflushed lines.new) }
{
    let printed = captions_file_in(memory, file, lines);
    report_file(memory, file, Text::Captions, lines, printed)
}

// Writes the captions of the block or of the packet.
fn run_captions<R: Source, L: Sink>(memory: &mut Memory, reader: &mut R, lines: &mut L) -> u8
    requires reading { CanCountFailure (R.calls reader.old) }
    requires reporting { CanCountFailure (L.calls lines.old) }
    ensures ends { EndsShown caption_text (device_of R.calls R.bytes_left reader.old reader.new)
        (device_of L.calls L.bytes_taken lines.old lines.new)
        memory.old memory.new result }
    ensures last { FlushesLast (L.calls lines.old) (L.calls lines.new) (L.unflushed lines.new) }
{
    match read_all_in(memory, reader) {
        Ok(file) => captions_file(memory, file.as_slice(), lines),
        Err(fault) => report_fault(lines, fault, None),
    }
}

/// Does a job on one file, of which it reads at most the first `LIMIT` + 7 bytes, 16,777,223. Returns the exit
/// status: 0 on success, 2 if the block is refused or its normal form is too long, 4 if a read, a write or an
/// allocation failed.
///
/// Only `Normalise` calls `out`: on success it took exactly the normal form of the file's meaning, and one flush; if
/// a write or the flush failed, a prefix of the form; after any other fault nothing. All text goes to `lines`: that
/// of `Show` and `Captions`, the line of `Check` (`ok exif` or `ok iim`), and the line of a fault
/// (`refused: CAUSE at PLACE`, `refused: NormalTooLong`, `failed: OutOfMemory`, `failed: ReadFailed` or
/// `failed: WriteFailed`). It flushes once after the line or text. If writing to `lines` fails, the status is 4, they
/// took a prefix, and it writes no more to them. A line allocates nothing. `failed: OutOfMemory` means that one
/// allocation of this run failed; after any other outcome none did.
///
/// `Show` and `Captions` also print a packet of XMP: a file that is refused as a block, and begins as a packet does. Its text is
/// in memory before any of it is written. A packet with a text is a document in UTF-8; which lines it has no contract states.
pub fn run_one_in<R: Source, O: Sink, L: Sink>(
    memory: &mut Memory,
    job: Job,
    reader: &mut R,
    out: &mut O,
    lines: &mut L,
) -> u8
    requires reading { CanCountFailure (R.calls reader.old) }
    requires writing { CanCountFailure (O.calls out.old) }
    requires reporting { CanCountFailure (L.calls lines.old) }
    ensures ends { Ends job (device_of R.calls R.bytes_left reader.old reader.new)
        (device_of O.calls O.bytes_taken out.old out.new)
        (device_of L.calls L.bytes_taken lines.old lines.new)
        memory.old memory.new result }
    ensures form_last { FlushesLast (O.calls out.old) (O.calls out.new) (O.unflushed out.new) }
    ensures last { FlushesLast (L.calls lines.old) (L.calls lines.new) (L.unflushed lines.new) }
{
    match job {
        Job::Show => run_show(memory, reader, lines),
        Job::Check => run_check(memory, reader, lines),
        Job::Captions => run_captions(memory, reader, lines),
        Job::Normalise => run_normalise(memory, reader, out, lines),
    }
}

/// Compares two files, of each of which it reads at most the first `LIMIT` + 7 bytes, 16,777,223. Returns the exit
/// status: 0 with the line `same` if both have the same meaning, 1 with the line `different` if they have different
/// ones, 2 if a block is refused, 4 if a read, a write or an allocation failed. The line of a fault ends in
/// ` in file 1` or ` in file 2`. It judges the first file before it reads the second: after a fault of the first, no
/// call of the second was made. It flushes once after the line; if writing it fails, the status is 4, and `lines`
/// took a prefix. A line allocates nothing. `failed: OutOfMemory` means that one allocation of this run failed.
pub fn run_compare_in<R: Source, S: Source, L: Sink>(
    memory: &mut Memory,
    first: &mut R,
    second: &mut S,
    lines: &mut L,
) -> u8
    requires first { CanCountFailure (R.calls first.old) }
    requires second { CanCountFailure (S.calls second.old) }
    requires reporting { CanCountFailure (L.calls lines.old) }
    ensures ends { EndsCompare (device_of R.calls R.bytes_left first.old first.new)
        (device_of S.calls S.bytes_left second.old second.new)
        (device_of L.calls L.bytes_taken lines.old lines.new)
        memory.old memory.new result }
    ensures last { FlushesLast (L.calls lines.old) (L.calls lines.new) (L.unflushed lines.new) }
{
    report_compared(lines, compare_in(memory, first, second))
}
