// Normal forms: written to a writer, or kept in memory. In memory a form is measured first, and then written
// into a vector of exactly its length or into the caller's buffer.
ghost use Rattle.std.specs.Prelude.{◌≡◌, ◌≤◌, length, IfOk, IfErr, OnOk};
ghost use Rattle.px_bytes.specs.Allocations.{AsksAtMost};
ghost use Rattle.px_bytes.specs.Devices.{CanCountFailure, IsShort, device_of, Sends, SendsOnce};
ghost use Rattle.px_bytes.specs.Parts.{limit};
ghost use Rattle.px_iim.specs.Record.{normal_iim};
ghost use Rattle.px_layout.specs.Normal.{normal_exif};
ghost use Rattle.px_layout.specs.calls.Forms.{meaning_in, IsWritableForm};
ghost use Rattle.px_meaning.specs.Writable.{IsWritable};
ghost use Rattle.px_meaning.specs.calls.Seen.{meaning_of};
ghost use Rattle.px_engine.specs.Files.{CanBeWritten, normal};
ghost use Rattle.px_engine.specs.Input.{CountsAllocFailureInRun};
ghost use Rattle.px_engine.specs.calls.Ends.{IsUnformed, WritesFormOf};
ghost use Rattle.px_engine.specs.calls.Faults.{written};
ghost use Rattle.px_engine.specs.calls.Filled.{PutsShort};
ghost use Rattle.px_engine.specs.calls.Seen.{said_view};
ghost use Rattle.px_engine.specs.Files as files;

use crate::error::Fault;
use crate::meaning::Said;
use px_bytes::{Device, Encode, Failed, Flushes, LIMIT, Memory, Pending, Sink, WriteRefusal};
use px_iim::{Iim, normal_len, put_iim, write_iim};
use px_layout::{NormalForm, put_normal, write_normal_in};
use px_tree::Meaning;

/// Whether a normal form fits into the caller's buffer.
#[derive(Clone, Copy, Debug, PartialEq, Eq)]
pub enum Given {
    /// It fits: the buffer begins with the form, of so many bytes. The rest of the buffer is unchanged.
    Whole(usize),
    /// It doesn't fit, and the buffer is unchanged. The form needs so many bytes.
    Needs(usize),
}

// The result of a normal form's writer as the result of a run.
fn written(outcome: Result<u64, WriteRefusal>) -> Result<u64, Fault>
    ensures { result ≡ written outcome }
{
    match outcome {
        Ok(len) => Ok(len),
        Err(refusal) => Err(Fault::from(refusal)),
    }
}

// Writes the normal form of what a file means. It allocates nothing.
pub(crate) fn write_form<W: Sink>(meaning: &Said, writer: &mut W) -> Result<u64, Fault>
    requires few { CanCountFailure (W.calls writer.old) }
    requires fits { CanBeWritten (said_view meaning.now) }
    ensures form { WritesFormOf result (W.bytes_taken writer.old) (W.bytes_taken writer.new) (W.calls writer.old) (W.calls writer.new)
        (said_view meaning.now) }
    ensures flushed { OnOk result (W.unflushed writer.new ≡ 0) }
    ensures once { IsShort (length (normal (said_view meaning.now))) → SendsOnce W.wrote W.flushed writer.old writer.new
        (normal (said_view meaning.now)) }
{
    match meaning {
        Said::Exif(tree) => written(write_normal_in(tree, writer)),
        Said::Iim(iim) => written(write_iim(iim, writer)),
    }
}

// The size of the output buffer for a form in memory. The buffer is cleared for each form, so it is small.
const SPACE: usize = 1024;

// Writes the normal form of an Exif meaning, without a flush. `Err`: a call of the writer failed,
// which has taken a prefix of the form.
fn send_exif<W: Sink>(form: &NormalForm, writer: &mut W) -> Result<(), Failed>
    requires few { CanCountFailure (W.calls writer.old) }
    requires form { IsWritableForm form.now }
    ensures { Sends result (device_of W.calls W.bytes_taken writer.old writer.new) (normal_exif (meaning_in form.now)) }
{
    let mut space = [0; SPACE];
    let mut pending = Pending::over(&mut space);
    put_normal(&mut pending, writer, form)?;
    pending.send(writer)
}

// Writes the normal form of a record, without a flush. `Err`: a call of the writer failed, which
// has taken a prefix of the form.
fn send_record<W: Sink>(iim: &Iim, writer: &mut W) -> Result<(), Failed>
    requires { CanCountFailure (W.calls writer.old) }
    ensures { Sends result (device_of W.calls W.bytes_taken writer.old writer.new) (normal_iim iim.now) }
{
    let mut space = [0; SPACE];
    let mut pending = Pending::over(&mut space);
    put_iim(&mut pending, writer, iim)?;
    pending.send(writer)
}

// The normal form of an Exif block.
fn exif_form(memory: &mut Memory, m: &Meaning) -> Result<Vec<u8>, Fault>
    requires { IsWritable (meaning_of m.now) }
    ensures formed { IfOk result (λ v. (v.items ≡ normal_exif (meaning_of m.now)) × (length v.items ≤ limit)) }
    ensures unformed { IfErr result (IsUnformed (files.Exif (meaning_of m.now)) memory.new.failed_allocations) }
    ensures memory { CountsAllocFailureInRun result memory.old memory.new }
    ensures asked { AsksAtMost (length (normal_exif (meaning_of m.now))) memory.old memory.new }
{
    let Ok(form) = NormalForm::new(m) else {
        return Err(Fault::NormalTooLong);
    };
    let mut out = memory.list();
    memory.resize(&mut out, form.len() as usize, 0u8)?;
    fill_exif(&form, &mut out);
    Ok(out)
}

// The normal form of a record.
fn iim_form(memory: &mut Memory, iim: &Iim) -> Result<Vec<u8>, Fault>
    ensures formed { IfOk result (λ v. (v.items ≡ normal_iim iim.now) × (length v.items ≤ limit)) }
    ensures unformed { IfErr result (IsUnformed (files.Iim iim.now) memory.new.failed_allocations) }
    ensures memory { CountsAllocFailureInRun result memory.old memory.new }
    ensures asked { AsksAtMost (length (normal_iim iim.now)) memory.old memory.new }
{
    let len = normal_len(iim).unwrap_or(LIMIT + 1);
    if len > LIMIT {
        return Err(Fault::NormalTooLong);
    }
    let mut out = memory.list();
    memory.resize(&mut out, len as usize, 0u8)?;
    fill_record(iim, &mut out);
    Ok(out)
}

// The normal form of what a file means.
pub(crate) fn form_of(memory: &mut Memory, meaning: &Said) -> Result<Vec<u8>, Fault>
    requires { CanBeWritten (said_view meaning.now) }
    ensures formed { IfOk result (λ v. (v.items ≡ normal (said_view meaning.now)) × (length v.items ≤ limit)) }
    ensures unformed { IfErr result (IsUnformed (said_view meaning.now) memory.new.failed_allocations) }
    ensures memory { CountsAllocFailureInRun result memory.old memory.new }
    ensures asked { AsksAtMost (length (normal (said_view meaning.now))) memory.old memory.new }
{
    match meaning {
        Said::Exif(tree) => exif_form(memory, tree),
        Said::Iim(iim) => iim_form(memory, iim),
    }
}

// Writes the normal form of an Exif block, which is measured already, into a slice of exactly its length.
fn fill_exif(form: &NormalForm, space: &mut [u8])
    requires form { IsWritableForm form.now }
    requires space { length space.old ≡ length (normal_exif (meaning_in form.now)) }
    ensures { space.new ≡ normal_exif (meaning_in form.now) }
{
    let mut writer = Filling::new(space);
    // The slice has space for all, so no call fails.
    let _ = send_exif(form, &mut writer);
}

// Writes the normal form of a record into a slice of exactly its length.
fn fill_record(iim: &Iim, space: &mut [u8])
    requires { length space.old ≡ length (normal_iim iim.now) }
    ensures { space.new ≡ normal_iim iim.now }
{
    let mut writer = Filling::new(space);
    let _ = send_record(iim, &mut writer);
}

// Writes the normal form of an Exif block to the start of `out`. None if it is longer than `LIMIT`. It allocates
// nothing.
pub(crate) fn put_exif(m: &Meaning, out: &mut [u8]) -> Option<Given>
    requires { IsWritable (meaning_of m.now) }
    ensures { PutsShort result (normal_exif (meaning_of m.now)) out.old out.new }
{
    let Ok(form) = NormalForm::new(m) else {
        return None;
    };
    let len = form.len() as usize;
    if len > out.len() {
        return Some(Given::Needs(len));
    }
    fill_exif(&form, &mut out[..len]);
    Some(Given::Whole(len))
}

// Writes the normal form of a record to the start of `out`. None if it is longer than `LIMIT`. It allocates nothing.
pub(crate) fn put_record(iim: &Iim, out: &mut [u8]) -> Option<Given>
    ensures { PutsShort result (normal_iim iim.now) out.old out.new }
{
    let len = normal_len(iim).unwrap_or(LIMIT + 1) as usize;
    if len > LIMIT as usize {
        return None;
    }
    if len > out.len() {
        return Some(Given::Needs(len));
    }
    fill_record(iim, &mut out[..len]);
    Some(Given::Whole(len))
}

// The most bytes that a call takes, unless it has `MANY`: the C library copies more of them by an instruction that
// takes longer.
const AT_ONCE: usize = 8192;

// From so many bytes on a call takes all that fit.
const MANY: usize = 65_536;

// A writer that fills a slice. Each call takes bytes as long as there is space, and fails only if the slice is
// full. It allocates nothing.
#[derive(Drop)]
pub(crate) struct Filling<'a> {
    space: &'a mut [u8],
    filled: usize,
    refusals: u64,
    // The flushes, which only proofs read.
    flushes: Flushes,
}

impl<'a> Filling<'a> {
    // The writer at the start of a slice; no call has failed.
    pub(crate) fn new(space: &'a mut [u8]) -> Filling<'a>
        ensures same { result.space.ghost_name ≡ space.entry.ghost_name }
        ensures space { result.space.now ≡ space.old }
        ensures none { result.filled ≡ 0 }
        ensures refusals { result.refusals ≡ 0 }
    {
        Filling {
            space,
            filled: 0,
            refusals: 0,
            flushes: Flushes::none(),
        }
    }
}

impl<'a> Device for Filling<'a> {
    ghost use Rattle.px_engine.specs.calls.Filled.{calls_in};

    ghost calls = { λ f. calls_in f };

    // How many calls have failed since the slice became full: 0 while it has space.
    fn failures(&self) -> u64 {
        if self.filled < self.space.len() {
            return 0;
        }
        self.refusals
    }
}

impl<'a> Sink for Filling<'a> {
    ghost use Rattle.std.specs.Prelude.{Some, ⊤};
    ghost use Rattle.px_engine.specs.calls.Filled.{reported_in};

    ghost bytes_taken = { λ f. Some (reported_in f) };

    ghost unflushed = { λ f. f.flushes.since };

    ghost wrote = { λ _ _ _ _. ⊤ };

    ghost flushed = { λ _ _. ⊤ };

    // Copies the first bytes of `buf` into the slice: `AT_ONCE` at most, or all that fit if these
    // are `MANY` or more. `Err`: there is a byte to write and no space.
    fn write_some(&mut self, buf: &[u8]) -> Result<usize, Failed> {
        if buf.is_empty() {
            return Ok(0);
        }
        if self.filled >= self.space.len() {
            self.refusals += 1;
            return Err(Failed);
        }
        let fitting = buf.len().min(self.space.len() - self.filled);
        let n = if fitting < MANY {
            fitting.min(AT_ONCE)
        } else {
            fitting
        };
        let end = self.filled + n;
        self.space[self.filled..end].copy_from_slice(&buf[..n]);
        self.filled = end;
        let flushes = self.flushes.taking(n);
        self.flushes = flushes;
        // Failures are counted only once the slice is full, which this write may have made it.
        self.refusals = 0;
        Ok(n)
    }

    // Lets the bytes be encoded directly into the slice, if it has space for all of them. False: it
    // has not, and nothing was written.
    fn write_encoded<S: Encode>(&mut self, encoded: &S, count: usize) -> bool {
        if self.filled >= self.space.len() || count > self.space.len() - self.filled {
            return false;
        }
        let end = self.filled + count;
        encoded.encode(&mut self.space[self.filled..end]);
        self.filled = end;
        let flushes = self.flushes.taking(count);
        self.flushes = flushes;
        self.refusals = 0;
        true
    }

    // Never fails: the bytes are in the slice already. Only the number of flushes rises.
    fn flush_all(&mut self) -> Result<(), Failed> {
        let flushes = self.flushes.one_more();
        self.flushes = flushes;
        Ok(())
    }
}
