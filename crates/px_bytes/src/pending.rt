// An output buffer in front of a writer.
ghost use Rattle.std.specs.Prelude.{◌≡◌, ◌≤◌, ◌<◌, ◌+◌, ◌++◌, [], ℕ, length, take, OnOk, IsOk};
ghost use Rattle.px_bytes.specs.Devices.{CanCountFailure, Counts, Writes, WritesOnce};
ghost use Rattle.px_bytes.specs.Waiting.{FitsBuffer, Puts, Waits, ◌⊕◌};

use crate::devices::{Encode, Failed, Sink, write_whole};
use std::marker::Model;

/// How many bytes the usual output buffer has.
pub const CAPACITY: usize = 8192;

/// An output buffer in a slice: the writer gets many small parts in a few large writes. Contracts see the
/// buffered bytes and how many fit. It allocates nothing.
///
/// Dropping it loses the buffered bytes: call `send` first.
#[derive(Drop)]
pub struct Pending<'a> {
    space: &'a mut [u8],
    filled: usize,
}

impl<'a> Model for Pending<'a> {
    ghost use Rattle.std.specs.Prelude.{◌≤◌, length, take};
    ghost use Rattle.px_bytes.specs.Waiting.{Buffer};

    ghost Value = { Buffer };

    ghost view = { λ p. record { bytes = take p.filled p.space.now; capacity = length p.space.now } };

    ghost invariant = { λ p. p.filled ≤ length p.space.now };
}

impl<'a> Pending<'a> {
    /// An empty buffer for 8,192 bytes.
    #[inline(always)]
    pub fn new(space: &'a mut [u8; CAPACITY]) -> Pending<'a>
        ensures none { result.bytes ≡ [] }
        ensures capacity { result.capacity ≡ 8192 }
    {
        Pending::over(space)
    }

    /// An empty buffer for as many bytes as the slice has.
    #[inline(always)]
    pub fn over(space: &'a mut [u8]) -> Pending<'a>
        ensures none { result.bytes ≡ [] }
        ensures capacity { result.capacity ≡ length space.old }
    {
        Pending { space, filled: 0 }
    }

    /// How many more bytes fit.
    pub fn free(&self) -> usize
        ensures { result + length self.now.bytes ≡ self.now.capacity }
    {
        self.space.len() - self.filled
    }

    // The buffered bytes.
    fn bytes(&self) -> &[u8]
        ensures { result.now ≡ self.now.bytes }
    {
        &self.space[..self.filled]
    }

    // Appends the bytes to the buffered ones.
    #[inline(always)]
    fn keep(&mut self, bytes: &[u8])
        requires { FitsBuffer self.old bytes.now }
        ensures { self.new ≡ self.old ⊕ bytes.now }
    {
        let end = self.filled + bytes.len();
        self.space[self.filled..end].copy_from_slice(bytes);
        self.filled = end;
    }

    /// Appends the `count` bytes of what can write them into a slice, without another copy. They must fit.
    pub fn put_encoded<S: Encode>(&mut self, encoded: &S, count: usize)
        requires len { length (S.bytes encoded.now) ≡ count }
        requires fits { FitsBuffer self.old (S.bytes encoded.now) }
        ensures { self.new ≡ self.old ⊕ S.bytes encoded.now }
    {
        let after = self.filled + count;
        encoded.encode(&mut self.space[self.filled..after]);
        self.filled = after;
    }

    /// Writes the buffered bytes. Without any it calls nothing. It ends at the first call that fails: the
    /// writer has then taken a prefix of them, and the buffer's content is unspecified.
    pub fn send<W: Sink>(&mut self, writer: &mut W) -> Result<(), Failed>
        requires { CanCountFailure (W.calls writer.old) }
        ensures bytes { Writes result (W.bytes_taken writer.old) (W.bytes_taken writer.new) self.old.bytes }
        ensures count { Counts result (W.calls writer.old) (W.calls writer.new) }
        ensures none { OnOk result (self.new ≡ record self.old { bytes = [] }) }
        ensures idle { self.old.bytes ≡ [] → IsOk result × (writer.new ≡ writer.old) }
        ensures first { 0 < length self.old.bytes → WritesOnce W.wrote writer.old writer.new self.old.bytes }
    {
        write_whole(writer, self.bytes())?;
        self.filled = 0;
        Ok(())
    }

    // Appends bytes that don't fit: writes the buffered bytes first, and a part longer than the buffer directly.
    #[inline(never)]
    fn put_past<W: Sink>(&mut self, writer: &mut W, bytes: &[u8]) -> Result<(), Failed>
        requires few { CanCountFailure (W.calls writer.old) }
        ensures bytes { Puts result (W.bytes_taken writer.old) (W.bytes_taken writer.new) self.old self.new bytes.now }
        ensures count { Counts result (W.calls writer.old) (W.calls writer.new) }
    {
        self.send(writer)?;
        if bytes.len() > self.free() {
            return write_whole(writer, bytes);
        }
        self.keep(bytes);
        Ok(())
    }

    /// Appends the bytes. If they fit into the buffer, it buffers them and doesn't call the writer. Otherwise it
    /// writes the buffered bytes first, and writes parts longer than the buffer directly. It ends at the first
    /// call that fails: the writer has then taken a prefix of the buffered bytes followed by these, and the buffer's
    /// content is unspecified.
    #[inline(always)]
    pub fn put<W: Sink>(&mut self, writer: &mut W, bytes: &[u8]) -> Result<(), Failed>
        requires { CanCountFailure (W.calls writer.old) }
        ensures bytes { Puts result (W.bytes_taken writer.old) (W.bytes_taken writer.new) self.old self.new bytes.now }
        ensures count { Counts result (W.calls writer.old) (W.calls writer.new) }
        ensures waits { Waits result writer.old writer.new self.old self.new bytes.now }
    {
        if bytes.len() > self.free() {
            return self.put_past(writer, bytes);
        }
        self.keep(bytes);
        Ok(())
    }
}
