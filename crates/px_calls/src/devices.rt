// Writers for tests, with failures that no run of the program has.
ghost use Rattle.std.specs.Prelude.{◌≡◌, ◌+◌, ◌^◌, ◌-◌, min, length, Ok, IsErr};
ghost use Rattle.std.specs.Io.{WritesAtMost};

use std::io;
use std::io::{ErrorKind, Write};

/// A writer that takes all bytes and fails each flush. It counts the bytes and the flushes.
#[derive(Drop)]
pub struct KeepsBack {
    /// How many bytes it has taken.
    pub count: usize,
    /// How many flushes were called.
    pub flushes: u32,
}

impl KeepsBack {
    /// A writer that has taken no byte and no flush so far.
    pub fn new() -> KeepsBack
        ensures { result ≡ record { count = 0; flushes = 0 } }
    {
        KeepsBack {
            count: 0,
            flushes: 0,
        }
    }
}

impl Write for KeepsBack {
    // Takes all bytes and keeps only their number.
    fn write(&mut self, buf: &[u8]) -> io::Result<usize>
        ensures all { result ≡ Ok (length buf.now) }
        ensures count { self.new.count ≡ min (self.old.count + length buf.now) (2 ^ 64 - 1) }
        ensures flushes { self.new.flushes ≡ self.old.flushes }
    {
        self.count = self.count.saturating_add(buf.len());
        Ok(buf.len())
    }

    // Counts the call and fails with `Interrupted`, the error after which a caller usually repeats
    // the call.
    fn flush(&mut self) -> io::Result<()>
        ensures failed { IsErr result }
        ensures count { self.new.count ≡ self.old.count }
        ensures flushes { self.new.flushes ≡ min (self.old.flushes + 1) (2 ^ 32 - 1) }
    {
        self.flushes = self.flushes.saturating_add(1);
        Err(io::Error::from(ErrorKind::Interrupted))
    }
}
