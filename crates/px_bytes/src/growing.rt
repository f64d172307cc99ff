// A writer into memory.
ghost use Rattle.std.specs.Prelude.{◌≡◌, ◌<◌, [], IfOk, IsErr, ◌↔◌};
ghost use Rattle.px_bytes.specs.Allocations.{CountsAllocFailure, AsksAtMost};
ghost use Rattle.px_bytes.specs.calls.Grown.{grown_bytes};

use crate::devices::{Device, Encode, Failed, Flushes, Sink};
use crate::memory::{AllocFailed, Memory};
use std::marker::Model;

// The greatest number of bytes that one call takes.
const CHUNK: usize = 65_536;

/// A writer that appends to a vector. A call takes at most 65,536 bytes, and fails exactly if the vector's
/// allocation failed. Contracts see the bytes written and the number of failed calls.
#[derive(Drop)]
pub struct Growing {
    memory: Memory,
    taken: Vec<u8>,
    failed_allocations: u64,
    // The flushes, which only proofs read.
    flushes: Flushes,
}

impl Model for Growing {
    ghost use Rattle.std.specs.Prelude.{◌≡◌, vec_len, vec_capacity};
    ghost use Rattle.px_bytes.specs.calls.Grown.{Grown, HasGrown};

    ghost Value = { Grown };

    ghost view = { λ g. record {
      taken = g.taken.items;
      failed_allocations = g.failed_allocations;
      flushes = g.flushes.count;
      since = g.flushes.since;
    } };

    // One allocation of its memory has failed for each failed call.
    ghost invariant = { λ g. (g.memory.failed_allocations ≡ g.failed_allocations)
        × HasGrown (vec_len g.taken) (vec_capacity g.taken) g.failed_allocations g.memory.asked };
}

impl Growing {
    /// An empty writer. It allocates nothing.
    pub fn new(memory: &Memory) -> Growing
        ensures { result ≡ record { taken = []; failed_allocations = 0; flushes = 0; since = 0 } }
    {
        Growing {
            memory: memory.fresh(),
            taken: memory.list(),
            failed_allocations: 0,
            flushes: Flushes::none(),
        }
    }

    /// `Ok`: the bytes written. `Err`, exactly if a call of the writer has failed: `memory` then counts one failed
    /// allocation more.
    pub fn finish_in(self, memory: &mut Memory) -> Result<Vec<u8>, AllocFailed>
        ensures bytes { IfOk result (λ bytes. bytes.items ≡ self.taken) }
        ensures which { IsErr result ↔ (0 < self.failed_allocations) }
        ensures memory { CountsAllocFailure result memory.old memory.new }
        ensures asked { AsksAtMost (grown_bytes self) memory.old memory.new }
    {
        let Growing {
            memory: own,
            taken,
            failed_allocations: _,
            flushes: _,
        } = self;
        memory.join(&own)?;
        Ok(taken)
    }
}

impl Device for Growing {
    ghost calls = { λ g. record { failed = g.failed_allocations; flushes = g.flushes } };

    // The calls that failed: each could not enlarge the vector.
    fn failures(&self) -> u64 {
        self.failed_allocations
    }
}

impl Sink for Growing {
    ghost use Rattle.std.specs.Prelude.{Some, ⊤};

    ghost bytes_taken = { λ g. Some g.taken };

    ghost unflushed = { λ g. g.since };

    ghost wrote = { λ _ _ _ _. ⊤ };

    ghost flushed = { λ _ _. ⊤ };

    // Appends the first bytes of `buf`, at most `CHUNK`. `Err`: the vector could not be enlarged,
    // and is as before.
    fn write_some(&mut self, buf: &[u8]) -> Result<usize, Failed> {
        let some = &buf[..buf.len().min(CHUNK)];
        match self.memory.extend_from_slice(&mut self.taken, some) {
            Ok(()) => {
                let flushes = self.flushes.taking(some.len());
                self.flushes = flushes;
                Ok(some.len())
            }
            Err(_) => {
                self.failed_allocations += 1;
                Err(Failed)
            }
        }
    }

    // Never takes the bytes: this writer fills no slice. The caller then writes them by
    // `write_some`.
    fn write_encoded<S: Encode>(&mut self, _: &S, _: usize) -> bool {
        false
    }

    // Never fails: the bytes are in memory already. Only the number of flushes rises.
    fn flush_all(&mut self) -> Result<(), Failed> {
        let flushes = self.flushes.one_more();
        self.flushes = flushes;
        Ok(())
    }
}
