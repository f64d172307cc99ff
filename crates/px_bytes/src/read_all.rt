// Reads to the end.
ghost use Rattle.std.specs.Prelude.{◌≡◌, ◌+◌, ◌*◌, ◌/◌, ◌^◌, ◌<◌, ◌≤◌, ℕ, length, max, vec_len, vec_capacity, IfOk, OnOk, OnErr};
ghost use Rattle.px_bytes.specs.Allocations.{CountsAllocFailure, AsksAtMost};
ghost use Rattle.px_bytes.specs.Devices.{CanCountFailure};
ghost use Rattle.px_bytes.specs.Reading.{ReadsUpTo, ConsumesAtMost, CountsRead, CountsAllocFailureInRead, readable, read_request};
ghost use Rattle.px_bytes.specs.calls.Reading.{GivesSome, HasRead, read_bytes};

use crate::devices::{Failed, Source};
use crate::memory::{AllocFailed, Memory};
use thiserror::Error;

/// Why a read to the end failed.
#[derive(Clone, Copy, Debug, PartialEq, Eq, Error)]
pub enum ReadFault {
    /// A call of the reader failed.
    #[error("a read failed")]
    ReadFailed,
    /// An allocation failed.
    #[error("out of memory")]
    OutOfMemory,
}

impl From<Failed> for ReadFault {
    ghost use Rattle.std.specs.Prelude.{◌≡◌};
    ghost use Rattle.px_bytes.specs.declared.read_all.ReadFault.TheVariants.{ReadFailed};

    ghost from_gives = { λ _ e. e ≡ ReadFailed };

    // A failed call of the reader, as the reason why a file is not read.
    fn from(_: Failed) -> ReadFault {
        ReadFault::ReadFailed
    }
}

impl From<AllocFailed> for ReadFault {
    ghost use Rattle.std.specs.Prelude.{◌≡◌};
    ghost use Rattle.px_bytes.specs.declared.read_all.ReadFault.TheVariants.{OutOfMemory};

    ghost from_gives = { λ _ e. e ≡ OutOfMemory };

    // A failed allocation, as the reason why a file is not read.
    fn from(_: AllocFailed) -> ReadFault {
        ReadFault::OutOfMemory
    }
}

// The greatest number of bytes for one read.
const CHUNK: usize = 65_536;

// A vector with this capacity is long.
const LONG: usize = 1_048_576;

// The next capacity of a vector whose capacity is too small.
fn larger_capacity(capacity: usize) -> usize
    requires { capacity < 2 ^ 63 }
    ensures short { capacity < LONG → result ≡ 2 * capacity }
    ensures long { LONG ≤ capacity → result ≡ capacity + capacity / 8 + 1 }
{
    if capacity < LONG {
        return 2 * capacity;
    }
    capacity + capacity / 8 + 1
}

// Makes space for `more` further bytes. A short vector doubles. A long one grows by an eighth, which is more than
// one read: doubling it could leave nearly half of it unused. Neither grows past `most`.
fn reserve_more(
    memory: &mut Memory,
    all: &mut Vec<u8>,
    more: usize,
    most: usize,
) -> Result<(), AllocFailed>
    requires one { more ≤ 65536 }
    requires inside { vec_len all.old + more ≤ most }
    ensures items { all.new.items ≡ all.old.items }
    ensures len { vec_len all.new ≡ vec_len all.old }
    ensures space { OnOk result (vec_len all.new + more ≤ vec_capacity all.new) }
    ensures long { LONG ≤ vec_capacity all.old → vec_capacity all.new ≤ vec_capacity all.old + vec_capacity all.old / 8 + 1 }
    ensures most { vec_capacity all.new ≤ max (vec_capacity all.old) most }
    ensures memory { CountsAllocFailure result memory.old memory.new }
    ensures asked { (before : ℕ) → HasRead most before (vec_len all.old) (vec_capacity all.old) memory.old.asked
        → OnOk result (HasRead most before (vec_len all.old + more) (vec_capacity all.new) memory.new.asked) }
    ensures lacking { (before : ℕ) → HasRead most before (vec_len all.old) (vec_capacity all.old) memory.old.asked
        → memory.new.asked ≤ before + read_bytes (vec_len all.old + more) }
{
    let capacity = all.capacity();
    if more <= capacity - all.len() {
        return Ok(());
    }
    let larger = larger_capacity(capacity).min(most);
    memory.reserve_exact(all, more.max(larger.saturating_sub(all.len())))
}

// Reads once into the buffer and appends the bytes; the vector never grows past `most`. Returns whether there
// were any.
fn append_some<R: Source>(
    memory: &mut Memory,
    reader: &mut R,
    buffer: &mut [u8],
    all: &mut Vec<u8>,
    most: usize,
) -> Result<bool, ReadFault>
    requires count { CanCountFailure (R.calls reader.old) }
    requires space { 0 < length buffer.old }
    requires one { length buffer.old ≤ 65536 }
    requires inside { vec_len all.old + length buffer.old ≤ most }
    ensures given { IfOk result (GivesSome
        (R.bytes_left reader.old) (R.bytes_left reader.new)
        all.old.items all.new.items (length buffer.old)) }
    ensures lost { OnErr result (ConsumesAtMost
        (R.bytes_left reader.old) (R.bytes_left reader.new) (length buffer.old)) }
    ensures count { CountsRead result (R.calls reader.old) (R.calls reader.new) }
    ensures memory { CountsAllocFailureInRead result memory.old memory.new }
    ensures asked { (before : ℕ) → HasRead most before (vec_len all.old) (vec_capacity all.old) memory.old.asked
        → IfOk result (λ _. HasRead most before (vec_len all.new) (vec_capacity all.new) memory.new.asked) }
    ensures lacking { (before : ℕ) → HasRead most before (vec_len all.old) (vec_capacity all.old) memory.old.asked
        → memory.new.asked ≤ before + read_bytes (vec_len all.old + length buffer.old) }
{
    let n = reader.read_some(buffer)?;
    reserve_more(memory, all, n, most)?;
    memory.extend_from_slice(all, &buffer[..n])?;
    Ok(n > 0)
}

/// Reads to the reader's end, or up to `most` bytes, and requests no byte more. A read of 0 bytes is the end.
/// It ends at the first call that fails. Allocates the bytes and one buffer: it asks for at most ten bytes and an
/// eighth for each byte that it reads, and 729,088 more. After an error the reader has lost at most its first
/// `most` bytes. `ReadFailed`: a call of the reader failed. `OutOfMemory`: an
/// allocation failed.
pub fn read_up_to_in<R: Source>(
    memory: &mut Memory,
    reader: &mut R,
    most: usize,
) -> Result<Vec<u8>, ReadFault>
    requires { CanCountFailure (R.calls reader.old) }
    ensures found { IfOk result (λ all. ReadsUpTo
        (R.bytes_left reader.old) (R.bytes_left reader.new) most all.items) }
    ensures lost { OnErr result (ConsumesAtMost
        (R.bytes_left reader.old) (R.bytes_left reader.new) most) }
    ensures count { CountsRead result (R.calls reader.old) (R.calls reader.new) }
    ensures memory { CountsAllocFailureInRead result memory.old memory.new }
    ensures asked { AsksAtMost (read_request (readable (R.bytes_left reader.old) most)) memory.old memory.new }
{
    let mut buffer = memory.list();
    memory.resize(&mut buffer, most.min(CHUNK), 0u8)?;
    let mut all = memory.list();
    while all.len() < most {
        let space = (most - all.len()).min(buffer.len());
        if !append_some(memory, reader, &mut buffer[..space], &mut all, most)? {
            break;
        }
    }
    Ok(all)
}
