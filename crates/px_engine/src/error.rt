// Why a run fails.
use px_bytes::{AllocFailed, Cause, ReadFault, Refusal, WriteRefusal};
use thiserror::Error;

/// Why a file is not read, or its normal form not written.
#[derive(Clone, Copy, Debug, PartialEq, Eq, Error)]
pub enum Fault {
    /// The block has no meaning: the cause and the byte offset of its first fault.
    #[error("{cause:?} at {place}")]
    Refused {
        /// What is wrong.
        cause: Cause,
        /// The byte offset from the block's first byte, at most `LIMIT`. Bytes before the block are not
        /// counted.
        place: u32,
    },
    /// The normal form is longer than `LIMIT`.
    #[error("the normal form is too long")]
    NormalTooLong,
    /// An allocation failed.
    #[error("out of memory")]
    OutOfMemory,
    /// A call of the reader failed.
    #[error("a read failed")]
    ReadFailed,
    /// A call of the writer failed.
    #[error("a write failed")]
    WriteFailed,
}

/// One of two files that are compared.
#[derive(Clone, Copy, Debug, PartialEq, Eq)]
pub enum Side {
    /// The first.
    First,
    /// The second.
    Second,
}

/// Why two files are not compared, or not both normalised.
#[derive(Clone, Copy, Debug, PartialEq, Eq, Error)]
#[error("{fault} in the {side:?} file")]
pub struct CompareFault {
    /// The file with the fault. If it is the first, the second was not read.
    pub side: Side,
    /// `Refused`, `OutOfMemory` or `ReadFailed`; from `normalise_both` also `NormalTooLong`.
    pub fault: Fault,
}

impl From<AllocFailed> for Fault {
    ghost use Rattle.std.specs.Prelude.{◌≡◌};
    ghost use Rattle.px_engine.specs.declared.error.Fault.TheVariants.{OutOfMemory};

    ghost from_gives = { λ _ e. e ≡ OutOfMemory };

    // A failed allocation, as the fault of a run.
    fn from(_: AllocFailed) -> Fault {
        Fault::OutOfMemory
    }
}

impl From<ReadFault> for Fault {
    ghost use Rattle.std.specs.Prelude.{◌≡◌};
    ghost use Rattle.px_engine.specs.calls.Faults.{read_fault};

    ghost from_gives = { λ r e. e ≡ read_fault r };

    // Why a file was not read, as the fault of a run.
    fn from(fault: ReadFault) -> Fault {
        match fault {
            ReadFault::ReadFailed => Fault::ReadFailed,
            ReadFault::OutOfMemory => Fault::OutOfMemory,
        }
    }
}

impl From<Refusal> for Fault {
    ghost use Rattle.std.specs.Prelude.{◌≡◌};
    ghost use Rattle.px_engine.specs.calls.Faults.{refused};

    ghost from_gives = { λ r e. e ≡ refused r };

    // Why a block was refused, as the fault of a run: the cause and the byte offset stay the same.
    fn from(refusal: Refusal) -> Fault {
        match refusal {
            Refusal::Content { cause, place } => Fault::Refused { cause, place },
            Refusal::OutOfMemory => Fault::OutOfMemory,
        }
    }
}

impl From<WriteRefusal> for Fault {
    ghost use Rattle.std.specs.Prelude.{◌≡◌};
    ghost use Rattle.px_engine.specs.calls.Faults.{unwritten};

    ghost from_gives = { λ r e. e ≡ unwritten r };

    // Why a normal form was not written, as the fault of a run.
    fn from(refusal: WriteRefusal) -> Fault {
        match refusal {
            WriteRefusal::NormalTooLong => Fault::NormalTooLong,
            WriteRefusal::OutOfMemory => Fault::OutOfMemory,
            WriteRefusal::WriteFailed => Fault::WriteFailed,
        }
    }
}
