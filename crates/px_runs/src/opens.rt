// The files of a run, by name.
ghost use Rattle.std.specs.Prelude.{⊤, ℕ, List, Option, Result, IfErr};
ghost use Rattle.px_engine.specs.declared.Fault.{Fault};
ghost use Rattle.px_engine.specs.declared.Fault.TheVariants.{ReadFailed, WriteFailed};
ghost use Rattle.px_runs.specs.Programs.{IsLacking};

use px_engine::Fault;
use std::io::{Read, Write};

/// Files, by name. Contracts see each call as a relation: the files before it, what it got, what it returned, and
/// the files after it. Only a call establishes its relation, so a chain of them names all calls of a run.
pub trait Opens {
    /// A file to read.
    type Reader: Read + Drop;

    /// A file to write.
    type Writer: Write + Drop;

    // The file with that name was opened, or couldn't be.
    ghost opens: { Self → List ℕ → Result Self.Reader Fault → Self → Type 0 };

    // The file with that name was created or emptied, or couldn't be; or it is the one that the reader reads.
    ghost makes: { Self → List ℕ → Self.Reader → Result (Option Self.Writer) Fault → Self → Type 0 };

    // The writer was closed, with all that it had taken, or that failed. Nothing is written by it afterwards.
    ghost closes: { Self → Self.Writer → Result ⊤ Fault → Self → Type 0 };

    /// Opens a file to read.
    fn open(&mut self, name: &str) -> Result<Self::Reader, Fault>
        ensures opens { opens self.old name.now result self.new }
        ensures lacking { IfErr result (IsLacking ReadFailed) };

    /// Creates or empties a file to write. None if it is the one that is being read.
    fn make_beside(
        &mut self,
        name: &str,
        file: &Self::Reader,
    ) -> Result<Option<Self::Writer>, Fault>
        ensures makes { makes self.old name.now file.now result self.new }
        ensures lacking { IfErr result (IsLacking WriteFailed) };

    /// Closes a file that was written. `Err`: only now the system reports that a write failed, as a file system over
    /// a network may, or one with quotas.
    fn close(&mut self, out: Self::Writer) -> Result<(), Fault>
        ensures closes { closes self.old out result self.new }
        ensures lacking { IfErr result (IsLacking WriteFailed) };
}
