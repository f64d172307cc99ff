// The call of clap. No contract can state what this file has to show: clap reports that it ran out of memory only
// if an allocation failed.
ghost use Rattle.std.specs.Prelude.{◌≡◌, ℕ, List, map, IfErr, IfOk};
ghost use Rattle.clap.specs.Words.{FailsBy, fault_of, kind_of, subcommand_of, subcommand_rows_of};
ghost use Rattle.px_words.specs.Words.{exifnorm};

use crate::grammar::command;
use clap::error::ErrorKind;
use clap::{ArgMatches, Error};
use std::alloc::Global;
use std::convert::AsStr;

/// Matches the program's arguments. Contracts see by `lacks` that this ran out of memory. Only a call establishes
/// it, so nothing else is reported as that.
pub trait Parser {
    // clap ran out of memory over these arguments
    ghost lacks: { Self → List (List ℕ) → Type 0 };

    /// Matches the arguments with the program's command. `Err` has a text of clap, or reports that clap ran out of
    /// memory.
    fn matches_of<'a, S: AsStr>(
        &self,
        words: &'a [S],
        version: &'a str,
    ) -> Result<ArgMatches<'a>, Error>
        ensures rows { IfOk result (λ m. subcommand_rows_of m ≡ subcommand_of exifnorm (map S.text words.entry.now)) }
        ensures kinds { FailsBy (fault_of exifnorm (map S.text words.entry.now)) result }
        ensures lacks { IfErr result (λ e. kind_of e ≡ ErrorKind.OutOfMemory → lacks self.now (map S.text words.entry.now)) };
}

/// clap, which allocates by itself.
#[derive(Drop)]
pub struct Clap {
    alloc: Global,
}

impl Clap {
    /// clap over an allocator. Allocates nothing.
    pub fn new(alloc: Global) -> Clap {
        Clap { alloc }
    }
}

impl Parser for Clap {
    ghost use Rattle.std.specs.Prelude.{⊤};

    ghost lacks = { λ _ _. ⊤ };

    // Parses the arguments `words` by the grammar of the program. `version` is what `--version`
    // prints. `Err`: a mistake in them, a request for help or for the version, or a failed
    // allocation.
    fn matches_of<'a, S: AsStr>(
        &self,
        words: &'a [S],
        version: &'a str,
    ) -> Result<ArgMatches<'a>, Error> {
        let command = command(self.alloc, version)?;
        command.try_get_matches_from(words)
    }
}
