// The command line as clap gets it: the subcommands and their required arguments.
//
// clap allocates each part. `Err` of a function here: an allocation failed.
ghost use Rattle.std.specs.Prelude.{◌≡◌, codes, false, IfOk, IsOkAnd};
ghost use Rattle.clap.specs.Words.{AddsSubcommand, app_of, shape_of, with_rule, with_subcommand};
ghost use Rattle.clap.specs.declared.builder.Command.TheViews.{out-Command};
ghost use Rattle.px_words.specs.Words.{bare, exifnorm, of_one, of_two, required};

use clap::{Arg, Command};
use std::alloc::{AllocError, Global};

// The name of the program in its help.
const NAME: &str = "exifnorm";

// What the program does, at the beginning of its help.
const ABOUT: &str = "Shows, checks, compares and normalises Exif and IPTC (IIM) metadata blocks. \
    Without arguments it normalises standard input to standard output.";

// The exit statuses, at the end of its help.
const STATUSES: &str = "Statuses:
  0  success (compare: the blocks mean the same)
  1  compare: the blocks mean different things
  2  a block is refused: the line has the cause and the byte offset
  3  the arguments are wrong
  4  a read, a write or an allocation failed

All text goes to standard output.";

// A subcommand with one more required argument.
fn with_word<'a>(
    alloc: Global,
    command: Command<'a>,
    word: &'a str,
) -> Result<Command<'a>, AllocError>
    ensures shape { IfOk result (λ c. app_of c ≡ with_rule (app_of command.entry) (required word.entry.now)) }
    ensures local { IfOk result (λ c. (out-Command c).has_globals ≡ (out-Command command.entry).has_globals) }
{
    command.arg(Arg::new(alloc, word).required(true))
}

// A subcommand with one file.
fn of_one<'a>(alloc: Global, name: &'a str, about: &'a str) -> Result<Command<'a>, AllocError>
    ensures shape { IfOk result (λ c. shape_of c ≡ of_one name.entry.now) }
    ensures local { IfOk result (λ c. (out-Command c).has_globals ≡ false) }
{
    with_word(alloc, Command::new(alloc, name).about(about), "FILE")
}

// A subcommand with two files.
fn of_two<'a>(
    alloc: Global,
    name: &'a str,
    about: &'a str,
    first: &'a str,
    second: &'a str,
) -> Result<Command<'a>, AllocError>
    ensures shape { IfOk result (λ c. shape_of c ≡ of_two name.entry.now first.entry.now second.entry.now) }
    ensures local { IfOk result (λ c. (out-Command c).has_globals ≡ false) }
{
    let with_first = with_word(alloc, Command::new(alloc, name).about(about), first)?;
    with_word(alloc, with_first, second)
}

// The command without its subcommands yet. Usage lines show its name, whatever the program's file is called.
fn bare<'a>(alloc: Global, version: &'a str) -> Result<Command<'a>, AllocError>
    ensures shape { IfOk result (λ c. app_of c ≡ bare) }
{
    Command::new(alloc, NAME)
        .version(version)
        .about(ABOUT)
        .after_help(STATUSES)
        .no_binary_name(true)
        .disable_help_subcommand(true)
        .subcommand_required(true)
        .bin_name(NAME)
}

// The command with one more subcommand, if both could be allocated. If one failed, a call drops the other, so
// that dropping it is proved once.
fn joined<'a>(
    command: Result<Command<'a>, AllocError>,
    subcommand: Result<Command<'a>, AllocError>,
) -> Result<Command<'a>, AllocError>
    ensures { IfOk result (λ c. IsOkAnd command.entry (λ old. IsOkAnd subcommand.entry (λ sub. AddsSubcommand old sub c))) }
{
    match command {
        Ok(command) => match subcommand {
            Ok(subcommand) => command.subcommand(subcommand),
            Err(error) => {
                drop(command);
                Err(error)
            }
        },
        Err(error) => {
            drop(subcommand);
            Err(error)
        }
    }
}

// The command with one more subcommand that takes one file.
fn with_one<'a>(
    alloc: Global,
    command: Result<Command<'a>, AllocError>,
    name: &'a str,
    about: &'a str,
) -> Result<Command<'a>, AllocError>
    ensures { IfOk result (λ c. IsOkAnd command.entry (λ old. app_of c ≡ with_subcommand (app_of old) (of_one name.entry.now))) }
{
    joined(command, of_one(alloc, name, about))
}

// The command with the subcommands that print something of one file.
fn with_reports<'a>(alloc: Global, version: &'a str) -> Result<Command<'a>, AllocError>
    ensures { IfOk result (λ c. app_of c ≡ with_subcommand (with_subcommand (with_subcommand bare
        (of_one (codes "show"))) (of_one (codes "check"))) (of_one (codes "captions"))) }
{
    let bare = bare(alloc, version);
    let shows = with_one(
        alloc,
        bare,
        "show",
        "Print what the block means, a line for each field",
    );
    let checks = with_one(
        alloc,
        shows,
        "check",
        "Print the block's kind, or why it is refused",
    );
    let about = "Print the captions, names, keywords and rights in the block";
    with_one(alloc, checks, "captions", about)
}

// The command with `normalise`.
fn with_normalise<'a>(
    alloc: Global,
    command: Result<Command<'a>, AllocError>,
) -> Result<Command<'a>, AllocError>
    ensures { IfOk result (λ c. IsOkAnd command.entry (λ old. app_of c ≡ with_subcommand (app_of old)
        (of_two (codes "normalise") (codes "FILE") (codes "OUT")))) }
{
    let about = "Write the block's normal form to OUT, and print nothing";
    joined(command, of_two(alloc, "normalise", about, "FILE", "OUT"))
}

// The command with `compare`.
fn with_compare<'a>(
    alloc: Global,
    command: Result<Command<'a>, AllocError>,
) -> Result<Command<'a>, AllocError>
    ensures { IfOk result (λ c. IsOkAnd command.entry (λ old. app_of c ≡ with_subcommand (app_of old)
        (of_two (codes "compare") (codes "FIRST") (codes "SECOND")))) }
{
    let about = "Print whether two blocks mean the same";
    joined(command, of_two(alloc, "compare", about, "FIRST", "SECOND"))
}

/// The whole command, for the arguments after the program's name: `show`, `check` and `captions` with one FILE,
/// `normalise` with FILE and OUT, and `compare` with FIRST and SECOND, all required, and one of these subcommands.
/// `Err`: an allocation failed.
pub fn command<'a>(alloc: Global, version: &'a str) -> Result<Command<'a>, AllocError>
    ensures { IfOk result (λ c. app_of c ≡ exifnorm) }
{
    with_compare(alloc, with_normalise(alloc, with_reports(alloc, version)))
}
