// What the program's arguments mean.
ghost use Rattle.std.specs.Prelude.{◌≡◌, ◌↔◌, ◌⊎◌, Some, [], map, codes, IfOk};
ghost use Rattle.clap.specs.Words.{fault_of, first_of, found_of, kind_of, rows_of, subcommand_of, subcommand_rows_of};
ghost use Rattle.px_words.specs.declared.words.Words.TheVariants as words_of;
ghost use Rattle.px_words.specs.Words.{exifnorm, name_of, Asks, AsksFiles, AreTaken, IsFor, MatchesFiles, TakesCommands};
ghost use Rattle.px_words.specs.Words.{CountsAllocFailureInWords, IsPlain, ShowsPlain};
ghost use Rattle.px_words.specs.calls.Met.{IsTextForKind, IsText, AsksIn, IsMet, IsThere};
ghost use Rattle.px_bytes.specs.Allocations.{CountsAllocFailure};

use crate::parser::Parser;
use crate::texts::Plain;
use clap::error::ErrorKind;
use clap::{ArgMatches, Error};
use px_bytes::{AllocFailed, Memory};
use std::convert::AsStr;
use std::fmt::Write;
use std::marker::Model;

/// An owned text. Contracts see its characters in UTF-8.
#[derive(Debug, Drop)]
pub struct Text {
    text: String,
}

impl Model for Text {
    ghost use Rattle.std.specs.Prelude.{ℕ, List, string_bytes};

    ghost Value = { List ℕ };

    ghost view = { λ t. string_bytes t.text };
}

impl Text {
    // A copy of a text. `Err`: an allocation failed.
    fn of(memory: &mut Memory, text: &str) -> Result<Text, AllocFailed>
        ensures text { IfOk result (λ t. t ≡ text.now) }
        ensures memory { CountsAllocFailure result memory.old memory.new }
    {
        let mut copy = memory.text();
        memory.push_str(&mut copy, text)?;
        Ok(Text { text: copy })
    }

    /// The text. It allocates nothing.
    pub fn as_str(&self) -> &str
        ensures { result.now ≡ self.now }
    {
        self.text.as_str()
    }
}

/// What to print of one file.
#[derive(Clone, Copy, Debug, PartialEq, Eq)]
pub enum One {
    /// The listing of the block.
    Show,
    /// Whether the block is accepted, and its kind.
    Check,
    /// The captions of the block.
    Captions,
}

/// What the arguments mean.
#[derive(Debug, Drop)]
pub enum Words {
    /// No arguments: normalise standard input to standard output.
    Filter,
    /// Print `what` of the block in `file`.
    One { what: One, file: Text },
    /// Write the normal form of the block in `file` to `out`, which is a different argument.
    Normalise { file: Text, out: Text },
    /// Compare the blocks in `first` and `second`.
    Compare { first: Text, second: Text },
    /// Print this text: the help or the version.
    Help(Text),
    /// The arguments are refused, with this text.
    Refused(Text),
    /// An allocation failed while an argument or a text of clap was copied.
    NoMemory,
    /// clap, which allocates by itself, ran out of memory while it parsed the arguments.
    Unread,
}

/// The text if `normalise` has the same name for both files.
pub const OUT_IS_FILE: &str = "refused words: OUT is FILE";

// The argument at an id that the subcommand's match contains. `Err`: an allocation failed.
fn word_at(memory: &mut Memory, inner: &ArgMatches<'_>, id: &str) -> Result<Text, AllocFailed>
    requires { IsThere id.now (rows_of (found_of inner.now)) }
    ensures word { IfOk result (λ t. first_of id.now (rows_of (found_of inner.now)) ≡ Some t) }
    ensures memory { CountsAllocFailure result memory.old memory.new }
{
    let Some(word) = inner.get_str(id) else {
        unreachable!()
    };
    Text::of(memory, word)
}

// A refusal with this line as its text, or `NoMemory` if an allocation failed.
fn refuse(memory: &mut Memory, line: &str) -> Words
    ensures line { (result ≡ words_of.NoMemory) ⊎ (result ≡ words_of.Refused line.now) }
    ensures memory { CountsAllocFailureInWords result memory.old memory.new }
{
    match Text::of(memory, line) {
        Ok(text) => Words::Refused(text),
        Err(_) => Words::NoMemory,
    }
}

// The result for a command with one file.
fn read_one(memory: &mut Memory, what: One, inner: &ArgMatches<'_>) -> Words
    requires { IsThere (codes "FILE") (rows_of (found_of inner.now)) }
    ensures asked { AsksIn (Some (name_of what, rows_of (found_of inner.now))) result }
    ensures memory { CountsAllocFailureInWords result memory.old memory.new }
{
    let Ok(file) = word_at(memory, inner, "FILE") else {
        return Words::NoMemory;
    };
    Words::One { what, file }
}

// The result for `normalise`: two files, or a refusal if both arguments are equal.
fn read_normalise(memory: &mut Memory, inner: &ArgMatches<'_>) -> Words
    requires file { IsThere (codes "FILE") (rows_of (found_of inner.now)) }
    requires out { IsThere (codes "OUT") (rows_of (found_of inner.now)) }
    ensures asked { AsksIn (Some (codes "normalise", rows_of (found_of inner.now))) result }
    ensures memory { CountsAllocFailureInWords result memory.old memory.new }
{
    let Ok(file) = word_at(memory, inner, "FILE") else {
        return Words::NoMemory;
    };
    let Ok(out) = word_at(memory, inner, "OUT") else {
        return Words::NoMemory;
    };
    if file.as_str() == out.as_str() {
        return refuse(memory, OUT_IS_FILE);
    }
    Words::Normalise { file, out }
}

// The result for `compare`.
fn read_compare(memory: &mut Memory, inner: &ArgMatches<'_>) -> Words
    requires first { IsThere (codes "FIRST") (rows_of (found_of inner.now)) }
    requires second { IsThere (codes "SECOND") (rows_of (found_of inner.now)) }
    ensures asked { AsksIn (Some (codes "compare", rows_of (found_of inner.now))) result }
    ensures memory { CountsAllocFailureInWords result memory.old memory.new }
{
    let Ok(first) = word_at(memory, inner, "FIRST") else {
        return Words::NoMemory;
    };
    let Ok(second) = word_at(memory, inner, "SECOND") else {
        return Words::NoMemory;
    };
    Words::Compare { first, second }
}

// The result for a subcommand and its arguments. The command has no other subcommand, and a match contains
// each required argument.
fn read_subcommand(memory: &mut Memory, name: &str, inner: &ArgMatches<'_>) -> Words
    requires { IsMet (Some (name.now, rows_of (found_of inner.now))) }
    ensures asked { AsksIn (Some (name.now, rows_of (found_of inner.now))) result }
    ensures memory { CountsAllocFailureInWords result memory.old memory.new }
{
    if name == "show" {
        return read_one(memory, One::Show, inner);
    }
    if name == "check" {
        return read_one(memory, One::Check, inner);
    }
    if name == "captions" {
        return read_one(memory, One::Captions, inner);
    }
    if name == "normalise" {
        return read_normalise(memory, inner);
    }
    if name == "compare" {
        return read_compare(memory, inner);
    }
    unreachable!()
}

// The result for a match. The command requires a subcommand, so a match contains one.
fn read_match(memory: &mut Memory, matches: &ArgMatches<'_>) -> Words
    requires { IsMet (subcommand_rows_of matches.now) }
    ensures asked { AsksIn (subcommand_rows_of matches.now) result }
    ensures memory { CountsAllocFailureInWords result memory.old memory.new }
{
    let Some((name, inner)) = matches.subcommand() else {
        unreachable!()
    };
    read_subcommand(memory, name, inner)
}

// clap's text, without its control characters. `Err`: an allocation failed.
fn text_of(memory: &mut Memory, error: &Error) -> Result<Text, AllocFailed>
    ensures plain { IfOk result (λ text. IsPlain text) }
    ensures memory { CountsAllocFailure result memory.old memory.new }
{
    let mut plain = Plain::new(memory);
    // It fails only if an allocation failed, which `finish` reports.
    let _ = write!(plain, "{error}");
    let text = plain.finish(memory)?;
    Ok(Text { text })
}

// clap's text if there is no match: `Help` if it was asked for, or else `Refused`. `NoMemory`: an
// allocation of `memory` failed. `Unread`: clap ran out of memory, and has no text.
fn read_error(memory: &mut Memory, error: &Error) -> Words
    ensures asked { IsText result }
    ensures kind { IsTextForKind (kind_of error.now) result }
    ensures lacking { kind_of error.now ≡ ErrorKind.OutOfMemory ↔ result ≡ words_of.Unread }
    ensures plain { ShowsPlain result }
    ensures memory { CountsAllocFailureInWords result memory.old memory.new }
{
    let kind = error.kind();
    if kind == ErrorKind::OutOfMemory {
        return Words::Unread;
    }
    let Ok(text) = text_of(memory, error) else {
        return Words::NoMemory;
    };
    if kind == ErrorKind::DisplayHelp || kind == ErrorKind::DisplayVersion {
        return Words::Help(text);
    }
    Words::Refused(text)
}

/// clap finds no mistake, and no request for help, in `show FILE`, `check FILE`, `captions FILE`,
/// `normalise FILE OUT` and `compare FIRST SECOND`, if each name is empty or begins with another byte than a hyphen;
/// and, with any names, if `--` stands between the command and these. It does nothing: its contract is a law.
pub fn commands_are_taken()
    ensures { TakesCommands }
{}

/// For `show FILE`, `check FILE`, `captions FILE`, `normalise FILE OUT` and `compare FIRST SECOND`, if each name is
/// empty or begins with another byte than a hyphen, clap's match has that subcommand, with each name at its argument.
/// Arguments with `--` it leaves out. It does nothing: its contract is a law.
pub fn files_are_matched()
    ensures { MatchesFiles }
{}

/// Parses the arguments; `version` is the version to print. The result is `Filter` exactly if there are none, and
/// then clap is not called. `One`, `Normalise` and `Compare` have the names of clap's match, and mean that clap finds
/// no mistake; the two names of `Normalise` differ. `Refused` means a mistake or, without any, one name for both
/// files of `normalise`. `Help` means that help or the version was asked for. Both are text without control
/// characters but line feeds. `NoMemory`: an allocation of `memory` failed. `Unread`: clap ran out of memory.
pub fn parse<'a, S: AsStr, P: Parser>(
    memory: &mut Memory,
    parser: &P,
    words: &'a [S],
    version: &'a str,
) -> Words
    ensures filter { map S.text words.entry.now ≡ [] ↔ result ≡ words_of.Filter }
    ensures asked { Asks (subcommand_of exifnorm (map S.text words.entry.now)) result }
    ensures fault { IsFor (fault_of exifnorm (map S.text words.entry.now)) result }
    ensures taken { AreTaken (map S.text words.entry.now) → AsksFiles (subcommand_of exifnorm (map S.text words.entry.now)) result }
    ensures lacking { result ≡ words_of.Unread → P.lacks parser.now (map S.text words.entry.now) }
    ensures plain { ShowsPlain result }
    ensures memory { CountsAllocFailureInWords result memory.old memory.new }
{
    if words.is_empty() {
        return Words::Filter;
    }
    match parser.matches_of(words, version) {
        Ok(matches) => read_match(memory, &matches),
        Err(error) => read_error(memory, &error),
    }
}
