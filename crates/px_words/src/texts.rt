// Texts for a terminal: without control characters, except line feeds.
ghost use Rattle.std.specs.Prelude.{IfOk, string_bytes};
ghost use Rattle.px_words.specs.Words.{IsPlain, IsPrintable};
ghost use Rattle.px_bytes.specs.Allocations.{CountsAllocFailure};

use px_bytes::{AllocFailed, Memory};
use std::fmt;
use std::marker::Model;

/// A writer of a text. Each control character but a line feed is written as `?`, as `ls` does. An allocation that
/// fails counts in memory of its own, which `finish` passes on.
#[derive(Drop)]
pub struct Plain {
    memory: Memory,
    text: String,
}

impl Model for Plain {
    ghost use Rattle.std.specs.Prelude.{ℕ, List, string_bytes};
    ghost use Rattle.px_words.specs.Words.{IsPlain};

    ghost Value = { List ℕ };

    ghost view = { λ p. string_bytes p.text };

    ghost invariant = { λ p. IsPlain (string_bytes p.text) };
}

// The character that is written for another.
fn printable(c: char) -> char
    ensures { IsPrintable result }
{
    if c == '\n' {
        return c;
    }
    if c.is_control() {
        return '?';
    }
    c
}

// Appends a character.
fn push(memory: &mut Memory, text: &mut String, c: char) -> Result<(), AllocFailed>
    requires { IsPlain (string_bytes text.old) }
    ensures { IsPlain (string_bytes text.new) }
{
    let mut bytes = [0; 4];
    memory.push_str(text, printable(c).encode_utf8(&mut bytes))
}

// Appends the characters of `more`.
fn push_all(memory: &mut Memory, text: &mut String, more: &str) -> Result<(), AllocFailed>
    requires { IsPlain (string_bytes text.old) }
    ensures { IsPlain (string_bytes text.new) }
{
    for c in more.chars() {
        push(memory, text, c)?;
    }
    Ok(())
}

impl Plain {
    /// An empty text. Allocates nothing.
    pub fn new(memory: &Memory) -> Plain {
        Plain {
            memory: memory.fresh(),
            text: memory.text(),
        }
    }

    /// The text: line feeds, and characters that are no control characters. `Err`: an allocation failed, which is
    /// counted.
    pub fn finish(self, memory: &mut Memory) -> Result<String, AllocFailed>
        ensures plain { IfOk result (λ text. IsPlain (string_bytes text)) }
        ensures memory { CountsAllocFailure result memory.old memory.new }
    {
        let Plain { memory: own, text } = self;
        memory.join(&own)?;
        Ok(text)
    }
}

impl fmt::Write for Plain {
    // Appends `more`, each control character but a line feed as `?`. `Err`: an allocation failed.
    fn write_str(&mut self, more: &str) -> fmt::Result {
        match push_all(&mut self.memory, &mut self.text, more) {
            Ok(()) => Ok(()),
            Err(_) => Err(fmt::Error),
        }
    }
}
