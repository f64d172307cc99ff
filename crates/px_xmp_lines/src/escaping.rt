// Octets and texts of a form, appended to lines. Only octets from space to tilde are printed, and line feeds between lines.
ghost use Rattle.std.specs.Prelude.{◌≡◌, ◌<◌, true};
ghost use Rattle.px_bytes.specs.Allocations.{CountsAllocFailure};
ghost use Rattle.px_xmp_lines.specs.Lines.{is_printed, ArePrinted, KeepsPrinted};

use crate::parts::advance;
use px_bytes::{AllocFailed, Memory};

// What a reference or an octet means, and its length.
#[derive(Clone, Copy, Debug, PartialEq, Eq)]
struct Character {
    octet: u8,
    size: usize,
}

// Appends octets that may be printed as they are.
pub(crate) fn append(
    memory: &mut Memory,
    out: &mut Vec<u8>,
    octets: &[u8],
) -> Result<(), AllocFailed>
    requires { ArePrinted octets.now }
    ensures memory { CountsAllocFailure result memory.old memory.new }
    ensures printed { KeepsPrinted out.old.items out.new.items }
{
    memory.extend_from_slice(out, octets)
}

// Whether an octet is printed as it is: it is from 20 to 7E, and no backslash.
fn is_plain(octet: u8) -> bool
    ensures { result ≡ true → is_printed octet ≡ true }
{
    0x20 <= octet && octet <= 0x7E && octet != 0x5C
}

// A number below 16 as a hexadecimal digit.
fn digit(number: u8) -> u8
    requires { number < 16 }
    ensures { is_printed result ≡ true }
{
    if number < 10 {
        return number.saturating_add(b'0');
    }
    number.saturating_add(b'a' - 10)
}

// Appends an octet, escaped unless it is plain.
fn append_octet(memory: &mut Memory, out: &mut Vec<u8>, octet: u8) -> Result<(), AllocFailed>
    ensures memory { CountsAllocFailure result memory.old memory.new }
    ensures printed { KeepsPrinted out.old.items out.new.items }
{
    if is_plain(octet) {
        return memory.push(out, octet);
    }
    append(memory, out, &[b'\\', digit(octet / 16), digit(octet % 16)])
}

// The character at the start of a text of a form, which has four references.
fn character_at(octets: &[u8]) -> Character {
    if octets.starts_with(b"&lt;") {
        return Character {
            octet: b'<',
            size: 4,
        };
    }
    if octets.starts_with(b"&gt;") {
        return Character {
            octet: b'>',
            size: 4,
        };
    }
    if octets.starts_with(b"&amp;") {
        return Character {
            octet: b'&',
            size: 5,
        };
    }
    if octets.starts_with(b"&#13;") {
        return Character {
            octet: b'\r',
            size: 5,
        };
    }
    match octets.first() {
        Some(octet) => Character {
            octet: *octet,
            size: 1,
        },
        None => Character { octet: 0, size: 1 },
    }
}

// Appends a text of a form, escaped.
pub(crate) fn append_text(
    memory: &mut Memory,
    out: &mut Vec<u8>,
    text: &[u8],
) -> Result<(), AllocFailed>
    ensures memory { CountsAllocFailure result memory.old memory.new }
    ensures printed { KeepsPrinted out.old.items out.new.items }
{
    let mut rest = text;
    while !rest.is_empty() {
        let character = character_at(rest);
        append_octet(memory, out, character.octet)?;
        rest = advance(rest, character.size);
    }
    Ok(())
}

// Appends a space and a text, if there is one.
pub(crate) fn append_after_space(
    memory: &mut Memory,
    out: &mut Vec<u8>,
    text: &[u8],
) -> Result<(), AllocFailed>
    ensures memory { CountsAllocFailure result memory.old memory.new }
    ensures printed { KeepsPrinted out.old.items out.new.items }
{
    if text.is_empty() {
        return Ok(());
    }
    append(memory, out, b" ")?;
    append_text(memory, out, text)
}
