// The listing: a line for each property and each member.
ghost use Rattle.px_bytes.specs.Allocations.{CountsAllocFailure};
ghost use Rattle.px_xmp_lines.specs.Lines.{ArePrinted, KeepsPrinted};

use crate::escaping::{append, append_after_space};
use crate::names::append_name;
use crate::parts::{Kind, Part, advance, depth_after, read_part};
use px_bytes::{AllocFailed, Memory};

// The most levels by which a line is indented; a normal form has at most 100.
const MOST_NESTED: usize = 255;

// The word for the kind of a value.
fn word(kind: Kind) -> &'static [u8]
    ensures { ArePrinted result.now }
{
    match kind {
        Kind::Text => b"text",
        Kind::Uri => b"URI",
        Kind::Structure => b"structure",
        Kind::Bag => b"Bag",
        Kind::Seq => b"Seq",
        Kind::Alt => b"Alt",
        Kind::End => b"",
    }
}

// Appends a full stop and a space for each part around a line's.
fn append_depth(memory: &mut Memory, out: &mut Vec<u8>, depth: usize) -> Result<(), AllocFailed>
    ensures memory { CountsAllocFailure result memory.old memory.new }
    ensures printed { KeepsPrinted out.old.items out.new.items }
{
    for _ in 0..depth.min(MOST_NESTED) {
        append(memory, out, b". ")?;
    }
    Ok(())
}

// Appends the line of a property or a member.
fn append_line(
    memory: &mut Memory,
    out: &mut Vec<u8>,
    depth: usize,
    part: Part,
) -> Result<(), AllocFailed>
    ensures memory { CountsAllocFailure result memory.old memory.new }
    ensures printed { KeepsPrinted out.old.items out.new.items }
{
    append_depth(memory, out, depth)?;
    append_name(memory, out, part)?;
    append(memory, out, word(part.kind))?;
    append_after_space(memory, out, part.language)?;
    append(memory, out, b":")?;
    append_after_space(memory, out, part.text)?;
    append(memory, out, b"\n")
}

// Appends the line of a part, if it has one.
fn append_part(
    memory: &mut Memory,
    out: &mut Vec<u8>,
    depth: usize,
    part: Part,
) -> Result<(), AllocFailed>
    ensures memory { CountsAllocFailure result memory.old memory.new }
    ensures printed { KeepsPrinted out.old.items out.new.items }
{
    if part.kind == Kind::End {
        return Ok(());
    }
    append_line(memory, out, depth, part)
}

// Appends the lines of the properties of a form.
pub(crate) fn append_listing(
    memory: &mut Memory,
    out: &mut Vec<u8>,
    properties: &[u8],
) -> Result<(), AllocFailed>
    ensures memory { CountsAllocFailure result memory.old memory.new }
    ensures printed { KeepsPrinted out.old.items out.new.items }
{
    let mut depth = 0;
    let mut rest = properties;
    while !rest.is_empty() {
        let part = read_part(rest);
        append_part(memory, out, depth, part)?;
        depth = depth_after(depth, part.kind);
        rest = advance(rest, part.size);
    }
    Ok(())
}
