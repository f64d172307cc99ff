// Packets of XMP: how a file is printed that is no block.
ghost use Rattle.std.specs.Prelude.{◌≡◌, ◌≢◌, ◌++◌, Err, IfOk, OnOk};
ghost use Rattle.px_bytes.specs.Devices.{CanCountFailure, device_of, Sends};
ghost use Rattle.px_bytes.specs.Waiting.{Adds};
ghost use Rattle.px_engine.specs.declared.Fault.{Fault};
ghost use Rattle.px_engine.specs.declared.Fault.TheVariants.{WriteFailed};
ghost use Rattle.px_xmp.specs.Accepted.{PacketFits};
ghost use Rattle.px_xmp.specs.Laws.{HasNoMeaning};
ghost use Rattle.px_xmp.specs.Packet.{IsPacket};
ghost use Rattle.px_xmp.specs.Refusals.{IfRefused, IsRefused};
ghost use Rattle.px_xmp_forms.specs.Allocations.{CountsAllocFailureInPacket};
ghost use Rattle.px_xmp_forms.specs.Causes.{IfWrong, FailsByMemory};
ghost use Rattle.px_xmp_lines.specs.Lines.{ArePrinted};
ghost use Rattle.px_runs.specs.Lines.{FlushesLast, Reports};
ghost use Rattle.px_runs.specs.Packets.{end_of_packet, is_other, packet_line, PrintsPacket, ReportsPacket};
ghost use Rattle.px_runs.specs.calls.Printing.{text_in, ReportsFile};

use crate::lines::{flushed, print_bytes, report_fault};
use crate::printed::report_printed;
use itoa::Buffer;
use px_bytes::{CAPACITY, Failed, Memory, Pending, Sink};
use px_engine::Fault;
use px_xmp_forms::{Cause, Refusal};
use px_xmp_lines::is_packet;

/// A text of a packet.
#[derive(Clone, Copy, Debug, PartialEq, Eq)]
pub(crate) enum Text {
    Listing,
    Captions,
}

// The end of the line of a packet that is refused.
fn packet_ending(is_rare: bool) -> &'static [u8]
    ensures { result.now ≡ end_of_packet is_rare }
{
    match is_rare {
        true => b" (rare: another reader may read the packet, as that of exifnorm-pictures)\n",
        false => b"\n",
    }
}

// Adds the line of a packet that is refused.
fn put_packet_refusal<L: Sink>(
    pending: &mut Pending<'_>,
    lines: &mut L,
    cause: Cause,
    place: usize,
) -> Result<(), Failed>
    requires { CanCountFailure (L.calls lines.old) }
    ensures { Adds result (device_of L.calls L.bytes_taken lines.old lines.new) pending.old pending.new (packet_line cause place) }
{
    let mut digits = Buffer::new();
    pending.put(lines, b"refused: ")?;
    pending.put(lines, cause.name())?;
    pending.put(lines, b" at ")?;
    pending.put(lines, digits.format(place).as_bytes())?;
    pending.put(lines, packet_ending(cause.is_rare()))
}

// Writes the line of a packet that is refused, in one write if the writer takes it.
fn write_packet_refusal<L: Sink>(lines: &mut L, cause: Cause, place: usize) -> Result<(), Failed>
    requires { CanCountFailure (L.calls lines.old) }
    ensures { Sends result (device_of L.calls L.bytes_taken lines.old lines.new) (packet_line cause place) }
{
    let mut space = [0; CAPACITY];
    let mut pending = Pending::new(&mut space);
    put_packet_refusal(&mut pending, lines, cause, place)?;
    pending.send(lines)
}

// Reports a packet that is refused. It allocates nothing.
fn report_content<L: Sink>(lines: &mut L, cause: Cause, place: usize) -> u8
    requires { CanCountFailure (L.calls lines.old) }
    ensures reported { Reports 2 (packet_line cause place) result (device_of L.calls L.bytes_taken lines.old lines.new) }
    ensures last { FlushesLast (L.calls lines.old) (L.calls lines.new) (L.unflushed lines.new) }
{
    match write_packet_refusal(lines, cause, place) {
        Ok(()) => flushed(lines, 2),
        Err(_) => 4,
    }
}

// Reports why a packet has no text.
fn report_refusal<L: Sink>(lines: &mut L, refusal: Refusal) -> u8
    requires { CanCountFailure (L.calls lines.old) }
    ensures reported { ReportsPacket (Err refusal) result (device_of L.calls L.bytes_taken lines.old lines.new) }
    ensures last { FlushesLast (L.calls lines.old) (L.calls lines.new) (L.unflushed lines.new) }
{
    match refusal {
        Refusal::Content { cause, place } => report_content(lines, cause, place),
        Refusal::OutOfMemory => report_fault(lines, Fault::OutOfMemory, None),
    }
}

// Writes the text of a packet, or reports why it has none.
fn report_packet<L: Sink>(lines: &mut L, text: Result<Vec<u8>, Refusal>) -> u8
    requires { CanCountFailure (L.calls lines.old) }
    ensures reported { ReportsPacket (text_in (λ v. v.items) text) result (device_of L.calls L.bytes_taken lines.old lines.new) }
    ensures last { FlushesLast (L.calls lines.old) (L.calls lines.new) (L.unflushed lines.new) }
{
    match text {
        Ok(text) => print_bytes(lines, text.as_slice(), 0),
        Err(refusal) => report_refusal(lines, refusal),
    }
}

// The text of a packet.
fn packet_text(memory: &mut Memory, file: &[u8], text: Text) -> Result<Vec<u8>, Refusal>
    ensures packet { OnOk result (IsPacket file.now) }
    ensures printed { IfOk result (λ text. ArePrinted text.items) }
    ensures layer { IfRefused result (IsRefused file.now) }
    ensures refused { IfWrong result (HasNoMeaning file.now) }
    ensures accepts { PacketFits file.now → FailsByMemory result }
    ensures memory { CountsAllocFailureInPacket result memory.old memory.new }
{
    match text {
        Text::Listing => px_xmp_lines::listing_in(memory, file),
        Text::Captions => px_xmp_lines::captions_in(memory, file),
    }
}

// Prints a packet, or reports why it is refused.
fn print_packet<L: Sink>(memory: &mut Memory, file: &[u8], text: Text, lines: &mut L) -> u8
    requires { CanCountFailure (L.calls lines.old) }
    ensures reported { PrintsPacket file.now (device_of L.calls L.bytes_taken lines.old lines.new) memory.old memory.new result }
    ensures last { FlushesLast (L.calls lines.old) (L.calls lines.new) (L.unflushed lines.new) }
{
    report_packet(lines, packet_text(memory, file, text))
}

// Whether a file that is refused as a block for this fault begins as a packet does.
fn is_other_fault(fault: Fault, file: &[u8]) -> bool
    ensures { result ≡ is_other (Err fault) file.now }
{
    match fault {
        Fault::Refused { cause: _, place: _ } => is_packet(file),
        Fault::NormalTooLong | Fault::OutOfMemory | Fault::ReadFailed | Fault::WriteFailed => false,
    }
}

// Whether a file is refused as a block and begins as a packet does.
fn is_other(printed: Result<(), Fault>, file: &[u8]) -> bool
    ensures { result ≡ is_other printed file.now }
{
    match printed {
        Ok(()) => false,
        Err(fault) => is_other_fault(fault, file),
    }
}

// Reports a failed text of a block; or prints a packet that is refused as a block.
pub(crate) fn report_file<L: Sink>(
    memory: &mut Memory,
    file: &[u8],
    text: Text,
    lines: &mut L,
    printed: Result<(), Fault>,
) -> u8
    requires { (e : Fault) → printed ≡ Err e → e ≢ WriteFailed → CanCountFailure (L.calls lines.old) }
    ensures reported { ReportsFile printed file.now (device_of L.calls L.bytes_taken lines.old lines.new)
        memory.old memory.new result }
    ensures last { FlushesLast (L.calls lines.old) (L.calls lines.new) (L.unflushed lines.new) }
    ensures still { L.calls lines.new ≡ L.calls lines.old → lines.new ≡ lines.old }
{
    if is_other(printed, file) {
        return print_packet(memory, file, text, lines);
    }
    report_printed(lines, printed)
}
