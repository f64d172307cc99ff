// The lines of a packet.
ghost use Rattle.std.specs.Prelude.{◌≡◌, IfOk, OnOk};
ghost use Rattle.px_bytes.specs.Allocations.{CountsAllocFailure};
ghost use Rattle.px_xmp.specs.Accepted.{PacketFits};
ghost use Rattle.px_xmp.specs.Laws.{HasNoMeaning};
ghost use Rattle.px_xmp.specs.Packet.{is_around, IsPacket};
ghost use Rattle.px_xmp.specs.Refusals.{IfRefused, IsRefused};
ghost use Rattle.px_xmp_forms.specs.Allocations.{CountsAllocFailureInPacket};
ghost use Rattle.px_xmp_forms.specs.Causes.{IfWrong, FailsByMemory};
ghost use Rattle.px_xmp_lines.specs.Lines.{begins_mark, is_wide, is_packet, ArePrinted, KeepsPrinted};

use crate::captions::append_captions;
use crate::escaping::append;
use crate::listing::append_listing;
use crate::parts::skip;
use px_bytes::{AllocFailed, Memory};
use px_xmp::{Refusal, normal_form_in};

// The number of octets of a normal form before its properties.
const HEAD_LEN: usize = 131;

// The number of octets of a normal form after its properties, which are three end tags.
const TAIL_LEN: usize = 40;

// Whether an octet may precede a packet's document.
fn is_around(octet: u8) -> bool
    ensures { result ≡ is_around octet }
{
    octet == 0
        || octet == b' '
        || octet == b'\t'
        || octet == b'\n'
        || octet == b'\r'
        || octet == 0xEF
        || octet == 0xBB
        || octet == 0xBF
}

// Whether the first octet after zeros, white space and byte order marks begins a tag.
fn begins_mark(file: &[u8]) -> bool
    ensures { result ≡ begins_mark file.now }
{
    for octet in file {
        if *octet == b'<' {
            return true;
        }
        if !is_around(*octet) {
            return false;
        }
    }
    false
}

// Whether a file begins with a byte order mark of UTF-16.
fn is_wide(file: &[u8]) -> bool
    ensures { result ≡ is_wide file.now }
{
    file.starts_with(b"\xFF\xFE") || file.starts_with(b"\xFE\xFF")
}

/// Whether a file begins as a packet of XMP does: zeros, white space and byte order marks may precede a `<`; or with a byte order
/// mark of UTF-16.
pub fn is_packet(file: &[u8]) -> bool
    ensures { result ≡ is_packet file.now }
{
    is_wide(file) || begins_mark(file)
}

// The properties of a form.
fn properties_of<'a>(form: &'a [u8]) -> &'a [u8] {
    let rest = skip(form, HEAD_LEN);
    rest.split_at(rest.len().saturating_sub(TAIL_LEN)).0
}

// Appends the listing of a form.
fn append_listing_of(memory: &mut Memory, out: &mut Vec<u8>, form: &[u8]) -> Result<(), AllocFailed>
    ensures memory { CountsAllocFailure result memory.old memory.new }
    ensures printed { KeepsPrinted out.old.items out.new.items }
{
    append(memory, out, b"xmp\n")?;
    append_listing(memory, out, properties_of(form))
}

// Appends the captions of a form.
fn append_captions_of(
    memory: &mut Memory,
    out: &mut Vec<u8>,
    form: &[u8],
) -> Result<(), AllocFailed>
    ensures memory { CountsAllocFailure result memory.old memory.new }
    ensures printed { KeepsPrinted out.old.items out.new.items }
{
    append(memory, out, b"xmp\n")?;
    append_captions(memory, out, properties_of(form))
}

/// The listing of a packet: the line `xmp`, and a line for each property and each member, as docs/FORMAT.md, section 7 has them.
///
/// Allocates the packet's normal form and the listing. `Content`: the first fault, as `px_xmp::normal_form_in` finds it.
/// `OutOfMemory`, exactly if an allocation failed in this call.
pub fn listing_in(memory: &mut Memory, packet: &[u8]) -> Result<Vec<u8>, Refusal>
    ensures packet { OnOk result (IsPacket packet.now) }
    ensures printed { IfOk result (λ text. ArePrinted text.items) }
    ensures layer { IfRefused result (IsRefused packet.now) }
    ensures refused { IfWrong result (HasNoMeaning packet.now) }
    ensures accepts { PacketFits packet.now → FailsByMemory result }
    ensures memory { CountsAllocFailureInPacket result memory.old memory.new }
{
    let form = normal_form_in(memory, packet)?;
    let mut out = memory.list();
    append_listing_of(memory, &mut out, form.as_slice())?;
    Ok(out)
}

/// The captions of a packet: the line `xmp`, and a line for each text of the properties that stand for labelled DataSets of IPTC.
///
/// Allocation and errors are as for `listing_in`.
pub fn captions_in(memory: &mut Memory, packet: &[u8]) -> Result<Vec<u8>, Refusal>
    ensures packet { OnOk result (IsPacket packet.now) }
    ensures printed { IfOk result (λ text. ArePrinted text.items) }
    ensures layer { IfRefused result (IsRefused packet.now) }
    ensures refused { IfWrong result (HasNoMeaning packet.now) }
    ensures accepts { PacketFits packet.now → FailsByMemory result }
    ensures memory { CountsAllocFailureInPacket result memory.old memory.new }
{
    let form = normal_form_in(memory, packet)?;
    let mut out = memory.list();
    append_captions_of(memory, &mut out, form.as_slice())?;
    Ok(out)
}
