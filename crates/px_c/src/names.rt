// The names of causes.
ghost use Rattle.std.specs.Prelude.{◌≡◌};
ghost use Rattle.px_bytes.specs.Causes.{cause_of};
ghost use Rattle.px_xmp_forms.specs.Causes.{cause_of as packet_cause_of};
ghost use Rattle.px_c.specs.Numbers.{cause_name, other_cause_name, text_of, text_of_packet};

use px_bytes::Cause;

// The name of the cause of a block.
fn block_cause_name(number: u32) -> &'static [u8]
    ensures { result.now ≡ text_of (cause_of number) }
{
    match Cause::of(number) {
        Some(cause) => cause.name(),
        None => b"",
    }
}

// The name of the cause of a packet of XMP.
fn packet_cause_name(number: u32) -> &'static [u8]
    ensures { result.now ≡ text_of_packet (packet_cause_of number) }
{
    match px_xmp_forms::Cause::of(number) {
        Some(cause) => cause.name(),
        None => b"",
    }
}

// The name of the cause of a block, or of a packet of XMP.
fn other_cause_name(number: u32) -> &'static [u8]
    ensures { result.now ≡ other_cause_name number }
{
    if number > 200 {
        return packet_cause_name(number);
    }
    block_cause_name(number)
}

// The name of the cause with this number, of a block, of a JPEG's head or of a packet of XMP. It is empty if no cause has the number.
#[tactic(auto, unfolding(crate::specs::Numbers::cause_name))]
pub(crate) fn cause_name(number: u32) -> &'static [u8]
    ensures { result.now ≡ cause_name number }
{
    match number {
        101 => b"JpegNoStart",
        102 => b"JpegNoMarker",
        103 => b"JpegLength",
        104 => b"JpegCut",
        105 => b"JpegTooLong",
        _ => other_cause_name(number),
    }
}
