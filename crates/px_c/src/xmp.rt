// XMP packets. The calls are over memory: each returns `NO_MEMORY` exactly if an allocation failed in that call.
ghost use Rattle.std.specs.Prelude.{◌≡◌, ◌≢◌, ◌⊎◌, ◌+◌, true, false};
ghost use Rattle.px_engine.specs.declared.normal.Given.TheVariants.{Whole, Needs};
ghost use Rattle.px_engine.specs.Slices.{IsPut};
ghost use Rattle.px_xmp_forms.specs.Causes.{is_rare};
ghost use Rattle.px_xmp.specs.Laws.{HasForm, IsReadableForm};
ghost use Rattle.px_xmp.specs.Accepted.{FormFits, PacketFits};
ghost use Rattle.px_xmp.specs.Asking.{AsksOnlyForRdf};
ghost use Rattle.px_c.specs.Numbers as status;
ghost use Rattle.px_c.specs.Xmp.{PutsXmp, PutsUnsorted, Stores, RefusesPacket, LeavesPacket};

use crate::faults::ExifnormFault;
use crate::giving::give;
use crate::statuses::{DONE, NO_MEMORY, RARE, REFUSED};
use px_bytes::Memory;
use px_xmp::{Cause, LIMIT, Refusal};

// Stores a refusal. Returns its status.
fn refuse(cause: Cause, place: usize, fault: &mut ExifnormFault) -> u32
    ensures known { (result ≡ status.refused) ⊎ (result ≡ status.rare) }
    ensures stored { Stores cause place fault.new }
    ensures wrong { result ≡ status.refused → is_rare cause ≡ false }
    ensures rare { result ≡ status.rare → is_rare cause ≡ true }
{
    *fault = ExifnormFault {
        cause: cause.number(),
        place: place.min(LIMIT) as u32,
    };
    if cause.is_rare() {
        return RARE;
    }
    REFUSED
}

// Whether a packet has a normal form.
pub(crate) fn xmp_check_in(memory: &mut Memory, packet: &[u8], fault: &mut ExifnormFault) -> u32
    ensures known { (result ≡ status.done) ⊎ (result ≡ status.refused) ⊎ (result ≡ status.rare) ⊎ (result ≡ status.no_memory) }
    ensures done { result ≡ status.done → HasForm packet.now }
    ensures refused { result ≡ status.refused → RefusesPacket packet.now fault.new }
    ensures rare { result ≡ status.rare → LeavesPacket packet.now fault.new }
    ensures fault { result ≢ status.refused → result ≢ status.rare → fault.new ≡ fault.old }
    ensures lacking { result ≡ status.no_memory → memory.new.failed_allocations ≡ memory.old.failed_allocations + 1 }
    ensures memory { result ≢ status.no_memory → memory.new.failed_allocations ≡ memory.old.failed_allocations }
    ensures asked { AsksOnlyForRdf packet.now memory.old memory.new }
    ensures accepts { PacketFits packet.now → (result ≡ status.done) ⊎ (result ≡ status.no_memory) }
    ensures own { FormFits packet.now → (result ≡ status.done) ⊎ (result ≡ status.no_memory) }
{
    match px_xmp::check_in(memory, packet) {
        Ok(_) => DONE,
        Err(Refusal::Content { cause, place }) => refuse(cause, place, fault),
        Err(Refusal::OutOfMemory) => NO_MEMORY,
    }
}

// Writes the normal form of a packet to the start of `out`.
pub(crate) fn xmp_normalise_in(
    memory: &mut Memory,
    packet: &[u8],
    out: &mut [u8],
    written: &mut usize,
    fault: &mut ExifnormFault,
) -> u32
    ensures known { (result ≡ status.done) ⊎ (result ≡ status.refused) ⊎ (result ≡ status.rare) ⊎ (result ≡ status.no_memory)
        ⊎ (result ≡ status.too_little_room) }
    ensures done { result ≡ status.done → PutsXmp packet.now (Whole written.new) out.old out.new }
    ensures refused { result ≡ status.refused → RefusesPacket packet.now fault.new }
    ensures rare { result ≡ status.rare → LeavesPacket packet.now fault.new }
    ensures short { result ≡ status.too_little_room → PutsXmp packet.now (Needs written.new) out.old out.new }
    ensures out { result ≢ status.done → out.new ≡ out.old }
    ensures written { result ≢ status.done → result ≢ status.too_little_room → written.new ≡ written.old }
    ensures fault { result ≢ status.refused → result ≢ status.rare → fault.new ≡ fault.old }
    ensures lacking { result ≡ status.no_memory → memory.new.failed_allocations ≡ memory.old.failed_allocations + 1 }
    ensures memory { result ≢ status.no_memory → memory.new.failed_allocations ≡ memory.old.failed_allocations }
    ensures asked { AsksOnlyForRdf packet.now memory.old memory.new }
    ensures accepts { PacketFits packet.now → (result ≡ status.done) ⊎ (result ≡ status.no_memory)
        ⊎ (result ≡ status.too_little_room) }
    ensures own { FormFits packet.now → (result ≡ status.done) ⊎ (result ≡ status.no_memory) ⊎ (result ≡ status.too_little_room) }
    ensures same { IsReadableForm packet.now → result ≡ status.done → IsPut (Whole written.new) packet.now out.old out.new }
{
    match px_xmp::normal_form_in(memory, packet) {
        Ok(form) => give(form.as_slice(), out, written),
        Err(Refusal::Content { cause, place }) => refuse(cause, place, fault),
        Err(Refusal::OutOfMemory) => NO_MEMORY,
    }
}

// Writes the form of a packet whose bags are in the packet's order to the start of `out`.
pub(crate) fn xmp_unsorted_in(
    memory: &mut Memory,
    packet: &[u8],
    out: &mut [u8],
    written: &mut usize,
    fault: &mut ExifnormFault,
) -> u32
    ensures known { (result ≡ status.done) ⊎ (result ≡ status.refused) ⊎ (result ≡ status.rare) ⊎ (result ≡ status.no_memory)
        ⊎ (result ≡ status.too_little_room) }
    ensures done { result ≡ status.done → PutsUnsorted packet.now (Whole written.new) out.old out.new }
    ensures refused { result ≡ status.refused → RefusesPacket packet.now fault.new }
    ensures rare { result ≡ status.rare → LeavesPacket packet.now fault.new }
    ensures short { result ≡ status.too_little_room → PutsUnsorted packet.now (Needs written.new) out.old out.new }
    ensures out { result ≢ status.done → out.new ≡ out.old }
    ensures written { result ≢ status.done → result ≢ status.too_little_room → written.new ≡ written.old }
    ensures fault { result ≢ status.refused → result ≢ status.rare → fault.new ≡ fault.old }
    ensures lacking { result ≡ status.no_memory → memory.new.failed_allocations ≡ memory.old.failed_allocations + 1 }
    ensures memory { result ≢ status.no_memory → memory.new.failed_allocations ≡ memory.old.failed_allocations }
    ensures asked { AsksOnlyForRdf packet.now memory.old memory.new }
    ensures accepts { PacketFits packet.now → (result ≡ status.done) ⊎ (result ≡ status.no_memory)
        ⊎ (result ≡ status.too_little_room) }
    ensures own { FormFits packet.now → (result ≡ status.done) ⊎ (result ≡ status.no_memory) ⊎ (result ≡ status.too_little_room) }
{
    match px_xmp::unsorted_form_in(memory, packet) {
        Ok(form) => give(form.as_slice(), out, written),
        Err(Refusal::Content { cause, place }) => refuse(cause, place, fault),
        Err(Refusal::OutOfMemory) => NO_MEMORY,
    }
}
