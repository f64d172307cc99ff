// Claims ranges of a block. TIFF 6.0 section 7, "No Duplicate Pointers".
ghost use Rattle.std.specs.Prelude.{◌≡◌, ◌≤◌, ◌+◌, List, [], ◌∷◌, OnOk};
ghost use Rattle.px_bytes.specs.declared.Cause.TheVariants.{Overlap};
ghost use Rattle.px_bytes.specs.Parts.{limit};
ghost use Rattle.px_bytes.specs.Range.{Range, range, is_free, Agrees};
ghost use Rattle.px_bytes.specs.Checks.{CountsAllocFailureInBlock, Judges, check};
ghost use Rattle.px_tree.specs.Asking.{fields_request};
ghost use Rattle.px_tree.specs.calls.Paying.{paid, ClaimsPay, ClaimsBelow};

use px_bytes::{Cause, Memory, Ranges, Refusal};

// Claims the `len` bytes at offset `start`, for the entry or pointer at offset `at`. `Ok`: all of them were free, and
// now they are claimed. `Content`: `Overlap` at `at`: one of them was claimed before. `OutOfMemory`: an allocation
// failed. It asks for no more bytes than those that it claims pay for (`ClaimsPay`).
pub fn claim_range(
    memory: &mut Memory,
    claimed: &mut Ranges,
    at: u32,
    start: u32,
    len: u32,
) -> Result<(), Refusal>
    requires bounded { start + len ≤ limit }
    requires capacity { start + len ≤ claimed.old.capacity }
    ensures judged { (taken : List Range) → Agrees taken claimed.old.ranges →
        Judges result (check Overlap at (is_free taken (range start len)) ∷ [])
        (λ _. Agrees (range start len ∷ taken) claimed.new.ranges) }
    ensures memory { CountsAllocFailureInBlock result memory.old memory.new }
    ensures claimed { OnOk result (memory.new.asked + paid claimed.old + fields_request len ≡ memory.old.asked + paid claimed.new) }
    ensures asked { ClaimsPay 0 memory.old memory.new claimed.old claimed.new }
    ensures below { ClaimsBelow (start + len) claimed.old claimed.new }
    ensures capacity { claimed.old.capacity ≤ claimed.new.capacity }
{
    if !claimed.add_in(memory, start, len)? {
        return Err(Cause::Overlap.at(at));
    }
    Ok(())
}
