// Copies bytes into the caller's buffer.
ghost use Rattle.std.specs.Prelude.{◌≡◌, ◌⊎◌};
ghost use Rattle.px_engine.specs.declared.normal.Given.TheVariants.{Whole, Needs};
ghost use Rattle.px_engine.specs.Slices.{IsPut};
ghost use Rattle.px_c.specs.Outcomes.{PutsText};
ghost use Rattle.px_c.specs.Numbers as status;

use crate::statuses::{DONE, TOO_LITTLE_ROOM};

// Copies bytes to the start of `out` if they fit, and stores their number in `written`.
pub(crate) fn give(bytes: &[u8], out: &mut [u8], written: &mut usize) -> u32
    ensures known { (result ≡ status.done) ⊎ (result ≡ status.too_little_room) }
    ensures done { result ≡ status.done → IsPut (Whole written.new) bytes.now out.old out.new }
    ensures short { result ≡ status.too_little_room → IsPut (Needs written.new) bytes.now out.old out.new }
    ensures kept { result ≡ status.too_little_room → out.new ≡ out.old }
{
    *written = bytes.len();
    if bytes.len() > out.len() {
        return TOO_LITTLE_ROOM;
    }
    out[..bytes.len()].copy_from_slice(bytes);
    DONE
}

// Copies a text and a zero byte to the start of `out` if they fit, and stores the number of these bytes in
// `written`.
pub(crate) fn give_text(text: &[u8], out: &mut [u8], written: &mut usize) -> u32
    ensures known { (result ≡ status.done) ⊎ (result ≡ status.too_little_room) }
    ensures done { result ≡ status.done → PutsText text.now (Whole written.new) out.old out.new }
    ensures short { result ≡ status.too_little_room → PutsText text.now (Needs written.new) out.old out.new }
    ensures kept { result ≡ status.too_little_room → out.new ≡ out.old }
{
    *written = text.len() + 1;
    if text.len() >= out.len() {
        return TOO_LITTLE_ROOM;
    }
    out[..text.len()].copy_from_slice(text);
    out[text.len()] = 0;
    DONE
}
