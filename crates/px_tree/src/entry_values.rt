// The raw bytes of an entry and its value. TIFF 6.0 section 2, "IFD Entry" and "Value/Offset".
ghost use Rattle.std.specs.Prelude.{◌≡◌, ◌≤◌, ◌*◌, length};
ghost use Rattle.px_bytes.specs.Parts.{limit, part};
ghost use Rattle.px_field.specs.declared.Kind.TheVariants.{Of};
ghost use Rattle.px_field.specs.Forms.{size};
ghost use Rattle.px_meaning.specs.Entry.{entry, raw, entry_elements};
ghost use Rattle.px_tree.specs.calls.Reading.{IsReadable};

use crate::entries::Head;
use px_bytes::Order;
use px_field::{Form, Value, read_value};
use px_meaning::{needs_place, part_of};

// The bytes of the value of a judged entry, in its last four bytes or at its offset: count times size, at most
// `LIMIT`.
pub fn raw_of<'a>(block: &'a [u8], order: Order, at: u32, head: Head, form: Form) -> &'a [u8]
    requires { IsReadable block.now order at head form }
    ensures bytes { result.now ≡ raw block.now order (entry order (part block.now at 12)) }
    ensures size { head.count * size form ≡ length result.now }
    ensures bounded { length result.now ≤ limit }
{
    let len = u64::from(head.count) * u64::from(form.size());
    if needs_place(len) {
        return part_of(block, head.offset, len as u32);
    }
    part_of(block, at + 8, len as u32)
}

// The value of a judged entry: its type, and the elements that its bytes encode in the block's order.
pub fn value_at<'a>(block: &'a [u8], order: Order, at: u32, head: Head, form: Form) -> Value<'a>
    requires { IsReadable block.now order at head form }
    ensures { result
        ≡ record {
          kind = Of form;
          elements = entry_elements block.now order (entry order
              (part block.now at 12)) form;
        } }
{
    read_value(form, order, raw_of(block, order, at, head, form))
}
