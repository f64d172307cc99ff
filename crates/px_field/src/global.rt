// The call over the global allocator, which is one call of its `_in` form with memory of its own. It is for callers of
// this crate: nothing that ships calls it.
ghost use Rattle.std.specs.Prelude.{◌≡◌, ◌+◌, ◌++◌, OnOk, OnErr};
ghost use Rattle.px_field.specs.Values.{encoded};

use crate::spelling::append_value_in;
use crate::values::Value;
use px_bytes::{Memory, Order};
use std::alloc::AllocError;

/// Appends the encoding of the value in `order`: `size` bytes. `Err`: an allocation failed, and the vector's items
/// are unchanged. It allocates only if the vector has too little capacity, and asks for the new capacity: the
/// bytes that are needed, or twice the old capacity if that is more. The memory is its own: an allocation that
/// failed is counted nowhere.
pub fn append_value(order: Order, value: &Value, out: &mut Vec<u8>) -> Result<(), AllocError>
    ensures done { OnOk result (out.new.items ≡ out.old.items ++ encoded order value.now) }
    ensures failed { OnErr result (out.new.items ≡ out.old.items) }
{
    let mut memory = Memory::new(*out.allocator());
    Ok(append_value_in(&mut memory, order, value, out)?)
}
