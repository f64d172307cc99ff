// The calls over the global allocator, each one call of its `_in` form with memory of its own, in the order of their
// modules. They are for callers of this crate: nothing that ships calls them.
ghost use Rattle.std.specs.Prelude.{◌≡◌, [], ◌∷◌, ◌++◌, OnOk, IfOk, OnErr, None, is_some, true, false, ◌+◌};
ghost use Rattle.px_meaning.specs.Roles.{at_tag};
ghost use Rattle.px_meaning.specs.Writable.{put};

use crate::fields::Fields;
use crate::strips::Strips;
use px_bytes::Memory;
use px_field::Value;
use std::alloc::{AllocError, Global};

impl<'a> Fields<'a> {
    /// No fields, with memory of its own. It allocates nothing.
    pub fn new(alloc: Global) -> Fields<'a>
        ensures { result ≡ [] }
    {
        Fields::new_in(&Memory::new(alloc))
    }

    /// Adds a field and returns true, or returns false if the tag has a value already. On false and on an error
    /// the new value is dropped and nothing has changed. `Err`: an allocation failed. The memory is its own: an
    /// allocation that failed is counted nowhere.
    pub fn put(&mut self, tag: u16, value: Value<'a>) -> Result<bool, AllocError>
        ensures fresh { IfOk result (λ fresh. fresh ≡ true → (at_tag tag self.old ≡ None) × (self.new ≡ put tag value.entry self.old)) }
        ensures there { IfOk result (λ fresh. fresh ≡ false → (is_some (at_tag tag self.old) ≡ true) × (self.new ≡ self.old)) }
        ensures absent { OnErr result (at_tag tag self.old ≡ None) }
        ensures err { OnErr result (self.new ≡ self.old) }
    {
        let mut memory = Memory::new(*self.list.allocator());
        Ok(self.put_in(&mut memory, tag, value)?)
    }
}

impl<'a> Strips<'a> {
    /// No strips, with memory of its own. It allocates nothing.
    pub fn new(alloc: Global) -> Strips<'a>
        ensures { result ≡ [] }
    {
        Strips::new_in(&Memory::new(alloc))
    }

    /// Appends a strip. Allocates if the list has no capacity for it. `Err`: an allocation failed; the strips are
    /// as they were. The memory is its own: an allocation that failed is counted nowhere.
    pub fn push(&mut self, strip: &'a [u8]) -> Result<(), AllocError>
        ensures ok { OnOk result (self.new ≡ self.old ++ strip.now ∷ []) }
        ensures err { OnErr result (self.new ≡ self.old) }
    {
        let mut memory = Memory::new(*self.list.allocator());
        Ok(self.push_in(&mut memory, strip)?)
    }
}
