// The fields of a directory, by their tags.
ghost use Rattle.std.specs.Prelude.{◌≡◌, ◌<◌, [], IfOk, IfErr, OnErr, Some, None, length, slice_get, option_copied, is_some, true, false};
ghost use Rattle.std.specs.Prelude.{IsTrue, ◌↔◌, ◌+◌, ◌*◌, if◌then◌else◌};
ghost use Rattle.px_bytes.specs.Allocations.{CountsAllocFailure, AsksAtMost};
ghost use Rattle.px_meaning.specs.Asking.{field_request};
ghost use Rattle.px_meaning.specs.Roles.{at_tag};
ghost use Rattle.px_meaning.specs.Writable.{put};
ghost use Rattle.px_meaning.specs.Entry.{Rising};
ghost use Rattle.px_meaning.specs.calls.Places.{tags, IsInOrder, IsAt, IsGapFor};

use px_bytes::{AllocFailed, Memory};
use px_field::Value;
use std::marker::Model;

/// The fields of a directory: a finite map from tag to value. TIFF 6.0 section 2, "Image File Directory" and
/// "Sort Order".
///
/// The fields are in a vector by ascending tag. A tag is found by binary search. A field with the greatest
/// tag so far, as when a block is read, is appended; any other moves the fields after it.
#[derive(Drop)]
pub struct Fields<'a> {
    pub(crate) list: Vec<(u16, Value<'a>)>,
}

impl<'a> Model for Fields<'a> {
    ghost use Rattle.px_meaning.specs.Tree.{Fields as Pairs};
    ghost use Rattle.px_meaning.specs.calls.Places.{IsInOrder};

    ghost Value = { Pairs };

    ghost view = { λ f. f.list.items };

    ghost invariant = { λ f. IsInOrder f.list.items };
}

impl<'a> Fields<'a> {
    /// No fields. Later calls use the allocator of `memory`. It allocates nothing.
    pub fn new_in(memory: &Memory) -> Fields<'a>
        ensures { result ≡ [] }
    {
        Fields {
            list: memory.list(),
        }
    }

    /// The number of fields: at most 65,536, one for each tag. It allocates nothing.
    pub fn len(&self) -> usize
        ensures value { result ≡ length self.now }
        ensures order { Rising (tags self.now) }
    {
        self.list.len()
    }

    /// Whether there are no fields. It allocates nothing.
    pub fn is_empty(&self) -> bool
        ensures { IsTrue result ↔ (self.now ≡ []) }
    {
        self.list.is_empty()
    }

    /// The tag and value at index `i`, below `len`, by ascending tag. It allocates nothing.
    pub fn at(&self, i: usize) -> (u16, &Value<'a>)
        requires { i < length self.now }
        ensures { slice_get self.now i ≡ Some (result.0, result.1.now) }
    {
        let (tag, value) = &self.list[i];
        (*tag, value)
    }

    /// The value at a tag, or None. It allocates nothing.
    pub fn get(&self, tag: u16) -> Option<&Value<'a>>
        ensures { option_copied result ≡ at_tag tag self.now }
    {
        match position_of(self.list.as_slice(), tag) {
            Ok(i) => Some(&self.list[i].1),
            Err(_) => None,
        }
    }

    /// Adds a field and returns true, or returns false if the tag has a value already. On false and on an
    /// error the new value is dropped and nothing has changed. `Err`: an allocation failed.
    pub fn put_in(
        &mut self,
        memory: &mut Memory,
        tag: u16,
        value: Value<'a>,
    ) -> Result<bool, AllocFailed>
        ensures fresh { IfOk result (λ fresh. fresh ≡ true → (at_tag tag self.old ≡ None) × (self.new ≡ put tag value.entry self.old)) }
        ensures there { IfOk result (λ fresh. fresh ≡ false → (is_some (at_tag tag self.old) ≡ true) × (self.new ≡ self.old)) }
        ensures absent { OnErr result (at_tag tag self.old ≡ None) }
        ensures err { OnErr result (self.new ≡ self.old) }
        ensures memory { CountsAllocFailure result memory.old memory.new }
        ensures asked { AsksAtMost (if is_some (at_tag tag self.old) then 0 else field_request (length self.old)) memory.old memory.new }
    {
        match position_of(self.list.as_slice(), tag) {
            Ok(_) => Ok(false),
            Err(i) => {
                memory.insert(&mut self.list, i, (tag, value))?;
                Ok(true)
            }
        }
    }
}

impl<'a> Fields<'a> {
    /// The fields of a list by ascending tag.
    pub fn of_list(list: Vec<(u16, Value<'a>)>) -> Fields<'a>
        requires { Rising (tags list.items) }
        ensures { result ≡ list.entry.items }
    {
        Fields { list }
    }
}

// `Ok`: the index of the tag. `Err`: no field has it, and this is the index where it would be
// inserted.
fn position_of(list: &[(u16, Value)], tag: u16) -> Result<usize, usize>
    requires { IsInOrder list.now }
    ensures found { IfOk result (IsAt list.now tag) }
    ensures absent { IfErr result (IsGapFor list.now tag) }
{
    let mut low = 0;
    let mut high = list.len();
    while low < high {
        let middle = low + (high - low) / 2;
        let here = list[middle].0;
        if here == tag {
            return Ok(middle);
        }
        if here < tag {
            low = middle + 1;
        } else {
            high = middle;
        }
    }
    Err(low)
}
