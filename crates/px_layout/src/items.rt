// What the entries of a directory mean.
ghost use Rattle.std.specs.Prelude.{◌≡◌};
ghost use Rattle.px_field.specs.Values.{form_in};
ghost use Rattle.px_meaning.specs.Writable.{item_form, item_count, item_size};
ghost use Rattle.px_layout.specs.calls.Items.{item_of, CountsFit};

use px_bytes::LIMIT;
use px_field::{Form, Kind, Value};
use px_iim::{Iim, normal_len};
use px_meaning::{Dir, Strips};

/// What an entry means: a field, the record, a pointer, the JPEG's offset or length, or the offsets or
/// lengths of the strips.
#[derive(Clone, Copy)]
pub enum Item<'m, 'a> {
    /// A field.
    Field(&'m Value<'a>),
    /// The caption record.
    Record(&'m Iim<'a>),
    /// A pointer to a directory.
    Link(Dir),
    /// The JPEG's byte offset.
    JpegOffset,
    /// The JPEG's length in bytes.
    JpegLength(u32),
    /// The strips' byte offsets.
    StripOffsets(&'m Strips<'a>),
    /// The length of each strip in bytes.
    StripLengths(&'m Strips<'a>),
}

/// An entry: its tag and what it means.
#[derive(Clone, Copy)]
pub struct Entry<'m, 'a> {
    /// The tag.
    pub tag: u16,
    /// What the entry means.
    pub item: Item<'m, 'a>,
}

// The type of a field: whole numbers are written as LONG.
fn form_of(value: &Value) -> Form
    ensures { result ≡ form_in value.now.kind }
{
    match value.kind() {
        Kind::Of(form) => form,
        Kind::Whole => Form::Long,
    }
}

impl Item<'_, '_> {
    /// The entry's type.
    pub fn form(self) -> Form
        ensures { result ≡ item_form (item_of self.entry) }
    {
        match self {
            Item::Field(value) => form_of(value),
            Item::Record(_) => Form::Undefined,
            _ => Form::Long,
        }
    }

    /// The entry's count of elements.
    pub fn count(self) -> u32
        requires { CountsFit (item_of self) }
        ensures { result ≡ item_count (item_of self.entry) }
    {
        match self {
            Item::Field(value) => value.count(),
            Item::Record(iim) => normal_len(iim).unwrap_or(2 * LIMIT),
            Item::StripOffsets(strips) => strips.len() as u32,
            Item::StripLengths(strips) => strips.len() as u32,
            _ => 1,
        }
    }

    /// The length of the entry's value in bytes.
    pub fn size(self) -> u64
        requires { CountsFit (item_of self) }
        ensures { result ≡ item_size (item_of self.entry) }
    {
        match self {
            Item::Field(value) => value.size(),
            _ => u64::from(self.count()) * u64::from(self.form().size()),
        }
    }
}
