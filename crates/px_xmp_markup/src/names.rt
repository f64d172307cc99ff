// Whether names are the same.
ghost use Rattle.std.specs.Prelude.{◌≡◌, ◌↔◌, IsTrue};
ghost use Rattle.px_xmp_marks.specs.Reading.{name_view};
ghost use Rattle.px_xmp_markup.specs.calls.Names.{are_same};

use px_xmp_marks::Name;

// Whether two names are the same.
pub(crate) fn is_same(a: Name, b: Name) -> bool
    ensures same { IsTrue result ↔ (name_view a.entry ≡ name_view b.entry) }
    ensures value { result ≡ are_same (name_view a.entry) (name_view b.entry) }
{
    a.size == b.size && a.local == b.local && a.prefix == b.prefix
}
