// Attributes that are there once. XML 1.0, 3.1.
ghost use Rattle.std.specs.Prelude.{◌≡◌, ℕ, true, false, Some, option_map, List, map, ◌++◌, MatchOption};
ghost use Rattle.px_xmp_marks.specs.Reading.{Attr, name_view, attribute_view, attributes_of, start_tag, start_tag_view};
ghost use Rattle.px_xmp_marks.specs.Marks.{IsMark};
ghost use Rattle.px_xmp_markup.specs.Distinct.{IsAmong, AreDistinct, AreRepeated, HasDistinct, HasRepeated, IsDistinctRow};
ghost use Rattle.px_xmp_markup.specs.AttributeFaults.{IsAttributeFault};
ghost use Rattle.px_xmp_markup.specs.calls.Listed.{AreListed};
ghost use Rattle.px_xmp_markup.specs.calls.Names.{is_among, has_twice, names_of};

use crate::faults::{AttributeCause, AttributeFault};
use crate::names::is_same;
use px_xmp_marks::{
    Attribute, Name, StartTag, are_locals_distinct, next_attribute, read_mark, read_names,
};

// The names of so many attributes are stored in one space for all tags, which few tags exceed: a larger one costs more to clear
// than small documents cost to read.
const STORED: usize = 16;

// The names of so many are stored in a space for one tag. Those of a tag with more are compared as they are written.
const MANY: usize = 256;

// Whether one of the attributes at the start has the name `name`.
fn has_name(octets: &[u8], name: Name) -> bool
    ensures among { (attributes : List Attr) → AreListed attributes octets.now → result ≡ true → IsAmong (name_view name.entry) attributes }
    ensures none { (attributes : List Attr) → AreListed attributes octets.now → result ≡ false
        → IsAmong (name_view name.entry) attributes → ⊥ }
{
    let mut rest = octets;
    while let Some(next) = next_attribute(rest) {
        if is_same(next.attribute.name, name) {
            return true;
        }
        rest = next.rest;
    }
    false
}

// Whether one of the attributes at the start is there twice.
fn has_repeated(octets: &[u8]) -> bool
    ensures repeated { (attributes : List Attr) → AreListed attributes octets.now → result ≡ true → AreRepeated attributes }
    ensures distinct { (attributes : List Attr) → AreListed attributes octets.now → result ≡ false → AreDistinct attributes }
{
    let mut rest = octets;
    while let Some(next) = next_attribute(rest) {
        if has_name(next.rest, next.attribute.name) {
            return true;
        }
        rest = next.rest;
    }
    false
}

// Whether `name` is one of `names`.
fn is_among(names: &[Name], name: Name) -> bool
    ensures { result ≡ is_among (name_view name.entry) (map name_view names.now) }
{
    for other in names {
        if is_same(name, *other) {
            return true;
        }
    }
    false
}

// Whether two of `names` are the same.
fn has_twice(names: &[Name]) -> bool
    ensures { result ≡ has_twice (map name_view names.now) }
{
    for (n, name) in names.iter().enumerate() {
        if is_among(names.split_at(n + 1).1, *name) {
            return true;
        }
    }
    false
}

// Whether one of `attributes` has the name `name`.
fn is_name_of(attributes: &[Attribute], name: Name) -> bool
    ensures { result ≡ is_among (name_view name.entry) (names_of (map attribute_view attributes.now)) }
{
    for other in attributes {
        if is_same(name, other.name) {
            return true;
        }
    }
    false
}

// Whether two of some attributes have one name.
fn have_repeated(attributes: &[Attribute]) -> bool
    ensures { result ≡ has_twice (names_of (map attribute_view attributes.now)) }
{
    for (n, attribute) in attributes.iter().enumerate() {
        if is_name_of(attributes.split_at(n + 1).1, attribute.name) {
            return true;
        }
    }
    false
}

/// Whether one of some attributes is there twice, by the name that is written. It allocates nothing. XML 1.0, 3.1.
pub fn are_repeated(attributes: &[Attribute]) -> bool
    ensures repeated { result ≡ true → AreRepeated (map attribute_view attributes.now) }
    ensures distinct { result ≡ false → AreDistinct (map attribute_view attributes.now) }
{
    if are_locals_distinct(attributes) {
        return false;
    }
    have_repeated(attributes)
}

// Whether a tag has an attribute twice. The names are stored in the space for them.
fn tag_repeats<'a>(tag: StartTag<'a>, names: &mut [Name<'a>]) -> bool
    ensures repeated { (attributes : List Attr) → option_map (λ r. r.0) (attributes_of tag.entry.rest.now) ≡ Some attributes
        → result ≡ true → AreRepeated attributes }
    ensures distinct { (attributes : List Attr) → option_map (λ r. r.0) (attributes_of tag.entry.rest.now) ≡ Some attributes
        → result ≡ false → AreDistinct attributes }
{
    px_xmp_marks::laws::attributes_in_order();
    match read_names(tag.rest, names) {
        Some(len) => has_twice(names.split_at(len).0),
        None => has_repeated(tag.rest),
    }
}

// Whether a tag has an attribute twice, as `tag_repeats` finds it, with a space for 256 names.
#[inline(never)]
fn large_tag_repeats(tag: StartTag) -> bool
    ensures repeated { (attributes : List Attr) → option_map (λ r. r.0) (attributes_of tag.entry.rest.now) ≡ Some attributes
        → result ≡ true → AreRepeated attributes }
    ensures distinct { (attributes : List Attr) → option_map (λ r. r.0) (attributes_of tag.entry.rest.now) ≡ Some attributes
        → result ≡ false → AreDistinct attributes }
{
    let mut names = [no_name(tag.rest); MANY];
    tag_repeats(tag, &mut names)
}

// Whether a tag has an attribute twice. The names are stored in the space, or in a larger one if it is too small.
fn sized_tag_repeats<'a>(tag: StartTag<'a>, names: &mut [Name<'a>]) -> bool
    ensures repeated { (attributes : List Attr) → option_map (λ r. r.0) (attributes_of tag.entry.rest.now) ≡ Some attributes
        → result ≡ true → AreRepeated attributes }
    ensures distinct { (attributes : List Attr) → option_map (λ r. r.0) (attributes_of tag.entry.rest.now) ≡ Some attributes
        → result ≡ false → AreDistinct attributes }
{
    match read_names(tag.rest, names) {
        Some(len) => has_twice(names.split_at(len).0),
        None => large_tag_repeats(tag),
    }
}

// Whether the mark at the start is a tag that has an attribute twice. `names` is space that the
// call overwrites: the names of the attributes.
fn is_repeated<'a>(octets: &[u8], tag: Option<StartTag<'a>>, names: &mut [Name<'a>]) -> bool
    requires { option_map start_tag_view tag ≡ start_tag octets.now }
    ensures repeated { (m rest : List ℕ) → IsMark m rest → octets.now ≡ m ++ rest → result ≡ true → HasRepeated m }
    ensures distinct { (m rest : List ℕ) → IsMark m rest → octets.now ≡ m ++ rest → result ≡ false → HasDistinct m }
{
    px_xmp_marks::laws::marks_are_read();
    px_xmp_marks::laws::start_tags_are_read();
    px_xmp_marks::laws::only_start_tags_are_read();
    match tag {
        Some(tag) => sized_tag_repeats(tag, names),
        None => false,
    }
}

// A name that is not read.
fn no_name<'a>(octets: &'a [u8]) -> Name<'a> {
    let nothing = octets.split_at(0).0;
    Name {
        prefix: nothing,
        local: nothing,
        size: 0,
    }
}

/// The first place of some octets where no mark is, or a tag that has an attribute twice. None: the octets are marks in a
/// row, in which each tag has each attribute once. It allocates nothing. XML 1.0, 3.1.
pub fn attribute_fault(octets: &[u8]) -> Option<AttributeFault>
    ensures { MatchOption result (IsDistinctRow octets.now) (λ f. IsAttributeFault octets.now f.cause f.offset) }
{
    px_xmp_marks::laws::marks_are_read();
    px_xmp_marks::laws::only_marks_are_read();
    let mut names = [no_name(octets); STORED];
    let mut at = 0;
    while at < octets.len() {
        let rest = octets.split_at(at).1;
        let Some(mark) = read_mark(rest) else {
            return Some(AttributeFault {
                cause: AttributeCause::NoMark,
                offset: at,
            });
        };
        if is_repeated(rest, mark.tag, &mut names) {
            return Some(AttributeFault {
                cause: AttributeCause::AttributeTwice,
                offset: at,
            });
        }
        at += mark.size;
    }
    None
}
