// The tags that declare prefixes, and have names with prefixes.
ghost use Rattle.std.specs.Prelude.{◌≡◌, List, Some, map, option_map, if◌then◌else◌};
ghost use Rattle.px_xmp_document.specs.declared.faults.SpaceCause.TheVariants.{ManyAttributes, Undeclared};
ghost use Rattle.px_xmp_marks.specs.Reading.{Attr, name_view, attribute_view};
ghost use Rattle.px_xmp_marks.specs.Declarations.{every};
ghost use Rattle.px_xmp_document.specs.Bindings.{is_plain, is_usual_space, is_reserved, is_left, declared_prefix};
ghost use Rattle.px_xmp_document.specs.Bindings.{with_declaration, with_attribute, with_attributes};
ghost use Rattle.px_xmp_document.specs.Tags.{is_attribute_bound, are_bound, is_element_bound, opened};
ghost use Rattle.px_xmp_document.specs.Tags.{attribute_space, are_same_spaces, clash, judged};
ghost use Rattle.px_xmp_document.specs.calls.Names.{are_names_bound, is_name_among, are_names_unique, names_judged};
ghost use Rattle.px_xmp_document.specs.calls.Passing.{Gives, AreListed};

use crate::faults::SpaceCause;
use crate::scopes::{Entry, Scope, XML, XML_SPACE, XMLNS, XMLNS_SPACE};
use px_xmp_forms::is_rare_space;
use px_xmp_marks::{Attribute, Name, StartTag, next_attribute, read_names};

// The most attributes of an element that this reader judges.
pub(crate) const ATTRIBUTE_LIMIT: usize = 256;

// The names of so many attributes are stored in one space for all tags, which few tags exceed: a larger one costs more to clear
// than small documents cost to read.
pub(crate) const STORED: usize = 16;

// A name that is not read.
pub(crate) fn no_name<'a>(octets: &'a [u8]) -> Name<'a> {
    let nothing = octets.split_at(0).0;
    Name {
        prefix: nothing,
        local: nothing,
        size: 0,
    }
}

// Whether an octet is plain: this reader compares a namespace's name only if all of its octets are.
fn is_plain(octet: u8) -> bool
    ensures { result ≡ is_plain octet }
{
    33 <= octet && octet <= 126 && octet != b'&'
}

// Whether each octet is plain (`is_plain`).
fn are_plain(octets: &[u8]) -> bool
    ensures { result ≡ every is_plain octets.now }
{
    // without an end before the last octet, so that many are looked at at once
    let mut all = true;
    for octet in octets {
        all &= is_plain(*octet);
    }
    all
}

// The most octets of a namespace's name, which each property of a normal form repeats.
const SPACE_LIMIT: usize = 256;

// Whether this reader compares a namespace's name.
fn is_usual_space(space: &[u8]) -> bool
    ensures { result ≡ is_usual_space space.now }
{
    if space.len() > SPACE_LIMIT {
        return false;
    }
    are_plain(space)
}

// Whether no declaration can bind a prefix to a namespace.
fn is_reserved(prefix: &[u8], space: &[u8]) -> bool
    ensures { result ≡ is_reserved prefix.now space.now }
{
    if prefix == XMLNS || space == XMLNS_SPACE {
        return true;
    }
    if (prefix == XML) != (space == XML_SPACE) {
        return true;
    }
    space.is_empty() && !prefix.is_empty()
}

// Whether a namespace is left to another reader. The empty name is of none.
fn is_left(space: &[u8]) -> bool
    ensures { result ≡ is_left space.now }
{
    !space.is_empty() && is_rare_space(space)
}

// The prefix that an attribute with this name declares; it is empty for the default namespace.
// None: the attribute declares none.
fn declared_prefix<'a>(name: Name<'a>) -> Option<&'a [u8]>
    ensures { option_map (λ p. p.now) result ≡ declared_prefix (name_view name.entry) }
{
    if name.prefix == XMLNS {
        return Some(name.local);
    }
    if name.prefix.is_empty() && name.local == XMLNS {
        return Some(name.prefix);
    }
    None
}

// Whether there are two namespaces, which are the same.
pub(crate) fn are_same_spaces(a: Option<&[u8]>, b: Option<&[u8]>) -> bool
    ensures { result ≡ are_same_spaces (option_map (λ u. u.now) a.entry) (option_map (λ u. u.now) b.entry) }
{
    match a {
        Some(a) => match b {
            Some(b) => a == b,
            None => false,
        },
        None => false,
    }
}

impl<'a> Scope<'a> {
    // Binds a prefix to a namespace. The cause: what is wrong with the declaration; None: nothing
    // is.
    fn declare(&mut self, prefix: &'a [u8], space: &'a [u8]) -> Option<SpaceCause>
        ensures { Gives result self.new (with_declaration prefix.now space.now self.old) }
    {
        if !is_usual_space(space) {
            return Some(SpaceCause::RareSpace);
        }
        if is_reserved(prefix, space) {
            return Some(SpaceCause::Reserved);
        }
        if is_left(space) {
            return Some(SpaceCause::RareSpace);
        }
        if self.is_full() {
            return Some(SpaceCause::TooMany);
        }
        self.put(Entry::Declaration(prefix, space));
        None
    }

    // Binds what an attribute declares. The cause: what is wrong with it; None: nothing is.
    pub(crate) fn declare_by(&mut self, attribute: Attribute<'a>) -> Option<SpaceCause>
        ensures { Gives result self.new (with_attribute (attribute_view attribute.entry) self.old) }
    {
        match declared_prefix(attribute.name) {
            Some(prefix) => self.declare(prefix, attribute.value),
            None => None,
        }
    }

    // Binds what the attributes at the start declare. The cause: what is wrong with the first that
    // is wrong; None: nothing is.
    fn declare_all(&mut self, octets: &'a [u8]) -> Option<SpaceCause>
        ensures { (attributes : List Attr) → AreListed octets.now attributes → Gives result self.new (with_attributes attributes self.old) }
    {
        px_xmp_marks::laws::attributes_in_order();
        let mut rest = octets;
        while let Some(next) = next_attribute(rest) {
            if let Some(cause) = self.declare_by(next.attribute) {
                return Some(cause);
            }
            rest = next.rest;
        }
        None
    }

    // Whether an attribute's prefix is bound, if it has one.
    pub(crate) fn is_attribute_bound(&self, name: Name) -> bool
        ensures { result ≡ is_attribute_bound self.now (name_view name.entry) }
    {
        name.prefix.is_empty() || self.space_of(name.prefix).is_some()
    }

    // Whether an element's prefix is bound, if it has one.
    pub(crate) fn is_element_bound(&self, name: Name) -> bool
        ensures { result ≡ is_element_bound self.now (name_view name.entry) }
    {
        name.prefix != XMLNS && self.is_attribute_bound(name)
    }

    // Whether the prefixes of the attributes at the start are bound.
    fn are_bound(&self, octets: &[u8]) -> bool
        ensures { (attributes : List Attr) → AreListed octets.now attributes → result ≡ are_bound self.now attributes }
    {
        px_xmp_marks::laws::attributes_in_order();
        let mut rest = octets;
        while let Some(next) = next_attribute(rest) {
            if !self.is_attribute_bound(next.attribute.name) {
                return false;
            }
            rest = next.rest;
        }
        true
    }

    // The namespace of an attribute. None: it has no prefix, or one that isn't bound.
    pub(crate) fn attribute_space(&self, name: Name) -> Option<&'a [u8]>
        ensures { option_map (λ u. u.now) result ≡ attribute_space self.now (name_view name.entry) }
    {
        if name.prefix.is_empty() {
            return None;
        }
        self.space_of(name.prefix)
    }

    // Whether two attributes have one local name in one namespace.
    pub(crate) fn clash(&self, a: Name, b: Name) -> bool
        ensures { result ≡ clash self.now (name_view a.entry) (name_view b.entry) }
    {
        a.local == b.local && are_same_spaces(self.attribute_space(a), self.attribute_space(b))
    }

    // Whether the prefixes of some names of attributes are bound.
    fn are_names_bound(&self, names: &[Name]) -> bool
        ensures { result ≡ are_names_bound self.now (map name_view names.now) }
    {
        for name in names {
            if !self.is_attribute_bound(*name) {
                return false;
            }
        }
        true
    }

    // Whether a name has a local name and a namespace in common with one of some names.
    fn is_name_among(&self, names: &[Name], name: Name) -> bool
        ensures { result ≡ is_name_among self.now (name_view name.entry) (map name_view names.now) }
    {
        for other in names {
            if self.clash(name, *other) {
                return true;
            }
        }
        false
    }

    // Whether no two of some names have both in common.
    fn are_names_unique(&self, names: &[Name]) -> bool
        ensures { result ≡ are_names_unique self.now (map name_view names.now) }
    {
        for (n, name) in names.iter().enumerate() {
            if self.is_name_among(names.split_at(n + 1).1, *name) {
                return false;
            }
        }
        true
    }

    // What is wrong with the names of a tag's attributes, which are no more than the limit. None:
    // nothing is.
    fn judge_names(&self, names: &[Name]) -> Option<SpaceCause>
        ensures { Gives result self.now (names_judged (map name_view names.now) self.now) }
    {
        if !self.are_names_bound(names) {
            return Some(SpaceCause::Undeclared);
        }
        if !self.are_names_unique(names) {
            return Some(SpaceCause::SameName);
        }
        None
    }

    // What is wrong with the names of a tag; None: nothing is. `names` is space that the call
    // overwrites: the names of its attributes.
    fn judge<'b>(
        &self,
        tag: StartTag<'b>,
        names: &mut [Name<'b>; ATTRIBUTE_LIMIT],
    ) -> Option<SpaceCause>
        ensures { (attributes : List Attr) → AreListed tag.entry.rest.now attributes
            → Gives result self.now (judged (name_view tag.entry.name) attributes self.now) }
    {
        if !self.is_element_bound(tag.name) {
            return Some(SpaceCause::Undeclared);
        }
        match read_names(tag.rest, names) {
            Some(len) => self.judge_names(names.split_at(len).0),
            None => self.judge_many(tag),
        }
    }

    // What is wrong with the names of a tag, as `judge` finds it, with space of its own for 256 names.
    #[inline(never)]
    fn judge_large(&self, tag: StartTag) -> Option<SpaceCause>
        ensures { (attributes : List Attr) → AreListed tag.entry.rest.now attributes
            → Gives result self.now (judged (name_view tag.entry.name) attributes self.now) }
    {
        let mut names = [no_name(tag.rest); ATTRIBUTE_LIMIT];
        self.judge(tag, &mut names)
    }

    // What is wrong with the names of a tag, as `judge` finds it, with a smaller space for the names of
    // attributes. If there are more, they get a larger one.
    fn judge_sized<'b>(
        &self,
        tag: StartTag<'b>,
        names: &mut [Name<'b>; STORED],
    ) -> Option<SpaceCause>
        ensures { (attributes : List Attr) → AreListed tag.entry.rest.now attributes
            → Gives result self.now (judged (name_view tag.entry.name) attributes self.now) }
    {
        if !self.is_element_bound(tag.name) {
            return Some(SpaceCause::Undeclared);
        }
        match read_names(tag.rest, names) {
            Some(len) => self.judge_names(names.split_at(len).0),
            None => self.judge_large(tag),
        }
    }

    // What is wrong with a tag that has too many attributes: a prefix that isn't declared, or their
    // number. It is always Some.
    fn judge_many(&self, tag: StartTag) -> Option<SpaceCause>
        ensures { (attributes : List Attr) → AreListed tag.entry.rest.now attributes
            → result ≡ Some (if are_bound self.now attributes then ManyAttributes else Undeclared) }
    {
        if !self.are_bound(tag.rest) {
            return Some(SpaceCause::Undeclared);
        }
        Some(SpaceCause::ManyAttributes)
    }

    // Begins an element with the prefixes that its tag declares. The cause: what is wrong; None:
    // nothing is. `names` is space that the call overwrites.
    pub(crate) fn open(
        &mut self,
        tag: StartTag<'a>,
        names: &mut [Name<'a>; STORED],
    ) -> Option<SpaceCause>
        ensures { (attributes : List Attr) → AreListed tag.entry.rest.now attributes
            → Gives result self.new (opened (name_view tag.entry.name) attributes self.old) }
    {
        if self.is_full() {
            return Some(SpaceCause::TooMany);
        }
        self.put(Entry::Element);
        if let Some(cause) = self.declare_all(tag.rest) {
            return Some(cause);
        }
        self.judge_sized(tag, names)
    }
}
