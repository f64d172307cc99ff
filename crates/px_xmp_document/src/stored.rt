// Tags whose attributes are stored, which need not be read again.
ghost use Rattle.std.specs.Prelude.{◌≡◌, ◌≤◌, ◌||◌, [], true, is_some, length, take, map};
ghost use Rattle.px_xmp_marks.specs.Reading.{name_view, attribute_view};
ghost use Rattle.px_xmp_document.specs.Bindings.{with_attributes};
ghost use Rattle.px_xmp_document.specs.Scopes.{is_same, space_of};
ghost use Rattle.px_xmp_document.specs.Tags.{attribute_limit, is_attribute_bound, are_bound, are_unique, judged, opened, passed};
ghost use Rattle.px_xmp_document.specs.calls.Keys.{key_view, key_of, keys_of, keys_clash, is_key_among, are_keys_unique};
ghost use Rattle.px_xmp_document.specs.calls.Passing.{Gives, start_piece};

use crate::faults::SpaceCause;
use crate::scopes::{Entry, Scope};
use crate::tags::{ATTRIBUTE_LIMIT, are_same_spaces};
use px_xmp_marks::{Attribute, Name, are_locals_distinct};

// The local name of an attribute, and its namespace, if it has one.
#[derive(Clone, Copy, Debug, PartialEq, Eq)]
struct Key<'a> {
    local: &'a [u8],
    space: Option<&'a [u8]>,
}

// What fills the array of keys before they are stored.
const NO_KEY: Key<'static> = Key {
    local: b"",
    space: None,
};

// Whether two attributes have one local name in one namespace.
fn is_same_key(a: Key, b: Key) -> bool
    ensures { result ≡ keys_clash (key_view a.entry) (key_view b.entry) }
{
    a.local == b.local && are_same_spaces(a.space, b.space)
}

// Whether an attribute has its local name and namespace in common with one of some attributes.
fn is_key_among(keys: &[Key], key: Key) -> bool
    ensures { result ≡ is_key_among (key_view key.entry) (map key_view keys.now) }
{
    for other in keys {
        if is_same_key(key, *other) {
            return true;
        }
    }
    false
}

// Whether no two of some attributes have one local name in one namespace.
fn are_keys_unique(keys: &[Key]) -> bool
    ensures { result ≡ are_keys_unique (map key_view keys.now) }
{
    for (n, key) in keys.iter().enumerate() {
        if is_key_among(keys.split_at(n + 1).1, *key) {
            return false;
        }
    }
    true
}

impl<'a> Scope<'a> {
    // Binds what attributes declare. The cause: what is wrong with the first that is wrong; None:
    // nothing is.
    fn declare_each(&mut self, attributes: &[Attribute<'a>]) -> Option<SpaceCause>
        ensures { Gives result self.new (with_attributes (map attribute_view attributes.now) self.old) }
    {
        for attribute in attributes {
            if let Some(cause) = self.declare_by(*attribute) {
                return Some(cause);
            }
        }
        None
    }

    // Whether an attribute's prefix is bound, if it has one, after an attribute whose prefix is.
    fn is_next_bound(&self, last: &[u8], name: Name) -> bool
        requires { (is_same last.now [] || is_some (space_of last.now self.now)) ≡ true }
        ensures { result ≡ is_attribute_bound self.now (name_view name.entry) }
    {
        if name.prefix == last {
            return true;
        }
        self.is_attribute_bound(name)
    }

    // Whether the prefixes of attributes are bound. Those with one prefix mostly follow one another, and it is looked up once.
    fn is_each_bound(&self, attributes: &[Attribute]) -> bool
        ensures { result ≡ are_bound self.now (map attribute_view attributes.now) }
    {
        let mut last: &[u8] = b"";
        for attribute in attributes {
            if !self.is_next_bound(last, attribute.name) {
                return false;
            }
            last = attribute.name.prefix;
        }
        true
    }

    // The local name of an attribute, and its namespace.
    fn key(&self, name: Name<'a>) -> Key<'a>
        ensures { key_view result ≡ key_of self.now (name_view name.entry) }
    {
        Key {
            local: name.local,
            space: self.attribute_space(name),
        }
    }

    // Stores the local names and namespaces of attributes, in order, at the start of `keys`.
    fn store_keys(&self, attributes: &[Attribute<'a>], keys: &mut [Key<'a>; ATTRIBUTE_LIMIT])
        requires { length attributes.now ≤ attribute_limit }
        ensures stored { map key_view (take (length attributes.now) keys.new) ≡ keys_of self.now (map attribute_view attributes.now) }
        ensures size { length keys.new ≡ attribute_limit }
    {
        for (n, attribute) in attributes.iter().enumerate() {
            keys[n] = self.key(attribute.name);
        }
    }

    // Whether no two of some attributes have both local name and namespace in common, by a look at each pair.
    // Each namespace is looked up once.
    #[inline(never)]
    fn is_each_pair_unique(&self, attributes: &[Attribute<'a>]) -> bool
        requires { length attributes.now ≤ attribute_limit }
        ensures { result ≡ are_unique self.now (map attribute_view attributes.now) }
    {
        let mut keys = [NO_KEY; ATTRIBUTE_LIMIT];
        self.store_keys(attributes, &mut keys);
        are_keys_unique(keys.split_at(attributes.len()).0)
    }

    // Whether no two of some attributes have both local name and namespace in common.
    fn is_each_unique(&self, attributes: &[Attribute<'a>]) -> bool
        requires { length attributes.now ≤ attribute_limit }
        ensures { result ≡ are_unique self.now (map attribute_view attributes.now) }
    {
        if are_locals_distinct(attributes) {
            return true;
        }
        self.is_each_pair_unique(attributes)
    }

    // What is wrong with the names of a tag. None: nothing is.
    fn judge_each(&self, name: Name, attributes: &[Attribute<'a>]) -> Option<SpaceCause>
        requires { length attributes.now ≤ attribute_limit }
        ensures { Gives result self.now (judged (name_view name.entry) (map attribute_view attributes.now) self.now) }
    {
        if !self.is_element_bound(name) {
            return Some(SpaceCause::Undeclared);
        }
        if !self.is_each_bound(attributes) {
            return Some(SpaceCause::Undeclared);
        }
        if !self.is_each_unique(attributes) {
            return Some(SpaceCause::SameName);
        }
        None
    }

    // Begins an element with the prefixes that its attributes declare. The cause: what is wrong;
    // None: nothing is.
    fn open_stored(&mut self, name: Name<'a>, attributes: &[Attribute<'a>]) -> Option<SpaceCause>
        requires { length attributes.now ≤ attribute_limit }
        ensures { Gives result self.new (opened (name_view name.entry) (map attribute_view attributes.now) self.old) }
    {
        if self.is_full() {
            return Some(SpaceCause::TooMany);
        }
        self.put(Entry::Element);
        if let Some(cause) = self.declare_each(attributes) {
            return Some(cause);
        }
        self.judge_each(name, attributes)
    }

    /// Passes a start tag, or the tag of an empty element, with this name and these attributes, no more than 256; or returns
    /// what is wrong with it here: then the scope is of no use. It allocates nothing. Namespaces in XML 1.0, 3, 5 and 6.
    pub fn pass_tag(
        &mut self,
        is_empty: bool,
        name: Name<'a>,
        attributes: &[Attribute<'a>],
    ) -> Option<SpaceCause>
        requires { length attributes.now ≤ attribute_limit }
        ensures { Gives result self.new
            (passed (start_piece is_empty (name_view name.entry) (map attribute_view attributes.now)) self.old) }
    {
        if let Some(cause) = self.open_stored(name, attributes) {
            return Some(cause);
        }
        if is_empty {
            self.end();
        }
        None
    }
}
