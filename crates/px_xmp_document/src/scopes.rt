// What is in scope: the open elements, and what they declare.
ghost use Rattle.std.specs.Prelude.{◌≡◌, ◌≤◌, ◌<◌, List, [], ◌∷◌, length, nat_le, option_map, MatchOption};
ghost use Rattle.px_xmp_document.specs.Scopes.{limit, built_in, space_of, ended};
ghost use Rattle.px_xmp_document.specs.calls.Entries.{entry_view, entries_of};

use std::marker::Model;

// The most open elements and declarations that are in scope together, a limit of this reader.
const LIMIT: usize = 356;

// The prefixes that are bound without a declaration, and their namespaces.
pub(crate) const XML: &[u8] = b"xml";

// The namespace to which the prefix `xml` is bound without a declaration. Namespaces in XML 1.0, 3.
pub(crate) const XML_SPACE: &[u8] = b"http://www.w3.org/XML/1998/namespace";

// The prefix of declarations, which is itself never declared. Namespaces in XML 1.0, 3.
pub(crate) const XMLNS: &[u8] = b"xmlns";

// The namespace to which only the prefix `xmlns` is bound. Namespaces in XML 1.0, 3.
pub(crate) const XMLNS_SPACE: &[u8] = b"http://www.w3.org/2000/xmlns/";

// An open element, or what it declares. Its declarations follow it.
#[derive(Clone, Copy, Debug, PartialEq, Eq)]
pub(crate) enum Entry<'a> {
    Element,
    Declaration(&'a [u8], &'a [u8]),
}

// The namespace to which a prefix is bound without a declaration. None: it is bound to none.
fn built_in<'a>(prefix: &[u8]) -> Option<&'a [u8]>
    ensures { option_map (λ u. u.now) result ≡ built_in prefix.now }
{
    if prefix == XML {
        return Some(XML_SPACE);
    }
    if prefix == XMLNS {
        return Some(XMLNS_SPACE);
    }
    None
}

// The namespace to which a prefix is bound by the last of the first `len` entries that declares it,
// or without a declaration. None: it is bound to none.
fn find<'a>(entries: &[Entry<'a>], len: usize, prefix: &[u8]) -> Option<&'a [u8]>
    requires { len ≤ length entries.now }
    ensures { option_map (λ u. u.now) result ≡ space_of prefix.now (entries_of len entries.now) }
{
    let mut n = len;
    while n > 0 {
        n -= 1;
        if let Entry::Declaration(declared, space) = entries[n] {
            if declared == prefix {
                return Some(space);
            }
        }
    }
    built_in(prefix)
}

// The open elements, and what they declare: what a prefix is bound to.
#[derive(Drop)]
pub(crate) struct Scope<'a> {
    entries: [Entry<'a>; LIMIT],
    len: usize,
}

impl<'a> Model for Scope<'a> {
    ghost use Rattle.std.specs.Prelude.{List, ◌≡◌, ◌≤◌, length};
    ghost use Rattle.px_xmp_document.specs.Scopes.{Item, limit};
    ghost use Rattle.px_xmp_document.specs.calls.Entries.{entries_of};

    ghost Value = { List Item };

    ghost view = { λ s. entries_of s.len s.entries };

    ghost invariant = { λ s. (s.len ≤ limit) × (length s.entries ≡ limit) };
}

impl<'a> Scope<'a> {
    // No element is open. It allocates nothing.
    pub(crate) fn new() -> Self
        ensures { result ≡ [] }
    {
        Scope {
            entries: [Entry::Element; LIMIT],
            len: 0,
        }
    }

    // Whether nothing more can be in scope.
    pub(crate) fn is_full(&self) -> bool
        ensures { result ≡ nat_le limit (length self.now) }
    {
        self.len == LIMIT
    }

    // Adds an entry as the innermost. There is room for it: fewer than 356 are in scope.
    pub(crate) fn put(&mut self, entry: Entry<'a>)
        requires { length self.old < limit }
        ensures { self.new ≡ entry_view entry.entry ∷ self.old }
    {
        self.entries[self.len] = entry;
        self.len += 1;
    }

    // Takes the innermost entry away, and returns it. None: nothing is in scope.
    fn pop(&mut self) -> Option<Entry<'a>>
        ensures { MatchOption result ((self.old ≡ []) × (self.new ≡ [])) (λ e. self.old ≡ entry_view e ∷ self.new) }
    {
        if self.len == 0 {
            return None;
        }
        self.len -= 1;
        Some(self.entries[self.len])
    }

    // Ends the innermost element, if one is open: what it declares is no longer in scope. It allocates nothing.
    pub(crate) fn end(&mut self)
        ensures { self.new ≡ ended self.old }
    {
        while let Some(entry) = self.pop() {
            match entry {
                Entry::Element => return,
                Entry::Declaration(_, _) => {}
            }
        }
    }

    // The namespace to which a prefix is bound. None: it is bound to none.
    pub(crate) fn space_of(&self, prefix: &[u8]) -> Option<&'a [u8]>
        ensures { option_map (λ u. u.now) result ≡ space_of prefix.now self.now }
    {
        find(&self.entries, self.len, prefix)
    }
}
