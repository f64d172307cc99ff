// What prefixes stand for. Namespaces in XML 1.0, 6.
// `Err` of a call is why it reads no further: `Content`, what is wrong or rare and its byte offset
// in the packet; or `OutOfMemory`, a failed allocation.
ghost use Rattle.std.specs.Prelude.{◌≡◌, ◌≤◌, ◌∷◌, [], List, Some, length, option_map, if◌then◌else◌, OnOk, IfOk, MatchOption};
ghost use Rattle.px_xmp_marks.specs.Reading.{Attr, name_view};
ghost use Rattle.px_xmp_document.specs.Scopes.{built_in, space_of, ended};
ghost use Rattle.px_xmp_document.specs.Bindings.{declared_prefix};
ghost use Rattle.px_xmp_forms.specs.Allocations.{CountsAllocFailureInPacket};
ghost use Rattle.px_xmp_forms.specs.Causes.{IsRare, FailsByMemory};
ghost use Rattle.px_xmp.specs.Names.{or_none, element_name, attribute_name};
ghost use Rattle.px_xmp.specs.Tags.{names_language, is_plain, with_prefix, inside, tag_of};
ghost use Rattle.px_xmp.specs.calls.Entries.{entry_view, entries_of};
ghost use Rattle.px_xmp.specs.calls.Listed.{AreListed, first_after, or_rest};
ghost use Rattle.px_xmp.specs.calls.Opening.{name_of, IsDeclared, IsOpened};

use crate::attributes::{declared_prefix, is_plain, names_language};
use crate::elements::Opened;
use crate::names::{Named, XML, XMLNS};
use px_bytes::Memory;
use px_xmp_forms::Refusal;
use px_xmp_marks::{Attribute, Name, StartTag, next_attribute};
use std::marker::Model;

// The prefixes that are bound without a declaration. No declaration binds the second one, and no name has it.
const XML_PREFIX: &[u8] = b"xml";

// The prefix that no declaration may bind, as it declares others. Namespaces in XML 1.0, 3.
const XMLNS_PREFIX: &[u8] = b"xmlns";

// An open element, or what it declares: a prefix and a namespace. Its declarations follow it.
#[derive(Clone, Copy, Debug, PartialEq, Eq)]
enum Entry<'a> {
    Element,
    Declaration(&'a [u8], &'a [u8]),
}

// The namespace to which a prefix is bound without a declaration, or the empty one.
fn built_in<'a>(prefix: &[u8]) -> &'a [u8]
    ensures { result.now ≡ or_none (built_in prefix.now) }
{
    if prefix == XML_PREFIX {
        return XML;
    }
    if prefix == XMLNS_PREFIX {
        return XMLNS;
    }
    b""
}

// The namespace to which a prefix is bound by the last of the first `len` entries that declares it,
// or without a declaration. It is empty if the prefix is bound to none.
fn find<'a>(entries: &[Entry<'a>], len: usize, prefix: &[u8]) -> &'a [u8]
    requires { len ≤ length entries.now }
    ensures { result.now ≡ or_none (space_of prefix.now (entries_of len entries.now)) }
{
    let mut n = len;
    while n > 0 {
        n -= 1;
        if let Entry::Declaration(declared, space) = entries[n] {
            if declared == prefix {
                return space;
            }
        }
    }
    built_in(prefix)
}

// The attributes of an element: the language that one declares, and the octets from the first on that declares nothing.
#[derive(Clone, Copy, Debug, PartialEq, Eq)]
struct Declared<'a> {
    language: Option<&'a [u8]>,
    attributes: &'a [u8],
}

// The same, as far as they were read.
#[derive(Clone, Copy, Debug, PartialEq, Eq)]
struct Noted<'a> {
    language: Option<&'a [u8]>,
    first: Option<&'a [u8]>,
}

impl<'a> Noted<'a> {
    // The language that a tag declares up to this attribute, with it. None: it declares none so
    // far.
    fn language_after(self, attribute: Attribute<'a>) -> Option<&'a [u8]>
        ensures { option_map (λ l. l.now) result ≡ (if names_language (name_view attribute.entry.name)
            then Some attribute.entry.value.now else option_map (λ l. l.now) self.entry.language) }
    {
        if names_language(attribute.name) {
            return Some(attribute.value);
        }
        self.language
    }

    // The octets from the first attribute on that declares nothing, up to the attribute with this
    // name, with which `octets` begin. None: each declares something so far.
    fn first_after(self, name: Name, octets: &'a [u8]) -> Option<&'a [u8]>
        ensures { option_map (λ l. l.now) result
            ≡ first_after (option_map (λ l. l.now) self.entry.first) (is_plain (name_view name.entry)) octets.now }
    {
        if let Some(first) = self.first {
            return Some(first);
        }
        if is_plain(name) {
            return Some(octets);
        }
        None
    }

    // The language that a tag declares, and its attributes from the first on that declares nothing;
    // if each declares something, `rest`, which follows them.
    fn whole(self, rest: &'a [u8]) -> Declared<'a>
        ensures language { option_map (λ l. l.now) result.language ≡ option_map (λ l. l.now) self.entry.language }
        ensures attributes { result.attributes.now ≡ or_rest (option_map (λ l. l.now) self.entry.first) rest.now }
    {
        let attributes = match self.first {
            Some(octets) => octets,
            None => rest,
        };
        Declared {
            language: self.language,
            attributes,
        }
    }
}

// The elements that are open, and what they declare.
#[derive(Drop)]
pub(crate) struct Scope<'a> {
    entries: Vec<Entry<'a>>,
}

impl<'a> Model for Scope<'a> {
    ghost use Rattle.std.specs.Prelude.{List};
    ghost use Rattle.px_xmp_document.specs.Scopes.{Item};
    ghost use Rattle.px_xmp.specs.calls.Entries.{all_entries};

    ghost Value = { List Item };

    ghost view = { λ s. all_entries s.entries.items };
}

impl<'a> Scope<'a> {
    // A scope with no element open, whose entries will be allocated in this memory.
    pub(crate) fn new(memory: &Memory) -> Scope<'a>
        ensures { result ≡ [] }
    {
        Scope {
            entries: memory.list(),
        }
    }

    // Adds an open element, or a declaration.
    fn put(&mut self, memory: &mut Memory, entry: Entry<'a>) -> Result<(), Refusal>
        ensures items { OnOk result (self.new ≡ entry_view entry.entry ∷ self.old) }
        ensures memory { CountsAllocFailureInPacket result memory.old memory.new }
        ensures rare { IsRare result }
        ensures accepts { FailsByMemory result }
    {
        memory.push(&mut self.entries, entry)?;
        Ok(())
    }

    // Binds what an attribute declares.
    fn declare(&mut self, memory: &mut Memory, attribute: Attribute<'a>) -> Result<(), Refusal>
        ensures items { OnOk result (self.new
            ≡ with_prefix (declared_prefix (name_view attribute.entry.name)) attribute.entry.value.now self.old) }
        ensures memory { CountsAllocFailureInPacket result memory.old memory.new }
        ensures rare { IsRare result }
        ensures accepts { FailsByMemory result }
    {
        let Some(prefix) = declared_prefix(attribute.name) else {
            return Ok(());
        };
        self.put(memory, Entry::Declaration(prefix, attribute.value))
    }

    // Opens an element, and binds what its attributes declare.
    fn open(&mut self, memory: &mut Memory, attributes: &'a [u8]) -> Result<Declared<'a>, Refusal>
        ensures items { (all : List Attr) → AreListed attributes.now all → OnOk result (self.new ≡ inside self.old all) }
        ensures tag { (all : List Attr) → AreListed attributes.now all → IfOk result (λ d. IsDeclared d all) }
        ensures memory { CountsAllocFailureInPacket result memory.old memory.new }
        ensures rare { IsRare result }
        ensures accepts { FailsByMemory result }
    {
        px_xmp_marks::laws::attributes_in_order();
        self.put(memory, Entry::Element)?;
        let mut noted = Noted {
            language: None,
            first: None,
        };
        let mut rest = attributes;
        while let Some(next) = next_attribute(rest) {
            self.declare(memory, next.attribute)?;
            noted = Noted {
                language: noted.language_after(next.attribute),
                first: noted.first_after(next.attribute.name, rest),
            };
            rest = next.rest;
        }
        Ok(noted.whole(rest))
    }

    // Opens the element of a tag: its name, the language that it declares, and its other attributes.
    pub(crate) fn enter(
        &mut self,
        memory: &mut Memory,
        tag: StartTag<'a>,
        place: usize,
    ) -> Result<Opened<'a>, Refusal>
        ensures scope { (all : List Attr) → AreListed tag.entry.rest.now all → OnOk result (self.new ≡ inside self.old all) }
        ensures tag { (all : List Attr) → AreListed tag.entry.rest.now all
            → IfOk result (λ o. IsOpened self.new o (tag_of self.old (name_view tag.entry.name) all)) }
        ensures empty { IfOk result (λ o. o.is_empty ≡ tag.entry.is_empty) }
        ensures place { IfOk result (λ o. o.place ≡ place) }
        ensures memory { CountsAllocFailureInPacket result memory.old memory.new }
        ensures rare { IsRare result }
        ensures accepts { FailsByMemory result }
    {
        let declared = self.open(memory, tag.rest)?;
        Ok(Opened {
            name: self.element(tag.name),
            attributes: declared.attributes,
            language: declared.language,
            place,
            is_empty: tag.is_empty,
        })
    }

    // Takes the last entry away, and returns it. None: there is none.
    fn pop(&mut self) -> Option<Entry<'a>>
        ensures { MatchOption result ((self.old ≡ []) × (self.new ≡ [])) (λ e. self.old ≡ entry_view e ∷ self.new) }
    {
        self.entries.pop()
    }

    // Ends the innermost element: what it declares is no longer in scope.
    #[inline(never)]
    pub(crate) fn close(&mut self)
        ensures { self.new ≡ ended self.old }
    {
        while let Some(entry) = self.pop() {
            match entry {
                Entry::Element => return,
                Entry::Declaration(_, _) => {}
            }
        }
    }

    // The name of an element.
    fn element(&self, name: Name<'a>) -> Named<'a>
        ensures { name_of result ≡ element_name self.now (name_view name.entry) }
    {
        Named {
            space: find(self.entries.as_slice(), self.entries.len(), name.prefix),
            local: name.local,
        }
    }

    // The name of an attribute, which is in no namespace if it has no prefix.
    pub(crate) fn attribute(&self, name: Name<'a>) -> Named<'a>
        ensures { name_of result ≡ attribute_name self.now (name_view name.entry) }
    {
        if name.prefix.is_empty() {
            return Named {
                space: name.prefix,
                local: name.local,
            };
        }
        self.element(name)
    }
}
