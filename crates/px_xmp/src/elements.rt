// What is known of an element while its content is read.
ghost use Rattle.std.specs.Prelude.{◌≡◌, ◌≤◌, suc, true, option_map, is_some, IfSome};
ghost use Rattle.px_xmp_markup.specs.Nesting.{limit};
ghost use Rattle.px_xmp.specs.Tags.{DeclaresLanguage, inherited};
ghost use Rattle.px_xmp.specs.calls.Contents.{content_of};
ghost use Rattle.px_xmp.specs.calls.Fits.{LanguageFits};

use crate::attributes::language_of;
use crate::names::Named;
use px_xmp_forms::{Container, Content};

// The root of a normal form, rdf:RDF and rdf:Description.
pub(crate) const SUBJECT_DEPTH: usize = 3;

// The most elements of a normal form that are in one another.
pub(crate) const DEPTH_LIMIT: usize = 100;

// A start tag, or the tag of an empty element.
#[derive(Clone, Copy, Debug, PartialEq, Eq)]
pub(crate) struct Opened<'a> {
    pub(crate) name: Named<'a>,
    // Its attributes, from the first on that declares nothing.
    pub(crate) attributes: &'a [u8],
    // The language that it declares.
    pub(crate) language: Option<&'a [u8]>,
    pub(crate) place: usize,
    pub(crate) is_empty: bool,
}

// The element around what is read: the language of its texts, the offset of its tag, and the number of elements of the normal
// form around what is inside it.
#[derive(Clone, Copy, Debug, PartialEq, Eq)]
pub(crate) struct Around<'a> {
    pub(crate) language: &'a [u8],
    pub(crate) place: usize,
    pub(crate) depth: usize,
}

impl<'a> Around<'a> {
    // An element inside this one that is no element of the normal form. None: its language is for another reader.
    pub(crate) fn inside(self, opened: Opened<'a>) -> Option<Around<'a>>
        ensures declares { IfSome result (λ a. DeclaresLanguage (option_map (λ l. l.now) opened.entry.language)) }
        ensures language { IfSome result (λ a.
            a.language.now ≡ inherited self.entry.language.now (option_map (λ l. l.now) opened.entry.language)) }
        ensures place { IfSome result (λ a. a.place ≡ opened.entry.place) }
        ensures depth { IfSome result (λ a. a.depth ≡ self.entry.depth) }
        ensures accepts { LanguageFits (option_map (λ l. l.now) opened.entry.language) → is_some result ≡ true }
    {
        let Some(language) = language_of(opened.language, self.language) else {
            return None;
        };
        Some(Around {
            language,
            place: opened.place,
            depth: self.depth,
        })
    }

    // This element, if it is one of the normal form, in which it is one level deeper. None: the
    // form has too many levels.
    pub(crate) fn deeper(self) -> Option<Around<'a>>
        ensures language { IfSome result (λ a. a.language.now ≡ self.entry.language.now) }
        ensures place { IfSome result (λ a. a.place ≡ self.entry.place) }
        ensures depth { IfSome result (λ a. a.depth ≡ suc self.entry.depth) }
        ensures within { IfSome result (λ a. a.depth ≤ limit) }
        ensures accepts { suc self.entry.depth ≤ limit → is_some result ≡ true }
    {
        if self.depth >= DEPTH_LIMIT {
            return None;
        }
        Some(Around {
            language: self.language,
            place: self.place,
            depth: self.depth + 1,
        })
    }
}

// An element of RDF that has properties or members.
#[derive(Clone, Copy, Debug, PartialEq, Eq)]
pub(crate) enum Node {
    // rdf:Description, or what its properties are in by rdf:parseType.
    Description,
    Container(Container),
}

impl Node {
    // What the normal form writes around the contents of a node: the tags of a structure or of an
    // array.
    pub(crate) fn content<'a>(self) -> Content<'a>
        ensures { result ≡ content_of self }
    {
        match self {
            Node::Description => Content::Structure,
            Node::Container(container) => Content::Members(container),
        }
    }
}

// What the attributes of a property or a member say of its content.
#[derive(Clone, Copy, Debug, PartialEq, Eq)]
pub(crate) enum Filling {
    // Nothing: it is a text, or a node with white space around it.
    Any,
    // It is properties, by rdf:parseType.
    Properties,
    // It is nothing: an attribute has the resource.
    Resource,
    // It is nothing: attributes have the properties.
    Attributes,
}
