// Names with the namespaces that their prefixes stand for.
ghost use Rattle.std.specs.Prelude.{◌≡◌, option_map};
ghost use Rattle.px_xmp_text.specs.Values.{Structure};
ghost use Rattle.px_xmp_forms.specs.Labels.{container_view, label_view};
ghost use Rattle.px_xmp.specs.Names.{is_rdf, is_root, is_about, is_free, is_property, container_of};
ghost use Rattle.px_xmp.specs.Meaning.{compound_of, label_in};
ghost use Rattle.px_xmp.specs.calls.Opening.{name_of, node_view};

use crate::elements::Node;
use px_xmp_forms::{Container, Label, META, Property, RDF, split_space};

// The namespace to which the prefix xml is bound without a declaration.
pub(crate) const XML: &[u8] = b"http://www.w3.org/XML/1998/namespace";

// The namespace to which only the prefix xmlns is bound.
pub(crate) const XMLNS: &[u8] = b"http://www.w3.org/2000/xmlns/";

// The name of the root, and that of the root of old packets.
const ROOT: &[u8] = b"xmpmeta";

// The local name that the root has in old packets.
const OLD_ROOT: &[u8] = b"xapmeta";

// The local name of rdf:about, which names the subject of a node. RDF/XML, 7.2.24.
const ABOUT: &[u8] = b"about";

// The local name of rdf:value, the only name of RDF that is a property. XMP part 1, 7.5.
const VALUE: &[u8] = b"value";

// Whether a namespace has properties of any name.
fn is_free(space: &[u8]) -> bool
    ensures { result ≡ is_free space.now }
{
    if space.is_empty() {
        return false;
    }
    if space == RDF {
        return false;
    }
    space != XMLNS
}

// A name. Its namespace is empty for none.
#[derive(Clone, Copy, Debug, PartialEq, Eq)]
pub(crate) struct Named<'a> {
    pub(crate) space: &'a [u8],
    pub(crate) local: &'a [u8],
}

impl<'a> Named<'a> {
    // Whether this is the name of RDF with this local name.
    pub(crate) fn is_rdf(&self, local: &[u8]) -> bool
        ensures { result ≡ is_rdf local.now (name_of self.now) }
    {
        self.local == local && self.space == RDF
    }

    // Whether this is the name of the root around rdf:RDF, x:xmpmeta, or its old one.
    pub(crate) fn is_root(&self) -> bool
        ensures { result ≡ is_root (name_of self.now) }
    {
        (self.local == ROOT || self.local == OLD_ROOT) && self.space == META
    }

    // Whether this is rdf:about, the attribute that names the subject, which old packets have
    // without a prefix.
    pub(crate) fn is_about(&self) -> bool
        ensures { result ≡ is_about (name_of self.now) }
    {
        self.local == ABOUT && (self.space.is_empty() || self.space == RDF)
    }

    // Whether this is the name of a property.
    fn is_property(&self) -> bool
        ensures { result ≡ is_property (name_of self.now) }
    {
        if self.space == RDF {
            return self.local == VALUE;
        }
        if self.space == XML {
            return false;
        }
        is_free(split_space(self.space).0)
    }

    // The property of this name. None: no property may have it.
    pub(crate) fn property(&self) -> Option<Label<'a>>
        ensures { option_map label_view result ≡ label_in Structure (name_of self.now) }
    {
        if !self.is_property() {
            return None;
        }
        Some(Label::Property(Property::new(self.space, self.local)))
    }

    // The array of this name: rdf:Bag, rdf:Seq or rdf:Alt. None: the name is another one.
    pub(crate) fn container(&self) -> Option<Container>
        ensures { option_map container_view result ≡ container_of (name_of self.now) }
    {
        if self.is_rdf(b"Bag") {
            return Some(Container::Bag);
        }
        if self.is_rdf(b"Seq") {
            return Some(Container::Seq);
        }
        if self.is_rdf(b"Alt") {
            return Some(Container::Alt);
        }
        None
    }

    // The node of this name: rdf:Description or an array. None: the name is another one.
    pub(crate) fn node(&self) -> Option<Node>
        ensures { option_map node_view result ≡ compound_of (name_of self.now) }
    {
        if self.is_rdf(b"Description") {
            return Some(Node::Description);
        }
        match self.container() {
            Some(container) => Some(Node::Container(container)),
            None => None,
        }
    }
}
