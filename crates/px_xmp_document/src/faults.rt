// What is wrong with a document.
use px_xmp_markup::{AttributeCause, TreeCause};

/// What is wrong.
#[derive(Clone, Copy, Debug, PartialEq, Eq)]
pub enum Cause {
    /// No character that XML allows is here, in UTF-8.
    NoCharacter,
    /// The XML declaration names another encoding than UTF-8.
    OtherEncoding,
    /// The marks or the elements that follow the declaration are wrong.
    Nesting(TreeCause),
    /// The elements are nested, and the attributes of one are wrong.
    Attributes(AttributeCause),
    /// The elements are nested with distinct attributes, and a prefix of one is wrong.
    Spaces(SpaceCause),
}

/// What is wrong, and where.
#[derive(Clone, Copy, Debug, PartialEq, Eq)]
pub struct Fault {
    /// What is wrong.
    pub cause: Cause,
    /// Where it is.
    pub offset: usize,
}

/// What is wrong with the prefixes of marks in a row.
#[derive(Clone, Copy, Debug, PartialEq, Eq)]
pub enum SpaceCause {
    /// No mark begins here: no tag, section, comment, processing instruction or character data.
    NoMark,
    /// A tag that begins here declares a namespace whose name has more than 256 octets, other octets than those of a URI of ASCII,
    /// or a reference; could be part of a name; or begins as one of RDF's or XML's own.
    RareSpace,
    /// A tag that begins here declares a prefix or a namespace that is reserved, or takes a prefix's namespace away.
    Reserved,
    /// More than 356 elements and declarations are in scope in an element that begins here.
    TooMany,
    /// A tag that begins here has a name whose prefix is not declared, or an element's name the prefix `xmlns`.
    Undeclared,
    /// A tag that begins here has more than 256 attributes.
    ManyAttributes,
    /// A tag that begins here has two attributes with one local name, whose prefixes are bound to one namespace.
    SameName,
}

// What is wrong with the prefixes of marks in a row, and where.
#[derive(Clone, Copy, Debug, PartialEq, Eq)]
pub(crate) struct SpaceFault {
    pub(crate) cause: SpaceCause,
    pub(crate) offset: usize,
}
