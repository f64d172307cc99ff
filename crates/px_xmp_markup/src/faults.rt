// What is wrong with the nesting of elements, and what with the attributes of marks in a row.

/// What is wrong with the nesting of elements.
#[derive(Clone, Copy, Debug, PartialEq, Eq)]
pub enum TreeCause {
    /// No mark begins here: no tag, section, comment, processing instruction or character data.
    NoMark,
    /// A document type begins here, before the root.
    DocumentType,
    /// An end tag has another name than the innermost element, or no element is open.
    OtherEnd,
    /// A start tag is inside 100 elements.
    TooDeep,
    /// A text or a section is outside of the root.
    OutsideRoot,
    /// A start tag follows the root.
    SecondRoot,
    /// The octets end before the root.
    NoRoot,
    /// The octets end inside an element.
    NoEnd,
}

/// What is wrong with the nesting of elements, and where.
#[derive(Clone, Copy, Debug, PartialEq, Eq)]
pub struct TreeFault {
    /// What is wrong.
    pub cause: TreeCause,
    /// Where it is.
    pub offset: usize,
}

/// What is wrong with the attributes of marks in a row.
#[derive(Clone, Copy, Debug, PartialEq, Eq)]
pub enum AttributeCause {
    /// No mark begins here: no tag, section, comment, processing instruction or character data.
    NoMark,
    /// A tag that begins here has an attribute twice.
    AttributeTwice,
}

/// What is wrong with the attributes of marks in a row, and where.
#[derive(Clone, Copy, Debug, PartialEq, Eq)]
pub struct AttributeFault {
    /// What is wrong.
    pub cause: AttributeCause,
    /// Where it is.
    pub offset: usize,
}
