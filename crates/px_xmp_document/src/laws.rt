//! The laws of documents and of namespaces. Each is the contract of a function that computes nothing.
ghost use Rattle.px_xmp_document.specs.Laws.{OneFault, OneElementFault, AttributesAreTwice, OneSpaceFault, PlainSpacesAreTexts};

/// Octets with a fault are no document, with a byte order mark or without, and have one first fault.
pub fn one_fault()
    ensures { OneFault }
{
    px_xmp_text::laws::characters_or_fault();
    px_xmp_marks::laws::declarations_are_read();
    elements_have_one_fault();
}

// Octets with a fault of elements are no elements without one, and have one first fault.
fn elements_have_one_fault()
    ensures { OneElementFault }
{
    px_xmp_markup::laws::one_tree_fault();
    px_xmp_markup::laws::one_attribute_fault();
    one_space_fault();
}

/// In a tree no place is without a mark: if attributes are wrong, a tag has one twice.
pub fn attributes_are_twice()
    ensures { AttributesAreTwice }
{
    px_xmp_marks::laws::row_or_fault();
}

// Octets with a fault are no row in which each prefix is declared, and have one first fault.
fn one_space_fault()
    ensures { OneSpaceFault }
{
    px_xmp_marks::laws::marks_are_read();
    px_xmp_marks::laws::start_tags_are_read();
}

/// The name of a namespace that is accepted is its own text, as the value of an attribute.
pub fn plain_spaces_are_texts()
    ensures { PlainSpacesAreTexts }
{}
