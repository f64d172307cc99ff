//! The laws of the marks: what is read is exactly what the grammar has. Each is the contract of a function that does
//! nothing.
ghost use Rattle.px_xmp_marks.specs.Laws.{AttributesAreRead, OnlyAttributesAreRead, StartTagsAreRead, OnlyStartTagsAreRead};
ghost use Rattle.px_xmp_marks.specs.Laws.{EndTagsAreRead, OnlyEndTagsAreRead, AttributesInOrder};
ghost use Rattle.px_xmp_marks.specs.Sections.{SectionsAreRead, OnlySectionsAreRead};
ghost use Rattle.px_xmp_marks.specs.Declarations.{DeclarationsAreRead, OnlyDeclarationsAreRead};
ghost use Rattle.px_xmp_marks.specs.Marks.{MarksAreRead, OnlyMarksAreRead, RowOrFault};
ghost use Rattle.px_xmp_marks.specs.Comments.{CommentsAreRead, OnlyCommentsAreRead};
ghost use Rattle.px_xmp_marks.specs.Instructions.{InstructionsAreRead, OnlyInstructionsAreRead};

/// An attribute of the grammar, before any octets, is what `attribute` reads: its name, its value as it is written,
/// and its length.
pub fn attributes_are_read()
    ensures { AttributesAreRead }
{}

/// What `attribute` reads at the start of some octets is an attribute of the grammar.
pub fn only_attributes_are_read()
    ensures { OnlyAttributesAreRead }
{}

/// Of the attributes of a tag `next_attribute` reads the first, and what it leaves has the others. It reads none if
/// there are none.
pub fn attributes_in_order()
    ensures { AttributesInOrder }
{}

/// A start tag of the grammar, before any octets, is what `start_tag` reads: its name, its attributes, whether its
/// element is empty, and its length.
pub fn start_tags_are_read()
    ensures { StartTagsAreRead }
{}

/// What `start_tag` reads at the start of some octets is a start tag of the grammar, with this name, these attributes
/// and this length.
pub fn only_start_tags_are_read()
    ensures { OnlyStartTagsAreRead }
{}

/// An end tag of the grammar, before any octets, is what `end_tag` reads: its name and its length.
pub fn end_tags_are_read()
    ensures { EndTagsAreRead }
{}

/// What `end_tag` reads at the start of some octets is an end tag of the grammar, with this name and this length.
pub fn only_end_tags_are_read()
    ensures { OnlyEndTagsAreRead }
{}

/// Of a CDATA section of the grammar, before any octets, `section` reads the content.
pub fn sections_are_read()
    ensures { SectionsAreRead }
{}

/// Octets of which `section` reads a content begin with a CDATA section of the grammar that has this content.
pub fn only_sections_are_read()
    ensures { OnlySectionsAreRead }
{}

/// Of a comment of the grammar, before any octets, `comment` reads the content.
pub fn comments_are_read()
    ensures { CommentsAreRead }
{}

/// Octets of which `comment` reads a content begin with a comment of the grammar that has this content.
pub fn only_comments_are_read()
    ensures { OnlyCommentsAreRead }
{}

/// Of a processing instruction of the grammar, before any octets, `instruction` reads the length.
pub fn instructions_are_read()
    ensures { InstructionsAreRead }
{}

/// Octets of which `instruction` reads a length begin with a processing instruction of the grammar that has this
/// length.
pub fn only_instructions_are_read()
    ensures { OnlyInstructionsAreRead }
{}

/// Of an XML declaration of the grammar, before any octets, `declaration` reads the encoding and the length.
pub fn declarations_are_read()
    ensures { DeclarationsAreRead }
{}

/// Octets of which `declaration` reads an encoding and a length begin with an XML declaration of the grammar that has
/// these.
pub fn only_declarations_are_read()
    ensures { OnlyDeclarationsAreRead }
{}

/// A mark of the grammar, before a rest, has the length that `mark_len` returns for both. Character data is a mark
/// only before a `<` or the end.
pub fn marks_are_read()
    ensures { MarksAreRead }
{}

/// As many octets as `mark_len` returns are a mark of the grammar before the rest. Character data is a mark only
/// before a `<` or the end.
pub fn only_marks_are_read()
    ensures { OnlyMarksAreRead }
{}

/// Octets with a first place where no mark begins are no row of marks, and have no other first place.
pub fn row_or_fault()
    ensures { RowOrFault }
{}
