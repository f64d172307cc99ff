//! The laws of nested elements and of distinct attributes. Each is the contract of a function that computes nothing.
ghost use Rattle.px_xmp_markup.specs.Kinds.{KindsAreRead, OnlyKindsAreRead};
ghost use Rattle.px_xmp_markup.specs.Laws.{OneTreeFault, OneAttributeFault};
ghost use Rattle.px_xmp_markup.specs.calls.Steps.{StepsLead};

/// A mark of the grammar, before a rest, is what `mark` reads: its kind and its length.
pub fn kinds_are_read()
    ensures { KindsAreRead }
{
    px_xmp_marks::laws::start_tags_are_read();
    px_xmp_marks::laws::end_tags_are_read();
    px_xmp_marks::laws::marks_are_read();
}

/// What `mark` reads at the start of some octets is a mark of the grammar before the rest, of this kind and length.
pub fn only_kinds_are_read()
    ensures { OnlyKindsAreRead }
{
    px_xmp_marks::laws::start_tags_are_read();
    px_xmp_marks::laws::end_tags_are_read();
    px_xmp_marks::laws::only_start_tags_are_read();
    px_xmp_marks::laws::only_end_tags_are_read();
    px_xmp_marks::laws::only_marks_are_read();
}

/// Octets with a fault are no tree, and have one first fault.
pub fn one_tree_fault()
    ensures { OneTreeFault }
{
    kinds_are_read();
}

/// A mark that is passed leads on: after the marks that led to the place before it, it leads to the place after it.
pub fn steps_lead()
    ensures { StepsLead }
{}

/// Octets with a fault are no row in which each attribute is there once, and have one first fault.
pub fn one_attribute_fault()
    ensures { OneAttributeFault }
{
    px_xmp_marks::laws::marks_are_read();
}
