//! The laws of texts: what follows from the definitions. Each is the contract of a function that does nothing.
ghost use Rattle.px_xmp_text.specs.Characters.{CharactersOrFault};
ghost use Rattle.px_xmp_text.specs.Grammar.{ReferencesAreRead, OnlyReferencesAreRead};
ghost use Rattle.px_xmp_text.specs.Laws.{NormalReadsBack, NormalIsInjective, NormalBound, FaultOrText, NoFaultUnlessReference};
ghost use Rattle.px_xmp_text.specs.Values.{PacketIsInjective};

/// Octets with a first place where no character begins that XML allows are not all such characters, and have no other
/// first place.
pub fn characters_or_fault()
    ensures { CharactersOrFault }
{}

/// A reference of the grammar, before any octets, is what `reference` reads: its character and its length.
pub fn references_are_read()
    ensures { ReferencesAreRead }
{}

/// What `reference` reads at the start of some octets is a reference of the grammar, with this character and this
/// length.
pub fn only_references_are_read()
    ensures { OnlyReferencesAreRead }
{}

/// Octets have a text exactly if they have no fault.
pub fn fault_or_text()
    ensures { FaultOrText }
{}

/// Octets without an `&` have no fault.
pub fn no_fault_unless_reference()
    ensures { NoFaultUnlessReference }
{}

/// The normal form of a text, read as character data, is that text.
pub fn normal_reads_back()
    ensures { NormalReadsBack }
{}

/// Two texts have the same normal form exactly if they are the same octets.
pub fn normal_is_injective()
    ensures { NormalIsInjective }
{}

/// The normal form of a text is no shorter than it and at most five times as long.
pub fn normal_bound()
    ensures { NormalBound }
{}

/// Two lists of properties that can be written have the same normal packet exactly if they are the same list.
pub fn packet_is_injective()
    ensures { PacketIsInjective }
{}
