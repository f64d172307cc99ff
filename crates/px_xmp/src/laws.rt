//! The laws of packets. Each is the contract of a function that computes nothing.
ghost use Rattle.px_xmp.specs.Laws.{FormIsItsOwn, FormsDecide, KindsAreRead, MeaningsAreReadable, NodesMeanOnce, NormalIsFile};
ghost use Rattle.px_xmp.specs.Accepted.{FormsFit};
ghost use Rattle.px_xmp.specs.Refusals.{OneRefusal};
ghost use Rattle.px_xmp.specs.Asking.{RdfIsLast};
ghost use Rattle.px_xmp.specs.Laws.{FilesHaveNodes, NormalKeepsMeaning, NormalSays, OneMeaning, OnePacket, OneReading, ScopesAreJudged};

/// Each mark of a document is read as what it is, and with its length.
pub fn kinds_are_read()
    ensures { KindsAreRead }
{
    px_xmp_marks::laws::marks_are_read();
    px_xmp_marks::laws::start_tags_are_read();
    px_xmp_marks::laws::end_tags_are_read();
    px_xmp_marks::laws::sections_are_read();
    px_xmp_marks::laws::comments_are_read();
    px_xmp_marks::laws::instructions_are_read();
}

/// The namespaces in scope in an element are those that `px_xmp_document` finds for its tag, if it finds no fault.
pub fn scopes_are_judged()
    ensures { ScopesAreJudged }
{}

/// Octets are a packet in at most one way: what precedes the document, the document, and what follows it are determined.
pub fn one_packet()
    ensures { OnePacket }
{}

/// Octets at an offset are at most one row of nodes.
pub fn one_reading()
    ensures { OneReading }
{
    kinds_are_read();
}

/// Each document is a row of nodes.
pub fn files_have_nodes()
    ensures { FilesHaveNodes }
{
    px_xmp_text::laws::fault_or_text();
}

/// The nodes of a document have at most one meaning that a normal form can have.
pub fn nodes_mean_once()
    ensures { NodesMeanOnce }
{
    px_xmp_text::laws::packet_is_injective();
}

/// A document has at most one meaning that a normal form can have.
pub fn one_meaning()
    ensures { OneMeaning }
{
    px_xmp_marks::laws::declarations_are_read();
    one_reading();
    nodes_mean_once();
}

/// Two documents mean the same exactly if their normal forms are the same.
pub fn forms_decide()
    ensures { FormsDecide }
{
    px_xmp_text::laws::packet_is_injective();
    one_meaning();
}

/// The normal packet of content that can be read means this content.
pub fn normal_says()
    ensures { NormalSays }
{
    px_xmp_text::laws::normal_reads_back();
    px_xmp_text::laws::normal_bound();
    px_xmp_text::laws::fault_or_text();
}

/// The normal packet of content that can be read is a document.
pub fn normal_is_file()
    ensures { NormalIsFile }
{
    px_xmp_text::laws::normal_reads_back();
    px_xmp_text::laws::normal_bound();
    px_xmp_text::laws::fault_or_text();
    px_xmp_marks::laws::start_tags_are_read();
}

/// What a document means can be written and read again, if it is not too deep.
pub fn meanings_are_readable()
    ensures { MeaningsAreReadable }
{
    px_xmp_text::laws::only_references_are_read();
    px_xmp_marks::laws::declarations_are_read();
    kinds_are_read();
}

/// The normal packet of what a document means is a document with this meaning, if it is not too deep.
pub fn normal_keeps_meaning()
    ensures { NormalKeepsMeaning }
{
    meanings_are_readable();
    normal_is_file();
    normal_says();
}

/// The normal packet of content that can be read is a document, and its own form.
pub fn form_is_its_own()
    ensures { FormIsItsOwn }
{
    normal_is_file();
    normal_says();
}

/// A normal form within the limits of this reader is a packet that it accepts, if memory suffices.
pub fn forms_fit()
    ensures { FormsFit }
{
    px_xmp_text::laws::normal_reads_back();
    px_xmp_text::laws::normal_bound();
    px_xmp_text::laws::fault_or_text();
    normal_is_file();
}

/// A packet that is refused before RDF is judged is so at one place, by one cause.
pub fn one_refusal()
    ensures { OneRefusal }
{
    px_xmp_marks::laws::declarations_are_read();
    px_xmp_document::laws::one_fault();
}

/// A packet that RDF judges is refused by nothing before.
pub fn rdf_is_last()
    ensures { RdfIsLast }
{
    px_xmp_marks::laws::marks_are_read();
    px_xmp_marks::laws::start_tags_are_read();
    px_xmp_marks::laws::declarations_are_read();
    px_xmp_document::laws::one_fault();
}
