// Reads the root of a document, and rdf:RDF. XMP part 1, 7.
// `Err` of a call is why it reads no further: `Content`, what is wrong or rare and its byte offset
// in the packet; or `OutOfMemory`, a failed allocation.
ghost use Rattle.std.specs.Prelude.{◌≡◌, ◌≤◌, ◌<◌, ◌++◌, ◌∷◌, ℕ, List, [], Option, None, false, codes, length, OnOk};
ghost use Rattle.px_xmp_text.specs.Values.{Content, End};
ghost use Rattle.px_xmp_marks.specs.Reading.{Attr, next_view};
ghost use Rattle.px_xmp_forms.specs.Allocations.{CountsAllocFailureInPacket};
ghost use Rattle.px_xmp_forms.specs.Causes.{IsRare, IfWrong, FailsByMemory};
ghost use Rattle.px_xmp.specs.Refusals.{IsNamedRdf};
ghost use Rattle.px_xmp_forms.specs.Entries.{Entry};
ghost use Rattle.px_xmp_forms.specs.Outputs.{State, Has};
ghost use Rattle.px_xmp.specs.Tags.{Tag, field_of, fields_in};
ghost use Rattle.px_xmp.specs.Names.{is_rdf};
ghost use Rattle.px_xmp.specs.Nodes.{Nodes, AreNodes};
ghost use Rattle.px_xmp.specs.Meaning.{AreAttributes, without_about, AreSubjects, IsAlone, IsRootOf, HasRoot, IsRdf, Means};
ghost use Rattle.px_xmp.specs.calls.Listed.{AreListed};
ghost use Rattle.px_xmp.specs.calls.Opening.{IsOpened};
ghost use Rattle.px_xmp.specs.calls.Steps.{IsLeft, HasInside};
ghost use Rattle.px_xmp.specs.calls.Refused.{IsOfReader};
ghost use Rattle.px_xmp.specs.calls.Roots.{IsNew, NamesOne, AttributeRead, AttributesRead, SubjectRead, SubjectsRead};
ghost use Rattle.px_xmp.specs.calls.Roots.{RdfRead, AroundRead, RootRead, DocumentRead};
ghost use Rattle.px_xmp.specs.calls.Fits.{FieldFits, FieldsFit, TagFits, NodesFit, SubjectFits, IsAhead, IsSubjectNode};
ghost use Rattle.px_xmp.specs.calls.Fits.{ContentFits, AreFit};

use crate::attributes::next_plain;
use crate::elements::{Around, Node, Opened, SUBJECT_DEPTH};
use crate::opening::put_property;
use crate::reader::Reader;
use crate::subject::Subject;
use px_bytes::Memory;
use px_xmp_forms::{Cause, Refusal};
use px_xmp_marks::NextAttribute;

impl<'a> Reader<'a> {
    // Reads an attribute of rdf:Description in rdf:RDF: a property, or the name of the subject.
    fn read_subject_attribute(
        &mut self,
        memory: &mut Memory,
        subject: &mut Subject<'a>,
        next: NextAttribute<'a>,
        around: Around<'a>,
    ) -> Result<(), Refusal>
        ensures source { self.new.source ≡ self.old.source }
        ensures value { (s : State) → Has self.old.output s → OnOk result
            (AttributeRead (field_of self.old.source.scope (next_view next.entry).attribute)
            around.entry.language.now around.entry.depth around.entry.place s
            subject.old subject.new self.new.output) }
        ensures memory { CountsAllocFailureInPacket result memory.old memory.new }
        ensures rare { IsRare result }
        ensures accepts { (es : List Entry) → AreAttributes around.entry.language.now around.entry.place
            (without_about (field_of self.old.source.scope (next_view next.entry).attribute ∷ [])) es → AreFit around.entry.depth es
            → FieldFits (field_of self.old.source.scope (next_view next.entry).attribute) → SubjectFits subject.old → FailsByMemory result }
        ensures fits { FieldFits (field_of self.old.source.scope (next_view next.entry).attribute) → SubjectFits subject.old
            → OnOk result (SubjectFits subject.new) }
    {
        let name = self.source.scope.attribute(next.attribute.name);
        if name.is_about() {
            return subject.put(memory, next.attribute.value, around.place);
        }
        put_property(memory, &mut self.output, name, next.attribute.value, around)
    }

    // Reads the attributes of rdf:Description in rdf:RDF.
    fn read_subject_attributes(
        &mut self,
        memory: &mut Memory,
        subject: &mut Subject<'a>,
        attributes: &'a [u8],
        around: Around<'a>,
    ) -> Result<(), Refusal>
        ensures source { self.new.source ≡ self.old.source }
        ensures value { (s : State) (all : List Attr) → Has self.old.output s → AreListed attributes.now all → OnOk result
            (AttributesRead (fields_in self.old.source.scope all) around.entry.language.now around.entry.depth around.entry.place s
            subject.old subject.new self.new.output) }
        ensures memory { CountsAllocFailureInPacket result memory.old memory.new }
        ensures rare { IsRare result }
        ensures accepts { (all : List Attr) (es : List Entry) → AreListed attributes.now all
            → AreAttributes around.entry.language.now around.entry.place (without_about (fields_in self.old.source.scope all)) es
            → AreFit around.entry.depth es → FieldsFit (fields_in self.old.source.scope all) → SubjectFits subject.old
            → FailsByMemory result }
        ensures fits { (all : List Attr) → AreListed attributes.now all → FieldsFit (fields_in self.old.source.scope all)
            → SubjectFits subject.old → OnOk result (SubjectFits subject.new) }
    {
        let mut found = next_plain(attributes);
        while let Some(next) = found {
            self.read_subject_attribute(memory, subject, next, around)?;
            found = next_plain(next.rest);
        }
        Ok(())
    }

    // Reads rdf:Description in rdf:RDF, which is entered. Its properties belong to rdf:RDF.
    fn read_subject(
        &mut self,
        memory: &mut Memory,
        subject: &mut Subject<'a>,
        opened: Opened<'a>,
        outer: Around<'a>,
    ) -> Result<(), Refusal>
        ensures shorter { OnOk result (length self.new.source.rest.now ≤ length self.old.source.rest.now) }
        ensures read { (s : State) (t : Tag) → Has self.old.output s → IsLeft self.old.source.at self.old.source.rest.now
            → IsOpened self.old.source.scope opened.entry t → OnOk result
            (SubjectRead opened.entry t outer.entry.language.now outer.entry.depth self.old.source self.new.source subject.old subject.new s
            self.new.output) }
        ensures memory { CountsAllocFailureInPacket result memory.old memory.new }
        ensures rare { IsRare result }
        ensures accepts { (s : State) (t : Tag) (nodes : Nodes) (fs es : List Entry) (y : List ℕ) → Has self.old.output s
            → IsOpened self.old.source.scope opened.entry t → IsAhead opened.entry.is_empty nodes self.old.source y → TagFits t
            → IsSubjectNode outer.entry.language.now opened.entry.place t nodes fs es → AreFit outer.entry.depth (fs ++ es)
            → SubjectFits subject.old → FailsByMemory result }
        ensures fits { (t : Tag) → IsOpened self.old.source.scope opened.entry t → TagFits t → SubjectFits subject.old
            → OnOk result (SubjectFits subject.new) }
    {
        if !opened.name.is_rdf(b"Description") {
            return Err(Cause::RareElement.at(opened.place));
        }
        let Some(around) = outer.inside(opened) else {
            return Err(Cause::RareLanguage.at(opened.place));
        };
        self.read_subject_attributes(memory, subject, opened.attributes, around)?;
        self.read_items(memory, opened.is_empty, Node::Description, around)?;
        self.source.scope.close();
        Ok(())
    }

    // Reads the content of rdf:RDF, and its end tag if it is not empty.
    fn read_subjects(
        &mut self,
        memory: &mut Memory,
        subject: &mut Subject<'a>,
        opened: Opened<'a>,
        around: Around<'a>,
    ) -> Result<(), Refusal>
        ensures read { (s : State) → Has self.old.output s → IsLeft self.old.source.at self.old.source.rest.now → OnOk result
            (SubjectsRead opened.entry.is_empty around.entry.language.now around.entry.depth
            self.old.source self.new.source subject.old subject.new s
            self.new.output) }
        ensures memory { CountsAllocFailureInPacket result memory.old memory.new }
        ensures rare { IsRare result }
        ensures accepts { (s : State) (nodes : Nodes) (u : Option (List ℕ)) (es : List Entry) (y : List ℕ) → Has self.old.output s
            → IsAhead opened.entry.is_empty nodes self.old.source y → AreSubjects u around.entry.language.now nodes es
            → AreFit around.entry.depth es → SubjectFits subject.old → FailsByMemory result }
    {
        crate::laws::kinds_are_read();
        if opened.is_empty {
            return Ok(());
        }
        'subjects: loop {
            let Some(inner) = self.source.next_tag(memory, Cause::RareText)? else {
                return Ok(());
            };
            self.read_subject(memory, subject, inner, around)?;
        }
    }

    // Reads rdf:RDF, which is entered.
    fn read_rdf(
        &mut self,
        memory: &mut Memory,
        subject: &mut Subject<'a>,
        opened: Opened<'a>,
    ) -> Result<(), Refusal>
        ensures read { (t : Tag) → Has self.old.output (record { opened = []; properties = End })
            → IsLeft self.old.source.at self.old.source.rest.now → IsNew subject.old → IsOpened self.old.source.scope opened.entry t
            → OnOk result (RdfRead opened.entry t self.old.source self.new.source subject.new self.new.output) }
        ensures memory { CountsAllocFailureInPacket result memory.old memory.new }
        ensures rdf { IsOfReader result }
        ensures refused { (t : Tag) → IsOpened self.old.source.scope opened.entry t
            → IfWrong result (is_rdf (codes "RDF") t.name ≡ false) }
        ensures accepts { (t : Tag) (nodes : Nodes) (c : Content) (y : List ℕ)
            → Has self.old.output (record { opened = []; properties = End }) → IsNew subject.old
            → IsOpened self.old.source.scope opened.entry t → IsAhead opened.entry.is_empty nodes self.old.source y
            → TagFits t → IsRdf c t nodes → ContentFits 3 c → FailsByMemory result }
    {
        crate::laws::kinds_are_read();
        px_xmp_text::laws::packet_is_injective();
        if !opened.name.is_rdf(b"RDF") {
            return Err(Cause::NoRdf.at(opened.place));
        }
        if next_plain(opened.attributes).is_some() {
            return Err(Cause::RareAttribute.at(opened.place));
        }
        let outside = Around {
            language: b"",
            place: opened.place,
            depth: SUBJECT_DEPTH,
        };
        let Some(around) = outside.inside(opened) else {
            return Err(Cause::RareLanguage.at(opened.place));
        };
        self.output.begin(memory)?;
        self.read_subjects(memory, subject, opened, around)?;
        self.source.scope.close();
        self.output.join_properties(memory)?;
        self.output.end_properties();
        Ok(())
    }

    // Reads the content of the root around rdf:RDF.
    fn read_around(
        &mut self,
        memory: &mut Memory,
        subject: &mut Subject<'a>,
        place: usize,
    ) -> Result<(), Refusal>
        ensures read { Has self.old.output (record { opened = []; properties = End })
            → IsLeft self.old.source.at self.old.source.rest.now → IsNew subject.old → OnOk result
            (AroundRead self.old.source self.new.source subject.new self.new.output) }
        ensures memory { CountsAllocFailureInPacket result memory.old memory.new }
        ensures rdf { IsOfReader result }
        ensures refused { (nodes : Nodes) (y : List ℕ) → Has self.old.output (record { opened = []; properties = End })
            → IsLeft self.old.source.at self.old.source.rest.now → IsNew subject.old
            → HasInside false nodes self.old.source.scope self.old.source.at self.old.source.rest.now y
            → IfWrong result (IsAlone IsNamedRdf nodes → ⊥) }
        ensures accepts { (nodes : Nodes) (c : Content) (y : List ℕ) → Has self.old.output (record { opened = []; properties = End })
            → IsNew subject.old → IsAhead false nodes self.old.source y → IsAlone (IsRdf c) nodes → ContentFits 3 c
            → FailsByMemory result }
    {
        crate::laws::kinds_are_read();
        let Some(inner) = self.source.next_tag(memory, Cause::NoRdf)? else {
            return Err(Cause::NoRdf.at(place));
        };
        self.read_rdf(memory, subject, inner)?;
        match self.source.next_tag(memory, Cause::NoRdf)? {
            Some(second) => Err(Cause::NoRdf.at(second.place)),
            None => Ok(()),
        }
    }

    // Reads the root, which is entered.
    fn read_root(
        &mut self,
        memory: &mut Memory,
        subject: &mut Subject<'a>,
        opened: Opened<'a>,
    ) -> Result<(), Refusal>
        ensures read { (t : Tag) → Has self.old.output (record { opened = []; properties = End })
            → IsLeft self.old.source.at self.old.source.rest.now → IsNew subject.old → IsOpened self.old.source.scope opened.entry t
            → OnOk result (RootRead opened.entry t self.old.source self.new.source subject.new self.new.output) }
        ensures memory { CountsAllocFailureInPacket result memory.old memory.new }
        ensures rdf { IsOfReader result }
        ensures refused { (t : Tag) (nodes : Nodes) (y : List ℕ)
            → Has self.old.output (record { opened = []; properties = End })
            → IsLeft self.old.source.at self.old.source.rest.now → IsNew subject.old → IsOpened self.old.source.scope opened.entry t
            → HasInside opened.entry.is_empty nodes self.old.source.scope self.old.source.at self.old.source.rest.now y
            → IfWrong result (IsRootOf IsNamedRdf t nodes → ⊥) }
        ensures accepts { (t : Tag) (nodes : Nodes) (c : Content) (y : List ℕ)
            → Has self.old.output (record { opened = []; properties = End }) → IsNew subject.old
            → IsOpened self.old.source.scope opened.entry t → IsAhead opened.entry.is_empty nodes self.old.source y
            → TagFits t → IsRootOf (IsRdf c) t nodes → ContentFits 3 c → FailsByMemory result }
    {
        if !opened.name.is_root() {
            return self.read_rdf(memory, subject, opened);
        }
        if opened.is_empty {
            return Err(Cause::NoRdf.at(opened.place));
        }
        self.read_around(memory, subject, opened.place)?;
        self.source.scope.close();
        Ok(())
    }

    // Reads a document without a declaration.
    pub(crate) fn read_document(
        &mut self,
        memory: &mut Memory,
        subject: &mut Subject<'a>,
    ) -> Result<(), Refusal>
        ensures read { Has self.old.output (record { opened = []; properties = End })
            → IsLeft self.old.source.at self.old.source.rest.now → IsNew subject.old
            → OnOk result (subject.new.other ≡ None → DocumentRead self.old.source self.new.output) }
        ensures memory { CountsAllocFailureInPacket result memory.old memory.new }
        ensures rdf { IsOfReader result }
        ensures refused { (nodes : Nodes) → Has self.old.output (record { opened = []; properties = End })
            → IsLeft self.old.source.at self.old.source.rest.now → IsNew subject.old
            → AreNodes nodes self.old.source.scope self.old.source.at self.old.source.rest.now []
            → IfWrong result (HasRoot IsNamedRdf nodes → ⊥) }
        ensures subject { (nodes : Nodes) → Has self.old.output (record { opened = []; properties = End })
            → IsLeft self.old.source.at self.old.source.rest.now → IsNew subject.old
            → AreNodes nodes self.old.source.scope self.old.source.at self.old.source.rest.now []
            → OnOk result (HasRoot (NamesOne subject.new) nodes) }
        ensures accepts { (nodes : Nodes) (c : Content) → Has self.old.output (record { opened = []; properties = End })
            → IsLeft self.old.source.at self.old.source.rest.now → IsNew subject.old
            → AreNodes nodes self.old.source.scope self.old.source.at self.old.source.rest.now []
            → NodesFit nodes → Means nodes c → ContentFits 3 c → FailsByMemory result }
    {
        crate::laws::kinds_are_read();
        let place = self.source.at;
        let Some(opened) = self.source.next_tag(memory, Cause::NoRdf)? else {
            return Err(Cause::NoRdf.at(place));
        };
        self.read_root(memory, subject, opened)?;
        self.source.read_after(memory)
    }
}
