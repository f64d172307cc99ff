// Reads properties and items with their values. Each function reads what one production of RDF/XML, 7.2, has.
// `Err` of a call is why it reads no further: `Content`, what is wrong or rare and its byte offset
// in the packet; or `OutOfMemory`, a failed allocation.
ghost use Rattle.std.specs.Prelude.{◌≡◌, ◌≤◌, ℕ, suc, List, [], length, option_map, OnOk, IfOk};
ghost use Rattle.px_xmp_text.specs.Values as values;
ghost use Rattle.px_xmp_forms.specs.Labels.{label_view};
ghost use Rattle.px_xmp_forms.specs.Allocations.{CountsAllocFailureInPacket};
ghost use Rattle.px_xmp_forms.specs.Causes.{IsRare, FailsByMemory};
ghost use Rattle.px_xmp_forms.specs.Entries.{Value, Entry};
ghost use Rattle.px_xmp_forms.specs.Outputs.{State, Has, begun, nothing, first_entries};
ghost use Rattle.px_xmp.specs.Tags.{Tag, DeclaresLanguage, inherited};
ghost use Rattle.px_xmp.specs.Nodes.{Nodes, Nothing, Element};
ghost use Rattle.px_xmp.specs.Meaning.{label_in, HasAttributes, AreEntries, IsNode};
ghost use Rattle.px_xmp.specs.calls.Steps.{IsLeft};
ghost use Rattle.px_xmp.specs.calls.Opening.{name_of, node_view, IsOpened};
ghost use Rattle.px_xmp.specs.calls.Contents.{is_bag, NodeBegun, JoinsNode, NodeEnded, ItemsRead, ValueRead, ContentRead, NodeRead};
ghost use Rattle.px_xmp.specs.calls.Contents.{HasValue};
ghost use Rattle.px_xmp.specs.calls.Fits.{IsAhead, IsValueOf, TagFits};
ghost use Rattle.px_xmp.specs.calls.Fits.{InsideFits, EntryFits, AreFit, JoinFits, NodeFits};

use crate::attributes::next_plain;
use crate::elements::{Around, Filling, Node, Opened};
use crate::opening::{put_properties, read_filling};
use crate::reader::Reader;
use px_bytes::Memory;
use px_xmp_forms::{Cause, Container, Content, Label, Output, Refusal};

// The label of an element in a node: a property, or an item of an array. None: the node can't have
// it.
#[inline(never)]
fn item_label<'a>(node: Node, opened: Opened<'a>) -> Option<Label<'a>>
    ensures { option_map label_view result ≡ label_in (node_view node) (name_of opened.entry.name) }
{
    match node {
        Node::Description => opened.name.property(),
        Node::Container(_) => {
            if opened.name.is_rdf(b"li") {
                return Some(Label::Member);
            }
            None
        }
    }
}

// Whether the items of a container are in no order.
fn is_bag(container: Container) -> bool
    ensures { result ≡ is_bag container }
{
    match container {
        Container::Bag => true,
        Container::Seq => false,
        Container::Alt => false,
    }
}

// Joins the properties or the items of a node.
#[inline(never)]
fn join_node(memory: &mut Memory, output: &mut Output, node: Node) -> Result<(), Refusal>
    ensures value { (s : State) → Has output.old s → OnOk result ((after : State) × Has output.new after × JoinsNode node s after) }
    ensures memory { CountsAllocFailureInPacket result memory.old memory.new }
    ensures rare { IsRare result }
    ensures accepts { (s : State) → Has output.old s → JoinFits node (first_entries s.opened) → FailsByMemory result }
{
    match node {
        Node::Description => output.join_properties(memory),
        Node::Container(container) => output.join_members(memory, is_bag(container)),
    }
}

// Ends a node, whose properties or items are inside the element around it.
#[inline(never)]
fn end_node(memory: &mut Memory, output: &mut Output, node: Node) -> Result<(), Refusal>
    ensures value { (s : State) → Has output.old s → OnOk result (NodeEnded node s output.new) }
    ensures memory { CountsAllocFailureInPacket result memory.old memory.new }
    ensures rare { IsRare result }
    ensures accepts { (s : State) → Has output.old s → JoinFits node (first_entries s.opened) → FailsByMemory result }
{
    join_node(memory, output, node)?;
    output.end_node(memory)
}

impl<'a> Reader<'a> {
    // Begins a node in a property or an item. A container has no attributes.
    #[inline(never)]
    fn begin_node(
        &mut self,
        memory: &mut Memory,
        opened: Opened<'a>,
        node: Node,
        outer: Around<'a>,
    ) -> Result<Around<'a>, Refusal>
        ensures source { self.new.source ≡ self.old.source }
        ensures value { (s : State) (t : Tag) → Has self.old.output s → IsOpened self.old.source.scope opened.entry t
            → IfOk result (λ a. NodeBegun node t outer.entry.language.now outer.entry.depth opened.entry.place a s self.new.output) }
        ensures memory { CountsAllocFailureInPacket result memory.old memory.new }
        ensures rare { IsRare result }
        ensures accepts { (t : Tag) (es : List Entry) → IsOpened self.old.source.scope opened.entry t → DeclaresLanguage t.language
            → TagFits t → HasAttributes (node_view node) (inherited outer.entry.language.now t.language) opened.entry.place t.fields es
            → AreFit outer.entry.depth es → NodeFits node outer.entry.depth → FailsByMemory result }
    {
        let Some(around) = outer.inside(opened) else {
            return Err(Cause::RareLanguage.at(opened.place));
        };
        match node {
            Node::Description => {
                self.output.begin(memory)?;
                put_properties(
                    memory,
                    &mut self.output,
                    &self.source.scope,
                    opened.attributes,
                    around,
                )?;
                Ok(around)
            }
            Node::Container(_) => {
                if next_plain(opened.attributes).is_some() {
                    return Err(Cause::RareAttribute.at(opened.place));
                }
                let Some(around) = around.deeper() else {
                    return Err(Cause::RareDepth.at(opened.place));
                };
                self.output.begin(memory)?;
                Ok(around)
            }
        }
    }

    // Reads the properties or the items in an element, and its end tag if it is not empty.
    #[cycle(content)]
    pub(crate) fn read_items(
        &mut self,
        memory: &mut Memory,
        is_empty: bool,
        node: Node,
        around: Around<'a>,
    ) -> Result<(), Refusal>
        ensures shorter { OnOk result (length self.new.source.rest.now ≤ length self.old.source.rest.now) }
        ensures read { (s : State) → Has self.old.output s → IsLeft self.old.source.at self.old.source.rest.now → OnOk result
            (ItemsRead is_empty (node_view node) around.entry.language.now around.entry.depth
            self.old.source self.new.source s self.new.output) }
        ensures memory { CountsAllocFailureInPacket result memory.old memory.new }
        ensures rare { IsRare result }
        ensures accepts { (s : State) (nodes : Nodes) (es : List Entry) (y : List ℕ) → Has self.old.output s
            → IsAhead is_empty nodes self.old.source y
            → AreEntries (node_view node) around.entry.language.now nodes es → AreFit around.entry.depth es → FailsByMemory result }
    {
        crate::laws::kinds_are_read();
        if is_empty {
            return Ok(());
        }
        'items: loop {
            let Some(inner) = self.source.next_tag(memory, Cause::RareText)? else {
                return Ok(());
            };
            let Some(label) = item_label(node, inner) else {
                return Err(Cause::RareElement.at(inner.place));
            };
            self.read_value(memory, inner, label, around)?;
        }
    }

    // Reads a property or an item that is entered.
    #[cycle(content)]
    fn read_value(
        &mut self,
        memory: &mut Memory,
        opened: Opened<'a>,
        label: Label<'a>,
        outer: Around<'a>,
    ) -> Result<(), Refusal>
        ensures shorter { OnOk result (length self.new.source.rest.now ≤ length self.old.source.rest.now) }
        ensures read { (s : State) (t : Tag) → Has self.old.output s → IsLeft self.old.source.at self.old.source.rest.now
            → IsOpened self.old.source.scope opened.entry t → OnOk result
            (ValueRead opened.entry t (label_view label.entry) outer.entry.language.now outer.entry.depth
            self.old.source self.new.source s self.new.output) }
        ensures memory { CountsAllocFailureInPacket result memory.old memory.new }
        ensures rare { IsRare result }
        ensures accepts { (s : State) (t : Tag) (nodes : Nodes) (v : Value) (y : List ℕ) → Has self.old.output s
            → IsOpened self.old.source.scope opened.entry t → IsAhead opened.entry.is_empty nodes self.old.source y
            → TagFits t → IsValueOf outer.entry.language.now opened.entry.place t nodes v
            → EntryFits outer.entry.depth (label_view label.entry) v → FailsByMemory result }
    {
        crate::laws::kinds_are_read();
        px_xmp_text::laws::packet_is_injective();
        let Some(around) = outer.inside(opened) else {
            return Err(Cause::RareLanguage.at(opened.place));
        };
        let Some(around) = around.deeper() else {
            return Err(Cause::RareDepth.at(opened.place));
        };
        self.output.begin(memory)?;
        let content = self.read_content(memory, opened, around)?;
        self.source.scope.close();
        self.output
            .end_element(memory, label, content, around.place)
    }

    // Reads the attributes and the content of a property or an item.
    #[cycle(content)]
    fn read_content(
        &mut self,
        memory: &mut Memory,
        opened: Opened<'a>,
        around: Around<'a>,
    ) -> Result<Content<'a>, Refusal>
        ensures shorter { OnOk result (length self.new.source.rest.now ≤ length self.old.source.rest.now) }
        ensures read { (s : State) (t : Tag) → Has self.old.output (begun nothing s) → IsLeft self.old.source.at self.old.source.rest.now
            → IsOpened self.old.source.scope opened.entry t → IfOk result (λ content.
            ContentRead content opened.entry.is_empty t.fields around.entry self.old.source self.new.source s self.new.output) }
        ensures memory { CountsAllocFailureInPacket result memory.old memory.new }
        ensures rare { IsRare result }
        ensures accepts { (s : State) (t : Tag) (nodes : Nodes) (depth : ℕ) (l : values.Label) (v : Value) (y : List ℕ)
            → Has self.old.output (begun nothing s) → IsOpened self.old.source.scope opened.entry t
            → IsAhead opened.entry.is_empty nodes self.old.source y → TagFits t
            → HasValue around.entry.language.now around.entry.place t.fields nodes v
            → around.entry.depth ≡ suc depth → EntryFits depth l v → FailsByMemory result }
    {
        crate::laws::kinds_are_read();
        px_xmp_text::laws::packet_is_injective();
        let filling = read_filling(
            memory,
            &mut self.output,
            &self.source.scope,
            opened.attributes,
            around,
        )?;
        match filling {
            Filling::Any => self.read_text_or_node(memory, opened.is_empty, around),
            Filling::Properties => {
                self.read_items(memory, opened.is_empty, Node::Description, around)?;
                self.output.join_properties(memory)?;
                Ok(Content::Structure)
            }
            Filling::Resource => {
                self.source.read_nothing(memory, opened.is_empty)?;
                Ok(Content::Resource)
            }
            Filling::Attributes => {
                self.source.read_nothing(memory, opened.is_empty)?;
                self.output.join_properties(memory)?;
                Ok(Content::Structure)
            }
        }
    }

    // Reads the content of a property or an item that is a text, or a node with white space around it.
    #[cycle(content)]
    #[inline(never)]
    fn read_text_or_node(
        &mut self,
        memory: &mut Memory,
        is_empty: bool,
        around: Around<'a>,
    ) -> Result<Content<'a>, Refusal>
        ensures shorter { OnOk result (length self.new.source.rest.now ≤ length self.old.source.rest.now) }
        ensures read { (s : State) → Has self.old.output (begun nothing s) → IsLeft self.old.source.at self.old.source.rest.now
            → IfOk result (λ content.
            ContentRead content is_empty [] around.entry self.old.source self.new.source s self.new.output) }
        ensures memory { CountsAllocFailureInPacket result memory.old memory.new }
        ensures rare { IsRare result }
        ensures accepts { (s : State) (nodes : Nodes) (depth : ℕ) (l : values.Label) (v : Value) (y : List ℕ)
            → Has self.old.output (begun nothing s) → IsAhead is_empty nodes self.old.source y
            → HasValue around.entry.language.now around.entry.place [] nodes v
            → around.entry.depth ≡ suc depth → EntryFits depth l v → FailsByMemory result }
    {
        crate::laws::kinds_are_read();
        if is_empty {
            return Ok(Content::Text(around.language));
        }
        let Some(inner) = self.read_text(memory, around)? else {
            return Ok(Content::Text(around.language));
        };
        self.output.remove_text(memory)?;
        let node = self.read_node(memory, inner, around)?;
        self.source.read_end(memory)?;
        Ok(node.content())
    }

    // Reads a node that is entered.
    #[cycle(content)]
    fn read_node(
        &mut self,
        memory: &mut Memory,
        opened: Opened<'a>,
        outer: Around<'a>,
    ) -> Result<Node, Refusal>
        ensures shorter { OnOk result (length self.new.source.rest.now ≤ length self.old.source.rest.now) }
        ensures read { (s : State) (t : Tag) → Has self.old.output (begun nothing s) → IsLeft self.old.source.at self.old.source.rest.now
            → IsOpened self.old.source.scope opened.entry t → IfOk result (λ node.
            NodeRead node opened.entry t outer.entry.language.now outer.entry.depth self.old.source self.new.source s self.new.output) }
        ensures memory { CountsAllocFailureInPacket result memory.old memory.new }
        ensures rare { IsRare result }
        ensures accepts { (s : State) (t : Tag) (nodes : Nodes) (k : values.Compound) (c : values.Content) (y : List ℕ)
            → Has self.old.output (begun nothing s) → IsOpened self.old.source.scope opened.entry t
            → IsAhead opened.entry.is_empty nodes self.old.source y → TagFits t
            → IsNode outer.entry.language.now (Element t opened.entry.place nodes Nothing) k c
            → InsideFits outer.entry.depth k c → FailsByMemory result }
    {
        crate::laws::kinds_are_read();
        px_xmp_text::laws::packet_is_injective();
        let Some(node) = opened.name.node() else {
            return Err(Cause::RareElement.at(opened.place));
        };
        let around = self.begin_node(memory, opened, node, outer)?;
        self.read_items(memory, opened.is_empty, node, around)?;
        self.source.scope.close();
        end_node(memory, &mut self.output, node)?;
        Ok(node)
    }
}
