// The output: of each element that is open what was read of it.
// `Err` of a call is why it writes nothing more: `Content`, what can't be written, as a form
// that is too long; or `OutOfMemory`, a failed allocation.
ghost use Rattle.std.specs.Prelude.{◌≡◌, ◌≤◌, ◌+◌, ◌∷◌, [], ℕ, List, Some, length, drop, IfOk, OnOk, MatchOption};
ghost use Rattle.px_bytes.specs.Parts.{limit};
ghost use Rattle.px_bytes.specs.Allocations.{AsksAtMost};
ghost use Rattle.px_xmp_text.specs.Texts.{text_of, normal_text};
ghost use Rattle.px_xmp_text.specs.Values.{End, IsContent, written, normal_packet};
ghost use Rattle.px_xmp_text.specs.declared.pieces.TextKind.TheVariants.{AttributeValue};
ghost use Rattle.px_xmp_forms.specs.Forms.{most, HaveShortLanguages, TextFits, IsNormal};
ghost use Rattle.px_xmp_forms.specs.declared.items.BagOrder.TheVariants.{Sorted};
ghost use Rattle.px_xmp_forms.specs.Entries.{Entry, ValueFits, AreDistinct, row};
ghost use Rattle.px_xmp_forms.specs.Outputs.{State, Open, Has, IsItem, AreItems, IsLevel};
ghost use Rattle.px_xmp_forms.specs.Outputs.{nothing, begun, changed, with_text, with_inner, with_entry};
ghost use Rattle.px_xmp_forms.specs.Labels.{label_view};
ghost use Rattle.px_xmp_forms.specs.Outputs.{attribute_entry, element_ended, node_ended, properties_ended};
ghost use Rattle.px_xmp_forms.specs.Outputs.{PutsText, JoinsMembers, JoinsProperties, first_entries, value_of};
ghost use Rattle.px_xmp_text.specs.Values as values;
ghost use Rattle.px_xmp_forms.specs.Allocations.{CountsAllocFailureInPacket};
ghost use Rattle.px_xmp_forms.specs.Causes.{IsRare, FailsByMemory};

use crate::appending::{LIMIT, append, append_text, is_blank, reserve};
use crate::elements::{text_element, write_element};
use crate::faults::{Cause, Refusal};
use crate::items::{BagOrder, Item, bag_items, first_repeated, join_items, sort_items};
use crate::labels::{Content, Label, Origin};
use crate::pieces::{Piece, TextForm};
use px_bytes::Memory;
use px_xmp_text::TextKind;

// The elements of a normal form around its node. XMP part 1, 7.3.3 and RDF/XML, 7.2.9.
const HEAD: &[u8] =
    b"<x:xmpmeta xmlns:x=\"adobe:ns:meta/\"><rdf:RDF xmlns:rdf=\"http://www.w3.org/1999/02/22-rdf-syntax-ns#\">";

// The start tag of the only node, whose subject is not named: `rdf:about` is empty. XMP part 1,
// 7.4.
const DESCRIPTION: &[u8] = b"<rdf:Description rdf:about=\"\">";

// The end tags of the node and of the two elements around it.
const TAIL: &[u8] = b"</rdf:Description></rdf:RDF></x:xmpmeta>";

// The most octets of space that is kept for the next text.
const SPARE: usize = 4096;

// The octets from an offset on.
fn tail(octets: &[u8], start: usize) -> &[u8]
    ensures { result.now ≡ drop start octets.now }
{
    octets.split_at(start.min(octets.len())).1
}

// What was read of an element: its text or resource, what is inside it, and properties or members that are not joined yet.
#[derive(Drop)]
struct Level {
    text: TextForm,
    inner: Piece,
    items: Vec<Item>,
}

// The property that an attribute is. `spare` is a vector that the call overwrites with the text, so
// that the next call needs no allocation.
fn attribute_item(
    memory: &mut Memory,
    spare: &mut Vec<u8>,
    label: Label,
    value: &[u8],
    origin: Origin,
) -> Result<Item, Refusal>
    ensures value { IfOk result (λ x. (t : List ℕ) × (text_of AttributeValue value.now ≡ Some t)
        × IsItem x (attribute_entry label.entry origin.entry t)) }
    ensures memory { CountsAllocFailureInPacket result memory.old memory.new }
    ensures rare { IsRare result }
    ensures accepts { (t : List ℕ) → text_of AttributeValue value.now ≡ Some t → length value.now ≤ limit
        → ValueFits (label_view label.entry) (attribute_entry label.entry origin.entry t).value → FailsByMemory result }
{
    spare.clear();
    append_text(memory, spare, value, TextKind::AttributeValue)?;
    let element = text_element(memory, label, origin.language, spare.as_slice())?;
    if spare.capacity() > SPARE {
        *spare = memory.list();
    }
    Ok(Item {
        element,
        place: origin.place,
    })
}

/// The output.
#[derive(Drop)]
pub struct Output {
    levels: Vec<Level>,
    properties: Piece,
    order: BagOrder,
    // Space for the text of an attribute.
    spare: Vec<u8>,
}

impl Output {
    /// An output without a property, in which no element is open.
    pub fn new(memory: &Memory, order: BagOrder) -> Output
        ensures { order ≡ Sorted → Has result (record { opened = []; properties = End }) }
    {
        Output {
            levels: memory.list(),
            properties: Piece::new(memory),
            order,
            spare: memory.list(),
        }
    }

    // Takes the innermost element away, which is no longer open, and returns it. None: no element
    // is open.
    fn pop(&mut self) -> Option<Level>
        ensures { (s : State) → Has self.old s → MatchOption result (Has self.new s × (s.opened ≡ []))
            (λ x. (o : Open) × (os : List Open) × (s.opened ≡ o ∷ os) × IsLevel x o
            × Has self.new (record { opened = os; properties = s.properties })) }
    {
        self.levels.pop()
    }

    // Opens an element inside those that are open.
    fn push(&mut self, memory: &mut Memory, level: Level) -> Result<(), Refusal>
        ensures value { (s : State) (o : Open) → Has self.old s → IsLevel level o → OnOk result (Has self.new (begun o s)) }
        ensures memory { CountsAllocFailureInPacket result memory.old memory.new }
        ensures rare { IsRare result }
        ensures accepts { FailsByMemory result }
    {
        memory.push(&mut self.levels, level)?;
        Ok(())
    }

    /// Begins an element that has properties, members or a value.
    pub fn begin(&mut self, memory: &mut Memory) -> Result<(), Refusal>
        ensures value { (s : State) → Has self.old s → OnOk result (Has self.new (begun nothing s)) }
        ensures memory { CountsAllocFailureInPacket result memory.old memory.new }
        ensures rare { IsRare result }
        ensures accepts { FailsByMemory result }
    {
        let level = Level {
            text: TextForm::new(memory),
            inner: Piece::new(memory),
            items: memory.list(),
        };
        self.push(memory, level)
    }

    /// Appends a text. Returns whether it is more than white space.
    pub fn put_text(
        &mut self,
        memory: &mut Memory,
        octets: &[u8],
        kind: TextKind,
    ) -> Result<bool, Refusal>
        ensures value { (s : State) → Has self.old s →
            IfOk result (λ more. (after : State) × Has self.new after × PutsText kind octets.now s more after) }
        ensures memory { CountsAllocFailureInPacket result memory.old memory.new }
        ensures rare { IsRare result }
        ensures accepts { (s : State) (o : Open) (os : List Open) → Has self.old s → s.opened ≡ o ∷ os
            → TextFits kind octets.now (length (normal_text o.text)) → FailsByMemory result }
    {
        let Some(level) = self.pop() else {
            return Ok(false);
        };
        let before = level.text.octets().len();
        let text = level.text.followed_by(memory, octets, kind)?;
        let is_blank = is_blank(tail(text.octets(), before));
        let level = Level {
            text,
            inner: level.inner,
            items: level.items,
        };
        self.push(memory, level)?;
        Ok(!is_blank)
    }

    // Puts another text in place of that of the innermost element.
    fn replace_text(&mut self, memory: &mut Memory, text: TextForm) -> Result<(), Refusal>
        ensures value { (s : State) (t : List ℕ) → Has self.old s → text ≡ normal_text t
            → OnOk result (Has self.new (changed (with_text t) s)) }
        ensures memory { CountsAllocFailureInPacket result memory.old memory.new }
        ensures rare { IsRare result }
        ensures accepts { FailsByMemory result }
    {
        let Some(level) = self.pop() else {
            return Ok(());
        };
        let level = Level {
            text,
            inner: level.inner,
            items: level.items,
        };
        self.push(memory, level)
    }

    /// Removes the text of the innermost element.
    pub fn remove_text(&mut self, memory: &mut Memory) -> Result<(), Refusal>
        ensures value { (s : State) → Has self.old s → OnOk result (Has self.new (changed (with_text []) s)) }
        ensures memory { CountsAllocFailureInPacket result memory.old memory.new }
        ensures rare { IsRare result }
        ensures accepts { FailsByMemory result }
    {
        let text = TextForm::new(memory);
        self.replace_text(memory, text)
    }

    /// Puts a resource into the innermost element.
    pub fn put_resource(&mut self, memory: &mut Memory, uri: &[u8]) -> Result<(), Refusal>
        ensures value { (s : State) → Has self.old s →
            OnOk result ((t : List ℕ) × (text_of AttributeValue uri.now ≡ Some t) × Has self.new (changed (with_text t) s)) }
        ensures memory { CountsAllocFailureInPacket result memory.old memory.new }
        ensures rare { IsRare result }
        ensures accepts { TextFits AttributeValue uri.now 0 → FailsByMemory result }
    {
        let text = TextForm::new(memory).followed_by(memory, uri, TextKind::AttributeValue)?;
        self.replace_text(memory, text)
    }

    // Adds an item to the innermost element.
    fn put_item(&mut self, memory: &mut Memory, item: Item) -> Result<(), Refusal>
        ensures value { (s : State) (e : Entry) → Has self.old s → IsItem item e → OnOk result (Has self.new (changed (with_entry e) s)) }
        ensures memory { CountsAllocFailureInPacket result memory.old memory.new }
        ensures rare { IsRare result }
        ensures accepts { FailsByMemory result }
    {
        let Some(level) = self.levels.last_mut() else {
            return Ok(());
        };
        memory.push(&mut level.items, item)?;
        Ok(())
    }

    /// Adds a property that is an attribute.
    pub fn put_attribute(
        &mut self,
        memory: &mut Memory,
        label: Label,
        value: &[u8],
        origin: Origin,
    ) -> Result<(), Refusal>
        ensures value { (s : State) → Has self.old s → OnOk result ((t : List ℕ) × (text_of AttributeValue value.now ≡ Some t)
            × Has self.new (changed (with_entry (attribute_entry label.entry origin.entry t)) s)) }
        ensures memory { CountsAllocFailureInPacket result memory.old memory.new }
        ensures rare { IsRare result }
        ensures accepts { (t : List ℕ) → text_of AttributeValue value.now ≡ Some t → length value.now ≤ limit
            → ValueFits (label_view label.entry) (attribute_entry label.entry origin.entry t).value → FailsByMemory result }
    {
        let item = attribute_item(memory, &mut self.spare, label, value, origin)?;
        self.put_item(memory, item)
    }

    // Puts what is inside the innermost element.
    fn put_inner(&mut self, memory: &mut Memory, inner: Piece) -> Result<(), Refusal>
        ensures value { (s : State) (c : values.Content) → Has self.old s → inner ≡ written c [] → IsContent c → HaveShortLanguages c →
            OnOk result (Has self.new (changed (with_inner c) s)) }
        ensures memory { CountsAllocFailureInPacket result memory.old memory.new }
        ensures rare { IsRare result }
        ensures accepts { FailsByMemory result }
    {
        let Some(level) = self.pop() else {
            return Ok(());
        };
        let level = Level {
            text: level.text,
            inner,
            items: level.items,
        };
        self.push(memory, level)
    }

    // Joins the items of an element, and opens it again.
    fn push_joined(
        &mut self,
        memory: &mut Memory,
        text: TextForm,
        items: Vec<Item>,
    ) -> Result<(), Refusal>
        ensures value { (s : State) (t : List ℕ) (es : List Entry) → Has self.old s → text ≡ normal_text t → AreItems items.items es →
            OnOk result (Has self.new (begun (record { text = t; inner = row es; entries = [] }) s)) }
        ensures memory { CountsAllocFailureInPacket result memory.old memory.new }
        ensures rare { IsRare result }
        ensures accepts { (es : List Entry) → AreItems items.items es → length (written (row es) []) ≤ most → FailsByMemory result }
    {
        let is_inside = !self.levels.is_empty();
        let level = Level {
            text,
            inner: join_items(memory, items, is_inside)?,
            items: memory.list(),
        };
        self.push(memory, level)
    }

    /// Joins the properties of the innermost element, sorted. `Content`: two have one name.
    pub fn join_properties(&mut self, memory: &mut Memory) -> Result<(), Refusal>
        ensures value { (s : State) → Has self.old s → OnOk result ((after : State) × Has self.new after × JoinsProperties s after) }
        ensures memory { CountsAllocFailureInPacket result memory.old memory.new }
        ensures rare { IsRare result }
        ensures accepts { (s : State) → Has self.old s → AreDistinct (first_entries s.opened)
            → length (written (row (first_entries s.opened)) []) ≤ most → FailsByMemory result }
    {
        let Some(level) = self.pop() else {
            return Ok(());
        };
        let items = sort_items(level.items);
        if let Some(place) = first_repeated(items.as_slice()) {
            return Err(Cause::RareRepeated.at(place));
        }
        self.push_joined(memory, level.text, items)
    }

    /// Joins the members of the innermost element. Those of a bag are in this output's order.
    pub fn join_members(&mut self, memory: &mut Memory, is_bag: bool) -> Result<(), Refusal>
        ensures value { (s : State) → Has self.old s → OnOk result ((after : State) × Has self.new after × JoinsMembers is_bag s after) }
        ensures memory { CountsAllocFailureInPacket result memory.old memory.new }
        ensures rare { IsRare result }
        ensures accepts { (s : State) → Has self.old s → length (written (row (first_entries s.opened)) []) ≤ most → FailsByMemory result }
    {
        let Some(level) = self.pop() else {
            return Ok(());
        };
        if is_bag {
            let items = bag_items(self.order, level.items);
            return self.push_joined(memory, level.text, items);
        }
        self.push_joined(memory, level.text, level.items)
    }

    /// Ends a node, whose joined properties or members are inside the element around it.
    pub fn end_node(&mut self, memory: &mut Memory) -> Result<(), Refusal>
        ensures value { (s : State) → Has self.old s → OnOk result (Has self.new (node_ended s)) }
        ensures memory { CountsAllocFailureInPacket result memory.old memory.new }
        ensures rare { IsRare result }
        ensures accepts { FailsByMemory result }
    {
        let Some(level) = self.pop() else {
            return Ok(());
        };
        self.put_inner(memory, level.inner)
    }

    /// Ends a property or a member, which is an item of the element around it.
    pub fn end_element(
        &mut self,
        memory: &mut Memory,
        label: Label,
        content: Content,
        place: usize,
    ) -> Result<(), Refusal>
        ensures value { (s : State) → Has self.old s → OnOk result (Has self.new (element_ended label.entry content.entry place s)) }
        ensures memory { CountsAllocFailureInPacket result memory.old memory.new }
        ensures rare { IsRare result }
        ensures accepts { (s : State) (o : Open) (os : List Open) → Has self.old s → s.opened ≡ o ∷ os
            → ValueFits (label_view label.entry) (value_of content.entry o.text o.inner) → FailsByMemory result }
    {
        let Some(level) = self.pop() else {
            return Ok(());
        };
        let inner = level.inner;
        let element = write_element(memory, label, content, &level.text, inner)?;
        self.put_item(memory, Item { element, place })
    }

    /// Ends the element whose joined properties are those of the packet.
    pub fn end_properties(&mut self)
        ensures { (s : State) → Has self.old s → Has self.new (properties_ended s) }
    {
        if let Some(level) = self.pop() {
            self.properties = level.inner;
        }
    }

    /// The whole form of the packet, for which no more than its octets are asked for. `Content`: it is too long.
    pub fn whole(&self, memory: &mut Memory) -> Result<Vec<u8>, Refusal>
        ensures value { (s : State) → Has self.now s → IfOk result (λ form. form.items ≡ normal_packet s.properties) }
        ensures normal { IfOk result (λ form. IsNormal form.items) }
        ensures bound { IfOk result (λ form. length form.items ≤ limit) }
        ensures memory { CountsAllocFailureInPacket result memory.old memory.new }
        ensures rare { IsRare result }
        ensures accepts { (s : State) → Has self.now s → length (normal_packet s.properties) ≤ limit → FailsByMemory result }
        ensures asked { (s : State) → Has self.now s → AsksAtMost (length (written s.properties []) + 171) memory.old memory.new }
    {
        let mut form = memory.list();
        let properties = self.properties.octets();
        let around = HEAD.len() + DESCRIPTION.len() + TAIL.len();
        reserve(memory, &mut form, properties.len().saturating_add(around))?;
        append(memory, &mut form, HEAD)?;
        append(memory, &mut form, DESCRIPTION)?;
        append(memory, &mut form, properties)?;
        append(memory, &mut form, TAIL)?;
        if form.len() > LIMIT {
            return Err(Cause::RareLength.at(LIMIT));
        }
        Ok(form)
    }
}
