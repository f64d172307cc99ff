// The reader of a document: what is left of it, and the output.
// `Err` of a call is why it reads no further: `Content`, what is wrong or rare and its byte offset
// in the packet; or `OutOfMemory`, a failed allocation.
ghost use Rattle.std.specs.Prelude.{◌≡◌, ◌≤◌, ◌∷◌, ◌<◌, ℕ, List, [], false, length, OnOk, IfOk};
ghost use Rattle.px_xmp_text.specs.Values.{End};
ghost use Rattle.px_xmp_forms.specs.Allocations.{CountsAllocFailureInPacket};
ghost use Rattle.px_xmp_forms.specs.Causes.{IsRare, FailsByMemory};
ghost use Rattle.px_xmp_forms.specs.Forms.{most};
ghost use Rattle.px_xmp_forms.specs.Outputs.{State, Open, Has, begun, nothing};
ghost use Rattle.px_xmp_text.specs.Texts.{normal_text};
ghost use Rattle.px_xmp.specs.Nodes.{Nodes};
ghost use Rattle.px_xmp.specs.Meaning.{IsText};
ghost use Rattle.px_xmp_forms.specs.declared.items.BagOrder.TheVariants.{Sorted};
ghost use Rattle.px_xmp.specs.Reading.{kind_view};
ghost use Rattle.px_xmp.specs.calls.Steps.{IsLeft};
ghost use Rattle.px_xmp.specs.calls.Contents.{PutsWords, TextRead};
ghost use Rattle.px_xmp.specs.calls.Fits.{HasElement, IsAhead, WordsFit};

use crate::elements::{Around, Opened};
use crate::marks::MarkKind;
use crate::scope::Scope;
use crate::source::{ENDED, Source};
use px_bytes::Memory;
use px_xmp_forms::{BagOrder, Cause, Output, Refusal};

// What is left of a document's octets, with the prefixes in scope, and what was written of it.
#[derive(Drop)]
pub(crate) struct Reader<'a> {
    pub(crate) source: Source<'a>,
    pub(crate) output: Output,
}

// Puts a mark that is no tag to the text of a property or an item. Returns whether it is more than white space. Of a tag it says
// what leaves the packet to another reader.
fn put_words(
    memory: &mut Memory,
    output: &mut Output,
    kind: MarkKind,
    place: usize,
) -> Result<bool, Refusal>
    ensures value { (s : State) → Has output.old s → IfOk result (λ more. PutsWords (kind_view kind.entry) s more output.new) }
    ensures memory { CountsAllocFailureInPacket result memory.old memory.new }
    ensures rare { IsRare result }
    ensures accepts { (s : State) (o : Open) (os : List Open) → Has output.old s → s.opened ≡ o ∷ os
        → WordsFit (kind_view kind.entry) (length (normal_text o.text)) → FailsByMemory result }
{
    match kind {
        MarkKind::Text(text) => output.put_text(memory, text.octets, text.kind),
        MarkKind::Other => Ok(false),
        _ => Err(Cause::RareElement.at(place)),
    }
}

impl<'a> Reader<'a> {
    // A reader of these octets, which are at the offset `at` of their packet: nothing is in scope,
    // and nothing written.
    pub(crate) fn new(memory: &Memory, octets: &'a [u8], at: usize, order: BagOrder) -> Reader<'a>
        ensures rest { result.source.rest.now ≡ octets.now }
        ensures at { result.source.at ≡ at }
        ensures scope { result.source.scope ≡ [] }
        ensures output { order ≡ Sorted → Has result.output (record { opened = []; properties = End }) }
    {
        Reader {
            source: Source {
                rest: octets,
                at,
                scope: Scope::new(memory),
            },
            output: Output::new(memory, order),
        }
    }

    // Reads the text of a property or an item, up to a tag. None: it is the end tag. If it is a start tag, which only white
    // space precedes, its element is entered.
    #[inline(never)]
    pub(crate) fn read_text(
        &mut self,
        memory: &mut Memory,
        around: Around<'a>,
    ) -> Result<Option<Opened<'a>>, Refusal>
        ensures shorter { OnOk result (length self.new.source.rest.now < length self.old.source.rest.now) }
        ensures read { (s : State) → Has self.old.output (begun nothing s) → IsLeft self.old.source.at self.old.source.rest.now
            → IfOk result (λ o. TextRead o s self.old.source self.new.source self.new.output) }
        ensures memory { CountsAllocFailureInPacket result memory.old memory.new }
        ensures rare { IsRare result }
        ensures text { (s : State) (nodes : Nodes) (t y : List ℕ) → Has self.old.output (begun nothing s)
            → IsAhead false nodes self.old.source y → IsText nodes t → length (normal_text t) ≤ most → FailsByMemory result }
        ensures node { (s : State) (nodes : Nodes) (y : List ℕ) → Has self.old.output (begun nothing s)
            → IsAhead false nodes self.old.source y → HasElement nodes → FailsByMemory result }
    {
        crate::laws::kinds_are_read();
        px_xmp_text::laws::only_references_are_read();
        let mut says = false;
        'marks: loop {
            let place = self.source.at;
            let Some(kind) = self.source.next() else {
                return Err(ENDED.at(place));
            };
            match kind {
                MarkKind::Start(tag) => {
                    let opened = self.source.scope.enter(memory, tag, place)?;
                    if says {
                        return Err(Cause::RareText.at(around.place));
                    }
                    return Ok(Some(opened));
                }
                MarkKind::End => return Ok(None),
                _ => {
                    let more = put_words(memory, &mut self.output, kind, place)?;
                    says = says || more;
                }
            }
        }
    }
}
