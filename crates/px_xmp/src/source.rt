// Reads the marks of a document, one after another.
// `Err` of a call is why it reads no further: `Content`, what is wrong or rare and its byte offset
// in the packet; or `OutOfMemory`, a failed allocation.
ghost use Rattle.std.specs.Prelude.{◌≡◌, ◌≤◌, ◌<◌, ℕ, List, [], true, false, length, is_some, OnOk, IfOk, IfSome};
ghost use Rattle.px_xmp_marks.specs.Declarations.{every};
ghost use Rattle.px_xmp_forms.specs.Allocations.{CountsAllocFailureInPacket};
ghost use Rattle.px_xmp_forms.specs.Causes.{is_rare_in_rdf, IsRare, IfWrong, FailsByMemory};
ghost use Rattle.px_xmp_forms.specs.Forms.{is_white};
ghost use Rattle.px_xmp.specs.Nodes.{Nodes, AreNodes};
ghost use Rattle.px_xmp.specs.Meaning.{AreWhite};
ghost use Rattle.px_xmp.specs.Reading.{Words, kind_view};
ghost use Rattle.px_xmp.specs.Marks.{Mark};
ghost use Rattle.px_xmp.specs.calls.Steps.{IsLeft, IsFirst, HasInside, Says, Next, TagAfter, EndRead, AfterRead, is_plain_space};
ghost use Rattle.px_xmp.specs.calls.Refused.{IsCauseOfReader, IsOfReader, IsOther, BeginsWithText};
ghost use Rattle.px_xmp.specs.calls.Fits.{HasTag, SaysWhite};

use crate::elements::Opened;
use crate::marks::{MarkKind, Text, read_mark};
use crate::scope::Scope;
use px_bytes::Memory;
use px_xmp_forms::{Cause, Refusal, append_text, is_blank};
use px_xmp_text::TextKind;

// What is said where a document ends too early. One without a fault has no such place, so that this says of no packet that it is
// wrong.
pub(crate) const ENDED: Cause = Cause::RareElement;

// The octets that are left, their offset in the packet, and what is in scope there.
#[derive(Drop)]
pub(crate) struct Source<'a> {
    pub(crate) rest: &'a [u8],
    pub(crate) at: usize,
    pub(crate) scope: Scope<'a>,
}

impl<'a> Source<'a> {
    // The next mark, if there is one.
    pub(crate) fn next(&mut self) -> Option<MarkKind<'a>>
        ensures shorter { IfSome result (λ _. length self.new.rest.now < length self.old.rest.now) }
        ensures scope { self.new.scope ≡ self.old.scope }
        ensures read { IsLeft self.old.at self.old.rest.now
            → IfSome result (λ k. Next (kind_view k) self.old.at self.old.rest.now self.new.at self.new.rest.now) }
        ensures some { (k : Mark) (y : List ℕ) → IsFirst k self.old.rest.now y → is_some result ≡ true }
    {
        crate::laws::kinds_are_read();
        let Some(mark) = read_mark(self.rest) else {
            return None;
        };
        self.rest = self.rest.split_at(mark.size).1;
        self.at = self.at.saturating_add(mark.size);
        Some(mark.kind)
    }

    // The next tag, before which is only white space; other text is refused by a cause. None: it is an end tag. The element of a
    // start tag is entered.
    #[inline(never)]
    pub(crate) fn next_tag(
        &mut self,
        memory: &mut Memory,
        other: Cause,
    ) -> Result<Option<Opened<'a>>, Refusal>
        ensures shorter { OnOk result (length self.new.rest.now < length self.old.rest.now) }
        ensures read { IsLeft self.old.at self.old.rest.now
            → IfOk result (λ o. (white : Nodes) × AreWhite white × TagAfter o white self.old self.new) }
        ensures memory { CountsAllocFailureInPacket result memory.old memory.new }
        ensures rare { is_rare_in_rdf other ≡ true → IsRare result }
        ensures rdf { IsCauseOfReader other → IsOfReader result }
        ensures refused { IsLeft self.old.at self.old.rest.now
            → IfWrong result (BeginsWithText self.old.scope self.old.at self.old.rest.now) }
        ensures accepts { (nodes : Nodes) (y : List ℕ) → IsLeft self.old.at self.old.rest.now
            → AreNodes nodes self.old.scope self.old.at self.old.rest.now y → HasTag nodes y → FailsByMemory result }
    {
        crate::laws::kinds_are_read();
        'marks: loop {
            let place = self.at;
            let Some(kind) = self.next() else {
                return Err(ENDED.at(place));
            };
            match kind {
                MarkKind::Start(tag) => return Ok(Some(self.scope.enter(memory, tag, place)?)),
                MarkKind::End => return Ok(None),
                MarkKind::Text(text) => judge_blank(memory, text, other, place)?,
                MarkKind::Other => {}
            }
        }
    }

    // Reads the end tag of an element that has nothing in it, or nothing more.
    #[inline(never)]
    pub(crate) fn read_end(&mut self, memory: &mut Memory) -> Result<(), Refusal>
        ensures shorter { OnOk result (length self.new.rest.now < length self.old.rest.now) }
        ensures read { IsLeft self.old.at self.old.rest.now → OnOk result (EndRead false self.old self.new) }
        ensures memory { CountsAllocFailureInPacket result memory.old memory.new }
        ensures rare { IsRare result }
        ensures accepts { (nodes : Nodes) (y : List ℕ) → IsLeft self.old.at self.old.rest.now → AreWhite nodes
            → HasInside false nodes self.old.scope self.old.at self.old.rest.now y → FailsByMemory result }
    {
        crate::laws::kinds_are_read();
        match self.next_tag(memory, Cause::RareText)? {
            Some(opened) => Err(Cause::RareElement.at(opened.place)),
            None => Ok(()),
        }
    }

    // Reads the content of an element that has nothing in it, and its end tag if it has one.
    #[inline(never)]
    pub(crate) fn read_nothing(
        &mut self,
        memory: &mut Memory,
        is_empty: bool,
    ) -> Result<(), Refusal>
        ensures shorter { OnOk result (length self.new.rest.now ≤ length self.old.rest.now) }
        ensures read { IsLeft self.old.at self.old.rest.now → OnOk result (EndRead is_empty self.old self.new) }
        ensures memory { CountsAllocFailureInPacket result memory.old memory.new }
        ensures rare { IsRare result }
        ensures accepts { (nodes : Nodes) (y : List ℕ) → IsLeft self.old.at self.old.rest.now → AreWhite nodes
            → HasInside is_empty nodes self.old.scope self.old.at self.old.rest.now y → FailsByMemory result }
    {
        if is_empty {
            return Ok(());
        }
        self.read_end(memory)
    }

    // Reads what is left after the root: comments, processing instructions and white space.
    pub(crate) fn read_after(&mut self, memory: &mut Memory) -> Result<(), Refusal>
        ensures read { IsLeft self.old.at self.old.rest.now → OnOk result (AfterRead self.old) }
        ensures memory { CountsAllocFailureInPacket result memory.old memory.new }
        ensures rdf { IsOfReader result }
        ensures refused { (nodes : Nodes) → IsLeft self.old.at self.old.rest.now
            → AreNodes nodes self.old.scope self.old.at self.old.rest.now [] → IfWrong result (AreWhite nodes → ⊥) }
        ensures accepts { (nodes : Nodes) → IsLeft self.old.at self.old.rest.now
            → AreNodes nodes self.old.scope self.old.at self.old.rest.now [] → AreWhite nodes → FailsByMemory result }
    {
        crate::laws::kinds_are_read();
        while !self.rest.is_empty() {
            let place = self.at;
            let Some(kind) = self.next() else {
                return Err(ENDED.at(place));
            };
            judge_white(memory, kind, Cause::NoRdf, place)?;
        }
        Ok(())
    }
}

// Whether an octet is a space, a tab or a line feed, which each mean themselves in a text; CR means
// LF (XML 1.0, 2.11).
fn is_plain_space(octet: u8) -> bool
    ensures { result ≡ is_plain_space octet }
{
    octet == b' ' || octet == b'\t' || octet == b'\n'
}

// Whether each octet is such white space.
fn are_plain_spaces(octets: &[u8]) -> bool
    ensures { result ≡ every is_plain_space octets.now }
{
    // without an end before the last octet, so that many are looked at at once
    let mut all = true;
    for octet in octets {
        all &= is_plain_space(*octet);
    }
    all
}

// Judges a text between elements, which has to be white space.
fn judge_blank(memory: &mut Memory, text: Text, other: Cause, place: usize) -> Result<(), Refusal>
    ensures says { OnOk result ((t : List ℕ) × Says (Words text.entry.kind text.entry.octets.now) t × (is_white t ≡ true)) }
    ensures memory { CountsAllocFailureInPacket result memory.old memory.new }
    ensures rare { is_rare_in_rdf other ≡ true → IsRare result }
    ensures rdf { IsCauseOfReader other → IsOfReader result }
    ensures refused { IfWrong result (IsOther (Words text.entry.kind text.entry.octets.now)) }
    ensures accepts { SaysWhite (Words text.entry.kind text.entry.octets.now) → FailsByMemory result }
{
    if text.kind == TextKind::CharacterData && are_plain_spaces(text.octets) {
        return Ok(());
    }
    px_xmp_text::laws::only_references_are_read();
    let mut form = memory.list();
    append_text(memory, &mut form, text.octets, text.kind)?;
    if is_blank(form.as_slice()) {
        return Ok(());
    }
    Err(other.at(place))
}

// Judges a mark between elements: a comment, a processing instruction or white space.
fn judge_white(
    memory: &mut Memory,
    kind: MarkKind,
    other: Cause,
    place: usize,
) -> Result<(), Refusal>
    ensures says { OnOk result ((t : List ℕ) × Says (kind_view kind.entry) t × (is_white t ≡ true)) }
    ensures memory { CountsAllocFailureInPacket result memory.old memory.new }
    ensures rdf { IsCauseOfReader other → IsOfReader result }
    ensures refused { IfWrong result (IsOther (kind_view kind.entry)) }
    ensures accepts { SaysWhite (kind_view kind.entry) → FailsByMemory result }
{
    match kind {
        MarkKind::Text(text) => judge_blank(memory, text, other, place),
        MarkKind::Other => Ok(()),
        _ => Err(other.at(place)),
    }
}
