// Octets that are a normal form: of a text, or of properties or members.
// `Err` of a call is why it writes nothing more: `Content`, what can't be written, as a form
// that is too long; or `OutOfMemory`, a failed allocation.
ghost use Rattle.std.specs.Prelude.{◌≡◌, ◌≤◌, ◌+◌, ◌++◌, [], ℕ, List, Some, length, drop, IfOk};
ghost use Rattle.px_xmp_text.specs.Texts.{text_of, normal_text};
ghost use Rattle.px_xmp_forms.specs.Forms.{most, IsForm, IsTextForm, TextFits};
ghost use Rattle.px_xmp_forms.specs.Allocations.{CountsAllocFailureInPacket};
ghost use Rattle.px_xmp_forms.specs.Causes.{IsRare, FailsByMemory};

use crate::appending::{LIMIT, MOST, append_text, has_space, reserve};
use crate::faults::{Cause, Refusal};
use px_bytes::Memory;
use px_xmp_text::TextKind;
use std::marker::Model;

// The normal form of a text.
#[derive(Drop)]
pub(crate) struct TextForm {
    octets: Vec<u8>,
}

impl Model for TextForm {
    ghost use Rattle.std.specs.Prelude.{List, ℕ};
    ghost use Rattle.px_xmp_forms.specs.Forms.{IsTextForm};

    ghost Value = { List ℕ };

    ghost view = { λ f. f.octets.items };

    ghost invariant = { λ f. IsTextForm f.octets.items };
}

impl TextForm {
    // The normal form of the empty text.
    pub(crate) fn new(memory: &Memory) -> TextForm
        ensures { result ≡ [] }
    {
        TextForm {
            octets: memory.list(),
        }
    }

    // The octets of the form.
    pub(crate) fn octets(&self) -> &[u8]
        ensures form { IsTextForm result.now }
        ensures value { result.now ≡ self.now }
    {
        self.octets.as_slice()
    }

    // The normal form of the text with the one of `octets` after it.
    pub(crate) fn followed_by(
        self,
        memory: &mut Memory,
        octets: &[u8],
        kind: TextKind,
    ) -> Result<TextForm, Refusal>
        ensures value { IfOk result (λ f. (t : List ℕ) × (text_of kind octets.now ≡ Some t) × (f ≡ self ++ normal_text t)) }
        ensures memory { CountsAllocFailureInPacket result memory.old memory.new }
        ensures rare { IsRare result }
        ensures accepts { TextFits kind octets.now (length self) → FailsByMemory result }
    {
        let mut form = self.octets;
        append_text(memory, &mut form, octets, kind)?;
        Ok(TextForm { octets: form })
    }
}

// The normal form of properties or members in a row: the octets from `start` on. Those before are space for others.
#[derive(Drop)]
pub(crate) struct Piece {
    octets: Vec<u8>,
    start: usize,
}

impl Model for Piece {
    ghost use Rattle.std.specs.Prelude.{List, ℕ, drop, length, ◌≤◌};
    ghost use Rattle.px_xmp_forms.specs.Forms.{IsForm};

    ghost Value = { List ℕ };

    ghost view = { λ p. drop p.start p.octets.items };

    ghost invariant = { λ p. (p.start ≤ length p.octets.items) × IsForm (drop p.start p.octets.items) };
}

// The space before a piece, and that behind it, is the piece's length through this.
const PARTS: usize = 8;

// The space that a piece of `len` octets gets at each end, so that few of those around it need more.
fn space_around(len: usize) -> usize
    ensures { result ≤ most }
{
    (len / PARTS).min(MOST)
}

// Whether `other` is put behind `piece` where that is. Otherwise `piece` is put before `other`.
fn stays(piece: &Piece, other: &Piece) -> bool {
    let more = other.octets().len();
    if more <= piece.octets().len() {
        return true;
    }
    more <= piece.octets.capacity() - piece.octets.len()
}

impl Piece {
    // The piece without a property or a member.
    pub(crate) fn new(memory: &Memory) -> Piece
        ensures { result ≡ [] }
    {
        Piece {
            octets: memory.list(),
            start: 0,
        }
    }

    // The piece without a property or a member, with space for octets and for others before them.
    pub(crate) fn with_space(
        memory: &mut Memory,
        before: usize,
        more: usize,
    ) -> Result<Piece, Refusal>
        ensures value { IfOk result (λ p. p ≡ []) }
        ensures memory { CountsAllocFailureInPacket result memory.old memory.new }
        ensures rare { IsRare result }
        ensures accepts { FailsByMemory result }
    {
        let mut octets = memory.list();
        let start = before.min(MOST);
        reserve(memory, &mut octets, start.saturating_add(more))?;
        memory.resize(&mut octets, start, 0)?;
        Ok(Piece { octets, start })
    }

    // The piece that has these octets.
    pub(crate) fn of(octets: Vec<u8>) -> Piece
        requires { IsForm octets.items }
        ensures { result ≡ octets.items }
    {
        Piece { octets, start: 0 }
    }

    // The octets of the properties or members.
    pub(crate) fn octets(&self) -> &[u8]
        ensures form { IsForm result.now }
        ensures value { result.now ≡ self.now }
    {
        self.octets.split_at(self.start).1
    }

    // The octets, and where they begin: behind `before` others at least.
    fn moved(
        self,
        memory: &mut Memory,
        before: usize,
        behind: usize,
    ) -> Result<(Vec<u8>, usize), Refusal>
        requires { before ≤ most }
        ensures value { IfOk result (λ x. drop x.1 x.0.items ≡ self) }
        ensures before { IfOk result (λ x. before ≤ x.1) }
        ensures within { IfOk result (λ x. x.1 ≤ length x.0.items) }
        ensures memory { CountsAllocFailureInPacket result memory.old memory.new }
        ensures rare { IsRare result }
        ensures accepts { FailsByMemory result }
    {
        if before <= self.start {
            return Ok((self.octets, self.start));
        }
        let from = self.octets();
        let space = space_around(from.len());
        let start = before + space;
        let size = start.saturating_add(from.len()).saturating_add(space);
        let mut octets = memory.list();
        reserve(memory, &mut octets, size.saturating_add(behind))?;
        memory.resize(&mut octets, start, 0)?;
        memory.extend_from_slice(&mut octets, from)?;
        Ok((octets, start))
    }

    // The octets with others before them, and where these begin.
    fn preceded(
        self,
        memory: &mut Memory,
        front: &[u8],
        behind: usize,
    ) -> Result<(Vec<u8>, usize), Refusal>
        ensures value { IfOk result (λ x. drop x.1 x.0.items ≡ front.now ++ self) }
        ensures within { IfOk result (λ x. x.1 ≤ length x.0.items) }
        ensures memory { CountsAllocFailureInPacket result memory.old memory.new }
        ensures rare { IsRare result }
        ensures accepts { length front.now + length self ≤ most → FailsByMemory result }
    {
        if !has_space(front.len(), self.octets().len()) {
            return Err(Cause::RareLength.at(LIMIT));
        }
        let (mut octets, end) = self.moved(memory, front.len(), behind)?;
        let start = end - front.len();
        octets[start..end].copy_from_slice(front);
        Ok((octets, start))
    }

    // The piece with octets before and behind it.
    pub(crate) fn between(
        self,
        memory: &mut Memory,
        front: &[u8],
        back: &[u8],
    ) -> Result<Piece, Refusal>
        requires { IsForm self → IsForm (front.now ++ self ++ back.now) }
        ensures value { IfOk result (λ p. p ≡ front.now ++ self ++ back.now) }
        ensures memory { CountsAllocFailureInPacket result memory.old memory.new }
        ensures rare { IsRare result }
        ensures accepts { length (front.now ++ self ++ back.now) ≤ most → FailsByMemory result }
    {
        let (mut octets, start) = self.preceded(memory, front, back.len())?;
        if !has_space(octets.len() - start, back.len()) {
            return Err(Cause::RareLength.at(LIMIT));
        }
        memory.extend_from_slice(&mut octets, back)?;
        Ok(Piece { octets, start })
    }

    // The piece with another behind it. Octets that have space around them stay where they are.
    pub(crate) fn followed_by(self, memory: &mut Memory, other: Piece) -> Result<Piece, Refusal>
        ensures value { IfOk result (λ p. p ≡ self ++ other) }
        ensures memory { CountsAllocFailureInPacket result memory.old memory.new }
        ensures rare { IsRare result }
        ensures accepts { length self + length other ≤ most → FailsByMemory result }
    {
        if !has_space(self.octets().len(), other.octets().len()) {
            return Err(Cause::RareLength.at(LIMIT));
        }
        if !stays(&self, &other) {
            let (octets, start) = other.preceded(memory, self.octets(), 0)?;
            return Ok(Piece { octets, start });
        }
        let mut octets = self.octets;
        memory.extend_from_slice(&mut octets, other.octets())?;
        Ok(Piece {
            octets,
            start: self.start,
        })
    }
}
