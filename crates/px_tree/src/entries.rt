// Judges one entry of a table. TIFF 6.0 section 2, "IFD Entry", "Sort Order", "Types" and "Value/Offset".
//
// `claimed` are the ranges of bytes that parts of the block read before have; to claim a range is
// to add it, and a byte in two of them is the fault `Overlap`. `Content` of a function here: the
// cause and the byte offset of the first check that fails. `OutOfMemory`: an allocation failed.
ghost use Rattle.std.specs.Prelude.{◌≡◌, ◌≤◌, ◌<◌, ◌+◌, ◌*◌, List, ◌++◌, length, option_to_list, IfOk, Some, true};
ghost use Rattle.px_bytes.specs.Parts.{limit, part};
ghost use Rattle.px_bytes.specs.Range.{Range, Agrees};
ghost use Rattle.px_bytes.specs.Checks.{ContentOnly, CountsAllocFailureInBlock, Judges};
ghost use Rattle.px_field.specs.Forms.{form_of, size};
ghost use Rattle.px_meaning.specs.Roles.{role};
ghost use Rattle.px_meaning.specs.Entry.{entry, has_form};
ghost use Rattle.px_meaning.specs.Footprint.{placed_range};
ghost use Rattle.px_tree.specs.Checks.{shape_checks, entry_checks};
ghost use Rattle.px_meaning.specs.calls.Used.{HasNoUse};
ghost use Rattle.px_tree.specs.calls.Reading.{Shows, bare, IsShape, Follows, span, span_checks};
ghost use Rattle.px_tree.specs.calls.Paying.{ClaimsPay, ClaimsBelow};

use crate::claiming::claim_range;
use crate::source::BlockReader;
use px_bytes::{Cause, Memory, Order, Ranges, Refusal};
use px_field::Form;
use px_meaning::{Dir, Role, has_no_use, needs_place, number16, number32, part_of, role_where};

// The content of an entry's twelve bytes.
#[derive(Clone, Copy)]
pub struct Head {
    pub tag: u16,
    pub code: u16,
    pub count: u32,
    pub offset: u32,
}

// An entry with its type and its tag's role. Whether the tag is plain in all directories is computed only
// once.
#[derive(Clone, Copy)]
pub struct Shape {
    pub head: Head,
    pub form: Form,
    pub role: Role,
    pub is_common: bool,
}

// The tag, type, count and offset of the entry in the twelve bytes at an offset of a block.
pub fn head_at(block: &[u8], order: Order, at: u32) -> Head
    requires inside { at + 12 ≤ length block.now }
    requires bounded { length block.now ≤ limit }
    ensures { Shows order result (entry order (part block.now at 12)) }
{
    let bytes = part_of(block, at, 12);
    Head {
        tag: number16(bytes, order, 0),
        code: number16(bytes, order, 2),
        count: number32(bytes, order, 4),
        offset: number32(bytes, order, 8),
    }
}

// Whether a pointer or an entry of the thumbnail has the expected type and count.
fn is_formed(role: Role, head: Head) -> bool
    ensures { result ≡ has_form role (bare head) }
{
    match role {
        Role::To(_) | Role::JpegOffset | Role::JpegLength => head.code == 4 && head.count == 1,
        Role::StripOffsets | Role::StripLengths => head.code == 3 || head.code == 4,
        _ => true,
    }
}

// The type and role of the entry at the offset `at` of the directory `dir`, after an entry with the
// tag `before`, if there is one. `Content`: `Unsorted`, `Doubled`, `UnknownType`, `MisplacedOffset`
// or `PointerForm`.
fn shape_of(dir: Dir, at: u32, before: Option<u16>, head: Head) -> Result<Shape, Refusal>
    ensures judged { Judges result (shape_checks dir at before (bare head))
        (λ s. (s.head ≡ head) × (form_of head.code ≡ Some s.form) × (s.role ≡ role dir head.tag)) }
    ensures follows { IfOk result (λ _. Follows before head.tag) }
    ensures common { IfOk result (λ s. s.is_common ≡ true → HasNoUse head.tag) }
    ensures content { ContentOnly result }
{
    if let Some(last) = before {
        if head.tag < last {
            return Err(Cause::Unsorted.at(at));
        }
        if head.tag == last {
            return Err(Cause::Doubled.at(at));
        }
    }
    let Some(form) = Form::of(head.code) else {
        return Err(Cause::UnknownType.at(at));
    };
    let is_common = has_no_use(head.tag);
    let role = role_where(is_common, dir, head.tag);
    if let Role::Forbidden = role {
        return Err(Cause::MisplacedOffset.at(at));
    }
    if !is_formed(role, head) {
        return Err(Cause::PointerForm.at(at));
    }
    Ok(Shape {
        head,
        form,
        role,
        is_common,
    })
}

// Claims the value of the entry at an offset, unless the value is in the entry.
fn claim_value(
    memory: &mut Memory,
    block: &[u8],
    claimed: &mut Ranges,
    at: u32,
    shape: Shape,
) -> Result<(), Refusal>
    requires bounded { length block.now ≤ limit }
    requires capacity { length block.now ≤ claimed.old.capacity }
    ensures judged { let start = shape.head.offset in let len = shape.head.count * size shape.form in
        (taken : List Range) → Agrees taken claimed.old.ranges →
        Judges result (span_checks block.now taken at start len)
        (λ _. Agrees (option_to_list (span start len) ++ taken) claimed.new.ranges) }
    ensures inside { let start = shape.head.offset in let len = shape.head.count * size shape.form in
        IfOk result (λ _. 4 < len → start + len ≤ length block.now) }
    ensures memory { CountsAllocFailureInBlock result memory.old memory.new }
    ensures asked { ClaimsPay 0 memory.old memory.new claimed.old claimed.new }
    ensures below { ClaimsBelow (length block.now) claimed.old claimed.new }
    ensures capacity { claimed.old.capacity ≤ claimed.new.capacity }
{
    let start = shape.head.offset;
    let len = u64::from(shape.head.count) * u64::from(shape.form.size());
    if !needs_place(len) {
        return Ok(());
    }
    if u64::from(start) + len > block.len() as u64 {
        return Err(Cause::ValueOutside.at(at));
    }
    claim_range(memory, claimed, at, start, len as u32)
}

// Judges the entry in the twelve bytes at offset `at`, after one of the tag `before` or none, and claims its value if
// that has an offset. `Ok`: all its checks pass; its head, type and role are returned; its tag is above `before`; and
// a value of more than four bytes lies inside the block. `Content`: the first check that fails: `Unsorted`,
// `Doubled`, `UnknownType`, `MisplacedOffset`, `PointerForm`, `ValueOutside` or `Overlap`, all at `at`.
// `OutOfMemory`: an allocation failed. If `is_common` of the shape, no directory has a special use for the tag or
// refuses it: it is no pointer, no part of the thumbnail and no record.
pub fn judge_entry(
    memory: &mut Memory,
    source: &BlockReader,
    claimed: &mut Ranges,
    at: u32,
    before: Option<u16>,
) -> Result<Shape, Refusal>
    requires inside { at + 12 ≤ length source.now.block.now }
    requires bounded { length source.now.block.now ≤ limit }
    requires capacity { length source.now.block.now ≤ claimed.old.capacity }
    ensures judged { let b = source.now.block.now in let o = source.now.order in
        let e = entry o (part b at 12) in
        (taken : List Range) → Agrees taken claimed.old.ranges →
        Judges result (entry_checks b o source.now.dir taken at before e)
        (λ s. Agrees (option_to_list (placed_range o e) ++ taken) claimed.new.ranges) }
    ensures shape { let o = source.now.order in
        IfOk result (λ s. IsShape o source.now.dir s (entry o (part source.now.block.now at 12))) }
    ensures inside { IfOk result
        (λ s. 4 < s.head.count * size s.form
        → s.head.offset + s.head.count * size s.form ≤ length source.now.block.now) }
    ensures follows { IfOk result (λ s. Follows before s.head.tag) }
    ensures common { IfOk result (λ s. s.is_common ≡ true → HasNoUse s.head.tag) }
    ensures memory { CountsAllocFailureInBlock result memory.old memory.new }
    ensures asked { ClaimsPay 0 memory.old memory.new claimed.old claimed.new }
    ensures below { ClaimsBelow (length source.now.block.now) claimed.old claimed.new }
    ensures capacity { claimed.old.capacity ≤ claimed.new.capacity }
{
    let head = head_at(source.block, source.order, at);
    let shape = shape_of(source.dir, at, before, head)?;
    claim_value(memory, source.block, claimed, at, shape)?;
    Ok(shape)
}
