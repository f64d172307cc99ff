// Reads the fields of a directory from its entries. TIFF 6.0 section 2, "IFD Entry" and "Value/Offset".
//
// `claimed` are the ranges of bytes that parts of the block read before have; to claim a range is
// to add it, and a byte in two of them is the fault `Overlap`. `Content` of a function here: the
// cause and the byte offset of the first check that fails. `OutOfMemory`: an allocation failed.
ghost use Rattle.std.specs.Prelude.{◌≡◌, ◌≤◌, ◌<◌, ◌+◌, ◌*◌, ◌++◌, List, length, filter_map, option_map, option_to_list, Some, None, IfOk};
ghost use Rattle.std.specs.Prelude.{true, [], vec_len, vec_capacity};
ghost use Rattle.px_bytes.specs.Parts.{limit, part};
ghost use Rattle.px_bytes.specs.Range.{Range, Agrees};
ghost use Rattle.px_bytes.specs.Checks.{CountsAllocFailureInBlock, Judges};
ghost use Rattle.px_field.specs.declared.Kind.TheVariants.{Of};
ghost use Rattle.px_meaning.specs.Entry.{entry, raw, entry_elements, widened_value, record_in, unless_record, field_value_in, field};
ghost use Rattle.px_meaning.specs.Footprint.{placed_range};
ghost use Rattle.px_tree.specs.Checks.{entries_checks};
ghost use Rattle.px_tree.specs.calls.Reading.{IsReadable, is_whole, if_kept, entries_from};
ghost use Rattle.px_tree.specs.calls.Uses.{AreUses};
ghost use Rattle.px_bytes.specs.Allocations.{CountsAllocFailure, AsksAtMost};
ghost use Rattle.px_meaning.specs.Asking.{field_bytes};
ghost use Rattle.px_tree.specs.calls.Paying.{ClaimsPay, ClaimsBelow};

use crate::entries::{Head, Shape, judge_entry};
use crate::entry_values::{raw_of, value_at};
use crate::source::BlockReader;
use crate::uses::{Uses, keep_use, no_uses};
use px_bytes::{AllocFailed, Memory, Order, Ranges, Refusal};
use px_field::{Form, Value, read_whole};
use px_meaning::{Fields, Role, is_record_in};

// Whether a type is SHORT or LONG.
fn is_whole_form(form: Form) -> bool
    ensures { result ≡ is_whole form }
{
    matches!(form, Form::Short | Form::Long)
}

// The value of an entry for which SHORT and LONG mean the same.
fn widened_at<'a>(block: &'a [u8], order: Order, at: u32, head: Head, form: Form) -> Value<'a>
    requires { IsReadable block.now order at head form }
    ensures { result
        ≡ widened_value form (entry_elements block.now order (entry order
        (part block.now at 12)) form) }
{
    if is_whole_form(form) {
        return read_whole(form, order, raw_of(block, order, at, head, form));
    }
    value_at(block, order, at, head, form)
}

// The value of an entry at the record's tag. None: its bytes are a record.
fn unless_record_at<'a>(
    block: &'a [u8],
    order: Order,
    at: u32,
    head: Head,
    form: Form,
) -> Option<Value<'a>>
    requires { IsReadable block.now order at head form }
    ensures { let e = entry order (part block.now at 12) in
        result ≡ unless_record (record_in form (raw block.now order e))
        (record { kind = Of form; elements = entry_elements block.now order e form }) }
{
    if is_record_in(form, raw_of(block, order, at, head, form)) {
        return None;
    }
    Some(value_at(block, order, at, head, form))
}

// The value of a field, or None for pointers, entries of the thumbnail, and a record.
fn field_of<'a>(block: &'a [u8], order: Order, at: u32, shape: Shape) -> Option<Value<'a>>
    requires { IsReadable block.now order at shape.head shape.form }
    ensures { result
        ≡ field_value_in block.now order (entry order (part block.now at 12)) shape.role shape.form }
{
    match shape.role {
        Role::Plain => Some(value_at(block, order, at, shape.head, shape.form)),
        Role::Widened => Some(widened_at(block, order, at, shape.head, shape.form)),
        Role::Record => unless_record_at(block, order, at, shape.head, shape.form),
        _ => None,
    }
}

// Keeps the field of any entry, in a list that has capacity for it.
fn keep_any_field<'a>(
    list: &mut Vec<(u16, Value<'a>)>,
    source: &BlockReader<'a>,
    at: u32,
    shape: Shape,
)
    requires claimed { IsReadable source.now.block.now source.now.order at shape.head shape.form }
    requires capacity { vec_len list.old < vec_capacity list.old }
    ensures kept { let b = source.now.block.now in let o = source.now.order in
        list.new.items ≡ list.old.items
        ++ option_to_list (option_map (λ v. (shape.head.tag, v))
        (field_value_in b o (entry o (part b at 12)) shape.role shape.form)) }
    ensures len { vec_len list.new ≤ vec_len list.old + 1 }
    ensures capacity { vec_capacity list.new ≡ vec_capacity list.old }
{
    let Some(value) = field_of(source.block, source.order, at, shape) else {
        return;
    };
    list.push_reserved((shape.head.tag, value));
}

// Keeps the field of an entry, if the entry is a field and fields are kept. Most are plain.
fn keep_field<'a>(list: &mut Vec<(u16, Value<'a>)>, source: &BlockReader<'a>, at: u32, shape: Shape)
    requires claimed { IsReadable source.now.block.now source.now.order at shape.head shape.form }
    requires capacity { source.now.keeps_fields ≡ true → vec_len list.old < vec_capacity list.old }
    ensures kept { let b = source.now.block.now in let o = source.now.order in
        list.new.items ≡ list.old.items
        ++ option_to_list (option_map (λ v. (shape.head.tag, v))
        (if_kept source.now.keeps_fields (field_value_in b o (entry o (part b at 12)) shape.role shape.form))) }
    ensures len { vec_len list.new ≤ vec_len list.old + 1 }
    ensures capacity { vec_capacity list.new ≡ vec_capacity list.old }
{
    if !source.keeps_fields {
        return;
    }
    match shape.role {
        Role::Plain => {
            let value = value_at(source.block, source.order, at, shape.head, shape.form);
            list.push_reserved((shape.head.tag, value));
        }
        _ => keep_any_field(list, source, at, shape),
    }
}

// The entries of a table: the fields, and the entries with a special use.
#[derive(Drop)]
pub struct Entries<'a> {
    pub fields: Fields<'a>,
    pub uses: Uses,
}

// An empty list, with capacity for `count` fields if fields are kept.
fn list_for<'a>(
    memory: &mut Memory,
    keeps_fields: bool,
    count: u16,
) -> Result<Vec<(u16, Value<'a>)>, AllocFailed>
    ensures none { IfOk result (λ list. list.items ≡ []) }
    ensures len { IfOk result (λ list. vec_len list ≡ 0) }
    ensures capacity { IfOk result (λ list. keeps_fields ≡ true → count ≤ vec_capacity list) }
    ensures memory { CountsAllocFailure result memory.old memory.new }
    ensures asked { AsksAtMost (count * field_bytes) memory.old memory.new }
{
    let mut list = memory.list();
    if !keeps_fields {
        return Ok(list);
    }
    memory.reserve_exact(&mut list, usize::from(count))?;
    Ok(list)
}

// Reads `count` entries from offset `start` on: judges each, claims its value, and keeps its field if fields are
// kept. `Ok`: the checks of all entries pass, and for each special use (three pointers, the record, four of the
// thumbnail) the first entry of it is kept. `Content`: the first check that fails. `OutOfMemory`: an allocation
// failed.
pub fn read_entries<'a>(
    memory: &mut Memory,
    source: &BlockReader<'a>,
    claimed: &mut Ranges,
    start: u32,
    count: u16,
) -> Result<Entries<'a>, Refusal>
    requires inside { start + 12 * count ≤ length source.now.block.now }
    requires bounded { length source.now.block.now ≤ limit }
    requires capacity { length source.now.block.now ≤ claimed.old.capacity }
    ensures judged { let b = source.now.block.now in let o = source.now.order in
        let d = source.now.dir in let es = entries_from b o start count in
        (taken : List Range) → Agrees taken claimed.old.ranges →
        Judges result (entries_checks b o d taken start None es)
        (λ v. (source.now.keeps_fields ≡ true → v.fields ≡ filter_map (field b o d) es)
        × Agrees (filter_map (placed_range o) es ++ taken) claimed.new.ranges) }
    ensures uses { let b = source.now.block.now in let o = source.now.order in
        IfOk result (λ v. AreUses b o (entries_from b o start count) start v.uses) }
    ensures memory { CountsAllocFailureInBlock result memory.old memory.new }
    ensures asked { ClaimsPay (count * field_bytes) memory.old memory.new claimed.old claimed.new }
    ensures below { ClaimsBelow (length source.now.block.now) claimed.old claimed.new }
    ensures capacity { claimed.old.capacity ≤ claimed.new.capacity }
{
    let mut list = list_for(memory, source.keeps_fields, count)?;
    let mut uses = no_uses();
    let mut at = start;
    let mut before = None;
    for _ in 0..count {
        let shape = judge_entry(memory, source, claimed, at, before)?;
        keep_field(&mut list, source, at, shape);
        keep_use(&mut uses, shape, at);
        before = Some(shape.head.tag);
        at += 12;
    }
    let fields = Fields::of_list(list);
    Ok(Entries { fields, uses })
}
