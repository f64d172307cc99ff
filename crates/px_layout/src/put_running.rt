// Puts the entries of a normal form into the output buffer. Offsets are computed on the way, so no plan is kept.
//
// A placed value is one of more than four bytes: it is at an offset, and not in its entry.
// `pending` is the output buffer, and `writer` gets its bytes when it is full. `Err` of a function
// here: a call of the writer failed, which has taken a prefix of the buffered bytes and of those
// that the function adds.
ghost use Rattle.std.specs.Prelude.{◌≡◌, ◌<◌, ◌≤◌, ◌+◌, ◌-◌, ◌*◌, ◌++◌, ◌^◌, ℕ, Some, None, length, take, drop, flat_map, unwrap_or, []};
ghost use Rattle.std.specs.Prelude.{replicate, map};
ghost use Rattle.std.specs.List.{AllByRecursion};
ghost use Rattle.px_bytes.specs.Devices.{CanCountFailure, Counts};
ghost use Rattle.px_bytes.specs.Parts.{limit};
ghost use Rattle.px_bytes.specs.Waiting.{PutsBuffered, AddsBuffered};
ghost use Rattle.px_meaning.specs.Tree as spec;
ghost use Rattle.px_field.specs.Values.{encoded};
ghost use Rattle.px_meaning.specs.Writable.{items, item_size, Field};
ghost use Rattle.px_layout.specs.calls.Items.{item_of, entry_of, CountsFit};
ghost use Rattle.px_layout.specs.Laid.{long_bytes, item_bytes, entry_bytes, next_bytes, table_bytes, header};
ghost use Rattle.px_layout.specs.Normal.{normal_plan};
ghost use Rattle.px_layout.specs.Plans.{place};
ghost use Rattle.px_layout.specs.lemmas.RunLaws.{start, strips_start, value_size};
ghost use Rattle.px_layout.specs.calls.Given.{head_bytes, entry_given, field_given, near_given};
ghost use Rattle.px_layout.specs.calls.Given.{strip_list, CountsAllStrips, strips_size, strip_places};
ghost use Rattle.px_layout.specs.calls.Forms.{meaning_in, plan_in, IsWritableForm};

use crate::chunks::Chunk;
use crate::entries::{Entries, is_there};
use crate::form::NormalForm;
use crate::items::{Entry, Item};
use crate::put::{entry_head, field_head, put_filler, put_long, put_short, put_value};
use crate::put_strips::{AT_ONCE, encode_lengths, put_strip_lengths};
use crate::tables::table_len;
use px_bytes::{Failed, Order, Pending, Sink};
use px_field::Value;
use px_iim::put_iim;
use px_meaning::{Dir, Strips, needs_place};

// The byte offset of a directory.
fn start_of(form: &NormalForm, dir: Dir) -> u32
    requires { IsWritableForm form.now }
    ensures { result ≡ start (meaning_in form.now) dir }
{
    match dir {
        Dir::Main => 8,
        Dir::Exif => form.starts.exif,
        Dir::Interop => form.starts.interop,
        Dir::Gps => form.starts.gps,
        Dir::Thumb => form.starts.thumb,
    }
}

// The byte offset of a directory's table; 0 if the meaning doesn't have the directory.
fn table_at(form: &NormalForm, dir: Dir) -> u32
    requires { IsWritableForm form.now }
    ensures { result ≡ place (plan_in form.now) (Chunk.Table dir) }
{
    if is_there(form.m, dir) {
        return start_of(form, dir);
    }
    0
}

// The byte offset of the JPEG; 0 if there is none.
fn jpeg_at(form: &NormalForm) -> u32
    requires { IsWritableForm form.now }
    ensures { result ≡ place (plan_in form.now) Chunk.Jpeg }
{
    match &form.m.thumb {
        Some(thumb) => match thumb.jpeg {
            Some(_) => form.starts.jpeg,
            None => 0,
        },
        None => 0,
    }
}

// Encodes the byte offsets of the strips from `start` up to `end`, the first of which is at `at`. Returns the byte
// offset of the next strip. The lengths are put into the same bytes first, where each offset then replaces one.
fn encode_offsets(at: u32, strips: &Strips, start: usize, end: usize, into: &mut [u8]) -> u32
    requires rising { start ≤ end }
    requires inside { end ≤ length strips.now }
    requires most { at + strips_size (drop start strips.now) ≤ limit }
    requires short { AllByRecursion (λ n. n ≤ limit) (map (λ x. length x) strips.now) }
    requires space { length into.old ≡ 4 * (end - start) }
    ensures next { result + strips_size (drop end strips.now) ≡ at + strips_size (drop start strips.now) }
    ensures encoded { (first : ℕ) → at + strips_size (drop start strips.now) ≡ first + strips_size strips.now
        → flat_map (long_bytes Order.Most) (take end (strip_places first strips.now))
        ≡ flat_map (long_bytes Order.Most) (take start (strip_places first strips.now)) ++ into.new }
{
    encode_lengths(Order::Most, strips, start, end, into);
    let mut next = at;
    for i in start..end {
        let place = 4 * (i - start);
        let size = Order::Most.get32(&into[place..place + 4]);
        Order::Most.put32(next, &mut into[place..place + 4]);
        next += size + size % 2;
    }
    next
}

// Puts the byte offsets of strips, the first of which is at `at`.
fn put_strip_offsets<W: Sink>(
    pending: &mut Pending<'_>,
    writer: &mut W,
    at: u32,
    strips: &Strips,
) -> Result<(), Failed>
    requires few { CanCountFailure (W.calls writer.old) }
    requires most { at + strips_size strips.now ≤ limit }
    ensures { AddsBuffered W.calls W.bytes_taken result writer.old writer.new pending.old pending.new (flat_map
        (long_bytes Order.Most) (strip_places at strips.now)) }
{
    let mut piece = [0; 4 * AT_ONCE];
    let mut next = at;
    let mut i = 0;
    while i < strips.len() {
        let count = AT_ONCE.min(strips.len() - i);
        let bytes = &mut piece[..4 * count];
        next = encode_offsets(next, strips, i, i + count, bytes);
        pending.put(writer, bytes)?;
        i += count;
    }
    Ok(())
}

// Puts the byte offsets of strips, the first of which is at `at`, or nothing if the thumbnail has
// none.
fn put_any_offsets<W: Sink>(
    pending: &mut Pending<'_>,
    writer: &mut W,
    at: u32,
    strips: &Option<Strips>,
) -> Result<(), Failed>
    requires few { CanCountFailure (W.calls writer.old) }
    requires most { at + strips_size (unwrap_or strips.now []) ≤ limit }
    ensures { AddsBuffered W.calls W.bytes_taken result writer.old writer.new pending.old pending.new (flat_map
        (long_bytes Order.Most) (strip_places at (unwrap_or strips.now []))) }
{
    match strips {
        Some(strips) => put_strip_offsets(pending, writer, at, strips),
        None => Ok(()),
    }
}

// Puts the byte offsets of the thumbnail's strips.
fn put_thumbnail_offsets<W: Sink>(
    pending: &mut Pending<'_>,
    writer: &mut W,
    form: &NormalForm,
) -> Result<(), Failed>
    requires few { CanCountFailure (W.calls writer.old) }
    requires form { IsWritableForm form.now }
    ensures { AddsBuffered W.calls W.bytes_taken result writer.old writer.new pending.old pending.new (flat_map
        (long_bytes Order.Most) (strip_places (strips_start (meaning_in form.now)) (strip_list (meaning_in form.now).thumb))) }
{
    match &form.m.thumb {
        Some(thumb) => put_any_offsets(pending, writer, form.starts.strips, &thumb.strips),
        None => Ok(()),
    }
}

// Puts the value of an entry.
#[tactic(auto, unfolding(crate::specs::Laid::item_bytes))]
pub(crate) fn put_item_value<W: Sink>(
    pending: &mut Pending<'_>,
    writer: &mut W,
    form: &NormalForm,
    item: Item,
) -> Result<(), Failed>
    requires few { CanCountFailure (W.calls writer.old) }
    requires form { IsWritableForm form.now }
    requires counted { CountsFit (item_of item) }
    requires counts_all { CountsAllStrips (meaning_in form.now) (item_of item) }
    ensures { AddsBuffered W.calls W.bytes_taken result writer.old writer.new pending.old pending.new
        (item_bytes (plan_in form.now) Order.Most 0 (item_of item.entry)) }
{
    match item {
        Item::Field(value) => put_value(pending, writer, Order::Most, value),
        Item::Record(iim) => put_iim(pending, writer, iim),
        Item::Link(dir) => put_long(pending, writer, Order::Most, table_at(form, dir)),
        Item::JpegOffset => put_long(pending, writer, Order::Most, jpeg_at(form)),
        Item::JpegLength(len) => put_long(pending, writer, Order::Most, len),
        Item::StripOffsets(_) => put_thumbnail_offsets(pending, writer, form),
        Item::StripLengths(strips) => put_strip_lengths(pending, writer, Order::Most, strips),
    }
}

// An entry whose value is at the byte offset `at`: its twelve bytes, so that one call puts them.
fn entry_to(at: u32, entry: &Entry) -> [u8; 12]
    requires { CountsFit (item_of entry.now.item) }
    ensures { result ≡ head_bytes Order.Most (entry_of entry.now) ++ long_bytes Order.Most at }
{
    let mut bytes = [0; 12];
    bytes[..8].copy_from_slice(&entry_head(Order::Most, entry));
    Order::Most.put32(at, &mut bytes[8..]);
    bytes
}

// The entry of a field whose value is at the byte offset `at`.
fn field_to(at: u32, tag: u16, value: &Value) -> [u8; 12]
    ensures { result ≡ head_bytes Order.Most (tag, Field value.now) ++ long_bytes Order.Most at }
{
    let mut bytes = [0; 12];
    bytes[..8].copy_from_slice(&field_head(Order::Most, tag, value));
    Order::Most.put32(at, &mut bytes[8..]);
    bytes
}

// The entry of a field whose value is in the entry: its last four bytes are the value, then zeros.
fn field_with(tag: u16, value: &Value) -> [u8; 12]
    requires { length (encoded Order.Most value.now) ≤ 4 }
    ensures { result ≡ head_bytes Order.Most (tag, Field value.now)
        ++ (encoded Order.Most value.now ++ replicate (4 - length (encoded Order.Most value.now)) 0) }
{
    let mut bytes = [0; 12];
    bytes[..8].copy_from_slice(&field_head(Order::Most, tag, value));
    bytes[8..].copy_from_slice(&value.encode_four(Order::Most));
    bytes
}

// Puts the entry of a field. `at` is the byte offset of its value, if that isn't in the entry.
fn put_field_entry<W: Sink>(
    pending: &mut Pending<'_>,
    writer: &mut W,
    at: u32,
    tag: u16,
    value: &Value,
) -> Result<(), Failed>
    requires few { CanCountFailure (W.calls writer.old) }
    ensures { AddsBuffered W.calls W.bytes_taken result writer.old writer.new pending.old pending.new (field_given at tag value.now) }
{
    if needs_place(value.size()) {
        return pending.put(writer, &field_to(at, tag, value));
    }
    pending.put(writer, &field_with(tag, value))
}

// Puts an entry whose value is in it: tag, type and count, and four bytes with the value and then
// zeros.
fn put_near_entry<W: Sink>(
    pending: &mut Pending<'_>,
    writer: &mut W,
    form: &NormalForm,
    entry: &Entry,
) -> Result<(), Failed>
    requires few { CanCountFailure (W.calls writer.old) }
    requires form { IsWritableForm form.now }
    requires counted { CountsFit (item_of entry.now.item) }
    requires counts_all { CountsAllStrips (meaning_in form.now) (item_of entry.now.item) }
    requires near { item_size (item_of entry.now.item) ≤ 4 }
    ensures { AddsBuffered W.calls W.bytes_taken result writer.old writer.new pending.old pending.new
        (near_given (plan_in form.now) (entry_of entry.now)) }
{
    let size = entry.item.size();
    pending.put(writer, &entry_head(Order::Most, entry))?;
    put_item_value(pending, writer, form, entry.item)?;
    put_filler(pending, writer, 0, 4 - size as usize)
}

// Puts an entry. `at` is the byte offset of its value, if that isn't in the entry.
fn put_any_entry<W: Sink>(
    pending: &mut Pending<'_>,
    writer: &mut W,
    form: &NormalForm,
    at: u32,
    entry: Entry,
) -> Result<(), Failed>
    requires few { CanCountFailure (W.calls writer.old) }
    requires form { IsWritableForm form.now }
    requires counted { CountsFit (item_of entry.item) }
    requires counts_all { CountsAllStrips (meaning_in form.now) (item_of entry.item) }
    ensures { AddsBuffered W.calls W.bytes_taken result writer.old writer.new pending.old pending.new
        (entry_given (plan_in form.now) at (entry_of entry.entry)) }
{
    if needs_place(entry.item.size()) {
        return pending.put(writer, &entry_to(at, &entry));
    }
    put_near_entry(pending, writer, form, &entry)
}

// Puts an entry of any kind; `at` is the byte offset of its value, if that is placed. Fields, which
// most entries are, are put without a check for the other kinds.
fn put_given_entry<W: Sink>(
    pending: &mut Pending<'_>,
    writer: &mut W,
    form: &NormalForm,
    at: u32,
    entry: &Entry,
) -> Result<(), Failed>
    requires few { CanCountFailure (W.calls writer.old) }
    requires form { IsWritableForm form.now }
    requires counted { CountsFit (item_of entry.now.item) }
    requires counts_all { CountsAllStrips (meaning_in form.now) (item_of entry.now.item) }
    ensures { AddsBuffered W.calls W.bytes_taken result writer.old writer.new pending.old pending.new
        (entry_given (plan_in form.now) at (entry_of entry.now)) }
{
    match entry.item {
        Item::Field(value) => put_field_entry(pending, writer, at, entry.tag, value),
        _ => put_any_entry(pending, writer, form, at, *entry),
    }
}

// The byte offset of the next placed value, after this entry's.
fn next_at(at: u32, entry: &Entry) -> u32
    requires counted { CountsFit (item_of entry.now.item) }
    requires most { at + value_size (item_of entry.now.item) ≤ limit }
    ensures { result ≡ at + value_size (item_of entry.now.item) }
{
    let size = entry.item.size();
    if !needs_place(size) {
        return at;
    }
    at + (size + size % 2) as u32
}

// Puts the entries of a directory.
fn put_running_entries<W: Sink>(
    pending: &mut Pending<'_>,
    writer: &mut W,
    form: &NormalForm,
    dir: Dir,
    entries: &Entries,
) -> Result<(), Failed>
    requires few { CanCountFailure (W.calls writer.old) }
    requires form { IsWritableForm form.now }
    requires there { items (meaning_in form.now) dir ≡ Some entries.now }
    ensures { AddsBuffered W.calls W.bytes_taken result writer.old writer.new pending.old pending.new (flat_map
        (entry_bytes (plan_in form.now) Order.Most 0 dir) entries.now) }
{
    let mut at = start_of(form, dir) + table_len(entries.len()) as u32;
    for i in 0..entries.len() {
        let entry = entries.at(i);
        put_given_entry(pending, writer, form, at, &entry)?;
        at = next_at(at, &entry);
    }
    Ok(())
}

// Puts the four bytes after the entries of a directory: the offset of the thumbnail directory after
// the main directory, and 0 after any other.
fn put_running_next<W: Sink>(
    pending: &mut Pending<'_>,
    writer: &mut W,
    form: &NormalForm,
    dir: Dir,
) -> Result<(), Failed>
    requires few { CanCountFailure (W.calls writer.old) }
    requires form { IsWritableForm form.now }
    ensures { AddsBuffered W.calls W.bytes_taken result writer.old writer.new pending.old pending.new
        (next_bytes (plan_in form.now) Order.Most 0 (meaning_in form.now) dir) }
{
    match dir {
        Dir::Main => put_next_of_main(pending, writer, form),
        Dir::Thumb => put_long(pending, writer, Order::Most, 0),
        Dir::Exif | Dir::Interop | Dir::Gps => put_filler(pending, writer, 0, 4),
    }
}

// Puts the offset of the thumbnail directory; 0 if there is none.
fn put_next_of_main<W: Sink>(
    pending: &mut Pending<'_>,
    writer: &mut W,
    form: &NormalForm,
) -> Result<(), Failed>
    requires few { CanCountFailure (W.calls writer.old) }
    requires form { IsWritableForm form.now }
    ensures { AddsBuffered W.calls W.bytes_taken result writer.old writer.new pending.old pending.new
        (next_bytes (plan_in form.now) Order.Most 0 (meaning_in form.now) Dir.Main) }
{
    match &form.m.thumb {
        Some(_) => {
            let at = table_at(form, Dir::Thumb);
            put_long(pending, writer, Order::Most, at)
        }
        None => put_long(pending, writer, Order::Most, 0),
    }
}

// Puts the table of a directory.
pub(crate) fn put_running_table<W: Sink>(
    pending: &mut Pending<'_>,
    writer: &mut W,
    form: &NormalForm,
    dir: Dir,
    entries: &Entries,
) -> Result<(), Failed>
    requires few { CanCountFailure (W.calls writer.old) }
    requires form { IsWritableForm form.now }
    requires counted { length entries.now < 2 ^ 16 }
    requires there { items (meaning_in form.now) dir ≡ Some entries.now }
    ensures { AddsBuffered W.calls W.bytes_taken result writer.old writer.new pending.old pending.new
        (table_bytes (plan_in form.now) Order.Most 0 (meaning_in form.now) dir entries.now) }
{
    put_short(pending, writer, Order::Most, entries.len() as u16)?;
    put_running_entries(pending, writer, form, dir, entries)?;
    put_running_next(pending, writer, form, dir)
}

// Puts the header, which the main directory follows directly.
pub(crate) fn put_running_header<W: Sink>(
    pending: &mut Pending<'_>,
    writer: &mut W,
) -> Result<(), Failed>
    requires few { CanCountFailure (W.calls writer.old) }
    ensures bytes { (m : spec.Meaning) → PutsBuffered W.bytes_taken result writer.old writer.new pending.old pending.new
        (header (normal_plan m) Order.Most 0) }
    ensures count { Counts result (W.calls writer.old) (W.calls writer.new) }
{
    pending.put(writer, &[0x4D, 0x4D, 0, 0x2A, 0, 0, 0, 8])
}
