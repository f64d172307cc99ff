// Puts the parts of a normal form into the output buffer. Each is padded to an even number of bytes. TIFF 6.0
// section 2, "IFD Entry".
//
// A placed value is one of more than four bytes: it is at an offset, and not in its entry.
// `pending` is the output buffer, and `writer` gets its bytes when it is full. `Err` of a function
// here: a call of the writer failed, which has taken a prefix of the buffered bytes and of those
// that the function adds.
ghost use Rattle.std.specs.Prelude.{◌≡◌, Some, flat_map};
ghost use Rattle.px_bytes.specs.Devices.{CanCountFailure, device_of};
ghost use Rattle.px_bytes.specs.Waiting.{Waits, Adds, AddsBuffered};
ghost use Rattle.px_meaning.specs.Roles.{role};
ghost use Rattle.px_meaning.specs.Directory.{dirs};
ghost use Rattle.px_meaning.specs.Writable.{items};
ghost use Rattle.px_layout.specs.lemmas.EntryLaws.{Good};
ghost use Rattle.px_layout.specs.lemmas.ItemLaws.{Suits};
ghost use Rattle.px_layout.specs.calls.Items.{item_of, entry_of, CountsFit};
ghost use Rattle.px_layout.specs.Laid.{item_bytes, contents_of_dir, contents};
ghost use Rattle.px_layout.specs.Normal.{normal_exif, padded};
ghost use Rattle.px_layout.specs.calls.Given.{CountsAllStrips, field_bytes};
ghost use Rattle.px_layout.specs.calls.Forms.{meaning_in, plan_in, IsWritableForm};
ghost use Rattle.px_layout.specs.calls.Placed.{placed_bytes};
ghost use Rattle.px_field.specs.Values.{encoded};

use crate::entries::{Entries, entries_in, is_there};
use crate::form::NormalForm;
use crate::items::{Entry, Item};
use crate::put::{put_eight, put_padding, put_value};
use crate::put_running::{put_item_value, put_running_header, put_running_table};
use crate::put_thumb::put_thumb;
use px_bytes::{Failed, Order, Pending, Sink};
use px_field::Value;
use px_meaning::{Dir, needs_place};

// Puts the value of an entry, padded.
fn put_padded_item<W: Sink>(
    pending: &mut Pending<'_>,
    writer: &mut W,
    form: &NormalForm,
    dir: Dir,
    entry: &Entry,
) -> Result<(), Failed>
    requires few { CanCountFailure (W.calls writer.old) }
    requires form { IsWritableForm form.now }
    requires counted { CountsFit (item_of entry.now.item) }
    requires suits { Suits (role dir entry.now.tag) (item_of entry.now.item) }
    requires counts_all { CountsAllStrips (meaning_in form.now) (item_of entry.now.item) }
    ensures { AddsBuffered W.calls W.bytes_taken result writer.old writer.new pending.old pending.new
        (padded (item_bytes (plan_in form.now) Order.Most 0 (item_of entry.now.item))) }
{
    let item = entry.item;
    put_item_value(pending, writer, form, item)?;
    put_padding(pending, writer, item.size())
}

// Puts the value of a field, padded.
fn put_padded_field<W: Sink>(
    pending: &mut Pending<'_>,
    writer: &mut W,
    value: &Value,
) -> Result<(), Failed>
    requires few { CanCountFailure (W.calls writer.old) }
    ensures { AddsBuffered W.calls W.bytes_taken result writer.old writer.new pending.old pending.new
        (padded (encoded Order.Most value.now)) }
{
    put_value(pending, writer, Order::Most, value)?;
    put_padding(pending, writer, value.size())
}

// Puts the value of a field, padded. Puts nothing if the value is in its entry.
fn put_placed_field<W: Sink>(
    pending: &mut Pending<'_>,
    writer: &mut W,
    value: &Value,
) -> Result<(), Failed>
    requires few { CanCountFailure (W.calls writer.old) }
    ensures { AddsBuffered W.calls W.bytes_taken result writer.old writer.new pending.old pending.new (field_bytes value.now) }
{
    let size = value.size();
    if size == 8 {
        return put_eight(pending, writer, Order::Most, value);
    }
    if needs_place(size) {
        return put_padded_field(pending, writer, value);
    }
    Ok(())
}

// Puts the value of an entry, padded. Puts nothing if the value is in its entry.
fn put_any_placed<W: Sink>(
    pending: &mut Pending<'_>,
    writer: &mut W,
    form: &NormalForm,
    dir: Dir,
    entry: &Entry,
) -> Result<(), Failed>
    requires few { CanCountFailure (W.calls writer.old) }
    requires form { IsWritableForm form.now }
    requires counted { CountsFit (item_of entry.now.item) }
    requires suits { Suits (role dir entry.now.tag) (item_of entry.now.item) }
    requires counts_all { CountsAllStrips (meaning_in form.now) (item_of entry.now.item) }
    ensures { AddsBuffered W.calls W.bytes_taken result writer.old writer.new pending.old pending.new
        (placed_bytes (plan_in form.now) (entry_of entry.now)) }
{
    if needs_place(entry.item.size()) {
        return put_padded_item(pending, writer, form, dir, entry);
    }
    Ok(())
}

// Puts the placed value of an entry of any kind, padded, or nothing if the value is in the entry.
// Fields, which most entries are, are put without a check for the other kinds.
fn put_placed<W: Sink>(
    pending: &mut Pending<'_>,
    writer: &mut W,
    form: &NormalForm,
    dir: Dir,
    entry: &Entry,
) -> Result<(), Failed>
    requires few { CanCountFailure (W.calls writer.old) }
    requires form { IsWritableForm form.now }
    requires counted { CountsFit (item_of entry.now.item) }
    requires suits { Suits (role dir entry.now.tag) (item_of entry.now.item) }
    requires counts_all { CountsAllStrips (meaning_in form.now) (item_of entry.now.item) }
    ensures { AddsBuffered W.calls W.bytes_taken result writer.old writer.new pending.old pending.new
        (placed_bytes (plan_in form.now) (entry_of entry.now)) }
{
    match entry.item {
        Item::Field(value) => put_placed_field(pending, writer, value),
        _ => put_any_placed(pending, writer, form, dir, entry),
    }
}

// Puts the placed values of a directory, by ascending tag.
fn put_values<W: Sink>(
    pending: &mut Pending<'_>,
    writer: &mut W,
    form: &NormalForm,
    dir: Dir,
    entries: &Entries,
) -> Result<(), Failed>
    requires few { CanCountFailure (W.calls writer.old) }
    requires form { IsWritableForm form.now }
    requires good { Good dir entries.now }
    requires there { items (meaning_in form.now) dir ≡ Some entries.now }
    ensures { AddsBuffered W.calls W.bytes_taken result writer.old writer.new pending.old pending.new (flat_map
        (placed_bytes (plan_in form.now)) entries.now) }
{
    for i in 0..entries.len() {
        let entry = entries.at(i);
        put_placed(pending, writer, form, dir, &entry)?;
    }
    Ok(())
}

// Puts a directory: its table, then its placed values.
fn put_dir<W: Sink>(
    pending: &mut Pending<'_>,
    writer: &mut W,
    form: &NormalForm,
    dir: Dir,
    entries: &Entries,
) -> Result<(), Failed>
    requires few { CanCountFailure (W.calls writer.old) }
    requires form { IsWritableForm form.now }
    requires good { Good dir entries.now }
    requires there { items (meaning_in form.now) dir ≡ Some entries.now }
    ensures { AddsBuffered W.calls W.bytes_taken result writer.old writer.new pending.old pending.new (flat_map
        (λ c. padded c.1) (contents_of_dir
        (plan_in form.now) Order.Most 0 (meaning_in form.now) dir (Some entries.now))) }
{
    put_running_table(pending, writer, form, dir, entries)?;
    put_values(pending, writer, form, dir, entries)
}

// Puts a directory, if the meaning has it.
#[inline(always)]
fn put_any_dir<W: Sink>(
    pending: &mut Pending<'_>,
    writer: &mut W,
    form: &NormalForm,
    dir: Dir,
) -> Result<(), Failed>
    requires few { CanCountFailure (W.calls writer.old) }
    requires form { IsWritableForm form.now }
    ensures { AddsBuffered W.calls W.bytes_taken result writer.old writer.new pending.old pending.new (flat_map
        (λ c. padded c.1) (contents_of_dir (plan_in form.now) Order.Most 0 (meaning_in form.now) dir
        (items (meaning_in form.now) dir))) }
{
    if !is_there(form.m, dir) {
        return Ok(());
    }
    put_entries(pending, writer, form, dir)
}

// Puts a directory, if the meaning has it, with a look at its entries. Space for these is cleared
// first, which a directory that isn't there needn't pay for.
#[inline(never)]
fn put_entries<W: Sink>(
    pending: &mut Pending<'_>,
    writer: &mut W,
    form: &NormalForm,
    dir: Dir,
) -> Result<(), Failed>
    requires few { CanCountFailure (W.calls writer.old) }
    requires form { IsWritableForm form.now }
    ensures { AddsBuffered W.calls W.bytes_taken result writer.old writer.new pending.old pending.new (flat_map
        (λ c. padded c.1) (contents_of_dir (plan_in form.now) Order.Most 0 (meaning_in form.now) dir
        (items (meaning_in form.now) dir))) }
{
    match entries_in(form.m, dir) {
        Some(entries) => put_dir(pending, writer, form, dir, &entries),
        None => Ok(()),
    }
}

// Puts all directories of the meaning, each with its placed values.
fn put_dirs<W: Sink>(
    pending: &mut Pending<'_>,
    writer: &mut W,
    form: &NormalForm,
) -> Result<(), Failed>
    requires few { CanCountFailure (W.calls writer.old) }
    requires form { IsWritableForm form.now }
    ensures { AddsBuffered W.calls W.bytes_taken result writer.old writer.new pending.old pending.new (flat_map
        (λ c. padded c.1) (flat_map
        (λ d. contents_of_dir (plan_in form.now) Order.Most 0 (meaning_in form.now) d
        (items (meaning_in form.now) d)) dirs)) }
{
    for dir in Dir::ALL {
        put_any_dir(pending, writer, form, dir)?;
    }
    Ok(())
}

// Puts all that follows the header: the directories, then the thumbnail's bytes.
fn put_contents<W: Sink>(
    pending: &mut Pending<'_>,
    writer: &mut W,
    form: &NormalForm,
) -> Result<(), Failed>
    requires few { CanCountFailure (W.calls writer.old) }
    requires form { IsWritableForm form.now }
    ensures { AddsBuffered W.calls W.bytes_taken result writer.old writer.new pending.old pending.new (flat_map
        (λ c. padded c.1) (contents (plan_in form.now) Order.Most 0 (meaning_in form.now))) }
{
    put_dirs(pending, writer, form)?;
    put_thumb(pending, writer, &form.m.thumb)
}

// Puts the header and all that follows it.
#[tactic(auto, unfolding(crate::specs::Normal::normal_exif))]
fn put_block<W: Sink>(
    pending: &mut Pending<'_>,
    writer: &mut W,
    form: &NormalForm,
) -> Result<(), Failed>
    requires few { CanCountFailure (W.calls writer.old) }
    requires form { IsWritableForm form.now }
    ensures { AddsBuffered W.calls W.bytes_taken result writer.old writer.new pending.old pending.new (normal_exif (meaning_in form.now)) }
{
    put_running_header(pending, writer)?;
    put_contents(pending, writer, form)
}

/// Puts a normal form into the output buffer, after the bytes that are in it. If all of them fit into the buffer, they
/// wait there, and the writer isn't called. Allocates nothing. `Err`: they don't fit, and a call of the writer failed,
/// which ends the call; the writer has taken a prefix of the buffered bytes and the form.
pub fn put_normal<W: Sink>(
    pending: &mut Pending<'_>,
    writer: &mut W,
    form: &NormalForm,
) -> Result<(), Failed>
    requires few { CanCountFailure (W.calls writer.old) }
    requires form { IsWritableForm form.now }
    ensures bytes { Adds result (device_of W.calls W.bytes_taken writer.old writer.new) pending.old pending.new
        (normal_exif (meaning_in form.now)) }
    ensures waits { Waits result writer.old writer.new pending.old pending.new (normal_exif (meaning_in form.now)) }
{
    put_block(pending, writer, form)
}
