// Whether a meaning can be written.
ghost use Rattle.std.specs.Prelude.{◌≡◌, ◌<◌, ◌≤◌, ◌*◌, ◌^◌, IsTrue, ◌↔◌, IfSome, None, is_some, length, option_map, option_and_then};
ghost use Rattle.std.specs.List.{AllByRecursion};
ghost use Rattle.px_bytes.specs.Parts.{limit};
ghost use Rattle.px_bytes.specs.declared.Order.TheVariants.{Least};
ghost use Rattle.px_field.specs.Values.{form_in, encoded, IsValue};
ghost use Rattle.px_iim.specs.Group.{IsRecord};
ghost use Rattle.px_iim.specs.Record.{normal_iim};
ghost use Rattle.px_meaning.specs.Roles.{role, record_tag};
ghost use Rattle.px_meaning.specs.Entry.{record_in};
ghost use Rattle.px_meaning.specs.Directory.{dirs};
ghost use Rattle.px_meaning.specs.Writable.{Allows, AreWritableFields, IsWritableExif, IsWritableThumb, IsWritable, IsBytes, items};
ghost use Rattle.px_meaning.specs.Writable.{field_items, main_items, exif_items, thumb_items};
ghost use Rattle.px_meaning.specs.calls.Seen.{exif_of, thumb_of, meaning_of};

use crate::fields::Fields;
use crate::meanings::{ExifPart, Meaning, Thumb};
use crate::roles::{Dir, Role, role_of};
use crate::strips::Strips;
use crate::tags::IPTC_NAA;
use px_bytes::LIMIT;
use px_field::{Form, Kind, Value};
use px_iim::{Iim, accepts, normal_len};

/// Whether a meaning can be written. The conditions are: every tag is plain or widened in its directory; a
/// plain tag's value isn't `Whole`, and a widened tag's isn't SHORT or LONG; no field at 0x83BB of the main
/// directory has the bytes of a record; a record has no field at its tag, isn't empty, and has a normal form
/// of at most `2 * LIMIT` bytes; every directory has an entry; the JPEG, each strip and the number of strips
/// are at most `LIMIT`. It allocates nothing.
pub fn is_writable(m: &Meaning) -> bool
    ensures { IsTrue result ↔ IsWritable (meaning_of m.now) }
{
    fits_fields(Dir::Main, &m.main)
        && fits_record(&m.iptc)
        && is_alone(m)
        && fits_exif(&m.exif)
        && fits_optional(Dir::Gps, &m.gps)
        && fits_thumb(&m.thumb)
        && are_filled(m)
}

/// Whether bytes of a type are a record.
pub fn is_record_in(form: Form, raw: &[u8]) -> bool
    ensures { result ≡ is_some (record_in form raw.now) }
{
    match form {
        Form::Byte | Form::Undefined => accepts(raw),
        _ => false,
    }
}

// Whether a value at the record's tag has the bytes of a record.
fn is_record(value: &Value) -> bool
    ensures { IsTrue result ↔ (record_in (form_in value.now.kind) (encoded Least value.now) ≡ None → ⊥) }
{
    let Some(bytes) = value.bytes() else {
        return false;
    };
    match value.kind() {
        Kind::Of(form) => is_record_in(form, bytes),
        Kind::Whole => false,
    }
}

// Whether a field may have this tag and value.
fn is_allowed(dir: Dir, tag: u16, value: &Value) -> bool
    ensures allowed { IsTrue result ↔ Allows (role dir tag) value.now }
    ensures tag { tag < 2 ^ 16 }
    ensures value { IsValue value.now }
{
    let kind = value.kind();
    match role_of(dir, tag) {
        Role::Plain => kind != Kind::Whole,
        Role::Widened => kind != Kind::Of(Form::Short) && kind != Kind::Of(Form::Long),
        Role::Record => kind != Kind::Whole && !is_record(value),
        _ => false,
    }
}

// Whether a directory may have these fields.
fn fits_fields(dir: Dir, fields: &Fields) -> bool
    ensures { IsTrue result ↔ AreWritableFields dir fields.now }
{
    for i in 0..fields.len() {
        let (tag, value) = fields.at(i);
        if !is_allowed(dir, tag, value) {
            return false;
        }
    }
    true
}

// Whether a directory may have these fields. True without the directory.
fn fits_optional(dir: Dir, fields: &Option<Fields>) -> bool
    ensures { IsTrue result ↔ IfSome fields.now (AreWritableFields dir) }
{
    match fields {
        Some(fields) => fits_fields(dir, fields),
        None => true,
    }
}

// Whether the record can be written: it has a DataSet, and its normal form is at most twice as long
// as the longest block. True without a record.
fn fits_record(iim: &Option<Iim>) -> bool
    ensures { IsTrue result ↔ IfSome iim.now (λ i. IsRecord i × (length (normal_iim i) ≤ 2 * limit)) }
{
    match iim {
        Some(iim) => iim.groups() > 0 && normal_len(iim).is_some(),
        None => true,
    }
}

// Whether the record, if there is one, has no field at its tag.
fn is_alone(m: &Meaning) -> bool
    ensures { IsTrue result ↔ IfSome m.now.iptc (λ i. AllByRecursion (λ p. (p.0 ≡ record_tag) → ⊥) m.now.main) }
{
    match m.iptc {
        Some(_) => m.main.get(IPTC_NAA).is_none(),
        None => true,
    }
}

// Whether the Exif directory and the Interoperability directory may have their fields. True without
// an Exif directory.
fn fits_exif(part: &Option<ExifPart>) -> bool
    ensures { IsTrue result ↔ IfSome (option_map exif_of part.now) IsWritableExif }
{
    match part {
        Some(part) => {
            fits_fields(Dir::Exif, &part.fields) && fits_optional(Dir::Interop, &part.interop)
        }
        None => true,
    }
}

// Whether a part of the thumbnail is no longer than the longest block.
fn fits_bytes(bytes: &[u8]) -> bool
    ensures { IsTrue result ↔ IsBytes bytes.now }
{
    bytes.len() <= LIMIT as usize
}

// Whether the JPEG of the thumbnail is no longer than the longest block. True without a JPEG.
fn fits_jpeg(jpeg: Option<&[u8]>) -> bool
    ensures { IsTrue result ↔ IfSome (option_map (λ x. x.now) jpeg.entry) IsBytes }
{
    match jpeg {
        Some(jpeg) => fits_bytes(jpeg),
        None => true,
    }
}

// Whether neither the number of strips nor the length of one is above `LIMIT`, so that each number
// fits in the LONG of an entry.
fn fits_strips(strips: &Strips) -> bool
    ensures { IsTrue result ↔ ((length strips.now ≤ limit) × AllByRecursion IsBytes strips.now) }
{
    if strips.len() > LIMIT as usize {
        return false;
    }
    for i in 0..strips.len() {
        if !fits_bytes(strips.at(i)) {
            return false;
        }
    }
    true
}

// Whether neither the number of strips nor the length of one is above `LIMIT`. True if the
// thumbnail has no strips.
fn fits_optional_strips(strips: &Option<Strips>) -> bool
    ensures { IsTrue result ↔ IfSome strips.now (λ s. (length s ≤ limit) × AllByRecursion IsBytes s) }
{
    match strips {
        Some(strips) => fits_strips(strips),
        None => true,
    }
}

// Whether the thumbnail directory may have its fields, and its JPEG and strips are short enough.
// True without a thumbnail.
fn fits_thumb(thumb: &Option<Thumb>) -> bool
    ensures { IsTrue result ↔ IfSome (option_map thumb_of thumb.now) IsWritableThumb }
{
    match thumb {
        Some(thumb) => {
            fits_fields(Dir::Thumb, &thumb.fields)
                && fits_jpeg(thumb.jpeg)
                && fits_optional_strips(&thumb.strips)
        }
        None => true,
    }
}

// Whether the main directory has an entry: a field, a pointer, or the record.
#[tactic(auto, using(crate::proofs::writable::ItemCounts::main_count))]
fn is_main_filled(m: &Meaning) -> bool
    ensures { IsTrue result ↔ (1 ≤ length (main_items (meaning_of m.now))) }
{
    if m.exif.is_some() {
        return true;
    }
    if m.gps.is_some() {
        return true;
    }
    if m.iptc.is_some() {
        return true;
    }
    m.main.len() > 0
}

// Whether a directory that only has fields is missing or has an entry.
fn is_filled(fields: &Option<Fields>) -> bool
    ensures { IsTrue result ↔ IfSome (option_map field_items fields.now) (λ xs. 1 ≤ length xs) }
{
    match fields {
        Some(fields) => fields.len() > 0,
        None => true,
    }
}

// Whether the Exif directory is missing or has an entry.
#[tactic(auto, using(crate::proofs::writable::ItemCounts::exif_count))]
fn is_exif_filled(part: &Option<ExifPart>) -> bool
    ensures { IsTrue result ↔ IfSome (option_map exif_items (option_map exif_of part.now)) (λ xs. 1 ≤ length xs) }
{
    match part {
        Some(part) => {
            if part.interop.is_some() {
                return true;
            }
            part.fields.len() > 0
        }
        None => true,
    }
}

// Whether the Interoperability directory is missing or has an entry.
fn is_interop_filled(part: &Option<ExifPart>) -> bool
    ensures { IsTrue result ↔ IfSome (option_and_then (λ e. option_map field_items e.interop) (option_map exif_of part.now))
        (λ xs. 1 ≤ length xs) }
{
    match part {
        Some(part) => is_filled(&part.interop),
        None => true,
    }
}

// Whether the thumbnail directory is missing or has an entry.
#[tactic(auto, using(crate::proofs::writable::ItemCounts::thumb_count))]
fn is_thumb_filled(thumb: &Option<Thumb>) -> bool
    ensures { IsTrue result ↔ IfSome (option_map thumb_items (option_map thumb_of thumb.now)) (λ xs. 1 ≤ length xs) }
{
    match thumb {
        Some(thumb) => {
            if thumb.jpeg.is_some() {
                return true;
            }
            if thumb.strips.is_some() {
                return true;
            }
            thumb.fields.len() > 0
        }
        None => true,
    }
}

// Whether each directory has an entry.
#[tactic(auto, unfolding(crate::specs::Writable::items))]
fn are_filled(m: &Meaning) -> bool
    ensures { IsTrue result ↔ AllByRecursion (λ d. IfSome (items (meaning_of m.now) d) (λ xs. 1 ≤ length xs)) dirs }
{
    if !is_main_filled(m) {
        return false;
    }
    if !is_exif_filled(&m.exif) {
        return false;
    }
    if !is_interop_filled(&m.exif) {
        return false;
    }
    if !is_filled(&m.gps) {
        return false;
    }
    is_thumb_filled(&m.thumb)
}
