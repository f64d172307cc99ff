// Whether two meanings are the same.
ghost use Rattle.std.specs.Prelude.{◌≡◌, ◌<◌, IsTrue, ◌↔◌, option_map, length, slice_get};
ghost use Rattle.px_meaning.specs.calls.Seen.{exif_of, thumb_of, meaning_of};

use crate::fields::Fields;
use crate::meanings::{ExifPart, Meaning, Thumb};
use crate::strips::Strips;
use px_field::same_value;
use px_iim::{Iim, same_iim};

/// Whether two meanings are the same: the same directories with the same fields, the same record, the same
/// JPEG and the same strips. It allocates nothing.
pub fn same_meaning(a: &Meaning, b: &Meaning) -> bool
    ensures { IsTrue result ↔ (meaning_of a.now ≡ meaning_of b.now) }
{
    same_fields(&a.main, &b.main)
        && same_record(&a.iptc, &b.iptc)
        && same_exif(&a.exif, &b.exif)
        && same_optional_fields(&a.gps, &b.gps)
        && same_thumb(&a.thumb, &b.thumb)
}

// Whether the fields at index `i` of two lists have the same tag and the same value.
fn same_field(a: &Fields, b: &Fields, i: usize) -> bool
    requires here { i < length a.now }
    requires there { i < length b.now }
    ensures { IsTrue result ↔ (slice_get a.now i ≡ slice_get b.now i) }
{
    let (tag, value) = a.at(i);
    let (other_tag, other_value) = b.at(i);
    tag == other_tag && same_value(value, other_value)
}

// Whether two directories have the same fields. Both lists ascend by tag, so one walk over both is
// enough.
fn same_fields(a: &Fields, b: &Fields) -> bool
    ensures { IsTrue result ↔ (a.now ≡ b.now) }
{
    if a.len() != b.len() {
        return false;
    }
    for i in 0..a.len() {
        if !same_field(a, b, i) {
            return false;
        }
    }
    true
}

// Whether two directories that may be missing are the same: both are missing, or both have the same
// fields.
fn same_optional_fields(a: &Option<Fields>, b: &Option<Fields>) -> bool
    ensures { IsTrue result ↔ (a.now ≡ b.now) }
{
    match (a, b) {
        (Some(a), Some(b)) => same_fields(a, b),
        (None, None) => true,
        _ => false,
    }
}

// Whether both meanings lack a record of IIM, or both have the same one.
fn same_record(a: &Option<Iim>, b: &Option<Iim>) -> bool
    ensures { IsTrue result ↔ (a.now ≡ b.now) }
{
    match (a, b) {
        (Some(a), Some(b)) => same_iim(a, b),
        (None, None) => true,
        _ => false,
    }
}

// Whether both meanings lack an Exif directory, or both have one with the same fields and the same
// Interoperability directory.
fn same_exif(a: &Option<ExifPart>, b: &Option<ExifPart>) -> bool
    ensures { IsTrue result ↔ (option_map exif_of a.now ≡ option_map exif_of b.now) }
{
    match (a, b) {
        (Some(a), Some(b)) => {
            same_fields(&a.fields, &b.fields) && same_optional_fields(&a.interop, &b.interop)
        }
        (None, None) => true,
        _ => false,
    }
}

// Whether both thumbnails lack a JPEG, or both have the same one, byte for byte.
fn same_jpeg(a: Option<&[u8]>, b: Option<&[u8]>) -> bool
    ensures { IsTrue result ↔ (option_map (λ x. x.now) a.entry ≡ option_map (λ x. x.now) b.entry) }
{
    match (a, b) {
        (Some(a), Some(b)) => a == b,
        (None, None) => true,
        _ => false,
    }
}

// Whether both thumbnails lack strips, or both have the same ones in the same order.
fn same_strips(a: &Option<Strips>, b: &Option<Strips>) -> bool
    ensures { IsTrue result ↔ (a.now ≡ b.now) }
{
    match (a, b) {
        (Some(a), Some(b)) => same_lists(a, b),
        (None, None) => true,
        _ => false,
    }
}

// Whether two lists of strips have the same number of strips, and the same bytes in each.
fn same_lists(a: &Strips, b: &Strips) -> bool
    ensures { IsTrue result ↔ (a.now ≡ b.now) }
{
    if a.len() != b.len() {
        return false;
    }
    for i in 0..a.len() {
        if a.at(i) != b.at(i) {
            return false;
        }
    }
    true
}

// Whether both meanings lack a thumbnail, or both have one with the same fields, JPEG and strips.
fn same_thumb(a: &Option<Thumb>, b: &Option<Thumb>) -> bool
    ensures { IsTrue result ↔ (option_map thumb_of a.now ≡ option_map thumb_of b.now) }
{
    match (a, b) {
        (Some(a), Some(b)) => {
            same_fields(&a.fields, &b.fields)
                && same_jpeg(a.jpeg, b.jpeg)
                && same_strips(&a.strips, &b.strips)
        }
        (None, None) => true,
        _ => false,
    }
}
