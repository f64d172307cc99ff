// The entries of a table that have a special use, kept while the table is judged. CIPA DC-008 4.6.3
// (pointers) and 4.5.5 (the thumbnail's bytes); TIFF 6.0 section 8, "StripOffsets" and "StripByteCounts".
ghost use Rattle.std.specs.Prelude.{◌≡◌, ◌==◌, ◌&&◌, true, None, option_map};
ghost use Rattle.px_meaning.specs.calls.Used.{HasNoUse};
ghost use Rattle.px_tree.specs.calls.Uses.{Keeps, NoUses, link_as, found_as};

use crate::entries::{Head, Shape};
use crate::links::{Found, Link};
use px_meaning::tags::{
    EXIF_IFD_POINTER, GPS_INFO_IFD_POINTER, INTEROPERABILITY_IFD_POINTER, IPTC_NAA,
    JPEG_INTERCHANGE_FORMAT, JPEG_INTERCHANGE_FORMAT_LENGTH, STRIP_BYTE_COUNTS, STRIP_OFFSETS,
};

// For each tag with a special use, its entry if the table has one: the pointers, the record, and the entries
// of the thumbnail's bytes.
#[derive(Clone, Copy)]
pub struct Uses {
    pub exif: Option<Found>,
    pub gps: Option<Found>,
    pub interop: Option<Found>,
    pub iptc: Option<Found>,
    pub jpeg_offset: Option<Found>,
    pub jpeg_length: Option<Found>,
    pub strip_offsets: Option<Found>,
    pub strip_lengths: Option<Found>,
}

// No entry is kept for any of the eight special uses: three pointers, the record, and four of the thumbnail.
pub fn no_uses() -> Uses
    ensures { NoUses result }
{
    Uses {
        exif: None,
        gps: None,
        interop: None,
        iptc: None,
        jpeg_offset: None,
        jpeg_length: None,
        strip_offsets: None,
        strip_lengths: None,
    }
}

// Whether an entry has a pointer's type and count.
fn is_one_long(head: Head) -> bool
    ensures { result ≡ ((head.code == 4) && (head.count == 1)) }
{
    head.code == 4 && head.count == 1
}

// Keeps the entry at an offset for the special use of its tag, in place of what was kept for that: as the pointer to
// the Exif, GPS or Interoperability directory, if it is a LONG with a count of 1; as the record; or as the offset or
// length of the JPEG or of the strips. What is kept for the other uses stays; with no such tag, all does.
#[tactic(auto, using(crate::proofs::reading::NoUse::keeps_none))]
pub fn keep_use(uses: &mut Uses, shape: Shape, place: u32)
    requires { shape.is_common ≡ true → HasNoUse shape.head.tag }
    ensures { Keeps uses.old uses.new (found_as shape.head place) }
{
    if shape.is_common {
        return;
    }
    keep_any(uses, shape.head, place);
}

// Keeps the entry for the special use of its tag as `keep_use` does, without its shortcut for tags
// that have none.
fn keep_any(uses: &mut Uses, head: Head, place: u32)
    ensures { Keeps uses.old uses.new (found_as head place) }
{
    let found = Some(Found { head, place });
    match head.tag {
        EXIF_IFD_POINTER => {
            if is_one_long(head) {
                uses.exif = found;
            }
        }
        GPS_INFO_IFD_POINTER => {
            if is_one_long(head) {
                uses.gps = found;
            }
        }
        INTEROPERABILITY_IFD_POINTER => {
            if is_one_long(head) {
                uses.interop = found;
            }
        }
        IPTC_NAA => uses.iptc = found,
        JPEG_INTERCHANGE_FORMAT => uses.jpeg_offset = found,
        JPEG_INTERCHANGE_FORMAT_LENGTH => uses.jpeg_length = found,
        STRIP_OFFSETS => uses.strip_offsets = found,
        STRIP_BYTE_COUNTS => uses.strip_lengths = found,
        _ => {}
    }
}

// The pointer in an entry: the offset that it leads to, and where the entry is. `None` without an entry.
pub fn link_of(found: Option<Found>) -> Option<Link>
    ensures { result ≡ option_map link_as found }
{
    match found {
        Some(found) => Some(Link {
            at: found.head.offset,
            place: found.place,
        }),
        None => None,
    }
}
