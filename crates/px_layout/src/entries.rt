// The entries of a directory by ascending tag, without a list of them: its fields, and at most four further
// entries between the fields. TIFF 6.0 section 2, "Sort Order".
ghost use Rattle.std.specs.Prelude.{◌≡◌, ◌<◌, ◌≤◌, ◌+◌, ◌*◌, ◌^◌, ℕ, List, length, map, slice_get, option_map, option_and_then, is_some};
ghost use Rattle.std.specs.Prelude.{Option, Some, None, IfSome, true};
ghost use Rattle.std.specs.List.{AllByRecursion};
ghost use Rattle.px_layout.specs.declared.entries.Extra.{Extra as CodeExtra};
ghost use Rattle.px_bytes.specs.Parts.{limit};
ghost use Rattle.px_meaning.specs.Iim.{normal_iim};
ghost use Rattle.px_meaning.specs.Writable as spec;
ghost use Rattle.px_meaning.specs.Writable.{IsWritable, IsWritableThumb, IsBytes, AtJpeg, JpegSize, AtStrips, StripSizes, Iptc, items};
ghost use Rattle.px_meaning.specs.Writable.{link, put_some, main_items, exif_items, thumb_items, field_items};
ghost use Rattle.px_meaning.specs.calls.Seen.{exif_of, thumb_of, meaning_of};
ghost use Rattle.px_layout.specs.calls.Items.{item_of, entry_of, CountsFit, rank};
ghost use Rattle.px_layout.specs.calls.Layers.{IsAtRank, IsEntryAt, FindsEntryAt, with_extra, NoneBefore};

use crate::items::{Entry, Item};
use px_iim::Iim;
use px_meaning::{Dir, ExifPart, Fields, Meaning, Strips, Thumb};
use std::marker::Model;

// An entry that is no field. `place` is the number of entries before it.
#[derive(Clone, Copy)]
struct Extra<'m, 'a> {
    place: usize,
    tag: u16,
    item: Item<'m, 'a>,
}

// What is at an index: an entry that is no field, or the index among the entries without it.
enum Step<'m, 'a> {
    Here(u16, Item<'m, 'a>),
    Under(usize),
}

/// The entries of a directory by ascending tag. Allocates nothing. Finding an entry takes a few comparisons,
/// or one if it comes before every entry that is no field.
#[derive(Drop)]
pub struct Entries<'m, 'a> {
    fields: &'m Fields<'a>,
    // Every entry that is no field is at this index or after it.
    clear: usize,
    first: Option<Extra<'m, 'a>>,
    second: Option<Extra<'m, 'a>>,
    third: Option<Extra<'m, 'a>>,
    fourth: Option<Extra<'m, 'a>>,
}

impl<'m, 'a> Model for Entries<'m, 'a> {
    ghost use Rattle.std.specs.Prelude.{List, ℕ};
    ghost use Rattle.px_meaning.specs.Writable as spec;
    ghost use Rattle.px_layout.specs.calls.Layers.{entries_of, AreLayers};

    ghost Value = { List (ℕ × spec.Item) };

    ghost view = { entries_of };

    ghost invariant = { AreLayers };
}

// What is at index `i` of a list of entries into which the further entry `extra`, if there is one,
// is inserted: that entry, or the index in the list without it.
fn pass<'m, 'a>(extra: &Option<Extra<'m, 'a>>, i: usize) -> Step<'m, 'a>
    ensures { (xs : List (ℕ × spec.Item)) → IsAtRank extra.now xs → i < length (with_extra extra.now xs) → IsEntryAt result extra.now xs i }
{
    let Some(extra) = extra else {
        return Step::Under(i);
    };
    if i < extra.place {
        return Step::Under(i);
    }
    if i == extra.place {
        return Step::Here(extra.tag, extra.item);
    }
    Step::Under(i - 1)
}

// What is at index `i` of a list of entries into which two further entries are inserted, as far as there are
// these, `lower` and then `upper`: one of the two, or the index in the list without them.
fn pass_both<'m, 'a>(
    upper: &Option<Extra<'m, 'a>>,
    lower: &Option<Extra<'m, 'a>>,
    i: usize,
) -> Step<'m, 'a>
    ensures { (xs : List (ℕ × spec.Item)) → IsAtRank lower.now xs → IsAtRank upper.now (with_extra lower.now xs)
        → i < length (with_extra upper.now (with_extra lower.now xs))
        → FindsEntryAt result (with_extra upper.now (with_extra lower.now xs)) xs i }
{
    match pass(upper, i) {
        Step::Here(tag, item) => Step::Here(tag, item),
        Step::Under(i) => pass(lower, i),
    }
}

// How many entries a further entry adds: one, or none if there is no such entry.
#[tactic(auto, using(crate::proofs::plans::EntryLists::length_over))]
fn number(extra: &Option<Extra>) -> usize
    ensures added { (xs : List (ℕ × spec.Item)) → length (with_extra extra.now xs) ≡ length xs + result }
    ensures bound { result ≤ 1 }
{
    match extra {
        Some(_) => 1,
        None => 0,
    }
}

// How many entries a further entry adds before the first entry with a greater tag than `tag`: one
// if its own tag is at most that, and otherwise none.
fn adds(extra: &Option<Extra>, tag: u16) -> usize
    ensures added { (xs : List (ℕ × spec.Item)) → rank tag (with_extra extra.now xs) ≡ rank tag xs + result }
    ensures bound { result ≤ 1 }
{
    let Some(extra) = extra else {
        return 0;
    };
    if extra.tag <= tag {
        return 1;
    }
    0
}

// How many fields come before the first one with a greater tag, found by binary search.
fn fields_before(fields: &Fields, tag: u16) -> usize
    ensures rank { result ≡ rank tag (field_items fields.now) }
    ensures bound { result ≤ length fields.now }
{
    let mut low = 0;
    let mut high = fields.len();
    while low < high {
        let middle = low + (high - low) / 2;
        let (here, _) = fields.at(middle);
        if here <= tag {
            low = middle + 1;
        } else {
            high = middle;
        }
    }
    low
}

// The smaller of the index `most` and the index of a further entry: no further entry is before it.
fn clear_of(extra: &Option<Extra>, most: usize) -> usize
    ensures clear { NoneBefore result extra.now }
    ensures others { (e : Option CodeExtra) → NoneBefore most e → NoneBefore result e }
{
    match extra {
        Some(extra) => extra.place.min(most),
        None => most,
    }
}

impl<'m, 'a> Entries<'m, 'a> {
    // The fields, with each further entry inserted among the fields and the further entries before
    // it by ascending tag.
    fn layered(
        fields: &'m Fields<'a>,
        first: Option<Extra<'m, 'a>>,
        second: Option<Extra<'m, 'a>>,
        third: Option<Extra<'m, 'a>>,
        fourth: Option<Extra<'m, 'a>>,
    ) -> Entries<'m, 'a>
        requires few { length fields.now < 2 ^ 16 }
        requires first { IsAtRank first (field_items fields.now) }
        requires second { IsAtRank second (with_extra first (field_items fields.now)) }
        requires third { IsAtRank third (with_extra second (with_extra first (field_items fields.now))) }
        requires fourth { IsAtRank fourth (with_extra third (with_extra second (with_extra first (field_items fields.now)))) }
        ensures { result ≡ with_extra fourth.entry (with_extra third.entry (with_extra second.entry (with_extra first.entry (field_items
            fields.now)))) }
    {
        let clear = clear_of(&first, fields.len());
        let clear = clear_of(&second, clear);
        let clear = clear_of(&third, clear);
        let clear = clear_of(&fourth, clear);
        Entries {
            fields,
            clear,
            first,
            second,
            third,
            fourth,
        }
    }

    /// The number of entries.
    pub fn len(&self) -> usize
        ensures { result ≡ length self.now }
    {
        self.fields.len()
            + number(&self.first)
            + number(&self.second)
            + number(&self.third)
            + number(&self.fourth)
    }

    /// The entry at index `i`, counted from 0, with its tag. Its counts and lengths fit into four bytes.
    pub fn at(&self, i: usize) -> Entry<'m, 'a>
        requires { i < length self.now }
        ensures entry { slice_get self.now i ≡ Some (entry_of result) }
        ensures counted { CountsFit (item_of result.item) }
    {
        if i < self.clear {
            let (tag, value) = self.fields.at(i);
            return Entry {
                tag,
                item: Item::Field(value),
            };
        }
        self.at_between(i)
    }

    // The entry at any index, before or after an entry that is no field.
    fn at_between(&self, i: usize) -> Entry<'m, 'a>
        requires { i < length self.now }
        ensures entry { slice_get self.now i ≡ Some (entry_of result) }
        ensures counted { CountsFit (item_of result.item) }
    {
        let i = match pass_both(&self.fourth, &self.third, i) {
            Step::Here(tag, item) => return Entry { tag, item },
            Step::Under(i) => i,
        };
        let i = match pass_both(&self.second, &self.first, i) {
            Step::Here(tag, item) => return Entry { tag, item },
            Step::Under(i) => i,
        };
        let (tag, value) = self.fields.at(i);
        Entry {
            tag,
            item: Item::Field(value),
        }
    }
}

// ---- further entries, each inserted among the fields and the further entries before it, if there is one

// The further entry with this tag and item, and how many fields come before it. None: the directory
// has no such item.
fn first_extra<'m, 'a>(
    fields: &Fields,
    tag: u16,
    item: Option<Item<'m, 'a>>,
) -> Option<Extra<'m, 'a>>
    requires { IfSome (option_map item_of item) CountsFit }
    ensures at_rank { IsAtRank result (field_items fields.now) }
    ensures with_extra { with_extra result (field_items fields.now)
        ≡ put_some tag (option_map item_of item.entry) (field_items fields.now) }
{
    match item {
        Some(item) => Some(Extra {
            place: fields_before(fields, tag),
            tag,
            item,
        }),
        None => None,
    }
}

// The further entry with this tag and item, with its index among the fields and the entry `first`,
// if there is that. None: the directory has no such item.
fn second_extra<'m, 'a>(
    fields: &Fields,
    first: &Option<Extra>,
    tag: u16,
    item: Option<Item<'m, 'a>>,
) -> Option<Extra<'m, 'a>>
    requires few { length fields.now < 2 ^ 16 }
    requires counted { IfSome (option_map item_of item) CountsFit }
    ensures at_rank { IsAtRank result (with_extra first.now (field_items fields.now)) }
    ensures with_extra { with_extra result (with_extra first.now (field_items fields.now))
        ≡ put_some tag (option_map item_of item.entry) (with_extra first.now (field_items fields.now)) }
{
    match item {
        Some(item) => Some(Extra {
            place: fields_before(fields, tag) + adds(first, tag),
            tag,
            item,
        }),
        None => None,
    }
}

// The further entry with this tag and item, with its index among the fields and the entries `first`
// and `second`, if there are these. None: the directory has no such item.
fn third_extra<'m, 'a>(
    fields: &Fields,
    first: &Option<Extra>,
    second: &Option<Extra>,
    tag: u16,
    item: Option<Item<'m, 'a>>,
) -> Option<Extra<'m, 'a>>
    requires few { length fields.now < 2 ^ 16 }
    requires counted { IfSome (option_map item_of item) CountsFit }
    ensures at_rank { IsAtRank result (with_extra second.now (with_extra first.now (field_items fields.now))) }
    ensures with_extra { with_extra result (with_extra second.now (with_extra first.now (field_items fields.now)))
        ≡ put_some tag (option_map item_of item.entry) (with_extra second.now (with_extra first.now (field_items fields.now))) }
{
    match item {
        Some(item) => Some(Extra {
            place: fields_before(fields, tag) + adds(first, tag) + adds(second, tag),
            tag,
            item,
        }),
        None => None,
    }
}

// The entry of the JPEG's offset (0201), with its index among the fields and the other three
// further entries. None: there is no JPEG.
fn jpeg_extra<'m, 'a>(
    fields: &Fields,
    first: &Option<Extra>,
    second: &Option<Extra>,
    third: &Option<Extra>,
    jpeg: Option<&[u8]>,
) -> Option<Extra<'m, 'a>>
    requires { length fields.now < 2 ^ 16 }
    ensures at_rank { IsAtRank result (with_extra third.now (with_extra second.now (with_extra first.now (field_items fields.now)))) }
    ensures with_extra { with_extra result (with_extra third.now (with_extra second.now (with_extra first.now (field_items fields.now))))
        ≡ put_some 0x0201 (option_map (λ _. AtJpeg) (option_map (λ x. x.now) jpeg.entry))
        (with_extra third.now (with_extra second.now (with_extra first.now (field_items fields.now)))) }
{
    let tag = 0x0201;
    match jpeg {
        Some(_) => Some(Extra {
            place: fields_before(fields, tag)
                + adds(first, tag)
                + adds(second, tag)
                + adds(third, tag),
            tag,
            item: Item::JpegOffset,
        }),
        None => None,
    }
}

// ---- what the entries mean

// The item of the record. None: the meaning has no record.
fn record_item<'m, 'a>(iim: &'m Option<Iim<'a>>) -> Option<Item<'m, 'a>>
    requires { IfSome iim.now (λ i. length (normal_iim i) ≤ 2 * limit) }
    ensures item { option_map item_of result ≡ option_map Iptc iim.now }
    ensures counted { IfSome (option_map item_of result) CountsFit }
{
    match iim {
        Some(iim) => Some(Item::Record(iim)),
        None => None,
    }
}

// The pointer to the Exif directory, if there is that directory.
fn exif_link<'m, 'a>(part: &Option<ExifPart>) -> Option<Item<'m, 'a>>
    ensures { option_map item_of result ≡ link Dir.Exif (option_map exif_of part.now) }
{
    match part {
        Some(_) => Some(Item::Link(Dir::Exif)),
        None => None,
    }
}

// A pointer to a directory that has only fields, if there is that directory.
fn fields_link<'m, 'a>(dir: Dir, fields: &Option<Fields>) -> Option<Item<'m, 'a>>
    ensures { option_map item_of result ≡ link dir fields.now }
{
    match fields {
        Some(_) => Some(Item::Link(dir)),
        None => None,
    }
}

// The item of JPEGInterchangeFormatLength: the length of the thumbnail's JPEG in bytes. None: there
// is no JPEG.
fn jpeg_length<'m, 'a>(jpeg: Option<&[u8]>) -> Option<Item<'m, 'a>>
    requires { IfSome (option_map (λ x. x.now) jpeg) IsBytes }
    ensures item { option_map item_of result ≡ option_map (λ x. JpegSize (length x)) (option_map (λ x. x.now) jpeg.entry) }
    ensures counted { IfSome (option_map item_of result) CountsFit }
{
    match jpeg {
        Some(jpeg) => Some(Item::JpegLength(jpeg.len() as u32)),
        None => None,
    }
}

// The item of StripOffsets: an offset for each of the thumbnail's strips. None: there are no
// strips.
fn strip_offsets<'m, 'a>(strips: &'m Option<Strips<'a>>) -> Option<Item<'m, 'a>>
    requires { IfSome strips.now (λ s. length s ≤ limit) }
    ensures item { option_map item_of result ≡ option_map (λ s. AtStrips (length s)) strips.now }
    ensures counted { IfSome (option_map item_of result) CountsFit }
{
    match strips {
        Some(strips) => Some(Item::StripOffsets(strips)),
        None => None,
    }
}

// The item of StripByteCounts: the length in bytes of each of the thumbnail's strips. None: there
// are no strips.
#[tactic(auto, using(crate::proofs::plans::EntryLists::lengths_counted))]
fn strip_lengths<'m, 'a>(strips: &'m Option<Strips<'a>>) -> Option<Item<'m, 'a>>
    requires { IfSome strips.now (λ s. (length s ≤ limit) × AllByRecursion IsBytes s) }
    ensures item { option_map item_of result ≡ option_map (λ s. StripSizes (map (λ x. length x) s)) strips.now }
    ensures counted { IfSome (option_map item_of result) CountsFit }
{
    match strips {
        Some(strips) => Some(Item::StripLengths(strips)),
        None => None,
    }
}

// The entries of the main directory: its fields, the record of IPTC-NAA (83BB), and the pointers to
// the GPS directory (8825) and the Exif directory (8769).
fn main_entries<'m, 'a>(m: &'m Meaning<'a>) -> Entries<'m, 'a>
    requires few { length m.now.main < 2 ^ 16 }
    requires counted { IfSome m.now.iptc (λ i. length (normal_iim i) ≤ 2 * limit) }
    ensures { result ≡ main_items (meaning_of m.now) }
{
    let fields = &m.main;
    let iptc = first_extra(fields, 0x83BB, record_item(&m.iptc));
    let gps = second_extra(fields, &iptc, 0x8825, fields_link(Dir::Gps, &m.gps));
    let exif = third_extra(fields, &iptc, &gps, 0x8769, exif_link(&m.exif));
    Entries::layered(fields, iptc, gps, exif, None)
}

// The entries of the Exif directory: its fields, and the pointer to the Interoperability directory
// (A005).
fn exif_part_entries<'m, 'a>(part: &'m ExifPart<'a>) -> Entries<'m, 'a>
    requires { length part.now.fields < 2 ^ 16 }
    ensures { result ≡ exif_items (exif_of part.now) }
{
    let interop = first_extra(
        &part.fields,
        0xA005,
        fields_link(Dir::Interop, &part.interop),
    );
    Entries::layered(&part.fields, interop, None, None, None)
}

// The entries of the thumbnail directory: its fields, StripByteCounts (0117), StripOffsets (0111),
// and JPEGInterchangeFormatLength (0202) and JPEGInterchangeFormat (0201).
fn thumb_part_entries<'m, 'a>(thumb: &'m Thumb<'a>) -> Entries<'m, 'a>
    requires few { length thumb.now.fields < 2 ^ 16 }
    requires fits { IsWritableThumb (thumb_of thumb.now) }
    ensures { result ≡ thumb_items (thumb_of thumb.now) }
{
    let fields = &thumb.fields;
    let lengths = first_extra(fields, 0x0117, strip_lengths(&thumb.strips));
    let offsets = second_extra(fields, &lengths, 0x0111, strip_offsets(&thumb.strips));
    let size = third_extra(fields, &lengths, &offsets, 0x0202, jpeg_length(thumb.jpeg));
    let jpeg = jpeg_extra(fields, &lengths, &offsets, &size, thumb.jpeg);
    Entries::layered(fields, lengths, offsets, size, jpeg)
}

// The entries of a directory that has only fields, if there is that directory.
fn field_entries<'m, 'a>(fields: &'m Option<Fields<'a>>) -> Option<Entries<'m, 'a>>
    requires { IfSome fields.now (λ fs. length fs < 2 ^ 16) }
    ensures { result ≡ option_map field_items fields.now }
{
    match fields {
        Some(fields) => Some(Entries::layered(fields, None, None, None, None)),
        None => None,
    }
}

// The entries of the Exif directory. None: the meaning has none.
fn exif_entries<'m, 'a>(part: &'m Option<ExifPart<'a>>) -> Option<Entries<'m, 'a>>
    requires { IfSome (option_map exif_of part.now) (λ e. length e.fields < 2 ^ 16) }
    ensures { result ≡ option_map exif_items (option_map exif_of part.now) }
{
    match part {
        Some(part) => Some(exif_part_entries(part)),
        None => None,
    }
}

// The entries of the Interoperability directory. None: the meaning has none.
fn interop_entries<'m, 'a>(part: &'m Option<ExifPart<'a>>) -> Option<Entries<'m, 'a>>
    requires { IfSome (option_map exif_of part.now) (λ e. IfSome e.interop (λ fs. length fs < 2 ^ 16)) }
    ensures { result ≡ option_and_then (λ e. option_map field_items e.interop) (option_map exif_of part.now) }
{
    match part {
        Some(part) => field_entries(&part.interop),
        None => None,
    }
}

// The entries of the thumbnail directory. None: the meaning has none.
fn thumb_entries<'m, 'a>(thumb: &'m Option<Thumb<'a>>) -> Option<Entries<'m, 'a>>
    requires few { IfSome (option_map thumb_of thumb.now) (λ t. length t.fields < 2 ^ 16) }
    requires fits { IfSome (option_map thumb_of thumb.now) IsWritableThumb }
    ensures { result ≡ option_map thumb_items (option_map thumb_of thumb.now) }
{
    match thumb {
        Some(thumb) => Some(thumb_part_entries(thumb)),
        None => None,
    }
}

// Whether the meaning has an Interoperability directory. Without an Exif directory, which alone has
// a pointer to one, it has none.
fn has_interop(part: &Option<ExifPart>) -> bool
    ensures { result ≡ is_some (option_and_then (λ e. option_map field_items e.interop) (option_map exif_of part.now)) }
{
    match part {
        Some(part) => part.interop.is_some(),
        None => false,
    }
}

/// Whether a meaning has this directory.
#[tactic(auto, using(crate::proofs::plans::EntryLists::items_are))]
pub(crate) fn is_there(m: &Meaning, dir: Dir) -> bool
    ensures { result ≡ is_some (items (meaning_of m.now) dir) }
{
    match dir {
        Dir::Main => true,
        Dir::Exif => m.exif.is_some(),
        Dir::Interop => has_interop(&m.exif),
        Dir::Gps => m.gps.is_some(),
        Dir::Thumb => m.thumb.is_some(),
    }
}

// The entries of a directory: its fields, pointers, the record, and the offsets and lengths of the
// thumbnail's bytes. `None` if the meaning doesn't have the directory.
#[inline(never)]
#[tactic(auto, using(crate::proofs::plans::EntryLists::items_are))]
fn any_entries<'m, 'a>(m: &'m Meaning<'a>, dir: Dir) -> Option<Entries<'m, 'a>>
    requires { IsWritable (meaning_of m.now) }
    ensures { result ≡ items (meaning_of m.now) dir }
{
    match dir {
        Dir::Main => Some(main_entries(m)),
        Dir::Exif => exif_entries(&m.exif),
        Dir::Interop => interop_entries(&m.exif),
        Dir::Gps => field_entries(&m.gps),
        Dir::Thumb => thumb_entries(&m.thumb),
    }
}

// Whether a directory is the main directory, and has only fields. Small blocks have no other directory.
#[inline(always)]
#[tactic(auto, using(crate::proofs::plans::EntryLists::items_are))]
fn is_plain_main(m: &Meaning, dir: Dir) -> bool
    ensures { result ≡ true → items (meaning_of m.now) dir ≡ Some (field_items m.now.main) }
{
    match (dir, &m.iptc, &m.gps, &m.exif) {
        (Dir::Main, None, None, None) => true,
        _ => false,
    }
}

/// The entries of a directory: its fields, pointers, the record, and the offsets and lengths of the
/// thumbnail's bytes. `None` if the meaning doesn't have the directory, which costs one comparison. Allocates
/// nothing.
#[inline(always)]
pub fn entries_in<'m, 'a>(m: &'m Meaning<'a>, dir: Dir) -> Option<Entries<'m, 'a>>
    requires { IsWritable (meaning_of m.now) }
    ensures { result ≡ items (meaning_of m.now) dir }
{
    if !is_there(m, dir) {
        return None;
    }
    if is_plain_main(m, dir) {
        return Some(Entries::layered(&m.main, None, None, None, None));
    }
    any_entries(m, dir)
}
