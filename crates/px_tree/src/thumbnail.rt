// The thumbnail's bytes: a JPEG, or strips. CIPA DC-008 4.5.5; TIFF 6.0 section 8, "StripOffsets" and
// "StripByteCounts".
//
// `claimed` are the ranges of bytes that parts of the block read before have; to claim a range is
// to add it, and a byte in two of them is the fault `Overlap`. `Content` of a function here: the
// cause and the byte offset of the first check that fails. `OutOfMemory`: an allocation failed.
ghost use Rattle.std.specs.Prelude.{◌≡◌, ◌≤◌, ◌<◌, ◌+◌, ◌++◌, ◌⊎◌, List, [], ◌∷◌, length, map, nat_le, Some, IfOk, IfSome, OnOk};
ghost use Rattle.std.specs.List.{AllByRecursion};
ghost use Rattle.std.specs.Prelude.{option_map, option_to_list, ⊤};
ghost use Rattle.px_bytes.specs.declared.Cause.TheVariants.{Overlap, ThumbnailOutside};
ghost use Rattle.px_bytes.specs.Parts.{limit, part};
ghost use Rattle.px_bytes.specs.Range.{Range, range, is_free, Agrees};
ghost use Rattle.px_bytes.specs.Checks.{ContentOnly, CountsAllocFailureInBlock, Judges, check};
ghost use Rattle.px_field.specs.Forms.{form_of};
ghost use Rattle.px_meaning.specs.Thumbnail.{whole_number, numbers, bytes_of, IsInside};
ghost use Rattle.px_meaning.specs.Footprint.{listed};
ghost use Rattle.px_meaning.specs.Says.{thumbnail};
ghost use Rattle.px_meaning.specs.calls.Seen.{thumb_of};
ghost use Rattle.px_tree.specs.Checks.{end_checks, range_checks, thumb_checks, thumb_checks_at};
ghost use Rattle.px_tree.specs.calls.Reading.{HasTable};
ghost use Rattle.px_tree.specs.calls.Parts.{HasNumbers, HaveNumbers, HaveSameCount, entry_here, place_in, pair_check, count_check};
ghost use Rattle.px_tree.specs.calls.Parts.{pairs_checks, jpeg_of, strips_of, IsReadThumb};
ghost use Rattle.px_meaning.specs.calls.Strips.{ranges_in};
ghost use Rattle.px_tree.specs.calls.Paying.{ClaimsPay, ClaimsBelow};

use crate::claiming::claim_range;
use crate::entry_values::value_at;
use crate::links::{Found, next_link};
use crate::rising::rising_span;
use crate::tables::Directory;
use crate::uses::Uses;
use px_bytes::{Cause, Memory, Order, Ranges, Refusal};
use px_field::{Form, Kind, Value};
use px_meaning::{StripLists, Strips, Thumb, number_in, part_of};

// Checks that neither or both entries of a pair are present.
fn judge_pair(first: Option<Found>, second: Option<Found>) -> Result<(), Refusal>
    ensures judged { Judges result (pair_check first second) (λ _. ⊤) }
    ensures content { ContentOnly result }
{
    match (first, second) {
        (Some(one), None) => Err(Cause::ThumbnailPair.at(one.place)),
        (None, Some(one)) => Err(Cause::ThumbnailPair.at(one.place)),
        _ => Ok(()),
    }
}

// Checks that there are as many offsets as lengths.
fn judge_counts(offsets: Option<Found>, lengths: Option<Found>) -> Result<(), Refusal>
    ensures judged { Judges result (count_check offsets lengths) (λ _. ⊤) }
    ensures content { ContentOnly result }
{
    match (offsets, lengths) {
        (Some(offsets), Some(lengths)) => {
            if offsets.head.count != lengths.head.count {
                return Err(Cause::ThumbnailPair.at(offsets.place));
            }
            Ok(())
        }
        _ => Ok(()),
    }
}

// Checks that both pairs are complete.
fn judge_pairs(parts: Uses) -> Result<(), Refusal>
    ensures judged { Judges result (pairs_checks parts) (λ _. ⊤) }
    ensures content { ContentOnly result }
{
    judge_pair(parts.jpeg_offset, parts.jpeg_length)?;
    judge_pair(parts.strip_offsets, parts.strip_lengths)?;
    judge_counts(parts.strip_offsets, parts.strip_lengths)
}

// Checks that the directory at an offset has no next directory.
fn judge_end(block: &[u8], order: Order, at: u32, count: u16) -> Result<(), Refusal>
    requires bounded { length block.now ≤ limit }
    requires has_table { HasTable block.now order at count }
    ensures judged { Judges result (end_checks block.now order at) (λ _. ⊤) }
    ensures content { ContentOnly result }
{
    match next_link(block, order, at, count) {
        Some(link) => Err(Cause::ExtraDirectory.at(link.place)),
        None => Ok(()),
    }
}

// A range: the offset of its first byte, and its length in bytes.
#[derive(Clone, Copy)]
struct Extent {
    start: u32,
    len: u32,
}

// Claims the part `extent` of the block for the entry at the offset `place`. `Content`:
// `ThumbnailOutside` or `Overlap`, at that offset.
fn claim(
    memory: &mut Memory,
    block: &[u8],
    claimed: &mut Ranges,
    place: u32,
    extent: Extent,
) -> Result<(), Refusal>
    requires bounded { length block.now ≤ limit }
    requires capacity { length block.now ≤ claimed.old.capacity }
    ensures judged { let start = extent.start in let len = extent.len in
        (taken : List Range) → Agrees taken claimed.old.ranges →
        Judges result (check ThumbnailOutside place (nat_le (start + len) (length block.now))
        ∷ check Overlap place (is_free taken (range start len)) ∷ [])
        (λ _. Agrees (range start len ∷ taken) claimed.new.ranges) }
    ensures inside { OnOk result (extent.start + extent.len ≤ length block.now) }
    ensures memory { CountsAllocFailureInBlock result memory.old memory.new }
    ensures asked { ClaimsPay 0 memory.old memory.new claimed.old claimed.new }
    ensures below { ClaimsBelow (length block.now) claimed.old claimed.new }
    ensures capacity { claimed.old.capacity ≤ claimed.new.capacity }
{
    let Extent { start, len } = extent;
    if u64::from(start) + u64::from(len) > block.len() as u64 {
        return Err(Cause::ThumbnailOutside.at(place));
    }
    claim_range(memory, claimed, place, start, len)
}

// Claims the JPEG and returns its bytes. None: the thumbnail has no JPEG.
fn claim_jpeg<'a>(
    memory: &mut Memory,
    block: &'a [u8],
    claimed: &mut Ranges,
    parts: Uses,
) -> Result<Option<&'a [u8]>, Refusal>
    requires bounded { length block.now ≤ limit }
    requires capacity { length block.now ≤ claimed.old.capacity }
    ensures judged { let rs = option_to_list (jpeg_of parts.jpeg_offset parts.jpeg_length) in
        (taken : List Range) → Agrees taken claimed.old.ranges →
        Judges result (range_checks block.now (place_in parts.jpeg_offset) taken rs)
        (λ _. Agrees (rs ++ taken) claimed.new.ranges) }
    ensures part { IfOk result (λ j. option_map
        (λ s. s.now) j ≡ option_map (bytes_of block.now) (jpeg_of parts.jpeg_offset parts.jpeg_length)) }
    ensures memory { CountsAllocFailureInBlock result memory.old memory.new }
    ensures asked { ClaimsPay 0 memory.old memory.new claimed.old claimed.new }
    ensures below { ClaimsBelow (length block.now) claimed.old claimed.new }
    ensures capacity { claimed.old.capacity ≤ claimed.new.capacity }
{
    match (parts.jpeg_offset, parts.jpeg_length) {
        (Some(offset), Some(size)) => {
            let extent = Extent {
                start: offset.head.offset,
                len: size.head.offset,
            };
            claim(memory, block, claimed, offset.place, extent)?;
            Ok(Some(part_of(block, extent.start, extent.len)))
        }
        _ => Ok(None),
    }
}

// The type with that number, SHORT or LONG.
fn number_form(code: u16) -> Form
    ensures { (code ≡ 3) ⊎ (code ≡ 4) → form_of code ≡ Some result }
{
    if code == 3 {
        return Form::Short;
    }
    Form::Long
}

// The list of numbers of an entry.
fn numbers_at<'a>(block: &'a [u8], order: Order, found: Found) -> Value<'a>
    requires { HasNumbers block.now order found }
    ensures numbers { map whole_number result.elements
        ≡ numbers block.now order (entry_here block.now order found) }
    ensures count { length result.elements ≡ found.head.count }
{
    value_at(
        block,
        order,
        found.place,
        found.head,
        number_form(found.head.code),
    )
}

// Claims each strip of these lists, for the entry of their offsets at `place`.
#[inline(always)]
fn claim_each(
    memory: &mut Memory,
    claimed: &mut Ranges,
    place: u32,
    lists: &StripLists,
) -> Result<(), Refusal>
    requires bounded { length lists.now.block.now ≤ limit }
    requires same { length lists.now.starts.elements ≡ length lists.now.sizes.elements }
    requires capacity { length lists.now.block.now ≤ claimed.old.capacity }
    ensures judged { (taken : List Range) → Agrees taken claimed.old.ranges →
        Judges result (range_checks lists.now.block.now place taken (ranges_in lists.now)) (λ _. ⊤) }
    ensures inside { OnOk result (AllByRecursion (IsInside lists.now.block.now) (ranges_in lists.now)) }
    ensures memory { CountsAllocFailureInBlock result memory.old memory.new }
    ensures asked { ClaimsPay 0 memory.old memory.new claimed.old claimed.new }
    ensures below { ClaimsBelow (length lists.now.block.now) claimed.old claimed.new }
    ensures capacity { claimed.old.capacity ≤ claimed.new.capacity }
{
    for i in 0..lists.starts.count() {
        let extent = Extent {
            start: number_in(&lists.starts, i),
            len: number_in(&lists.sizes, i),
        };
        claim(memory, lists.block, claimed, place, extent)?;
    }
    Ok(())
}

// Claims each strip of these lists as `claim_each` does. Nearly all lists have LONGs: for these the
// compiler makes a loop of its own, which doesn't look at the types of the lists for each strip.
fn claim_strips(
    memory: &mut Memory,
    claimed: &mut Ranges,
    place: u32,
    lists: &StripLists,
) -> Result<(), Refusal>
    requires bounded { length lists.now.block.now ≤ limit }
    requires same { length lists.now.starts.elements ≡ length lists.now.sizes.elements }
    requires capacity { length lists.now.block.now ≤ claimed.old.capacity }
    ensures judged { (taken : List Range) → Agrees taken claimed.old.ranges →
        Judges result (range_checks lists.now.block.now place taken (ranges_in lists.now)) (λ _. ⊤) }
    ensures inside { OnOk result (AllByRecursion (IsInside lists.now.block.now) (ranges_in lists.now)) }
    ensures memory { CountsAllocFailureInBlock result memory.old memory.new }
    ensures asked { ClaimsPay 0 memory.old memory.new claimed.old claimed.new }
    ensures below { ClaimsBelow (length lists.now.block.now) claimed.old claimed.new }
    ensures capacity { claimed.old.capacity ≤ claimed.new.capacity }
{
    let longs = Kind::Of(Form::Long);
    if lists.starts.kind() == longs && lists.sizes.kind() == longs {
        return claim_each(memory, claimed, place, lists);
    }
    claim_each(memory, claimed, place, lists)
}

// Judges the strips of these lists. If their offsets ascend and no earlier range has a byte of them, it
// claims none.
fn judge_strips(
    memory: &mut Memory,
    claimed: &mut Ranges,
    place: u32,
    lists: &StripLists,
) -> Result<(), Refusal>
    requires bounded { length lists.now.block.now ≤ limit }
    requires same { length lists.now.starts.elements ≡ length lists.now.sizes.elements }
    requires capacity { length lists.now.block.now ≤ claimed.old.capacity }
    ensures judged { (taken : List Range) → Agrees taken claimed.old.ranges →
        Judges result (range_checks lists.now.block.now place taken (ranges_in lists.now)) (λ _. ⊤) }
    ensures inside { OnOk result (AllByRecursion (IsInside lists.now.block.now) (ranges_in lists.now)) }
    ensures memory { CountsAllocFailureInBlock result memory.old memory.new }
    ensures asked { ClaimsPay 0 memory.old memory.new claimed.old claimed.new }
    ensures below { ClaimsBelow (length lists.now.block.now) claimed.old claimed.new }
    ensures capacity { claimed.old.capacity ≤ claimed.new.capacity }
{
    if let Some(span) = rising_span(lists) {
        if claimed.are_free(span.start, span.end) {
            return Ok(());
        }
    }
    claim_strips(memory, claimed, place, lists)
}

// Judges and returns the strips, whose two lists are among the kept entries `parts`. None: the
// thumbnail has no strips. No later check needs their ranges.
fn read_strips<'a>(
    memory: &mut Memory,
    block: &'a [u8],
    order: Order,
    claimed: &mut Ranges,
    parts: Uses,
) -> Result<Option<Strips<'a>>, Refusal>
    requires bounded { length block.now ≤ limit }
    requires numbers { HaveNumbers block.now order parts.strip_offsets × HaveNumbers block.now order parts.strip_lengths }
    requires even { HaveSameCount parts.strip_offsets parts.strip_lengths }
    requires capacity { length block.now ≤ claimed.old.capacity }
    ensures judged { let rs = strips_of block.now order parts.strip_offsets parts.strip_lengths in
        (taken : List Range) → Agrees taken claimed.old.ranges →
        Judges result (range_checks block.now (place_in parts.strip_offsets) taken (listed rs))
        (λ s. s ≡ option_map (map (bytes_of block.now)) rs) }
    ensures memory { CountsAllocFailureInBlock result memory.old memory.new }
    ensures asked { ClaimsPay 0 memory.old memory.new claimed.old claimed.new }
    ensures below { ClaimsBelow (length block.now) claimed.old claimed.new }
    ensures capacity { claimed.old.capacity ≤ claimed.new.capacity }
{
    match (parts.strip_offsets, parts.strip_lengths) {
        (Some(offsets), Some(lengths)) => {
            let lists = StripLists {
                block,
                starts: numbers_at(block, order, offsets),
                sizes: numbers_at(block, order, lengths),
            };
            judge_strips(memory, claimed, offsets.place, &lists)?;
            Ok(Some(Strips::of_lists(memory, lists)))
        }
        _ => Ok(None),
    }
}

// The thumbnail directory at an offset, after its entries were read, with the thumbnail's bytes, which it claims.
// `Ok`: all checks of the thumbnail pass, and this is the thumbnail that the definitions give. `Content`: the first
// check that fails. `OutOfMemory`: an allocation failed.
pub fn read_thumbnail<'a>(
    memory: &mut Memory,
    block: &'a [u8],
    order: Order,
    claimed: &mut Ranges,
    directory: Directory<'a>,
) -> Result<Thumb<'a>, Refusal>
    requires bounded { length block.now ≤ limit }
    requires read { IsReadThumb block.now order directory }
    requires capacity { length block.now ≤ claimed.old.capacity }
    ensures judged { (taken : List Range) → Agrees taken claimed.old.ranges →
        Judges result (thumb_checks block.now order taken directory.entry.at)
        (λ t. thumb_of t ≡ thumbnail block.now order directory.entry.at) }
    ensures memory { CountsAllocFailureInBlock result memory.old memory.new }
    ensures asked { ClaimsPay 0 memory.old memory.new claimed.old claimed.new }
    ensures below { ClaimsBelow (length block.now) claimed.old claimed.new }
    ensures capacity { claimed.old.capacity ≤ claimed.new.capacity }
{
    let Directory {
        fields,
        uses: parts,
        at,
        count,
    } = directory;
    judge_pairs(parts)?;
    judge_end(block, order, at, count)?;
    let jpeg = claim_jpeg(memory, block, claimed, parts)?;
    let strips = read_strips(memory, block, order, claimed, parts)?;
    Ok(Thumb {
        fields,
        jpeg,
        strips,
    })
}

// The thumbnail directory with the thumbnail's bytes, if the block has one, as `read_thumbnail` reads it. Without
// one, `None`, and there is no check. `Content`: the first check that fails. `OutOfMemory`: an allocation failed.
pub fn read_thumb<'a>(
    memory: &mut Memory,
    block: &'a [u8],
    order: Order,
    claimed: &mut Ranges,
    directory: Option<Directory<'a>>,
) -> Result<Option<Thumb<'a>>, Refusal>
    requires bounded { length block.now ≤ limit }
    requires read { IfSome directory (IsReadThumb block.now order) }
    requires capacity { length block.now ≤ claimed.old.capacity }
    ensures judged { let a = option_map (λ t. t.at) directory.entry in
        (taken : List Range) → Agrees taken claimed.old.ranges →
        Judges result (thumb_checks_at block.now order taken a)
        (λ t. option_map thumb_of t ≡ option_map (thumbnail block.now order) a) }
    ensures memory { CountsAllocFailureInBlock result memory.old memory.new }
    ensures asked { ClaimsPay 0 memory.old memory.new claimed.old claimed.new }
    ensures below { ClaimsBelow (length block.now) claimed.old claimed.new }
    ensures capacity { claimed.old.capacity ≤ claimed.new.capacity }
{
    match directory {
        None => Ok(None),
        Some(directory) => {
            let thumb = read_thumbnail(memory, block, order, claimed, directory)?;
            Ok(Some(thumb))
        }
    }
}
