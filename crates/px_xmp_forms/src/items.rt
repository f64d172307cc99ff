// Properties and members, and their order.
// `Err` of a call is why it writes nothing more: `Content`, what can't be written, as a form
// that is too long; or `OutOfMemory`, a failed allocation.
ghost use Rattle.std.specs.Prelude.{◌≡◌, ◌≤◌, ◌⊎◌, [], List, Some, length, refl, bytes_eq, take, IfOk, MatchOption};
ghost use Rattle.std.specs.Cmp.Lexicographic.{slice_cmp, nat_list_eq_equiv, nat_list_cmp_total, texts_ties, texts_po};
ghost use Rattle.std.specs.Cmp.{on_equiv, on_total, on_po, on_per, partial_equiv_from_equiv};
ghost use Rattle.std.specs.List.Sorted.{IsPermutation, IsSorted};
ghost use Rattle.std.specs.Ordering.{nat_cmp};
ghost use Rattle.px_xmp_text.specs.Values.{written};
ghost use Rattle.px_xmp_forms.specs.Forms.{most};
ghost use Rattle.px_xmp_forms.specs.Entries.{Entry, entry_octets, row, AreDistinct, IsRepeated};
ghost use Rattle.px_xmp_forms.specs.Outputs.{AreItems};
ghost use Rattle.px_xmp_forms.specs.declared.items.BagOrder.TheVariants.{Sorted, AsWritten};
ghost use Rattle.px_xmp_forms.specs.Allocations.{CountsAllocFailureInPacket};
ghost use Rattle.px_xmp_forms.specs.Causes.{IsRare, FailsByMemory};

use crate::elements::Element;
use crate::faults::Refusal;
use crate::pieces::Piece;
use px_bytes::Memory;
use std::cmp::Ordering;
use std::collections::BinaryHeap;

// A property or a member.
#[derive(Drop)]
pub(crate) struct Item {
    pub(crate) element: Element,
    // The offset of its tag in the packet.
    pub(crate) place: usize,
}

// The space for the tags of an element around few octets.
const TAGS: usize = 128;

// So many octets are compared one after another: most names differ in these.
const NEAR: usize = 16;

// Compares two rows of octets at the first place where they differ. One that begins the other is the lesser.
fn order(a: &[u8], b: &[u8]) -> Ordering
    ensures { result ≡ slice_cmp nat_cmp a.now b.now }
{
    let near = a.len().min(b.len()).min(NEAR);
    for at in 0..near {
        match a[at].cmp(&b[at]) {
            Ordering::Equal => {}
            other => return other,
        }
    }
    a.split_at(near).1.cmp(b.split_at(near).1)
}

impl Item {
    // The octets that the normal form has of the item, with its tags.
    fn octets(&self) -> &[u8]
        ensures { result.now ≡ self.now.element.piece }
    {
        self.element.piece.octets()
    }

    // The octets of the item that have its name: the start tag up to its attributes.
    fn name(&self) -> &[u8]
        ensures { result.now ≡ take self.now.element.label_len self.now.element.piece }
    {
        let octets = self.octets();
        octets.split_at(self.element.label_len.min(octets.len())).0
    }
}

// The order of items is that of their octets.
impl PartialEq for Item {
    ghost eq = { λ a b. bytes_eq a.element.piece b.element.piece };

    ghost laws = { on_per (λ i. i.element.piece) (partial_equiv_from_equiv nat_list_eq_equiv) };

    // Two items are equal if they are written alike.
    fn eq(&self, other: &Item) -> bool {
        self.octets() == other.octets()
    }
}

impl Eq for Item {
    ghost laws = { on_equiv (λ i. i.element.piece) nat_list_eq_equiv };
}

impl PartialOrd for Item {
    ghost partial_cmp = { λ a b. Some (slice_cmp nat_cmp a.element.piece b.element.piece) };

    ghost laws = { on_po (λ i. i.element.piece) texts_po };

    // Any two items have an order, so this is never None.
    fn partial_cmp(&self, other: &Item) -> Option<Ordering> {
        Some(self.cmp(other))
    }
}

impl Ord for Item {
    ghost cmp = { λ a b. slice_cmp nat_cmp a.element.piece b.element.piece };

    ghost total = { on_total (λ i. i.element.piece) nat_list_cmp_total };

    ghost matches_partial_cmp = { λ a b. refl };

    ghost matches_eq = { λ a b. texts_ties a.element.piece b.element.piece };

    // The order of items is that of their octets, as numbers.
    fn cmp(&self, other: &Item) -> Ordering {
        order(self.octets(), other.octets())
    }
}

/// The order of the items of each bag.
#[derive(Clone, Copy)]
pub enum BagOrder {
    /// That of their octets.
    Sorted,
    /// That in which they were put into the output.
    AsWritten,
}

// The items in order. A heap sorts them, since std's own sorts call themselves, and the C source has
// no function that does.
pub(crate) fn sort_items(items: Vec<Item>) -> Vec<Item>
    ensures permutation { IsPermutation items.items result.items }
    ensures sorted { IsSorted (λ a b. slice_cmp nat_cmp a.element.piece b.element.piece) result.items }
{
    BinaryHeap::from(items).into_sorted_vec()
}

// The items of a bag in the order of `order`.
pub(crate) fn bag_items(order: BagOrder, items: Vec<Item>) -> Vec<Item>
    ensures permutation { IsPermutation items.items result.items }
    ensures sorted { order ≡ Sorted → IsSorted (λ a b. slice_cmp nat_cmp a.element.piece b.element.piece) result.items }
    ensures as_written { order ≡ AsWritten → result.items ≡ items.items }
{
    match order {
        BagOrder::Sorted => sort_items(items),
        BagOrder::AsWritten => items,
    }
}

// The lesser of two offsets in the packet. None is no offset.
fn earlier(place: Option<usize>, other: usize) -> Option<usize>
    ensures { MatchOption result ⊥ (λ p. (place ≡ Some p) ⊎ (p ≡ other)) }
{
    match place {
        Some(place) => Some(place.min(other)),
        None => Some(other),
    }
}

// The first offset in the packet at which a name is there again; the items are in the order of
// their octets. None: each name is there once.
pub(crate) fn first_repeated(items: &[Item]) -> Option<usize>
    ensures { (es : List Entry) → AreItems items.now es → IsSorted (λ a b. slice_cmp nat_cmp (entry_octets a) (entry_octets b)) es →
        MatchOption result (AreDistinct es) (IsRepeated es) }
{
    let mut place = None;
    for n in 1..items.len() {
        if items[n - 1].name() == items[n].name() {
            place = earlier(place, items[n - 1].place.max(items[n].place));
        }
    }
    place
}

// The space for some items in a row. It is 0 if one of them has more than half of their octets: the others are put around it.
fn space_for(items: &[Item]) -> usize {
    let mut len: usize = 0;
    let mut longest: usize = 0;
    for item in items {
        let more = item.octets().len();
        len = len.saturating_add(more);
        longest = longest.max(more);
    }
    if longest > len.saturating_sub(longest) {
        return 0;
    }
    len
}

// The space before items in a row, and behind them, for the tags of the element around them.
fn space_around(space: usize, is_inside: bool) -> usize {
    if !is_inside || space == 0 {
        return 0;
    }
    (space / 8).saturating_add(TAGS)
}

// The items in a row. `is_inside`: there will be the tags of an element around them.
pub(crate) fn join_items(
    memory: &mut Memory,
    items: Vec<Item>,
    is_inside: bool,
) -> Result<Piece, Refusal>
    ensures value { (es : List Entry) → AreItems items.items es → IfOk result (λ p. p ≡ written (row es) []) }
    ensures memory { CountsAllocFailureInPacket result memory.old memory.new }
    ensures rare { IsRare result }
    ensures accepts { (es : List Entry) → AreItems items.items es → length (written (row es) []) ≤ most → FailsByMemory result }
{
    let space = space_for(items.as_slice());
    let around = space_around(space, is_inside);
    let mut joined = Piece::with_space(memory, around, space.saturating_add(around))?;
    for item in items {
        joined = joined.followed_by(memory, item.element.piece)?;
    }
    Ok(joined)
}
