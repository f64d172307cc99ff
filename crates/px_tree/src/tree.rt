// Reads the directories of a block, in the order main, Exif, Interoperability, GPS, thumbnail. CIPA DC-008
// 4.6.3 and 4.5.5.
//
// `claimed` are the ranges of bytes that parts of the block read before have; to claim a range is
// to add it, and a byte in two of them is the fault `Overlap`. `Content` of a function here: the
// cause and the byte offset of the first check that fails. `OutOfMemory`: an allocation failed.
// `source` is the block with its byte order and the directory to read; `earlier` are the pointers
// to the directories read before, since one that leads to the same offset is the fault `Loop`.
ghost use Rattle.std.specs.Prelude.{◌≡◌, ◌≤◌, ◌++◌, List, [], ◌∷◌, length, option_map, option_and_then, Some, None, true, IfSome, IfOk};
ghost use Rattle.px_bytes.specs.Parts.{limit};
ghost use Rattle.px_bytes.specs.Range.{Range, Agrees};
ghost use Rattle.px_bytes.specs.Checks.{CountsAllocFailureInBlock, Judges};
ghost use Rattle.px_meaning.specs.declared.Dir.TheVariants.{Main};
ghost use Rattle.px_meaning.specs.Entry.{next, table};
ghost use Rattle.px_meaning.specs.Directory.{main_at, dir_at, fields_at, unless_zero};
ghost use Rattle.px_meaning.specs.Footprint.{ranges_at};
ghost use Rattle.px_tree.specs.Checks.{checks_at, dirs_checks, dirs_claimed};
ghost use Rattle.px_tree.specs.calls.Reading.{HasTable};
ghost use Rattle.px_tree.specs.calls.Uses.{link_as};
ghost use Rattle.px_tree.specs.calls.Linked.{Names, IsRead, offsets_of, next_place};
ghost use Rattle.px_tree.specs.calls.ReadTree.{main_checks, main_claimed, others, IsReadMain, SeenTree};
ghost use Rattle.px_tree.specs.calls.Paying.{ClaimsPay, ClaimsBelow};

use crate::claiming::claim_range;
use crate::links::{Found, Link, next_link};
use crate::source::BlockReader;
use crate::tables::{Directory, read_directory};
use crate::uses::link_of;
use px_bytes::{Memory, Order, Ranges, Refusal};
use px_meaning::{Dir, Fields, number32};

// What is used of the main directory after its pointers were followed: its fields, its offset and the record's
// entry.
#[derive(Drop)]
pub struct MainDirectory<'a> {
    pub fields: Fields<'a>,
    pub at: u32,
    pub iptc: Option<Found>,
}

// The directories of a block.
#[derive(Drop)]
pub struct Directories<'a> {
    pub main: MainDirectory<'a>,
    pub exif: Option<Directory<'a>>,
    pub interop: Option<Directory<'a>>,
    pub gps: Option<Directory<'a>>,
    pub thumb: Option<Directory<'a>>,
}

// The directory that the pointer `link` leads to. None: there is no pointer.
fn read_linked<'a>(
    memory: &mut Memory,
    source: &BlockReader<'a>,
    claimed: &mut Ranges,
    earlier: &[Option<Link>],
    link: Option<Link>,
) -> Result<Option<Directory<'a>>, Refusal>
    requires bounded { length source.now.block.now ≤ limit }
    requires named { Names source.now.block.now source.now.order source.now.dir link }
    requires capacity { length source.now.block.now ≤ claimed.old.capacity }
    ensures judged { let b = source.now.block.now in let o = source.now.order in
        let d = source.now.dir in
        (taken : List Range) → Agrees taken claimed.old.ranges →
        Judges result (checks_at b o (offsets_of earlier.now) taken d (dir_at b o d))
        (λ t. (source.now.keeps_fields ≡ true → option_map (λ t. t.fields) t ≡ fields_at b o d)
        × Agrees (ranges_at b o d ++ taken) claimed.new.ranges) }
    ensures there { IfOk result
        (λ t. IsRead source.now.block.now source.now.order source.now.dir t) }
    ensures memory { CountsAllocFailureInBlock result memory.old memory.new }
    ensures asked { ClaimsPay 0 memory.old memory.new claimed.old claimed.new }
    ensures below { ClaimsBelow (length source.now.block.now) claimed.old claimed.new }
    ensures capacity { claimed.old.capacity ≤ claimed.new.capacity }
{
    match link {
        None => Ok(None),
        Some(link) => {
            let directory = read_directory(memory, source, claimed, earlier, link)?;
            Ok(Some(directory))
        }
    }
}

// The pointer to the Exif directory, among the kept entries of the main directory. None: it has no
// such entry.
fn link_to_exif(main: &Directory) -> Option<Link>
    ensures { result ≡ option_map link_as main.now.uses.exif }
{
    link_of(main.uses.exif)
}

// The pointer to the GPS directory, among the kept entries of the main directory. None: it has no
// such entry.
fn link_to_gps(main: &Directory) -> Option<Link>
    ensures { result ≡ option_map link_as main.now.uses.gps }
{
    link_of(main.uses.gps)
}

// The pointer to the Interoperability directory, if the block has an Exif directory.
fn link_to_interop(exif: &Option<Directory>) -> Option<Link>
    ensures { result ≡ option_and_then (λ t. option_map link_as t.uses.interop) exif.now }
{
    match exif {
        None => None,
        Some(exif) => link_of(exif.uses.interop),
    }
}

// The pointer to the directory after this one. None: its next offset is 0.
fn link_after(block: &[u8], order: Order, directory: &Directory) -> Option<Link>
    requires bounded { length block.now ≤ limit }
    requires has_table { HasTable block.now order directory.now.at directory.now.count }
    ensures leads { option_map
        (λ l. l.at) result ≡ unless_zero (next order (table block.now order directory.now.at)) }
    ensures place { IfSome result (λ l. l.place ≡ next_place block.now order directory.now.at) }
{
    next_link(block, order, directory.at, directory.count)
}

// The pointer to the main directory, in the header.
fn link_to_main(block: &[u8], order: Order) -> Link
    requires { 8 ≤ length block.now }
    ensures { Names block.now order Dir.Main (Some result) }
{
    Link {
        at: number32(block, order, 4),
        place: 4,
    }
}

// The part of the main directory that is kept.
pub fn main_directory_of<'a>(main: Directory<'a>) -> MainDirectory<'a>
    ensures fields { result.fields ≡ main.entry.fields }
    ensures at { result.at ≡ main.entry.at }
    ensures iptc { result.iptc ≡ main.entry.uses.iptc }
{
    let Directory {
        fields,
        uses,
        at,
        ..
    } = main;
    MainDirectory {
        fields,
        at,
        iptc: uses.iptc,
    }
}

// Claims the header of a block, and reads the main directory. `Ok`: all checks of both pass; its entries with a
// special use are kept, and its fields if fields are kept. `Content`: the first check that fails. `OutOfMemory`: an
// allocation failed.
pub fn read_main<'a>(
    memory: &mut Memory,
    source: &BlockReader<'a>,
    claimed: &mut Ranges,
) -> Result<Directory<'a>, Refusal>
    requires least { 8 ≤ length source.now.block.now }
    requires bounded { length source.now.block.now ≤ limit }
    requires main { source.now.dir ≡ Main }
    requires none { claimed.old.ranges ≡ [] }
    requires capacity { length source.now.block.now ≤ claimed.old.capacity }
    ensures judged { let b = source.now.block.now in let o = source.now.order in
        Judges result (main_checks b o)
        (λ t. IsReadMain b o source.now.keeps_fields t × Agrees (main_claimed b o) claimed.new.ranges) }
    ensures memory { CountsAllocFailureInBlock result memory.old memory.new }
    ensures asked { ClaimsPay 0 memory.old memory.new claimed.old claimed.new }
    ensures below { ClaimsBelow (length source.now.block.now) claimed.old claimed.new }
    ensures capacity { claimed.old.capacity ≤ claimed.new.capacity }
{
    claim_range(memory, claimed, 0, 0, 8)?;
    let link = link_to_main(source.block, source.order);
    read_directory(memory, source, claimed, &[], link)
}

// True only if no pointer of the main directory leads to another directory: it has no entry kept as the pointer to
// the Exif or the GPS directory, and its next offset is 0. That such a directory gives true is not stated.
pub fn is_alone(block: &[u8], order: Order, main: &Directory) -> bool
    requires bounded { length block.now ≤ limit }
    requires has_table { HasTable block.now order main.now.at main.now.count }
    ensures exif { result ≡ true → main.now.uses.exif ≡ None }
    ensures gps { result ≡ true → main.now.uses.gps ≡ None }
    ensures next { result ≡ true → None ≡ unless_zero (next order (table block.now order main.now.at)) }
{
    match (
        main.uses.exif,
        main.uses.gps,
        link_after(block, order, main),
    ) {
        (None, None, None) => true,
        _ => false,
    }
}

// Reads the directories after the main directory: Exif, Interoperability, GPS and thumbnail. A caller that needs only
// some of them then moves only these. The fields of the thumbnail directory are always kept: they are part of the
// thumbnail, which is read later. `Ok`: all their checks pass. `Content`: the first check that fails. `OutOfMemory`:
// an allocation failed.
#[inline(always)]
pub fn read_others<'a>(
    memory: &mut Memory,
    source: &BlockReader<'a>,
    claimed: &mut Ranges,
    main: Directory<'a>,
) -> Result<Directories<'a>, Refusal>
    requires least { 8 ≤ length source.now.block.now }
    requires bounded { length source.now.block.now ≤ limit }
    requires read { IsReadMain source.now.block.now source.now.order source.now.keeps_fields main }
    requires capacity { length source.now.block.now ≤ claimed.old.capacity }
    ensures judged { let b = source.now.block.now in let o = source.now.order in
        (taken : List Range) → Agrees taken claimed.old.ranges →
        Judges result (dirs_checks b o (main_at b o ∷ []) taken others)
        (λ t. SeenTree b o source.now.keeps_fields t × Agrees (dirs_claimed b o taken others) claimed.new.ranges) }
    ensures memory { CountsAllocFailureInBlock result memory.old memory.new }
    ensures asked { ClaimsPay 0 memory.old memory.new claimed.old claimed.new }
    ensures below { ClaimsBelow (length source.now.block.now) claimed.old claimed.new }
    ensures capacity { claimed.old.capacity ≤ claimed.new.capacity }
{
    let block = source.block;
    let order = source.order;
    let main_link = link_to_main(block, order);
    let exif_link = link_to_exif(&main);
    let read = [Some(main_link)];
    let mut source = BlockReader {
        block,
        order,
        dir: Dir::Exif,
        keeps_fields: source.keeps_fields,
    };
    let exif = read_linked(memory, &source, claimed, &read, exif_link)?;
    let interop_link = link_to_interop(&exif);
    let read = [exif_link, Some(main_link)];
    source.dir = Dir::Interop;
    let interop = read_linked(memory, &source, claimed, &read, interop_link)?;
    let gps_link = link_to_gps(&main);
    let read = [interop_link, exif_link, Some(main_link)];
    source.dir = Dir::Gps;
    let gps = read_linked(memory, &source, claimed, &read, gps_link)?;
    let thumb_link = link_after(block, order, &main);
    let read = [gps_link, interop_link, exif_link, Some(main_link)];
    source.dir = Dir::Thumb;
    source.keeps_fields = true;
    let thumb = read_linked(memory, &source, claimed, &read, thumb_link)?;
    let main = main_directory_of(main);
    Ok(Directories {
        main,
        exif,
        interop,
        gps,
        thumb,
    })
}
