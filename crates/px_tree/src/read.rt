// Reads a whole block: its header, its directories, the thumbnail's bytes, and the record.
ghost use Rattle.std.specs.Prelude.{◌≡◌, ◌≤◌, length, true, IfOk, IfErr, None, option_map};
ghost use Rattle.std.specs.List.{AllByRecursion};
ghost use Rattle.px_bytes.specs.Parts.{limit};
ghost use Rattle.px_bytes.specs.Checks.{CountsAllocFailureInBlock, Judges, first_false};
ghost use Rattle.px_iim.specs.Asking.{iim_request};
ghost use Rattle.px_meaning.specs.Directory.{entries_at};
ghost use Rattle.px_meaning.specs.Entry.{IsEntry};
ghost use Rattle.px_meaning.specs.Writable.{IsWritable};
ghost use Rattle.px_meaning.specs.Says.{meaning, SaysExif};
ghost use Rattle.px_meaning.specs.calls.Seen.{exif_of, meaning_of};
ghost use Rattle.px_tree.specs.Checks.{tree_checks};
ghost use Rattle.px_tree.specs.Refused.{IsRefused};
ghost use Rattle.px_bytes.specs.Allocations.{AsksAtMost};
ghost use Rattle.px_tree.specs.Asking.{exif_request};
ghost use Rattle.px_tree.specs.calls.ReadTree.{IsReadMain, IsAlone};

use crate::header::{judge_header, order_in};
use crate::records::read_record;
use crate::source::BlockReader;
use crate::tables::Directory;
use crate::thumbnail::read_thumb;
use crate::tree::{
    Directories, MainDirectory, is_alone, main_directory_of, read_main, read_others,
};
use px_bytes::{Block, Memory, Order, Ranges, Refusal};
use px_meaning::{Dir, ExifPart, Fields, Meaning};

// The fields of a directory, if the block has it.
fn fields_in<'a>(directory: Option<Directory<'a>>) -> Option<Fields<'a>>
    ensures { result ≡ option_map (λ t. t.fields) directory.entry }
{
    match directory {
        Some(directory) => Some(directory.fields),
        None => None,
    }
}

// The Exif directory with its Interoperability directory.
fn exif_in<'a>(exif: Option<Fields<'a>>, interop: Option<Fields<'a>>) -> Option<ExifPart<'a>>
    ensures { option_map exif_of result ≡ option_map
        (λ f. record { fields = f; interop = interop.entry }) exif.entry }
{
    match exif {
        Some(fields) => Some(ExifPart { fields, interop }),
        None => None,
    }
}

// The meaning of a block that passes all checks and has the main directory alone.
fn read_alone<'a>(
    memory: &mut Memory,
    block: &'a [u8],
    order: Order,
    main: Directory<'a>,
) -> Result<Meaning<'a>, Refusal>
    requires bounded { length block.now ≤ limit }
    requires read { IsReadMain block.now order true main }
    requires each { AllByRecursion (IsEntry block.now order Dir.Main) (entries_at block.now order main.at) }
    requires alone { IsAlone block.now order }
    requires passed { first_false (tree_checks block.now order) ≡ None }
    ensures judged { Judges result (tree_checks block.now order)
        (λ m. meaning_of m ≡ meaning block.now order) }
    ensures memory { CountsAllocFailureInBlock result memory.old memory.new }
    ensures asked { AsksAtMost (iim_request (length block.now)) memory.old memory.new }
{
    let main = main_directory_of(main);
    let iptc = read_record(memory, block, order, &main)?;
    let MainDirectory { fields, .. } = main;
    Ok(Meaning {
        main: fields,
        iptc,
        exif: None,
        gps: None,
        thumb: None,
    })
}

// The meaning of a block that has a header.
fn read_tree<'a>(memory: &mut Memory, block: &'a [u8], order: Order) -> Result<Meaning<'a>, Refusal>
    requires least { 8 ≤ length block.now }
    requires bounded { length block.now ≤ limit }
    ensures judged { Judges result (tree_checks block.now order)
        (λ m. meaning_of m ≡ meaning block.now order) }
    ensures memory { CountsAllocFailureInBlock result memory.old memory.new }
    ensures asked { AsksAtMost (exif_request (length block.now)) memory.old memory.new }
{
    let mut claimed = Ranges::with_capacity_in(memory, block.len() as u32)?;
    let source = BlockReader {
        block,
        order,
        dir: Dir::Main,
        keeps_fields: true,
    };
    let main = read_main(memory, &source, &mut claimed)?;
    if is_alone(block, order, &main) {
        drop(claimed);
        return read_alone(memory, block, order, main);
    }
    let directories = read_others(memory, &source, &mut claimed, main)?;
    let Directories {
        main,
        exif,
        interop,
        gps,
        thumb,
    } = directories;
    let thumb = read_thumb(memory, block, order, &mut claimed, thumb)?;
    // Frees the marks of the claimed ranges first: the record's list can be the largest allocation.
    drop(claimed);
    let iptc = read_record(memory, block, order, &main)?;
    let MainDirectory { fields, .. } = main;
    Ok(Meaning {
        main: fields,
        iptc,
        exif: exif_in(fields_in(exif), fields_in(interop)),
        gps: fields_in(gps),
        thumb,
    })
}

/// The meaning of an Exif block. It doesn't depend on the byte order or the layout. TIFF 6.0 section 2; CIPA
/// DC-008 4.5 and 4.6.
///
/// The checks are made in this order: header; the directories main, Exif, Interoperability, GPS and
/// thumbnail, for each the table and then its entries; the thumbnail's bytes. Bytes at 0x83BB in the main
/// directory, of type BYTE or UNDEFINED, are a record if they can be read as one, and otherwise a field.
///
/// The values, the JPEG and the strips borrow the block's bytes. Allocates the fields, the record, and the
/// claimed ranges while it reads. It asks for at most eight bytes for each byte of the block, and 262,152.
/// The cost is linear in the block's length. `Content`: the cause and byte offset (at most `LIMIT`) of the
/// block's first fault; it has no meaning. `OutOfMemory`: an allocation failed.
pub fn read_block_in<'a>(memory: &mut Memory, block: Block<'a>) -> Result<Meaning<'a>, Refusal>
    ensures means { IfOk result (λ m. SaysExif block.entry (meaning_of m)) }
    ensures fits { IfOk result (λ m. IsWritable (meaning_of m)) }
    ensures refused { IfErr result (IsRefused block.entry memory.new.failed_allocations) }
    ensures memory { CountsAllocFailureInBlock result memory.old memory.new }
    ensures asked { AsksAtMost (exif_request (length block.entry)) memory.old memory.new }
{
    let bytes = block.bytes();
    judge_header(bytes)?;
    let order = order_in(bytes);
    read_tree(memory, bytes, order)
}
