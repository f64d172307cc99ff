// Compares blocks that have meanings. So `Err` of a call is always `OutOfMemory`: an allocation
// failed.
ghost use Rattle.std.specs.Prelude.{◌≡◌, ◌↔◌, ◌+◌, IsTrue, length, IfOk, IfErr};
ghost use Rattle.px_bytes.specs.Allocations.{AsksAtMost};
ghost use Rattle.px_iim.specs.Asking.{iim_request};
ghost use Rattle.px_iim.specs.Group.{Record};
ghost use Rattle.px_iim.specs.Record.{SaysIim};
ghost use Rattle.px_meaning.specs.Says.{SaysExif};
ghost use Rattle.px_meaning.specs.Tree.{Meaning as Tree};
ghost use Rattle.px_meaning.specs.calls.Seen.{meaning_of};
ghost use Rattle.px_tree.specs.Asking.{exif_request};
ghost use Rattle.px_pictures.specs.declared.faults.MetadataFault.TheVariants as fault;
ghost use Rattle.px_pictures.specs.Asking.{exif_requests, iptc_requests};
ghost use Rattle.px_pictures.specs.Faults.{AllExif, AllIptc, AllRead, CountsAllocFailureInMetadata};
ghost use Rattle.px_pictures.specs.Metadata.{blocks_of};
ghost use Rattle.px_pictures.specs.calls.Judging.{MeanSame, PairsMeanSame};

use crate::blocks::{ExifBlocks, IptcBlocks};
use crate::faults::MetadataFault;
use crate::found::Metadata;
use px_bytes::{Block, Memory};
use px_iim::{Iim, read_iim_in, same_iim};
use px_tree::{Meaning, read_block_in, same_meaning};

/// How the blocks of two pictures compare.
#[derive(Clone, Copy, Debug, PartialEq, Eq)]
pub(crate) struct Likeness {
    /// There are as many, and they mean the same, pair by pair.
    pub(crate) same: bool,
    /// Those that both pictures have mean the same, pair by pair.
    pub(crate) alike: bool,
}

// How both kinds of blocks compare, Exif and IPTC.
fn of_both(first: Likeness, second: Likeness) -> Likeness
    ensures same { IsTrue result.same ↔ (IsTrue first.same × IsTrue second.same) }
    ensures alike { IsTrue result.alike ↔ (IsTrue first.alike × IsTrue second.alike) }
{
    Likeness {
        same: first.same && second.same,
        alike: first.alike && second.alike,
    }
}

// The meaning of an Exif block that has one.
fn exif_in<'a>(memory: &mut Memory, bytes: &'a [u8]) -> Result<Meaning<'a>, MetadataFault>
    requires { (m : Tree) × SaysExif bytes.now m }
    ensures meaning { IfOk result (λ m. SaysExif bytes.now (meaning_of m)) }
    ensures fault { IfErr result (λ e. e ≡ fault.OutOfMemory) }
    ensures memory { CountsAllocFailureInMetadata result memory.old memory.new }
    ensures asked { AsksAtMost (exif_request (length bytes.now)) memory.old memory.new }
{
    match Block::new(bytes) {
        Ok(block) => match read_block_in(memory, block) {
            Ok(meaning) => Ok(meaning),
            Err(_) => Err(MetadataFault::OutOfMemory),
        },
        Err(_) => unreachable!(),
    }
}

// Whether the Exif block `bytes`, which has a meaning, has this `meaning`. Each owner of a meaning
// passes it to a call that drops it:
// dropping it at the end of a body would mean a proof about each of its fields.
fn means(memory: &mut Memory, meaning: &Meaning, bytes: &[u8]) -> Result<bool, MetadataFault>
    requires { (m : Tree) × SaysExif bytes.now m }
    ensures same { IfOk result (λ same. (m : Tree) × SaysExif bytes.now m × (IsTrue same ↔ (meaning_of meaning.now ≡ m))) }
    ensures fault { IfErr result (λ e. e ≡ fault.OutOfMemory) }
    ensures memory { CountsAllocFailureInMetadata result memory.old memory.new }
    ensures asked { AsksAtMost (exif_request (length bytes.now)) memory.old memory.new }
{
    let other = exif_in(memory, bytes)?;
    let same = same_meaning(meaning, &other);
    drop(other);
    Ok(same)
}

// Whether two Exif blocks that have meanings have the same meaning.
fn same_exif(memory: &mut Memory, first: &[u8], second: &[u8]) -> Result<bool, MetadataFault>
    requires first { (m : Tree) × SaysExif first.now m }
    requires second { (m : Tree) × SaysExif second.now m }
    ensures same { IfOk result (λ same. (m n : Tree) × SaysExif first.now m × SaysExif second.now n × (IsTrue same ↔ (m ≡ n))) }
    ensures fault { IfErr result (λ e. e ≡ fault.OutOfMemory) }
    ensures memory { CountsAllocFailureInMetadata result memory.old memory.new }
    ensures asked { AsksAtMost (exif_request (length first.now) + exif_request (length second.now)) memory.old memory.new }
{
    let meaning = exif_in(memory, first)?;
    let same = means(memory, &meaning, second);
    drop(meaning);
    same
}

// How Exif blocks that have meanings compare.
fn same_exif_blocks(
    memory: &mut Memory,
    first: ExifBlocks,
    second: ExifBlocks,
) -> Result<Likeness, MetadataFault>
    requires first { AllExif first }
    requires second { AllExif second }
    ensures same { IfOk result (λ found. IsTrue found.same ↔ MeanSame SaysExif first.entry second.entry) }
    ensures alike { IfOk result (λ found. IsTrue found.alike ↔ PairsMeanSame SaysExif first.entry second.entry) }
    ensures fault { IfErr result (λ e. e ≡ fault.OutOfMemory) }
    ensures memory { CountsAllocFailureInMetadata result memory.old memory.new }
    ensures asked { AsksAtMost (exif_requests first.entry + exif_requests second.entry) memory.old memory.new }
{
    px_meaning::laws::one_meaning();
    let mut left = first;
    let mut others = second;
    loop {
        let Some(block) = left.next() else {
            return Ok(Likeness {
                same: others.next().is_none(),
                alike: true,
            });
        };
        let Some(other) = others.next() else {
            return Ok(Likeness {
                same: false,
                alike: true,
            });
        };
        if !same_exif(memory, block, other)? {
            return Ok(Likeness {
                same: false,
                alike: false,
            });
        }
    }
}

// The record of an IPTC block that has one: its DataSets (IIM 4.2).
fn iptc_in<'a>(memory: &mut Memory, bytes: &'a [u8]) -> Result<Iim<'a>, MetadataFault>
    requires { (i : Record) × SaysIim bytes.now i }
    ensures meaning { IfOk result (λ i. SaysIim bytes.now i) }
    ensures fault { IfErr result (λ e. e ≡ fault.OutOfMemory) }
    ensures memory { CountsAllocFailureInMetadata result memory.old memory.new }
    ensures asked { AsksAtMost (iim_request (length bytes.now)) memory.old memory.new }
{
    match read_iim_in(memory, bytes) {
        Ok(iim) => Ok(iim),
        Err(_) => Err(MetadataFault::OutOfMemory),
    }
}

// Whether an IPTC block that has a record has the same record as this one.
fn records(memory: &mut Memory, iim: &Iim, bytes: &[u8]) -> Result<bool, MetadataFault>
    requires { (i : Record) × SaysIim bytes.now i }
    ensures same { IfOk result (λ same. (i : Record) × SaysIim bytes.now i × (IsTrue same ↔ (iim.now ≡ i))) }
    ensures fault { IfErr result (λ e. e ≡ fault.OutOfMemory) }
    ensures memory { CountsAllocFailureInMetadata result memory.old memory.new }
    ensures asked { AsksAtMost (iim_request (length bytes.now)) memory.old memory.new }
{
    let other = iptc_in(memory, bytes)?;
    let same = same_iim(iim, &other);
    drop(other);
    Ok(same)
}

// Whether two IPTC blocks that have records have the same record.
fn same_iptc(memory: &mut Memory, first: &[u8], second: &[u8]) -> Result<bool, MetadataFault>
    requires first { (i : Record) × SaysIim first.now i }
    requires second { (i : Record) × SaysIim second.now i }
    ensures same { IfOk result (λ same. (i j : Record) × SaysIim first.now i × SaysIim second.now j × (IsTrue same ↔ (i ≡ j))) }
    ensures fault { IfErr result (λ e. e ≡ fault.OutOfMemory) }
    ensures memory { CountsAllocFailureInMetadata result memory.old memory.new }
    ensures asked { AsksAtMost (iim_request (length first.now) + iim_request (length second.now)) memory.old memory.new }
{
    let iim = iptc_in(memory, first)?;
    let same = records(memory, &iim, second);
    drop(iim);
    same
}

// How IPTC blocks that have records compare.
fn same_iptc_blocks(
    memory: &mut Memory,
    first: IptcBlocks,
    second: IptcBlocks,
) -> Result<Likeness, MetadataFault>
    requires first { AllIptc first }
    requires second { AllIptc second }
    ensures same { IfOk result (λ found. IsTrue found.same ↔ MeanSame SaysIim first.entry second.entry) }
    ensures alike { IfOk result (λ found. IsTrue found.alike ↔ PairsMeanSame SaysIim first.entry second.entry) }
    ensures fault { IfErr result (λ e. e ≡ fault.OutOfMemory) }
    ensures memory { CountsAllocFailureInMetadata result memory.old memory.new }
    ensures asked { AsksAtMost (iptc_requests first.entry + iptc_requests second.entry) memory.old memory.new }
{
    let mut left = first;
    let mut others = second;
    loop {
        let Some(block) = left.next() else {
            return Ok(Likeness {
                same: others.next().is_none(),
                alike: true,
            });
        };
        let Some(other) = others.next() else {
            return Ok(Likeness {
                same: false,
                alike: true,
            });
        };
        if !same_iptc(memory, block, other)? {
            return Ok(Likeness {
                same: false,
                alike: false,
            });
        }
    }
}

// How the blocks of two pictures compare that all have meanings.
pub(crate) fn same_blocks(
    memory: &mut Memory,
    first: &Metadata,
    second: &Metadata,
) -> Result<Likeness, MetadataFault>
    requires first { AllRead (blocks_of first.now) }
    requires second { AllRead (blocks_of second.now) }
    ensures same { let x = blocks_of first.now in let y = blocks_of second.now in IfOk result (λ found. IsTrue found.same
        ↔ (MeanSame SaysExif x.exif y.exif × MeanSame SaysIim x.iptc y.iptc)) }
    ensures alike { let x = blocks_of first.now in let y = blocks_of second.now in IfOk result (λ found. IsTrue found.alike
        ↔ (PairsMeanSame SaysExif x.exif y.exif × PairsMeanSame SaysIim x.iptc y.iptc)) }
    ensures fault { IfErr result (λ e. e ≡ fault.OutOfMemory) }
    ensures memory { CountsAllocFailureInMetadata result memory.old memory.new }
    ensures asked { let x = blocks_of first.now in let y = blocks_of second.now in AsksAtMost (exif_requests x.exif + exif_requests y.exif
        + (iptc_requests x.iptc + iptc_requests y.iptc)) memory.old memory.new }
{
    let exif = same_exif_blocks(memory, first.exif(), second.exif())?;
    let iptc = same_iptc_blocks(memory, first.iptc(), second.iptc())?;
    Ok(of_both(exif, iptc))
}
