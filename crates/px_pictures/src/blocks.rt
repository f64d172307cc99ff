// The Exif blocks of a picture, and its IPTC blocks.
ghost use Rattle.std.specs.Prelude.{◌≡◌, ◌∷◌, [], option_map, MatchOption};
ghost use Rattle.px_jpeg.specs.Blocks.{exif_in};
ghost use Rattle.px_jpeg.specs.ResourceReading.{resources_of};
ghost use Rattle.px_pictures.specs.calls.Runs.{block_of, records, records_in};

use crate::ranges::range;
use crate::runs::{Run, Runs};
use px_jpeg::{Resources, SegmentKind, find_resources};
use std::marker::Model;

// The number of the image resource with IPTC's DataSets.
const IPTC: usize = 0x0404;

// The bytes of an Exif block. None: the block is of another kind.
fn exif_of<'b>(run: &Run<'b>) -> Option<&'b [u8]>
    ensures { option_map (λ x. x.now) result ≡ exif_in (block_of run.now) }
{
    match run.kind {
        SegmentKind::Exif => Some(run.octets),
        SegmentKind::Photoshop => None,
        SegmentKind::Xmp => None,
        SegmentKind::ExtendedXmp => None,
    }
}

// The bytes of Photoshop's resources; none of a block of another kind.
fn resources_in<'b>(run: &Run<'b>) -> &'b [u8]
    ensures { records result.now (resources_of 0 result.now) ≡ records_in (block_of run.now) }
{
    match run.kind {
        SegmentKind::Exif => run.octets.split_at(0).0,
        SegmentKind::Photoshop => run.octets,
        SegmentKind::Xmp => run.octets.split_at(0).0,
        SegmentKind::ExtendedXmp => run.octets.split_at(0).0,
    }
}

// The data of the next resource 0x0404 of `left` that has a byte. None: no such resource is left.
fn next_record<'b>(octets: &'b [u8], left: &mut Resources<'b>) -> Option<&'b [u8]>
    ensures { MatchOption result ((records octets.now left.old ≡ []) × (records octets.now left.new ≡ []))
        (λ x. records octets.now left.old ≡ x.now ∷ records octets.now left.new) }
{
    loop {
        let Some(found) = left.next() else {
            return None;
        };
        let block = range(octets, found.start, found.size);
        if found.number == IPTC && !block.is_empty() {
            return Some(block);
        }
    }
}

/// The Exif blocks of a picture that are left, in order: the result of `Metadata::exif`. Contracts see their list.
/// It allocates nothing.
#[derive(Drop)]
pub struct ExifBlocks<'b, 'a> {
    pub(crate) runs: Runs<'b, 'a>,
}

impl<'b, 'a> Model for ExifBlocks<'b, 'a> {
    ghost use Rattle.std.specs.Prelude.{ℕ, List, filter_map};
    ghost use Rattle.px_jpeg.specs.Blocks.{exif_in};

    ghost Value = { List (List ℕ) };

    ghost view = { λ s. filter_map exif_in s.runs };
}

impl<'b, 'a> Iterator for ExifBlocks<'b, 'a> {
    ghost use Rattle.std.specs.Iterator.{item_count, YieldsFirstRef};

    type Item = &'b [u8];

    ghost next_gives = { YieldsFirstRef (λ left. left) };

    ghost remaining = { item_count (λ left. left) };

    // The next block of Exif, without those of other kinds. None: no block is left.
    fn next(&mut self) -> Option<&'b [u8]> {
        loop {
            let Some(run) = self.runs.next_run() else {
                return None;
            };
            if let Some(block) = exif_of(&run) {
                return Some(block);
            }
        }
    }
}

/// The IPTC blocks of a picture that are left, in order: the result of `Metadata::iptc`. Contracts see their list.
/// It allocates nothing.
#[derive(Drop)]
pub struct IptcBlocks<'b, 'a> {
    // Photoshop's resources that are read, and their bytes.
    pub(crate) octets: &'b [u8],
    pub(crate) resources: Resources<'b>,
    pub(crate) runs: Runs<'b, 'a>,
}

impl<'b, 'a> Model for IptcBlocks<'b, 'a> {
    ghost use Rattle.std.specs.Prelude.{◌++◌, ℕ, List, flat_map};
    ghost use Rattle.px_pictures.specs.calls.Runs.{records, records_in};

    ghost Value = { List (List ℕ) };

    ghost view = { λ s. records s.octets.now s.resources ++ flat_map records_in s.runs };
}

impl<'b, 'a> Iterator for IptcBlocks<'b, 'a> {
    ghost use Rattle.std.specs.Iterator.{item_count, YieldsFirstRef};

    type Item = &'b [u8];

    ghost next_gives = { YieldsFirstRef (λ left. left) };

    ghost remaining = { item_count (λ left. left) };

    // The next resource with IPTC, of this block of Photoshop or of those after it. None: no block
    // is left.
    fn next(&mut self) -> Option<&'b [u8]> {
        loop {
            if let Some(block) = next_record(self.octets, &mut self.resources) {
                return Some(block);
            }
            let Some(run) = self.runs.next_run() else {
                return None;
            };
            self.octets = resources_in(&run);
            self.resources = find_resources(self.octets);
        }
    }
}
