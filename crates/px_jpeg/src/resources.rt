// Photoshop's image resources. Adobe Photoshop File Formats Specification, "Image Resource Blocks".
ghost use Rattle.std.specs.Prelude.{◌≡◌, ◌≤◌, ◌<◌, ◌+◌, ◌*◌, ◌%◌, ◌^◌, ℕ, length, min, take, drop, true, false, MatchOption};
ghost use Rattle.px_jpeg.specs.Resources.{HasResources, ResourcesInside};
ghost use Rattle.px_jpeg.specs.ResourceReading.{is_signature, number4, place, is_resource, resource, step, resources_of, rest_of};

use crate::bytes::{number4, rest};
use std::marker::Model;

/// One of Photoshop's image resources.
#[derive(Clone, Copy, Debug, PartialEq, Eq)]
pub struct Resource {
    /// Its number: 0x0404 for IPTC's DataSets.
    pub number: usize,
    /// The offset of its data.
    pub start: usize,
    /// The number of bytes of its data.
    pub size: usize,
}

// Whether the four bytes are a signature.
#[tactic(auto, unfolding(crate::specs::ResourceReading::is_signature))]
fn is_signature(octets: &[u8]) -> bool
    ensures { result ≡ is_signature octets.now }
{
    octets.starts_with(b"8BIM")
        || octets.starts_with(b"PHUT")
        || octets.starts_with(b"AgHg")
        || octets.starts_with(b"DCSR")
        || octets.starts_with(b"MeSa")
}

// The resource at the start of some bytes, which are at offset `at`. None: no whole one is there.
fn read_resource(octets: &[u8], at: usize) -> Option<Resource>
    requires { at + length octets.now < 2 ^ 63 }
    ensures { MatchOption result (is_resource octets.now ≡ false)
        (λ r. (is_resource octets.now ≡ true) × (r ≡ resource at octets.now)) }
{
    if octets.len() < 12 {
        return None;
    }
    if !is_signature(octets.split_at(4).0) {
        return None;
    }
    let name = usize::from(octets[6]) + 1;
    let place = 6 + name + name % 2;
    if octets.len() < place + 4 {
        return None;
    }
    let size = number4(rest(octets, place));
    if octets.len() - (place + 4) < size {
        return None;
    }
    Some(Resource {
        number: 256 * usize::from(octets[4]) + usize::from(octets[5]),
        start: at + place + 4,
        size,
    })
}

// The offset after a resource in `len` bytes, and after the byte that pads its data, which may be missing at the end.
fn after(found: &Resource, len: usize) -> usize
    requires inside { found.now.start + found.now.size ≤ len }
    requires bound { len < 2 ^ 63 }
    ensures { result ≡ min len (found.now.start + found.now.size + found.now.size % 2) }
{
    len.min(found.start + found.size + found.size % 2)
}

/// Photoshop's image resources at the start of some bytes, in order. They end where no resource is: Photoshop
/// writes nothing after the last, other programs write zeros. Allocates nothing.
pub fn find_resources<'a>(bytes: &'a [u8]) -> Resources<'a>
    ensures meaning { HasResources bytes.now result (rest_of bytes.now) }
    ensures computed { result ≡ resources_of 0 bytes.now }
    ensures inside { ResourcesInside bytes.now result }
{
    Resources { bytes, at: 0 }
}

/// The resources that are left, in order: the result of `find_resources`. Contracts see their list. It allocates
/// nothing.
#[derive(Drop)]
pub struct Resources<'a> {
    bytes: &'a [u8],
    // The offset of the next resource.
    at: usize,
}

impl<'a> Model for Resources<'a> {
    ghost use Rattle.std.specs.Prelude.{◌≤◌, List, length, drop};
    ghost use Rattle.px_jpeg.specs.declared.resources.Resource.{Resource};
    ghost use Rattle.px_jpeg.specs.ResourceReading.{resources_of};

    ghost Value = { List Resource };

    ghost view = { λ s. resources_of s.at (drop s.at s.bytes.now) };

    ghost invariant = { λ s. s.at ≤ length s.bytes.now };
}

impl<'a> Resources<'a> {
    /// The number of resources that are left.
    pub fn len(&self) -> usize
        ensures { result ≡ length self.now }
    {
        let left = Resources {
            bytes: self.bytes,
            at: self.at,
        };
        left.count()
    }
}

impl<'a> Iterator for Resources<'a> {
    ghost use Rattle.std.specs.Iterator.{item_count, YieldsFirst};

    type Item = Resource;

    ghost next_gives = { YieldsFirst (λ left. left) };

    ghost remaining = { item_count (λ left. left) };

    // Reads the resource at the offset `at`, and passes its padding. None: no whole resource begins
    // here.
    fn next(&mut self) -> Option<Resource> {
        let bytes = self.bytes;
        let at = self.at;
        let Some(found) = read_resource(rest(bytes, at), at) else {
            return None;
        };
        self.at = after(&found, bytes.len());
        Some(found)
    }
}
