// A start tag and its attributes, read at once.
ghost use Rattle.std.specs.Prelude.{◌≡◌, ◌≤◌, ◌+◌, ◌<◌, length, map, set, take, option_map, IfSome, Some};
ghost use Rattle.px_xmp_marks.specs.Reading.{attribute_view, attributes_len, attributes_of, start_tag, start_tag_view};

use crate::attributes::{Attribute, read_attribute};
use crate::names::{begins_with, read_name, space_len};
use crate::tags::{StartTag, ends_tag, tag_end_len};

/// A start tag or the tag of an empty element, and the number of its attributes.
#[derive(Clone, Copy, Debug, PartialEq, Eq)]
pub struct StoredTag<'a> {
    /// The tag.
    pub tag: StartTag<'a>,
    /// How many attributes it has.
    pub len: usize,
}

// The attributes of a tag: how many octets precede its end, and how many attributes they are.
#[derive(Clone, Copy, Debug, PartialEq, Eq)]
struct Attributes {
    size: usize,
    len: usize,
}

// Stores an attribute at a place, if there is one.
fn store<'a>(space: &mut [Attribute<'a>], at: usize, attribute: Attribute<'a>)
    ensures stored { at < length space.old → space.new ≡ set space.old at attribute.entry }
    ensures size { length space.new ≡ length space.old }
{
    if at < space.len() {
        space[at] = attribute;
    }
}

// Reads the attributes at the start, up to the end of a tag, and stores the first of them in
// `space`, as many as there is space for. The result counts all. None: no attributes are there.
fn store_attributes<'a>(octets: &'a [u8], space: &mut [Attribute<'a>]) -> Option<Attributes>
    ensures value { option_map (λ s. s.size) result ≡ attributes_len octets.now }
    ensures stored { IfSome result (λ s. s.len ≤ length space.new
        → option_map (λ r. r.0) (attributes_of octets.now) ≡ Some (map attribute_view (take s.len space.new))) }
    ensures within { IfSome result (λ s. s.size + 1 ≤ length octets.now) }
    ensures size { length space.new ≡ length space.old }
{
    let mut at = 0;
    let mut len = 0;
    loop {
        let rest = octets.split_at(at).1;
        let space_size = space_len(rest);
        let after = rest.split_at(space_size).1;
        if ends_tag(after) {
            return Some(Attributes {
                size: at + space_size,
                len,
            });
        }
        if space_size == 0 {
            return None;
        }
        let Some(attribute) = read_attribute(after) else {
            return None;
        };
        store(space, len, attribute);
        len += 1;
        at += space_size + attribute.size;
    }
}

/// The start tag, or the tag of an empty element, at the start of some octets, as `read_start_tag` reads it. The space
/// receives its first attributes in their order: all, if it has room for so many. It allocates nothing.
#[tactic(auto, unfolding(crate::specs::Reading::start_tag))]
pub fn read_stored_tag<'a>(octets: &'a [u8], space: &mut [Attribute<'a>]) -> Option<StoredTag<'a>>
    ensures value { option_map (λ s. start_tag_view s.tag) result ≡ start_tag octets.now }
    ensures stored { IfSome result (λ s. s.len ≤ length space.new
        → option_map (λ r. r.0) (attributes_of s.tag.rest.now) ≡ Some (map attribute_view (take s.len space.new))) }
    ensures within { IfSome result (λ s. (1 ≤ s.tag.size) × (s.tag.size ≤ length octets.now)) }
    ensures size { length space.new ≡ length space.old }
{
    if !begins_with(octets, b'<') {
        return None;
    }
    let after = octets.split_at(1).1;
    let Some(name) = read_name(after) else {
        return None;
    };
    let rest = after.split_at(name.size).1;
    let Some(attributes) = store_attributes(rest, space) else {
        return None;
    };
    let Some(end) = tag_end_len(rest.split_at(attributes.size).1) else {
        return None;
    };
    Some(StoredTag {
        tag: StartTag {
            name,
            rest,
            is_empty: end == 2,
            size: 1 + name.size + attributes.size + end,
        },
        len: attributes.len,
    })
}
