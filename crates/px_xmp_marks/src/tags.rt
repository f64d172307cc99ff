// Tags. XML 1.0, productions 40, 42 and 44.
ghost use Rattle.std.specs.Prelude.{◌≡◌, ◌≤◌, ◌+◌, ◌==◌, length, option_map, IfSome};
ghost use Rattle.px_xmp_marks.specs.Reading.{ends_tag, attributes_len, tag_end, start_tag, start_tag_view, end_tag, end_tag_view};

use crate::attributes::read_attribute;
use crate::names::{Name, begins_with, read_name, space_len};

/// A start tag or the tag of an empty element, as it is written.
#[derive(Clone, Copy, Debug, PartialEq, Eq)]
pub struct StartTag<'a> {
    /// The name of the element.
    pub name: Name<'a>,
    /// The octets that follow the name: the attributes, the end of the tag, and all after it.
    pub rest: &'a [u8],
    /// Whether the tag is that of an empty element, which ends with `/>`.
    pub is_empty: bool,
    /// The length of the tag.
    pub size: usize,
}

/// An end tag, as it is written.
#[derive(Clone, Copy, Debug, PartialEq, Eq)]
pub struct EndTag<'a> {
    /// The name of the element.
    pub name: Name<'a>,
    /// The length of the tag.
    pub size: usize,
}

// Whether the end of a tag is at the start.
pub(crate) fn ends_tag(octets: &[u8]) -> bool
    ensures { result ≡ ends_tag octets.now }
{
    begins_with(octets, b'>') || begins_with(octets, b'/')
}

// The length of the attributes at the start, with the white space around them, up to the end of a
// tag. None: what is there is no attributes of a tag.
fn attributes_len(octets: &[u8]) -> Option<usize>
    ensures value { result ≡ attributes_len octets.now }
    ensures within { IfSome result (λ n. n + 1 ≤ length octets.now) }
{
    let mut at = 0;
    loop {
        let rest = octets.split_at(at).1;
        let space = space_len(rest);
        let after = rest.split_at(space).1;
        if ends_tag(after) {
            return Some(at + space);
        }
        if space == 0 {
            return None;
        }
        let Some(attribute) = read_attribute(after) else {
            return None;
        };
        at += space + attribute.size;
    }
}

// The length of the end of a start tag, which is 2 if the element is empty.
#[tactic(auto, unfolding(crate::specs::Reading::tag_end))]
pub(crate) fn tag_end_len(octets: &[u8]) -> Option<usize>
    ensures value { option_map (λ n. (n == 2, n)) result ≡ tag_end octets.now }
    ensures within { IfSome result (λ n. (1 ≤ n) × (n ≤ length octets.now)) }
{
    if begins_with(octets, b'>') {
        return Some(1);
    }
    if octets.starts_with(b"/>") {
        return Some(2);
    }
    None
}

/// The start tag, or the tag of an empty element, at the start of some octets. None if they begin with none whose
/// names are of ASCII. It allocates nothing. XML 1.0, productions 40 and 44.
#[tactic(auto, unfolding(crate::specs::Reading::start_tag))]
pub fn read_start_tag<'a>(octets: &'a [u8]) -> Option<StartTag<'a>>
    ensures value { option_map start_tag_view result ≡ start_tag octets.now }
    ensures within { IfSome result (λ t. (1 ≤ t.size) × (t.size ≤ length octets.now)) }
{
    if !begins_with(octets, b'<') {
        return None;
    }
    let after = octets.split_at(1).1;
    let Some(name) = read_name(after) else {
        return None;
    };
    let rest = after.split_at(name.size).1;
    let Some(len) = attributes_len(rest) else {
        return None;
    };
    let Some(end) = tag_end_len(rest.split_at(len).1) else {
        return None;
    };
    Some(StartTag {
        name,
        rest,
        is_empty: end == 2,
        size: 1 + name.size + len + end,
    })
}

/// The end tag at the start of some octets. None if they begin with none whose name is of ASCII. It allocates nothing.
/// XML 1.0, production 42.
#[tactic(auto, unfolding(crate::specs::Reading::end_tag))]
pub fn read_end_tag<'a>(octets: &'a [u8]) -> Option<EndTag<'a>>
    ensures value { option_map end_tag_view result ≡ end_tag octets.now }
    ensures within { IfSome result (λ t. (1 ≤ t.size) × (t.size ≤ length octets.now)) }
{
    if !octets.starts_with(b"</") {
        return None;
    }
    let after = octets.split_at(2).1;
    let Some(name) = read_name(after) else {
        return None;
    };
    let rest = after.split_at(name.size).1;
    let space = space_len(rest);
    if !begins_with(rest.split_at(space).1, b'>') {
        return None;
    }
    Some(EndTag {
        name,
        size: 2 + name.size + space + 1,
    })
}
