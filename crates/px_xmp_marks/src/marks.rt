// Marks in a row. XML 1.0, 2.4 and 3.1.
ghost use Rattle.std.specs.Prelude.{◌≡◌, ◌≤◌, ◌+◌, Some, length, option_map, IfSome, MatchOption};
ghost use Rattle.px_xmp_marks.specs.Reading.{start_tag, start_tag_view};
ghost use Rattle.px_xmp_marks.specs.Marks.{data_len, text_len, tag_len, other_len, mark_len, IsRow, IsFirstBadMark};

use crate::comments::read_comment;
use crate::instructions::read_instruction;
use crate::names::begins_with;
use crate::searching::{has_section_end, len_before, plain_len};
use crate::sections::read_section;
use crate::tags::{StartTag, read_end_tag, read_start_tag};
use px_xmp_text::{TextKind, first_fault};

// The number of octets before the first `<`.
fn data_len(octets: &[u8]) -> usize
    ensures value { result ≡ data_len octets.now }
    ensures within { result ≤ length octets.now }
{
    len_before(octets, b'<')
}

// The length of the character data at the start. None: there is none, or it has a reference or a `]`.
fn plain_text_len(octets: &[u8]) -> Option<usize>
    ensures value { IfSome result (λ n. text_len octets.now ≡ Some n) }
    ensures within { IfSome result (λ n. (1 ≤ n) × (n ≤ length octets.now)) }
{
    px_xmp_text::laws::no_fault_unless_reference();
    let Some(len) = plain_len(octets) else {
        return None;
    };
    if len == 0 {
        return None;
    }
    Some(len)
}

// The length of the character data at the start, which may have references. None: there are none,
// or they are wrong.
#[tactic(auto, unfolding(crate::specs::Marks::text_len))]
#[inline(never)]
fn whole_text_len(octets: &[u8]) -> Option<usize>
    ensures value { result ≡ text_len octets.now }
    ensures within { IfSome result (λ n. (1 ≤ n) × (n ≤ length octets.now)) }
{
    let len = data_len(octets);
    if len == 0 {
        return None;
    }
    let data = octets.split_at(len).0;
    if has_section_end(data) {
        return None;
    }
    if first_fault(data, TextKind::CharacterData).is_some() {
        return None;
    }
    Some(len)
}

// The length of the character data at the start, with its references. Most have none, and one look is enough.
fn text_len(octets: &[u8]) -> Option<usize>
    ensures value { result ≡ text_len octets.now }
    ensures within { IfSome result (λ n. (1 ≤ n) × (n ≤ length octets.now)) }
{
    match plain_text_len(octets) {
        Some(len) => Some(len),
        None => whole_text_len(octets),
    }
}

// The length of the tag at the start. None: there is none.
#[tactic(auto, unfolding(crate::specs::Marks::tag_len))]
fn tag_len(octets: &[u8]) -> Option<usize>
    ensures value { result ≡ tag_len octets.now }
    ensures within { IfSome result (λ n. (1 ≤ n) × (n ≤ length octets.now)) }
{
    match read_start_tag(octets) {
        Some(tag) => Some(tag.size),
        None => match read_end_tag(octets) {
            Some(tag) => Some(tag.size),
            None => None,
        },
    }
}

// The length of the comment, the section or the processing instruction at the start. None: there is
// none of them.
#[tactic(auto, unfolding(crate::specs::Marks::other_len))]
fn other_len(octets: &[u8]) -> Option<usize>
    ensures value { result ≡ other_len octets.now }
    ensures within { IfSome result (λ n. (1 ≤ n) × (n ≤ length octets.now)) }
{
    match read_comment(octets) {
        Some(content) => Some(content.len() + 7),
        None => match read_section(octets) {
            Some(content) => Some(content.len() + 12),
            None => read_instruction(octets),
        },
    }
}

/// The length of the mark at the start of some octets: a tag, a section, a comment or a processing instruction, or all
/// character data up to the next one. None if they begin with none. It allocates nothing. XML 1.0, productions 14 and 43.
#[tactic(auto, unfolding(crate::specs::Marks::mark_len))]
pub fn mark_len(octets: &[u8]) -> Option<usize>
    ensures value { result ≡ mark_len octets.now }
    ensures within { IfSome result (λ n. (1 ≤ n) × (n ≤ length octets.now)) }
{
    if !begins_with(octets, b'<') {
        return text_len(octets);
    }
    match tag_len(octets) {
        Some(len) => Some(len),
        None => other_len(octets),
    }
}

/// A mark, and the start tag that it is, if it is one.
#[derive(Clone, Copy, Debug, PartialEq, Eq)]
pub struct Mark<'a> {
    /// The start tag, or the tag of an empty element.
    pub tag: Option<StartTag<'a>>,
    /// The length of the mark.
    pub size: usize,
}

/// The mark at the start of some octets, with the length that `mark_len` returns. It reads a start tag once. None if they
/// begin with no mark. It allocates nothing.
pub fn read_mark<'a>(octets: &'a [u8]) -> Option<Mark<'a>>
    ensures size { option_map (λ m. m.size) result ≡ mark_len octets.now }
    ensures tag { IfSome result (λ m. option_map start_tag_view m.tag ≡ start_tag octets.now) }
    ensures within { IfSome result (λ m. (1 ≤ m.size) × (m.size ≤ length octets.now)) }
{
    if let Some(tag) = read_start_tag(octets) {
        return Some(Mark {
            tag: Some(tag),
            size: tag.size,
        });
    }
    let Some(size) = mark_len(octets) else {
        return None;
    };
    Some(Mark { tag: None, size })
}

/// The offset of the first place where no mark is. None: the octets are marks in a row. It allocates nothing.
pub fn first_bad_mark(octets: &[u8]) -> Option<usize>
    ensures { MatchOption result (IsRow octets.now) (IsFirstBadMark octets.now) }
{
    let mut at = 0;
    while at < octets.len() {
        match mark_len(octets.split_at(at).1) {
            Some(len) => at += len,
            None => return Some(at),
        }
    }
    None
}
