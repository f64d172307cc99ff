// The kinds of marks. XML 1.0, 2.8, 3 and 3.1.
ghost use Rattle.std.specs.Prelude.{◌≡◌, ◌≤◌, length, option_map, None, IfSome};
ghost use Rattle.px_xmp_marks.specs.Reading.{is_space, name_view, start_tag, end_tag};
ghost use Rattle.px_xmp_marks.specs.Declarations.{every};
ghost use Rattle.px_xmp_markup.specs.Kinds.{kind_view, mark_view, start_kind, other_kind, mark};

use px_xmp_marks::{Name, mark_len, read_end_tag, read_start_tag};

/// What a mark is.
#[derive(Clone, Copy, Debug, PartialEq, Eq)]
pub enum MarkKind<'a> {
    /// The start tag of an element.
    Opening(Name<'a>),
    /// The end tag of an element.
    Closing(Name<'a>),
    /// The tag of an empty element.
    Alone(Name<'a>),
    /// A comment, a processing instruction, or white space alone.
    Misc,
    /// A section, or another text.
    Data,
}

/// A mark, and its length.
#[derive(Clone, Copy, Debug, PartialEq, Eq)]
pub struct Mark<'a> {
    /// What it is.
    pub kind: MarkKind<'a>,
    /// Its length.
    pub size: usize,
}

// Whether an octet is white space.
fn is_space(octet: u8) -> bool
    ensures { result ≡ is_space octet }
{
    octet == b' ' || octet == b'\t' || octet == b'\n' || octet == b'\r'
}

// Whether each of a few octets is white space.
fn are_few_spaces(octets: &[u8]) -> bool
    ensures { result ≡ every is_space octets.now }
{
    for octet in octets {
        if !is_space(*octet) {
            return false;
        }
    }
    true
}

// Up to this many octets are looked at one after another, which is faster than a search for so few.
const FEW: usize = 48;

// Whether each octet is white space.
fn are_spaces(octets: &[u8]) -> bool
    ensures { result ≡ every is_space octets.now }
{
    if octets.len() < FEW {
        return are_few_spaces(octets);
    }
    // without an end before the last octet, so that many are looked at at once
    let mut all = true;
    for octet in octets {
        all &= is_space(*octet);
    }
    all
}

/// The kind of a start tag, or of the tag of an empty element, with this name. It allocates nothing.
pub fn start_kind<'a>(is_empty: bool, name: Name<'a>) -> MarkKind<'a>
    ensures { kind_view result ≡ start_kind is_empty (name_view name.entry) }
{
    if is_empty {
        return MarkKind::Alone(name);
    }
    MarkKind::Opening(name)
}

// The kind of a mark that is no tag.
fn other_kind<'a>(octets: &'a [u8], size: usize) -> MarkKind<'a>
    requires { size ≤ length octets.now }
    ensures { kind_view result ≡ other_kind octets.now size }
{
    if octets.starts_with(b"<![") {
        return MarkKind::Data;
    }
    if octets.starts_with(b"<") {
        return MarkKind::Misc;
    }
    if are_spaces(octets.split_at(size).0) {
        return MarkKind::Misc;
    }
    MarkKind::Data
}

/// The mark at the start of some octets that begin with no tag. None if they begin with no mark. It allocates nothing.
#[tactic(auto, unfolding(crate::specs::Kinds::mark))]
pub fn read_other_mark<'a>(octets: &'a [u8]) -> Option<Mark<'a>>
    requires start { start_tag octets.now ≡ None }
    requires end { end_tag octets.now ≡ None }
    ensures value { option_map mark_view result ≡ mark octets.now }
    ensures within { IfSome result (λ m. (1 ≤ m.size) × (m.size ≤ length octets.now)) }
{
    let Some(size) = mark_len(octets) else {
        return None;
    };
    Some(Mark {
        kind: other_kind(octets, size),
        size,
    })
}

/// The mark at the start of some octets. None if they begin with none. It allocates nothing.
#[tactic(auto, unfolding(crate::specs::Kinds::mark))]
pub fn read_mark<'a>(octets: &'a [u8]) -> Option<Mark<'a>>
    ensures value { option_map mark_view result ≡ mark octets.now }
    ensures within { IfSome result (λ m. (1 ≤ m.size) × (m.size ≤ length octets.now)) }
{
    if let Some(tag) = read_start_tag(octets) {
        return Some(Mark {
            kind: start_kind(tag.is_empty, tag.name),
            size: tag.size,
        });
    }
    if let Some(tag) = read_end_tag(octets) {
        return Some(Mark {
            kind: MarkKind::Closing(tag.name),
            size: tag.size,
        });
    }
    let Some(size) = mark_len(octets) else {
        return None;
    };
    Some(Mark {
        kind: other_kind(octets, size),
        size,
    })
}
