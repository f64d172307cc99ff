// The marks of a document, as RDF needs them.
ghost use Rattle.std.specs.Prelude.{◌≡◌, ◌≤◌, length, option_map, IfSome};
ghost use Rattle.px_xmp_marks.specs.Reading.{begins_with};
ghost use Rattle.px_xmp_marks.specs.Marks.{data_len};
ghost use Rattle.px_xmp.specs.Reading.{mark_view, data_read, section_read, comment_read, instruction_read, other_read, tag_read, read};

use px_xmp_marks::{
    StartTag, len_before, read_comment, read_end_tag, read_instruction, read_section,
    read_start_tag,
};
use px_xmp_text::TextKind;

// A text, as it is written.
#[derive(Clone, Copy, Debug, PartialEq, Eq)]
pub(crate) struct Text<'a> {
    pub(crate) octets: &'a [u8],
    pub(crate) kind: TextKind,
}

// What a mark is.
#[derive(Clone, Copy, Debug, PartialEq, Eq)]
pub(crate) enum MarkKind<'a> {
    Start(StartTag<'a>),
    End,
    Text(Text<'a>),
    // A comment or a processing instruction.
    Other,
}

// A mark, and its length.
#[derive(Clone, Copy, Debug, PartialEq, Eq)]
pub(crate) struct Mark<'a> {
    pub(crate) kind: MarkKind<'a>,
    pub(crate) size: usize,
}

// Whether octets begin with `<`.
fn begins_markup(octets: &[u8]) -> bool
    ensures { result ≡ begins_with 60 octets.now }
{
    !octets.is_empty() && octets[0] == b'<'
}

// The character data at the start. None: there are none.
#[tactic(auto, unfolding(crate::specs::Reading::data_read))]
fn data<'a>(octets: &'a [u8]) -> Option<Mark<'a>>
    ensures value { option_map mark_view result ≡ data_read octets.now }
    ensures within { IfSome result (λ m. (1 ≤ m.size) × (m.size ≤ length octets.now)) }
{
    let size = len_before(octets, b'<');
    if size == 0 {
        return None;
    }
    Some(Mark {
        kind: MarkKind::Text(Text {
            octets: octets.split_at(size).0,
            kind: TextKind::CharacterData,
        }),
        size,
    })
}

// The CDATA section at the start (XML 1.0, 2.7). None: there is none.
#[tactic(auto, unfolding(crate::specs::Reading::section_read))]
fn section<'a>(octets: &'a [u8]) -> Option<Mark<'a>>
    ensures value { option_map mark_view result ≡ section_read octets.now }
    ensures within { IfSome result (λ m. (1 ≤ m.size) × (m.size ≤ length octets.now)) }
{
    let Some(content) = read_section(octets) else {
        return None;
    };
    Some(Mark {
        kind: MarkKind::Text(Text {
            octets: content,
            kind: TextKind::CdataSection,
        }),
        size: content.len() + 12,
    })
}

// The comment at the start (XML 1.0, 2.5). None: there is none.
#[tactic(auto, unfolding(crate::specs::Reading::comment_read))]
fn comment<'a>(octets: &'a [u8]) -> Option<Mark<'a>>
    ensures value { option_map mark_view result ≡ comment_read octets.now }
    ensures within { IfSome result (λ m. (1 ≤ m.size) × (m.size ≤ length octets.now)) }
{
    let Some(content) = read_comment(octets) else {
        return None;
    };
    Some(Mark {
        kind: MarkKind::Other,
        size: content.len() + 7,
    })
}

// The processing instruction at the start (XML 1.0, 2.6). None: there is none.
#[tactic(auto, unfolding(crate::specs::Reading::instruction_read))]
fn instruction<'a>(octets: &'a [u8]) -> Option<Mark<'a>>
    ensures value { option_map mark_view result ≡ instruction_read octets.now }
    ensures within { IfSome result (λ m. (1 ≤ m.size) × (m.size ≤ length octets.now)) }
{
    let Some(size) = read_instruction(octets) else {
        return None;
    };
    Some(Mark {
        kind: MarkKind::Other,
        size,
    })
}

// The section, the comment or the processing instruction at the start. None: there is none of them.
#[tactic(auto, unfolding(crate::specs::Reading::other_read))]
fn other<'a>(octets: &'a [u8]) -> Option<Mark<'a>>
    ensures value { option_map mark_view result ≡ other_read octets.now }
    ensures within { IfSome result (λ m. (1 ≤ m.size) × (m.size ≤ length octets.now)) }
{
    match section(octets) {
        Some(mark) => Some(mark),
        None => match comment(octets) {
            Some(mark) => Some(mark),
            None => instruction(octets),
        },
    }
}

// The start tag or the end tag at the start (XML 1.0, 3.1). None: there is none.
#[tactic(auto, unfolding(crate::specs::Reading::tag_read))]
fn tag<'a>(octets: &'a [u8]) -> Option<Mark<'a>>
    ensures value { option_map mark_view result ≡ tag_read octets.now }
    ensures within { IfSome result (λ m. (1 ≤ m.size) × (m.size ≤ length octets.now)) }
{
    match read_start_tag(octets) {
        Some(tag) => Some(Mark {
            kind: MarkKind::Start(tag),
            size: tag.size,
        }),
        None => match read_end_tag(octets) {
            Some(tag) => Some(Mark {
                kind: MarkKind::End,
                size: tag.size,
            }),
            None => None,
        },
    }
}

// The mark at the start of some octets of a document that has no fault: so texts are not judged again. None if they begin
// with no mark.
#[tactic(auto, unfolding(crate::specs::Reading::read))]
pub(crate) fn read_mark<'a>(octets: &'a [u8]) -> Option<Mark<'a>>
    ensures value { option_map mark_view result ≡ read octets.now }
    ensures within { IfSome result (λ m. (1 ≤ m.size) × (m.size ≤ length octets.now)) }
{
    if !begins_markup(octets) {
        return data(octets);
    }
    match tag(octets) {
        Some(mark) => Some(mark),
        None => other(octets),
    }
}
