// The parts of a normal form. It has one way of writing, so that no parser of XML is needed.
ghost use Rattle.std.specs.Prelude.{◌≤◌, ◌<◌, length};

// What the value of a property or a member is, or the end of one that has others inside.
#[derive(Clone, Copy, Debug, PartialEq, Eq)]
pub(crate) enum Kind {
    Text,
    Uri,
    Structure,
    Bag,
    Seq,
    Alt,
    End,
}

// A property or a member up to what is inside it, or its end. A member has neither a namespace nor a name.
#[derive(Clone, Copy, Debug, PartialEq, Eq)]
pub(crate) struct Part<'a> {
    pub(crate) kind: Kind,
    pub(crate) space: &'a [u8],
    pub(crate) name: &'a [u8],
    pub(crate) language: &'a [u8],
    pub(crate) text: &'a [u8],
    pub(crate) size: usize,
}

// What precedes an octet, and what follows it.
#[derive(Clone, Copy, Debug, PartialEq, Eq)]
struct Cut<'a> {
    before: &'a [u8],
    after: &'a [u8],
}

// A property's name, and what follows it.
#[derive(Clone, Copy, Debug, PartialEq, Eq)]
struct Label<'a> {
    space: &'a [u8],
    name: &'a [u8],
    rest: &'a [u8],
}

// A value, and what follows it.
#[derive(Clone, Copy, Debug, PartialEq, Eq)]
struct Value<'a> {
    kind: Kind,
    language: &'a [u8],
    text: &'a [u8],
    rest: &'a [u8],
}

// The octets after the first `len`, or none if there are fewer.
pub(crate) fn skip<'a>(octets: &'a [u8], len: usize) -> &'a [u8] {
    octets.split_at(len.min(octets.len())).1
}

// The octets after a part, which has one octet or more.
pub(crate) fn advance<'a>(octets: &'a [u8], size: usize) -> &'a [u8]
    requires { 1 ≤ length octets.now }
    ensures { length result.now < length octets.now }
{
    octets.split_at(size.max(1).min(octets.len())).1
}

// The number of octets before the first that is `mark`, or of all if none is.
fn len_before(octets: &[u8], mark: u8) -> usize {
    for (n, octet) in octets.iter().enumerate() {
        if *octet == mark {
            return n;
        }
    }
    octets.len()
}

// The octets before the first that is `mark`, and those after it.
fn cut_at<'a>(octets: &'a [u8], mark: u8) -> Cut<'a> {
    let (before, rest) = octets.split_at(len_before(octets, mark).min(octets.len()));
    Cut {
        before,
        after: skip(rest, 1),
    }
}

// The label at the start.
fn read_label<'a>(octets: &'a [u8]) -> Label<'a> {
    if octets.starts_with(b"<rdf:li") {
        return Label {
            space: b"",
            name: b"",
            rest: skip(octets, 7),
        };
    }
    let name = cut_at(skip(octets, 3), b' ');
    let space = cut_at(skip(name.after, 9), b'"');
    Label {
        space: space.before,
        name: name.before,
        rest: space.after,
    }
}

// The kind of array whose start tag is at the start. None: there is none.
fn container_at(octets: &[u8]) -> Option<Kind> {
    if octets.starts_with(b"<rdf:Bag>") {
        return Some(Kind::Bag);
    }
    if octets.starts_with(b"<rdf:Seq>") {
        return Some(Kind::Seq);
    }
    if octets.starts_with(b"<rdf:Alt>") {
        return Some(Kind::Alt);
    }
    None
}

// A value that has others inside.
fn outer<'a>(kind: Kind, rest: &'a [u8]) -> Value<'a> {
    Value {
        kind,
        language: b"",
        text: b"",
        rest,
    }
}

// A text, up to the end of its element.
fn text_value<'a>(language: &'a [u8], octets: &'a [u8]) -> Value<'a> {
    let text = cut_at(octets, b'<');
    Value {
        kind: Kind::Text,
        language,
        text: text.before,
        rest: cut_at(text.after, b'>').after,
    }
}

// A resource, up to the end of its element.
fn uri_value<'a>(octets: &'a [u8]) -> Value<'a> {
    let uri = cut_at(octets, b'"');
    Value {
        kind: Kind::Uri,
        language: b"",
        text: uri.before,
        rest: skip(uri.after, 2),
    }
}

// A text with its language.
fn language_value<'a>(octets: &'a [u8]) -> Value<'a> {
    let language = cut_at(octets, b'"');
    text_value(language.before, skip(language.after, 1))
}

// A container or a text.
fn content_value<'a>(octets: &'a [u8]) -> Value<'a> {
    match container_at(octets) {
        Some(kind) => outer(kind, skip(octets, 9)),
        None => text_value(b"", octets),
    }
}

// The value after a label.
fn read_value<'a>(octets: &'a [u8]) -> Value<'a> {
    if octets.starts_with(b" rdf:resource=\"") {
        return uri_value(skip(octets, 15));
    }
    if octets.starts_with(b" rdf:parseType") {
        return outer(Kind::Structure, skip(octets, 26));
    }
    if octets.starts_with(b" xml:lang=\"") {
        return language_value(skip(octets, 11));
    }
    content_value(skip(octets, 1))
}

// The octets after the end of a container's members, if that is at the start.
fn after_members<'a>(octets: &'a [u8]) -> &'a [u8] {
    if octets.starts_with(b"</rdf:Bag>")
        || octets.starts_with(b"</rdf:Seq>")
        || octets.starts_with(b"</rdf:Alt>")
    {
        return skip(octets, 10);
    }
    octets
}

// The part at the start, which is a label and a value.
fn value_part<'a>(octets: &'a [u8]) -> Part<'a> {
    let label = read_label(octets);
    let value = read_value(label.rest);
    Part {
        kind: value.kind,
        space: label.space,
        name: label.name,
        language: value.language,
        text: value.text,
        size: octets.len().saturating_sub(value.rest.len()),
    }
}

// The part at the start.
pub(crate) fn read_part<'a>(octets: &'a [u8]) -> Part<'a> {
    if octets.starts_with(b"</") {
        let rest = cut_at(after_members(octets), b'>').after;
        return Part {
            kind: Kind::End,
            space: b"",
            name: b"",
            language: b"",
            text: b"",
            size: octets.len().saturating_sub(rest.len()),
        };
    }
    value_part(octets)
}

// Whether a part has others inside.
pub(crate) fn is_outer(kind: Kind) -> bool {
    match kind {
        Kind::Structure | Kind::Bag | Kind::Seq | Kind::Alt => true,
        _ => false,
    }
}

// How many parts are open before what follows a part, of those that are before it.
pub(crate) fn depth_after(depth: usize, kind: Kind) -> usize {
    if is_outer(kind) {
        return depth.saturating_add(1);
    }
    if kind == Kind::End {
        return depth.saturating_sub(1);
    }
    depth
}
