// The first fault of a document.
ghost use Rattle.std.specs.Prelude.{◌≡◌, ◌≤◌, length, drop, take, option_map, IfSome, MatchOption};
ghost use Rattle.px_xmp_document.specs.Document.{is_utf, is_utf8, is_read, IsSplit, IsDocument, order_mark_len, IsFile};
ghost use Rattle.px_xmp_document.specs.Faults.{IsFault, IsFileFault};

use crate::elements::element_fault;
use crate::faults::{Cause, Fault};
use px_xmp_marks::{Declaration, read_declaration};
use px_xmp_text::first_bad_character;

// Whether three octets are `UTF` in any case.
fn is_utf(u: u8, t: u8, f: u8) -> bool
    ensures { result ≡ is_utf u t f }
{
    (u == b'U' || u == b'u') && (t == b'T' || t == b't') && (f == b'F' || f == b'f')
}

// Whether the name of an encoding is that of UTF-8.
fn is_utf8(name: &[u8]) -> bool
    ensures { result ≡ is_utf8 name.now }
{
    name.len() == 5 && is_utf(name[0], name[1], name[2]) && name[3] == b'-' && name[4] == b'8'
}

// Whether no encoding is named, or UTF-8.
fn is_read(encoding: Option<&[u8]>) -> bool
    ensures { result ≡ is_read (option_map (λ e. e.now) encoding.entry) }
{
    match encoding {
        Some(name) => is_utf8(name),
        None => true,
    }
}

// The XML declaration at the start. It is empty if there is none.
fn read_start<'a>(octets: &'a [u8]) -> Declaration<'a>
    ensures parts { IsSplit octets.now (take result.size octets.now) (option_map (λ e. e.now) result.encoding)
        (drop result.size octets.now) }
    ensures within { result.size ≤ length octets.now }
{
    px_xmp_marks::laws::declarations_are_read();
    px_xmp_marks::laws::only_declarations_are_read();
    match read_declaration(octets) {
        Some(declaration) => declaration,
        None => Declaration {
            encoding: None,
            size: 0,
        },
    }
}

// The first fault of a document. None: it has none.
fn document_fault(octets: &[u8]) -> Option<Fault>
    ensures fault { MatchOption result (IsDocument octets.now) (λ f. IsFault octets.now f.cause f.offset) }
    ensures within { IfSome result (λ f. f.offset ≤ length octets.now) }
{
    if let Some(offset) = first_bad_character(octets) {
        return Some(Fault {
            cause: Cause::NoCharacter,
            offset,
        });
    }
    let start = read_start(octets);
    if !is_read(start.encoding) {
        return Some(Fault {
            cause: Cause::OtherEncoding,
            offset: 0,
        });
    }
    match element_fault(octets.split_at(start.size).1) {
        Some(fault) => Some(Fault {
            cause: fault.cause,
            offset: start.size + fault.offset,
        }),
        None => None,
    }
}

// The length of the byte order mark at the start.
fn order_mark_len(octets: &[u8]) -> usize
    ensures value { result ≡ order_mark_len octets.now }
    ensures within { result ≤ length octets.now }
{
    if octets.starts_with(b"\xEF\xBB\xBF") {
        return 3;
    }
    0
}

/// A fault of some octets. None: they are a document without a document type, in UTF-8, in which no tag has an attribute twice
/// and prefixes are declared; a byte order mark may precede it. The characters are judged first, then the encoding that the
/// declaration names, the elements, the attributes and the prefixes: the fault is the first, from the start, of the first of
/// these that has one. It allocates nothing. XML 1.0, productions 1 and 22, and 4.3.3.
pub fn first_fault(octets: &[u8]) -> Option<Fault>
    ensures { MatchOption result (IsFile octets.now) (λ f. IsFileFault octets.now f.cause f.offset) }
{
    let size = order_mark_len(octets);
    match document_fault(octets.split_at(size).1) {
        Some(fault) => Some(Fault {
            cause: fault.cause,
            offset: size + fault.offset,
        }),
        None => None,
    }
}
