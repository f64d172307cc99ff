// One walk over the elements, in which each tag is read once. It finds that nothing is wrong, or the first fault of the nesting if
// nothing else is wrong before it.
ghost use Rattle.std.specs.Prelude.{◌≡◌, ◌≤◌, false, None, Some, List, length, map, take, option_map};
ghost use Rattle.std.specs.Prelude.{MatchOption, IfSome, IfOk, IfErr, IsOk};
ghost use Rattle.px_xmp_marks.specs.Reading.{attribute_view, attributes_of, name_view, start_tag, end_tag, start_tag_view};
ghost use Rattle.px_xmp_markup.specs.Kinds.{Closing, start_kind};
ghost use Rattle.px_xmp_markup.specs.TreeFaults.{IsWrong, IsFaulty, IsTreeFault};
ghost use Rattle.px_xmp_markup.specs.calls.Steps.{Step};
ghost use Rattle.px_xmp_document.specs.Scopes.{Item, ended};
ghost use Rattle.px_xmp_document.specs.Elements.{AreElements};
ghost use Rattle.px_xmp_document.specs.calls.Walks.{GoesOn, PassesTag};

use crate::scopes::Scope;
use crate::tags::ATTRIBUTE_LIMIT;
use px_xmp_marks::{Attribute, EndTag, Name, StoredTag, read_end_tag, read_stored_tag};
use px_xmp_markup::{
    MarkKind, Nesting, TreeCause, TreeFault, are_repeated, read_other_mark, start_kind,
};

// So many attributes of a tag are stored in one space for all tags, which few tags exceed: a larger one costs more to clear than
// small documents cost to read.
const STORED: usize = 64;

// An attribute that is not read.
fn no_attribute<'a>(octets: &'a [u8]) -> Attribute<'a> {
    let nothing = octets.split_at(0).0;
    Attribute {
        name: Name {
            prefix: nothing,
            local: nothing,
            size: 0,
        },
        value: nothing,
        size: 0,
    }
}

// Passes a start tag with these attributes, or returns what is wrong with its nesting. None: something else is wrong.
fn pass_tag<'a>(
    stored: StoredTag<'a>,
    attributes: &[Attribute<'a>],
    nesting: &mut Nesting<'a>,
    scope: &mut Scope<'a>,
) -> Result<(), Option<TreeCause>>
    requires { length attributes.now ≤ 256 }
    ensures passed { IsOk result
        → PassesTag (start_tag_view stored.entry.tag) (map attribute_view attributes.now) nesting.old nesting.new scope.old scope.new }
    ensures wrong { IfErr result (λ e. IfSome e (λ c.
        IsWrong (start_kind stored.entry.tag.is_empty (name_view stored.entry.tag.name)) nesting.old c)) }
{
    let tag = stored.tag;
    if let Some(cause) = nesting.pass(start_kind(tag.is_empty, tag.name)) {
        return Err(Some(cause));
    }
    if are_repeated(attributes) {
        return Err(None);
    }
    match scope.pass_tag(tag.is_empty, tag.name, attributes) {
        Some(_) => Err(None),
        None => Ok(()),
    }
}

// Passes an end tag, or returns what is wrong with it. None: nothing is.
fn pass_end<'a>(
    tag: EndTag<'a>,
    nesting: &mut Nesting<'a>,
    scope: &mut Scope<'a>,
) -> Option<TreeCause>
    ensures step { MatchOption result (Step (Closing (name_view tag.entry.name)) nesting.old nesting.new)
        (λ c. IsWrong (Closing (name_view tag.entry.name)) nesting.old c) }
    ensures scope { scope.new ≡ ended scope.old }
{
    scope.end();
    nesting.pass(MarkKind::Closing(tag.name))
}

// Passes the start tag at the start, with this space for its attributes. Returns its length, or what is wrong with its nesting.
// None: something else is wrong, or the tag has more attributes.
fn pass_stored<'a>(
    octets: &'a [u8],
    stored: StoredTag<'a>,
    space: &[Attribute<'a>],
    nesting: &mut Nesting<'a>,
    scope: &mut Scope<'a>,
) -> Result<usize, Option<TreeCause>>
    requires few { length space.now ≤ 256 }
    requires tag { Some (start_tag_view stored.tag) ≡ start_tag octets.now }
    requires within { (1 ≤ stored.tag.size) × (stored.tag.size ≤ length octets.now) }
    requires stored { stored.len ≤ length space.now
        → option_map (λ r. r.0) (attributes_of stored.tag.rest.now) ≡ Some (map attribute_view (take stored.len space.now)) }
    ensures passed { IfOk result (λ n. GoesOn octets.now n nesting.old nesting.new scope.old scope.new) }
    ensures wrong { IfErr result (λ e. IfSome e (λ c. IsFaulty nesting.old octets.now c)) }
{
    px_xmp_marks::laws::start_tags_are_read();
    px_xmp_marks::laws::only_start_tags_are_read();
    if stored.len > space.len() {
        return Err(None);
    }
    match pass_tag(stored, space.split_at(stored.len).0, nesting, scope) {
        Ok(()) => Ok(stored.tag.size),
        Err(wrong) => Err(wrong),
    }
}

// Passes the start tag at the start, with space for 256 attributes, and returns its length. An
// error of None: the tag isn't passed, for a cause that `layered_fault` then looks for.
#[inline(never)]
fn pass_large<'a>(
    octets: &'a [u8],
    nesting: &mut Nesting<'a>,
    scope: &mut Scope<'a>,
) -> Result<usize, Option<TreeCause>>
    ensures passed { IfOk result (λ n. GoesOn octets.now n nesting.old nesting.new scope.old scope.new) }
    ensures wrong { IfErr result (λ e. IfSome e (λ c. IsFaulty nesting.old octets.now c)) }
{
    let mut space = [no_attribute(octets); ATTRIBUTE_LIMIT];
    match read_stored_tag(octets, &mut space) {
        Some(stored) => pass_stored(octets, stored, &space, nesting, scope),
        None => Err(None),
    }
}

// Whether octets begin with `<`, as a tag does.
fn begins_markup(octets: &[u8]) -> bool
    requires { 1 ≤ length octets.now }
    ensures start { result ≡ false → start_tag octets.now ≡ None }
    ensures end { result ≡ false → end_tag octets.now ≡ None }
{
    octets[0] == b'<'
}

// Passes the mark at the start, which is no tag. Returns its length, or what is wrong with its nesting.
fn pass_mark<'a>(octets: &'a [u8], nesting: &mut Nesting<'a>) -> Result<usize, TreeCause>
    requires some { 1 ≤ length octets.now }
    requires start { start_tag octets.now ≡ None }
    requires end { end_tag octets.now ≡ None }
    ensures passed { (scope : List Item) → IfOk result (λ n. GoesOn octets.now n nesting.old nesting.new scope scope) }
    ensures wrong { IfErr result (λ c. IsFaulty nesting.old octets.now c) }
{
    px_xmp_marks::laws::start_tags_are_read();
    px_xmp_marks::laws::end_tags_are_read();
    px_xmp_markup::laws::kinds_are_read();
    px_xmp_markup::laws::only_kinds_are_read();
    let Some(mark) = read_other_mark(octets) else {
        return Err(nesting.unread(octets));
    };
    match nesting.pass(mark.kind) {
        Some(cause) => Err(cause),
        None => Ok(mark.size),
    }
}

// Passes the mark at the start, which is no start tag. Returns its length, or what is wrong with its nesting.
fn pass_other<'a>(
    octets: &'a [u8],
    nesting: &mut Nesting<'a>,
    scope: &mut Scope<'a>,
) -> Result<usize, TreeCause>
    requires some { 1 ≤ length octets.now }
    requires start { start_tag octets.now ≡ None }
    ensures passed { IfOk result (λ n. GoesOn octets.now n nesting.old nesting.new scope.old scope.new) }
    ensures wrong { IfErr result (λ c. IsFaulty nesting.old octets.now c) }
{
    px_xmp_marks::laws::start_tags_are_read();
    px_xmp_marks::laws::only_end_tags_are_read();
    let Some(tag) = read_end_tag(octets) else {
        return pass_mark(octets, nesting);
    };
    match pass_end(tag, nesting, scope) {
        Some(cause) => Err(cause),
        None => Ok(tag.size),
    }
}

// Passes the mark at the start, with a space for the attributes of a tag. Returns its length, or what is wrong with its nesting.
// None: something else is wrong.
fn pass<'a>(
    octets: &'a [u8],
    space: &mut [Attribute<'a>; STORED],
    nesting: &mut Nesting<'a>,
    scope: &mut Scope<'a>,
) -> Result<usize, Option<TreeCause>>
    requires { 1 ≤ length octets.now }
    ensures passed { IfOk result (λ n. GoesOn octets.now n nesting.old nesting.new scope.old scope.new) }
    ensures wrong { IfErr result (λ e. IfSome e (λ c. IsFaulty nesting.old octets.now c)) }
{
    if !begins_markup(octets) {
        return match pass_mark(octets, nesting) {
            Ok(size) => Ok(size),
            Err(cause) => Err(Some(cause)),
        };
    }
    let Some(stored) = read_stored_tag(octets, space) else {
        return match pass_other(octets, nesting, scope) {
            Ok(size) => Ok(size),
            Err(cause) => Err(Some(cause)),
        };
    };
    if stored.len > STORED {
        return pass_large(octets, nesting, scope);
    }
    pass_stored(octets, stored, space, nesting, scope)
}

// Whether nothing is wrong with elements. `Err`: the first fault of their nesting, or None, if something else is wrong before it.
pub(crate) fn walk(octets: &[u8]) -> Result<(), Option<TreeFault>>
    ensures right { IsOk result → AreElements octets.now }
    ensures wrong { IfErr result (λ e. IfSome e (λ f. IsTreeFault octets.now f.cause f.offset)) }
{
    px_xmp_markup::laws::steps_lead();
    let mut nesting = Nesting::new(octets);
    let mut scope = Scope::new();
    let mut space = [no_attribute(octets); STORED];
    let mut at = 0;
    while at < octets.len() {
        match pass(octets.split_at(at).1, &mut space, &mut nesting, &mut scope) {
            Ok(size) => at += size,
            Err(wrong) => match wrong {
                Some(cause) => return Err(Some(TreeFault { cause, offset: at })),
                None => return Err(None),
            },
        }
    }
    match nesting.cut() {
        Some(cause) => Err(Some(TreeFault { cause, offset: at })),
        None => Ok(()),
    }
}
