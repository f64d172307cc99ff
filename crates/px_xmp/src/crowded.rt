// Tags with more attributes than this reader judges.
ghost use Rattle.std.specs.Prelude.{◌≡◌, ◌≤◌, ℕ, List, true, false, length, MatchOption};
ghost use Rattle.px_xmp_marks.specs.Reading.{Attr};
ghost use Rattle.px_xmp_document.specs.Tags.{attribute_limit};
ghost use Rattle.px_xmp.specs.calls.Listed.{AreListed};
ghost use Rattle.px_xmp.specs.Limits.{IsFirstCrowded, NoneCrowded};
ghost use Rattle.px_xmp.specs.calls.Crowded.{AreMany, HasMany, IsInRun, equals_signs, has};

use px_xmp_marks::{StartTag, len_before, next_attribute};

// The most attributes of a tag that this reader judges, as px_xmp_document does.
const ATTRIBUTE_LIMIT: usize = 256;

// Octets are cut into windows of so many. An attribute has five octets or more, with the space before it. So a tag
// with more of them than this reader judges covers whole windows, has no `<` there, and outside of these it has no room for
// all of its equals signs.
const WINDOW: usize = 640;

// Whether octets have an equals sign and no `<`.
fn has_sign_alone(octets: &[u8]) -> bool
    ensures { result ≡ false → has 60 octets.now ≡ false → has 61 octets.now ≡ true → ⊥ }
{
    if octets.contains(&b'<') {
        return false;
    }
    octets.contains(&b'=')
}

// Whether a window has an equals sign and no `<`. If none has, no tag has too many attributes.
fn has_long_run(octets: &[u8]) -> bool
    ensures { result ≡ false → (n : ℕ) → IsInRun 640 octets.now n → ⊥ }
{
    let mut rest = octets;
    while rest.len() >= WINDOW {
        let (window, more) = rest.split_at(WINDOW);
        if has_sign_alone(window) {
            return true;
        }
        rest = more;
    }
    false
}

// The fewest octets that have more attributes than this reader judges: 257 of five octets each.
const CROWDED: usize = 1285;

// Whether octets have as many equals signs as the attributes that this reader judges, and more octets, or more equals signs.
fn has_many_equals(octets: &[u8]) -> bool
    ensures { result ≡ false → equals_signs octets.now ≤ attribute_limit }
{
    let mut left = ATTRIBUTE_LIMIT;
    let mut at = 0;
    while at < octets.len() {
        if left == 0 {
            return true;
        }
        left -= 1;
        at += len_before(octets.split_at(at).1, b'=') + 1;
    }
    false
}

// Whether what follows a `<` up to the next one can be a tag with more attributes.
fn can_be_tag(octets: &[u8]) -> bool
    ensures { result ≡ false → 1285 ≤ length octets.now → equals_signs octets.now ≤ attribute_limit }
{
    if octets.len() < CROWDED {
        return false;
    }
    has_many_equals(octets)
}

// Whether a tag can have more attributes than this reader judges. Each has an equals sign, and a tag has no second `<`.
fn can_be_crowded(octets: &[u8]) -> bool
    ensures { result ≡ false → NoneCrowded octets.now }
{
    if !has_long_run(octets) {
        return false;
    }
    let mut at = 0;
    while at < octets.len() {
        let rest = octets.split_at(at).1;
        let len = len_before(rest, b'<');
        if can_be_tag(rest.split_at(len).0) {
            return true;
        }
        at += len + 1;
    }
    false
}

// Whether more attributes than this reader judges are at the start, up to the end of a tag.
fn are_many(octets: &[u8]) -> bool
    ensures { (attributes : List Attr) → AreListed octets.now attributes → AreMany result attributes }
{
    px_xmp_marks::laws::attributes_in_order();
    let mut left = ATTRIBUTE_LIMIT;
    let mut rest = octets;
    while let Some(next) = next_attribute(rest) {
        if left == 0 {
            return true;
        }
        left -= 1;
        rest = next.rest;
    }
    false
}

// Whether a mark is a tag with more attributes than this reader judges.
fn has_many(tag: Option<StartTag>) -> bool
    ensures { HasMany tag.entry result }
{
    match tag {
        Some(tag) => are_many(tag.rest),
        None => false,
    }
}

// The offset of the first tag with more attributes than this reader judges, among the marks up to the first place
// where no mark is. None: there is no such tag.
pub(crate) fn first_crowded(octets: &[u8]) -> Option<usize>
    ensures { MatchOption result (NoneCrowded octets.now) (IsFirstCrowded octets.now) }
{
    px_xmp_marks::laws::marks_are_read();
    px_xmp_marks::laws::only_marks_are_read();
    px_xmp_marks::laws::start_tags_are_read();
    px_xmp_marks::laws::only_start_tags_are_read();
    if !can_be_crowded(octets) {
        return None;
    }
    let mut at = 0;
    while at < octets.len() {
        let Some(mark) = px_xmp_marks::read_mark(octets.split_at(at).1) else {
            return None;
        };
        if has_many(mark.tag) {
            return Some(at);
        }
        at += mark.size;
    }
    None
}
