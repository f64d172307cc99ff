// The attributes of a tag, one after another. XML 1.0, productions 40 and 44.
ghost use Rattle.std.specs.Prelude.{◌≡◌, ◌≤◌, ◌<◌, length, option_map, IfSome};
ghost use Rattle.px_xmp_marks.specs.Reading.{next_attribute, next_view};

use crate::attributes::{Attribute, read_attribute};
use crate::names::space_len;
use crate::tags::ends_tag;

/// An attribute of a tag, and the octets that follow it.
#[derive(Clone, Copy, Debug, PartialEq, Eq)]
pub struct NextAttribute<'a> {
    /// The attribute.
    pub attribute: Attribute<'a>,
    /// The octets that follow it, which begin with the next one.
    pub rest: &'a [u8],
}

/// The first attribute of a start tag, from the octets that follow the tag's name or its last attribute. None if the
/// tag has no more. It allocates nothing.
#[tactic(auto, unfolding(crate::specs::Reading::next_attribute))]
pub fn next_attribute<'a>(octets: &'a [u8]) -> Option<NextAttribute<'a>>
    ensures value { option_map next_view result ≡ next_attribute octets.now }
    ensures shorter { IfSome result (λ n. length n.rest.now < length octets.now) }
{
    let space = space_len(octets);
    let after = octets.split_at(space).1;
    if ends_tag(after) {
        return None;
    }
    let Some(attribute) = read_attribute(after) else {
        return None;
    };
    Some(NextAttribute {
        attribute,
        rest: after.split_at(attribute.size).1,
    })
}
