// The names of a tag's attributes, all at once: they are compared without reading the tag again.
ghost use Rattle.std.specs.Prelude.{◌≡◌, ◌≤◌, ◌<◌, List, length, map, take, option_map, IfSome, MatchOption, Some};
ghost use Rattle.px_xmp_marks.specs.Reading.{Attr, attributes_of, name_view};

use crate::laws;
use crate::listing::next_attribute;
use crate::names::Name;

/// Stores the names of the attributes of a start tag in their order, from the octets that follow the tag's name. Returns
/// how many they are. None: they are more than there is space for. It allocates nothing.
pub fn read_names<'a>(octets: &'a [u8], names: &mut [Name<'a>]) -> Option<usize>
    ensures names { (attributes : List Attr) → option_map (λ r. r.0) (attributes_of octets.now) ≡ Some attributes
        → MatchOption result (length names.old < length attributes)
        (λ n. map name_view (take n names.new) ≡ map (λ a. a.name) attributes) }
    ensures within { IfSome result (λ n. n ≤ length names.new) }
    ensures size { length names.new ≡ length names.old }
{
    laws::attributes_in_order();
    let mut len = 0;
    let mut rest = octets;
    while let Some(next) = next_attribute(rest) {
        if len == names.len() {
            return None;
        }
        names[len] = next.attribute.name;
        len += 1;
        rest = next.rest;
    }
    Some(len)
}
