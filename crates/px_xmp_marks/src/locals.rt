// Attributes with other local names. They are told apart by their keys, without a look at each pair.
ghost use Rattle.std.specs.Prelude.{◌≡◌, ◌<◌, ◌+◌, ◌∷◌, nat_lt, length, drop, map};
ghost use Rattle.px_xmp_marks.specs.Reading.{attribute_view};
ghost use Rattle.px_xmp_marks.specs.Locals.{key, HaveKeys, is_local_of, are_locals_distinct};

use crate::attributes::Attribute;

// How many keys there are: a key is a number from 0 to 255.
const KEYS: usize = 256;

// A number that equal names have in common, and few others.
fn key(local: &[u8]) -> usize
    ensures value { result ≡ key local.now }
    ensures within { result < 256 }
{
    if local.is_empty() {
        return 0;
    }
    let size = local.len();
    let ends = usize::from(local[0]) * 61 + usize::from(local[size - 1]) * 7;
    (ends + usize::from(local[size / 2]) * 29 + size % KEYS * 13) % KEYS
}

// Whether one of some attributes has a local name.
fn is_local_of(attributes: &[Attribute], local: &[u8]) -> bool
    ensures { result ≡ is_local_of local.now (map attribute_view attributes.now) }
{
    for attribute in attributes {
        if local == attribute.name.local {
            return true;
        }
    }
    false
}

// Whether one of some attributes, whose keys are noted, has a local name with this key.
fn is_noted(seen: &[bool; KEYS], place: usize, attributes: &[Attribute], local: &[u8]) -> bool
    requires key { place ≡ key local.now }
    requires within { place < 256 }
    ensures { HaveKeys seen.now (map attribute_view attributes.now)
        → result ≡ is_local_of local.now (map attribute_view attributes.now) }
{
    if !seen[place] {
        return false;
    }
    is_local_of(attributes, local)
}

// The attribute at a place.
fn at<'a>(attributes: &[Attribute<'a>], n: usize) -> Attribute<'a>
    requires { n < length attributes.now }
    ensures { drop n attributes.now ≡ result ∷ drop (n + 1) attributes.now }
{
    attributes[n]
}

// Whether no two of some attributes have one local name, by their keys.
fn are_told_apart(attributes: &[Attribute]) -> bool
    ensures { result ≡ are_locals_distinct (map attribute_view attributes.now) }
{
    let mut seen = [false; KEYS];
    let mut n = attributes.len();
    while n > 0 {
        n -= 1;
        let local = at(attributes, n).name.local;
        let place = key(local);
        if is_noted(&seen, place, attributes.split_at(n + 1).1, local) {
            return false;
        }
        seen[place] = true;
    }
    true
}

// Whether attributes are no two.
fn are_few(attributes: &[Attribute]) -> bool
    ensures { result ≡ nat_lt (length attributes.now) 2 }
{
    attributes.len() < 2
}

/// Whether no two of some attributes have one local name. It allocates nothing.
pub fn are_locals_distinct(attributes: &[Attribute]) -> bool
    ensures { result ≡ are_locals_distinct (map attribute_view attributes.now) }
{
    if are_few(attributes) {
        return true;
    }
    are_told_apart(attributes)
}
