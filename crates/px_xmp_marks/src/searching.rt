// Octets that are searched for, many at a time.
ghost use Rattle.std.specs.Prelude.{◌≡◌, ◌≤◌, ◌==◌, ◌||◌, not, false, length, take, codes, is_some, IfSome};
ghost use Rattle.std.specs.List.{list_any};
ghost use Rattle.px_xmp_marks.specs.Reading.{run};
ghost use Rattle.px_xmp_marks.specs.Sections.{find};

use crate::sections::find;
use memchr::{memchr, memchr3};

/// The number of octets before the first that is `mark`, or of all if none is. It allocates nothing.
pub fn len_before(octets: &[u8], mark: u8) -> usize
    ensures value { result ≡ run (λ o. not (o == mark)) octets.now }
    ensures within { result ≤ length octets.now }
{
    match memchr(mark, octets) {
        Some(n) => n,
        None => octets.len(),
    }
}

// The number of octets before the first `<`, if no `]` and no `&` precedes it.
pub(crate) fn plain_len(octets: &[u8]) -> Option<usize>
    ensures len { IfSome result (λ n. n ≡ run (λ o. not (o == 60)) octets.now) }
    ensures plain { IfSome result (λ n. list_any (λ o. o == 93 || o == 38) (take n octets.now) ≡ false) }
    ensures within { IfSome result (λ n. n ≤ length octets.now) }
{
    match memchr3(b'<', b']', b'&', octets) {
        Some(n) => { if octets[n] == b'<' { Some(n) } else { None } }
        None => Some(octets.len()),
    }
}

// Whether the end of a section is somewhere in octets, few of which have its first one.
pub(crate) fn has_section_end(octets: &[u8]) -> bool
    ensures { result ≡ is_some (find (codes "]]>") 0 octets.now) }
{
    if !octets.contains(&b']') {
        return false;
    }
    find(octets, b"]]>").is_some()
}
