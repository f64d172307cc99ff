// Processing instructions. XML 1.0, 2.6; Namespaces in XML 1.0, 7.
ghost use Rattle.std.specs.Prelude.{◌≡◌, ◌≤◌, ◌+◌, length, IfSome};
ghost use Rattle.px_xmp_marks.specs.Instructions.{is_reserved, begins_space, instruction};

use crate::names::{is_space, ncname_len};
use crate::sections::find;

// Whether a name is `xml` in any case, which no processing instruction has.
fn is_reserved(name: &[u8]) -> bool
    ensures { result ≡ is_reserved name.now }
{
    name.len() == 3
        && (name[0] == b'x' || name[0] == b'X')
        && (name[1] == b'm' || name[1] == b'M')
        && (name[2] == b'l' || name[2] == b'L')
}

// Whether octets begin with white space.
fn begins_space(octets: &[u8]) -> bool
    ensures { result ≡ begins_space octets.now }
{
    !octets.is_empty() && is_space(octets[0])
}

/// The length of the processing instruction at the start of some octets. None if they begin with none whose target is of
/// ASCII. It allocates nothing. XML 1.0, productions 16 and 17; Namespaces in XML 1.0, 7.
#[tactic(auto, unfolding(crate::specs::Instructions::instruction))]
pub fn read_instruction(octets: &[u8]) -> Option<usize>
    ensures value { result ≡ instruction octets.now }
    ensures within { IfSome result (λ n. (1 ≤ n) × (n ≤ length octets.now)) }
{
    if !octets.starts_with(b"<?") {
        return None;
    }
    let rest = octets.split_at(2).1;
    let Some(len) = ncname_len(rest) else {
        return None;
    };
    let (target, after) = rest.split_at(len);
    if is_reserved(target) {
        return None;
    }
    let Some(end) = find(after, b"?>") else {
        return None;
    };
    if end != 0 && !begins_space(after) {
        return None;
    }
    Some(2 + len + end + 2)
}
