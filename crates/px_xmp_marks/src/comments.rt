// Comments. XML 1.0, 2.5.
ghost use Rattle.std.specs.Prelude.{◌≡◌, ◌≤◌, ◌+◌, length, option_map, IfSome};
ghost use Rattle.px_xmp_marks.specs.Comments.{comment};

use crate::sections::find;

/// The content of the comment at the start of some octets. The comment has seven octets more. None if they begin with no
/// comment. It allocates nothing. XML 1.0, production 15.
#[tactic(auto, unfolding(crate::specs::Comments::comment))]
pub fn read_comment<'a>(octets: &'a [u8]) -> Option<&'a [u8]>
    ensures value { option_map (λ v. v.now) result ≡ comment octets.now }
    ensures within { IfSome result (λ v. length v.now + 7 ≤ length octets.now) }
{
    if !octets.starts_with(b"<!--") {
        return None;
    }
    let rest = octets.split_at(4).1;
    let Some(len) = find(rest, b"--") else {
        return None;
    };
    let (content, end) = rest.split_at(len);
    if !end.starts_with(b"-->") {
        return None;
    }
    Some(content)
}
