// CDATA sections. XML 1.0, 2.7.
ghost use Rattle.std.specs.Prelude.{◌≡◌, ◌≤◌, ◌+◌, length, option_map, IfSome};
ghost use Rattle.px_xmp_marks.specs.Sections.{find, section};

// The offset of the first place where `mark` begins. None: there is no such place.
#[tactic(auto, unfolding(crate::specs::Sections::find))]
pub(crate) fn find(octets: &[u8], mark: &[u8]) -> Option<usize>
    ensures value { result ≡ find mark.now 0 octets.now }
    ensures within { IfSome result (λ n. n + length mark.now ≤ length octets.now) }
{
    for (n, _) in octets.iter().enumerate() {
        if octets.split_at(n).1.starts_with(mark) {
            return Some(n);
        }
    }
    None
}

/// The content of the CDATA section at the start of some octets. The section has twelve octets more. None if they begin
/// with no section. It allocates nothing. XML 1.0, productions 18 to 21.
#[tactic(auto, unfolding(crate::specs::Sections::section))]
pub fn read_section<'a>(octets: &'a [u8]) -> Option<&'a [u8]>
    ensures value { option_map (λ v. v.now) result ≡ section octets.now }
    ensures within { IfSome result (λ v. length v.now + 12 ≤ length octets.now) }
{
    if !octets.starts_with(b"<![CDATA[") {
        return None;
    }
    let rest = octets.split_at(9).1;
    let Some(len) = find(rest, b"]]>") else {
        return None;
    };
    Some(rest.split_at(len).0)
}
