// Pointers to directories. TIFF 6.0 section 2, "Image File Directory"; CIPA DC-008 4.6.3 (pointers).
ghost use Rattle.std.specs.Prelude.{◌≡◌, ◌≤◌, ◌+◌, ◌*◌, length, IfSome, option_map};
ghost use Rattle.px_bytes.specs.Parts.{limit};
ghost use Rattle.px_meaning.specs.Entry.{next, table};
ghost use Rattle.px_meaning.specs.Directory.{entries_at, unless_zero};
ghost use Rattle.px_tree.specs.Checks.{is_earlier_at};
ghost use Rattle.px_tree.specs.calls.Reading.{HasTable};
ghost use Rattle.px_tree.specs.calls.Linked.{offset_of, offsets_of};

use crate::entries::Head;
use px_bytes::Order;
use px_meaning::number32;

// The offset of a directory, and the offset of the pointer to it.
#[derive(Clone, Copy)]
pub struct Link {
    pub at: u32,
    pub place: u32,
}

// An entry and its offset.
#[derive(Clone, Copy)]
pub struct Found {
    pub head: Head,
    pub place: u32,
}

// The pointer to the next directory after the table at an offset, or `None` if it is 0. Its own offset is that of the
// four bytes after the entries.
pub fn next_link(block: &[u8], order: Order, at: u32, count: u16) -> Option<Link>
    requires bounded { length block.now ≤ limit }
    requires has_table { HasTable block.now order at count }
    ensures leads { option_map
        (λ l. l.at) result ≡ unless_zero (next order (table block.now order at)) }
    ensures place { IfSome result
        (λ l. l.place ≡ at + 2 + 12 * length (entries_at block.now order at)) }
{
    let place = at + 2 + 12 * u32::from(count);
    let next = number32(block, order, place);
    if next == 0 {
        return None;
    }
    Some(Link { at: next, place })
}

// Whether a pointer leads to an offset.
fn leads_to(link: Option<Link>, at: u32) -> bool
    ensures { result ≡ is_earlier_at (offset_of link) at }
{
    match link {
        Some(link) => link.at == at,
        None => false,
    }
}

// Whether one of the earlier pointers leads to an offset.
pub fn is_earlier(earlier: &[Option<Link>], at: u32) -> bool
    ensures { result ≡ is_earlier_at (offsets_of earlier.now) at }
{
    for link in earlier {
        if leads_to(*link, at) {
            return true;
        }
    }
    false
}
