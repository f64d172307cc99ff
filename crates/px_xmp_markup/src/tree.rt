// The first fault of a tree.
ghost use Rattle.std.specs.Prelude.{MatchOption};
ghost use Rattle.px_xmp_markup.specs.Nesting.{IsTree};
ghost use Rattle.px_xmp_markup.specs.TreeFaults.{IsTreeFault};

use crate::faults::TreeFault;
use crate::kinds::read_mark;
use crate::laws;
use crate::nesting::Nesting;

/// The first fault of some octets. None: they are marks of one root element, whose elements are nested, with what may
/// precede and follow it. It allocates nothing. XML 1.0, productions 22, 39 and 43.
pub fn tree_fault(octets: &[u8]) -> Option<TreeFault>
    ensures { MatchOption result (IsTree octets.now) (λ f. IsTreeFault octets.now f.cause f.offset) }
{
    laws::kinds_are_read();
    laws::only_kinds_are_read();
    let mut nesting = Nesting::new(octets);
    let mut at = 0;
    while at < octets.len() {
        let rest = octets.split_at(at).1;
        let Some(mark) = read_mark(rest) else {
            return Some(TreeFault {
                cause: nesting.unread(rest),
                offset: at,
            });
        };
        if let Some(cause) = nesting.pass(mark.kind) {
            return Some(TreeFault { cause, offset: at });
        }
        at += mark.size;
    }
    match nesting.cut() {
        Some(cause) => Some(TreeFault { cause, offset: at }),
        None => None,
    }
}
