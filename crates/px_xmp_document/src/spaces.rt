// Prefixes that are declared. Namespaces in XML 1.0, 3, 5 and 6.1.
ghost use Rattle.std.specs.Prelude.{◌≡◌, ℕ, List, ◌++◌, option_map, MatchOption};
ghost use Rattle.px_xmp_marks.specs.Reading.{Attr, name_view, start_tag, start_tag_view, end_tag};
ghost use Rattle.px_xmp_document.specs.Pieces.{Piece, IsPiece};
ghost use Rattle.px_xmp_document.specs.Tags.{passed};
ghost use Rattle.px_xmp_document.specs.SpaceFaults.{HasSpaces, IsSpaceFault};
ghost use Rattle.px_xmp_document.specs.calls.Passing.{Gives, AreListed, start_piece, passed_other};

use crate::faults::{SpaceCause, SpaceFault};
use crate::scopes::Scope;
use crate::tags::{STORED, no_name};
use px_xmp_marks::{Name, StartTag, read_end_tag, read_mark};

impl<'a> Scope<'a> {
    // Passes a start tag or the tag of an empty element, or returns what is wrong with it. `names`
    // is space that the call overwrites: the names of the tag's attributes.
    fn pass_start(
        &mut self,
        tag: StartTag<'a>,
        names: &mut [Name<'a>; STORED],
    ) -> Option<SpaceCause>
        ensures { (attributes : List Attr) → AreListed tag.entry.rest.now attributes
            → Gives result self.new (passed (start_piece tag.entry.is_empty (name_view tag.entry.name) attributes) self.old) }
    {
        if let Some(cause) = self.open(tag, names) {
            return Some(cause);
        }
        if tag.is_empty {
            self.end();
        }
        None
    }

    // Passes a mark that is no start tag: after an end tag the declarations of its element are no
    // longer in scope.
    fn pass_other(&mut self, octets: &[u8])
        ensures { self.new ≡ passed_other (end_tag octets.now) self.old }
    {
        match read_end_tag(octets) {
            Some(_) => self.end(),
            None => {}
        }
    }

    // Passes the mark at the start, which is the tag or no start tag, or returns what is wrong with
    // it here; None: nothing is. `names` is space that the call overwrites.
    fn pass(
        &mut self,
        octets: &'a [u8],
        tag: Option<StartTag<'a>>,
        names: &mut [Name<'a>; STORED],
    ) -> Option<SpaceCause>
        requires { option_map start_tag_view tag ≡ start_tag octets.now }
        ensures { (p : Piece) (m rest : List ℕ) → IsPiece p m rest → octets.now ≡ m ++ rest → Gives result self.new (passed p self.old) }
    {
        px_xmp_marks::laws::marks_are_read();
        px_xmp_marks::laws::start_tags_are_read();
        px_xmp_marks::laws::only_start_tags_are_read();
        px_xmp_marks::laws::end_tags_are_read();
        px_xmp_marks::laws::only_end_tags_are_read();
        if let Some(tag) = tag {
            return self.pass_start(tag, names);
        }
        self.pass_other(octets);
        None
    }
}

// The first fault of some octets. None: they are marks in a row, each prefix in them is declared by the element that has
// it or one around it, and each declaration is allowed. It allocates nothing. Namespaces in XML 1.0, 3, 5 and 6.1.
pub(crate) fn space_fault(octets: &[u8]) -> Option<SpaceFault>
    ensures { MatchOption result (HasSpaces octets.now) (λ f. IsSpaceFault octets.now f.cause f.offset) }
{
    px_xmp_marks::laws::marks_are_read();
    px_xmp_marks::laws::only_marks_are_read();
    px_xmp_marks::laws::start_tags_are_read();
    px_xmp_marks::laws::only_start_tags_are_read();
    px_xmp_marks::laws::end_tags_are_read();
    px_xmp_marks::laws::only_end_tags_are_read();
    let mut scope = Scope::new();
    let mut names = [no_name(octets); STORED];
    let mut at = 0;
    while at < octets.len() {
        let rest = octets.split_at(at).1;
        let Some(mark) = read_mark(rest) else {
            return Some(SpaceFault {
                cause: SpaceCause::NoMark,
                offset: at,
            });
        };
        if let Some(cause) = scope.pass(rest, mark.tag, &mut names) {
            return Some(SpaceFault { cause, offset: at });
        }
        at += mark.size;
    }
    None
}
