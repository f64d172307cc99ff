// The elements that are open.
ghost use Rattle.std.specs.Prelude.{◌≡◌, ◌≤◌, ◌<◌, List, [], ◌∷◌, length, MatchOption};
ghost use Rattle.px_xmp_marks.specs.Reading.{name_view};
ghost use Rattle.px_xmp_markup.specs.Kinds.{kind_view, Opening, Closing, Alone, Data};
ghost use Rattle.px_xmp_markup.specs.Nesting.{limit, Among, After};
ghost use Rattle.px_xmp_markup.specs.TreeFaults.{IsWrong, IsWrongStart, IsWrongEnd, IsWrongData, IsCut, unread};
ghost use Rattle.px_xmp_markup.specs.calls.Steps.{Step};

use crate::faults::TreeCause;
use crate::kinds::MarkKind;
use crate::names::is_same;
use px_xmp_marks::Name;
use std::marker::Model;

// The most elements that are open at a time, a limit of this reader.
const LIMIT: usize = 100;

// The names of the open elements.
#[derive(Drop)]
struct Stack<'a> {
    names: [Name<'a>; LIMIT],
    len: usize,
}

impl<'a> Model for Stack<'a> {
    ghost use Rattle.std.specs.Prelude.{List, ◌≡◌, ◌≤◌, length};
    ghost use Rattle.px_xmp_marks.specs.Reading.{Named};
    ghost use Rattle.px_xmp_markup.specs.Nesting.{limit};
    ghost use Rattle.px_xmp_markup.specs.calls.Stacks.{stack_of};

    ghost Value = { List Named };

    ghost view = { λ s. stack_of s.len s.names };

    ghost invariant = { λ s. (s.len ≤ limit) × (length s.names ≡ limit) };
}

impl<'a> Stack<'a> {
    // An empty stack. The octets fill the array of names: they are any that live as long.
    fn new(octets: &'a [u8]) -> Self
        ensures { result ≡ [] }
    {
        let nothing = octets.split_at(0).0;
        let name = Name {
            prefix: nothing,
            local: nothing,
            size: 0,
        };
        Stack {
            names: [name; LIMIT],
            len: 0,
        }
    }

    // How many names are in the stack, at most 100.
    fn len(&self) -> usize
        ensures value { result ≡ length self.now }
        ensures within { result ≤ limit }
    {
        self.len
    }

    // Adds the name of an element that begins. There is room for it: fewer than 100 elements are
    // open.
    fn put(&mut self, name: Name<'a>)
        requires { length self.old < limit }
        ensures { self.new ≡ name_view name.entry ∷ self.old }
    {
        self.names[self.len] = name;
        self.len += 1;
    }

    // Takes the name of the innermost open element away, and returns it. None: no element is open.
    fn pop(&mut self) -> Option<Name<'a>>
        ensures { MatchOption result ((self.old ≡ []) × (self.new ≡ [])) (λ n. self.old ≡ name_view n ∷ self.new) }
    {
        if self.len == 0 {
            return None;
        }
        self.len -= 1;
        Some(self.names[self.len])
    }
}

/// A place among marks: the elements that are open there, or the end of the root.
#[derive(Drop)]
pub struct Nesting<'a> {
    names: Stack<'a>,
    has_ended: bool,
}

impl<'a> Model for Nesting<'a> {
    ghost use Rattle.px_xmp_markup.specs.Nesting.{Place};
    ghost use Rattle.px_xmp_markup.specs.calls.Stacks.{place_of};

    ghost Value = { Place };

    ghost view = { λ n. place_of n.has_ended n.names };
}

impl<'a> Nesting<'a> {
    /// The place before all marks. The octets are any that live as long as the names. It allocates nothing.
    pub fn new(octets: &'a [u8]) -> Self
        ensures { result ≡ Among [] }
    {
        Nesting {
            names: Stack::new(octets),
            has_ended: false,
        }
    }

    // Passes the start tag of an element, or returns what is wrong: the root has ended, or 100
    // elements are open.
    fn open(&mut self, name: Name<'a>) -> Option<TreeCause>
        ensures { MatchOption result (Step (Opening (name_view name.entry)) self.old self.new) (λ c. IsWrongStart self.old c) }
    {
        if self.has_ended {
            return Some(TreeCause::SecondRoot);
        }
        if self.names.len() == LIMIT {
            return Some(TreeCause::TooDeep);
        }
        self.names.put(name);
        None
    }

    // Passes the tag of an empty element, or returns what is wrong, as `open` does. Outside of all
    // others the element is the root.
    fn stand_alone(&mut self, name: Name<'a>) -> Option<TreeCause>
        ensures { MatchOption result (Step (Alone (name_view name.entry)) self.old self.new) (λ c. IsWrongStart self.old c) }
    {
        if self.has_ended {
            return Some(TreeCause::SecondRoot);
        }
        let len = self.names.len();
        if len == LIMIT {
            return Some(TreeCause::TooDeep);
        }
        if len == 0 {
            self.has_ended = true;
        }
        None
    }

    // Passes an end tag, or returns OtherEnd: no element is open, or the innermost has another
    // name.
    fn close(&mut self, name: Name<'a>) -> Option<TreeCause>
        ensures { MatchOption result (Step (Closing (name_view name.entry)) self.old self.new)
            (λ c. IsWrongEnd (name_view name.entry) self.old c) }
    {
        if self.has_ended {
            return Some(TreeCause::OtherEnd);
        }
        let Some(opened) = self.names.pop() else {
            return Some(TreeCause::OtherEnd);
        };
        if !is_same(name, opened) {
            return Some(TreeCause::OtherEnd);
        }
        if self.names.len() == 0 {
            self.has_ended = true;
        }
        None
    }

    // Passes text or a CDATA section, or returns OutsideRoot: no element is open.
    fn pass_data(&self) -> Option<TreeCause>
        ensures { MatchOption result (Step Data self.now self.now) (λ c. IsWrongData self.now c) }
    {
        if self.has_ended {
            return Some(TreeCause::OutsideRoot);
        }
        if self.names.len() == 0 {
            return Some(TreeCause::OutsideRoot);
        }
        None
    }

    /// Passes a mark, or returns what is wrong with it here: then the place is of no use. It allocates nothing.
    pub fn pass(&mut self, kind: MarkKind<'a>) -> Option<TreeCause>
        ensures { MatchOption result (Step (kind_view kind.entry) self.old self.new) (λ c. IsWrong (kind_view kind.entry) self.old c) }
    {
        match kind {
            MarkKind::Opening(name) => self.open(name),
            MarkKind::Closing(name) => self.close(name),
            MarkKind::Alone(name) => self.stand_alone(name),
            MarkKind::Misc => None,
            MarkKind::Data => self.pass_data(),
        }
    }

    /// What is wrong with an end here: the root has not begun, or not ended. None: nothing. It allocates nothing.
    pub fn cut(&self) -> Option<TreeCause>
        ensures { MatchOption result (self.now ≡ After) (λ c. IsCut self.now c) }
    {
        if self.has_ended {
            return None;
        }
        if self.names.len() == 0 {
            return Some(TreeCause::NoRoot);
        }
        Some(TreeCause::NoEnd)
    }

    /// What is wrong with octets here that begin with no mark: a document type begins, or nothing is known. It allocates nothing.
    pub fn unread(&self, octets: &[u8]) -> TreeCause
        ensures { result ≡ unread self.now octets.now }
    {
        if self.has_ended {
            return TreeCause::NoMark;
        }
        if self.names.len() != 0 {
            return TreeCause::NoMark;
        }
        if octets.starts_with(b"<!DOCTYPE") {
            return TreeCause::DocumentType;
        }
        TreeCause::NoMark
    }
}
