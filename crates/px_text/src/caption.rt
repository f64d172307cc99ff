// Captions: labelled texts.
ghost use Rattle.std.specs.Prelude.{◌≡◌, ◌<◌, ◌↔◌, IsTrue, List, [], length, slice_get, Some};
ghost use Rattle.px_text.specs.calls.CaptionView.{caption_view};

use crate::labels::Label;
use std::marker::Model;

/// A labelled text of a file.
#[derive(Clone, Copy, Debug)]
pub struct Caption<'a> {
    /// Its kind.
    pub label: Label,
    /// Its bytes as they were read, perhaps none.
    pub text: &'a [u8],
}

/// The captions of a file, in the order in which `captions` prints them. Contracts see whether UTF-8 is
/// declared, and the list of labels with their bytes. The bytes are borrowed from those that were read.
/// `captions_of` makes one.
#[derive(Drop)]
pub struct Captions<'a> {
    pub(crate) utf8: bool,
    pub(crate) list: Vec<Caption<'a>>,
}

impl<'a> Model for Captions<'a> {
    ghost use Rattle.std.specs.Prelude.{Bool, List, map};
    ghost use Rattle.px_text.specs.Captions.{Labelled};
    ghost use Rattle.px_text.specs.calls.CaptionView.{caption_view};

    ghost Value = { Bool × List Labelled };

    ghost view = { λ c. (c.utf8, map caption_view c.list.items) };
}

impl<'a> Captions<'a> {
    /// Whether a record declares UTF-8: it has exactly one DataSet 1:90, with the data `1B 25 47`. False for
    /// an Exif block without a record. It allocates nothing.
    pub fn utf8(&self) -> bool
        ensures { result ≡ self.now.0 }
    {
        self.utf8
    }

    /// The number of captions. It allocates nothing.
    pub fn len(&self) -> usize
        ensures { result ≡ length self.now.1 }
    {
        self.list.len()
    }

    /// Whether there are no captions. It allocates nothing.
    pub fn is_empty(&self) -> bool
        ensures { IsTrue result ↔ (self.now.1 ≡ []) }
    {
        self.list.is_empty()
    }

    /// The caption at index `i`, below `len`. It allocates nothing.
    pub fn at(&self, i: usize) -> Caption<'a>
        requires { i < length self.now.1 }
        ensures { slice_get self.now.1 i ≡ Some (caption_view result) }
    {
        self.list[i]
    }
}
