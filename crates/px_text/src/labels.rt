// The labels of captions, and what has a label.
ghost use Rattle.std.specs.Prelude.{◌≡◌, ◌++◌, codes};
ghost use Rattle.px_text.specs.Captions.{label_of, label_word};

/// The kind of a caption.
#[derive(Clone, Copy, Debug, PartialEq, Eq)]
pub enum Label {
    /// 2:5, Object Name.
    Title,
    /// 2:120, Caption/Abstract.
    Caption,
    /// 2:105, Headline.
    Headline,
    /// 2:110, Credit.
    Credit,
    /// 2:115, Source.
    Source,
    /// 2:116, Copyright Notice; or Copyright, 0x8298, of an Exif block.
    Copyright,
    /// 2:80, By-line.
    ByLine,
    /// 2:85, By-line Title. It is listed with the by-lines.
    ByLineTitle,
    /// 2:25, Keywords.
    Keyword,
    /// 2:103, Original Transmission Reference, used as the inventory number (this project's profile).
    Inventory,
    /// ImageDescription, 0x010E, of an Exif block.
    Description,
    /// Artist, 0x013B, of an Exif block.
    Artist,
}

// The groups of record 2 in the order of their captions.
pub(crate) const GROUPS: [u8; 9] = [5, 120, 105, 110, 115, 116, 80, 25, 103];

// The texts of a main directory in the order of their captions: their tags and labels.
pub(crate) const TEXTS: [(u16, Label); 3] = [
    (0x010E, Label::Description),
    (0x013B, Label::Artist),
    (0x8298, Label::Copyright),
];

// The label of a DataSet of record 2, by its number. None: it has no label.
#[tactic(auto, unfolding(crate::specs::Captions::label_of))]
pub(crate) fn label_of(number: u8) -> Option<Label>
    ensures { result ≡ label_of number }
{
    match number {
        5 => Some(Label::Title),
        120 => Some(Label::Caption),
        105 => Some(Label::Headline),
        110 => Some(Label::Credit),
        115 => Some(Label::Source),
        116 => Some(Label::Copyright),
        80 => Some(Label::ByLine),
        85 => Some(Label::ByLineTitle),
        25 => Some(Label::Keyword),
        103 => Some(Label::Inventory),
        _ => None,
    }
}

// The label at the start of a line, with the characters that follow it.
pub(crate) fn label_word(label: Label) -> &'static [u8]
    ensures { result.now ≡ label_word label ++ codes ": " }
{
    match label {
        Label::Title => b"title: ",
        Label::Caption => b"caption: ",
        Label::Headline => b"headline: ",
        Label::Credit => b"credit: ",
        Label::Source => b"source: ",
        Label::Copyright => b"copyright: ",
        Label::ByLine => b"byline: ",
        Label::ByLineTitle => b"byline-title: ",
        Label::Keyword => b"keyword: ",
        Label::Inventory => b"inventory: ",
        Label::Description => b"description: ",
        Label::Artist => b"artist: ",
    }
}
