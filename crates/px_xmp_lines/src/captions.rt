// The captions: the texts of the properties that have a label, in the order of those of a record of IPTC.
ghost use Rattle.px_bytes.specs.Allocations.{CountsAllocFailure};
ghost use Rattle.px_xmp_lines.specs.Lines.{KeepsPrinted};

use crate::escaping::{append, append_after_space, append_text};
use crate::parts::{Kind, Part, advance, depth_after, is_outer, read_part};
use px_bytes::{AllocFailed, Memory};
use px_xmp_forms::RDF;

// The namespace of Dublin Core. XMP part 1, 8.3.
const DC: &[u8] = b"http://purl.org/dc/elements/1.1/";

// The namespace of Photoshop's properties. XMP part 2, 3.2.
const PHOTOSHOP: &[u8] = b"http://ns.adobe.com/photoshop/1.0/";

// A property with a label.
#[derive(Clone, Copy)]
struct Labelled {
    word: &'static [u8],
    space: &'static [u8],
    name: &'static [u8],
}

// The labels of the DataSets of IPTC that the properties stand for.
const LABELS: [Labelled; 10] = [
    Labelled {
        word: b"title",
        space: DC,
        name: b"title",
    },
    Labelled {
        word: b"caption",
        space: DC,
        name: b"description",
    },
    Labelled {
        word: b"headline",
        space: PHOTOSHOP,
        name: b"Headline",
    },
    Labelled {
        word: b"credit",
        space: PHOTOSHOP,
        name: b"Credit",
    },
    Labelled {
        word: b"source",
        space: PHOTOSHOP,
        name: b"Source",
    },
    Labelled {
        word: b"copyright",
        space: DC,
        name: b"rights",
    },
    Labelled {
        word: b"byline",
        space: DC,
        name: b"creator",
    },
    Labelled {
        word: b"byline-title",
        space: PHOTOSHOP,
        name: b"AuthorsPosition",
    },
    Labelled {
        word: b"keyword",
        space: DC,
        name: b"subject",
    },
    Labelled {
        word: b"inventory",
        space: PHOTOSHOP,
        name: b"TransmissionReference",
    },
];

// Where a walk is: how many parts are open, whether they are of the property with the label, and how many are open where its
// texts begin to be of something else; 0 if they do not.
#[derive(Clone, Copy, Debug, PartialEq, Eq)]
struct Place {
    depth: usize,
    is_inside: bool,
    other: usize,
}

// Whether a part is of a text's own: a member, or the text of a structure that is a text with qualifiers.
fn is_own(part: Part) -> bool {
    part.name.is_empty() || (part.space == RDF && part.name == b"value".as_slice())
}

// Whether a part is the property with a label.
fn has_label(part: Part, label: &Labelled) -> bool {
    part.space == label.space && part.name == label.name
}

// The place at a part: a property of the packet is the one with the label, or is not.
fn place_at(place: Place, part: Part, label: &Labelled) -> Place {
    if place.depth > 0 {
        return place;
    }
    Place {
        depth: 0,
        is_inside: has_label(part, label),
        other: 0,
    }
}

// Whether a part has a text of the property, or has such texts inside.
fn is_shown(place: Place, part: Part) -> bool {
    place.is_inside && place.other == 0 && (place.depth == 0 || is_own(part))
}

// How many parts are open where something else begins, after a part.
fn other_after(place: Place, depth: usize, is_hidden: bool) -> usize {
    if place.other > depth {
        return 0;
    }
    if place.other == 0 && is_hidden {
        return depth;
    }
    place.other
}

// The place after a part.
fn place_after(place: Place, part: Part) -> Place {
    let depth = depth_after(place.depth, part.kind);
    let is_hidden = is_outer(part.kind) && !is_shown(place, part);
    Place {
        depth,
        is_inside: place.is_inside,
        other: other_after(place, depth, is_hidden),
    }
}

// Appends the line of a text.
fn append_caption(
    memory: &mut Memory,
    out: &mut Vec<u8>,
    word: &[u8],
    part: Part,
) -> Result<(), AllocFailed>
    ensures memory { CountsAllocFailure result memory.old memory.new }
    ensures printed { KeepsPrinted out.old.items out.new.items }
{
    append_text(memory, out, word)?;
    append_after_space(memory, out, part.language)?;
    append(memory, out, b": ")?;
    append_text(memory, out, part.text)?;
    append(memory, out, b"\n")
}

// Whether a part is a text or a resource.
fn is_text(kind: Kind) -> bool {
    kind == Kind::Text || kind == Kind::Uri
}

// Appends the line of a part, if it has one.
fn append_part(
    memory: &mut Memory,
    out: &mut Vec<u8>,
    word: &[u8],
    place: Place,
    part: Part,
) -> Result<(), AllocFailed>
    ensures memory { CountsAllocFailure result memory.old memory.new }
    ensures printed { KeepsPrinted out.old.items out.new.items }
{
    if !is_text(part.kind) || !is_shown(place, part) {
        return Ok(());
    }
    append_caption(memory, out, word, part)
}

// Appends the lines of the property with a label.
fn append_labelled(
    memory: &mut Memory,
    out: &mut Vec<u8>,
    properties: &[u8],
    label: &Labelled,
) -> Result<(), AllocFailed>
    ensures memory { CountsAllocFailure result memory.old memory.new }
    ensures printed { KeepsPrinted out.old.items out.new.items }
{
    let mut place = Place {
        depth: 0,
        is_inside: false,
        other: 0,
    };
    let mut rest = properties;
    while !rest.is_empty() {
        let part = read_part(rest);
        place = place_at(place, part, label);
        append_part(memory, out, label.word, place, part)?;
        place = place_after(place, part);
        rest = advance(rest, part.size);
    }
    Ok(())
}

// Appends the lines of the properties that have a label.
pub(crate) fn append_captions(
    memory: &mut Memory,
    out: &mut Vec<u8>,
    properties: &[u8],
) -> Result<(), AllocFailed>
    ensures memory { CountsAllocFailure result memory.old memory.new }
    ensures printed { KeepsPrinted out.old.items out.new.items }
{
    for i in 0..LABELS.len() {
        append_labelled(memory, out, properties, &LABELS[i])?;
    }
    Ok(())
}
