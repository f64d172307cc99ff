// The names of properties, with the prefixes that the standards and ExifTool use.
ghost use Rattle.px_bytes.specs.Allocations.{CountsAllocFailure};
ghost use Rattle.px_xmp_lines.specs.Lines.{KeepsPrinted};

use crate::escaping::{append, append_text};
use crate::parts::Part;
use px_bytes::{AllocFailed, Memory};

// A namespace, and its usual prefix.
#[derive(Clone, Copy)]
struct Prefix {
    space: &'static [u8],
    word: &'static [u8],
}

// The usual prefixes.
const PREFIXES: [Prefix; 35] = [
    Prefix {
        space: b"http://purl.org/dc/elements/1.1/",
        word: b"dc",
    },
    Prefix {
        space: b"http://ns.adobe.com/xap/1.0/",
        word: b"xmp",
    },
    Prefix {
        space: b"http://ns.adobe.com/xap/1.0/rights/",
        word: b"xmpRights",
    },
    Prefix {
        space: b"http://ns.adobe.com/xap/1.0/mm/",
        word: b"xmpMM",
    },
    Prefix {
        space: b"http://ns.adobe.com/xap/1.0/bj/",
        word: b"xmpBJ",
    },
    Prefix {
        space: b"http://ns.adobe.com/xap/1.0/t/pg/",
        word: b"xmpTPg",
    },
    Prefix {
        space: b"http://ns.adobe.com/xap/1.0/g/",
        word: b"xmpG",
    },
    Prefix {
        space: b"http://ns.adobe.com/xap/1.0/g/img/",
        word: b"xmpGImg",
    },
    Prefix {
        space: b"http://ns.adobe.com/xap/1.0/sType/ResourceRef#",
        word: b"stRef",
    },
    Prefix {
        space: b"http://ns.adobe.com/xap/1.0/sType/ResourceEvent#",
        word: b"stEvt",
    },
    Prefix {
        space: b"http://ns.adobe.com/xap/1.0/sType/Dimensions#",
        word: b"stDim",
    },
    Prefix {
        space: b"http://ns.adobe.com/xap/1.0/sType/Job#",
        word: b"stJob",
    },
    Prefix {
        space: b"http://ns.adobe.com/xap/1.0/sType/Version#",
        word: b"stVer",
    },
    Prefix {
        space: b"http://ns.adobe.com/xmp/sType/Area#",
        word: b"stArea",
    },
    Prefix {
        space: b"http://ns.adobe.com/xmp/Identifier/qual/1.0/",
        word: b"xmpidq",
    },
    Prefix {
        space: b"http://ns.adobe.com/xmp/1.0/DynamicMedia/",
        word: b"xmpDM",
    },
    Prefix {
        space: b"http://ns.adobe.com/xmp/note/",
        word: b"xmpNote",
    },
    Prefix {
        space: b"http://ns.adobe.com/pdf/1.3/",
        word: b"pdf",
    },
    Prefix {
        space: b"http://ns.adobe.com/photoshop/1.0/",
        word: b"photoshop",
    },
    Prefix {
        space: b"http://ns.adobe.com/camera-raw-settings/1.0/",
        word: b"crs",
    },
    Prefix {
        space: b"http://ns.adobe.com/lightroom/1.0/",
        word: b"lr",
    },
    Prefix {
        space: b"http://ns.adobe.com/exif/1.0/",
        word: b"exif",
    },
    Prefix {
        space: b"http://ns.adobe.com/exif/1.0/aux/",
        word: b"aux",
    },
    Prefix {
        space: b"http://ns.adobe.com/tiff/1.0/",
        word: b"tiff",
    },
    Prefix {
        space: b"http://cipa.jp/exif/1.0/",
        word: b"exifEX",
    },
    Prefix {
        space: b"http://iptc.org/std/Iptc4xmpCore/1.0/xmlns/",
        word: b"Iptc4xmpCore",
    },
    Prefix {
        space: b"http://iptc.org/std/Iptc4xmpExt/2008-02-29/",
        word: b"Iptc4xmpExt",
    },
    Prefix {
        space: b"http://ns.useplus.org/ldf/xmp/1.0/",
        word: b"plus",
    },
    Prefix {
        space: b"http://www.metadataworkinggroup.com/schemas/regions/",
        word: b"mwg-rs",
    },
    Prefix {
        space: b"http://www.metadataworkinggroup.com/schemas/keywords/",
        word: b"mwg-kw",
    },
    Prefix {
        space: b"http://www.digikam.org/ns/1.0/",
        word: b"digiKam",
    },
    Prefix {
        space: b"http://ns.microsoft.com/photo/1.0/",
        word: b"MicrosoftPhoto",
    },
    Prefix {
        space: b"http://ns.google.com/photos/1.0/panorama/",
        word: b"GPano",
    },
    Prefix {
        space: b"http://ns.google.com/photos/1.0/camera/",
        word: b"GCamera",
    },
    Prefix {
        space: b"http://www.w3.org/1999/02/22-rdf-syntax-ns#",
        word: b"rdf",
    },
];

// The usual prefix of a namespace. None: the namespace has none here.
fn prefix_of(space: &[u8]) -> Option<&'static [u8]> {
    for i in 0..PREFIXES.len() {
        if PREFIXES[i].space == space {
            return Some(PREFIXES[i].word);
        }
    }
    None
}

// Appends the name of a property whose namespace has a usual prefix.
fn append_short(
    memory: &mut Memory,
    out: &mut Vec<u8>,
    prefix: &[u8],
    name: &[u8],
) -> Result<(), AllocFailed>
    ensures memory { CountsAllocFailure result memory.old memory.new }
    ensures printed { KeepsPrinted out.old.items out.new.items }
{
    append(memory, out, b"XMP-")?;
    append_text(memory, out, prefix)?;
    append(memory, out, b":")?;
    append_text(memory, out, name)
}

// Appends the name of a property whose namespace has no usual prefix: its URI.
fn append_long(memory: &mut Memory, out: &mut Vec<u8>, part: Part) -> Result<(), AllocFailed>
    ensures memory { CountsAllocFailure result memory.old memory.new }
    ensures printed { KeepsPrinted out.old.items out.new.items }
{
    append(memory, out, b"XMP:<")?;
    append_text(memory, out, part.space)?;
    append_text(memory, out, part.name)?;
    append(memory, out, b">")
}

// Appends the name of a property, and a space; nothing for a member.
pub(crate) fn append_name(
    memory: &mut Memory,
    out: &mut Vec<u8>,
    part: Part,
) -> Result<(), AllocFailed>
    ensures memory { CountsAllocFailure result memory.old memory.new }
    ensures printed { KeepsPrinted out.old.items out.new.items }
{
    if part.name.is_empty() {
        return Ok(());
    }
    match prefix_of(part.space) {
        Some(prefix) => append_short(memory, out, prefix, part.name)?,
        None => append_long(memory, out, part)?,
    }
    append(memory, out, b" ")
}
