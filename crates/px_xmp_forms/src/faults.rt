// Why a packet is refused.
ghost use Rattle.std.specs.Prelude.{◌≡◌, Some};
ghost use Rattle.px_xmp_forms.specs.Causes.{name_of, cause_of, is_rare};
ghost use Rattle.px_xmp_forms.specs.declared.faults.Refusal.TheVariants.{Content};

use px_bytes::AllocFailed;

/// The cause of a refusal. Each is reported with one byte offset, which counts from the packet's first byte.
#[derive(Clone, Copy, Debug, PartialEq, Eq)]
pub enum Cause {
    /// The packet is longer than `LIMIT`. The offset is `LIMIT`.
    TooLong,
    /// No character that XML allows is here, in UTF-8.
    BadCharacter,
    /// A tag, a comment, a section or a processing instruction is none of XML's, or is cut.
    BadMarkup,
    /// A text or a tag has an `&` that begins no reference to a character or to one of XML's five entities.
    BadReference,
    /// There is a document type.
    DocumentType,
    /// An end tag has another name than its element.
    OtherEnd,
    /// A tag has an attribute twice.
    AttributeTwice,
    /// A prefix is not declared, or a declaration is not allowed.
    BadPrefix,
    /// There is text or a second element beside the root, or no root.
    NoRoot,
    /// An element is inside 100 others.
    TooDeep,
    /// The root is not `x:xmpmeta` around one `rdf:RDF`, nor `rdf:RDF`.
    NoRdf,
    /// The packet has properties of several subjects.
    SeveralSubjects,
    /// Rare: another encoding than UTF-8.
    RareEncoding,
    /// Rare: a name that is not of ASCII.
    RareName,
    /// Rare: a namespace that has more than 256 octets or odd ones, could be part of a name, or begins as one of XML's own.
    RareNamespace,
    /// Rare: more than 256 attributes of a tag, or too many prefixes in scope.
    RareCount,
    /// Rare: an element where the usual forms of RDF/XML have none.
    RareElement,
    /// Rare: an attribute that the usual forms do not have.
    RareAttribute,
    /// Rare: text between elements.
    RareText,
    /// Rare: a language that is none, or has more than 100 characters.
    RareLanguage,
    /// Rare: a resource that is no absolute URI of ASCII.
    RareResource,
    /// Rare: a property stands twice in one place.
    RareRepeated,
    /// Rare: the normal form would be longer than `LIMIT`. The offset is `LIMIT`.
    RareLength,
    /// Rare: in the normal form an element would be inside 100 others.
    RareDepth,
}

impl Cause {
    /// The name of the cause, as it is printed, in ASCII: `Xmp` and the name of the variant.
    pub fn name(self) -> &'static [u8]
        ensures { result.now ≡ name_of self }
    {
        match self {
            Cause::TooLong => b"XmpTooLong",
            Cause::BadCharacter => b"XmpBadCharacter",
            Cause::BadMarkup => b"XmpBadMarkup",
            Cause::BadReference => b"XmpBadReference",
            Cause::DocumentType => b"XmpDocumentType",
            Cause::OtherEnd => b"XmpOtherEnd",
            Cause::AttributeTwice => b"XmpAttributeTwice",
            Cause::BadPrefix => b"XmpBadPrefix",
            Cause::NoRoot => b"XmpNoRoot",
            Cause::TooDeep => b"XmpTooDeep",
            Cause::NoRdf => b"XmpNoRdf",
            Cause::SeveralSubjects => b"XmpSeveralSubjects",
            Cause::RareEncoding => b"XmpRareEncoding",
            Cause::RareName => b"XmpRareName",
            Cause::RareNamespace => b"XmpRareNamespace",
            Cause::RareCount => b"XmpRareCount",
            Cause::RareElement => b"XmpRareElement",
            Cause::RareAttribute => b"XmpRareAttribute",
            Cause::RareText => b"XmpRareText",
            Cause::RareLanguage => b"XmpRareLanguage",
            Cause::RareResource => b"XmpRareResource",
            Cause::RareRepeated => b"XmpRareRepeated",
            Cause::RareLength => b"XmpRareLength",
            Cause::RareDepth => b"XmpRareDepth",
        }
    }

    /// The number that C has for the cause: from 201 on in the order of declaration, and from 251 on for the rare ones.
    #[tactic(auto, unfolding(crate::specs::Causes::cause_of))]
    pub fn number(self) -> u32
        ensures { cause_of result ≡ Some self }
    {
        match self {
            Cause::TooLong => 201,
            Cause::BadCharacter => 202,
            Cause::BadMarkup => 203,
            Cause::BadReference => 204,
            Cause::DocumentType => 205,
            Cause::OtherEnd => 206,
            Cause::AttributeTwice => 207,
            Cause::BadPrefix => 208,
            Cause::NoRoot => 209,
            Cause::TooDeep => 210,
            Cause::NoRdf => 211,
            Cause::SeveralSubjects => 212,
            Cause::RareEncoding => 251,
            Cause::RareName => 252,
            Cause::RareNamespace => 253,
            Cause::RareCount => 254,
            Cause::RareElement => 255,
            Cause::RareAttribute => 256,
            Cause::RareText => 257,
            Cause::RareLanguage => 258,
            Cause::RareResource => 259,
            Cause::RareRepeated => 260,
            Cause::RareLength => 261,
            Cause::RareDepth => 262,
        }
    }

    /// The cause with this number, or `None` if there is none.
    #[tactic(auto, unfolding(crate::specs::Causes::cause_of))]
    pub fn of(number: u32) -> Option<Cause>
        ensures { result ≡ cause_of number }
    {
        match number {
            201 => Some(Cause::TooLong),
            202 => Some(Cause::BadCharacter),
            203 => Some(Cause::BadMarkup),
            204 => Some(Cause::BadReference),
            205 => Some(Cause::DocumentType),
            206 => Some(Cause::OtherEnd),
            207 => Some(Cause::AttributeTwice),
            208 => Some(Cause::BadPrefix),
            209 => Some(Cause::NoRoot),
            210 => Some(Cause::TooDeep),
            211 => Some(Cause::NoRdf),
            212 => Some(Cause::SeveralSubjects),
            251 => Some(Cause::RareEncoding),
            252 => Some(Cause::RareName),
            253 => Some(Cause::RareNamespace),
            254 => Some(Cause::RareCount),
            255 => Some(Cause::RareElement),
            256 => Some(Cause::RareAttribute),
            257 => Some(Cause::RareText),
            258 => Some(Cause::RareLanguage),
            259 => Some(Cause::RareResource),
            260 => Some(Cause::RareRepeated),
            261 => Some(Cause::RareLength),
            262 => Some(Cause::RareDepth),
            _ => None,
        }
    }

    /// The refusal by this cause at a byte offset.
    pub fn at(self, place: usize) -> Refusal
        ensures { result ≡ Content self place }
    {
        Refusal::Content { cause: self, place }
    }

    /// Whether the packet may have a meaning that these crates do not read, so that another reader can be asked.
    pub fn is_rare(self) -> bool
        ensures { result ≡ is_rare self }
    {
        match self {
            Cause::RareEncoding
            | Cause::RareName
            | Cause::RareNamespace
            | Cause::RareCount
            | Cause::RareElement
            | Cause::RareAttribute
            | Cause::RareText
            | Cause::RareLanguage
            | Cause::RareResource
            | Cause::RareRepeated
            | Cause::RareLength
            | Cause::RareDepth => true,
            _ => false,
        }
    }
}

/// Why no normal form is made of a packet.
#[derive(Clone, Copy, Debug, PartialEq, Eq)]
pub enum Refusal {
    /// The packet is wrong or rare: one cause, at one byte offset.
    Content {
        /// What is wrong.
        cause: Cause,
        /// The byte offset.
        place: usize,
    },
    /// An allocation failed.
    OutOfMemory,
}

impl From<AllocFailed> for Refusal {
    ghost use Rattle.std.specs.Prelude.{◌≡◌};
    ghost use Rattle.px_xmp_forms.specs.declared.faults.Refusal.TheVariants.{OutOfMemory};

    ghost from_gives = { λ _ e. e ≡ OutOfMemory };

    // An allocation that failed is no fault of the packet: the same call may succeed later.
    fn from(_: AllocFailed) -> Refusal {
        Refusal::OutOfMemory
    }
}
