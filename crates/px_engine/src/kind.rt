// The kind of block in a file, and where it begins.
ghost use Rattle.std.specs.Prelude.{◌≡◌};
ghost use Rattle.px_engine.specs.Files.{is_prefixed, is_marked, kind_of, block_of};

use px_iim::MARKER;

/// The kind of a block.
#[derive(Clone, Copy, Debug, PartialEq, Eq)]
pub enum BlockKind {
    /// Directories in the structure of TIFF 6.0 section 2, with the pointers of CIPA DC-008.
    Exif,
    /// DataSets of IPTC-NAA IIM 4.2.
    Iim,
}

// The six bytes before an Exif block in a JPEG segment.
const PREFIX: [u8; 6] = [0x45, 0x78, 0x69, 0x66, 0x00, 0x00];

// Whether the file begins with `PREFIX`, "Exif" and two zeros.
fn is_prefixed(file: &[u8]) -> bool
    ensures { result ≡ is_prefixed file.now }
{
    file.starts_with(&PREFIX)
}

// Whether the file begins with the tag marker of a DataSet, 1C (IIM 4.2 chapter 1).
fn is_marked(file: &[u8]) -> bool
    ensures { result ≡ is_marked file.now }
{
    file.starts_with(&[MARKER])
}

/// The kind of the block in a file: Exif after the six bytes `45 78 69 66 00 00`; otherwise DataSets if the
/// first byte is `1C`, or else Exif.
#[tactic(auto, unfolding(crate::specs::Files::kind_of))]
pub fn kind_of(file: &[u8]) -> BlockKind
    ensures { result ≡ kind_of file.now }
{
    if is_prefixed(file) {
        return BlockKind::Exif;
    }
    if is_marked(file) {
        return BlockKind::Iim;
    }
    BlockKind::Exif
}

/// The block in a file: the bytes after the six, or the whole file.
#[tactic(auto, unfolding(crate::specs::Files::block_of))]
pub fn block_of<'a>(file: &'a [u8]) -> &'a [u8]
    ensures { result.now ≡ block_of file.now }
{
    if is_prefixed(file) {
        return &file[6..];
    }
    file
}
