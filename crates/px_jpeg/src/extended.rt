// Extended XMP, which is cut over several segments. XMP part 3, 1.1.3.1.
ghost use Rattle.std.specs.Prelude.{◌≡◌, ◌<◌, length, MatchOption};
ghost use Rattle.px_jpeg.specs.Extended.{IsExtended, head_len};

use crate::bytes::number4_at;

/// The number of bytes before the text of a piece of extended XMP: 32 bytes of the identifier, the length of the
/// whole text, and the offset of the piece in it.
pub const EXTENDED_HEAD: usize = 40;

/// Where a piece of extended XMP belongs.
#[derive(Clone, Copy, Debug, PartialEq, Eq)]
pub struct Extended {
    /// The number of bytes of the whole text.
    pub total: usize,
    /// The offset of this piece in it.
    pub offset: usize,
}

/// Reads where a piece of extended XMP belongs, from the bytes of a `Piece` of the kind `ExtendedXmp`. The first 32
/// bytes are the identifier of the text, which the packet of XMP names too; then come two numbers of four bytes, most
/// significant first: the length of the whole text (`total`), and the offset of the piece in it; the text begins at
/// `EXTENDED_HEAD`, 40. `None`: there are fewer bytes than that. It doesn't look at the identifier, nor whether the
/// piece fits in the text. Allocates nothing.
pub fn read_extended(octets: &[u8]) -> Option<Extended>
    ensures { MatchOption result (length octets.now < head_len) (λ x. IsExtended octets.now x) }
{
    if octets.len() < EXTENDED_HEAD {
        return None;
    }
    Some(Extended {
        total: number4_at(octets, 32),
        offset: number4_at(octets, 36),
    })
}
