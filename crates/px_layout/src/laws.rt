//! The laws of layouts: what follows from the definitions. Each is the contract of a function that does
//! nothing. Each is also a lemma in this crate's definitions (`LegalLaws`, `NormalLaws`, `BoundLaws`,
//! `ByteLaws`), which proofs of other crates cite.
ghost use Rattle.px_layout.specs.Laws.{LegalBlockHasMeaning, NormalIsLaid, FormDecides, NormalBound, LaidIsBytes};

/// Let a meaning be one that can be written (`IsWritable`), and a plan be legal for it (`Legal`): the plan gives an
/// offset to exactly the meaning's chunks (tables, values of more than four bytes, JPEG, strips); it is 8 to
/// 16,777,216 bytes long (`LIMIT`), and each chunk lies inside; no byte is in two of the chunks and the header. Then
/// the block that the plan lays out (`laid`) has that meaning, in either byte order, with any filler between the
/// chunks.
pub fn legal_block_has_meaning()
    ensures { LegalBlockHasMeaning }
{}

/// If a meaning can be written (`IsWritable`), and its normal form has at most `LIMIT` bytes, 16,777,216, then its
/// normal plan is legal: it has exactly the meaning's chunks, all inside its length, and no byte is in two of the
/// chunks and the header. The normal form is what this plan lays out, most significant byte first, filled with zeros.
/// The order of chunks after the header, each at the next even offset: for each of the directories main, Exif,
/// Interoperability, GPS and thumbnail its table, and then its values of more than four bytes by ascending tag; last
/// the JPEG and the strips.
pub fn normal_is_laid()
    ensures { NormalIsLaid }
{}

/// If two meanings can be written (`IsWritable`), and their normal forms have at most `LIMIT` bytes each, 16,777,216,
/// then the normal forms are equal exactly if the meanings are, and the normal form of the first, as an Exif block,
/// has the first meaning.
pub fn form_decides()
    ensures { FormDecides }
{}

/// If a meaning can be written (`IsWritable`) and the filler is below 256, then what any plan lays out for it, legal
/// or not, in either byte order, consists of bytes: numbers below 256.
pub fn laid_is_bytes()
    ensures { LaidIsBytes }
{}

/// If a block of bytes has a meaning (`SaysExif`), the normal form of this meaning has at most twice as many bytes as
/// the block.
pub fn normal_bound()
    ensures { NormalBound }
{
    px_meaning::laws::meaning_is_writable();
}
