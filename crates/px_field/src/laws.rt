//! Laws of the definitions. Each function does nothing: its contract is the law.
ghost use Rattle.px_field.specs.Laws.{ReadInRange, ReadEncodes, EncodedLength, EncodedReadsBack};

/// If each element of a value is of the value's type and in its range (`IsValue`), its encoding (`encoded`), in
/// either byte order, has as many bytes as it has elements, times the size of one. A value of kind `Whole`, at a tag
/// that treats SHORT and LONG as one, is encoded as LONG: four bytes an element.
pub fn encoded_length()
    ensures { EncodedLength }
{}

/// If each element of a value is of the value's type and in its range, then its encoding in a byte order, read in
/// that order as that type, gives the same value. The encoding of a value of kind `Whole`, at a tag that treats SHORT
/// and LONG as one, is read as LONG and gives that value.
pub fn encoded_reads_back()
    ensures { EncodedReadsBack }
{}

/// Let a value of some type have its elements in the range of that type, and let some bytes have the length of a
/// whole number of such elements. Then, in either byte order, these bytes are the value's encoding exactly if the
/// value is what is read of them as that type. It doesn't speak of values of kind `Whole`.
pub fn read_encodes()
    ensures { ReadEncodes }
{}

/// Bytes of any length are read, in either byte order, as a value whose elements are in the range of its type. At a
/// tag that treats SHORT and LONG as one, bytes that are read as SHORT or LONG give a value whose elements are in the
/// range of LONG.
pub fn read_in_range()
    ensures { ReadInRange }
{}
