//! Laws of the definitions. specs/Laws.antt has their statements.
ghost use Rattle.px_meaning.specs.Laws.{OneMeaning, MeaningIsWritable, GetAfterPut, FieldsArePairs};

/// If a block, any list of numbers, has two meanings, they are equal. It has a meaning (`SaysExif`) if it is valid in
/// the byte order of its first four bytes: what its bytes give in that order.
pub fn one_meaning()
    ensures { OneMeaning }
{}

/// If a block of bytes, numbers below 256, has a meaning (`SaysExif`), then this can be written (`IsWritable`): tags
/// ascend, each value is in the range of its type and allowed at its tag, each directory has an entry, and a record
/// is valid. It says nothing of the length of the normal form.
pub fn meaning_is_writable()
    ensures { MeaningIsWritable }
{}

/// Let some fields have no value at a tag. After a value is put there (`put`), a search by tag, as `Fields::get`
/// makes, returns this value at that tag, and at each other tag what it returned before.
pub fn get_after_put()
    ensures { GetAfterPut }
{}

/// Let a block of bytes have a valid directory at an offset (`IsDirectory`), in a byte order. Its fields contain a
/// tag and a value exactly if it has an entry of that tag whose bytes encode the value's elements in the entry's
/// type; at a widened tag, SHORTs and LONGs are whole numbers of one kind. Pointers, parts of the thumbnail and the
/// record of DataSets are no field; other bytes at the record's tag are one.
pub fn fields_are_pairs()
    ensures { FieldsArePairs }
{}
