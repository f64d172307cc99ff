//! The laws of files: what follows from the definitions. Each is the contract of a function that does
//! nothing. Each is also a lemma in this crate's definitions (`FileLaws`), which proofs of other crates cite.
//! Together with the contracts of reading and writing they are the main promise: see `normalise_both`.
ghost use Rattle.px_engine.specs.Laws.{OneMeaningOfFile, MeaningCanBeWritten, FormHasMeaning, FormDecides, NormalIsItsOwn, NormalBound};
ghost use Rattle.px_engine.specs.Laws.{FaultsDecide};
ghost use Rattle.px_engine.specs.Laws.{TakenDecides};
ghost use Rattle.px_engine.specs.Headline.{RunsDecide, ComparingDecides};

/// If a file, any list of numbers, has two meanings (`Says`: what its block means, read as its kind), they are equal.
pub fn one_meaning_of_file()
    ensures { OneMeaningOfFile }
{
    px_tree::laws::one_meaning();
}

/// If a file of bytes, numbers below 256, has a meaning (`Says`), this can be written (`CanBeWritten`): a tree of
/// directories is writable (`IsWritable`), a record of DataSets is valid (`IsRecord`). It says nothing of the length
/// of the normal form.
pub fn meaning_can_be_written()
    ensures { MeaningCanBeWritten }
{
    px_tree::laws::meaning_is_writable();
}

/// If a meaning can be written (`CanBeWritten`), and its normal form has at most `LIMIT` bytes, 16,777,216, then the
/// normal form, as a file, has that meaning.
pub fn form_has_meaning()
    ensures { FormHasMeaning }
{}

/// If two meanings can be written (`CanBeWritten`), and their normal forms have at most `LIMIT` bytes each,
/// 16,777,216, then the normal forms are equal exactly if the meanings are. So that of a tree of directories never
/// equals that of a record.
pub fn form_decides()
    ensures { FormDecides }
{
    px_tree::laws::one_meaning();
}

/// If a meaning can be written (`CanBeWritten`), and its normal form has at most `LIMIT` bytes, 16,777,216, then
/// whatever the normal form means, as a file, has this same normal form.
pub fn normal_is_its_own()
    ensures { NormalIsItsOwn }
{
    px_tree::laws::one_meaning();
}

/// If a file of bytes, numbers below 256, has a meaning (`Says`), the normal form of this meaning has at most twice
/// as many bytes as the file's block: the file without `Exif` and two zeros, if it begins so.
pub fn normal_bound()
    ensures { NormalBound }
{
    px_tree::laws::meaning_is_writable();
}

/// The first fault of a file's block, by the order of its kind's checks, is one of its faults, as each cause is
/// defined (`FaultOf`). A file with a fault has no meaning. Each file has a meaning or a first fault. It has at most
/// one first fault: two have the same cause and offset.
pub fn faults_decide()
    ensures { FaultsDecide }
{
    px_tree::fault_laws::faults_decide();
}

/// Only the first `LIMIT` + 7 bytes of a file matter, 16,777,223: for any meaning, these bytes as a file have it
/// exactly if the file does; and for any cause and offset, this is their first fault exactly if it is the file's.
pub fn taken_decides()
    ensures { TakenDecides }
{}

/// Let two runs of `normalise` succeed, of readers whose bytes are known. Then there are two forms, one appended by
/// each run to what its writer had taken, if that is known, for which the headline holds: each file has one meaning,
/// and its form is the normal form of that, of at most `LIMIT` bytes, 16,777,216; the forms are equal exactly if the
/// meanings are; each form, as a file, has the meaning of its file and no other, and is its own normal form.
pub fn runs_decide()
    ensures { RunsDecide }
{
    one_meaning_of_file();
    form_has_meaning();
}

/// Let the headline hold of two files and two forms, which are their normal forms, and let `compare` return a truth
/// value for readers that have the bytes of these files. It is true exactly if the two forms are equal.
pub fn comparing_decides()
    ensures { ComparingDecides }
{}
