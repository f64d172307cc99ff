//! The main promise, for the program's runs: the results of `normalise` and `compare` on two files agree with
//! the meanings of the files. Each law is the contract of a function that does nothing.
ghost use Rattle.px_runs.specs.Laws.{FormsDecide, ComparisonDecides, OutputsDecide, KnownOutputsDecide};
ghost use Rattle.px_runs.specs.Logs.{OnlyCalls};

use crate::named::KnownFiles;
use crate::opens::Opens;

/// Let two runs of `run_one_in` with `Job::Normalise` end with status 0, of readers whose bytes are known. Then there
/// are two forms, one appended by each run to what its writer had taken, if that is known, for which the headline
/// holds: each file has one meaning, and its form is the normal form of that, of at most `LIMIT` bytes, 16,777,216;
/// the forms are equal exactly if the meanings are; each form, as a file, has the meaning of its file and no other,
/// and is its own normal form.
pub fn forms_decide()
    ensures { FormsDecide }
{
    px_engine::laws::runs_decide();
}

/// Let the headline hold of two files and two forms, which are their normal forms, and let `run_compare_in` end with
/// a status, for readers that have the bytes of these files. If the status is 0, the forms are equal; if it is 1,
/// they differ. Another status says nothing of them.
pub fn comparison_decides()
    ensures { ComparisonDecides }
{
    px_engine::laws::comparing_decides();
}

/// Let two runs of `normalise FILE OUT` end with status 0, where every reader that opening its FILE may return has
/// the same known bytes. Then there are two forms: each OUT was created or emptied, took its form and no more, if
/// what it takes is known, and was closed without an error. For the two files and forms the headline holds: each file
/// has one meaning, and its form is the normal form of that, of at most `LIMIT` bytes, 16,777,216; the forms are
/// equal exactly if the meanings are; each form, as a file, has the meaning of its file and no other, and is its own
/// normal form.
pub fn outputs_decide<O: Opens>()
    ensures { OutputsDecide O.Reader.remaining O.Writer.contents O.opens O.makes O.closes }
{
    forms_decide();
}

/// Let files keep a list of the calls made on them: each call, whether it succeeds or not, appends itself. Then a run
/// appends these and no other: for `show`, `check` or `captions` one call to open FILE; for `normalise` one to open
/// FILE, perhaps one to make OUT, and after that perhaps one to close it; for `compare` one to open the first file
/// and perhaps one to open the second; for any other request none.
pub fn only_calls<O: Opens>()
    ensures { OnlyCalls O.Reader.remaining O.Writer.contents O.opens O.makes O.closes }
{}

/// Let two runs of `normalise FILE OUT` end with status 0, over files whose bytes are known, as those of `Named` are,
/// and let each FILE be there. Then there are two forms, each of which is the bytes of the file that its run closed
/// last, and for the two files and forms the headline holds: each file has one meaning, and its form is the normal
/// form of that, of at most `LIMIT` bytes, 16,777,216; the forms are equal exactly if the meanings are; each form, as
/// a file, has the meaning of its file and no other, and is its own normal form.
pub fn known_outputs_decide<O: KnownFiles>()
    ensures { KnownOutputsDecide O.Reader.remaining O.Writer.contents O.opens O.makes O.closes O.has_file O.has_written }
{
    outputs_decide::<O>();
}
