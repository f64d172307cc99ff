// The main promise, for two files in memory.
ghost use Rattle.std.specs.Prelude.{◌≡◌, ◌+◌, length, IfOk, IfErr};
ghost use Rattle.px_bytes.specs.Allocations.{AsksAtMost};
ghost use Rattle.px_engine.specs.Asking.{form_request};
ghost use Rattle.px_engine.specs.Files.{Said};
ghost use Rattle.px_engine.specs.Input.{CountsAllocFailureInPair};
ghost use Rattle.px_engine.specs.Slices.{IsFormOf, IsUnwritten, IsUnwrittenAt};
ghost use Rattle.px_engine.specs.Headline.{Headline};

use crate::error::{CompareFault, Side};
use crate::laws;
use crate::slice::normal_form_in;
use px_bytes::Memory;

/// The normal forms of two files.
#[derive(Drop)]
pub struct NormalForms {
    /// That of the first file.
    pub first: Vec<u8>,
    /// That of the second file.
    pub second: Vec<u8>,
}

// The normal form of one of two files.
fn form_side(memory: &mut Memory, file: &[u8], side: Side) -> Result<Vec<u8>, CompareFault>
    ensures formed { IfOk result (λ v. (s : Said) × IsFormOf file.now s v.items) }
    ensures side { IfErr result (λ e. e.side ≡ side) }
    ensures unwritten { IfErr result (λ e. IsUnwritten file.now memory.new.failed_allocations e.fault) }
    ensures memory { CountsAllocFailureInPair result memory.old memory.new }
    ensures asked { AsksAtMost (form_request (length file.now)) memory.old memory.new }
{
    match normal_form_in(memory, file) {
        Ok(form) => Ok(form),
        Err(fault) => Err(CompareFault { side, fault }),
    }
}

/// Normalises two files in memory. Its contract states the main promise: the bytes of each file have one
/// meaning; two files mean the same exactly if their normal forms are equal; a normal form has the meaning of
/// its file, and is its own normal form. A file is refused for its content only if it has no meaning.
///
/// Allocates as `normal_form_in` does, for both files. The fault names its file; if that is the second, the
/// first has a normal form. `Refused`: the first fault of the block. `NormalTooLong`: the form is longer than
/// `LIMIT`. `OutOfMemory`: an allocation failed.
pub fn normalise_both_in(
    memory: &mut Memory,
    first: &[u8],
    second: &[u8],
) -> Result<NormalForms, CompareFault>
    ensures done { IfOk result (λ forms. Headline first.now second.now forms.first.items forms.second.items) }
    ensures failed { IfErr result (IsUnwrittenAt first.now second.now memory.new.failed_allocations) }
    ensures memory { CountsAllocFailureInPair result memory.old memory.new }
    ensures asked { AsksAtMost (form_request (length first.now) + form_request (length second.now)) memory.old memory.new }
{
    laws::one_meaning_of_file();
    laws::form_has_meaning();
    let form = form_side(memory, first, Side::First)?;
    let other = form_side(memory, second, Side::Second)?;
    Ok(NormalForms {
        first: form,
        second: other,
    })
}
