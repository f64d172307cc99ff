// The subject of a packet.
// `Err` of a call is why it reads no further: `Content`, what is wrong or rare and its byte offset
// in the packet; or `OutOfMemory`, a failed allocation.
ghost use Rattle.std.specs.Prelude.{◌≤◌, length, OnOk};
ghost use Rattle.px_bytes.specs.Parts.{limit};
ghost use Rattle.px_xmp_forms.specs.Allocations.{CountsAllocFailureInPacket};
ghost use Rattle.px_xmp_forms.specs.Causes.{IsRare, FailsByMemory};
ghost use Rattle.px_xmp.specs.calls.Roots.{IsAbout, Keeps, Stays};
ghost use Rattle.px_xmp.specs.calls.Fits.{SubjectFits};

use px_bytes::Memory;
use px_xmp_forms::{Refusal, same_text};

// What the attributes rdf:about name.
#[derive(Clone, Copy, Debug, PartialEq, Eq)]
pub(crate) struct Subject<'a> {
    // The value of the first one that names a subject.
    pub(crate) value: Option<&'a [u8]>,
    // The first place that names another.
    pub(crate) other: Option<usize>,
}

impl<'a> Subject<'a> {
    // Notes the subject that an attribute names.
    pub(crate) fn put(
        &mut self,
        memory: &mut Memory,
        value: &'a [u8],
        place: usize,
    ) -> Result<(), Refusal>
        ensures value { OnOk result (Keeps self.old self.new (IsAbout value.now)) }
        ensures only { OnOk result (Stays self.old self.new (IsAbout value.now)) }
        ensures memory { CountsAllocFailureInPacket result memory.old memory.new }
        ensures rare { IsRare result }
        ensures accepts { length value.now ≤ limit → SubjectFits self.old → FailsByMemory result }
        ensures fits { length value.now ≤ limit → SubjectFits self.old → OnOk result (SubjectFits self.new) }
    {
        if value.is_empty() || self.other.is_some() {
            return Ok(());
        }
        match self.value {
            None => self.value = Some(value),
            Some(subject) => {
                if !same_text(memory, subject, value)? {
                    self.other = Some(place);
                }
            }
        }
        Ok(())
    }
}
