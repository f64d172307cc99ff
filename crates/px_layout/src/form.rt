// A normal form that is measured but not yet written.
ghost use Rattle.std.specs.Prelude.{◌≡◌, length};
ghost use Rattle.px_meaning.specs.Writable.{IsWritable};
ghost use Rattle.px_meaning.specs.calls.Seen.{meaning_of};
ghost use Rattle.px_layout.specs.Normal.{normal_exif};
ghost use Rattle.px_layout.specs.calls.Forms.{meaning_in, IsWritableForm, FormResult};

use crate::starts::{Starts, starts_of};
use px_bytes::WriteRefusal;
use px_meaning::Meaning;

/// A meaning whose normal form is no longer than `LIMIT`, with the byte offsets of the form's parts.
/// `put_normal` writes it.
#[derive(Clone, Copy)]
pub struct NormalForm<'p, 'a> {
    pub(crate) m: &'p Meaning<'a>,
    pub(crate) starts: Starts,
}

impl<'p, 'a> NormalForm<'p, 'a> {
    /// Computes the byte offsets of the form's parts, for a meaning that can be written (`is_writable`). `Ok`: the
    /// form is of that meaning, has at most `LIMIT` bytes, 16,777,216, and the offsets are right. `NormalTooLong`:
    /// the normal form is longer than `LIMIT`. `OutOfMemory` and `WriteFailed` never come. Allocates nothing.
    pub fn new(m: &'p Meaning<'a>) -> Result<NormalForm<'p, 'a>, WriteRefusal>
        requires { IsWritable (meaning_of m.now) }
        ensures { FormResult result (meaning_of m.now) }
    {
        match starts_of(m) {
            Ok(starts) => Ok(NormalForm { m, starts }),
            Err(refusal) => Err(refusal),
        }
    }

    /// The form's length in bytes, at most `LIMIT`.
    pub fn len(&self) -> u64
        requires { IsWritableForm self.now }
        ensures { result ≡ length (normal_exif (meaning_in self.now)) }
    {
        u64::from(self.starts.end)
    }
}
