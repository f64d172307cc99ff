// Files whose bytes are known: what the laws of runs say of them has no premise that can't be met. The program has no
// use for them; tests run it over them.
ghost use Rattle.std.specs.Prelude.{◌≡◌, ℕ, List, [], Option, Some, None, Result, Ok, IfOk, IfSome, option_map};
ghost use Rattle.std.specs.Io.KnownBytes.{Appends};
ghost use Rattle.px_runs.specs.Named.{HasFile};

use crate::opens::Opens;
use px_engine::Fault;
use std::alloc::Global;

/// Files whose bytes are known, and those of the file that was written last.
pub trait KnownFiles: Opens {
    // The file of that name has these bytes.
    ghost has_file: { Self → List ℕ → List ℕ → Type 0 };

    // The file that was made and closed last has these bytes.
    ghost has_written: { Self → List ℕ → Type 0 };

    // Only these bytes are read of a file that has them.
    ghost opened: { (f g : Self) (name x : List ℕ) (reader : Self.Reader) → has_file f name x → Self.opens f name (Ok reader) g
        → Self.Reader.remaining reader ≡ Some x };

    // What a file takes from when it is made until it is closed is written.
    ghost received: { (e f g : Self) (name x : List ℕ) (reader : Self.Reader) (out out_now : Self.Writer)
        → Self.makes e name reader (Ok (Some out)) f → Self.closes f out_now (Ok tt) g
        → Appends (Self.Writer.contents out) (Self.Writer.contents out_now) x → has_written g x };
}

/// A file: its name and its bytes.
#[derive(Clone, Copy)]
pub struct NamedFile<'a> {
    pub name: &'a str,
    pub bytes: &'a [u8],
}

/// A list of files, and what was written last.
#[derive(Drop)]
pub struct Named<'a> {
    alloc: Global,
    files: &'a [NamedFile<'a>],
    written: Option<Vec<u8>>,
}

impl<'a> Named<'a> {
    /// Files with these names and bytes, none of which is written yet.
    pub fn new(alloc: Global, files: &'a [NamedFile<'a>]) -> Named<'a>
        ensures files { result.files ≡ files.entry }
        ensures written { result.written ≡ None }
    {
        Named {
            alloc,
            files,
            written: None,
        }
    }

    /// The bytes of the file that was made and closed last.
    pub fn written(&self) -> Option<&[u8]>
        ensures { option_map (λ x. x.now) result ≡ option_map (λ v. v.items) self.now.written }
    {
        match &self.written {
            Some(bytes) => Some(bytes.as_slice()),
            None => None,
        }
    }
}

// The bytes of the first file of that name.
fn bytes_of<'a>(files: &'a [NamedFile<'a>], name: &str) -> Option<&'a [u8]>
    ensures { HasFile files.now name.now (option_map (λ x. x.now) result) }
{
    for file in files {
        if file.name == name {
            return Some(file.bytes);
        }
    }
    None
}

impl<'a> Opens for Named<'a> {
    ghost use Rattle.px_runs.specs.Named.{IsOpened};

    type Reader = &'a [u8];

    type Writer = Vec<u8>;

    ghost opens = { λ f name r g. IsOpened f.files.now name r × (g ≡ f) };

    ghost makes = { λ f name file r g. IfOk r (λ o. IfSome o (λ out. out.items ≡ [])) × (g ≡ f) };

    ghost closes = { λ f out r g. (r ≡ Ok tt) × (g.written ≡ Some out) × (g.files ≡ f.files) };

    fn open(&mut self, name: &str) -> Result<&'a [u8], Fault> {
        match bytes_of(self.files, name) {
            Some(bytes) => Ok(bytes),
            None => Err(Fault::ReadFailed),
        }
    }

    fn make_beside(&mut self, _name: &str, _file: &&'a [u8]) -> Result<Option<Vec<u8>>, Fault> {
        Ok(Some(Vec::new(self.alloc)))
    }

    fn close(&mut self, out: Vec<u8>) -> Result<(), Fault> {
        self.written = Some(out);
        Ok(())
    }
}

impl<'a> KnownFiles for Named<'a> {
    ghost use Rattle.px_runs.specs.lemmas.NamedLaws.{one_file};
    ghost use Rattle.std.proofs.Common.{◌∙◌, ◌++◌, ap};

    ghost has_file = { λ f name x. HasFile f.files.now name (Some x) };

    ghost has_written = { λ f x. option_map (λ v. v.items) f.written ≡ Some x };

    ghost opened = { λ f g name x reader h o. one_file f.files.now name (Some reader.now) (Some x) o.0 h };

    ghost received = { λ e f g name x reader out out_now m c a.
        ap (option_map (λ v. v.items)) c.1 ∙ ap Some (a ∙ ap (λ l. l ++ x) m.0) };
}
