// Opens the files that the arguments name. No contract can state what this file has to show: a missing file is
// reported only for an error of the system, the file that is opened, created or emptied is the one that was
// named, no other is, and the bytes of a writer are those of its file.
//
// `rt` is the runtime, through which alone a program opens files.
ghost use Rattle.std.specs.Prelude.{◌≡◌, ◌≢◌, ◌↔◌, IsSome, IsTrue, Ok, Err, IfOk, IfErr};
ghost use Rattle.std.specs.Fs.{file_type, IsFile};
ghost use Rattle.std.specs.IoError.{error_kind};
ghost use Rattle.px_engine.specs.declared.Fault.TheVariants.{OutOfMemory, ReadFailed, WriteFailed};
ghost use Rattle.px_runs.specs.Programs.{IsLacking};
ghost use Rattle.px_cli.specs.calls.Opened.{IsOneFile, AreOne};

use px_engine::Fault;
use px_runs::Opens;
use std::fs::{File, Metadata, OpenFile, OpenOptions};
use std::io;
use std::io::ErrorKind;
use std::os::unix::fs::MetadataExt;
use std::rt::Files;

// The fault for an error of a call on a file: out of memory, or else `expected`.
fn fault_of(error: &io::Error, expected: Fault) -> Fault
    ensures memory { error_kind error.now ≡ ErrorKind.OutOfMemory → result ≡ OutOfMemory }
    ensures either { IsLacking expected result }
    ensures call { error_kind error.now ≢ ErrorKind.OutOfMemory → result ≡ expected }
{
    if error.kind() == ErrorKind::OutOfMemory {
        return Fault::OutOfMemory;
    }
    expected
}

// The result of a call on a file, with its fault.
fn lacking<T>(called: io::Result<T>, expected: Fault) -> Result<T, Fault>
    ensures answered { IfOk called (λ x. result ≡ Ok x) }
    ensures memory { IfErr called (λ e. error_kind e ≡ ErrorKind.OutOfMemory → result ≡ Err OutOfMemory) }
    ensures failed { IfErr called (λ e. error_kind e ≢ ErrorKind.OutOfMemory → result ≡ Err expected) }
    ensures either { IfErr result (IsLacking expected) }
{
    match called {
        Ok(x) => Ok(x),
        Err(error) => Err(fault_of(&error, expected)),
    }
}

// The file under a descriptor above the standard streams'. If a stream is closed, the system gives its
// descriptor to the next file that is opened, and output for the stream would go there.
fn above_streams<F: OpenFile + Drop>(file: F, expected: Fault) -> Result<F, Fault>
    ensures { IfErr result (IsLacking expected) }
{
    lacking(file.try_clone(), expected)
}

// Opens a file to read. If it can't be opened, that is a failed read. The file never gets the descriptor of a
// standard stream.
fn open<R: Files>(rt: &R, name: &str) -> Result<R::File, Fault>
    ensures { IfErr result (IsLacking ReadFailed) }
{
    let file = lacking(File::open(rt, name), Fault::ReadFailed)?;
    above_streams(file, Fault::ReadFailed)
}

// Creates a file to write, or opens an existing one without emptying it.
fn make<R: Files>(rt: &R, name: &str) -> Result<R::File, Fault>
    ensures { IfErr result (IsLacking WriteFailed) }
{
    let mut how = OpenOptions::new();
    how.write(true).create(true);
    let file = lacking(how.open(rt, name), Fault::WriteFailed)?;
    above_streams(file, Fault::WriteFailed)
}

// The metadata of an open file.
fn metadata_of<F: OpenFile>(file: &F) -> Result<Metadata, Fault>
    ensures { IfErr result (IsLacking WriteFailed) }
{
    lacking(file.metadata(), Fault::WriteFailed)
}

// A regular file, by the numbers that identify it whatever its name.
#[derive(Clone, Copy)]
struct FileId {
    device: u64,
    inode: u64,
}

// The numbers that identify a regular file: its device and inode. None: the file is a device, a
// pipe or of another kind.
fn id_of(metadata: &Metadata) -> Option<FileId>
    ensures { IsSome result ↔ IsFile (file_type metadata.now) }
{
    if !metadata.is_file() {
        return None;
    }
    Some(FileId {
        device: metadata.dev(),
        inode: metadata.ino(),
    })
}

// Whether both are the same file.
fn is_one_file(file: FileId, out: FileId) -> bool
    ensures { IsTrue result ↔ IsOneFile file out }
{
    file.device == out.device && file.inode == out.inode
}

// Whether both are the same regular file.
fn are_one(file: Option<FileId>, out: Option<FileId>) -> bool
    ensures { IsTrue result ↔ AreOne file out }
{
    match (file, out) {
        (Some(file), Some(out)) => is_one_file(file, out),
        _ => false,
    }
}

// Empties a file that was opened to write. Anything but a regular file, such as a device, stays as
// it is.
fn emptied<F: OpenFile + Drop>(out: F, metadata: &Metadata) -> Result<F, Fault>
    ensures { IfErr result (IsLacking WriteFailed) }
{
    if !metadata.is_file() {
        return Ok(out);
    }
    lacking(out.set_len(0), Fault::WriteFailed)?;
    Ok(out)
}

// Creates or empties the file for the normal form of `file`. None if it is the same file, even by another
// name or a link; then nothing is emptied. If it can't be created, that is a failed write.
fn make_beside<R: Files>(rt: &R, name: &str, file: &R::File) -> Result<Option<R::File>, Fault>
    ensures { IfErr result (IsLacking WriteFailed) }
{
    let out = make(rt, name)?;
    let metadata = metadata_of(&out)?;
    let of_file = metadata_of(file)?;
    if are_one(id_of(&of_file), id_of(&metadata)) {
        return Ok(None);
    }
    let out = emptied(out, &metadata)?;
    Ok(Some(out))
}

// Closes a file that was written, once the system has stored it: a system may report only then that a write failed.
// Anything but a regular file, such as a device, has nothing that can be stored.
fn close<F: OpenFile + Drop>(out: F) -> Result<(), Fault>
    ensures { IfErr result (IsLacking WriteFailed) }
{
    let metadata = metadata_of(&out)?;
    if !metadata.is_file() {
        return Ok(());
    }
    lacking(out.sync_data(), Fault::WriteFailed)
}

/// The files of the system. No contract specifies their content.
#[derive(Drop)]
pub struct System<'a, R> {
    rt: &'a R,
}

impl<'a, R> System<'a, R> {
    /// The files that this runtime opens.
    pub fn new(rt: &'a R) -> System<'a, R> {
        System { rt }
    }
}

impl<'a, R: Files> Opens for System<'a, R> {
    // An open file to read.
    type Reader = R::File;

    // An open file to write.
    type Writer = R::File;

    ghost use Rattle.std.specs.Prelude.{⊤};

    ghost opens = { λ _ _ _ _. ⊤ };

    ghost makes = { λ _ _ _ _ _. ⊤ };

    ghost closes = { λ _ _ _ _. ⊤ };

    // Opens the named file to read.
    fn open(&mut self, name: &str) -> Result<R::File, Fault> {
        open(self.rt, name)
    }

    // Creates or empties the named file, to write the normal form of `file`. None: it is the same
    // file.
    fn make_beside(&mut self, name: &str, file: &R::File) -> Result<Option<R::File>, Fault> {
        make_beside(self.rt, name, file)
    }

    // Stores what was written, and closes the file.
    fn close(&mut self, out: R::File) -> Result<(), Fault> {
        close(out)
    }
}
