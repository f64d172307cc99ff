// The record in the main directory, at tag 0x83BB (IPTC-NAA).
//
// None of a function here: there is no record. `OutOfMemory`: an allocation failed. `Content` never
// comes: bytes that are no record are a field, and no fault.
ghost use Rattle.std.specs.Prelude.{◌≡◌, ◌≤◌, length, IfOk, IfErr, option_and_then};
ghost use Rattle.std.specs.List.{AllByRecursion};
ghost use Rattle.px_bytes.specs.Checks.{CountsAllocFailureInBlock};
ghost use Rattle.px_bytes.specs.declared.Refusal.TheVariants.{OutOfMemory};
ghost use Rattle.px_bytes.specs.Parts.{limit};
ghost use Rattle.px_field.specs.Forms.{form_of};
ghost use Rattle.px_meaning.specs.Iim.{iim_of};
ghost use Rattle.px_meaning.specs.Entry.{raw, record_in, IsEntry};
ghost use Rattle.px_meaning.specs.Directory.{entries_at};
ghost use Rattle.px_meaning.specs.Says.{record_at};
ghost use Rattle.px_meaning.specs.Roles.{record_tag};
ghost use Rattle.px_tree.specs.calls.Parts.{HasValue, Finds, entry_here};
ghost use Rattle.px_bytes.specs.Allocations.{AsksAtMost};
ghost use Rattle.px_iim.specs.Asking.{iim_request};

use crate::entry_values::raw_of;
use crate::links::Found;
use crate::tree::MainDirectory;
use px_bytes::{Memory, Order, Refusal};
use px_field::Form;
use px_iim::{Iim, read_iim_in};
use px_meaning::Dir;

// The record that some bytes are.
fn iim_in<'a>(memory: &mut Memory, raw: &'a [u8]) -> Result<Option<Iim<'a>>, Refusal>
    ensures ok { IfOk result (λ r. r ≡ iim_of raw.now) }
    ensures err { IfErr result (λ e. e ≡ OutOfMemory) }
    ensures memory { CountsAllocFailureInBlock result memory.old memory.new }
    ensures asked { AsksAtMost (iim_request (length raw.now)) memory.old memory.new }
{
    match read_iim_in(memory, raw) {
        Ok(iim) => Ok(Some(iim)),
        Err(Refusal::OutOfMemory) => Err(Refusal::OutOfMemory),
        Err(Refusal::Content { .. }) => Ok(None),
    }
}

// The record that the bytes of a value of type `form` are, if that type is BYTE or UNDEFINED.
fn record_of<'a>(memory: &mut Memory, form: Form, raw: &'a [u8]) -> Result<Option<Iim<'a>>, Refusal>
    ensures ok { IfOk result (λ r. r ≡ record_in form raw.now) }
    ensures err { IfErr result (λ e. e ≡ OutOfMemory) }
    ensures memory { CountsAllocFailureInBlock result memory.old memory.new }
    ensures asked { AsksAtMost (iim_request (length raw.now)) memory.old memory.new }
{
    match form {
        Form::Byte | Form::Undefined => iim_in(memory, raw),
        _ => Ok(None),
    }
}

// The record in the value of an entry.
fn record_found<'a>(
    memory: &mut Memory,
    block: &'a [u8],
    order: Order,
    found: Found,
) -> Result<Option<Iim<'a>>, Refusal>
    requires { HasValue block.now order found }
    ensures ok { let e = entry_here block.now order found in
        IfOk result (λ r. r ≡ option_and_then
        (λ f. record_in f (raw block.now order e)) (form_of e.code)) }
    ensures err { IfErr result (λ e. e ≡ OutOfMemory) }
    ensures memory { CountsAllocFailureInBlock result memory.old memory.new }
    ensures asked { AsksAtMost (iim_request (length block.now)) memory.old memory.new }
{
    match Form::of(found.head.code) {
        Some(form) => {
            let raw = raw_of(block, order, found.place, found.head, form);
            record_of(memory, form, raw)
        }
        None => Ok(None),
    }
}

// The record in the main directory: the DataSets at tag `0x83BB`, if the type is BYTE or UNDEFINED and the bytes are
// a record; otherwise `None`. `OutOfMemory`: an allocation failed. `Content` never comes.
pub fn read_record<'a>(
    memory: &mut Memory,
    block: &'a [u8],
    order: Order,
    main: &MainDirectory<'a>,
) -> Result<Option<Iim<'a>>, Refusal>
    requires bounded { length block.now ≤ limit }
    requires found { Finds block.now order main.now.at record_tag main.now.iptc }
    requires each { AllByRecursion (IsEntry block.now order Dir.Main)
        (entries_at block.now order main.now.at) }
    ensures ok { IfOk result (λ r. r ≡ record_at block.now order main.now.at) }
    ensures err { IfErr result (λ e. e ≡ OutOfMemory) }
    ensures memory { CountsAllocFailureInBlock result memory.old memory.new }
    ensures asked { AsksAtMost (iim_request (length block.now)) memory.old memory.new }
{
    match main.iptc {
        Some(found) => record_found(memory, block, order, found),
        None => Ok(None),
    }
}
