// px_bytes: ranges over an allocator, the texts of refusals, a failed flush, a write of no bytes, and a writer
// into memory.
use crate::devices::KeepsBack;
use px_bytes::{
    Cause, Device, Growing, Memory, Ranges, ReadFault, Refusal, Sink, Watched, WriteRefusal,
};
use std::test::Fail;

#[test]
fn a_range_is_claimed(rt: HostRuntime) {
    let mut claimed = Ranges::new(rt.alloc());
    assert_eq!(rt; claimed.add(0, 8).ok(), Some(true));
    assert_eq!(rt; claimed.add(7, 1).ok(), Some(false));
}

#[test]
fn refusals_print_what_they_are(rt: HostRuntime) -> Result<(), Fail> {
    let content = Cause::Loop.at(22);
    let text = format!(in rt.alloc();
        "{content}, {}, {}, {}, {}",
        Refusal::OutOfMemory,
        WriteRefusal::NormalTooLong,
        WriteRefusal::WriteFailed,
        ReadFault::ReadFailed
    )?;
    assert_eq!(rt;
        text.as_str(),
        "Loop at 22, out of memory, the normal form is too long, a write failed, a read failed"
    );
    Ok(())
}

#[test]
fn a_failed_flush_is_counted_and_not_tried_again(rt: HostRuntime) {
    let mut writer = Watched::new(KeepsBack::new());
    assert!(rt; writer.flush_all().is_err());
    assert_eq!(rt; writer.failures(), 1);
    assert_eq!(rt; writer.into_inner().flushes, 1);
}

#[test]
fn a_write_of_no_byte_passes(rt: HostRuntime) {
    let mut writer = Watched::new(KeepsBack::new());
    assert_eq!(rt; writer.write_some(&[]), Ok(0));
}

#[test]
fn a_writer_into_memory_keeps_its_bytes(rt: HostRuntime) -> Result<(), Fail> {
    let mut memory = Memory::new(rt.alloc());
    let mut writer = Growing::new(&memory);
    assert_eq!(rt; writer.write_some(b"II"), Ok(2));
    assert_eq!(rt; writer.finish_in(&mut memory)?.len(), 2);
    Ok(())
}
