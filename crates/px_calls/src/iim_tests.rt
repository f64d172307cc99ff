// px_iim: a record that is built, one that is appended, and the data of one number of a group.
use crate::built::CAPTION;
use px_iim::{Iim, append_iim, normal_len, read_iim, same_iim};
use std::test::Fail;

// `CAPTION` with an extended length of four bytes, and a zero after it.
const CAPTION_EXTENDED: &[u8] = b"\x1c\x02\x78\x80\x04\x00\x00\x00\x03abc\x00";

// A by-line and its title, which share a group.
const BY_LINE: &[u8] = b"\x1c\x02\x50\x00\x01L\x1c\x02\x55\x00\x02St";

#[test]
fn a_record_is_read_and_pushed(rt: HostRuntime) -> Result<(), Fail> {
    let read = read_iim(rt.alloc(), CAPTION_EXTENDED)?;
    let mut pushed = Iim::new(rt.alloc());
    assert!(rt; pushed.push(2, 120, b"abc").is_ok());
    assert!(rt; same_iim(&pushed, &read));
    Ok(())
}

#[test]
fn a_record_is_appended(rt: HostRuntime) -> Result<(), Fail> {
    let read = read_iim(rt.alloc(), CAPTION_EXTENDED)?;
    assert_eq!(rt; normal_len(&read), Some(8));
    let mut out = Vec::new(rt.alloc());
    assert!(rt; append_iim(&read, &mut out).is_ok());
    assert!(rt; out.as_slice() == CAPTION);
    Ok(())
}

#[test]
fn one_number_of_a_group_is_found(rt: HostRuntime) -> Result<(), Fail> {
    let read = read_iim(rt.alloc(), BY_LINE)?;
    assert!(rt; matches!(read.all(2, 85).next(), Some(b"St")));
    Ok(())
}
