// px_tree: the calls that build `Fields` and `Strips`, and a meaning that can't be written. The laws of the
// definitions show which can: the meaning of a block fits, and the normal form of a meaning that fits has that
// meaning.
use crate::built::{one, with_field};
use px_tree::{Fields, Strips, is_writable};
use std::test::Fail;

#[test]
fn a_tag_is_put_once(rt: HostRuntime) {
    let mut fields = Fields::new(rt.alloc());
    assert_eq!(rt; fields.put(0x0112, one()).ok(), Some(true));
    assert_eq!(rt; fields.put(0x0112, one()).ok(), Some(false));
}

#[test]
fn fields_are_in_ascending_order(rt: HostRuntime) {
    let mut fields = Fields::new(rt.alloc());
    assert!(rt; fields.put(0x0112, one()).is_ok());
    assert!(rt; fields.put(0x0100, one()).is_ok());
    assert!(rt; fields.len() == 2 && fields.at(0).0 == 0x0100);
}

#[test]
fn strips_are_a_list(rt: HostRuntime) {
    let mut strips = Strips::new(rt.alloc());
    assert!(rt; strips.push(b"\x41\x42").is_ok());
    assert!(rt; strips.len() == 1 && strips.at(0).len() == 2);
}

#[test]
fn a_short_width_does_not_fit(rt: HostRuntime) -> Result<(), Fail> {
    let m = with_field(rt.alloc(), 0x0100, one())?;
    assert!(rt; !is_writable(&m));
    Ok(())
}
