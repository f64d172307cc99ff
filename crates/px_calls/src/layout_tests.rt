// px_layout and px_plans: plans, which the program never makes: their calls, the plan of the normal form,
// which plans are legal, and a block that a plan lays out in either byte order.
use crate::built::{one, with_field};
use px_bytes::Order;
use px_field::{Form, read_value};
use px_plans::{Chunk, Plan, is_legal, plan_normal, write_with};
use px_tree::{Dir, is_writable};
use std::alloc::{AllocError, Global};
use std::test::Fail;

// A text of five bytes at the odd offset 27. The bytes are one line for each of: the header and the number of
// entries, an entry, the next offset and what follows it.
const ONE_TEXT: &[u8] = b"\x4D\x4D\x00\x2A\x00\x00\x00\x08\x00\x01\
      \x01\x0E\x00\x02\x00\x00\x00\x05\x00\x00\x00\x1B\
      \x00\x00\x00\x00\xFF\x55\x72\x6E\x73\x00";

// The same in the other byte order.
const ONE_TEXT_LEAST: &[u8] = b"\x49\x49\x2A\x00\x08\x00\x00\x00\x01\x00\
      \x0E\x01\x02\x00\x05\x00\x00\x00\x1B\x00\x00\x00\
      \x00\x00\x00\x00\xFF\x55\x72\x6E\x73\x00";

// The table of the main directory at offset 8, and the text at offset `at`.
fn text_plan(alloc: Global, at: u32) -> Plan {
    let mut plan = Plan::new(alloc, 32);
    let _ = plan.place(Chunk::Table(Dir::Main), 8);
    let _ = plan.place(Chunk::Placed(Dir::Main, 0x010E), at);
    plan
}

#[test]
fn a_chunk_is_placed_once(rt: HostRuntime) {
    let mut plan = Plan::new(rt.alloc(), 32);
    assert_eq!(rt; plan.place(Chunk::Table(Dir::Main), 8).ok(), Some(true));
    assert_eq!(rt; plan.place(Chunk::Table(Dir::Main), 9).ok(), Some(false));
}

#[test]
fn a_value_is_placed_in_its_directory(rt: HostRuntime) {
    let plan = text_plan(rt.alloc(), 27);
    assert_eq!(rt; plan.offset(Chunk::Placed(Dir::Main, 0x010E)), Some(27));
    assert_eq!(rt; plan.offset(Chunk::Placed(Dir::Exif, 0x010E)), None);
}

#[test]
fn the_plan_of_one_field(rt: HostRuntime) -> Result<(), Fail> {
    let m = with_field(rt.alloc(), 0x0112, one())?;
    assert!(rt; is_writable(&m));
    assert!(rt; plan_normal(rt.alloc(), &m).is_ok_and(|plan| plan.len() == 26));
    Ok(())
}

// The block with the text at that offset in this byte order, with FF in every gap, if the plan is legal.
fn laid(alloc: Global, at: u32, order: Order) -> Result<Option<Vec<u8>>, AllocError> {
    let text = read_value(Form::Ascii, Order::Most, b"Urns\x00");
    let m = with_field(alloc, 0x010E, text)?;
    let plan = text_plan(alloc, at);
    if !is_writable(&m) || !is_legal(alloc, &m, &plan)? {
        return Ok(None);
    }
    Ok(Some(write_with(alloc, &m, &plan, order, 0xFF)?))
}

#[test]
fn a_text_may_be_at_an_odd_offset(rt: HostRuntime) -> Result<(), Fail> {
    let block = laid(rt.alloc(), 27, Order::Most)?;
    assert!(rt; block.is_some_and(|block| block.as_slice() == ONE_TEXT));
    Ok(())
}

#[test]
fn a_text_may_be_there_in_the_other_order(rt: HostRuntime) -> Result<(), Fail> {
    let block = laid(rt.alloc(), 27, Order::Least)?;
    assert!(rt; block.is_some_and(|block| block.as_slice() == ONE_TEXT_LEAST));
    Ok(())
}

#[test]
fn a_text_may_not_share_a_byte(rt: HostRuntime) -> Result<(), Fail> {
    assert!(rt; laid(rt.alloc(), 25, Order::Most)?.is_none());
    Ok(())
}
