// px_field: an element, an append and the space that it allocates, and bytes that are returned as they were
// read.
use px_bytes::Order;
use px_field::{Element, Form, append_value, read_value, read_whole, same_value};

#[test]
fn an_element_is_read_in_its_order(rt: HostRuntime) {
    let value = read_value(Form::Rational, Order::Least, &[0x48, 0, 0, 0, 1, 0, 0, 0]);
    assert_eq!(rt; value.count(), 1);
    assert!(rt; value.element(0) == Element::Rational(72, 1));
}

#[test]
fn short_and_long_are_one_kind_where_widened(rt: HostRuntime) {
    let short = read_whole(Form::Short, Order::Most, &[0x0F, 0xA0]);
    let long = read_whole(Form::Long, Order::Most, &[0, 0, 0x0F, 0xA0]);
    assert!(rt; same_value(&short, &long));
}

#[test]
fn a_short_value_is_appended_and_takes_little_memory(rt: HostRuntime) {
    let mut out = Vec::new(rt.alloc());
    let value = read_value(Form::Short, Order::Least, &[1, 0]);
    assert!(rt; append_value(Order::Most, &value, &mut out).is_ok());
    assert!(rt; out.as_slice() == [0, 1].as_slice());
    assert!(rt; out.capacity() <= 64);
}

#[test]
fn bytes_are_handed_on_in_their_own_order(rt: HostRuntime) {
    let long = read_value(Form::Long, Order::Least, &[1, 0, 0, 0]);
    assert!(rt; long.in_order(Order::Least).is_some());
    assert!(rt; long.in_order(Order::Most).is_none());
}

#[test]
fn a_widened_value_is_not_handed_on(rt: HostRuntime) {
    let short = read_whole(Form::Short, Order::Least, &[1, 0]);
    assert!(rt; short.in_order(Order::Least).is_none());
}
