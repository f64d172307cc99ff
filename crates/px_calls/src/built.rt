// Blocks and meanings built by hand, which several tests use.
use px_bytes::Order;
use px_field::{Form, Value, read_value};
use px_tree::{Fields, Meaning};
use std::alloc::{AllocError, Global};

// One field: Orientation, SHORT 1. TIFF 6.0, section 2.
pub(crate) const EXIF: &[u8] =
    b"MM\x00\x2a\x00\x00\x00\x08\x00\x01\x01\x12\x00\x03\x00\x00\x00\x01\x00\x01\x00\x00\x00\x00\x00\x00";

// One DataSet: the caption 'abc'. IPTC-NAA IIM 4.2.
pub(crate) const CAPTION: &[u8] = b"\x1c\x02\x78\x00\x03abc";

// The SHORT 1.
pub(crate) fn one() -> Value<'static> {
    read_value(Form::Short, Order::Most, b"\x00\x01")
}

// A meaning with one field in its main directory.
pub(crate) fn with_field<'a>(
    alloc: Global,
    tag: u16,
    value: Value<'a>,
) -> Result<Meaning<'a>, AllocError> {
    let mut main = Fields::new(alloc);
    let _ = main.put(tag, value)?;
    Ok(Meaning {
        main,
        iptc: None,
        exif: None,
        gps: None,
        thumb: None,
    })
}
