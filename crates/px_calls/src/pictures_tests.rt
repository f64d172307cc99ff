// px_pictures: the blocks of a picture, whether two pictures have the same, and the first fault of two.
use crate::built::{CAPTION, EXIF};
use crate::pictures::{APP1, APP13, RESOURCE, picture};
use px_bytes::{Cause, Memory};
use px_jpeg::{HeadCause, HeadFault};
use px_pictures::{
    MetadataFault, MetadataKind, PictureFault, PictureSide, metadata_of_in, same_metadata,
};
use std::alloc::{AllocError, Global};
use std::process::Abort;
use std::test::Fail;

// `EXIF` in the other byte order.
const EXIF_LEAST: &[u8] =
    b"II\x2a\x00\x08\x00\x00\x00\x01\x00\x12\x01\x03\x00\x01\x00\x00\x00\x01\x00\x00\x00\x00\x00\x00\x00";

// Orientation is 6.
const EXIF_TURNED: &[u8] =
    b"MM\x00\x2a\x00\x00\x00\x08\x00\x01\x01\x12\x00\x03\x00\x00\x00\x01\x00\x06\x00\x00\x00\x00\x00\x00";

// A text of five bytes at offset 26, the end of the block. The entry is at offset 10.
const EXIF_OUTSIDE: &[u8] =
    b"MM\x00\x2a\x00\x00\x00\x08\x00\x01\x01\x0e\x00\x02\x00\x00\x00\x05\x00\x00\x00\x1a\x00\x00\x00\x00";

// Another caption.
const CAPTION_OTHER: &[u8] = b"\x1c\x02\x78\x00\x03abd";

// An empty caption, and at offset 5 the start of another DataSet.
const CAPTION_CUT: &[u8] = b"\x1c\x02\x78\x00\x00\x1c\x02\x78";

// `EXIF` in two segments, of 8 and 18 bytes.
const EXIF_IN_TWO: &[u8] = b"\xff\xe1\x00\x10Exif\x00\x00\
      MM\x00\x2a\x00\x00\x00\x08\
      \xff\xe1\x00\x1aExif\x00\x00\
      \x00\x01\x01\x12\x00\x03\x00\x00\x00\x01\x00\x01\x00\x00\x00\x00\x00\x00";

// A resource 0x0404 without bytes, and one with `CAPTION`, which is in two segments, three bytes of it in the first.
const CAPTION_IN_TWO: &[u8] = b"\xff\xed\x00\x2bPhotoshop 3.0\x00\
      8BIM\x04\x04\x00\x00\x00\x00\x00\x00\
      8BIM\x04\x04\x00\x00\x00\x00\x00\x08\
      \x1c\x02\x78\
      \xff\xed\x00\x15Photoshop 3.0\x00\
      \x00\x03abc";

// Two segments of Exif with a header of TIFF each are two blocks; None follows the last.
#[test]
fn blocks_are_listed_in_order(rt: HostRuntime) -> Result<(), Fail> {
    let segments = [APP1, EXIF, APP13, RESOURCE, CAPTION, APP1, EXIF_LEAST];
    let file = picture(rt.alloc(), &segments)?;
    let found = metadata_of_in(&mut Memory::new(rt.alloc()), &file)?;
    let mut exif = found.exif();
    assert_eq!(rt; exif.next(), Some(EXIF));
    assert_eq!(rt; exif.next(), Some(EXIF_LEAST));
    assert_eq!(rt; exif.next(), None);
    let mut iptc = found.iptc();
    assert_eq!(rt; iptc.next(), Some(CAPTION));
    assert_eq!(rt; iptc.next(), None);
    Ok(())
}

// Exif and IPTC that are cut over two segments each are one block each.
#[test]
fn blocks_are_joined_from_their_pieces(rt: HostRuntime) -> Result<(), Fail> {
    let file = picture(rt.alloc(), &[EXIF_IN_TWO, CAPTION_IN_TWO])?;
    let found = metadata_of_in(&mut Memory::new(rt.alloc()), &file)?;
    let mut exif = found.exif();
    assert_eq!(rt; exif.next(), Some(EXIF));
    assert_eq!(rt; exif.next(), None);
    let mut iptc = found.iptc();
    assert_eq!(rt; iptc.next(), Some(CAPTION));
    assert_eq!(rt; iptc.next(), None);
    Ok(())
}

// Whether two pictures with these segments have the same blocks.
fn compared(
    alloc: Global,
    first: &[&[u8]],
    second: &[&[u8]],
) -> Result<Result<bool, PictureFault>, AllocError> {
    let first = picture(alloc, first)?;
    let second = picture(alloc, second)?;
    Ok(same_metadata(alloc, &first, &second))
}

// The same tags, once least significant byte first, and segments in another order mean the same.
#[test]
fn the_byte_order_makes_no_difference(rt: HostRuntime) -> Result<(), Fail> {
    let first = [APP1, EXIF, APP13, RESOURCE, CAPTION];
    let second = [APP13, RESOURCE, CAPTION, APP1, EXIF_LEAST];
    assert_eq!(rt; compared(rt.alloc(), &first, &second)?, Ok(true));
    Ok(())
}

// One value that differs is found, in Exif as in IPTC.
#[test]
fn another_value_makes_a_difference(rt: HostRuntime) -> Result<(), Fail> {
    let exif = compared(rt.alloc(), &[APP1, EXIF], &[APP1, EXIF_TURNED])?;
    assert_eq!(rt; exif, Ok(false));
    let first = [APP13, RESOURCE, CAPTION];
    let second = [APP13, RESOURCE, CAPTION_OTHER];
    assert_eq!(rt; compared(rt.alloc(), &first, &second)?, Ok(false));
    Ok(())
}

// Checks that a picture with these segments has this fault, on either side of one that has none.
fn check_fault(
    rt: &impl Abort,
    alloc: Global,
    segments: &[&[u8]],
    fault: MetadataFault,
) -> Result<(), Fail> {
    let first = Err(PictureFault {
        side: PictureSide::First,
        fault,
    });
    let second = Err(PictureFault {
        side: PictureSide::Second,
        fault,
    });
    assert_eq!(rt; compared(alloc, segments, &[APP1, EXIF])?, first);
    assert_eq!(rt; compared(alloc, &[APP1, EXIF], segments)?, second);
    Ok(())
}

// A segment whose length is less than 2 is no part of a head, in either picture.
#[test]
fn a_segment_has_a_length(rt: HostRuntime) -> Result<(), Fail> {
    let fault = MetadataFault::Head(HeadFault {
        cause: HeadCause::LengthForm,
        place: 38,
    });
    let segments = [APP1, EXIF, b"\xff\xe0\x00\x01"];
    check_fault(&rt, rt.alloc(), &segments, fault)
}

// The fault names the block by its number, which begins at 0, and an offset in the block.
#[test]
fn the_second_exif_block_is_refused(rt: HostRuntime) -> Result<(), Fail> {
    let fault = MetadataFault::Block {
        kind: MetadataKind::Exif,
        number: 1,
        cause: Cause::ValueOutside,
        place: 10,
    };
    let segments = [APP1, EXIF, APP1, EXIF_OUTSIDE];
    check_fault(&rt, rt.alloc(), &segments, fault)
}

// Blocks of IPTC are counted apart from those of Exif.
#[test]
fn the_second_iptc_block_is_refused(rt: HostRuntime) -> Result<(), Fail> {
    let fault = MetadataFault::Block {
        kind: MetadataKind::Iptc,
        number: 1,
        cause: Cause::DataSetCut,
        place: 5,
    };
    let segments = [APP13, RESOURCE, CAPTION, APP13, RESOURCE, CAPTION_CUT];
    check_fault(&rt, rt.alloc(), &segments, fault)
}
