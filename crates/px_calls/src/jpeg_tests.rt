// px_jpeg: what the C library doesn't call: the parts of a head, its pieces, and where a piece of extended XMP belongs.
use crate::built::{CAPTION, EXIF};
use crate::pictures::{APP1, APP13, RESOURCE, picture};
use px_jpeg::{Extended, Part, Piece, SegmentKind, read_extended, read_head};
use std::test::Fail;

// A packet of XMP, of four bytes. XMP part 3, 1.1.3.
const XMP: &[u8] = b"\xff\xe1\x00\x23http://ns.adobe.com/xap/1.0/\x00<x/>";

// Of extended XMP: the identifier, the length of the text, which is 65536, the offset of the piece, which is 65500,
// and the piece. XMP part 3, 1.1.3.1.
const EXTENDED: &[u8] = b"0123456789ABCDEF0123456789ABCDEF\x00\x01\x00\x00\x00\x00\xff\xdc<x/>";

// A piece, with its kind, whether it begins a block, its offset and its size.
fn piece(kind: SegmentKind, begins: bool, start: usize, size: usize) -> Piece {
    Piece {
        kind,
        begins,
        start,
        size,
    }
}

// The second segment of Photoshop's resources continues the block of the first, and so begins none.
#[test]
fn the_pieces_of_a_head_are_returned(rt: HostRuntime) -> Result<(), Fail> {
    let segments = [
        APP1, EXIF, APP13, RESOURCE, CAPTION, APP13, RESOURCE, CAPTION, XMP,
    ];
    let file = picture(rt.alloc(), &segments)?;
    let head = read_head(&file)?;
    let first = piece(SegmentKind::Exif, true, 12, 26);
    let expected = [
        first,
        piece(SegmentKind::Photoshop, true, 56, 20),
        piece(SegmentKind::Photoshop, false, 94, 20),
        piece(SegmentKind::Xmp, true, 147, 4),
    ];
    let mut pieces = head.front().pieces();
    for piece in &expected {
        assert_eq!(rt; pieces.next(), Some(*piece));
    }
    assert_eq!(rt; pieces.next(), None);
    Ok(())
}

// The bytes of a head are those up to the end of its last part; here the parts are Exif and EOI.
#[test]
fn a_head_has_its_bytes_and_its_parts(rt: HostRuntime) -> Result<(), Fail> {
    let file = picture(rt.alloc(), &[APP1, EXIF])?;
    let head = read_head(&file)?;
    assert_eq!(rt; head.bytes().len(), 40);
    let mut parts = head.parts();
    let exif = Part {
        code: 0xe1,
        start: 6,
        size: 32,
    };
    assert_eq!(rt; parts.next(), Some(exif));
    let end = Part {
        code: 0xd9,
        start: 40,
        size: 0,
    };
    assert_eq!(rt; parts.next(), Some(end));
    assert_eq!(rt; parts.next(), None);
    Ok(())
}

// After an identifier of 32 bytes come two numbers of four; 39 bytes are too few for them.
#[test]
fn extended_xmp_has_a_length_and_an_offset(rt: HostRuntime) {
    let belongs = Extended {
        total: 65_536,
        offset: 65_500,
    };
    assert_eq!(rt; read_extended(EXTENDED), Some(belongs));
    assert_eq!(rt;
        read_extended(b"0123456789ABCDEF0123456789ABCDEF\x00\x01\x00\x00\x00\x00\xff"),
        None
    );
}
