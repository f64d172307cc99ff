// Pictures built by hand. A segment is a marker, the length of the rest, and the data: ITU-T T.81, B.1.1.4.
use std::alloc::{AllocError, Global};

// The start of a segment with 26 bytes of Exif. CIPA DC-008, 4.7.2.
pub(crate) const APP1: &[u8] = b"\xff\xe1\x00\x22Exif\x00\x00";

// The start of a segment with 20 bytes of Photoshop's resources.
pub(crate) const APP13: &[u8] = b"\xff\xed\x00\x24Photoshop 3.0\x00";

// The start of resource 0x0404 with eight bytes. It has no name.
pub(crate) const RESOURCE: &[u8] = b"8BIM\x04\x04\x00\x00\x00\x00\x00\x08";

// The picture with these bytes between its start mark and its end mark.
pub(crate) fn picture(alloc: Global, segments: &[&[u8]]) -> Result<Vec<u8>, AllocError> {
    let mut octets = Vec::new(alloc);
    octets.extend_from_slice(b"\xff\xd8")?;
    for bytes in segments {
        octets.extend_from_slice(bytes)?;
    }
    octets.extend_from_slice(b"\xff\xd9")?;
    Ok(octets)
}
