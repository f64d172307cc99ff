// What a JPEG picture contains that the comparison doesn't read, as numbers.
ghost use Rattle.std.specs.Prelude.{◌≡◌};
ghost use Rattle.px_c.specs.Unread.{seen_unread};

use px_pictures::Unread;

/// A place in a picture at which something is that other programs read as metadata, or may, and that a comparison doesn't read.
#[repr(C)]
#[derive(Clone, Copy, Drop)]
pub struct ExifnormUnreadPart {
    /// 1 if there is such a place, otherwise 0.
    pub found: u32,
    /// 0 if it is one of the picture, 1 if it is one of the joined bytes of `exifnorm_jpeg_blocks`.
    pub joined: u32,
    /// Its offset; 0 if there is none.
    pub start: usize,
}

// The first place that isn't read, if there is one, as the structure of C has it.
pub(crate) fn seen_unread(found: Option<Unread>) -> ExifnormUnreadPart
    ensures { result ≡ seen_unread found }
{
    match found {
        None => ExifnormUnreadPart {
            found: 0,
            joined: 0,
            start: 0,
        },
        Some(place) => ExifnormUnreadPart {
            found: 1,
            joined: u32::from(place.joined),
            start: place.start,
        },
    }
}
