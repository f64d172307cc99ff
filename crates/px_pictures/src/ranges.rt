// Ranges of bytes.
ghost use Rattle.std.specs.Prelude.{◌≡◌};
ghost use Rattle.px_jpeg.specs.Pieces.{range};

// The bytes of a range, without those that pass the end.
pub(crate) fn range(bytes: &[u8], start: usize, size: usize) -> &[u8]
    ensures { result.now ≡ range bytes.now start size }
{
    let rest = bytes.split_at(start.min(bytes.len())).1;
    rest.split_at(size.min(rest.len())).0
}
