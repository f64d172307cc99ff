// Why the XMP of a picture isn't read.
use px_bytes::AllocFailed;
use px_xmp::Refusal;

// Why the XMP of a picture has no normal form.
#[derive(Clone, Copy, Debug, PartialEq, Eq)]
pub(crate) enum Unjoined {
    // It is wrong or rare, or readers can take it in more than one way.
    NotRead,
    // An allocation failed.
    OutOfMemory,
}

impl From<AllocFailed> for Unjoined {
    ghost use Rattle.std.specs.Prelude.{◌≡◌};
    ghost use Rattle.px_xmp_pictures.specs.declared.unjoined.Unjoined.TheVariants.{OutOfMemory};

    ghost from_gives = { λ _ e. e ≡ OutOfMemory };

    // An allocation that failed says nothing of the XMP.
    fn from(_: AllocFailed) -> Unjoined {
        Unjoined::OutOfMemory
    }
}

impl From<Refusal> for Unjoined {
    ghost use Rattle.std.specs.Prelude.{◌≡◌};
    ghost use Rattle.px_xmp_pictures.specs.Counts.{unjoined};

    ghost from_gives = { λ refusal e. e ≡ unjoined refusal };

    // XMP whose packet is refused isn't read, whatever the cause is.
    fn from(refusal: Refusal) -> Unjoined {
        match refusal {
            Refusal::Content { .. } => Unjoined::NotRead,
            Refusal::OutOfMemory => Unjoined::OutOfMemory,
        }
    }
}
