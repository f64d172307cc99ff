//! The laws of pictures: what follows from the definitions. Each is the contract of a function that does nothing.
ghost use Rattle.px_pictures.specs.Laws.{OneMetadata, FaultsDecide, OneFault, IsMetadataOrFault};

/// If the Exif blocks of a picture have a list of meanings, and its IPTC blocks a list of records (`HasMetadata`: the
/// picture has a head, the pieces to join have at most 16 times `LIMIT` bytes, and each block has its meaning), and
/// they also have other lists, then these are equal. So whether two pictures are the same doesn't depend on how they
/// are read.
pub fn one_metadata()
    ensures { OneMetadata }
{
    px_jpeg::laws::one_head();
    px_meaning::laws::one_meaning();
}

/// If two pictures have a first fault (`IsPictureFault`) that isn't `OutOfMemory`, then it isn't so that both have
/// metadata: a head, and Exif and IPTC blocks that all have meanings (`HasMetadata`).
pub fn faults_decide()
    ensures { FaultsDecide }
{
    px_jpeg::laws::one_head();
    px_jpeg::laws::faults_decide();
}

/// If two pictures have two first faults (`IsPictureFault`), neither of them `OutOfMemory`, these are equal: the same
/// picture, cause, block and offset. So which one is reported doesn't depend on how they are read. The order: both
/// heads are judged, then the blocks of the first picture, then those of the second; of each, Exif before IPTC.
pub fn one_fault()
    ensures { OneFault }
{
    px_jpeg::laws::one_head();
    px_jpeg::laws::faults_decide();
}

/// Both pictures have a head and blocks that all have meanings (`HasMetadata`), or the two have a first fault that
/// isn't `OutOfMemory` (`IsPictureFault`): first both heads are judged, then the blocks of the first picture, then
/// those of the second; of each, Exif before IPTC. By `faults_decide` they don't have both.
pub fn metadata_or_fault(first: &[u8], second: &[u8])
    ensures { IsMetadataOrFault first.now second.now }
{
    px_jpeg::laws::head_or_fault(first);
    px_jpeg::laws::head_or_fault(second);
    px_tree::fault_laws::faults_decide();
    px_tree::fault_laws::faults_bounded();
}
