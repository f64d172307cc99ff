// px_engine: two files in memory at once, captions as a list, and flushes: each run that writes flushes once
// after the last byte and reports a failed flush. No run of the program shows that.
use crate::built::{CAPTION, EXIF};
use crate::devices::KeepsBack;
use px_bytes::Watched;
use px_engine::{Fault, Label, captions, captions_of, normalise, normalise_both, read_any, show};
use std::process::Abort;
use std::test::Fail;

// `CAPTION` with a length of four bytes.
const EXTENDED: &[u8] = b"\x1c\x02\x78\x80\x04\x00\x00\x00\x03abc";

// An empty by-line title, and a caption; the charset is declared.
const LABELLED: &[u8] =
    b"\x1C\x02\x55\x00\x00\x1C\x02\x78\x00\x02V\\\x1C\x01\x5A\x00\x03\x1B\x25\x47";

#[test]
fn two_files_are_normalised(rt: HostRuntime) -> Result<(), Fail> {
    let forms = normalise_both(rt.alloc(), EXTENDED, LABELLED)?;
    assert_eq!(rt; forms.first.as_slice(), CAPTION);
    assert_eq!(rt; forms.second.len(), 20);
    Ok(())
}

#[test]
fn captions_are_listed_by_their_labels(rt: HostRuntime) -> Result<(), Fail> {
    let meaning = read_any(rt.alloc(), LABELLED).ok().ok_or("refused")?;
    let captions = captions_of(rt.alloc(), &meaning)?;
    assert!(rt; captions.utf8());
    assert_eq!(rt; captions.len(), 2);
    let first = captions.at(0);
    assert!(rt; first.label == Label::Caption);
    assert_eq!(rt; first.text.len(), 2);
    Ok(())
}

// Checks that so many bytes were taken, one flush was called, and its failure was reported.
fn check_flushed(rt: &impl Abort, fault: Option<Fault>, writer: Watched<KeepsBack>, bytes: usize) {
    assert!(rt; matches!(fault, Some(Fault::WriteFailed)));
    let kept = writer.into_inner();
    assert_eq!(rt; kept.count, bytes);
    assert_eq!(rt; kept.flushes, 1);
}

#[test]
fn a_flush_follows_the_form_of_an_exif_block(rt: HostRuntime) {
    let mut writer = Watched::new(KeepsBack::new());
    let fault = normalise(rt.alloc(), &mut Watched::new(EXIF), &mut writer).err();
    check_flushed(&rt, fault, writer, 26);
}

#[test]
fn a_flush_follows_the_form_of_a_record(rt: HostRuntime) {
    let mut writer = Watched::new(KeepsBack::new());
    let fault = normalise(rt.alloc(), &mut Watched::new(CAPTION), &mut writer).err();
    check_flushed(&rt, fault, writer, 8);
}

#[test]
fn a_flush_follows_a_listing(rt: HostRuntime) {
    let mut writer = Watched::new(KeepsBack::new());
    let fault = show(rt.alloc(), &mut Watched::new(CAPTION), &mut writer).err();
    check_flushed(&rt, fault, writer, 20);
}

#[test]
fn a_flush_follows_captions(rt: HostRuntime) {
    let mut writer = Watched::new(KeepsBack::new());
    let fault = captions(rt.alloc(), &mut Watched::new(CAPTION), &mut writer).err();
    check_flushed(&rt, fault, writer, 39);
}
