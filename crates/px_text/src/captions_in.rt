// Which texts of a file are captions.
//
// `list` are the captions so far. A caption takes 24 bytes there, and the list doubles: so a function here asks
// for at most 96 bytes for each caption (`caption_bytes`), less what earlier captions have paid for
// (`asked_and_paid`). `Err` of a function here: an allocation failed.
ghost use Rattle.std.specs.Prelude.{◌≡◌, ◌≤◌, ◌+◌, ◌*◌, [], ◌∷◌, ◌++◌, length, map, filter_map, option_map, if◌then◌else◌};
ghost use Rattle.std.specs.Prelude.{Some, None, bytes_eq, is_ok, vec_len, vec_capacity, OnOk, IfOk};
ghost use Rattle.px_bytes.specs.Allocations.{CountsAllocFailure, AsksAtMost};
ghost use Rattle.px_bytes.specs.declared.Order.TheVariants.{Most};
ghost use Rattle.px_field.specs.Values.{encoded};
ghost use Rattle.px_iim.specs.calls.View.{item_view};
ghost use Rattle.px_meaning.specs.Roles.{at_tag};
ghost use Rattle.px_meaning.specs.calls.Seen.{meaning_of};
ghost use Rattle.px_text.specs.Captions.{labelled, iim_captions, utf8_designation, declares_utf8, is_text, text_captions, exif_captions};
ghost use Rattle.px_text.specs.Captions.{captions_of_exif, captions_of_iim, caption_bytes};
ghost use Rattle.px_text.specs.calls.CaptionView.{caption_view};
ghost use Rattle.px_text.specs.calls.AskedAndPaid.{asked_and_paid};

use crate::caption::{Caption, Captions};
use crate::labels::{GROUPS, Label, TEXTS, label_of};
use px_bytes::{AllocFailed, Memory};
use px_field::{Form, Kind, Value};
use px_iim::{Iim, Item};
use px_meaning::{Fields, Meaning};

// ESC % G.
const UTF8: [u8; 3] = [0x1B, 0x25, 0x47];

// Appends a caption.
fn push_caption<'a>(
    memory: &mut Memory,
    list: &mut Vec<Caption<'a>>,
    caption: Caption<'a>,
) -> Result<(), AllocFailed>
    ensures list { list.new.items ≡ (if is_ok result then list.old.items ++ caption.entry ∷ [] else list.old.items) }
    ensures memory { CountsAllocFailure result memory.old memory.new }
    ensures asked { memory.new.asked ≤ asked_and_paid memory.old (vec_len list.old) (vec_capacity list.old) + caption_bytes }
    ensures paid { OnOk result (asked_and_paid memory.new (vec_len list.new) (vec_capacity list.new)
        ≤ asked_and_paid memory.old (vec_len list.old) (vec_capacity list.old) + caption_bytes) }
{
    memory.push(list, caption)
}

// Appends a DataSet if it has a label.
fn push_item<'a>(
    memory: &mut Memory,
    item: Item<'a>,
    list: &mut Vec<Caption<'a>>,
) -> Result<(), AllocFailed>
    ensures list { OnOk result (map caption_view list.new.items ≡ map caption_view list.old.items ++ filter_map labelled
        (item_view item.entry ∷ [])) }
    ensures memory { CountsAllocFailure result memory.old memory.new }
    ensures asked { memory.new.asked ≤ asked_and_paid memory.old (vec_len list.old) (vec_capacity list.old)
        + caption_bytes * length (filter_map labelled (item_view item.entry ∷ [])) }
    ensures paid { OnOk result (asked_and_paid memory.new (vec_len list.new) (vec_capacity list.new)
        ≤ asked_and_paid memory.old (vec_len list.old) (vec_capacity list.old)
        + caption_bytes * length (filter_map labelled (item_view item.entry ∷ []))) }
{
    match label_of(item.number) {
        Some(label) => {
            push_caption(
                memory,
                list,
                Caption {
                    label,
                    text: item.octets,
                },
            )
        }
        None => Ok(()),
    }
}

// Appends the DataSets of a group that have a label.
fn push_group<'a>(
    memory: &mut Memory,
    items: &[Item<'a>],
    list: &mut Vec<Caption<'a>>,
) -> Result<(), AllocFailed>
    ensures list { OnOk result (map caption_view list.new.items ≡ map caption_view list.old.items ++ filter_map labelled
        (map item_view items.now)) }
    ensures memory { CountsAllocFailure result memory.old memory.new }
    ensures asked { memory.new.asked ≤ asked_and_paid memory.old (vec_len list.old) (vec_capacity list.old)
        + caption_bytes * length (filter_map labelled (map item_view items.now)) }
    ensures paid { OnOk result (asked_and_paid memory.new (vec_len list.new) (vec_capacity list.new)
        ≤ asked_and_paid memory.old (vec_len list.old) (vec_capacity list.old)
        + caption_bytes * length (filter_map labelled (map item_view items.now))) }
{
    for item in items {
        push_item(memory, *item, list)?;
    }
    Ok(())
}

// Appends the captions of a record.
#[tactic(auto, unfolding(crate::specs::Captions::iim_captions))]
fn push_record<'a>(
    memory: &mut Memory,
    iim: &Iim<'a>,
    list: &mut Vec<Caption<'a>>,
) -> Result<(), AllocFailed>
    ensures list { OnOk result (map caption_view list.new.items ≡ map caption_view list.old.items ++ iim_captions iim.now) }
    ensures memory { CountsAllocFailure result memory.old memory.new }
    ensures asked { memory.new.asked ≤ asked_and_paid memory.old (vec_len list.old) (vec_capacity list.old)
        + caption_bytes * length (iim_captions iim.now) }
    ensures paid { OnOk result (asked_and_paid memory.new (vec_len list.new) (vec_capacity list.new)
        ≤ asked_and_paid memory.old (vec_len list.old) (vec_capacity list.old) + caption_bytes * length (iim_captions iim.now)) }
{
    for i in 0..GROUPS.len() {
        push_group(memory, iim.group(2, GROUPS[i]), list)?;
    }
    Ok(())
}

// Whether the data of a DataSet 1:90, Coded Character Set, select UTF-8: they are ESC % G.
fn is_utf8(octets: &[u8]) -> bool
    ensures { result ≡ bytes_eq octets.now utf8_designation }
{
    octets == UTF8.as_slice()
}

// Whether a record declares UTF-8 by exactly one DataSet 1:90.
#[tactic(auto, unfolding(crate::specs::Captions::declares_utf8))]
pub(crate) fn declares_utf8(iim: &Iim) -> bool
    ensures { result ≡ declares_utf8 iim.now }
{
    match iim.group(1, 90) {
        [item] => is_utf8(item.octets),
        _ => false,
    }
}

// Whether a value is a text: its type is ASCII or UTF-8.
fn is_text(kind: Kind) -> bool
    ensures { result ≡ is_text kind }
{
    match kind {
        Kind::Of(Form::Ascii | Form::Utf8) => true,
        _ => false,
    }
}

// The bytes of a text. None: the value is of another type.
pub(crate) fn text_of<'a>(value: &Value<'a>) -> Option<&'a [u8]>
    ensures { option_map (λ x. x.now) result ≡ (if is_text value.now.kind then Some (encoded Most value.now) else None) }
{
    if !is_text(value.kind()) {
        return None;
    }
    value.bytes()
}

// Appends the field with this tag if it is a text.
fn push_text<'a>(
    memory: &mut Memory,
    fields: &Fields<'a>,
    tag: u16,
    label: Label,
    list: &mut Vec<Caption<'a>>,
) -> Result<(), AllocFailed>
    ensures list { OnOk result (map caption_view list.new.items ≡ map caption_view list.old.items ++ text_captions label
        (at_tag tag fields.now)) }
    ensures memory { CountsAllocFailure result memory.old memory.new }
    ensures asked { memory.new.asked ≤ asked_and_paid memory.old (vec_len list.old) (vec_capacity list.old)
        + caption_bytes * length (text_captions label (at_tag tag fields.now)) }
    ensures paid { OnOk result (asked_and_paid memory.new (vec_len list.new) (vec_capacity list.new)
        ≤ asked_and_paid memory.old (vec_len list.old) (vec_capacity list.old)
        + caption_bytes * length (text_captions label (at_tag tag fields.now))) }
{
    let Some(value) = fields.get(tag) else {
        return Ok(());
    };
    let Some(text) = text_of(value) else {
        return Ok(());
    };
    push_caption(memory, list, Caption { label, text })
}

// Appends the captions of a main directory.
#[tactic(auto, unfolding(crate::specs::Captions::exif_captions))]
fn push_texts<'a>(
    memory: &mut Memory,
    fields: &Fields<'a>,
    list: &mut Vec<Caption<'a>>,
) -> Result<(), AllocFailed>
    ensures list { OnOk result (map caption_view list.new.items ≡ map caption_view list.old.items ++ exif_captions fields.now) }
    ensures memory { CountsAllocFailure result memory.old memory.new }
    ensures asked { memory.new.asked ≤ asked_and_paid memory.old (vec_len list.old) (vec_capacity list.old)
        + caption_bytes * length (exif_captions fields.now) }
    ensures paid { OnOk result (asked_and_paid memory.new (vec_len list.new) (vec_capacity list.new)
        ≤ asked_and_paid memory.old (vec_len list.old) (vec_capacity list.old) + caption_bytes * length (exif_captions fields.now)) }
{
    for i in 0..TEXTS.len() {
        let (tag, label) = TEXTS[i];
        push_text(memory, fields, tag, label, list)?;
    }
    Ok(())
}

/// The captions of an Exif block: the fields ImageDescription, Artist and Copyright of its main directory, in this
/// order, if they are ASCII or UTF-8, and then those of a record in it; and whether that declares UTF-8. The bytes
/// are those that were read.
///
/// Allocates the list. `Err`: an allocation failed.
pub fn exif_captions_in<'a>(
    memory: &mut Memory,
    meaning: &Meaning<'a>,
) -> Result<Captions<'a>, AllocFailed>
    ensures memory { CountsAllocFailure result memory.old memory.new }
    ensures captions { IfOk result (λ c. c ≡ captions_of_exif (meaning_of meaning.now)) }
    ensures asked { AsksAtMost (caption_bytes * length (captions_of_exif (meaning_of meaning.now)).1) memory.old memory.new }
{
    let mut list = memory.list();
    push_texts(memory, &meaning.main, &mut list)?;
    match &meaning.iptc {
        Some(iim) => {
            push_record(memory, iim, &mut list)?;
            Ok(Captions {
                utf8: declares_utf8(iim),
                list,
            })
        }
        None => Ok(Captions { utf8: false, list }),
    }
}

/// The captions of a record: its labelled DataSets, which are of record 2, group by group, each in list order: 5,
/// 120, 105, 110, 115, 116, 80 with 85, 25 and 103; and whether it declares UTF-8. Allocates the list. `Err`: an
/// allocation failed.
pub fn iim_captions_in<'a>(memory: &mut Memory, iim: &Iim<'a>) -> Result<Captions<'a>, AllocFailed>
    ensures memory { CountsAllocFailure result memory.old memory.new }
    ensures captions { IfOk result (λ c. c ≡ captions_of_iim iim.now) }
    ensures asked { AsksAtMost (caption_bytes * length (iim_captions iim.now)) memory.old memory.new }
{
    let mut list = memory.list();
    push_record(memory, iim, &mut list)?;
    Ok(Captions {
        utf8: declares_utf8(iim),
        list,
    })
}
