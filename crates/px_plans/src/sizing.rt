// The chunks of a meaning, each with its size in bytes.
//
// `out` is the list so far. A chunk and its size take 16 bytes there. The list asks for twice its length
// whenever it is full, so it asks seldom and then for much. To bound the sum, each chunk pays 64 bytes
// (`chunks_request`) when it is appended. `asked_and_paid 16` is what was asked for, and what is paid and not
// yet asked for: no function here raises it by more than its chunks pay. `Err`: an allocation failed.
ghost use Rattle.std.specs.Prelude.{◌≡◌, [], ◌∷◌, ◌++◌, ◌+◌, ◌*◌, ◌<◌, ◌≤◌, ◌^◌, IfOk, OnOk, IfSome, length, filter_map};
ghost use Rattle.std.specs.Prelude.{option_map};
ghost use Rattle.std.specs.Option.{option_to_list};
ghost use Rattle.px_bytes.specs.Allocations.{CountsAllocFailure, AsksAtMost};
ghost use Rattle.px_bytes.specs.Parts.{limit};
ghost use Rattle.px_meaning.specs.Entry.{table_size};
ghost use Rattle.px_meaning.specs.Writable.{IsWritable, items};
ghost use Rattle.px_meaning.specs.calls.Seen.{thumb_of, meaning_of};
ghost use Rattle.px_layout.specs.calls.Items.{item_of, entry_of, CountsFit};
ghost use Rattle.px_layout.specs.Chunks.{placed_chunk, dir_chunks, chunks_of_dir, jpeg_chunks, strip_chunks, all_strip_chunks};
ghost use Rattle.px_layout.specs.Chunks.{thumb_chunks, chunks};
ghost use Rattle.px_plans.specs.Asking.{chunks_request};
ghost use Rattle.px_plans.specs.calls.AskedAndPaid.{asked_and_paid};

use px_bytes::{AllocFailed, Memory};
use px_layout::{Chunk, Entries, Entry, entries_in, table_len};
use px_tree::{Dir, Meaning, Strips, Thumb, needs_place};

// Appends a chunk. It asks for no more than 64 bytes and what earlier chunks have paid for.
fn push_chunk(
    memory: &mut Memory,
    out: &mut Vec<(Chunk, u64)>,
    chunk: (Chunk, u64),
) -> Result<(), AllocFailed>
    ensures chunks { OnOk result (out.new.items ≡ out.old.items ++ chunk ∷ []) }
    ensures memory { CountsAllocFailure result memory.old memory.new }
    ensures asked { memory.new.asked ≤ asked_and_paid 16 memory.old out.old + 64 }
    ensures paid { OnOk result (asked_and_paid 16 memory.new out.new ≤ asked_and_paid 16 memory.old out.old + 64) }
{
    memory.push(out, chunk)
}

// Appends the chunk of an entry's value, if it is longer than four bytes and so not in the entry.
#[tactic(auto, unfolding(px_layout::specs::Chunks::placed_chunk))]
fn push_value(
    memory: &mut Memory,
    out: &mut Vec<(Chunk, u64)>,
    dir: Dir,
    entry: &Entry,
) -> Result<(), AllocFailed>
    requires { CountsFit (item_of entry.now.item) }
    ensures chunks { OnOk result (out.new.items ≡ out.old.items ++ option_to_list (placed_chunk dir (entry_of entry.now))) }
    ensures memory { CountsAllocFailure result memory.old memory.new }
    ensures asked { memory.new.asked ≤ asked_and_paid 16 memory.old out.old
        + chunks_request (length (option_to_list (placed_chunk dir (entry_of entry.now)))) }
    ensures paid { OnOk result (asked_and_paid 16 memory.new out.new ≤ asked_and_paid 16 memory.old out.old
        + chunks_request (length (option_to_list (placed_chunk dir (entry_of entry.now))))) }
{
    let Entry { tag, item } = *entry;
    let size = item.size();
    if !needs_place(size) {
        return Ok(());
    }
    push_chunk(memory, out, (Chunk::Placed(dir, tag), size))
}

// Appends the chunks of the values that are too long for their entries, by ascending tag.
fn push_values(
    memory: &mut Memory,
    out: &mut Vec<(Chunk, u64)>,
    dir: Dir,
    entries: &Entries,
) -> Result<(), AllocFailed>
    ensures chunks { OnOk result (out.new.items ≡ out.old.items ++ filter_map (placed_chunk dir) entries.now) }
    ensures memory { CountsAllocFailure result memory.old memory.new }
    ensures asked { memory.new.asked ≤ asked_and_paid 16 memory.old out.old
        + chunks_request (length (filter_map (placed_chunk dir) entries.now)) }
    ensures paid { OnOk result (asked_and_paid 16 memory.new out.new ≤ asked_and_paid 16 memory.old out.old
        + chunks_request (length (filter_map (placed_chunk dir) entries.now))) }
{
    for i in 0..entries.len() {
        let entry = entries.at(i);
        push_value(memory, out, dir, &entry)?;
    }
    Ok(())
}

// Appends a directory's table, and the values that are longer than four bytes.
fn push_entries(
    memory: &mut Memory,
    out: &mut Vec<(Chunk, u64)>,
    dir: Dir,
    entries: &Entries,
) -> Result<(), AllocFailed>
    requires { length entries.now < 2 ^ 16 }
    ensures chunks { OnOk result (out.new.items ≡ out.old.items ++ dir_chunks dir entries.now) }
    ensures memory { CountsAllocFailure result memory.old memory.new }
    ensures asked { memory.new.asked ≤ asked_and_paid 16 memory.old out.old
        + chunks_request (length (dir_chunks dir entries.now)) }
    ensures paid { OnOk result (asked_and_paid 16 memory.new out.new ≤ asked_and_paid 16 memory.old out.old
        + chunks_request (length (dir_chunks dir entries.now))) }
{
    push_chunk(memory, out, (Chunk::Table(dir), table_len(entries.len())))?;
    push_values(memory, out, dir, entries)
}

// Appends the chunks of a directory: nothing if the meaning lacks it.
fn push_dir(
    memory: &mut Memory,
    out: &mut Vec<(Chunk, u64)>,
    m: &Meaning,
    dir: Dir,
) -> Result<(), AllocFailed>
    requires { IsWritable (meaning_of m.now) }
    ensures chunks { OnOk result (out.new.items ≡ out.old.items ++ chunks_of_dir dir (items (meaning_of m.now) dir)) }
    ensures memory { CountsAllocFailure result memory.old memory.new }
    ensures asked { memory.new.asked ≤ asked_and_paid 16 memory.old out.old
        + chunks_request (length (chunks_of_dir dir (items (meaning_of m.now) dir))) }
    ensures paid { OnOk result (asked_and_paid 16 memory.new out.new ≤ asked_and_paid 16 memory.old out.old
        + chunks_request (length (chunks_of_dir dir (items (meaning_of m.now) dir)))) }
{
    match entries_in(m, dir) {
        Some(entries) => push_entries(memory, out, dir, &entries),
        None => Ok(()),
    }
}

// Appends the chunk of the JPEG, if the thumbnail has one.
fn push_jpeg(
    memory: &mut Memory,
    out: &mut Vec<(Chunk, u64)>,
    jpeg: Option<&[u8]>,
) -> Result<(), AllocFailed>
    ensures chunks { OnOk result (out.new.items ≡ out.old.items ++ jpeg_chunks (option_map (λ x. x.now) jpeg.entry)) }
    ensures memory { CountsAllocFailure result memory.old memory.new }
    ensures asked { memory.new.asked ≤ asked_and_paid 16 memory.old out.old
        + chunks_request (length (jpeg_chunks (option_map (λ x. x.now) jpeg.entry))) }
    ensures paid { OnOk result (asked_and_paid 16 memory.new out.new ≤ asked_and_paid 16 memory.old out.old
        + chunks_request (length (jpeg_chunks (option_map (λ x. x.now) jpeg.entry)))) }
{
    let Some(jpeg) = jpeg else {
        return Ok(());
    };
    push_chunk(memory, out, (Chunk::Jpeg, jpeg.len() as u64))
}

// Appends a chunk for each strip, numbered from 0.
#[tactic(auto, using(px_layout::specs::lemmas::WalkLaws::strips_done))]
fn push_strips(
    memory: &mut Memory,
    out: &mut Vec<(Chunk, u64)>,
    strips: &Strips,
) -> Result<(), AllocFailed>
    requires { length strips.now ≤ limit }
    ensures chunks { OnOk result (out.new.items ≡ out.old.items ++ strip_chunks 0 strips.now) }
    ensures memory { CountsAllocFailure result memory.old memory.new }
    ensures asked { memory.new.asked ≤ asked_and_paid 16 memory.old out.old
        + chunks_request (length (strip_chunks 0 strips.now)) }
    ensures paid { OnOk result (asked_and_paid 16 memory.new out.new ≤ asked_and_paid 16 memory.old out.old
        + chunks_request (length (strip_chunks 0 strips.now))) }
{
    for i in 0..strips.len() {
        push_chunk(
            memory,
            out,
            (Chunk::Strip(i as u32), strips.at(i).len() as u64),
        )?;
    }
    Ok(())
}

// Appends a chunk for each strip, or nothing if the thumbnail has no strips.
fn push_optional_strips(
    memory: &mut Memory,
    out: &mut Vec<(Chunk, u64)>,
    strips: &Option<Strips>,
) -> Result<(), AllocFailed>
    requires { IfSome strips.now (λ s. length s ≤ limit) }
    ensures chunks { OnOk result (out.new.items ≡ out.old.items ++ all_strip_chunks strips.now) }
    ensures memory { CountsAllocFailure result memory.old memory.new }
    ensures asked { memory.new.asked ≤ asked_and_paid 16 memory.old out.old
        + chunks_request (length (all_strip_chunks strips.now)) }
    ensures paid { OnOk result (asked_and_paid 16 memory.new out.new ≤ asked_and_paid 16 memory.old out.old
        + chunks_request (length (all_strip_chunks strips.now))) }
{
    match strips {
        Some(strips) => push_strips(memory, out, strips),
        None => Ok(()),
    }
}

// Appends the chunks of the thumbnail's bytes: the JPEG and then the strips. Those of its directory
// are not among them.
#[tactic(auto, unfolding(px_layout::specs::Chunks::thumb_chunks))]
fn push_thumb(
    memory: &mut Memory,
    out: &mut Vec<(Chunk, u64)>,
    thumb: &Option<Thumb>,
) -> Result<(), AllocFailed>
    requires { IfSome (option_map thumb_of thumb.now) (λ t. IfSome t.strips (λ s. length s ≤ limit)) }
    ensures chunks { OnOk result (out.new.items ≡ out.old.items ++ thumb_chunks (option_map thumb_of thumb.now)) }
    ensures memory { CountsAllocFailure result memory.old memory.new }
    ensures asked { memory.new.asked ≤ asked_and_paid 16 memory.old out.old
        + chunks_request (length (thumb_chunks (option_map thumb_of thumb.now))) }
    ensures paid { OnOk result (asked_and_paid 16 memory.new out.new ≤ asked_and_paid 16 memory.old out.old
        + chunks_request (length (thumb_chunks (option_map thumb_of thumb.now)))) }
{
    let Some(thumb) = thumb else {
        return Ok(());
    };
    push_jpeg(memory, out, thumb.jpeg)?;
    push_optional_strips(memory, out, &thumb.strips)
}

// Appends all chunks, in the order of the normal form.
fn push_all(
    memory: &mut Memory,
    out: &mut Vec<(Chunk, u64)>,
    m: &Meaning,
) -> Result<(), AllocFailed>
    requires { IsWritable (meaning_of m.now) }
    ensures chunks { OnOk result (out.new.items ≡ out.old.items ++ chunks (meaning_of m.now)) }
    ensures memory { CountsAllocFailure result memory.old memory.new }
    ensures asked { memory.new.asked ≤ asked_and_paid 16 memory.old out.old
        + chunks_request (length (chunks (meaning_of m.now))) }
    ensures paid { OnOk result (asked_and_paid 16 memory.new out.new ≤ asked_and_paid 16 memory.old out.old
        + chunks_request (length (chunks (meaning_of m.now)))) }
{
    push_dir(memory, out, m, Dir::Main)?;
    push_dir(memory, out, m, Dir::Exif)?;
    push_dir(memory, out, m, Dir::Interop)?;
    push_dir(memory, out, m, Dir::Gps)?;
    push_dir(memory, out, m, Dir::Thumb)?;
    push_thumb(memory, out, &m.thumb)
}

/// The chunks of a meaning in the order of the normal form, each with its size in bytes. Allocates the list.
pub(crate) fn chunk_sizes(
    memory: &mut Memory,
    m: &Meaning,
) -> Result<Vec<(Chunk, u64)>, AllocFailed>
    requires { IsWritable (meaning_of m.now) }
    ensures chunks { IfOk result (λ v. v.items ≡ chunks (meaning_of m.now)) }
    ensures memory { CountsAllocFailure result memory.old memory.new }
    ensures asked { AsksAtMost (chunks_request (length (chunks (meaning_of m.now)))) memory.old memory.new }
{
    let mut out = memory.list();
    push_all(memory, &mut out, m)?;
    Ok(out)
}
