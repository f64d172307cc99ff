// The offsets of chunks, by directory and by strip.
//
// A chunk is a part of the block that has an offset: a table, a value, the JPEG or a strip. A pair
// of key and offset takes 8 bytes, in a list that doubles: so adding one asks for at most 32 bytes,
// and the pairs before it have paid for a part of them (`paid_in`).
ghost use Rattle.std.specs.Prelude.{◌≡◌, ◌+◌, ◌<◌, ◌≤◌, ◌^◌, ℕ, OnOk, OnErr, None, Some, if◌then◌else◌, ◌==◌};
ghost use Rattle.px_bytes.specs.Allocations.{CountsAllocFailure};
ghost use Rattle.px_layout.specs.declared.chunks.Chunk.{Chunk as AnyChunk};
ghost use Rattle.px_layout.specs.declared.chunks.Chunk.TheVariants.{Table, Placed, Jpeg, Strip};
ghost use Rattle.px_layout.specs.Chunks.{same_chunk};
ghost use Rattle.px_plans.specs.calls.Kept.{key_in, dir_in, offset_in, dir_size, size_in, keyed_paid, paid_in};

use crate::keyed::KeyedOffsets;
use px_bytes::{AllocFailed, Memory};
use px_layout::Chunk;
use px_tree::Dir;
use std::alloc::Global;

// The offsets of a directory: of its table, and of its values by tag.
#[derive(Drop)]
pub(crate) struct DirOffsets {
    table: Option<u32>,
    values: KeyedOffsets,
}

impl DirOffsets {
    // No offset yet. It allocates nothing.
    fn new(memory: &Memory) -> DirOffsets
        ensures table { result.table ≡ None }
        ensures size { dir_size result ≡ 0 }
        ensures values { (t : ℕ) → key_in result.values t ≡ None }
        ensures paid { keyed_paid result.values ≡ 0 }
    {
        DirOffsets {
            table: None,
            values: KeyedOffsets::new(memory),
        }
    }

    // How many chunks of this directory have an offset: the table, and the values.
    fn size(&self) -> u128
        ensures value { result ≡ dir_size self.now }
        ensures bound { result ≤ 2 ^ 64 }
    {
        u128::from(self.table.is_some()) + self.values.size()
    }
}

// The offsets of all chunks.
#[derive(Drop)]
pub(crate) struct Offsets {
    main: DirOffsets,
    exif: DirOffsets,
    interop: DirOffsets,
    gps: DirOffsets,
    thumb: DirOffsets,
    jpeg: Option<u32>,
    strips: KeyedOffsets,
}

impl Offsets {
    // No offsets. It allocates nothing.
    pub(crate) fn new(memory: &Memory) -> Offsets
        ensures none { (c : AnyChunk) → offset_in result c ≡ None }
        ensures size { size_in result ≡ 0 }
        ensures paid { paid_in result ≡ 0 }
    {
        Offsets {
            main: DirOffsets::new(memory),
            exif: DirOffsets::new(memory),
            interop: DirOffsets::new(memory),
            gps: DirOffsets::new(memory),
            thumb: DirOffsets::new(memory),
            jpeg: None,
            strips: KeyedOffsets::new(memory),
        }
    }

    // The allocator of the vectors.
    pub(crate) fn allocator(&self) -> Global {
        self.strips.allocator()
    }

    // The number of chunks that have an offset.
    pub(crate) fn size(&self) -> u128
        ensures { result ≡ size_in self.now }
    {
        self.main.size()
            + self.exif.size()
            + self.interop.size()
            + self.gps.size()
            + self.thumb.size()
            + u128::from(self.jpeg.is_some())
            + self.strips.size()
    }

    // The offsets of one directory.
    fn dir(&self, dir: Dir) -> &DirOffsets
        ensures { result.now ≡ dir_in self.now dir }
    {
        match dir {
            Dir::Main => &self.main,
            Dir::Exif => &self.exif,
            Dir::Interop => &self.interop,
            Dir::Gps => &self.gps,
            Dir::Thumb => &self.thumb,
        }
    }

    // The offset of a chunk, or None.
    pub(crate) fn offset(&self, chunk: Chunk) -> Option<u32>
        ensures { result ≡ offset_in self.now chunk }
    {
        match chunk {
            Chunk::Table(dir) => self.dir(dir).table,
            Chunk::Placed(dir, tag) => self.dir(dir).values.offset(u32::from(tag)),
            Chunk::Jpeg => self.jpeg,
            Chunk::Strip(i) => self.strips.offset(i),
        }
    }

    // Adds the offset of the table of a directory. It allocates nothing.
    fn put_table(&mut self, dir: Dir, offset: u32)
        requires { offset_in self.old (Table dir) ≡ None }
        ensures size { size_in self.new ≡ size_in self.old + 1 }
        ensures put { (c : AnyChunk) → offset_in self.new c ≡ (if same_chunk (Table dir) c then Some offset else offset_in self.old c) }
        ensures paid { paid_in self.new ≡ paid_in self.old }
    {
        let table = Some(offset);
        match dir {
            Dir::Main => self.main.table = table,
            Dir::Exif => self.exif.table = table,
            Dir::Interop => self.interop.table = table,
            Dir::Gps => self.gps.table = table,
            Dir::Thumb => self.thumb.table = table,
        }
    }

    // Adds the offset of the value of the entry with this tag. `Err`: an allocation failed, and all
    // offsets are as before.
    fn put_value(
        &mut self,
        memory: &mut Memory,
        dir: Dir,
        tag: u16,
        offset: u32,
    ) -> Result<(), AllocFailed>
        requires { offset_in self.old (Placed dir tag) ≡ None }
        ensures ok { OnOk result ((c : AnyChunk) → offset_in self.new c ≡ (if same_chunk (Placed dir tag) c then Some offset else offset_in
            self.old c)) }
        ensures err { OnErr result ((c : AnyChunk) → offset_in self.new c ≡ offset_in self.old c) }
        ensures size { OnOk result (size_in self.new ≡ size_in self.old + 1) }
        ensures kept { OnErr result (size_in self.new ≡ size_in self.old) }
        ensures memory { CountsAllocFailure result memory.old memory.new }
        ensures asked { memory.new.asked ≤ memory.old.asked + paid_in self.old + 32 }
        ensures paid { OnOk result (memory.new.asked + paid_in self.new ≤ memory.old.asked + paid_in self.old + 32) }
    {
        let tag = u32::from(tag);
        match dir {
            Dir::Main => self.main.values.put(memory, tag, offset),
            Dir::Exif => self.exif.values.put(memory, tag, offset),
            Dir::Interop => self.interop.values.put(memory, tag, offset),
            Dir::Gps => self.gps.values.put(memory, tag, offset),
            Dir::Thumb => self.thumb.values.put(memory, tag, offset),
        }
    }

    // Adds the offset of the thumbnail's JPEG. It allocates nothing.
    fn put_jpeg(&mut self, offset: u32)
        requires { offset_in self.old Jpeg ≡ None }
        ensures size { size_in self.new ≡ size_in self.old + 1 }
        ensures put { (c : AnyChunk) → offset_in self.new c ≡ (if same_chunk Jpeg c then Some offset else offset_in self.old c) }
        ensures paid { paid_in self.new ≡ paid_in self.old }
    {
        self.jpeg = Some(offset);
    }

    // Adds the offset of strip `i`, counted from 0. `Err`: an allocation failed, and all offsets
    // are as before.
    fn put_strip(&mut self, memory: &mut Memory, i: u32, offset: u32) -> Result<(), AllocFailed>
        requires { offset_in self.old (Strip i) ≡ None }
        ensures ok { OnOk result ((c : AnyChunk) → offset_in self.new c ≡ (if same_chunk (Strip i) c then Some offset else offset_in
            self.old c)) }
        ensures err { OnErr result ((c : AnyChunk) → offset_in self.new c ≡ offset_in self.old c) }
        ensures size { OnOk result (size_in self.new ≡ size_in self.old + 1) }
        ensures kept { OnErr result (size_in self.new ≡ size_in self.old) }
        ensures memory { CountsAllocFailure result memory.old memory.new }
        ensures asked { memory.new.asked ≤ memory.old.asked + paid_in self.old + 32 }
        ensures paid { OnOk result (memory.new.asked + paid_in self.new ≤ memory.old.asked + paid_in self.old + 32) }
    {
        self.strips.put(memory, i, offset)
    }

    // Adds the offset of a chunk that has none yet.
    pub(crate) fn put(
        &mut self,
        memory: &mut Memory,
        chunk: Chunk,
        offset: u32,
    ) -> Result<(), AllocFailed>
        requires { offset_in self.old chunk ≡ None }
        ensures ok { OnOk result ((c : AnyChunk) → offset_in self.new c ≡ (if same_chunk chunk c then Some offset else offset_in self.old
            c)) }
        ensures err { OnErr result ((c : AnyChunk) → offset_in self.new c ≡ offset_in self.old c) }
        ensures size { OnOk result (size_in self.new ≡ size_in self.old + 1) }
        ensures kept { OnErr result (size_in self.new ≡ size_in self.old) }
        ensures memory { CountsAllocFailure result memory.old memory.new }
        ensures asked { memory.new.asked ≤ memory.old.asked + paid_in self.old + 32 }
        ensures paid { OnOk result (memory.new.asked + paid_in self.new ≤ memory.old.asked + paid_in self.old + 32) }
    {
        match chunk {
            Chunk::Table(dir) => {
                self.put_table(dir, offset);
                Ok(())
            }
            Chunk::Placed(dir, tag) => self.put_value(memory, dir, tag, offset),
            Chunk::Jpeg => {
                self.put_jpeg(offset);
                Ok(())
            }
            Chunk::Strip(i) => self.put_strip(memory, i, offset),
        }
    }
}
