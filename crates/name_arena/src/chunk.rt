// A chunk of memory that is written from its start, never grown or moved, and freed when it is dropped.
ghost use Rattle.std.specs.Prelude.{◌≡◌, ◌+◌, ◌≤◌, ◌++◌, length, IfOk};
ghost use Rattle.name_arena.specs.Names.{chunk_bytes};

use crate::block::{Deed, Memory, Start, allocate, free};
use std::alloc::{AllocError, Global};
use std::marker::Model;

/// The room of a chunk in bytes. A name longer than that has a chunk of its own.
pub(crate) const CHUNK_BYTES: usize = 65_536;

/// A block with room for `CHUNK_BYTES` bytes or more. In contracts, the bytes that are written.
pub(crate) struct Chunk {
    alloc: Global,
    start: Start,
    room: usize,
    count: usize,
    memory: Memory,
    deed: Deed<Global>,
}

impl Model for Chunk {
    ghost use Rattle.std.specs.Prelude.{List, ℕ, ◌≡◌, ◌≤◌, length};
    ghost use Rattle.name_arena.specs.Names.{chunk_bytes};

    ghost Value = { List ℕ };

    ghost view = { λ chunk. chunk.memory.bytes };

    ghost invariant = { λ chunk. (chunk.memory.at ≡ chunk.start.ptr) × (chunk.memory.room ≡ chunk.room) × (chunk.count ≡ length chunk.memory.bytes) × (chunk.deed.at ≡ chunk.start.ptr) × (chunk.deed.room ≡ chunk.room) × (chunk.deed.alloc ≡ chunk.alloc) × (chunk_bytes ≤ chunk.room) };
}

impl Drop for Chunk {
    fn drop(self) {
        let Chunk {
            alloc,
            start,
            room,
            count: _,
            memory,
            deed,
        } = self;
        free(&alloc, start, room, memory, deed);
    }
}

impl Chunk {
    /// A new chunk with a name at its start. It has room for `CHUNK_BYTES` bytes, or for just the name if the name is longer.
    pub(crate) fn with_name(alloc: Global, name: &[u8]) -> Result<Chunk, AllocError>
        ensures { IfOk result (λ chunk. chunk ≡ name.now) }
    {
        let room = name.len().max(CHUNK_BYTES);
        let (start, mut memory, deed) = allocate(&alloc, room)?;
        write_all(&mut memory, start, 0, name);
        Ok(Chunk {
            alloc,
            start,
            room,
            count: name.len(),
            memory,
            deed,
        })
    }

    /// Writes a name after the others.
    pub(crate) fn append(&mut self, name: &[u8])
        requires { length self.old + length name.now ≤ chunk_bytes }
        ensures { self.new ≡ self.old ++ name.now }
    {
        write_all(&mut self.memory, self.start, self.count, name);
        self.count += name.len();
    }

    /// All bytes that are written.
    pub(crate) fn bytes(&self) -> &[u8]
        ensures { result.now ≡ self.now }
    {
        self.memory.read(self.start, self.count)
    }
}

// Writes bytes after the `count` bytes that are there.
fn write_all(memory: &mut Memory, start: Start, count: usize, bytes: &[u8])
    requires { (start.ptr ≡ memory.old.at) × (count ≡ length memory.old.bytes) × (count + length bytes.now ≤ memory.old.room) }
    ensures written { memory.new.bytes ≡ memory.old.bytes ++ bytes.now }
    ensures same { (memory.new.at ≡ memory.old.at) × (memory.new.room ≡ memory.old.room) }
{
    let mut done = 0;
    while done < bytes.len() {
        memory.write(start, count + done, bytes[done]);
        done += 1;
    }
}
