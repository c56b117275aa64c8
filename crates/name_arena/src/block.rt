// A block of memory from an allocator. It is written byte by byte from its start, and never grown or moved.
ghost use Rattle.std.specs.Prelude.{◌≡◌, ℕ, ◌+◌, ◌^◌, ◌<◌, ◌≤◌, List, [], ◌∷◌, ◌++◌, length, IfOk};
ghost use denote.RawPtr.{Ptr};
ghost use Rattle.name_arena.specs.Blocks.{bytes_type, memory_owns, memory_lent};

use std::alloc::{AllocError, Allocator};
use std::marker::{Model, PhantomData};

// Where a block begins. It owns nothing.
#[derive(Clone, Copy)]
pub(crate) struct Start {
    ptr: *mut u8,
}

// The owner of a block's bytes and of the free room after them. It takes no space.
pub(crate) struct Memory {
    ghost at: { Ptr },
    ghost room: { ℕ },
    ghost bytes: { List ℕ },
    ghost fits: { (length bytes ≤ room) × (room < 2 ^ 63) },
}

impl Model for Memory {
    ghost also_owns = { λ m. memory_owns m.at m.room m.bytes };

    ghost also_shares = { λ m _ κ. memory_lent m.at m.bytes κ };
}

// The right to give a block back to its allocator. It takes no space.
pub(crate) struct Deed<A: Allocator> {
    marker: PhantomData<A>,
    ghost at: { Ptr },
    ghost room: { ℕ },
    ghost alloc: { A },
}

impl<A: Allocator> Model for Deed<A> {
    ghost also_owns = { λ d. A.dealloc_token d.alloc (bytes_type d.room) d.at };
}

// Allocates a block in which nothing is written.
pub(crate) fn allocate<A: Allocator>(
    alloc: &A,
    room: usize,
) -> Result<(Start, Memory, Deed<A>), AllocError>
    requires { room < 2 ^ 63 }
    ensures { IfOk result (λ r. (r.1.at ≡ r.0.ptr) × (r.1.room ≡ room) × (r.1.bytes ≡ []) × (r.2.at ≡ r.0.ptr) × (r.2.room ≡ room) × (r.2.alloc ≡ alloc.now)) }
{
    match alloc.allocate(room, 1) {
        Ok(ptr) => Ok((
            Start { ptr },
            Memory {},
            Deed {
                marker: PhantomData,
            },
        )),
        Err(error) => Err(error),
    }
}

// Frees a block.
pub(crate) fn free<A: Allocator>(
    alloc: &A,
    start: Start,
    room: usize,
    memory: Memory,
    deed: Deed<A>,
)
    requires { (memory.at ≡ start.ptr) × (memory.room ≡ room) × (deed.at ≡ start.ptr) × (deed.room ≡ room) × (deed.alloc ≡ alloc.now) }
{
    let Memory {} = memory;
    let Deed { marker: _ } = deed;
    unsafe { alloc.deallocate(start.ptr, room, 1) }
}

impl Memory {
    // Writes a byte after the others.
    pub(crate) fn write(&mut self, start: Start, place: usize, byte: u8)
        requires { (start.ptr ≡ self.old.at) × (place ≡ length self.old.bytes) × (place < self.old.room) }
        ensures { (self.new.at ≡ self.old.at) × (self.new.room ≡ self.old.room) × (self.new.bytes ≡ self.old.bytes ++ byte ∷ []) }
    {
        unsafe { *start.ptr.add(place) = byte };
    }

    // The bytes that are written.
    pub(crate) fn read(&self, start: Start, count: usize) -> &[u8]
        requires { (start.ptr ≡ self.now.at) × (count ≡ length self.now.bytes) }
        ensures { result.now ≡ self.now.bytes }
    {
        unsafe { std::slice::from_raw_parts(start.ptr, count) }
    }
}
