// Names in chunks, one after the other in the last chunk while they fit.
ghost use Rattle.std.specs.Prelude.{◌≡◌, ◌+◌, ◌-◌, ◌^◌, ◌<◌, ◌≤◌, ◌↔◌, [], ◌∷◌, ◌++◌, length, slice_set, IsTrue, IfOk, OnErr};
ghost use Rattle.name_arena.specs.Names.{chunk_bytes, chunk_at, name_at, name_within, IsWithin, IsSpanOf, HasRoom, Keeps};

use crate::chunk::{CHUNK_BYTES, Chunk};
use std::alloc::{AllocError, Global};
use std::marker::Model;

/// The chunk number of empty names.
const NO_CHUNK: u32 = u32::MAX;

/// Where a name is: its chunk, and the places of its first and last byte there. A name longer than `CHUNK_BYTES` fills a chunk of its own,
/// and the empty name is in no chunk.
#[derive(Clone, Copy, Debug)]
pub(crate) struct Span {
    chunk: u32,
    start: u16,
    last: u16,
}

/// The chunks of an arena. In contracts, what is written in each.
#[derive(Drop)]
pub(crate) struct Chunks {
    alloc: Global,
    chunks: Vec<Chunk>,
}

impl Model for Chunks {
    ghost use Rattle.std.specs.Prelude.{List, ℕ, ◌-◌, ◌^◌, ◌≤◌, length};

    ghost Value = { List (List ℕ) };

    ghost view = { λ chunks. chunks.chunks.items };

    ghost invariant = { λ chunks. length chunks.chunks.items ≤ 2 ^ 32 - 1 };
}

impl Chunks {
    /// No chunks. It takes no memory yet.
    pub(crate) fn new(alloc: Global) -> Chunks
        ensures { result ≡ [] }
    {
        Chunks {
            alloc,
            chunks: Vec::new(alloc),
        }
    }

    /// Keeps a name, and returns where it is. The names kept before stay where they are.
    pub(crate) fn keep(&mut self, name: &[u8]) -> Result<Span, AllocError>
        ensures kept { IfOk result (λ span. IsSpanOf self.new span × (name_at self.new span ≡ name.now)) }
        ensures others { IfOk result (λ _. Keeps self.old self.new) }
        ensures unchanged { OnErr result (self.new ≡ self.old) }
    {
        if name.is_empty() {
            // No chunk has that number.
            prove!(self.chunks.len() <= NO_CHUNK as usize);
            return Ok(Span {
                chunk: NO_CHUNK,
                start: 0,
                last: 0,
            });
        }
        if self.has_room(name.len()) {
            Ok(self.append(name))
        } else {
            self.begin(name)
        }
    }

    /// The bytes of a name that is kept here.
    pub(crate) fn name(&self, span: Span) -> &[u8]
        requires { IsSpanOf self.now span }
        ensures { result.now ≡ name_at self.now span }
    {
        match self.chunks.get(span.chunk as usize) {
            Some(chunk) => name_in(chunk.bytes(), span),
            None => &[],
        }
    }

    // Whether a name of `count` bytes fits in the last chunk.
    fn has_room(&self, count: usize) -> bool
        requires { count < 2 ^ 63 }
        ensures { IsTrue result ↔ HasRoom self.now count }
    {
        match self.chunks.last() {
            Some(chunk) => chunk.bytes().len() + count <= CHUNK_BYTES,
            None => false,
        }
    }

    // Writes a name after the others in the last chunk.
    fn append(&mut self, name: &[u8]) -> Span
        requires { (0 < length name.now) × HasRoom self.old (length name.now) }
        ensures kept { IsSpanOf self.new result × (name_at self.new result ≡ name.now) }
        ensures others { Keeps self.old self.new }
    {
        let place = self.chunks.len() - 1;
        let start = append_at(&mut self.chunks, place, name);
        Span {
            chunk: place as u32,
            start: start as u16,
            last: (start + name.len() - 1) as u16,
        }
    }

    // Writes a name in a new chunk.
    fn begin(&mut self, name: &[u8]) -> Result<Span, AllocError>
        requires { 0 < length name.now }
        ensures kept { IfOk result (λ span. IsSpanOf self.new span × (name_at self.new span ≡ name.now)) }
        ensures others { IfOk result (λ _. Keeps self.old self.new) }
        ensures unchanged { OnErr result (self.new ≡ self.old) }
    {
        let place = self.chunks.len();
        if place >= NO_CHUNK as usize {
            return Err(AllocError);
        }
        let chunk = Chunk::with_name(self.alloc, name)?;
        self.chunks.push(chunk)?;
        Ok(Span {
            chunk: place as u32,
            start: 0,
            last: (name.len().min(CHUNK_BYTES) - 1) as u16,
        })
    }
}

// Writes a name after the others in a chunk, and returns where it begins.
fn append_at(chunks: &mut [Chunk], place: usize, name: &[u8]) -> usize
    requires { (place < length chunks.old) × (length (chunk_at chunks.old place) + length name.now ≤ chunk_bytes) }
    ensures start { result ≡ length (chunk_at chunks.old place) }
    ensures written { chunks.new ≡ slice_set chunks.old place (chunk_at chunks.old place ++ name.now) }
{
    let chunk = &mut chunks[place];
    let start = chunk.bytes().len();
    chunk.append(name);
    start
}

// The name of a span in its chunk.
fn name_in(bytes: &[u8], span: Span) -> &[u8]
    requires { IsWithin bytes.now span }
    ensures { result.now ≡ name_within bytes.now span }
{
    if bytes.len() <= CHUNK_BYTES {
        &bytes[span.start as usize..span.last as usize + 1]
    } else {
        bytes
    }
}
