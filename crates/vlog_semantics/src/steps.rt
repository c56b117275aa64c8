// The bits, words and memories in slots.
ghost use Rattle.std.specs.Prelude.{◌≡◌, false, get_or, length, slice_set};
ghost use Rattle.vlog_semantics.specs.Run.{is_edge};
ghost use Rattle.vlog_semantics.specs.Steps.{is_edge_of, word_in};
ghost use Rattle.vlog_semantics.specs.Values.{bit_of};

use crate::event::Event;
use crate::plan::{Edge, Memory};

/// The bit in a slot, and 0 past the last slot.
pub fn bit_at(bits: &[bool], slot: usize) -> bool
    ensures { result ≡ get_or bits.now slot false }
{
    match bits.get(slot) {
        Some(bit) => *bit,
        None => false,
    }
}

/// The word in a slot, and 0 past the last slot.
pub fn word_at(words: &[u16], slot: usize) -> u16
    ensures { result ≡ get_or words.now slot 0 }
{
    match words.get(slot) {
        Some(word) => *word,
        None => 0,
    }
}

/// Bit `k` of a word; bit 0 is the lowest.
pub fn bit_of(word: u16, k: u32) -> bool
    ensures { result ≡ bit_of word k }
{
    k < 16 && (word >> k) & 1 == 1
}

/// Sets the bit in a slot, if there is such a slot.
pub fn set_bit(bits: &mut [bool], slot: usize, bit: bool)
    ensures { bits.new ≡ slice_set bits.old slot bit }
{
    if slot < bits.len() {
        bits[slot] = bit;
    }
}

/// Whether an event is this edge.
pub fn is_edge_of(event: Event, edge: Edge) -> bool
    ensures { result ≡ is_edge_of event edge }
{
    edge.clock == event.pin && is_edge(edge.falling, event.bit)
}

/// Whether an input that changes to this bit has the edge.
fn is_edge(falling: bool, bit: bool) -> bool
    ensures { result ≡ is_edge falling bit }
{
    if falling { !bit } else { bit }
}

/// The word of a memory at an address, and 0 if there is no such memory.
pub fn word_in(memories: &[Memory], memory: usize, address: u8) -> u16
    ensures { result ≡ word_in memories.now memory address }
{
    match memories.get(memory) {
        Some(words) => words[usize::from(address)],
        None => 0,
    }
}

/// Copies bits to a list of the same length.
pub fn copy_bits(from: &[bool], to: &mut [bool])
    ensures { length to.old ≡ length from.now → to.new ≡ from.now }
{
    if to.len() == from.len() {
        to.copy_from_slice(from);
    }
}

/// Copies words to a list of the same length.
pub fn copy_words(from: &[u16], to: &mut [u16])
    ensures { length to.old ≡ length from.now → to.new ≡ from.now }
{
    if to.len() == from.len() {
        to.copy_from_slice(from);
    }
}
