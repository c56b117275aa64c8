// Reads and writes of memories, in a lane.
ghost use Rattle.std.specs.Prelude.{◌≡◌, ◌<◌, ◌≤◌, [], fold, length, map, slice_set, true};
ghost use Rattle.vlog_engine.specs.Lanes.{lane_bits};
ghost use Rattle.vlog_engine.specs.StepKinds.{slots_of};
ghost use Rattle.vlog_engine.specs.Triggers.{step_by};
ghost use Rattle.vlog_semantics.specs.Run.{masked, moved_down, moved_up};
ghost use Rattle.vlog_semantics.specs.Steps.{is_acting, kept_mask, operands_value, put_written, read_slot, set_word, taken_word, written_by};

use crate::reading::{number, operand_bit};
use crate::trigger::Trigger;
use crate::value::Value;
use vlog_semantics::{
    Field, Kept, Memory, MemoryPort, Operand, Read, Taken, Write, Written, copy_words, word_in,
};

/// Whether a port of a memory acts in a step, in an active lane.
fn is_acting<V: Value>(port: &MemoryPort, trigger: &Trigger<V>, cells: &[V], lane: u32) -> bool
    requires within { lane < V.LANES }
    requires active { V.at trigger.now.active lane ≡ true }
    ensures { result ≡ is_acting (slots_of (step_by trigger.now.cause (lane_bits V.at lane trigger.now.earlier.now) (lane_bits V.at lane cells.now))) (lane_bits V.at lane cells.now) [] port.now }
{
    trigger.lanes(cells, port.edge).bit(lane)
        && operand_bit(cells, lane, port.clock_enable)
        && operand_bit(cells, lane, port.enable)
}

/// The address that eight operands spell.
fn address_of<V: Value>(cells: &[V], lane: u32, address: &[Operand; 8]) -> u8
    requires { lane < V.LANES }
    ensures { result ≡ operands_value (lane_bits V.at lane cells.now) [] address.now }
{
    number(cells, lane, address) as u8
}

/// How far a field is shifted up.
fn shift_of<V: Value>(cells: &[V], lane: u32, field: &Field) -> u32
    requires { lane < V.LANES }
    ensures is { result ≡ operands_value (lane_bits V.at lane cells.now) [] field.now.shift }
    ensures small { result < 8 }
{
    number(cells, lane, &field.shift)
}

/// A word that is shifted down and masked by a pattern.
fn moved_down(word: u16, shift: u32, pattern: u16) -> u16
    requires { shift < 8 }
    ensures { result ≡ moved_down word shift pattern }
{
    (word >> shift) & pattern
}

/// A pattern that is shifted up.
fn moved_up(pattern: u16, shift: u32) -> u16
    requires { shift < 8 }
    ensures { result ≡ moved_up pattern shift }
{
    pattern << shift
}

/// What a read takes of a word.
fn taken_word<V: Value>(cells: &[V], lane: u32, taken: &Taken, word: u16) -> u16
    requires { lane < V.LANES }
    ensures { result ≡ taken_word (lane_bits V.at lane cells.now) [] taken.now word }
{
    match taken {
        Taken::Word => word,
        Taken::Narrow(field) => moved_down(word, shift_of(cells, lane, field), field.pattern),
    }
}

/// Sets the word in a slot, if there is such a slot.
fn set_word_at(words: &mut [u16], slot: usize, word: u16)
    ensures { words.new ≡ slice_set words.old slot word }
{
    if slot < words.len() {
        words[slot] = word;
    }
}

/// Does the reads: gives their registers what they take of memories, if their ports act.
fn run_reads<V: Value>(
    reads: &[Read],
    trigger: &Trigger<V>,
    cells: &[V],
    lane: u32,
    memories: &[Memory],
    next: &mut [u16],
)
    requires within { lane < V.LANES }
    requires active { V.at trigger.now.active lane ≡ true }
    ensures { next.new ≡ fold (read_slot (slots_of (step_by trigger.now.cause (lane_bits V.at lane trigger.now.earlier.now) (lane_bits V.at lane cells.now))) (lane_bits V.at lane cells.now) [] memories.now) next.old reads.now }
{
    for read in reads {
        if is_acting(&read.port, trigger, cells, lane) {
            let address = address_of(cells, lane, &read.port.address);
            let word = word_in(memories, read.port.memory, address);
            set_word_at(
                next,
                read.target,
                taken_word(cells, lane, &read.taken, word),
            );
        }
    }
}

/// The word that sixteen operands spell.
fn word_of<V: Value>(cells: &[V], lane: u32, operands: &[Operand; 16]) -> u16
    requires { lane < V.LANES }
    ensures { result ≡ operands_value (lane_bits V.at lane cells.now) [] operands.now }
{
    number(cells, lane, operands) as u16
}

/// A word that is written under a mask, where a bit that is 1 keeps the old bit.
fn masked(word: u16, mask: u16, bits: u16) -> u16
    ensures { result ≡ masked word mask bits }
{
    (word & mask) | (bits & !mask)
}

/// The mask of the bits of a word that a write leaves as they are.
fn kept_mask<V: Value>(cells: &[V], lane: u32, kept: &Kept) -> u16
    requires { lane < V.LANES }
    ensures { result ≡ kept_mask (lane_bits V.at lane cells.now) [] kept.now }
{
    match kept {
        Kept::Masked(mask) => word_of(cells, lane, mask),
        Kept::Outside(field) => !moved_up(field.pattern, shift_of(cells, lane, field)),
    }
}

/// The word that a write writes, if its port acts.
fn written_by<V: Value>(
    write: &Write,
    trigger: &Trigger<V>,
    cells: &[V],
    lane: u32,
    memories: &[Memory],
) -> Option<Written>
    requires within { lane < V.LANES }
    requires active { V.at trigger.now.active lane ≡ true }
    ensures { result ≡ written_by (slots_of (step_by trigger.now.cause (lane_bits V.at lane trigger.now.earlier.now) (lane_bits V.at lane cells.now))) (lane_bits V.at lane cells.now) [] memories.now write.now }
{
    if is_acting(&write.port, trigger, cells, lane) {
        let memory = write.port.memory;
        let address = address_of(cells, lane, &write.port.address);
        let old = word_in(memories, memory, address);
        let mask = kept_mask(cells, lane, &write.kept);
        let word = masked(old, mask, word_of(cells, lane, &write.bits));
        Some(Written {
            memory,
            address,
            word,
        })
    } else {
        None
    }
}

/// Notes what a write writes.
fn note(written: &mut [Option<Written>], place: usize, found: Option<Written>)
    ensures { written.new ≡ slice_set written.old place found }
{
    if place < written.len() {
        written[place] = found;
    }
}

/// Notes what each write writes.
fn prepare_writes<V: Value>(
    writes: &[Write],
    trigger: &Trigger<V>,
    cells: &[V],
    lane: u32,
    memories: &[Memory],
    written: &mut [Option<Written>],
)
    requires within { lane < V.LANES }
    requires active { V.at trigger.now.active lane ≡ true }
    ensures { length written.old ≡ length writes.now → written.new ≡ map (written_by (slots_of (step_by trigger.now.cause (lane_bits V.at lane trigger.now.earlier.now) (lane_bits V.at lane cells.now))) (lane_bits V.at lane cells.now) [] memories.now) writes.now }
{
    for (place, write) in writes.iter().enumerate() {
        let found = written_by(write, trigger, cells, lane, memories);
        note(written, place, found);
    }
}

/// Writes a word to a memory, if there is such a memory.
fn set_word(memories: &mut [Memory], memory: usize, address: u8, word: u16)
    ensures { memories.new ≡ set_word memories.old memory address word }
{
    if memory < memories.len() {
        memories[memory][usize::from(address)] = word;
    }
}

/// Writes the word of a write, if there is one.
fn put_written(memories: &mut [Memory], found: Option<Written>)
    ensures { memories.new ≡ put_written memories.old found }
{
    match found {
        Some(written) => set_word(memories, written.memory, written.address, written.word),
        None => {}
    }
}

/// Writes the words that are noted.
fn run_writes(written: &[Option<Written>], memories: &mut [Memory])
    ensures { memories.new ≡ fold put_written memories.old written.now }
{
    for found in written {
        put_written(memories, *found);
    }
}

/// Does the writes of a lane, and computes the next words of its registers. Reads take the words from before the writes.
pub(crate) fn run_memories<V: Value>(
    trigger: &Trigger<V>,
    cells: &[V],
    lane: u32,
    words: &[u16],
    next_words: &mut [u16],
    memories: &mut [Memory],
    written: &mut [Option<Written>],
)
    requires within { lane < V.LANES }
    requires active { V.at trigger.now.active lane ≡ true }
    requires words { length next_words.old ≡ length words.now }
    requires written { length trigger.now.group.now.writes.items ≤ length written.old }
    ensures words { next_words.new ≡ fold (read_slot (slots_of (step_by trigger.now.cause (lane_bits V.at lane trigger.now.earlier.now) (lane_bits V.at lane cells.now))) (lane_bits V.at lane cells.now) [] memories.old) words.now trigger.now.group.now.reads.items }
    ensures memories { memories.new ≡ fold put_written memories.old (map (written_by (slots_of (step_by trigger.now.cause (lane_bits V.at lane trigger.now.earlier.now) (lane_bits V.at lane cells.now))) (lane_bits V.at lane cells.now) [] memories.old) trigger.now.group.now.writes.items) }
{
    copy_words(words, next_words);
    run_reads(
        &trigger.group.reads,
        trigger,
        cells,
        lane,
        memories,
        next_words,
    );
    let written = &mut written[..trigger.group.writes.len()];
    prepare_writes(
        &trigger.group.writes,
        trigger,
        cells,
        lane,
        memories,
        written,
    );
    run_writes(written, memories);
}
