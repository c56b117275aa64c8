// Items over slots, made from the items of a module by resolving their names.
ghost use Rattle.std.specs.Prelude.{◌≡◌, ◌++◌, flat_map, length, IfOk, OnOk, All};
ghost use Rattle.std.specs.List.{filter_map};
ghost use Rattle.std.specs.Option.{option_map, option_to_list};
ghost use Rattle.vlog_module.specs.WellFormed.{IsLut, IsRight, IsShaped};
ghost use Rattle.vlog_semantics.specs.Slots.{slot_of};
ghost use Rattle.vlog_semantics.specs.Run.{clock_of};
ghost use Rattle.vlog_semantics.specs.Plans.{at_reset, clock_slot, field_of, flip_at_once_of, flip_of, flip_steps, narrow_read_of, narrow_write_of, operand_of, operands_of, part_operand, port_of, read_of, read_over, rule_of, settle_of, settle_over, slot_operand, table_of, wave_edge, write_of, write_over};
ghost use Rattle.vlog_semantics.specs.Found.{places_in};

use crate::plan::{
    Edge, Field, FlipFlop, Kept, MemoryPort, Operand, Read, Rule, Settle, Table, Taken, Write,
};
use crate::slots::Slots;
use std::alloc::{AllocError, Global};
use vlog_module::{Atom, Atoms, Item, Lut, Name, Right};

/// How the names of a module are resolved: inputs to their indexes, other names to their slots.
#[derive(Drop)]
pub struct Places {
    /// The inputs, by their indexes.
    pub pins: Slots,
    /// All names of one bit.
    pub bits: Slots,
    /// The registers of one bit.
    pub registers: Slots,
    /// The registers of 16 bits.
    pub words: Slots,
    pub memories: Slots,
}

/// An atom over slots.
pub(crate) fn operand_of(bits: &Slots, words: &Slots, atom: &Atom) -> Operand
    ensures { result ≡ operand_of (slot_of bits.now) (slot_of words.now) atom.now }
{
    match atom {
        Atom::Bit(bit) => Operand::Constant(*bit),
        Atom::Whole(name) => slot_operand(bits, name.bytes()),
        Atom::Part { name, k } => part_operand(words, name.bytes(), *k),
    }
}

/// The bit of a name; the constant 0 if it has no slot.
fn slot_operand(bits: &Slots, name: &[u8]) -> Operand
    ensures { result ≡ slot_operand (slot_of bits.now name.now) }
{
    match bits.slot(name) {
        Some(slot) => Operand::Slot(slot),
        None => Operand::Constant(false),
    }
}

/// Bit `k` of a register of 16 bits; the constant 0 if the register has no slot.
fn part_operand(words: &Slots, name: &[u8], k: u8) -> Operand
    ensures { result ≡ part_operand (slot_of words.now name.now) k }
{
    match words.slot(name) {
        Some(word) => Operand::Part { word, k },
        None => Operand::Constant(false),
    }
}

/// A list of atoms over slots.
fn operands_of<const N: usize>(bits: &Slots, words: &Slots, atoms: &Atoms) -> [Operand; N]
    requires { length atoms.now ≡ N }
    ensures { result ≡ operands_of (slot_of bits.now) (slot_of words.now) atoms.now }
{
    let mut operands = [Operand::Constant(false); N];
    for place in 0..N {
        operands[place] = operand_of(bits, words, atoms.get(place));
    }
    operands
}

/// A LUT over slots.
fn table_of(bits: &Slots, words: &Slots, lut: &Lut) -> Table
    requires { IsLut lut.now }
    ensures { result ≡ table_of (slot_of bits.now) (slot_of words.now) lut.now }
{
    Table {
        word: lut.word,
        ins: operands_of(bits, words, &lut.ins),
    }
}

/// A right side over slots.
pub(crate) fn rule_of(bits: &Slots, words: &Slots, right: &Right) -> Rule
    requires { IsRight right.now }
    ensures { result ≡ rule_of (slot_of bits.now) (slot_of words.now) right.now }
{
    match right {
        Right::Bit(bit) => Rule::Copy(Operand::Constant(*bit)),
        Right::Whole(name) => Rule::Copy(slot_operand(bits, name.bytes())),
        Right::Part { name, k } => Rule::Copy(part_operand(words, name.bytes(), *k)),
        Right::Lut(lut) => Rule::Lookup(table_of(bits, words, lut)),
        Right::Majority { a, b, c } => Rule::Majority {
            a: operand_of(bits, words, a),
            b: operand_of(bits, words, b),
            c: operand_of(bits, words, c),
        },
        Right::Choose { reset, set, target } => Rule::Choose {
            reset: slot_operand(bits, reset.bytes()),
            set: *set,
            target: slot_operand(bits, target.bytes()),
        },
    }
}

/// The slot of a clock, which is an input or a register of one bit.
fn clock_slot(places: &Places, clock: &Name) -> Option<usize>
    ensures { result ≡ clock_slot (places_in places.now) clock.now }
{
    match places.pins.slot(clock.bytes()) {
        Some(slot) => Some(slot),
        None => places.registers.slot(clock.bytes()),
    }
}

/// The flip-flop of an item, if it is one.
fn flip_of(places: &Places, item: &Item) -> Option<FlipFlop>
    requires { IsShaped item.now }
    ensures { result ≡ flip_of (places_in places.now) item.now }
{
    match item {
        Item::FlipFlop {
            falling,
            clock,
            enable,
            reset,
            set,
            target,
            lut,
        } => {
            let clock = clock_slot(places, clock)?;
            let target = places.registers.slot(target.bytes())?;
            Some(FlipFlop {
                edge: Edge {
                    clock,
                    falling: *falling,
                },
                enable: operand_of(&places.bits, &places.words, enable),
                reset: operand_of(&places.bits, &places.words, reset),
                set: *set,
                target,
                table: table_of(&places.bits, &places.words, lut),
            })
        }
        _ => flip_at_once_of(places, item),
    }
}

/// The flip-flop of an item, if it is one with a clock and asynchronous set or reset.
fn flip_at_once_of(places: &Places, item: &Item) -> Option<FlipFlop>
    requires { IsShaped item.now }
    ensures { result ≡ flip_at_once_of (places_in places.now) item.now }
{
    match item {
        Item::AsyncFlipFlop {
            falling,
            clock,
            reset,
            set,
            target,
            enable,
            lut,
        } => {
            let clock = clock_slot(places, clock)?;
            let target = places.registers.slot(target.bytes())?;
            Some(FlipFlop {
                edge: Edge {
                    clock,
                    falling: *falling,
                },
                enable: operand_of(&places.bits, &places.words, enable),
                reset: slot_operand(&places.bits, reset.bytes()),
                set: *set,
                target,
                table: table_of(&places.bits, &places.words, lut),
            })
        }
        _ => None,
    }
}

/// A flip-flop with asynchronous set or reset, at a clock edge during that: its reset enables it, whatever its clock enable is.
fn reset_of(places: &Places, item: &Item) -> Option<FlipFlop>
    requires { IsShaped item.now }
    ensures { result ≡ option_map at_reset (flip_at_once_of (places_in places.now) item.now) }
{
    let flip = flip_at_once_of(places, item)?;
    Some(FlipFlop {
        enable: flip.reset,
        ..flip
    })
}

/// The asynchronous set or reset of an item, if it has one.
fn settle_of(places: &Places, item: &Item) -> Option<Settle>
    ensures { result ≡ settle_of (places_in places.now) item.now }
{
    match item {
        Item::AsyncFlipFlop {
            reset,
            set,
            target,
            ..
        } => settle_over(places, reset.bytes(), *set, target.bytes()),
        Item::AsyncReset { reset, set, target } => {
            settle_over(places, reset.bytes(), *set, target.bytes())
        }
        _ => None,
    }
}

/// An asynchronous set or reset, if the wire and the register have slots.
fn settle_over(places: &Places, reset: &[u8], set: bool, target: &[u8]) -> Option<Settle>
    ensures { result ≡ settle_over (places_in places.now) reset.now set target.now }
{
    let wire = places.bits.slot(reset)?;
    let target = places.registers.slot(target)?;
    Some(Settle { wire, set, target })
}

/// A port of a memory, if its clock and the memory have slots.
fn port_of(
    places: &Places,
    falling: bool,
    clock: &Name,
    clock_enable: &Atom,
    enable: &Atom,
    memory: &Name,
    address: &Atoms,
) -> Option<MemoryPort>
    requires { length address.now ≡ 8 }
    ensures { result ≡ port_of (places_in places.now) falling clock.now clock_enable.now enable.now memory.now address.now }
{
    let clock = clock_slot(places, clock)?;
    let memory = places.memories.slot(memory.bytes())?;
    Some(MemoryPort {
        edge: Edge { clock, falling },
        clock_enable: operand_of(&places.bits, &places.words, clock_enable),
        enable: operand_of(&places.bits, &places.words, enable),
        memory,
        address: operands_of(&places.bits, &places.words, address),
    })
}

/// A field of a word.
fn field_of(places: &Places, shift: &Atoms, pattern: u16) -> Field
    requires { length shift.now ≡ 3 }
    ensures { result ≡ field_of (places_in places.now) shift.now pattern }
{
    Field {
        shift: operands_of(&places.bits, &places.words, shift),
        pattern,
    }
}

/// A read through a port, if there are the port and the register.
fn read_over(port: Option<MemoryPort>, target: Option<usize>, taken: Taken) -> Option<Read>
    ensures { result ≡ read_over port target taken }
{
    let port = port?;
    let target = target?;
    Some(Read {
        port,
        target,
        taken,
    })
}

/// The read of an item, if it is one.
fn read_of(places: &Places, item: &Item) -> Option<Read>
    requires { IsShaped item.now }
    ensures { result ≡ read_of (places_in places.now) item.now }
{
    match item {
        Item::Read {
            falling,
            clock,
            clock_enable,
            enable,
            target,
            memory,
            address,
        } => read_over(
            port_of(
                places,
                *falling,
                clock,
                clock_enable,
                enable,
                memory,
                address,
            ),
            places.words.slot(target.bytes()),
            Taken::Word,
        ),
        _ => narrow_read_of(places, item),
    }
}

/// The read of an item, if it is one that is 8, 4 or 2 bits wide.
fn narrow_read_of(places: &Places, item: &Item) -> Option<Read>
    requires { IsShaped item.now }
    ensures { result ≡ narrow_read_of (places_in places.now) item.now }
{
    match item {
        Item::ReadNarrow {
            falling,
            clock,
            clock_enable,
            enable,
            target,
            memory,
            address,
            shift,
            pattern,
        } => read_over(
            port_of(
                places,
                *falling,
                clock,
                clock_enable,
                enable,
                memory,
                address,
            ),
            places.words.slot(target.bytes()),
            Taken::Narrow(field_of(places, shift, *pattern)),
        ),
        _ => None,
    }
}

/// A write through a port, if there is the port.
fn write_over(places: &Places, port: Option<MemoryPort>, kept: Kept, bits: &Atoms) -> Option<Write>
    requires { length bits.now ≡ 16 }
    ensures { result ≡ write_over (places_in places.now) port kept bits.now }
{
    let port = port?;
    Some(Write {
        port,
        kept,
        bits: operands_of(&places.bits, &places.words, bits),
    })
}

/// The write of an item, if it is one.
fn write_of(places: &Places, item: &Item) -> Option<Write>
    requires { IsShaped item.now }
    ensures { result ≡ write_of (places_in places.now) item.now }
{
    match item {
        Item::Write {
            falling,
            clock,
            clock_enable,
            enable,
            memory,
            address,
            mask,
            bits,
        } => write_over(
            places,
            port_of(
                places,
                *falling,
                clock,
                clock_enable,
                enable,
                memory,
                address,
            ),
            Kept::Masked(operands_of(&places.bits, &places.words, mask)),
            bits,
        ),
        _ => narrow_write_of(places, item),
    }
}

/// The write of an item, if it is one that is 8, 4 or 2 bits wide.
fn narrow_write_of(places: &Places, item: &Item) -> Option<Write>
    requires { IsShaped item.now }
    ensures { result ≡ narrow_write_of (places_in places.now) item.now }
{
    match item {
        Item::WriteNarrow {
            falling,
            clock,
            clock_enable,
            enable,
            memory,
            address,
            pattern,
            shift,
            bits,
        } => write_over(
            places,
            port_of(
                places,
                *falling,
                clock,
                clock_enable,
                enable,
                memory,
                address,
            ),
            Kept::Outside(field_of(places, shift, *pattern)),
            bits,
        ),
        _ => None,
    }
}

/// What the flip-flops of items do at their edges.
pub(crate) fn flips_of(
    alloc: Global,
    places: &Places,
    items: &[Item],
) -> Result<Vec<FlipFlop>, AllocError>
    requires { All IsShaped items.now }
    ensures { IfOk result (λ flips. flips.items ≡ flat_map (flip_steps (places_in places.now)) items.now) }
{
    let mut flips = Vec::new(alloc);
    for item in items {
        push_flips(&mut flips, places, item)?;
    }
    Ok(flips)
}

/// Adds what the flip-flop of an item does at its edge.
fn push_flips(flips: &mut Vec<FlipFlop>, places: &Places, item: &Item) -> Result<(), AllocError>
    requires { IsShaped item.now }
    ensures { OnOk result (flips.new.items ≡ flips.old.items ++ flip_steps (places_in places.now) item.now) }
{
    push_found(flips, flip_of(places, item))?;
    push_found(flips, reset_of(places, item))
}

/// The asynchronous sets and resets of items.
pub(crate) fn settles_of(
    alloc: Global,
    places: &Places,
    items: &[Item],
) -> Result<Vec<Settle>, AllocError>
    ensures { IfOk result (λ settles. settles.items ≡ filter_map (settle_of (places_in places.now)) items.now) }
{
    let mut settles = Vec::new(alloc);
    for item in items {
        push_found(&mut settles, settle_of(places, item))?;
    }
    Ok(settles)
}

/// The reads of items.
pub(crate) fn reads_of(
    alloc: Global,
    places: &Places,
    items: &[Item],
) -> Result<Vec<Read>, AllocError>
    requires { All IsShaped items.now }
    ensures { IfOk result (λ reads. reads.items ≡ filter_map (read_of (places_in places.now)) items.now) }
{
    let mut reads = Vec::new(alloc);
    for item in items {
        push_found(&mut reads, read_of(places, item))?;
    }
    Ok(reads)
}

/// The writes of items.
pub(crate) fn writes_of(
    alloc: Global,
    places: &Places,
    items: &[Item],
) -> Result<Vec<Write>, AllocError>
    requires { All IsShaped items.now }
    ensures { IfOk result (λ writes. writes.items ≡ filter_map (write_of (places_in places.now)) items.now) }
{
    let mut writes = Vec::new(alloc);
    for item in items {
        push_found(&mut writes, write_of(places, item))?;
    }
    Ok(writes)
}

/// Adds an item to a list, if there is one.
fn push_found<T: Drop>(list: &mut Vec<T>, found: Option<T>) -> Result<(), AllocError>
    ensures { OnOk result (list.new.items ≡ list.old.items ++ option_to_list found) }
{
    match found {
        Some(item) => {
            list.push(item)?;
            Ok(())
        }
        None => Ok(()),
    }
}

/// The clock of an item, and whether its edge is the falling one.
fn clock_of(item: &Item) -> Option<(bool, &Name)>
    ensures { option_map (λ clock. (clock.0, clock.1.now)) result ≡ clock_of item.now }
{
    match item {
        Item::FlipFlop { falling, clock, .. }
        | Item::AsyncFlipFlop { falling, clock, .. }
        | Item::Read { falling, clock, .. }
        | Item::ReadNarrow { falling, clock, .. }
        | Item::Write { falling, clock, .. }
        | Item::WriteNarrow { falling, clock, .. } => Some((*falling, clock)),
        _ => None,
    }
}

/// The edge of an item whose clock is a register.
fn wave_edge(places: &Places, item: &Item) -> Option<Edge>
    ensures { result ≡ wave_edge (places_in places.now) item.now }
{
    let (falling, clock) = clock_of(item)?;
    let clock = places.registers.slot(clock.bytes())?;
    Some(Edge { clock, falling })
}

/// The edges of the items whose clock is a register.
pub(crate) fn clocks_of(
    alloc: Global,
    places: &Places,
    items: &[Item],
) -> Result<Vec<Edge>, AllocError>
    ensures { IfOk result (λ clocks. clocks.items ≡ filter_map (wave_edge (places_in places.now)) items.now) }
{
    let mut clocks = Vec::new(alloc);
    for item in items {
        push_found(&mut clocks, wave_edge(places, item))?;
    }
    Ok(clocks)
}
