// The names of a module with their start values, and the items over slots that go with these names.
ghost use Rattle.std.specs.Prelude.{◌≡◌, ℕ, Bool, List, [], ◌∷◌, ◌++◌, ◌+◌, fold, flat_map, length, slice_set, get_or, IfOk, OnOk, All};
ghost use Rattle.vlog_module.specs.WellFormed.{IsShaped};
ghost use Rattle.vlog_semantics.specs.declared.plan.Operand.{Operand as operand};
ghost use Rattle.vlog_semantics.specs.Held.{Holds};
ghost use Rattle.vlog_semantics.specs.Named.{names_of};
ghost use Rattle.vlog_semantics.specs.Numbered.{numbered};
ghost use Rattle.vlog_semantics.specs.Plans.{blank_output, output_operand, wires_of};
ghost use Rattle.vlog_semantics.specs.Run.{input_start, memory_start, put_word, register_start, start_step, word_start};
ghost use Rattle.vlog_semantics.specs.ModuleSlots.{wire_start};
ghost use Rattle.vlog_semantics.specs.Slots.{Finds, slot_of};
ghost use Rattle.vlog_semantics.specs.Steps.{set_word};

use crate::named::Named;
use crate::places::{operand_of, rule_of};
use crate::plan::{Memory, Operand, Wire};
use crate::slots::Slots;
use std::alloc::{AllocError, Global};
use vlog_module::{Item, Port};

/// The inputs, in the order of the ports.
pub(crate) fn inputs_of(alloc: Global, ports: &[Port]) -> Result<Named<bool>, AllocError>
    ensures { IfOk result (λ inputs. Holds inputs (flat_map input_start ports.now)) }
{
    let mut inputs = Named::new(alloc);
    for port in ports {
        add_input(&mut inputs, port)?;
    }
    Ok(inputs)
}

/// Adds a port, if it is an input.
fn add_input(inputs: &mut Named<bool>, port: &Port) -> Result<(), AllocError>
    ensures { (entries : List (List ℕ × Bool)) → Holds inputs.old entries → OnOk result (Holds inputs.new (entries ++ input_start port.now)) }
{
    if port.output {
        Ok(())
    } else {
        inputs.add(port.name.bytes(), false)
    }
}

/// The outputs, in the order of the ports; none is assigned yet.
pub(crate) fn blank_outputs(alloc: Global, ports: &[Port]) -> Result<Named<Operand>, AllocError>
    ensures { IfOk result (λ outputs. Holds outputs (flat_map blank_output ports.now)) }
{
    let mut outputs = Named::new(alloc);
    for port in ports {
        add_output(&mut outputs, port)?;
    }
    Ok(outputs)
}

/// Adds a port, if it is an output.
fn add_output(outputs: &mut Named<Operand>, port: &Port) -> Result<(), AllocError>
    ensures { (entries : List (List ℕ × operand)) → Holds outputs.old entries → OnOk result (Holds outputs.new (entries ++ blank_output port.now)) }
{
    if port.output {
        outputs.add(port.name.bytes(), Operand::Constant(false))
    } else {
        Ok(())
    }
}

/// Gives outputs the atoms that items assign to them.
pub(crate) fn assign_outputs(
    outputs: &mut Named<Operand>,
    bits: &Slots,
    words: &Slots,
    items: &[Item],
)
    ensures { (entries : List (List ℕ × operand)) → Holds outputs.old entries → Holds outputs.new (fold (output_operand (slot_of bits.now) (slot_of words.now)) entries items.now) }
{
    for item in items {
        assign_output(outputs, bits, words, item);
    }
}

/// Gives an output the atom that an item assigns to it, if it does.
fn assign_output(outputs: &mut Named<Operand>, bits: &Slots, words: &Slots, item: &Item)
    ensures { (entries : List (List ℕ × operand)) → Holds outputs.old entries → Holds outputs.new (output_operand (slot_of bits.now) (slot_of words.now) entries item.now) }
{
    match item {
        Item::Assign { name, value } => outputs.put(name.bytes(), operand_of(bits, words, value)),
        _ => {}
    }
}

/// The registers of 16 bits, in the order of the text.
pub(crate) fn words_of(alloc: Global, items: &[Item]) -> Result<Named<u16>, AllocError>
    ensures { IfOk result (λ words. Holds words (flat_map word_start items.now)) }
{
    let mut words = Named::new(alloc);
    for item in items {
        add_word(&mut words, item)?;
    }
    Ok(words)
}

/// Adds an item, if it is a register of 16 bits.
fn add_word(words: &mut Named<u16>, item: &Item) -> Result<(), AllocError>
    ensures { (entries : List (List ℕ × ℕ)) → Holds words.old entries → OnOk result (Holds words.new (entries ++ word_start item.now)) }
{
    match item {
        Item::Word { name, start } => words.add(name.bytes(), *start),
        _ => Ok(()),
    }
}

/// The memories with their start values, in the order of the text.
pub(crate) fn memories_of(alloc: Global, items: &[Item]) -> Result<Named<Memory>, AllocError>
    ensures { IfOk result (λ memories. Holds memories (fold start_step (flat_map memory_start items.now) items.now)) }
{
    let mut memories = blank_memories(alloc, items)?;
    put_starts(&mut memories, items);
    Ok(memories)
}

/// The memories; each word is 0.
fn blank_memories(alloc: Global, items: &[Item]) -> Result<Named<Memory>, AllocError>
    ensures { IfOk result (λ memories. Holds memories (flat_map memory_start items.now)) }
{
    let mut memories = Named::new(alloc);
    for item in items {
        add_memory(&mut memories, item)?;
    }
    Ok(memories)
}

/// Adds an item, if it is a memory.
fn add_memory(memories: &mut Named<Memory>, item: &Item) -> Result<(), AllocError>
    ensures { (entries : List (List ℕ × List ℕ)) → Holds memories.old entries → OnOk result (Holds memories.new (entries ++ memory_start item.now)) }
{
    match item {
        Item::Memory { name } => memories.add(name.bytes(), [0; 256]),
        _ => Ok(()),
    }
}

/// Writes the start values of items to their memories.
fn put_starts(memories: &mut Named<Memory>, items: &[Item])
    ensures { (entries : List (List ℕ × List ℕ)) → Holds memories.old entries → Holds memories.new (fold start_step entries items.now) }
{
    for item in items {
        put_start(memories, item);
    }
}

/// Writes the start value of an item to its memory, if it is one.
fn put_start(memories: &mut Named<Memory>, item: &Item)
    ensures { (entries : List (List ℕ × List ℕ)) → Holds memories.old entries → Holds memories.new (start_step entries item.now) }
{
    match item {
        Item::Start { memory, k, word } => put_word(memories, memory.bytes(), *k, *word),
        _ => {}
    }
}

/// Writes a word to the memory with this name.
fn put_word(memories: &mut Named<Memory>, name: &[u8], k: u8, word: u16)
    ensures { (entries : List (List ℕ × List ℕ)) → Holds memories.old entries → Holds memories.new (put_word entries name.now k word) }
{
    match memories.slots.slot(name) {
        Some(slot) => set_word(&mut memories.values, slot, k, word),
        None => {}
    }
}

/// Writes a word to a memory, if there is such a memory.
fn set_word(memories: &mut Vec<Memory>, memory: usize, address: u8, word: u16)
    ensures { memories.new.items ≡ set_word memories.old.items memory address word }
{
    if memory < memories.len() {
        memories[memory][usize::from(address)] = word;
    }
}

/// Adds the registers of one bit to the bits, and notes their slots.
pub(crate) fn add_registers(
    bits: &mut Named<bool>,
    registers: &mut Slots,
    items: &[Item],
) -> Result<(), AllocError>
    ensures bits { (entries : List (List ℕ × Bool)) → Holds bits.old entries → OnOk result (Holds bits.new (entries ++ flat_map register_start items.now)) }
    ensures registers { (entries : List (List ℕ × Bool)) → Holds bits.old entries → Finds registers.old []
        → OnOk result (Finds registers.new (numbered (length entries) (names_of (flat_map register_start items.now)))) }
{
    for item in items {
        add_register(bits, registers, item)?;
    }
    Ok(())
}

/// Adds an item, if it is a register of one bit.
fn add_register(
    bits: &mut Named<bool>,
    registers: &mut Slots,
    item: &Item,
) -> Result<(), AllocError>
    ensures bits { (entries : List (List ℕ × Bool)) → Holds bits.old entries → OnOk result (Holds bits.new (entries ++ register_start item.now)) }
    ensures registers { (entries : List (List ℕ × Bool)) (from : ℕ) (names : List (List ℕ)) → Holds bits.old entries → Finds registers.old (numbered from names)
        → length entries ≡ from + length names
        → OnOk result (Finds registers.new (numbered from (names ++ names_of (register_start item.now)))) }
{
    match item {
        Item::Register { name, start } => {
            registers.add(name.bytes(), bits.values.len())?;
            bits.add(name.bytes(), *start)
        }
        _ => Ok(()),
    }
}

/// Adds the wires of items to the bits, and their right sides over slots to the list of wires.
pub(crate) fn add_wires(
    bits: &mut Named<bool>,
    words: &Slots,
    wires: &mut Vec<Wire>,
    items: &[Item],
) -> Result<(), AllocError>
    requires { All IsShaped items.now }
    ensures bits { (entries : List (List ℕ × Bool)) → Holds bits.old entries → OnOk result (Holds bits.new (entries ++ flat_map wire_start items.now)) }
    ensures wires { (entries : List (List ℕ × Bool)) → Holds bits.old entries
        → OnOk result (wires.new.items ≡ wires.old.items ++ wires_of (slot_of words.now) (names_of entries) items.now) }
{
    for item in items {
        add_wire(bits, words, wires, item)?;
    }
    Ok(())
}

/// Adds an item, if it is a wire.
fn add_wire(
    bits: &mut Named<bool>,
    words: &Slots,
    wires: &mut Vec<Wire>,
    item: &Item,
) -> Result<(), AllocError>
    requires { IsShaped item.now }
    ensures bits { (entries : List (List ℕ × Bool)) → Holds bits.old entries → OnOk result (Holds bits.new (entries ++ wire_start item.now)) }
    ensures wires { (entries : List (List ℕ × Bool)) → Holds bits.old entries
        → OnOk result (wires.new.items ≡ wires.old.items ++ wires_of (slot_of words.now) (names_of entries) (item.now ∷ [])) }
{
    match item {
        Item::Wire { name, right } => {
            let rule = rule_of(&bits.slots, words, right);
            let slot = bits.values.len();
            wires.push(Wire { slot, rule })?;
            bits.add(name.bytes(), false)
        }
        _ => Ok(()),
    }
}
