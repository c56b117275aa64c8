// The sections of a module.
ghost use Rattle.std.specs.Prelude.{◌≡◌, ◌<◌, ◌≤◌, ◌++◌, All, map, flat_map, length, IfOk, OnOk};
ghost use Rattle.fabric_model.specs.Fabric.{numbered};
ghost use Rattle.fabric_model.specs.Within.{IsRamIn};
ghost use Rattle.fabric_wiring.specs.Outputs.{output_of};
ghost use Rattle.fabric.specs.Design.{IsDesign};
ghost use Rattle.fabric_module.specs.Written.{pin_ports, register_item, read_register, ram_memory, class_wire, output_assign, register_items, read_items, write_items, start_items};
ghost use Rattle.vlog_emit.specs.Each.{EachFabric, IsRegisterIn, IsSignalIn, nets_in, pll_port};

use crate::items::{
    append_ports, append_read, append_register, append_write, class_wire, input_port,
    output_assign, ram_memory, read_register, register_item,
};
use fabric::Design;
use fabric_model::{Pin, PllSource, RamCell, Register, pll_input};
use fabric_module::memory_name;
use fabric_wiring::Output;
use std::alloc::{AllocError, Global};
use vlog_module::{Item, Name, Port};

/// The ports of pins.
fn pin_ports(alloc: Global, pins: &[Pin]) -> Result<Vec<Port>, AllocError>
    ensures { IfOk result (λ ports. ports.items ≡ flat_map pin_ports pins.now) }
{
    let mut ports = Vec::new(alloc);
    for pin in pins {
        append_ports(alloc, pin, &mut ports)?;
    }
    Ok(ports)
}

/// All ports: those of pins, then the outputs of PLLs.
pub(crate) fn ports_of(
    alloc: Global,
    pins: &[Pin],
    plls: &[PllSource],
) -> Result<Vec<Port>, AllocError>
    ensures { IfOk result (λ ports. ports.items ≡ flat_map pin_ports pins.now ++ map pll_port plls.now) }
{
    let mut ports = pin_ports(alloc, pins)?;
    for source in plls {
        let port = input_port(alloc, pll_input(*source))?;
        ports.push(port)?;
    }
    Ok(ports)
}

/// Appends the declarations of registers.
pub(crate) fn append_registers(
    alloc: Global,
    registers: &[Register],
    items: &mut Vec<Item>,
) -> Result<(), AllocError>
    ensures { OnOk result (items.new.items ≡ items.old.items ++ map register_item registers.now) }
{
    for register in registers {
        let item = register_item(alloc, register)?;
        items.push(item)?;
    }
    Ok(())
}

/// Appends the declarations of the read registers of RAMs.
pub(crate) fn append_words(
    alloc: Global,
    rams: &[RamCell],
    items: &mut Vec<Item>,
) -> Result<(), AllocError>
    ensures { OnOk result (items.new.items ≡ items.old.items ++ map read_register rams.now) }
{
    for ram in rams {
        let item = read_register(alloc, ram)?;
        items.push(item)?;
    }
    Ok(())
}

/// Appends the declarations of the memories of RAMs.
pub(crate) fn append_memories(
    alloc: Global,
    rams: &[RamCell],
    items: &mut Vec<Item>,
) -> Result<(), AllocError>
    ensures { OnOk result (items.new.items ≡ items.old.items ++ map ram_memory rams.now) }
{
    for ram in rams {
        let item = ram_memory(alloc, ram)?;
        items.push(item)?;
    }
    Ok(())
}

/// Appends the wires of classes of joined nets.
pub(crate) fn append_wires(
    alloc: Global,
    design: &Design,
    classes: &[u32],
    items: &mut Vec<Item>,
) -> Result<(), AllocError>
    requires design { IsDesign design.now }
    requires within { All (λ class. class < nets_in design.now) classes.now }
    ensures { OnOk result (EachFabric design.now (λ fabric. items.new.items ≡ items.old.items ++ map (class_wire fabric) classes.now)) }
{
    for class in classes {
        let item = class_wire(alloc, design, *class)?;
        items.push(item)?;
    }
    Ok(())
}

/// Appends the assignments of outputs.
pub(crate) fn append_outputs(
    alloc: Global,
    design: &Design,
    outputs: &[Output],
    items: &mut Vec<Item>,
) -> Result<(), AllocError>
    requires { All (λ output. IsSignalIn design.now output.source) outputs.now }
    ensures { OnOk result (EachFabric design.now (λ fabric. items.new.items ≡ items.old.items ++ map (output_assign fabric) (map output_of outputs.now))) }
{
    for output in outputs {
        let item = output_assign(alloc, design, output)?;
        items.push(item)?;
    }
    Ok(())
}

/// Appends the items that change registers.
pub(crate) fn append_register_items(
    alloc: Global,
    design: &Design,
    registers: &[Register],
    items: &mut Vec<Item>,
) -> Result<(), AllocError>
    requires design { IsDesign design.now }
    requires within { All (IsRegisterIn design.now) registers.now }
    ensures { OnOk result (EachFabric design.now (λ fabric. items.new.items ≡ items.old.items ++ flat_map (register_items fabric) registers.now)) }
{
    for register in registers {
        append_register(alloc, design, register, items)?;
    }
    Ok(())
}

/// Appends the read ports of RAMs.
pub(crate) fn append_reads(
    alloc: Global,
    design: &Design,
    rams: &[RamCell],
    items: &mut Vec<Item>,
) -> Result<(), AllocError>
    requires design { IsDesign design.now }
    requires within { All (IsRamIn (nets_in design.now)) rams.now }
    requires modes { All (λ ram. ram.read ≤ 3) rams.now }
    ensures { OnOk result (EachFabric design.now (λ fabric. items.new.items ≡ items.old.items ++ flat_map (read_items fabric) rams.now)) }
{
    for ram in rams {
        append_read(alloc, design, ram, items)?;
    }
    Ok(())
}

/// Appends the write ports of RAMs.
pub(crate) fn append_writes(
    alloc: Global,
    design: &Design,
    rams: &[RamCell],
    items: &mut Vec<Item>,
) -> Result<(), AllocError>
    requires design { IsDesign design.now }
    requires within { All (IsRamIn (nets_in design.now)) rams.now }
    requires modes { All (λ ram. ram.write ≤ 3) rams.now }
    ensures { OnOk result (EachFabric design.now (λ fabric. items.new.items ≡ items.old.items ++ flat_map (write_items fabric) rams.now)) }
{
    for ram in rams {
        append_write(alloc, design, ram, items)?;
    }
    Ok(())
}

/// Appends the start words of the used RAM with that index.
fn append_start_words(
    alloc: Global,
    design: &Design,
    place: usize,
    ram: &RamCell,
    items: &mut Vec<Item>,
) -> Result<(), AllocError>
    requires { place < length design.now.parts.rams.items }
    ensures { OnOk result (EachFabric design.now (λ fabric. items.new.items ≡ items.old.items ++ start_items fabric (place, ram.now))) }
{
    let name = memory_name(alloc, ram)?;
    for word in 0..256u16 {
        let k = word as u8;
        let memory = Name::new(alloc, name.bytes())?;
        let start = design.start_word(place, k);
        items.push(Item::Start {
            memory,
            k,
            word: start,
        })?;
    }
    Ok(())
}

/// Appends the start words of RAMs.
pub(crate) fn append_starts(
    alloc: Global,
    design: &Design,
    rams: &[RamCell],
    items: &mut Vec<Item>,
) -> Result<(), AllocError>
    requires { rams.now ≡ design.now.parts.rams.items }
    ensures { OnOk result (EachFabric design.now (λ fabric. items.new.items ≡ items.old.items ++ flat_map (start_items fabric) (numbered rams.now))) }
{
    for (place, ram) in rams.iter().enumerate() {
        append_start_words(alloc, design, place, ram, items)?;
    }
    Ok(())
}
