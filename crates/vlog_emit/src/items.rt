// Items.
ghost use Rattle.std.specs.Prelude.{◌≡◌, ◌<◌, ◌≤◌, ◌==◌, ◌++◌, false, map, option_to_list, IfOk, OnOk};
ghost use Rattle.fabric_model.specs.Within.{IsNetIn, IsRamIn};
ghost use Rattle.fabric_model.specs.Tiles.{item_if};
ghost use Rattle.fabric_model.specs.Pins.{drives, is_switched, has_input, has_outside};
ghost use Rattle.fabric_model.specs.declared.input_port.InputPort.TheVariants.{Pad as PadPort, Outside as OutsidePort};
ghost use Rattle.fabric_wiring.specs.Outputs.{output_of};
ghost use Rattle.fabric.specs.Design.{IsDesign};
ghost use Rattle.fabric_module.specs.Names.{port_name, enable_name, output_name, register_name};
ghost use Rattle.fabric_module.specs.Written.{clock_name, is_falling, output_port, input_port, pin_ports, register_item, read_register, ram_memory, class_wire, output_assign, flip_item, at_once_item, items_by, register_items, read_item, read_items, write_item, write_items};
ghost use Rattle.vlog_emit.specs.Each.{EachFabric, IsRegisterIn, IsSignalIn, nets_in};

use crate::atoms::{
    data_atoms, input_atom, input_name, lut_of, pattern_of, port_atoms, register_at, setting_wire,
    shift_atoms, signal_atom,
};
use crate::rights::class_right;
use fabric::Design;
use fabric_model::{InputPort, Pin, RamCell, Register, has_input, has_outside};
use fabric_module::{
    enable_name, input_port_name, memory_name, port_name, read_name, register_name, wire_name,
};
use fabric_wiring::{ClockEnd, Output};
use std::alloc::{AllocError, Global};
use vlog_module::{Item, Name, Port};

/// The name of an output's port.
fn output_name(alloc: Global, output: &Output) -> Result<Name, AllocError>
    ensures { IfOk result (λ name. name ≡ output_name (output_of output.now)) }
{
    if output.enable {
        enable_name(alloc, &output.pin)
    } else {
        port_name(alloc, &output.pin)
    }
}

/// Appends the output ports of a pin: what it drives its pad with, and when it does.
fn append_outputs(alloc: Global, pin: &Pin, ports: &mut Vec<Port>) -> Result<(), AllocError>
    ensures { OnOk result (ports.new.items ≡ ports.old.items ++ (item_if (drives pin.now) (output_port (port_name pin.now)) ++ item_if (is_switched pin.now) (output_port (enable_name pin.now)))) }
{
    if pin.drives() {
        let name = port_name(alloc, pin)?;
        ports.push(Port { name, output: true })?;
    }
    if pin.is_switched() {
        let name = enable_name(alloc, pin)?;
        ports.push(Port { name, output: true })?;
    }
    Ok(())
}

/// An input port.
pub(crate) fn input_port(alloc: Global, port: InputPort) -> Result<Port, AllocError>
    ensures { IfOk result (λ made. made ≡ input_port port) }
{
    let name = input_port_name(alloc, &port)?;
    Ok(Port {
        name,
        output: false,
    })
}

/// Appends an input port, if a pin has it.
fn append_input(
    alloc: Global,
    is_there: bool,
    port: InputPort,
    ports: &mut Vec<Port>,
) -> Result<(), AllocError>
    ensures { OnOk result (ports.new.items ≡ ports.old.items ++ map input_port (item_if is_there port)) }
{
    if is_there {
        ports.push(input_port(alloc, port)?)?;
    }
    Ok(())
}

/// Appends the input ports of a pin.
fn append_inputs(alloc: Global, pin: &Pin, ports: &mut Vec<Port>) -> Result<(), AllocError>
    ensures { OnOk result (ports.new.items ≡ ports.old.items ++ (map input_port (item_if (has_input pin.now) (PadPort pin.now.x pin.now.y pin.now.n)) ++ map input_port (item_if (has_outside pin.now) (OutsidePort pin.now.x pin.now.y pin.now.n)))) }
{
    let (x, y, n) = (pin.x, pin.y, pin.n);
    append_input(alloc, has_input(*pin), InputPort::Pad { x, y, n }, ports)?;
    append_input(
        alloc,
        has_outside(*pin),
        InputPort::Outside { x, y, n },
        ports,
    )
}

/// Appends the ports of a pin.
pub(crate) fn append_ports(
    alloc: Global,
    pin: &Pin,
    ports: &mut Vec<Port>,
) -> Result<(), AllocError>
    ensures { OnOk result (ports.new.items ≡ ports.old.items ++ pin_ports pin.now) }
{
    append_outputs(alloc, pin, ports)?;
    append_inputs(alloc, pin, ports)
}

/// The declaration of a register.
pub(crate) fn register_item(alloc: Global, register: &Register) -> Result<Item, AllocError>
    ensures { IfOk result (λ item. item ≡ register_item register.now) }
{
    let name = register_name(alloc, register)?;
    Ok(Item::Register { name, start: false })
}

/// The declaration of the read register of a RAM.
pub(crate) fn read_register(alloc: Global, ram: &RamCell) -> Result<Item, AllocError>
    ensures { IfOk result (λ item. item ≡ read_register ram.now) }
{
    let name = read_name(alloc, ram)?;
    Ok(Item::Word { name, start: 0 })
}

/// The declaration of the memory of a RAM.
pub(crate) fn ram_memory(alloc: Global, ram: &RamCell) -> Result<Item, AllocError>
    ensures { IfOk result (λ item. item ≡ ram_memory ram.now) }
{
    let name = memory_name(alloc, ram)?;
    Ok(Item::Memory { name })
}

/// The wire of a class of joined nets.
pub(crate) fn class_wire(alloc: Global, design: &Design, class: u32) -> Result<Item, AllocError>
    requires design { IsDesign design.now }
    requires within { class < nets_in design.now }
    ensures { IfOk result (λ item. EachFabric design.now (λ fabric. item ≡ class_wire fabric class)) }
{
    let name = wire_name(alloc, class)?;
    let right = class_right(alloc, design, class)?;
    Ok(Item::Wire { name, right })
}

/// The assignment of an output.
pub(crate) fn output_assign(
    alloc: Global,
    design: &Design,
    output: &Output,
) -> Result<Item, AllocError>
    requires { IsSignalIn design.now output.now.source }
    ensures { IfOk result (λ item. EachFabric design.now (λ fabric. item ≡ output_assign fabric (output_of output.now))) }
{
    let name = output_name(alloc, output)?;
    let value = signal_atom(alloc, design, output.source)?;
    Ok(Item::Assign { name, value })
}

/// The port or the register at which the clock chain from a clock net ends, or `None` if there is no net or the chain ends elsewhere.
#[tactic(auto, unfolding(fabric_module::specs::Written::clock_name))]
fn clock_name(alloc: Global, design: &Design, net: Option<u32>) -> Result<Option<Name>, AllocError>
    requires design { IsDesign design.now }
    requires within { IsNetIn (nets_in design.now) net }
    ensures { IfOk result (λ name. EachFabric design.now (λ fabric. name ≡ clock_name fabric net)) }
{
    match net {
        None => Ok(None),
        Some(net) => end_name(alloc, design, net),
    }
}

/// The port or the register at which the clock chain from a clock net ends, or `None` if it ends elsewhere.
fn end_name(alloc: Global, design: &Design, net: u32) -> Result<Option<Name>, AllocError>
    requires design { IsDesign design.now }
    requires within { net < nets_in design.now }
    ensures { IfOk result (λ name. EachFabric design.now (λ fabric. name ≡ clock_name fabric (Some net))) }
{
    match design.clock_end(net) {
        ClockEnd::Pin { place, .. } => {
            let name = input_name(alloc, design, place as usize)?;
            Ok(Some(name))
        }
        ClockEnd::Register { place, .. } => {
            let name = register_at(alloc, design, place as usize)?;
            Ok(Some(name))
        }
        ClockEnd::Still(_) => Ok(None),
        ClockEnd::Logic => Ok(None),
    }
}

/// Whether the item of a user is written for falling edges of the port or the register at which its clock chain ends.
#[tactic(auto, unfolding(fabric_module::specs::Written::is_falling))]
fn is_falling(design: &Design, inverted: bool, clock: Option<u32>) -> bool
    requires { IsNetIn (nets_in design.now) clock }
    ensures { EachFabric design.now (λ fabric. result ≡ is_falling fabric inverted clock) }
{
    match clock {
        None => inverted,
        Some(net) => design.turned(net) != inverted,
    }
}

/// The item of a register with a synchronous set or reset.
fn flip_item(
    alloc: Global,
    design: &Design,
    register: &Register,
    clock: Name,
) -> Result<Item, AllocError>
    requires { IsRegisterIn design.now register.now }
    ensures { IfOk result (λ item. EachFabric design.now (λ fabric. item ≡ flip_item fabric register.now clock)) }
{
    let enable = signal_atom(alloc, design, register.enable)?;
    let reset = input_atom(alloc, design, false, register.sr)?;
    let target = register_name(alloc, register)?;
    let lut = lut_of(alloc, design, &register.table)?;
    Ok(Item::FlipFlop {
        falling: is_falling(design, register.neg, register.clk),
        clock,
        enable,
        reset,
        set: register.set,
        target,
        lut,
    })
}

/// The item of a register with an asynchronous set or reset, and a clock.
fn at_once_item(
    alloc: Global,
    design: &Design,
    register: &Register,
    reset: Name,
    clock: Name,
) -> Result<Item, AllocError>
    requires { IsRegisterIn design.now register.now }
    ensures { IfOk result (λ item. EachFabric design.now (λ fabric. item ≡ at_once_item fabric register.now reset clock)) }
{
    let target = register_name(alloc, register)?;
    let enable = signal_atom(alloc, design, register.enable)?;
    let lut = lut_of(alloc, design, &register.table)?;
    Ok(Item::AsyncFlipFlop {
        falling: is_falling(design, register.neg, register.clk),
        clock,
        reset,
        set: register.set,
        target,
        enable,
        lut,
    })
}

/// The item of a register with an asynchronous set or reset, but no clock.
fn set_item(alloc: Global, register: &Register, reset: Name) -> Result<Item, AllocError>
    ensures { IfOk result (λ item. item ≡ Item.AsyncReset reset register.now.«set» (register_name register.now)) }
{
    let target = register_name(alloc, register)?;
    Ok(Item::AsyncReset {
        reset,
        set: register.set,
        target,
    })
}

/// The item that changes a register, by the wire of its asynchronous set or reset and by its clock. There is none if it has neither.
fn item_by(
    alloc: Global,
    design: &Design,
    register: &Register,
    wire: Option<Name>,
    clock: Option<Name>,
) -> Result<Option<Item>, AllocError>
    requires { IsRegisterIn design.now register.now }
    ensures { IfOk result (λ item. EachFabric design.now (λ fabric. option_to_list item ≡ items_by fabric register.now wire clock)) }
{
    match (wire, clock) {
        (Some(reset), Some(clock)) => {
            let item = at_once_item(alloc, design, register, reset, clock)?;
            Ok(Some(item))
        }
        (Some(reset), None) => {
            let item = set_item(alloc, register, reset)?;
            Ok(Some(item))
        }
        (None, Some(clock)) => {
            let item = flip_item(alloc, design, register, clock)?;
            Ok(Some(item))
        }
        (None, None) => Ok(None),
    }
}

/// Appends the item that changes a register, if there is one.
pub(crate) fn append_register(
    alloc: Global,
    design: &Design,
    register: &Register,
    items: &mut Vec<Item>,
) -> Result<(), AllocError>
    requires design { IsDesign design.now }
    requires within { IsRegisterIn design.now register.now }
    ensures { OnOk result (EachFabric design.now (λ fabric. items.new.items ≡ items.old.items ++ register_items fabric register.now)) }
{
    let wire = setting_wire(alloc, design, register)?;
    let clock = clock_name(alloc, design, register.clk)?;
    match item_by(alloc, design, register, wire, clock)? {
        None => Ok(()),
        Some(item) => {
            items.push(item)?;
            Ok(())
        }
    }
}

/// The read port of a RAM with its clock, by its mode.
fn read_item(alloc: Global, design: &Design, ram: &RamCell, clock: Name) -> Result<Item, AllocError>
    requires within { IsRamIn (nets_in design.now) ram.now }
    requires mode { ram.now.read ≤ 3 }
    ensures { IfOk result (λ item. EachFabric design.now (λ fabric. item ≡ read_item fabric ram.now clock)) }
{
    let falling = is_falling(design, ram.rneg, ram.rclk);
    let clock_enable = input_atom(alloc, design, true, ram.rclke)?;
    let enable = input_atom(alloc, design, false, ram.re)?;
    let target = read_name(alloc, ram)?;
    let memory = memory_name(alloc, ram)?;
    let address = port_atoms(alloc, design, &ram.raddr[..8])?;
    if ram.read == 0 {
        return Ok(Item::Read {
            falling,
            clock,
            clock_enable,
            enable,
            target,
            memory,
            address,
        });
    }
    let shift = shift_atoms(alloc, design, ram.read, &ram.raddr)?;
    let pattern = pattern_of(ram.read);
    Ok(Item::ReadNarrow {
        falling,
        clock,
        clock_enable,
        enable,
        target,
        memory,
        address,
        shift,
        pattern,
    })
}

/// Appends the read port of a RAM, if it has a clock.
pub(crate) fn append_read(
    alloc: Global,
    design: &Design,
    ram: &RamCell,
    items: &mut Vec<Item>,
) -> Result<(), AllocError>
    requires design { IsDesign design.now }
    requires within { IsRamIn (nets_in design.now) ram.now }
    requires mode { ram.now.read ≤ 3 }
    ensures { OnOk result (EachFabric design.now (λ fabric. items.new.items ≡ items.old.items ++ read_items fabric ram.now)) }
{
    match clock_name(alloc, design, ram.rclk)? {
        None => Ok(()),
        Some(clock) => {
            let item = read_item(alloc, design, ram, clock)?;
            items.push(item)?;
            Ok(())
        }
    }
}

/// The write port of a RAM whose words are written whole, with its clock.
fn write_whole(
    alloc: Global,
    design: &Design,
    ram: &RamCell,
    clock: Name,
) -> Result<Item, AllocError>
    requires within { IsRamIn (nets_in design.now) ram.now }
    requires mode { ram.now.write ≡ 0 }
    ensures { IfOk result (λ item. EachFabric design.now (λ fabric. item ≡ write_item fabric ram.now clock)) }
{
    let clock_enable = input_atom(alloc, design, true, ram.wclke)?;
    let enable = input_atom(alloc, design, false, ram.we)?;
    let memory = memory_name(alloc, ram)?;
    let address = port_atoms(alloc, design, &ram.waddr[..8])?;
    let mask = port_atoms(alloc, design, &ram.mask)?;
    let bits = port_atoms(alloc, design, &ram.wdata)?;
    Ok(Item::Write {
        falling: is_falling(design, ram.wneg, ram.wclk),
        clock,
        clock_enable,
        enable,
        memory,
        address,
        mask,
        bits,
    })
}

/// The write port of a RAM whose words are written in parts, with its clock.
fn write_narrow(
    alloc: Global,
    design: &Design,
    ram: &RamCell,
    clock: Name,
) -> Result<Item, AllocError>
    requires within { IsRamIn (nets_in design.now) ram.now }
    requires mode { (ram.now.write == 0) ≡ false }
    requires modes { ram.now.write ≤ 3 }
    ensures { IfOk result (λ item. EachFabric design.now (λ fabric. item ≡ write_item fabric ram.now clock)) }
{
    let clock_enable = input_atom(alloc, design, true, ram.wclke)?;
    let enable = input_atom(alloc, design, false, ram.we)?;
    let memory = memory_name(alloc, ram)?;
    let address = port_atoms(alloc, design, &ram.waddr[..8])?;
    let shift = shift_atoms(alloc, design, ram.write, &ram.waddr)?;
    let bits = data_atoms(alloc, design, ram.write, &ram.wdata)?;
    Ok(Item::WriteNarrow {
        falling: is_falling(design, ram.wneg, ram.wclk),
        clock,
        clock_enable,
        enable,
        memory,
        address,
        pattern: pattern_of(ram.write),
        shift,
        bits,
    })
}

/// The write port of a RAM with its clock, by its mode.
fn write_item(
    alloc: Global,
    design: &Design,
    ram: &RamCell,
    clock: Name,
) -> Result<Item, AllocError>
    requires within { IsRamIn (nets_in design.now) ram.now }
    requires mode { ram.now.write ≤ 3 }
    ensures { IfOk result (λ item. EachFabric design.now (λ fabric. item ≡ write_item fabric ram.now clock)) }
{
    if ram.write == 0 {
        write_whole(alloc, design, ram, clock)
    } else {
        write_narrow(alloc, design, ram, clock)
    }
}

/// Appends the write port of a RAM, if it has a clock.
pub(crate) fn append_write(
    alloc: Global,
    design: &Design,
    ram: &RamCell,
    items: &mut Vec<Item>,
) -> Result<(), AllocError>
    requires design { IsDesign design.now }
    requires within { IsRamIn (nets_in design.now) ram.now }
    requires mode { ram.now.write ≤ 3 }
    ensures { OnOk result (EachFabric design.now (λ fabric. items.new.items ≡ items.old.items ++ write_items fabric ram.now)) }
{
    match clock_name(alloc, design, ram.wclk)? {
        None => Ok(()),
        Some(clock) => {
            let item = write_item(alloc, design, ram, clock)?;
            items.push(item)?;
            Ok(())
        }
    }
}
