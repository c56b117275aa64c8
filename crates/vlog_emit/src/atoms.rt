// Atoms: what is read of nets and pins.
ghost use Rattle.std.specs.Prelude.{◌≡◌, ◌<◌, ◌≤◌, ◌/◌, ◌∷◌, [], All, get_or, length, Some, None, if◌then◌else◌, IfOk};
ghost use Rattle.fabric_model.specs.Signals.{net_or_0};
ghost use Rattle.narrow_words.specs.Narrow.{share};
ghost use Rattle.fabric_model.specs.Rams.{data_bit};
ghost use Rattle.fabric_model.specs.Joins.{class_of};
ghost use Rattle.fabric_model.specs.Values.{is_connected};
ghost use Rattle.fabric_model.specs.Within.{IsNetIn};
ghost use Rattle.fabric_module.specs.Rights.{input_atom, port_atoms, input_name, register_at, signal_atom, table_atom, lut_of, driven_wire, setting_wire, pattern_of, shift_atom, shift_atoms, data_atoms};
ghost use Rattle.vlog_emit.specs.Each.{EachFabric, IsSignalIn, IsTableIn, nets_in};

use fabric::Design;
use fabric_model::{LutTable, Register, Signal};
use fabric_module::{input_port_name, register_name, wire_name};
use std::alloc::{AllocError, Global};
use vlog_module::{Atom, Atoms, Lut, Name};

/// The class of joined nets that a net belongs to, or `None` if it has no driver.
fn driven_class(design: &Design, net: u32) -> Option<u32>
    requires { net < nets_in design.now }
    ensures { EachFabric design.now (λ fabric. result ≡ (if is_connected fabric net then Some (class_of fabric.joins net) else None)) }
{
    let class = design.class_of(net);
    match design.drive(class) {
        None => None,
        Some(_) => Some(class),
    }
}

/// What an input reads: the wire of its class of joined nets, or the stated value if it is unconnected.
#[tactic(auto, unfolding(fabric_module::specs::Rights::input_atom))]
pub(crate) fn input_atom(
    alloc: Global,
    design: &Design,
    stated: bool,
    net: Option<u32>,
) -> Result<Atom, AllocError>
    requires { IsNetIn (nets_in design.now) net }
    ensures { IfOk result (λ atom. EachFabric design.now (λ fabric. atom ≡ input_atom fabric stated net)) }
{
    match net {
        None => Ok(Atom::Bit(stated)),
        Some(net) => net_atom(alloc, design, stated, net),
    }
}

/// What an input with a net reads: the wire of the net's class of joined nets, or the stated value if that has no driver.
fn net_atom(alloc: Global, design: &Design, stated: bool, net: u32) -> Result<Atom, AllocError>
    requires { net < nets_in design.now }
    ensures { IfOk result (λ atom. EachFabric design.now (λ fabric. atom ≡ input_atom fabric stated (Some net))) }
{
    match driven_class(design, net) {
        None => Ok(Atom::Bit(stated)),
        Some(class) => {
            let name = wire_name(alloc, class)?;
            Ok(Atom::Whole(name))
        }
    }
}

/// What a list of inputs reads. An unconnected one is 0.
pub(crate) fn port_atoms(
    alloc: Global,
    design: &Design,
    ports: &[Option<u32>],
) -> Result<Atoms, AllocError>
    requires { All (IsNetIn (nets_in design.now)) ports.now }
    ensures { IfOk result (λ atoms. EachFabric design.now (λ fabric. atoms ≡ port_atoms fabric ports.now)) }
{
    let mut atoms = Atoms::new(alloc);
    for net in ports {
        let atom = input_atom(alloc, design, false, *net)?;
        atoms.push(atom)?;
    }
    Ok(atoms)
}

/// A bit of the high part of an address: 0 if the mode has no such bit.
fn shift_atom(
    alloc: Global,
    design: &Design,
    mode: u8,
    ports: &[Option<u32>; 11],
    k: u8,
) -> Result<Atom, AllocError>
    requires place { k < 3 }
    requires within { All (IsNetIn (nets_in design.now)) ports.now }
    ensures { IfOk result (λ atom. EachFabric design.now (λ fabric. atom ≡ shift_atom fabric mode ports.now k)) }
{
    if k < mode {
        input_atom(alloc, design, false, ports[usize::from(8 + k)])
    } else {
        Ok(Atom::Bit(false))
    }
}

/// The high part of an address as three atoms, the lowest first.
pub(crate) fn shift_atoms(
    alloc: Global,
    design: &Design,
    mode: u8,
    ports: &[Option<u32>; 11],
) -> Result<Atoms, AllocError>
    requires { All (IsNetIn (nets_in design.now)) ports.now }
    ensures { IfOk result (λ atoms. EachFabric design.now (λ fabric. atoms ≡ shift_atoms fabric mode ports.now)) }
{
    let mut atoms = Atoms::new(alloc);
    let low = shift_atom(alloc, design, mode, ports, 0)?;
    let middle = shift_atom(alloc, design, mode, ports, 1)?;
    let high = shift_atom(alloc, design, mode, ports, 2)?;
    atoms.push(low)?;
    atoms.push(middle)?;
    atoms.push(high)?;
    Ok(atoms)
}

/// The write data in a mode: for each bit of a word, the data for the bit of a narrow word that lies there.
pub(crate) fn data_atoms(
    alloc: Global,
    design: &Design,
    mode: u8,
    ports: &[Option<u32>; 16],
) -> Result<Atoms, AllocError>
    requires mode { mode ≤ 3 }
    requires within { All (IsNetIn (nets_in design.now)) ports.now }
    ensures { IfOk result (λ atoms. EachFabric design.now (λ fabric. atoms ≡ data_atoms fabric mode ports.now)) }
{
    let mut atoms = Atoms::new(alloc);
    for place in 0..16u8 {
        let atom = input_atom(alloc, design, false, ports[data_bit(mode, place)])?;
        atoms.push(atom)?;
    }
    Ok(atoms)
}

/// The port bit that has the data for a bit of a word.
fn data_bit(mode: u8, place: u8) -> usize
    requires mode { mode ≤ 3 }
    requires place { place < 16 }
    ensures is { result ≡ data_bit mode (place / share mode) }
    ensures within { result < 16 }
{
    match mode {
        0 => usize::from(place),
        1 => usize::from(place / 2 * 2),
        2 => usize::from(place / 4 * 4 + 1),
        _ => usize::from(place / 8 * 8 + 3),
    }
}

/// The word of a mode whose bits are 1 at the bits of the narrow word with high part 0, and 0 elsewhere.
pub(crate) fn pattern_of(mode: u8) -> u16
    requires { mode ≤ 3 }
    ensures { result ≡ pattern_of mode }
{
    match mode {
        0 => 0xFFFF,
        1 => 0x5555,
        2 => 0x1111,
        _ => 0x0101,
    }
}

/// The name of the input port with that index.
pub(crate) fn input_name(alloc: Global, design: &Design, place: usize) -> Result<Name, AllocError>
    requires { place < length design.now.inputs }
    ensures { IfOk result (λ name. EachFabric design.now (λ fabric. name ≡ input_name fabric place)) }
{
    let inputs = design.inputs();
    input_port_name(alloc, &inputs[place])
}

/// The name of the register with an index.
pub(crate) fn register_at(alloc: Global, design: &Design, place: usize) -> Result<Name, AllocError>
    requires { place < length design.now.parts.registers.items }
    ensures { IfOk result (λ name. EachFabric design.now (λ fabric. name ≡ register_at fabric place)) }
{
    let registers = design.registers();
    register_name(alloc, &registers[place])
}

/// What an input reads.
pub(crate) fn signal_atom(
    alloc: Global,
    design: &Design,
    source: Signal,
) -> Result<Atom, AllocError>
    requires { IsSignalIn design.now source }
    ensures { IfOk result (λ atom. EachFabric design.now (λ fabric. atom ≡ signal_atom fabric source)) }
{
    match source {
        Signal::Net { net, otherwise } => input_atom(alloc, design, otherwise, net),
        Signal::Input(place) => Ok(Atom::Whole(input_name(alloc, design, place as usize)?)),
        Signal::Register(place) => Ok(Atom::Whole(register_at(alloc, design, place as usize)?)),
    }
}

/// What input `k` of a LUT reads.
fn table_atom(
    alloc: Global,
    design: &Design,
    table: &LutTable,
    k: usize,
) -> Result<Atom, AllocError>
    requires place { k < 4 }
    requires within { IsSignalIn design.now (get_or table.now.ins k (net_or_0 None)) }
    ensures { IfOk result (λ atom. EachFabric design.now (λ fabric. atom ≡ table_atom fabric table.now k)) }
{
    signal_atom(alloc, design, table.ins[k])
}

/// A LUT with its four inputs.
pub(crate) fn lut_of(alloc: Global, design: &Design, table: &LutTable) -> Result<Lut, AllocError>
    requires { IsTableIn design.now table.now }
    ensures { IfOk result (λ lut. EachFabric design.now (λ fabric. lut ≡ lut_of fabric table.now)) }
{
    let in_0 = table_atom(alloc, design, table, 0)?;
    let in_1 = table_atom(alloc, design, table, 1)?;
    let in_2 = table_atom(alloc, design, table, 2)?;
    let in_3 = table_atom(alloc, design, table, 3)?;
    let ins = four_atoms(alloc, in_0, in_1, in_2, in_3)?;
    Ok(Lut {
        word: table.word,
        ins,
    })
}

/// The wire of a net, or `None` if it has no driver.
fn net_wire(alloc: Global, design: &Design, net: u32) -> Result<Option<Name>, AllocError>
    requires { net < nets_in design.now }
    ensures { IfOk result (λ wire. EachFabric design.now (λ fabric. wire ≡ driven_wire fabric (Some net))) }
{
    match driven_class(design, net) {
        None => Ok(None),
        Some(class) => {
            let name = wire_name(alloc, class)?;
            Ok(Some(name))
        }
    }
}

/// The wire of a net, or `None` if the net is missing or has no driver.
fn driven_wire(alloc: Global, design: &Design, net: Option<u32>) -> Result<Option<Name>, AllocError>
    requires { IsNetIn (nets_in design.now) net }
    ensures { IfOk result (λ wire. EachFabric design.now (λ fabric. wire ≡ driven_wire fabric net)) }
{
    match net {
        None => Ok(None),
        Some(net) => net_wire(alloc, design, net),
    }
}

/// The wire that is the asynchronous set or reset of a register, or `None` if it has none.
pub(crate) fn setting_wire(
    alloc: Global,
    design: &Design,
    register: &Register,
) -> Result<Option<Name>, AllocError>
    requires { IsNetIn (nets_in design.now) register.now.sr }
    ensures { IfOk result (λ wire. EachFabric design.now (λ fabric. wire ≡ setting_wire fabric register.now)) }
{
    if register.is_async {
        driven_wire(alloc, design, register.sr)
    } else {
        Ok(None)
    }
}

/// A list of four atoms.
fn four_atoms(
    alloc: Global,
    first: Atom,
    second: Atom,
    third: Atom,
    fourth: Atom,
) -> Result<Atoms, AllocError>
    ensures { IfOk result (λ atoms. atoms ≡ first ∷ second ∷ third ∷ fourth ∷ []) }
{
    let mut atoms = Atoms::new(alloc);
    atoms.push(first)?;
    atoms.push(second)?;
    atoms.push(third)?;
    atoms.push(fourth)?;
    Ok(atoms)
}
