// Modules with new names, which are put in place of the old ones.
ghost use Rattle.std.specs.Prelude.{◌≡◌, IfOk, OnOk, map};
ghost use Rattle.std.specs.List.{list_any};
ghost use Rattle.port_names.specs.Fresh.{IsFresh};
ghost use Rattle.port_names.specs.Listed.{given_by, has_listed};
ghost use Rattle.port_names.specs.Renamed.{renamed, renamed_atom, renamed_atoms, renamed_item, renamed_lut, renamed_port, renamed_right};

use crate::renaming::Renaming;
use std::alloc::{AllocError, Global};
use vlog_module::{Atom, Atoms, Item, Lut, Module, Name, Port, Right};

/// The module with new names: the old name of each pair is replaced by the new one, wherever it occurs.
///
/// # Errors
/// `AllocError` if memory is out, and for no other cause.
pub fn rename_ports(
    alloc: Global,
    module: Module,
    names: &[(Name, Name)],
) -> Result<Module, AllocError>
    requires { IsFresh names.now «module» }
    ensures { IfOk result (λ done. done ≡ renamed names.now «module») }
{
    let renaming = Renaming::of(alloc, names)?;
    let (name, mut ports, mut items) = module.into_parts();
    rename_all_ports(&renaming, &mut ports)?;
    rename_items(&renaming, &mut items)?;
    Ok(Module::of(name, ports, items))
}

/// Replaces the names of ports.
fn rename_all_ports(renaming: &Renaming, ports: &mut [Port]) -> Result<(), AllocError>
    ensures { OnOk result (ports.new ≡ map (renamed_port (given_by renaming.now)) ports.old) }
{
    for port in ports.iter_mut() {
        rename_port(renaming, port)?;
    }
    Ok(())
}

/// Replaces the name of a port.
fn rename_port(renaming: &Renaming, port: &mut Port) -> Result<(), AllocError>
    ensures { OnOk result (port.new ≡ renamed_port (given_by renaming.now) port.old) }
{
    renaming.rename(&mut port.name)
}

/// Replaces the names in items.
fn rename_items(renaming: &Renaming, items: &mut [Item]) -> Result<(), AllocError>
    ensures { OnOk result (items.new ≡ map (renamed_item (given_by renaming.now)) items.old) }
{
    for item in items.iter_mut() {
        rename_item(renaming, item)?;
    }
    Ok(())
}

/// Replaces the names in an item.
fn rename_item(renaming: &Renaming, item: &mut Item) -> Result<(), AllocError>
    ensures { OnOk result (item.new ≡ renamed_item (given_by renaming.now) item.old) }
{
    match item {
        Item::Register { name, .. } => renaming.rename(name),
        Item::Word { name, .. } => renaming.rename(name),
        Item::Memory { name } => renaming.rename(name),
        Item::Wire { name, right } => {
            rename_right(renaming, right)?;
            renaming.rename(name)
        }
        Item::Assign { name, value } => {
            renaming.rename(name)?;
            rename_atom(renaming, value)
        }
        Item::FlipFlop {
            clock,
            enable,
            reset,
            target,
            lut,
            ..
        } => {
            rename_two(renaming, clock, target)?;
            rename_atom(renaming, enable)?;
            rename_atom(renaming, reset)?;
            rename_lut(renaming, lut)
        }
        Item::AsyncFlipFlop {
            clock,
            reset,
            target,
            enable,
            lut,
            ..
        } => {
            rename_two(renaming, clock, reset)?;
            renaming.rename(target)?;
            rename_atom(renaming, enable)?;
            rename_lut(renaming, lut)
        }
        Item::AsyncReset { reset, target, .. } => rename_two(renaming, reset, target),
        Item::Read {
            clock,
            clock_enable,
            enable,
            target,
            memory,
            address,
            ..
        } => {
            rename_access(renaming, clock, clock_enable, enable, memory, address)?;
            renaming.rename(target)
        }
        Item::ReadNarrow {
            clock,
            clock_enable,
            enable,
            target,
            memory,
            address,
            shift,
            ..
        } => {
            rename_access(renaming, clock, clock_enable, enable, memory, address)?;
            renaming.rename(target)?;
            rename_atoms(renaming, shift)
        }
        Item::Write {
            clock,
            clock_enable,
            enable,
            memory,
            address,
            mask,
            bits,
            ..
        } => {
            rename_access(renaming, clock, clock_enable, enable, memory, address)?;
            rename_atoms(renaming, mask)?;
            rename_atoms(renaming, bits)
        }
        Item::WriteNarrow {
            clock,
            clock_enable,
            enable,
            memory,
            address,
            shift,
            bits,
            ..
        } => {
            rename_access(renaming, clock, clock_enable, enable, memory, address)?;
            rename_atoms(renaming, shift)?;
            rename_atoms(renaming, bits)
        }
        Item::Start { memory, .. } => renaming.rename(memory),
    }
}

/// Replaces two names.
fn rename_two(renaming: &Renaming, one: &mut Name, other: &mut Name) -> Result<(), AllocError>
    ensures one { OnOk result (one.new ≡ given_by renaming.now one.old) }
    ensures other { OnOk result (other.new ≡ given_by renaming.now other.old) }
{
    renaming.rename(one)?;
    renaming.rename(other)
}

/// Replaces the names with which an item reads or writes a memory.
fn rename_access(
    renaming: &Renaming,
    clock: &mut Name,
    clock_enable: &mut Atom,
    enable: &mut Atom,
    memory: &mut Name,
    address: &mut Atoms,
) -> Result<(), AllocError>
    ensures clock { OnOk result (clock.new ≡ given_by renaming.now clock.old) }
    ensures clock_enable { OnOk result (clock_enable.new ≡ renamed_atom (given_by renaming.now) clock_enable.old) }
    ensures enable { OnOk result (enable.new ≡ renamed_atom (given_by renaming.now) enable.old) }
    ensures memory { OnOk result (memory.new ≡ given_by renaming.now memory.old) }
    ensures address { OnOk result (address.new ≡ renamed_atoms (given_by renaming.now) address.old) }
{
    rename_two(renaming, clock, memory)?;
    rename_atom(renaming, clock_enable)?;
    rename_atom(renaming, enable)?;
    rename_atoms(renaming, address)
}

/// Replaces the names in the right-hand side of a wire.
fn rename_right(renaming: &Renaming, right: &mut Right) -> Result<(), AllocError>
    ensures { OnOk result (right.new ≡ renamed_right (given_by renaming.now) right.old) }
{
    match right {
        Right::Bit(_) => Ok(()),
        Right::Whole(name) => renaming.rename(name),
        Right::Part { name, .. } => renaming.rename(name),
        Right::Lut(lut) => rename_lut(renaming, lut),
        Right::Majority { a, b, c } => {
            rename_atom(renaming, a)?;
            rename_atom(renaming, b)?;
            rename_atom(renaming, c)
        }
        Right::Choose { reset, target, .. } => rename_two(renaming, reset, target),
    }
}

/// Replaces the names in a LUT.
fn rename_lut(renaming: &Renaming, lut: &mut Lut) -> Result<(), AllocError>
    ensures { OnOk result (lut.new ≡ renamed_lut (given_by renaming.now) lut.old) }
{
    rename_atoms(renaming, &mut lut.ins)
}

/// Replaces the names in a list of atoms. A list in which no name has a new one stays as it is; any other list is made anew.
fn rename_atoms(renaming: &Renaming, atoms: &mut Atoms) -> Result<(), AllocError>
    ensures { OnOk result (atoms.new ≡ renamed_atoms (given_by renaming.now) atoms.old) }
{
    if names_listed(renaming, atoms) {
        *atoms = atoms_renamed(renaming, atoms)?;
    }
    Ok(())
}

/// Whether a list has an atom whose name has a new one.
fn names_listed(renaming: &Renaming, atoms: &Atoms) -> bool
    ensures { result ≡ list_any (has_listed renaming.now) atoms.now }
{
    for place in 0..atoms.len() {
        if names_one(renaming, atoms.get(place)) {
            return true;
        }
    }
    false
}

/// Whether the name of an atom has a new one.
fn names_one(renaming: &Renaming, atom: &Atom) -> bool
    ensures { result ≡ has_listed renaming.now atom.now }
{
    match atom {
        Atom::Bit(_) => false,
        Atom::Whole(name) => renaming.lists(name),
        Atom::Part { name, .. } => renaming.lists(name),
    }
}

/// A list of atoms with new names.
fn atoms_renamed(renaming: &Renaming, atoms: &Atoms) -> Result<Atoms, AllocError>
    ensures { IfOk result (λ done. done ≡ renamed_atoms (given_by renaming.now) atoms.now) }
{
    let mut renamed = Atoms::new(renaming.alloc());
    for place in 0..atoms.len() {
        renamed.push(atom_renamed(renaming, atoms.get(place))?)?;
    }
    Ok(renamed)
}

/// An atom with its new name.
fn atom_renamed(renaming: &Renaming, atom: &Atom) -> Result<Atom, AllocError>
    ensures { IfOk result (λ done. done ≡ renamed_atom (given_by renaming.now) atom.now) }
{
    match atom {
        Atom::Bit(bit) => Ok(Atom::Bit(*bit)),
        Atom::Whole(name) => Ok(Atom::Whole(renaming.given(name)?)),
        Atom::Part { name, k } => Ok(Atom::Part {
            name: renaming.given(name)?,
            k: *k,
        }),
    }
}

/// Replaces the name of an atom.
fn rename_atom(renaming: &Renaming, atom: &mut Atom) -> Result<(), AllocError>
    ensures { OnOk result (atom.new ≡ renamed_atom (given_by renaming.now) atom.old) }
{
    match atom {
        Atom::Bit(_) => Ok(()),
        Atom::Whole(name) => renaming.rename(name),
        Atom::Part { name, .. } => renaming.rename(name),
    }
}
