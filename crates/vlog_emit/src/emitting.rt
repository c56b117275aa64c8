// The module of a design.
ghost use Rattle.std.specs.Prelude.{◌≡◌, ◌++◌, map, flat_map, IfOk, OnOk};
ghost use Rattle.ice_image.specs.Configuration.{Configuration};
ghost use Rattle.chipdb_reader.specs.Database.{Database};
ghost use Rattle.vlog_module.specs.Names.{IsName};
ghost use Rattle.fabric_model.specs.Fabric.{fabric_with};
ghost use Rattle.fabric_model.specs.Outputs.{outputs_of};
ghost use Rattle.fabric.specs.Design.{IsDesignOf};
ghost use Rattle.fabric_module.specs.Written.{register_item, read_register, ram_memory, class_wire, output_assign, register_items, read_items, write_items, items_of, module_of};
ghost use Rattle.vlog_emit.specs.Each.{EachFabric};
ghost use Rattle.vlog_emit.specs.Runs.{RunsAs};

use crate::sections::{
    append_memories, append_outputs, append_reads, append_register_items, append_registers,
    append_starts, append_wires, append_words, append_writes, ports_of,
};
use fabric::Design;
use fabric_module::module_is_fabric;
use std::alloc::{AllocError, Global};
use vlog_module::{Item, Module, Name};

/// Appends the items that hold state: the registers, and the read registers and the memories of RAMs.
fn append_state(alloc: Global, design: &Design, items: &mut Vec<Item>) -> Result<(), AllocError>
    ensures { OnOk result (items.new.items ≡ items.old.items ++ (map register_item design.now.parts.registers.items ++ (map read_register design.now.parts.rams.items ++ map ram_memory design.now.parts.rams.items))) }
{
    append_registers(alloc, design.registers(), items)?;
    append_words(alloc, design.rams(), items)?;
    append_memories(alloc, design.rams(), items)
}

/// Appends the items that have a value: the wires in their order, and the outputs.
fn append_values(alloc: Global, design: &Design, items: &mut Vec<Item>) -> Result<(), AllocError>
    ensures { OnOk result (EachFabric design.now (λ fabric. items.new.items ≡ items.old.items ++ (map (class_wire fabric) design.now.order ++ map (output_assign fabric) (outputs_of fabric)))) }
{
    append_wires(alloc, design, design.order(), items)?;
    append_outputs(alloc, design, design.outputs(), items)
}

/// Appends the items that change the state: those of the registers, and of the ports of RAMs.
fn append_changes(alloc: Global, design: &Design, items: &mut Vec<Item>) -> Result<(), AllocError>
    ensures { OnOk result (EachFabric design.now (λ fabric. items.new.items ≡ items.old.items ++ (flat_map (register_items fabric) fabric.registers ++ (flat_map (read_items fabric) fabric.rams ++ flat_map (write_items fabric) fabric.rams)))) }
{
    let rams = design.rams();
    append_register_items(alloc, design, design.registers(), items)?;
    append_reads(alloc, design, rams, items)?;
    append_writes(alloc, design, rams, items)
}

/// The items of a design.
fn items_of(alloc: Global, design: &Design) -> Result<Vec<Item>, AllocError>
    ensures { IfOk result (λ items. EachFabric design.now (λ fabric. items.items ≡ items_of fabric design.now.order)) }
{
    let mut items = Vec::new(alloc);
    append_state(alloc, design, &mut items)?;
    append_values(alloc, design, &mut items)?;
    append_changes(alloc, design, &mut items)?;
    append_starts(alloc, design, design.rams(), &mut items)?;
    Ok(items)
}

/// The module of a design, under a name.
///
/// It runs as the fabric that the database and the image configure: at the start and after each event the two hold the same values.
/// Its ports are the pins and the outputs of PLLs, its registers and memories are the state of registers and RAMs, and its wires are the classes of joined nets
/// that have a driver, in the order of [`Design::order`]. If the LUTs of the design read only the inputs that they use, each other input
/// of a LUT is written as 0.
///
/// # Errors
/// `AllocError` if memory is out, and for no other cause.
///
/// # Example
/// ```ignore
/// let design = fabric::design(alloc, &db, &image)?;
/// if vlog_module::is_name(name) {
///     let module = vlog_emit::emit(alloc, &design, name)?;
///     let text = vlog_print::print(alloc, &module)?;
///     save(text.as_slice());
/// }
/// ```
pub fn emit(alloc: Global, design: &Design, name: &[u8]) -> Result<Module, AllocError>
    requires { IsName name.now }
    ensures name { IfOk result (λ made. made.name ≡ name.now) }
    ensures made { IfOk result (λ made. (db : Database) (image : Configuration) → IsDesignOf db image design.now → made ≡ module_of (fabric_with design.now.parts.options db image) design.now.order name.now) }
    ensures runs { IfOk result (λ made. (db : Database) (image : Configuration) → IsDesignOf db image design.now → RunsAs design.now.parts.options db image made) }
{
    // Its clause says that the module is well-formed and runs as the fabric.
    module_is_fabric();
    let ports = ports_of(alloc, design.pins(), design.plls())?;
    let items = items_of(alloc, design)?;
    let name = Name::new(alloc, name)?;
    Ok(Module::of(name, ports, items))
}
