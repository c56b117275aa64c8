// The module of a design with given names.
ghost use Rattle.std.specs.Prelude.{◌≡◌, IfOk};
ghost use Rattle.ice_image.specs.Configuration.{Configuration};
ghost use Rattle.chipdb_reader.specs.Database.{Database};
ghost use Rattle.vlog_module.specs.Names.{IsName};
ghost use Rattle.fabric_model.specs.Fabric.{fabric_with};
ghost use Rattle.fabric.specs.Design.{IsDesignOf};
ghost use Rattle.fabric_module.specs.Written.{module_of};
ghost use Rattle.port_names.specs.Named.{AreAccepted, named_module};
ghost use Rattle.port_names.specs.NamedLaw.{RunsNamed};

use crate::naming::port_renaming;
use crate::renamed::rename_ports;
use fabric::Design;
use pin_file::PinName;
use std::alloc::{AllocError, Global};
use vlog_module::Module;

/// The module that is written for a design, with the names of a pin file for its ports. `written` is the module that `vlog_emit::emit`
/// gives for the design. `named` are the names that `pin_file::pin_names` reads from a pin file, for the pins that [`crate::port_pins`]
/// gives for the same design.
///
/// The port of a pin gets the name that the pin file gives to the pin, its output enable that name with `_en` after it, and its input from
/// outside that name with `_in` after it. All other names stay. The module runs as the fabric that the database and the image configure: at the start and after each event the two
/// hold the same values.
///
/// # Errors
/// `AllocError` if memory is out, and for no other cause.
///
/// # Example
/// ```ignore
/// // `pins` are the pins of a package, from a `pin_file::PinReader`; `pcf` is the text of a pin file.
/// let written = vlog_emit::emit(alloc, &design, b"chip")?;
/// let ports = port_names::port_pins(alloc, &design)?;
/// let named = pin_file::pin_names(alloc, pcf, &pins, &ports)?;
/// let module = port_names::name_ports(alloc, &design, written, &named)?;
/// ```
pub fn name_ports(
    alloc: Global,
    design: &Design,
    written: Module,
    named: &[PinName],
) -> Result<Module, AllocError>
    requires written { (db : Database) (image : Configuration) → IsDesignOf db image design.now → written ≡ module_of (fabric_with design.now.parts.options db image) design.now.order written.name }
    requires name { IsName written.name }
    requires accepted { AreAccepted design.now.parts.pins.items named.now }
    ensures made { IfOk result (λ made. (db : Database) (image : Configuration) → IsDesignOf db image design.now → made ≡ named_module named.now (fabric_with design.now.parts.options db image) design.now.order written.name) }
    ensures runs { IfOk result (λ made. (db : Database) (image : Configuration) → IsDesignOf db image design.now → RunsNamed named.now design.now.parts.options db image made) }
{
    let names = port_renaming(alloc, design.pins(), named)?;
    rename_ports(alloc, written, &names)
}
