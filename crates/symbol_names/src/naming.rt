// Names for the wires of a design's module.
ghost use Rattle.std.specs.Prelude.{◌≡◌, ℕ, List, IfOk, OnOk};
ghost use Rattle.ice_image.specs.Configuration.{Configuration};
ghost use Rattle.chipdb_reader.specs.Database.{Database};
ghost use Rattle.vlog_module.specs.Parts.{Parts};
ghost use Rattle.fabric_model.specs.Fabric.{fabric_with};
ghost use Rattle.fabric_model.specs.Links.{class_in};
ghost use Rattle.fabric.specs.Design.{IsDesignOf};
ghost use Rattle.fabric_module.specs.Names.{wire_name};
ghost use Rattle.wire_names.specs.Lists.{with_free};
ghost use Rattle.wire_names.specs.Naming.{Names};
ghost use Rattle.symbol_names.specs.Symbols.{symbol_names};

use asc_text::Symbol;
use fabric::Design;
use fabric_module::wire_name;
use std::alloc::{AllocError, Global};
use vlog_module::Module;
use wire_names::{Naming, WireNames};

/// Names for the wires of a module that is written for a design, by the symbols of the design's text. The module's ports may have names of
/// their own.
///
/// A wire is called as the first symbol whose net is in the wire's class of joined nets, and whose name is free. A name is free if the
/// module doesn't declare it and no other wire has it. As a router gives one name to all parts of a net, which buffers separate, the first of
/// these parts in the text gets it.
///
/// # Errors
/// `AllocError` if memory is out, and for no other cause.
///
/// # Example
/// ```ignore
/// let module = vlog_emit::emit(alloc, &design, b"chip")?;
/// let names = symbol_names::symbol_names(alloc, &design, &module, &file.symbols)?;
/// save(names.text()?); // lines such as `n_4711 uart.tx_state[2]`
/// ```
pub fn symbol_names(
    alloc: Global,
    design: &Design,
    module: &Module,
    symbols: &[Symbol],
) -> Result<WireNames, AllocError>
    ensures { IfOk result (λ names. (db : Database) (image : Configuration) → IsDesignOf db image design.now
        → names ≡ symbol_names «module».now (fabric_with design.now.parts.options db image).joins symbols.now) }
{
    let mut naming = Naming::new(alloc, module)?;
    for symbol in symbols {
        offer(alloc, design, &mut naming, symbol)?;
    }
    Ok(naming.finish())
}

/// Offers the name of a symbol to the wire of its net.
fn offer<'a>(
    alloc: Global,
    design: &Design,
    naming: &mut Naming<'a>,
    symbol: &'a Symbol,
) -> Result<(), AllocError>
    ensures { OnOk result ((m : Parts) (earlier : List (List ℕ × List ℕ)) → Names m earlier naming.old
        → Names m (with_free m earlier (wire_name (class_in design.now.parts.links symbol.now.net), symbol.now.name)) naming.new) }
{
    let wire = wire_name(alloc, class_at(design, symbol.net))?;
    naming.offer(wire.bytes(), symbol.name.bytes())
}

/// The class of joined nets of a net, or the number itself if there is no such net.
fn class_at(design: &Design, net: u32) -> u32
    ensures { result ≡ class_in design.now.parts.links net }
{
    if (net as usize) < design.net_count() {
        design.class_of(net)
    } else {
        net
    }
}
