// The parts of the fabric of a database and an image.
ghost use Rattle.std.specs.Prelude.{◌≡◌, ◌++◌, map, IfOk, IfErr, OnOk, slice_get};
ghost use Rattle.ice_image.specs.Either.{configuration_of};
ghost use Rattle.chipdb_reader.specs.Fit.{IsFit};
ghost use Rattle.chipdb_reader.specs.Kept.{database_in};
ghost use Rattle.fabric_model.specs.Registers.{registers_of, flips_among, pin_registers_of};
ghost use Rattle.fabric_model.specs.Fabric.{fabric_with};
ghost use Rattle.fabric_model.specs.Faults.{design_fault};
ghost use Rattle.fabric_wiring.specs.Parts.{ArePartsOf, buffer_of};
ghost use Rattle.fabric.specs.Faults.{IsCause, AreTaken};
ghost use Rattle.fabric.specs.Buffers.{buffer_if, buffers_at};

use crate::fault::FabricFault;
use chipdb_reader::{ChipDb, LinkLine};
use fabric_model::{FabricOptions, LogicCell, LutInputs, Pin, Register, links};
use fabric_parts::{cells, pin_registers, pins, rams};
use fabric_plls::plls;
use fabric_wiring::{Buffer, Parts, registers_of};
use ice_image::AnyImage;
use std::alloc::{AllocError, Global};

/// Appends the buffer of the line with an index, if there is one.
fn append_buffer(
    buffers: &mut Vec<Buffer>,
    lines: &[LinkLine],
    place: u32,
) -> Result<(), AllocError>
    ensures { OnOk result (map buffer_of buffers.new.items ≡ map buffer_of buffers.old.items ++ buffer_if place (slice_get lines.now place)) }
{
    if let Some(line) = lines.get(place as usize) {
        buffers.push(Buffer {
            line: place,
            src: line.src,
            dst: line.dst,
        })?;
    }
    Ok(())
}

/// The buffers of a database that have these indexes.
fn buffers(alloc: Global, db: &ChipDb, places: &[u32]) -> Result<Vec<Buffer>, AllocError>
    ensures buffers { IfOk result (λ buffers. map buffer_of buffers.items ≡ buffers_at db.now.buffers places.now) }
    ensures fit { IsFit (database_in db.now) }
{
    let lines = db.buffers();
    let mut buffers = Vec::with_capacity(alloc, places.len())?;
    for place in places {
        append_buffer(&mut buffers, lines, *place)?;
    }
    Ok(buffers)
}

/// The registers: the flip-flops of cells, whose LUTs read these inputs, then the registers of pins.
fn registers(
    alloc: Global,
    inputs: LutInputs,
    lcs: &[LogicCell],
    pins: &[Pin],
) -> Result<Vec<Register>, AllocError>
    ensures { IfOk result (λ registers. registers.items ≡ registers_of inputs lcs.now ++ pin_registers_of (flips_among lcs.now) pins.now) }
{
    let mut registers = registers_of(alloc, inputs, lcs)?;
    let flips = registers.len();
    registers.extend_from_slice(&pin_registers(alloc, flips, pins)?)?;
    Ok(registers)
}

/// Finds the parts, or the first cause why they aren't taken.
pub(crate) fn parts(
    alloc: Global,
    db: &ChipDb,
    image: &AnyImage,
    options: FabricOptions,
) -> Result<Parts, FabricFault>
    ensures parts { IfOk result (ArePartsOf (fabric_with options (database_in db.now) (configuration_of image.now))) }
    ensures options { IfOk result (λ parts. parts.options ≡ options) }
    ensures fit { OnOk result (IsFit (database_in db.now)) }
    ensures taken { OnOk result (AreTaken options.all_pins (database_in db.now) (configuration_of image.now)) }
    ensures refused { IfErr result (IsCause (configuration_of image.now).layout.device (fabric_with options (database_in db.now) (configuration_of image.now)) (design_fault options (database_in db.now) (configuration_of image.now))) }
{
    let links = links(alloc, db, image, options.all_pins)?;
    let sources = plls(alloc, db, image, options.all_pins)?;
    let pins = pins(alloc, db, image, &links, options.all_pins, &sources)?;
    let rams = rams(alloc, db, image, &links)?;
    let cells = cells(alloc, db, image)?;
    let registers = registers(alloc, options.lut_inputs, &cells.lcs, &pins.pins)?;
    let buffers = buffers(alloc, db, links.buffers())?;
    Ok(Parts {
        links,
        buffers,
        pins: pins.pins,
        plls: pins.plls,
        globals: pins.globals,
        options,
        lcs: cells.lcs,
        registers,
        sets: cells.sets,
        rams,
    })
}
