// All drivers.
ghost use Rattle.std.specs.Prelude.{◌≡◌, ◌++◌, map, flat_map, IfOk, OnOk};
ghost use Rattle.fabric_model.specs.Fabric.{Fabric};
ghost use Rattle.fabric_model.specs.Drivers.{drives_of, buffer_drives};
ghost use Rattle.fabric_wiring.specs.Drives.{drive_of};
ghost use Rattle.fabric_wiring.specs.Parts.{buffer_of, ArePartsOf};

use crate::cells::{append_carries, append_louts, append_luts, append_sets};
use crate::drive::{Drive, Rule};
use crate::inner_nets::{append_each_data, append_pads};
use crate::parts::{Buffer, Parts};
use crate::pins::{append_backs, append_globals, append_pins, append_plls};
use crate::push::push_if;
use crate::rams::append_rams;
use crate::registers::{append_flips, append_inputs, append_seconds, flip_count};
use fabric_model::{Driver, PinSignals};
use std::alloc::{AllocError, Global};

/// Appends what buffers drive: their destinations.
fn append_buffers(drives: &mut Vec<Drive>, buffers: &[Buffer]) -> Result<(), AllocError>
    ensures { OnOk result (map drive_of drives.new.items ≡ map drive_of drives.old.items ++ flat_map buffer_drives (map buffer_of buffers.now)) }
{
    for buffer in buffers {
        let driver = Driver::Link { line: buffer.line };
        push_if(drives, driver, Rule::Copied(buffer.src), Some(buffer.dst))?;
    }
    Ok(())
}

/// All drivers of a fabric, in their order.
pub(crate) fn all_drives(alloc: Global, parts: &Parts) -> Result<Vec<Drive>, AllocError>
    ensures { IfOk result (λ drives. (fabric : Fabric) → ArePartsOf fabric parts.now → map drive_of drives.items ≡ drives_of fabric) }
{
    let signals = PinSignals::new(alloc, flip_count(&parts.lcs), &parts.pins, &parts.plls)?;
    let mut drives = Vec::new(alloc);
    append_pins(&mut drives, &signals, &parts.pins)?;
    append_backs(&mut drives, &signals, &parts.pins)?;
    append_luts(&mut drives, parts.options.lut_inputs, &parts.lcs)?;
    append_flips(&mut drives, &parts.registers)?;
    append_louts(&mut drives, parts.options.lut_inputs, &parts.lcs)?;
    append_carries(&mut drives, &parts.lcs)?;
    append_sets(&mut drives, &parts.sets)?;
    append_rams(&mut drives, &parts.rams)?;
    append_globals(&mut drives, &signals, &parts.globals)?;
    append_buffers(&mut drives, &parts.buffers)?;
    append_inputs(&mut drives, &parts.registers)?;
    append_seconds(&mut drives, &parts.registers)?;
    append_each_data(&mut drives, &signals, &parts.pins)?;
    append_pads(&mut drives, &signals, &parts.pins)?;
    append_plls(&mut drives, &signals, &parts.plls)?;
    Ok(drives)
}
