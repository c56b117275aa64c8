// What logic cells drive.
ghost use Rattle.std.specs.Prelude.{◌≡◌, ◌∷◌, [], ◌++◌, map, filter, flat_map, not, OnOk};
ghost use Rattle.fabric_model.specs.Drivers.{lut_drives, lout_drives, carry_drives, set_drives};
ghost use Rattle.fabric_wiring.specs.Drives.{drive_of};

use crate::drive::{Drive, Rule};
use crate::push::push_if;
use crate::registers::table_of;
use fabric_model::{CarrySet, Driver, LogicCell, LutInputs};
use std::alloc::AllocError;

/// Appends what a cell drives on `lutff_i/out` if it has no flip-flop.
fn append_lut(drives: &mut Vec<Drive>, inputs: LutInputs, lc: LogicCell) -> Result<(), AllocError>
    ensures { OnOk result (map drive_of drives.new.items ≡ map drive_of drives.old.items ++ flat_map (lut_drives inputs) (filter (λ lc. not lc.flip) (lc ∷ []))) }
{
    if lc.flip {
        return Ok(());
    }
    let driver = Driver::Lut {
        x: lc.x,
        y: lc.y,
        i: lc.i,
    };
    let rule = Rule::TableEntry(table_of(inputs, &lc));
    push_if(drives, driver, rule, lc.out)
}

/// Appends what cells without a flip-flop drive on `lutff_i/out`.
pub(crate) fn append_luts(
    drives: &mut Vec<Drive>,
    inputs: LutInputs,
    lcs: &[LogicCell],
) -> Result<(), AllocError>
    ensures { OnOk result (map drive_of drives.new.items ≡ map drive_of drives.old.items ++ flat_map (lut_drives inputs) (filter (λ lc. not lc.flip) lcs.now)) }
{
    for lc in lcs {
        append_lut(drives, inputs, *lc)?;
    }
    Ok(())
}

/// Appends what cells drive on `lutff_i/lout`.
pub(crate) fn append_louts(
    drives: &mut Vec<Drive>,
    inputs: LutInputs,
    lcs: &[LogicCell],
) -> Result<(), AllocError>
    ensures { OnOk result (map drive_of drives.new.items ≡ map drive_of drives.old.items ++ flat_map (lout_drives inputs) lcs.now) }
{
    for lc in lcs {
        let driver = Driver::LutOut {
            x: lc.x,
            y: lc.y,
            i: lc.i,
        };
        let rule = Rule::TableEntry(table_of(inputs, lc));
        push_if(drives, driver, rule, lc.lout)?;
    }
    Ok(())
}

/// Appends what a cell drives on `lutff_i/cout`, its carry-out, if its carry is on.
fn append_carry(drives: &mut Vec<Drive>, lc: LogicCell) -> Result<(), AllocError>
    ensures { OnOk result (map drive_of drives.new.items ≡ map drive_of drives.old.items ++ flat_map carry_drives (filter (λ lc. lc.carry) (lc ∷ []))) }
{
    if !lc.carry {
        return Ok(());
    }
    let driver = Driver::Carry {
        x: lc.x,
        y: lc.y,
        i: lc.i,
    };
    let rule = Rule::MajorityOf(lc.ins[1], lc.ins[2], lc.cin);
    push_if(drives, driver, rule, lc.cout)
}

/// Appends what cells whose carry is on drive on `lutff_i/cout`.
pub(crate) fn append_carries(drives: &mut Vec<Drive>, lcs: &[LogicCell]) -> Result<(), AllocError>
    ensures { OnOk result (map drive_of drives.new.items ≡ map drive_of drives.old.items ++ flat_map carry_drives (filter (λ lc. lc.carry) lcs.now)) }
{
    for lc in lcs {
        append_carry(drives, *lc)?;
    }
    Ok(())
}

/// Appends what the carry inputs that are set drive.
pub(crate) fn append_sets(drives: &mut Vec<Drive>, sets: &[CarrySet]) -> Result<(), AllocError>
    ensures { OnOk result (map drive_of drives.new.items ≡ map drive_of drives.old.items ++ flat_map set_drives sets.now) }
{
    for set in sets {
        let driver = Driver::CarrySet { x: set.x, y: set.y };
        push_if(drives, driver, Rule::Constant(true), Some(set.net))?;
    }
    Ok(())
}
