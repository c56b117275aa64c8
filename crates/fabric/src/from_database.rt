// The design of a database and an image.
ghost use Rattle.std.specs.Prelude.{◌≡◌, ℕ, Bool, List, IfOk, IfErr, OnOk, None};
ghost use Rattle.ice_image.specs.Either.{configuration_of};
ghost use Rattle.chipdb_reader.specs.Kept.{database_in};
ghost use Rattle.fabric_model.specs.Fabric.{fabric_with, fabric_of, no_options, reading_all};
ghost use Rattle.fabric_model.specs.Values.{State, IsConsistent};
ghost use Rattle.fabric_model.specs.Joins.{class_of};
ghost use Rattle.fabric_model.specs.Clocks.{LeadsTo, clock_end};
ghost use Rattle.fabric_model.specs.Steps.{Event, IsRun};
ghost use Rattle.fabric_model.specs.Unique.{ExactlyOne};
ghost use Rattle.fabric_model.specs.Faults.{design_fault};
ghost use Rattle.fabric.specs.Clocks.{HasClocks};
ghost use Rattle.fabric.specs.Design.{IsDesignOf};
ghost use Rattle.fabric.specs.Faults.{IsCause};

use crate::design_type::Design;
use crate::fault::FabricFault;
use crate::parts::parts;
use crate::wire::wire;
use chipdb_reader::ChipDb;
use fabric_model::{FabricOptions, LutInputs, inputs_with};
use ice_image::AnyImage;
use std::alloc::Global;

/// Finds the design of a database and an image. The LUTs read all of their inputs.
///
/// For each state and all values of the input pins there is exactly one list of net values that is consistent with them, and for each
/// list of events exactly one run. With all consistent values, and so in each entry of a run, the clock of a register or RAM port has the
/// value of its input port, or the inverse of it, or a bit that is always the same.
///
/// # Errors
/// The first cause why the two aren't taken, in the order of [`FabricFault`], with the first tile, pin, class of joined nets or clock user
/// that has it. `FabricFault::Memory` if memory is out, in place of any other answer.
///
/// # Example
/// ```ignore
/// let db = chipdb_reader::read(alloc, db_bytes)?;
/// let file = asc_text::read(alloc, asc_bytes)?;
/// match fabric::design(alloc, &db, &file.image) {
///     Ok(design) => use_cells(design.lcs()),
///     Err(FabricFault::Loop { net, cycle }) => tell_cycle(net, cycle.nets()),
///     Err(fault) => tell_fault(&fault),
/// }
/// ```
pub fn design(alloc: Global, db: &ChipDb, image: &AnyImage) -> Result<Design, FabricFault>
    ensures design { IfOk result (IsDesignOf (database_in db.now) (configuration_of image.now)) }
    ensures options { IfOk result (λ design. design.parts.options ≡ no_options) }
    ensures taken { OnOk result (design_fault no_options (database_in db.now) (configuration_of image.now) ≡ None) }
    ensures refused { IfErr result (IsCause (configuration_of image.now).layout.device (fabric_of (database_in db.now) (configuration_of image.now)) (design_fault no_options (database_in db.now) (configuration_of image.now))) }
    ensures one_value { OnOk result ((state : State) (pins : List Bool) → ExactlyOne (IsConsistent (fabric_of (database_in db.now) (configuration_of image.now)) state pins)) }
    ensures chains { OnOk result ((net : ℕ) → LeadsTo (fabric_of (database_in db.now) (configuration_of image.now)) (class_of (fabric_of (database_in db.now) (configuration_of image.now)).joins net) (clock_end (fabric_of (database_in db.now) (configuration_of image.now)) net)) }
    ensures clocks { OnOk result ((state : State) (pins v : List Bool) → IsConsistent (fabric_of (database_in db.now) (configuration_of image.now)) state pins v → HasClocks (fabric_of (database_in db.now) (configuration_of image.now)) state pins v) }
    ensures one_run { OnOk result ((events : List Event) → ExactlyOne (IsRun (fabric_of (database_in db.now) (configuration_of image.now)) events)) }
{
    let options = FabricOptions {
        lut_inputs: LutInputs::All,
        all_pins: false,
        register_clocks: false,
    };
    design_with(alloc, db, image, options)
}

/// Finds the design of a database and an image with these options.
///
/// Without pins of every kind only those are taken that the fabric can read and write as they are, and no PLL; with them the others have
/// registers and inner nets, and the outputs of PLLs are input ports.
///
/// If LUTs read only the inputs that they use, a LUT doesn't depend on its other inputs. So more designs are taken, since an input that
/// isn't used closes no cycle. The values of nets, the runs and the clocks are still those of the fabric whose LUTs read all inputs.
///
/// If registers may be clocks, the clock of a register or RAM port may also come from a register, as that of a divider does: straight, along
/// links and global networks, or through LUTs that follow one net. It has the value of that register, or the inverse of it. A value that is
/// computed from a register then also depends on the register that is the clock of that one, if there is one, and comes after it in the write
/// order. Without such a clock the write order is the same with this option and without it.
///
/// # Errors
/// As for [`design`]. A cycle is one of the fabric with these options: of the logic alone if there is one, else one that also goes by
/// registers that are clocks.
///
/// # Example
/// ```ignore
/// // A cycle through an input that its LUT doesn't use is no cycle here.
/// let options = FabricOptions { lut_inputs: LutInputs::Used, all_pins: false, register_clocks: false };
/// let design = fabric::design_with(alloc, &db, &image, options)?;
/// for class in design.order() {
///     write_wire(*class, design.drive(*class));
/// }
/// ```
pub fn design_with(
    alloc: Global,
    db: &ChipDb,
    image: &AnyImage,
    options: FabricOptions,
) -> Result<Design, FabricFault>
    ensures design { IfOk result (IsDesignOf (database_in db.now) (configuration_of image.now)) }
    ensures options { IfOk result (λ design. design.parts.options ≡ options) }
    ensures taken { OnOk result (design_fault options (database_in db.now) (configuration_of image.now) ≡ None) }
    ensures refused { IfErr result (IsCause (configuration_of image.now).layout.device (fabric_with options (database_in db.now) (configuration_of image.now)) (design_fault options (database_in db.now) (configuration_of image.now))) }
    ensures one_value { OnOk result ((state : State) (pins : List Bool) → ExactlyOne (IsConsistent (fabric_with (reading_all options) (database_in db.now) (configuration_of image.now)) state pins)) }
    ensures chains { OnOk result ((net : ℕ) → LeadsTo (fabric_with (reading_all options) (database_in db.now) (configuration_of image.now)) (class_of (fabric_with (reading_all options) (database_in db.now) (configuration_of image.now)).joins net) (clock_end (fabric_with (reading_all options) (database_in db.now) (configuration_of image.now)) net)) }
    ensures origins { OnOk result ((net : ℕ) → clock_end (fabric_with options (database_in db.now) (configuration_of image.now)) net ≡ clock_end (fabric_with (reading_all options) (database_in db.now) (configuration_of image.now)) net) }
    ensures clocks { OnOk result ((state : State) (pins v : List Bool) → IsConsistent (fabric_with (reading_all options) (database_in db.now) (configuration_of image.now)) state pins v → HasClocks (fabric_with (reading_all options) (database_in db.now) (configuration_of image.now)) state pins v) }
    ensures one_run { OnOk result ((events : List Event) → ExactlyOne (IsRun (fabric_with (reading_all options) (database_in db.now) (configuration_of image.now)) events)) }
{
    let parts = parts(alloc, db, image, options)?;
    prove!(db.device().is_same(image.device()));
    let wired = wire(alloc, db, image, &parts)?;
    let inputs = inputs_with(alloc, &parts.pins, &parts.plls)?;
    Ok(Design::of(
        parts,
        inputs,
        wired.outputs,
        wired.drivers,
        wired.order,
        wired.ends,
        wired.words,
    ))
}
