// The drivers, the order and the clocks of a fabric.
ghost use Rattle.std.specs.Prelude.{◌≡◌, ◌≤◌, ℕ, map, All, IfOk, IfErr, OnOk, Some, None};
ghost use Rattle.std.specs.List.{flat_map};
ghost use Rattle.plane_map.specs.Layout.{kind_of};
ghost use Rattle.plane_map.specs.declared.tile.TileKind.TheVariants.{RamB};
ghost use Rattle.ice_image.specs.Either.{configuration_of, device_of};
ghost use Rattle.ice_image.specs.Bits.{ram_word_of};
ghost use Rattle.fabric_model.specs.Fabric.{Fabric};
ghost use Rattle.fabric_model.specs.Tiles.{first_of, each_below};
ghost use Rattle.graph_order.specs.Wiring.{IsWriteOrder};
ghost use Rattle.fabric_model.specs.Wiring.{clocked_wiring};
ghost use Rattle.fabric_model.specs.Clocks.{LeadsTo, clock_end};
ghost use Rattle.fabric_model.specs.Faults.{clock_faults, fabric_fault};
ghost use Rattle.fabric_model.specs.Joins.{class_of};
ghost use Rattle.fabric_model.specs.Outputs.{outputs_of};
ghost use Rattle.fabric_wiring.specs.Parts.{ArePartsOf};
ghost use Rattle.fabric_wiring.specs.DriverLists.{AreDriversOf};
ghost use Rattle.fabric_wiring.specs.Ends.{AreEndsOf};
ghost use Rattle.fabric_wiring.specs.Outputs.{output_of};
ghost use Rattle.fabric.specs.Faults.{HasDriversApart, IsCause};

use crate::fault::FabricFault;
use crate::order::{clocked_order, order};
use crate::words::start_words;
use chipdb_reader::ChipDb;
use fabric_wiring::{
    ClockEnd, Drivers, Output, Parts, clock_ends, drivers, first_unclocked, outputs,
};
use ice_image::AnyImage;
use plane_map::DeviceName;
use std::alloc::Global;

/// The drivers of a fabric, the order in which its classes of joined nets are written, where the clock chain from each class ends, its
/// outputs, and the start words of its RAMs.
#[derive(Drop)]
pub(crate) struct Wired {
    pub(crate) drivers: Drivers,
    pub(crate) order: Vec<u32>,
    pub(crate) ends: Vec<ClockEnd>,
    pub(crate) outputs: Vec<Output>,
    pub(crate) words: Vec<u16>,
}

/// Checks that no clock comes from logic. If one does, the error tells the first user of such a clock.
fn clocked(device: DeviceName, parts: &Parts, ends: &[ClockEnd]) -> Result<(), FabricFault>
    ghost fabric: { Fabric }
    requires parts { ArePartsOf fabric parts.now }
    requires ends { AreEndsOf fabric ends.now }
    requires chains { (net : ℕ) → LeadsTo fabric (class_of fabric.joins net) (clock_end fabric net) }
    ensures taken { OnOk result (first_of (clock_faults device fabric) ≡ None) }
    ensures refused { IfErr result (IsCause device fabric (first_of (clock_faults device fabric))) }
{
    match first_unclocked(device, parts, ends) {
        None => Ok(()),
        Some(found) => Err(FabricFault::Clock {
            x: found.x,
            y: found.y,
            user: found.user,
            net: found.net,
        }),
    }
}

/// Finds what follows from the parts of the fabric of a database and an image, or the first cause why it isn't taken.
pub(crate) fn wire(
    alloc: Global,
    db: &ChipDb,
    image: &AnyImage,
    parts: &Parts,
) -> Result<Wired, FabricFault>
    ghost fabric: { Fabric }
    requires parts { ArePartsOf fabric parts.now }
    requires lower { All (λ ram. kind_of (device_of image.now) ram.x ram.y ≡ Some RamB) parts.now.rams.items }
    requires apart { HasDriversApart fabric }
    ensures few { OnOk result (fabric.nets ≤ u32.MAX) }
    ensures drivers { IfOk result (λ wired. AreDriversOf fabric wired.drivers) }
    ensures order { IfOk result (λ wired. IsWriteOrder (clocked_wiring fabric) wired.order.items) }
    ensures ends { IfOk result (λ wired. AreEndsOf fabric wired.ends.items) }
    ensures outputs { IfOk result (λ wired. map output_of wired.outputs.items ≡ outputs_of fabric) }
    ensures words { IfOk result (λ wired. wired.words.items ≡ flat_map (λ ram. each_below 256 (ram_word_of (configuration_of image.now) ram.x ram.y)) parts.now.rams.items) }
    ensures taken { OnOk result (fabric_fault db.now.chip.device fabric ≡ None) }
    ensures refused { IfErr result (IsCause db.now.chip.device fabric (fabric_fault db.now.chip.device fabric)) }
{
    let drivers = drivers(alloc, parts)?;
    let unclocked = order(alloc, parts, &drivers)?;
    let ends = clock_ends(alloc, parts, &drivers, &unclocked)?;
    let order = clocked_order(alloc, parts, &drivers, &ends, unclocked)?;
    clocked(db.device(), parts, &ends)?;
    Ok(Wired {
        drivers,
        order,
        ends,
        outputs: outputs(alloc, parts)?,
        words: start_words(alloc, image, &parts.rams)?,
    })
}
