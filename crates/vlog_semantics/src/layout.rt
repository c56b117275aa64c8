// A module laid out over slots.
ghost use Rattle.std.specs.Prelude.{◌≡◌, IfOk};
ghost use Rattle.vlog_semantics.specs.Laying.{Begins};
ghost use Rattle.vlog_semantics.specs.Run.{pin_of};
ghost use Rattle.vlog_semantics.specs.Slots.{slot_of};

use crate::build::inputs_of;
use crate::gates::{cells_room, gates_of};
use crate::names::{Names, names_of};
use crate::places::Places;
use crate::plan::{Memory, Plan};
use crate::planning::plan_of;
use crate::slots::Slots;
use std::alloc::{AllocError, Global};
use vlog_module::Module;

/// A module over slots: the slots of its names, and its items.
#[derive(Drop)]
pub struct SlotLayout {
    pub places: Places,
    /// How many inputs there are; they have the first slots.
    pub input_count: usize,
    /// The slot of the first wire. The registers of one bit come between the inputs and it.
    pub first_wire: usize,
    pub plan: Plan,
}

/// A module over slots at its start: the values in the slots. Wires, and asynchronous sets and resets, aren't computed yet.
#[derive(Drop)]
pub struct Start {
    pub layout: SlotLayout,
    pub bits: Vec<bool>,
    pub words: Vec<u16>,
    pub memories: Vec<Memory>,
    /// Room for all cells that wires read.
    pub cells: Vec<bool>,
}

/// Lays a module out over slots. The inputs have the first slots of one bit, in the order of the ports; then come the registers and then
/// the wires, each in the order of the text.
///
/// # Errors
/// `AllocError` if memory is out, and for no other cause.
pub fn lay_out(alloc: Global, module: &Module) -> Result<Start, AllocError>
    ensures { IfOk result (Begins «module».now) }
{
    let names = names_of(alloc, module)?;
    let Names {
        places,
        input_count,
        first_wire,
        bits,
        words,
        memories,
        wires,
    } = names;
    let cells = cells_room(alloc, &bits, &words)?;
    let gates = gates_of(alloc, bits.len(), words.len(), &wires)?;
    let plan = plan_of(alloc, module, &places, gates)?;
    Ok(Start {
        layout: SlotLayout {
            places,
            input_count,
            first_wire,
            plan,
        },
        bits,
        words,
        memories,
        cells,
    })
}

/// The indexes of a module's inputs, by their names.
///
/// # Errors
/// `AllocError` if memory is out, and for no other cause.
pub fn pins_of(alloc: Global, module: &Module) -> Result<Slots, AllocError>
    ensures { IfOk result (λ pins. slot_of pins ≡ pin_of «module».now.ports) }
{
    let inputs = inputs_of(alloc, module.ports())?;
    Ok(inputs.slots)
}
