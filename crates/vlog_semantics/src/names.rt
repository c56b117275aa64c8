// The names of a module: their slots, and the start values in these.
ghost use Rattle.std.specs.Prelude.{◌≡◌, IfOk};

use crate::build::{add_registers, add_wires, inputs_of, memories_of, words_of};
use crate::named::Named;
use crate::places::Places;
use crate::plan::{Memory, Wire};
use crate::slots::Slots;
use std::alloc::{AllocError, Global};
use vlog_module::Module;

/// The slots of a module's names, and the values in them. Wires have no values yet.
#[derive(Drop)]
pub(crate) struct Names {
    pub(crate) places: Places,
    /// How many inputs there are; they have the first slots.
    pub(crate) input_count: usize,
    /// The slot of the first wire. The registers of one bit come between the inputs and it.
    pub(crate) first_wire: usize,
    pub(crate) bits: Vec<bool>,
    pub(crate) words: Vec<u16>,
    pub(crate) memories: Vec<Memory>,
    pub(crate) wires: Vec<Wire>,
}

ghost use Rattle.vlog_semantics.specs.Begun.{IsBegun};

/// Resolves the names of a module.
pub(crate) fn names_of(alloc: Global, module: &Module) -> Result<Names, AllocError>
    ensures { IfOk result (IsBegun «module».now) }
{
    let items = module.items();
    let pins = inputs_of(alloc, module.ports())?;
    let mut bits = inputs_of(alloc, module.ports())?;
    let input_count = bits.values.len();
    let mut registers = Slots::new(alloc);
    add_registers(&mut bits, &mut registers, items)?;
    let first_wire = bits.values.len();
    let words = words_of(alloc, items)?;
    let memories = memories_of(alloc, items)?;
    let mut wires = Vec::new(alloc);
    add_wires(&mut bits, &words.slots, &mut wires, items)?;
    Ok(Names {
        places: Places {
            pins: pins.slots,
            bits: bits.slots,
            registers,
            words: words.slots,
            memories: memories.slots,
        },
        input_count,
        first_wire,
        bits: bits.values,
        words: words.values,
        memories: memories.values,
        wires,
    })
}
