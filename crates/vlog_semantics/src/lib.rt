//! The run of a module over events, as definitions; and a module of the Verilog subset over numbered slots, with its names resolved: the
//! slots of its names, and its items over these slots.
#![tactic(auto)]

mod build;
mod event;
mod gates;
mod layout;
mod named;
mod names;
mod places;
mod plan;
mod planning;
mod slots;
mod steps;

pub use event::Event;
pub use gates::{Gate, operand_cell};
pub use layout::{SlotLayout, Start, lay_out, pins_of};
pub use places::Places;
pub use plan::{
    Edge, Field, FlipFlop, Kept, Memory, MemoryPort, Operand, Plan, Read, Rule, Settle, Table,
    Taken, Wire, Write, Written,
};
pub use slots::Slots;
pub use steps::{bit_at, bit_of, copy_bits, copy_words, is_edge_of, set_bit, word_at, word_in};
