//! What an image sets of a chip database, and the rules of the fabric that it configures.
//!
//! The definitions are in specs/: which functions, links and extra bits an image sets, what its nets, cells, RAMs, pins, PLLs and global
//! nets are, what drives each net and with which value, how the state changes at an event, and for which cause a database and an
//! image aren't taken. They say what holds, and not in which order it is computed.
//!
//! The code reads what is on: [`links`] finds the links that an image sets, the classes of joined nets and the nets that are read,
//! and [`is_on`], [`is_any_on`] and [`function_bits`] look functions up at a tile. The calls of [`Links`] allocate no memory.
//!
//! [`narrow_rams_are_memories`] is a law of the definitions: in each run a used RAM in a narrow mode works as a memory of narrow words.
#![tactic(auto)]

mod cell;
mod cell_bits;
mod classes;
mod clock_lut;
mod driver;
mod fault;
mod found_links;
mod functions;
mod input_port;
mod input_ports;
mod law;
mod links_type;
mod lut_inputs;
mod on;
mod options;
mod pin;
mod pin_nets;
mod pin_signals;
mod pll;
mod ram;
mod reads;
mod register;
mod short_text;
mod signal;
mod some_read;
mod tiles;

pub use cell::{CarrySet, LogicCell};
pub use cell_bits::{
    ASYNC_SET_RESET, CARRY_ENABLE, DFF_ENABLE, SET_NO_RESET, cell_name, cell_places, flags,
    is_one_set, lut,
};
pub use clock_lut::{LutPass, pass_of};
pub use driver::{ClockUser, Driver};
pub use fault::LinkFault;
pub use found_links::links;
pub use functions::{are_set, begins_and_is_on, function_bits, is_any_on, is_on, listed_bit};
pub use input_port::InputPort;
pub use input_ports::{has_input, has_outside, input_place, inputs, inputs_with, pll_input};
pub use law::narrow_rams_are_memories;
pub use links_type::Links;
pub use lut_inputs::{LutInputs, inputs_read};
pub use on::{is_link_on, place_of};
pub use options::FabricOptions;
pub use pin::{GlobalFrom, GlobalNet, PadData, PadDrive, PadInput, Pin};
pub use pin_nets::{io_net, is_pin_at, is_pll_place};
pub use pin_signals::{PinSignals, registers_in};
pub use pll::{PllOutput, PllSource, PllType};
pub use ram::RamCell;
pub use register::{LutTable, PinRegister, Register, RegisterKind};
pub use short_text::ShortText;
pub use signal::{Signal, net_or_0, net_or_1};
pub use some_read::is_some_read;
pub use tiles::tiles_of_image;
