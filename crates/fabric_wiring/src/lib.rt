//! The wiring of a fabric: what drives each class of joined nets, what each class reads, and where the clocks come from.
//!
//! [`registers_of`] makes the registers of cells, and [`drivers`] and [`outputs`] find the drivers and the outputs from the parts of a
//! fabric. [`wires`] makes a mark and a row for each class, of which `graph_order` finds the topological order, and [`clocked_wires`] does so
//! if registers that are clocks count. [`wires`], [`clocked_wires`] and [`clock_ends`] go over the drivers, and [`first_unclocked`] and
//! [`has_register_clocks`] over the registers and RAMs. The calls of [`Drivers`] take no memory.
#![tactic(auto)]

mod cells;
mod clocking;
mod drive;
mod drivers_type;
mod ends;
mod every_driver;
mod fault;
mod gather;
mod inner_nets;
mod output_pins;
mod parts;
mod pins;
mod places;
mod push;
mod rams;
mod reading;
mod registers;
mod twice;
mod users;
mod wires_type;

pub use clocking::{clocked_wires, has_register_clocks};
pub use drive::{Drive, Rule};
pub use drivers_type::Drivers;
pub use ends::{ClockEnd, clock_ends};
pub use fault::DriverFault;
pub use gather::drivers;
pub use output_pins::{Output, outputs};
pub use parts::{Buffer, Parts};
pub use reading::wires;
pub use registers::registers_of;
pub use users::{Unclocked, first_unclocked};
pub use wires_type::Wires;
