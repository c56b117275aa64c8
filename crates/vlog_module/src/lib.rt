//! Modules of the Verilog subset: their names, atoms, items and ports.
//!
//! A module is kept as the parts that its text names; what the text repeats is kept once. Every `Module` is well-formed: each name is
//! declared once and is used as what it is declared as, nothing is assigned twice, and each output is assigned.
#![tactic(auto)]

mod atoms;
mod item;
mod modules;
mod name;
mod sort;

pub use atoms::{Atom, Atoms};
pub use item::{Item, Lut, Right};
pub use modules::{Module, Port};
pub use name::{Name, is_name, is_word};
pub use sort::Sort;
