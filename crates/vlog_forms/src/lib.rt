//! The forms of the Verilog subset: how each item of a module is written.
//!
//! A form is a list of slots, and the same list is used to print and to parse. Signs and reserved words stand for themselves, a slot
//! for a value takes one value of its kind, and a repeat has the tokens of an earlier value.
#![tactic(auto)]

mod fault;
mod form;
mod slot;
mod table;
mod value;

pub use fault::VlogCause;
pub use form::Form;
pub use slot::{Role, Slot};
pub use table::slots;
pub use value::Value;
