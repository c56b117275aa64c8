//! The Verilog subset: modules, and how they are printed and parsed.
//!
//! A text spells a module if its tokens are the module's tokens; between them may be any spaces, tabs and line ends. [`print`] writes
//! one spelling of a module, item by item. [`parse`] takes exactly the spellings of well-formed modules. Of any other text it returns the
//! first fault: its cause, and the offset of the token at fault.
#![tactic(auto)]

mod again;
mod draft;
mod ending;
mod fault;
mod header;
mod items;
mod modules;
mod name_faults;
mod names;
mod ports;
mod readings;
mod sorts;
mod uses;
mod words;

pub use again::from_own_text;
pub use fault::VlogFault;
pub use modules::parse;
pub use vlog_forms::VlogCause;
pub use vlog_module::{Atom, Atoms, Item, Lut, Module, Name, Port, Right, is_name};
pub use vlog_print::print;
