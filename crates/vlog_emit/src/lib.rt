//! Writes the module of a design: [`emit`] makes the module of the subset that runs as the configured fabric.
#![tactic(auto)]

mod atoms;
mod emitting;
mod items;
mod rights;
mod sections;

pub use emitting::emit;
