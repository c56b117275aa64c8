//! Tests of the crates that need no device, for what no run of the program shows. Of `ice_io` and `tool_run`: streams that are interrupted or
//! stuck, real files and pipes read at any place, and the order in which a run loads and stores files. Of `name_arena`: names as long as a
//! chunk of memory, and longer. There is no other code.
//!
//! The tests are in a crate of their own, since a crate with tests is proved twice.
#![tactic(auto)]

#[cfg(test)]
mod tests;
