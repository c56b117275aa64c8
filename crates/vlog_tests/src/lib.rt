//! Tests of the Verilog subset: how often new lanes ask for memory, and the public call that no tool makes, `run_text`. There is no other code.
//!
//! They are in a crate of their own, since a crate is proved a second time together with its tests. What texts, events, waves, names and
//! sweeps do in whole runs is in `check/transcripts`.
#![tactic(auto)]

#[cfg(test)]
mod requests;
#[cfg(test)]
mod tests;
