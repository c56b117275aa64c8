//! Tests of `chipdb_reader` and `graph_order`: the public calls that no tool makes, and orders and cycles of small wirings, which no tool
//! prints. There is no other code.
//!
//! They are in a crate of their own, since a crate is proved a second time together with its tests. What databases, pin files, images and
//! designs give in whole runs is in `check/transcripts`.
#![tactic(auto)]

#[cfg(test)]
mod tests;
