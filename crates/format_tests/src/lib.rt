//! Tests of the crates of the device's formats: the public calls that no tool makes, and what no tool prints. There is no other code. What
//! whole texts, bitstreams, layout files, boot files and files of words mean is in `check/transcripts`.
//!
//! They are in a crate of their own, since a crate is proved a second time together with its tests.
#![tactic(auto)]

#[cfg(test)]
mod tests;
