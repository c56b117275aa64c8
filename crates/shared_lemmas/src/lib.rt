//! Lemmas about the standard library alone that several crates cite, each proved once; there is no code. proofs/Lib.antt says in one line
//! for each module what its lemmas are about. What the standard library proves itself is cited from there, not from here.
#![tactic(auto)]
