//! Definitions that search all indexes below a bound: whether a test passes at one of them, at which index it passes first or last, and
//! what the indexes give. The definitions are in specs/Places.antt, their laws in proofs/Places.antt; there is no code.
#![tactic(auto)]
