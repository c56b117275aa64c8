//! Sets of names, which are kept where they stand.
#![tactic(auto)]

mod set;

pub use set::NameSet;
