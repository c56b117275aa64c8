// Block RAMs.

pub(crate) mod cascade;
pub(crate) mod fault;
pub(crate) mod gather;
pub(crate) mod modes;
pub(crate) mod ports;
pub(crate) mod ram;
pub(crate) mod used;
