// Logic cells.

pub(crate) mod cell;
pub(crate) mod gather;
pub(crate) mod ports;
