// Pins and global nets.

pub(crate) mod fault;
pub(crate) mod gather;
pub(crate) mod globals;
pub(crate) mod pads;
pub(crate) mod pin;
pub(crate) mod pintype;
pub(crate) mod plls;
pub(crate) mod records;
pub(crate) mod refused;
pub(crate) mod registers;
