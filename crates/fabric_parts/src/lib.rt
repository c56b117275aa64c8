//! The parts of a fabric that an image uses, by the names of a chip database: logic cells and the carry inputs that are set, pins that
//! are ports, their registers and global nets, and block RAMs. Each call goes over the tiles of a kind in their order, by row, then by
//! column.
#![tactic(auto)]

mod io;
mod logic;
mod ram;

pub use io::fault::PinFault;
pub use io::gather::pins;
pub use io::pin::PinSet;
pub use io::registers::pin_registers;
pub use logic::cell::Cells;
pub use logic::gather::cells;
pub use ram::fault::RamFault;
pub use ram::gather::rams;
