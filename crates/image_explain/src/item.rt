// What bits of a tile mean.

/// What bits of a tile mean.
#[derive(Clone, Copy, Debug, PartialEq, Eq)]
pub enum Active {
    /// Logic cell `i` has a set bit. Bit k of `lut` is LUT entry k. Bits 0 to 3 of `flags` are carry enable, flip-flop enable, set (1) or
    /// reset (0), and asynchronous.
    LogicCell { i: u8, lut: u16, flags: u8 },
    /// The function at this index of the database's functions is on.
    Function { index: usize },
    /// The link at this index of the database's buffers is on.
    Buffer { index: usize },
    /// The link at this index of the database's routings is on.
    Routing { index: usize },
    /// This bit is set, and none of the other items explains it.
    Unknown { row: u8, col: u8 },
}
