// Items of a module, in the order of their sections.

use crate::atoms::{Atom, Atoms};
use crate::name::Name;

/// A LUT with four inputs, as `SB_LUT4`: `WORD >> {in_3, in_2, in_1, in_0}`, which is bit `in_0 + 2 * in_1 + 4 * in_2 + 8 * in_3` of the
/// word.
#[derive(Drop)]
pub struct Lut {
    pub word: u16,
    /// Four atoms, `in_0` first.
    pub ins: Atoms,
}

/// The right side of a wire.
#[derive(Drop)]
pub enum Right {
    /// `1'b0` or `1'b1`.
    Bit(bool),
    /// An input, a register of one bit or an earlier wire.
    Whole(Name),
    /// Bit `k` of a register of 16 bits; bit 0 is the lowest.
    Part {
        name: Name,
        k: u8,
    },
    /// A LUT of four atoms.
    Lut(Lut),
    /// The majority of three atoms, `(a & b) | (a & c) | (b & c)`: the carry-out of `SB_CARRY`.
    Majority {
        a: Atom,
        b: Atom,
        c: Atom,
    },
    /// `reset ? set : target`: the bit `set` if an earlier wire is 1, else a register of one bit.
    Choose {
        reset: Name,
        set: bool,
        target: Name,
    },
}

/// An item. A module lists its items so that their sections, in the order below, never go back.
#[derive(Drop)]
pub enum Item {
    /// `reg NAME = BIT;`
    Register {
        name: Name,
        start: bool,
    },
    /// `reg [15:0] NAME = WORD;`
    Word {
        name: Name,
        start: u16,
    },
    /// `reg [15:0] NAME [0:255];`
    Memory {
        name: Name,
    },
    /// `wire NAME = RIGHT;`
    Wire {
        name: Name,
        right: Right,
    },
    /// `assign NAME = ATOM;`, which gives an output its value.
    Assign {
        name: Name,
        value: Atom,
    },
    /// `always @(EDGE clock) if (enable) begin if (reset) target <= set; else target <= lut; end`: a flip-flop with a clock enable and
    /// a synchronous set or reset, as `SB_DFFESS` and `SB_DFFESR`.
    FlipFlop {
        /// Whether the edge is `negedge`.
        falling: bool,
        clock: Name,
        enable: Atom,
        reset: Atom,
        set: bool,
        target: Name,
        lut: Lut,
    },
    /// `always @(EDGE clock or posedge reset) if (reset) target <= set; else if (enable) target <= lut;`: a flip-flop with a clock enable
    /// and an asynchronous set or reset, as `SB_DFFES` and `SB_DFFER`.
    AsyncFlipFlop {
        /// Whether the edge of the clock is `negedge`.
        falling: bool,
        clock: Name,
        /// A wire: the asynchronous set or reset.
        reset: Name,
        set: bool,
        target: Name,
        enable: Atom,
        lut: Lut,
    },
    /// `always @(posedge reset) target <= set;`: a flip-flop without a clock, which has only an asynchronous set or reset.
    AsyncReset {
        /// A wire: the asynchronous set or reset.
        reset: Name,
        set: bool,
        target: Name,
    },
    /// `always @(EDGE clock) if (clock_enable & enable) target <= memory[address];`: the read port of an `SB_RAM40_4K`, 16 bits wide.
    Read {
        /// Whether the edge is `negedge`.
        falling: bool,
        clock: Name,
        clock_enable: Atom,
        enable: Atom,
        target: Name,
        memory: Name,
        /// Eight atoms, the lowest bit of the address first.
        address: Atoms,
    },
    /// `always @(EDGE clock) if (clock_enable & enable) target <= (memory[address] >> shift) & pattern;`: the read port of an `SB_RAM40_4K`
    /// that is 8, 4 or 2 bits wide. The word is shifted down, and the bits of the pattern are kept.
    ReadNarrow {
        /// Whether the edge is `negedge`.
        falling: bool,
        clock: Name,
        clock_enable: Atom,
        enable: Atom,
        target: Name,
        memory: Name,
        /// Eight atoms, the lowest bit of the address first.
        address: Atoms,
        /// Three atoms, the lowest bit of the shift first.
        shift: Atoms,
        pattern: u16,
    },
    /// `always @(EDGE clock) if (clock_enable & enable) memory[address] <= (memory[address] & mask) | (bits & ~mask);`: the write port of
    /// an `SB_RAM40_4K`, 16 bits wide.
    Write {
        /// Whether the edge is `negedge`.
        falling: bool,
        clock: Name,
        clock_enable: Atom,
        enable: Atom,
        memory: Name,
        /// Eight atoms, the lowest bit of the address first.
        address: Atoms,
        /// Sixteen atoms, the lowest bit first. A bit of the word isn't written if its atom is 1.
        mask: Atoms,
        /// Sixteen atoms, the lowest bit first.
        bits: Atoms,
    },
    /// `always @(EDGE clock) if (clock_enable & enable)
    /// memory[address] <= (memory[address] & ~(pattern << shift)) | (bits & (pattern << shift));`, on one line: the write port of an
    /// `SB_RAM40_4K` that is 8, 4 or 2 bits wide. The pattern is shifted up, and the bits under it are written.
    WriteNarrow {
        /// Whether the edge is `negedge`.
        falling: bool,
        clock: Name,
        clock_enable: Atom,
        enable: Atom,
        memory: Name,
        /// Eight atoms, the lowest bit of the address first.
        address: Atoms,
        pattern: u16,
        /// Three atoms, the lowest bit of the shift first.
        shift: Atoms,
        /// Sixteen atoms, the lowest bit first.
        bits: Atoms,
    },
    /// `initial memory[k] = word;`
    Start {
        memory: Name,
        k: u8,
        word: u16,
    },
}
