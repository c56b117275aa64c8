// Items of a module over numbered slots in place of names.

use crate::gates::Gate;

/// An operand of one bit.
#[derive(Clone, Copy)]
pub enum Operand {
    Constant(bool),
    /// The bit in a slot.
    Slot(usize),
    /// Bit `k` of a register of 16 bits.
    Part { word: usize, k: u8 },
}

/// A LUT: its truth table of 16 bits, and its inputs, the lowest bit of the index first.
#[derive(Clone, Copy)]
pub struct Table {
    pub word: u16,
    pub ins: [Operand; 4],
}

/// The right side of a wire.
#[derive(Clone, Copy)]
pub enum Rule {
    Copy(Operand),
    Lookup(Table),
    Majority {
        a: Operand,
        b: Operand,
        c: Operand,
    },
    /// The bit `set` if `reset` is 1, else `target`.
    Choose {
        reset: Operand,
        set: bool,
        target: Operand,
    },
}

/// A wire: its slot, and its right side.
#[derive(Clone, Copy)]
pub struct Wire {
    pub slot: usize,
    pub rule: Rule,
}

/// An edge of a clock: the slot of the clock, an input or a register of one bit, and whether it is the falling edge.
#[derive(Clone, Copy)]
pub struct Edge {
    pub clock: usize,
    pub falling: bool,
}

/// What a flip-flop does at a clock edge, if `enable` is 1: it becomes the bit `set` if `reset` is 1, else the value of the LUT.
#[derive(Clone, Copy)]
pub struct FlipFlop {
    pub edge: Edge,
    pub enable: Operand,
    pub reset: Operand,
    pub set: bool,
    /// The slot of the register.
    pub target: usize,
    pub table: Table,
}

/// The asynchronous set or reset of a register: the register becomes the bit `set` while the wire is 1.
#[derive(Clone, Copy)]
pub struct Settle {
    /// The slot of the wire.
    pub wire: usize,
    pub set: bool,
    /// The slot of the register.
    pub target: usize,
}

/// A port of a memory. It acts at its edge if both enables are 1.
#[derive(Clone, Copy)]
pub struct MemoryPort {
    pub edge: Edge,
    pub clock_enable: Operand,
    pub enable: Operand,
    pub memory: usize,
    /// The lowest bit first.
    pub address: [Operand; 8],
}

/// A field of a word: the bits under a pattern that is shifted up.
#[derive(Clone, Copy)]
pub struct Field {
    /// The lowest bit first.
    pub shift: [Operand; 3],
    pub pattern: u16,
}

/// What a read takes of a word.
#[derive(Clone, Copy)]
pub enum Taken {
    /// The word as it is.
    Word,
    /// The bits of a field, shifted down.
    Narrow(Field),
}

/// A read of a memory into a register of 16 bits.
#[derive(Clone, Copy)]
pub struct Read {
    pub port: MemoryPort,
    pub target: usize,
    pub taken: Taken,
}

/// Which bits of a word a write leaves as they are.
#[derive(Clone, Copy)]
pub enum Kept {
    /// Those whose mask bit is 1; the mask has the lowest bit first.
    Masked([Operand; 16]),
    /// Those outside a field.
    Outside(Field),
}

/// A write to a memory.
#[derive(Clone, Copy)]
pub struct Write {
    pub port: MemoryPort,
    pub kept: Kept,
    /// The lowest bit first.
    pub bits: [Operand; 16],
}

/// A word that is written to an address of a memory.
#[derive(Clone, Copy)]
pub struct Written {
    pub memory: usize,
    pub address: u8,
    pub word: u16,
}

/// A memory: 256 words of 16 bits.
pub type Memory = [u16; 256];

/// The items of a module over slots.
#[derive(Drop)]
pub struct Plan {
    /// The wires, in the order of the text.
    pub gates: Vec<Gate>,
    /// What the outputs are assigned, in the order of the ports.
    pub outputs: Vec<Operand>,
    /// What flip-flops do at their edges. A flip-flop with asynchronous set or reset is listed twice: as it is, and once more for an edge
    /// during its set or reset.
    pub flips: Vec<FlipFlop>,
    pub settles: Vec<Settle>,
    pub reads: Vec<Read>,
    pub writes: Vec<Write>,
    /// The edges of the items whose clock is a register, one for each.
    pub clocks: Vec<Edge>,
}
