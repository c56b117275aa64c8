// Slots: the parts of a form, one after another.

use vlog_module::Sort;
use vlog_tokens::Fixed;

/// How an item uses a name that fills a slot of its own.
#[derive(Clone, Copy, Debug, PartialEq, Eq)]
pub enum Role {
    /// It declares the name.
    Declares(Sort),
    /// It reads the name, which has a value of one bit.
    Reads,
    /// It reads a bit of the name, a register of 16 bits; the next value is the index of the bit.
    ReadsBit,
    /// It uses the name as a clock: an input, or a register of one bit.
    Clocks,
    /// It uses the name as an asynchronous set or reset, or as a memory.
    Takes(Sort),
    /// It assigns the name.
    Assigns(Sort),
    /// It reads the name, a register, by way of its asynchronous set or reset. The two values before it are the wire and the bit: the value
    /// is the bit while the wire is 1, else the register.
    Chooses,
    /// It assigns the name, a register with an asynchronous set or reset: the value before it is the wire, the next one the bit.
    AssignsAsync,
    /// It gives a word of the name, a memory, a start value; the next value is the address of the word.
    Starts,
}

/// A part of a form. The values of a form have indexes from 0, in the order of their slots.
#[derive(Clone, Copy, Debug)]
pub enum Slot {
    /// A space in what is printed; no token.
    Space,
    /// A sign or a reserved word.
    Fixed(Fixed),
    /// This number.
    Literal(u8),
    /// The tokens of the value at this index again.
    Again(u8),
    /// The atoms at the indexes from the first number on, as many as the second number, again in braces.
    AtomsAgain(u8, u8),
    /// A name; a value.
    Name(Role),
    /// `posedge` or `negedge`; a value.
    Edge,
    /// `1'b0` or `1'b1`; a value.
    Bit,
    /// Four hexadecimal digits after `16'h`; a value.
    Word,
    /// A number up to this one; a value.
    Index(u8),
    /// A bit, a name or `NAME[k]`; a value.
    Atom,
    /// This many atoms in braces, the highest index first; each is a value.
    Atoms(u8),
}
