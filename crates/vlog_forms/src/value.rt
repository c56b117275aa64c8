// Values: what fills the open slots of a form.

use crate::slot::Role;

/// What fills a slot for a value. Names are borrowed from the text or from the module.
#[derive(Clone, Copy, Debug)]
pub enum Value<'a> {
    Name(Role, &'a [u8]),
    /// Whether the edge is `negedge`.
    Edge(bool),
    Bit(bool),
    Word(u16),
    Index(u8),
    /// An atom that is a bit.
    AtomBit(bool),
    /// An atom that is a name.
    AtomName(&'a [u8]),
    /// An atom that is `NAME[k]`.
    AtomPart(&'a [u8], u8),
}
