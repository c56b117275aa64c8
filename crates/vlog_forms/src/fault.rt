// Why a text is no module.

/// Why a text is no module of the subset.
#[derive(Clone, Copy, Debug, PartialEq, Eq)]
pub enum VlogCause {
    /// A token that doesn't fit any form here.
    Syntax,
    /// An item whose section is past.
    Order,
    /// A name that isn't declared before, or isn't what it is used as; at `endmodule`, an output that isn't assigned.
    Undeclared,
    /// A name that is declared or assigned a second time.
    AssignedTwice,
}
