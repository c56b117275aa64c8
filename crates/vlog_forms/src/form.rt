// The forms.

/// The form of an item: how it is written.
#[derive(Clone, Copy, Debug, PartialEq, Eq)]
pub enum Form {
    /// `input NAME;`
    Input,
    /// `output NAME;`
    Output,
    /// `reg NAME = BIT;`
    Register,
    /// `reg [15:0] NAME = WORD;`
    Word,
    /// `reg [15:0] NAME [0:255];`
    Memory,
    /// `wire NAME = BIT;`
    WireBit,
    /// `wire NAME = NAME;`
    WireWhole,
    /// `wire NAME = NAME[k];`
    WirePart,
    /// `wire NAME = WORD >> {ATOM, ATOM, ATOM, ATOM};`
    WireLut,
    /// `wire NAME = (a & b) | (a & c) | (b & c);`
    WireMajority,
    /// `wire NAME = SR ? BIT : REG;`
    WireChoose,
    /// `assign NAME = ATOM;`
    Assign,
    /// `always @(EDGE NAME) if (ATOM) begin if (ATOM) NAME <= BIT; else NAME <= LUT; end`: a flip-flop with synchronous set or reset.
    FlipFlop,
    /// `always @(EDGE NAME or posedge SR) if (SR) REG <= BIT; else if (ATOM) REG <= LUT;`: a flip-flop with asynchronous set or reset.
    AsyncFlipFlop,
    /// `always @(posedge SR) REG <= BIT;`: only an asynchronous set or reset, no clock.
    AsyncReset,
    /// `always @(EDGE NAME) if (ATOM & ATOM) NAME <= NAME[ADDR];`
    Read,
    /// `always @(EDGE NAME) if (ATOM & ATOM) NAME <= (NAME[ADDR] >> {H}) & WORD;`
    ReadNarrow,
    /// `always @(EDGE NAME) if (ATOM & ATOM) NAME[ADDR] <= (NAME[ADDR] & BITS16) | (BITS16 & ~BITS16);`
    Write,
    /// `always @(EDGE NAME) if (ATOM & ATOM) NAME[ADDR] <= (NAME[ADDR] & ~(WORD << {H})) | (BITS16 & (WORD << {H}));`
    WriteNarrow,
    /// `initial NAME[k] = WORD;`
    Start,
    /// `endmodule`
    End,
}
