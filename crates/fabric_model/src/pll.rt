// PLLs.
ghost use Rattle.std.specs.Prelude.{◌≡◌};
ghost use Rattle.fabric_model.specs.Plls.{output_number};

use chipdb_reader::PinXy;

/// The type of a PLL: three bits, which are the functions that its lines `PLLTYPE_2`, `PLLTYPE_1` and `PLLTYPE_0` name.
#[derive(Clone, Copy, Debug, PartialEq, Eq)]
pub enum PllType {
    /// 000.
    Off,
    /// 010 and 011, `SB_PLL40_PAD` and `SB_PLL40_CORE`: the output `a`.
    OneOutput,
    /// 100, 110 and 111, `SB_PLL40_2_PAD`, `SB_PLL40_2F_PAD` and `SB_PLL40_2F_CORE`: the outputs `a` and `b`.
    TwoOutputs,
    /// 001 and 101, which are no types.
    Unknown,
}

/// An output of a PLL.
#[derive(Clone, Copy, Debug, PartialEq, Eq)]
pub enum PllOutput {
    /// `PLLOUT_A`.
    A,
    /// `PLLOUT_B`.
    B,
    /// `LOCK`.
    Lock,
    /// `SDO`.
    Sdo,
}

impl PllOutput {
    /// Its number: `a`, `b`, `lock` and `sdo` are 0 to 3.
    pub fn number(self) -> u8
        ensures { result ≡ output_number self }
    {
        match self {
            PllOutput::A => 0,
            PllOutput::B => 1,
            PllOutput::Lock => 2,
            PllOutput::Sdo => 3,
        }
    }
}

/// An output of the PLL at (x, y), which is a source of a net.
#[derive(Clone, Copy, Debug, PartialEq, Eq)]
pub struct PllSource {
    pub x: u32,
    pub y: u32,
    pub output: PllOutput,
    /// The pin of `a` or `b`, whose input side then belongs to the PLL; `None` for `lock` and `sdo`.
    pub pin: Option<PinXy>,
    /// The net that it drives if it is an input port: `io_n/D_IN_0` of the pin, or the net of `lock` or `sdo`.
    pub net: Option<u32>,
}
