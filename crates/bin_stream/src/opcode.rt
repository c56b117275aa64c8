// What commands are for: their opcodes, and the values of the payloads of control commands.
ghost use Rattle.std.specs.Prelude.{◌≡◌, ◌<◌, MatchOption};
ghost use Rattle.bin_stream.specs.Commands.{kind_number};
ghost use Rattle.bin_stream.specs.inside.Opcodes.{opcode_number, IsNoOpcode, control_number, IsNoControl};

use ice_image::PlaneKind;

/// What a command is for. Its number is the high half of the command's first byte.
#[derive(Clone, Copy)]
pub(crate) enum Opcode {
    /// Data, a reset of the CRC or the wake-up: the payload says which.
    Control = 0,
    /// The bank of the data that follow.
    Bank = 1,
    /// A check: its payload is chosen so that the CRC is 0 after it.
    Check = 2,
    /// The flash address at which the device looks for the next image. It is ignored.
    BootAddress = 4,
    /// The frequency range of the oscillator.
    Range = 5,
    /// The width in bits of the data that follow, minus one.
    Width = 6,
    /// How many rows the data that follow have.
    Height = 7,
    /// The row at which the data that follow begin.
    Offset = 8,
    /// Warm boot and sleep.
    Mode = 9,
}

impl Opcode {
    /// The opcode of a number, if there is one.
    pub(crate) fn from_number(number: u8) -> Option<Opcode>
        ensures { MatchOption result (IsNoOpcode number) (λ opcode. opcode_number opcode ≡ number) }
    {
        match number {
            0 => Some(Opcode::Control),
            1 => Some(Opcode::Bank),
            2 => Some(Opcode::Check),
            4 => Some(Opcode::BootAddress),
            5 => Some(Opcode::Range),
            6 => Some(Opcode::Width),
            7 => Some(Opcode::Height),
            8 => Some(Opcode::Offset),
            9 => Some(Opcode::Mode),
            _ => None,
        }
    }

    /// The opcode's number, which is at most 9.
    pub(crate) fn number(self) -> u8
        ensures value { result ≡ opcode_number self }
        ensures half { result < 16 }
    {
        self as u8
    }
}

/// What a control command is for, by the value of its payload.
#[derive(Clone, Copy)]
pub(crate) enum Control {
    /// Rows of a configuration plane follow.
    CramData = 1,
    /// Rows of a RAM plane follow.
    BramData = 3,
    /// The CRC is reset.
    Reset = 5,
    /// The configuration ends.
    WakeUp = 6,
}

impl Control {
    /// What a control command with this value is for, if there is such a command.
    pub(crate) fn from_number(number: u32) -> Option<Control>
        ensures { MatchOption result (IsNoControl number) (λ control. control_number control ≡ number) }
    {
        match number {
            1 => Some(Control::CramData),
            3 => Some(Control::BramData),
            5 => Some(Control::Reset),
            6 => Some(Control::WakeUp),
            _ => None,
        }
    }

    /// The value of the payload.
    pub(crate) fn number(self) -> u8
        ensures { result ≡ control_number self }
    {
        self as u8
    }

    /// The control command with which data of a kind begin.
    pub(crate) fn of_data(kind: PlaneKind) -> Control
        ensures { control_number result ≡ kind_number kind }
    {
        match kind {
            PlaneKind::Cram => Control::CramData,
            PlaneKind::Bram => Control::BramData,
        }
    }
}
