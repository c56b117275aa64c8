// What a command says by its opcode and its payload.
ghost use Rattle.std.specs.Prelude.{◌≡◌, ◌==◌, ◌&&◌, MatchOption};
ghost use Rattle.bin_stream.specs.Commands.{control_opcode, wake_up_number};
ghost use Rattle.bin_stream.specs.inside.Opcodes.{opcode_number};
ghost use Rattle.bin_stream.specs.inside.Heads.{opcode_in, number_in, IsOf, IsUnknown};

use crate::opcode::{Control, Opcode};
use ice_image::PlaneKind;

/// A command. For data this is only the part before their rows.
#[derive(Clone, Copy)]
pub(crate) enum Command {
    /// Rows of a plane of this kind follow.
    Data(PlaneKind),
    /// A command without rows.
    Short(ShortCommand),
}

/// A command without rows, with the value of its payload. `Control` says what the first two are for, and `Opcode` the others.
#[derive(Clone, Copy)]
pub(crate) enum ShortCommand {
    Reset,
    WakeUp,
    Bank(u32),
    Check(u32),
    BootAddress(u32),
    Range(u32),
    Width(u32),
    Height(u32),
    Offset(u32),
    Mode(u32),
}

impl Command {
    /// The command of the number of an opcode and the value of a payload, if there is one.
    pub(crate) fn from_numbers(opcode: u8, number: u32) -> Option<Command>
        ensures { MatchOption result (IsUnknown opcode number) (IsOf opcode number) }
    {
        match Opcode::from_number(opcode) {
            Some(opcode) => Command::of(opcode, number),
            None => None,
        }
    }

    /// The command of an opcode with the value of its payload, if there is one.
    fn of(opcode: Opcode, number: u32) -> Option<Command>
        ensures { MatchOption result (IsUnknown (opcode_number opcode) number) (IsOf (opcode_number opcode) number) }
    {
        let command = match opcode {
            Opcode::Control => return Command::of_control(number),
            Opcode::Bank => ShortCommand::Bank(number),
            Opcode::Check => ShortCommand::Check(number),
            Opcode::BootAddress => ShortCommand::BootAddress(number),
            Opcode::Range => ShortCommand::Range(number),
            Opcode::Width => ShortCommand::Width(number),
            Opcode::Height => ShortCommand::Height(number),
            Opcode::Offset => ShortCommand::Offset(number),
            Opcode::Mode => ShortCommand::Mode(number),
        };
        Some(Command::Short(command))
    }

    /// The control command with the value of its payload, if there is one.
    fn of_control(number: u32) -> Option<Command>
        ensures { MatchOption result (IsUnknown control_opcode number) (IsOf control_opcode number) }
    {
        match Control::from_number(number) {
            Some(Control::CramData) => Some(Command::Data(PlaneKind::Cram)),
            Some(Control::BramData) => Some(Command::Data(PlaneKind::Bram)),
            Some(Control::Reset) => Some(Command::Short(ShortCommand::Reset)),
            Some(Control::WakeUp) => Some(Command::Short(ShortCommand::WakeUp)),
            None => None,
        }
    }
}

impl ShortCommand {
    /// Whether it is the wake-up command.
    pub(crate) fn is_wake_up(self) -> bool
        ensures { result ≡ ((opcode_in self == control_opcode) && (number_in self == wake_up_number)) }
    {
        matches!(self, ShortCommand::WakeUp)
    }
}
