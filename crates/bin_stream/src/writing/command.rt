// Writing a command.
ghost use Rattle.std.specs.Prelude.{◌≡◌, ◌<◌, ◌++◌, ◌∷◌, [], length, OnOk};
ghost use Rattle.std.specs.Int.{w16, to_be_bytes};
ghost use Rattle.bin_stream.specs.Commands.{Short, spelling, control_opcode};
ghost use Rattle.bin_stream.specs.inside.Opcodes.{opcode_number, control_number};

use crate::opcode::{Control, Opcode};
use byteorder::{BigEndian, ByteOrder};
use std::alloc::AllocError;

/// Appends a command that isn't data.
pub(crate) fn append_command(
    out: &mut Vec<u8>,
    opcode: Opcode,
    payload: &[u8],
) -> Result<(), AllocError>
    requires { length payload.now < 16 }
    ensures { OnOk result (out.new.items ≡ out.old.items ++ spelling (Short (opcode_number opcode) payload.now)) }
{
    out.push(16 * opcode.number() + payload.len() as u8)?;
    out.extend_from_slice(payload)
}

/// Appends a command whose payload has two bytes, the high one first.
pub(crate) fn append_word(out: &mut Vec<u8>, opcode: Opcode, word: u16) -> Result<(), AllocError>
    ensures { OnOk result (out.new.items ≡ out.old.items ++ spelling (Short (opcode_number opcode) (to_be_bytes w16 word))) }
{
    append_command(out, opcode, &two_bytes(word))
}

/// Appends a control command, which isn't data.
pub(crate) fn append_control(out: &mut Vec<u8>, control: Control) -> Result<(), AllocError>
    ensures { OnOk result (out.new.items ≡ out.old.items ++ spelling (Short control_opcode (control_number control ∷ []))) }
{
    append_command(out, Opcode::Control, &[control.number()])
}

/// A number as two bytes, the high one first.
pub(crate) fn two_bytes(word: u16) -> [u8; 2]
    ensures { result ≡ to_be_bytes w16 word }
{
    let mut bytes = [0; 2];
    BigEndian::write_u16(&mut bytes, word);
    bytes
}
