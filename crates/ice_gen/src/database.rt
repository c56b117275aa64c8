// The chip database of the generated design.
ghost use Rattle.std.specs.Prelude.{◌≡◌, ◌≤◌, ◌^◌, true, IfOk, length};
ghost use Rattle.plane_map.specs.Devices.{has_database};
ghost use Rattle.ice_gen.specs.Database.{generated_database};

use crate::buffers::{Input, append_buffers};
use crate::head::append_head;
use crate::names::append_nets;
use plane_map::DeviceName;
use std::alloc::{AllocError, Global};

/// The chip database of the generated design for a device. The device must have chip databases (`has_database`).
///
/// # Errors
/// `AllocError` if memory is out, and for no other cause.
///
/// # Example
/// ```ignore
/// use ice_gen::{chipdb, image};
/// use plane_map::DeviceName;
///
/// let text = chipdb(alloc, DeviceName::Hx1k)?; // bytes for `chipdb_reader::read`
/// let made = image(alloc, DeviceName::Hx1k, 7)?; // an `AnyImage`, by the seed 7
/// ```
pub fn chipdb(alloc: Global, device: DeviceName) -> Result<Vec<u8>, AllocError>
    requires { has_database device ≡ true }
    ensures text { IfOk result (λ text. text.items ≡ generated_database device) }
    // short enough for `chipdb_reader::read`
    ensures limit { IfOk result (λ text. length text.items ≤ 2 ^ 28) }
{
    let text = write(alloc, device)?;
    Ok(text)
}

/// Writes the parts of the text.
#[tactic(auto, using(crate::proofs::Texts::joined), unfolding(crate::specs::Database::generated_database, crate::specs::Database::database_lines))]
fn write(alloc: Global, device: DeviceName) -> Result<Vec<u8>, AllocError>
    requires { has_database device ≡ true }
    ensures { IfOk result (λ text. text.items ≡ generated_database device) }
{
    let mut text = Vec::with_capacity(alloc, usual_len(device))?;
    append_head(&mut text, device)?;
    append_nets(&mut text, device)?;
    append_buffers(&mut text, device, Input::In0)?;
    append_buffers(&mut text, device, Input::In3)?;
    Ok(text)
}

/// The room that is reserved for the text, which is enough.
fn usual_len(device: DeviceName) -> usize
    ensures { result ≤ 2 ^ 20 }
{
    match device {
        DeviceName::Lp384 | DeviceName::Hx1k => 1 << 18,
        DeviceName::Hx8k => 1 << 20,
    }
}
