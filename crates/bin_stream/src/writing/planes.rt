// Writing the planes of an image.
ghost use Rattle.std.specs.Prelude.{◌≡◌, ◌+◌, ◌*◌, ◌%◌, ◌<◌, ◌≤◌, ◌^◌, ◌++◌, ◌∷◌, [], true, take, drop, OnOk, flat_map};
ghost use Rattle.ice_image.specs.Either.{configuration_of, device_of};
ghost use Rattle.ice_image.specs.Planes.{plane_width, plane_height, rows_of_bank};
ghost use Rattle.bin_stream.specs.State.{has_rows};
ghost use Rattle.ice_image.specs.declared.planes.PlaneKind.TheVariants.{Bram};
ghost use Rattle.bin_stream.specs.CanonicalBytes.{row_bytes, data_command, cram_bytes, ram_bytes, bram_bytes, cram_bank, bram_half, bram_bank, four_banks};

use super::command::{append_command, append_control, append_word};
use crate::marks::DATA_END;
use crate::opcode::{Control, Opcode};
use ice_image::{AnyImage, PlaneKind};
use std::alloc::AllocError;

/// How many rows a half of a RAM plane has.
const HALF: usize = 128;

/// Appends the configuration planes, with their size.
#[tactic(auto, unfolding(crate::specs::CanonicalBytes::cram_bytes))]
pub(crate) fn append_cram(out: &mut Vec<u8>, image: &AnyImage) -> Result<(), AllocError>
    ensures { OnOk result (out.new.items ≡ out.old.items ++ cram_bytes (configuration_of image.now).layout.device (configuration_of image.now).cram) }
{
    let device = image.device();
    append_word(
        out,
        Opcode::Width,
        (PlaneKind::Cram.columns(device) - 1) as u16,
    )?;
    append_word(out, Opcode::Height, PlaneKind::Cram.rows(device) as u16)?;
    append_word(out, Opcode::Offset, 0)?;
    append_cram_banks(out, image)
}

/// Appends the configuration planes of the four banks.
fn append_cram_banks(out: &mut Vec<u8>, image: &AnyImage) -> Result<(), AllocError>
    ensures { OnOk result (out.new.items ≡ out.old.items ++ flat_map (cram_bank (configuration_of image.now).cram) four_banks) }
{
    append_cram_bank(out, image, 0)?;
    append_cram_bank(out, image, 1)?;
    append_cram_bank(out, image, 2)?;
    append_cram_bank(out, image, 3)
}

/// Appends a bank's configuration plane as one command.
fn append_cram_bank(out: &mut Vec<u8>, image: &AnyImage, bank: u8) -> Result<(), AllocError>
    requires { bank < 4 }
    ensures { OnOk result (out.new.items ≡ out.old.items ++ cram_bank (configuration_of image.now).cram bank) }
{
    append_command(out, Opcode::Bank, &[bank])?;
    let rows = PlaneKind::Cram.rows(image.device());
    append_data(out, image, PlaneKind::Cram, bank, 0, rows)
}

/// Appends the RAM planes, with the size of their halves, or nothing if the device has no RAM.
#[tactic(auto, unfolding(crate::specs::CanonicalBytes::bram_bytes))]
pub(crate) fn append_bram(out: &mut Vec<u8>, image: &AnyImage) -> Result<(), AllocError>
    ensures { OnOk result (out.new.items ≡ out.old.items ++ bram_bytes (configuration_of image.now).layout.device (configuration_of image.now).bram) }
{
    if PlaneKind::Bram.rows(image.device()) == 0 {
        return Ok(());
    }
    append_ram(out, image)
}

/// Appends the RAM planes, with the size of their halves.
fn append_ram(out: &mut Vec<u8>, image: &AnyImage) -> Result<(), AllocError>
    requires { has_rows Bram (device_of image.now) ≡ true }
    ensures { OnOk result (out.new.items ≡ out.old.items ++ ram_bytes (configuration_of image.now).layout.device (configuration_of image.now).bram) }
{
    let device = image.device();
    append_word(
        out,
        Opcode::Width,
        (PlaneKind::Bram.columns(device) - 1) as u16,
    )?;
    append_word(out, Opcode::Height, HALF as u16)?;
    append_bram_banks(out, image)
}

/// Appends the RAM planes of the four banks.
fn append_bram_banks(out: &mut Vec<u8>, image: &AnyImage) -> Result<(), AllocError>
    requires { has_rows Bram (device_of image.now) ≡ true }
    ensures { OnOk result (out.new.items ≡ out.old.items ++ flat_map (bram_bank (configuration_of image.now).bram) four_banks) }
{
    append_bram_bank(out, image, 0)?;
    append_bram_bank(out, image, 1)?;
    append_bram_bank(out, image, 2)?;
    append_bram_bank(out, image, 3)
}

/// Appends a bank's RAM plane, in two halves.
fn append_bram_bank(out: &mut Vec<u8>, image: &AnyImage, bank: u8) -> Result<(), AllocError>
    requires ram { has_rows Bram (device_of image.now) ≡ true }
    requires bank { bank < 4 }
    ensures { OnOk result (out.new.items ≡ out.old.items ++ bram_bank (configuration_of image.now).bram bank) }
{
    append_command(out, Opcode::Bank, &[bank])?;
    append_bram_half(out, image, bank, 0)?;
    append_bram_half(out, image, bank, HALF)
}

/// Appends 128 rows of a bank's RAM plane, from row `first` on.
fn append_bram_half(
    out: &mut Vec<u8>,
    image: &AnyImage,
    bank: u8,
    first: usize,
) -> Result<(), AllocError>
    requires ram { has_rows Bram (device_of image.now) ≡ true }
    requires bank { bank < 4 }
    requires rows { first ≤ 128 }
    ensures { OnOk result (out.new.items ≡ out.old.items ++ bram_half (configuration_of image.now).bram bank first) }
{
    append_word(out, Opcode::Offset, first as u16)?;
    append_data(out, image, PlaneKind::Bram, bank, first, HALF)
}

/// Appends `count` rows of a bank's plane, from row `first` on, as data.
fn append_data(
    out: &mut Vec<u8>,
    image: &AnyImage,
    kind: PlaneKind,
    bank: u8,
    first: usize,
    count: usize,
) -> Result<(), AllocError>
    requires bank { bank < 4 }
    requires rows { first + count ≤ plane_height kind (device_of image.now) }
    requires whole { count * plane_width kind (device_of image.now) % 8 ≡ 0 }
    ensures { OnOk result (out.new.items ≡ out.old.items ++ data_command kind (take count (drop first (rows_of_bank kind bank (configuration_of image.now))))) }
{
    append_control(out, Control::of_data(kind))?;
    append_rows(out, image, kind, bank, first, count)?;
    out.extend_from_slice(&DATA_END)
}

/// Appends the bytes of `count` rows of a bank's plane, from row `first` on.
fn append_rows(
    out: &mut Vec<u8>,
    image: &AnyImage,
    kind: PlaneKind,
    bank: u8,
    first: usize,
    count: usize,
) -> Result<(), AllocError>
    requires bank { bank < 4 }
    requires rows { first + count ≤ plane_height kind (device_of image.now) }
    requires whole { count * plane_width kind (device_of image.now) % 8 ≡ 0 }
    ensures { OnOk result (out.new.items ≡ out.old.items ++ row_bytes (take count (drop first (rows_of_bank kind bank (configuration_of image.now))))) }
{
    let start = out.len();
    let device = image.device();
    out.resize(start + count * kind.columns(device) / 8, 0)?;
    image.rows(kind, usize::from(bank), first, count, &mut out[start..]);
    Ok(())
}
