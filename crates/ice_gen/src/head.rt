// The lines before the nets.
ghost use Rattle.std.specs.Prelude.{◌≡◌, [], ◌∷◌, ◌++◌, ◌<◌, OnOk, codes};
ghost use Rattle.index_search.specs.Places.{gathered_below};
ghost use Rattle.text_lines.specs.Written.{text_of};
ghost use Rattle.plane_map.specs.DeviceWords.{device_word};
ghost use Rattle.asc_text.specs.Statements.{device_keyword};
ghost use Rattle.ice_gen.specs.Database.{cell_line, device_line, head_lines, pad_drive as pad_drive_of, pad_drive_line, pin_type_line, ten_bits};

use crate::lines::{append_bit, append_decimal, append_line, append_number, end_line};
use crate::numbers::nets;
use plane_map::{DeviceName, Place};
use std::alloc::AllocError;

/// Appends all lines before the nets.
#[tactic(auto, using(crate::proofs::Texts::joined), unfolding(crate::specs::Database::head_lines))]
pub(crate) fn append_head(text: &mut Vec<u8>, device: DeviceName) -> Result<(), AllocError>
    ensures { OnOk result (text.new.items ≡ text.old.items ++ text_of (head_lines device)) }
{
    append_device(text, device)?;
    append_line(text, b".gbufpin")?;
    append_line(text, b"0 1 0 0")?;
    append_line(text, b".io_tile_bits 18 16")?;
    append_pin_types(text)?;
    append_line(text, b".logic_tile_bits 54 16")?;
    append_cells(text)?;
    append_line(text, b".extra_bits")?;
    append_pad_drive(text, device)
}

/// Appends the device.
#[tactic(auto, unfolding(text_lines::specs::Written::text_of))]
fn append_device(text: &mut Vec<u8>, device: DeviceName) -> Result<(), AllocError>
    ensures { OnOk result (text.new.items ≡ text.old.items ++ text_of (device_line device ∷ [])) }
{
    text.extend_from_slice(b".device ")?;
    text.extend_from_slice(device.word())?;
    append_number(text, device.columns())?;
    append_number(text, device.rows())?;
    append_number(text, nets(device))?;
    end_line(text)
}

/// Appends the bits of PIN_TYPE of the first pin.
#[tactic(auto, using(crate::proofs::Texts::joined), unfolding(index_search::specs::Places::gathered_below))]
fn append_pin_types(text: &mut Vec<u8>) -> Result<(), AllocError>
    ensures { OnOk result (text.new.items ≡ text.old.items ++ text_of (gathered_below 6 (λ k. pin_type_line k ∷ []))) }
{
    for k in 0..6 {
        append_pin_type(text, k)?;
    }
    Ok(())
}

/// Appends one bit of PIN_TYPE of the first pin.
#[tactic(auto, unfolding(text_lines::specs::Written::text_of))]
fn append_pin_type(text: &mut Vec<u8>, k: u32) -> Result<(), AllocError>
    ensures { OnOk result (text.new.items ≡ text.old.items ++ text_of (pin_type_line k ∷ [])) }
{
    text.extend_from_slice(b"IOB_0.PINTYPE_")?;
    append_decimal(text, k)?;
    append_bit(text, k, 0)?;
    end_line(text)
}

/// Appends the eight logic cells of a tile.
#[tactic(auto, using(crate::proofs::Texts::joined), unfolding(index_search::specs::Places::gathered_below))]
fn append_cells(text: &mut Vec<u8>) -> Result<(), AllocError>
    ensures { OnOk result (text.new.items ≡ text.old.items ++ text_of (gathered_below 8 (λ i. cell_line i ∷ []))) }
{
    for i in 0..8 {
        append_cell(text, i)?;
    }
    Ok(())
}

/// Appends a logic cell and its twenty bits.
#[tactic(auto, unfolding(text_lines::specs::Written::text_of))]
fn append_cell(text: &mut Vec<u8>, i: u32) -> Result<(), AllocError>
    requires { i < 8 }
    ensures { OnOk result (text.new.items ≡ text.old.items ++ text_of (cell_line i ∷ [])) }
{
    text.extend_from_slice(b"LC_")?;
    append_decimal(text, i)?;
    append_ten_bits(text, 2 * i)?;
    append_ten_bits(text, 2 * i + 1)?;
    end_line(text)
}

/// Appends the bits of a cell in one of its two rows.
#[tactic(auto, using(crate::proofs::Texts::joined), unfolding(index_search::specs::Places::gathered_below))]
fn append_ten_bits(text: &mut Vec<u8>, row: u32) -> Result<(), AllocError>
    ensures { OnOk result (text.new.items ≡ text.old.items ++ ten_bits row) }
{
    for k in 0..10 {
        append_bit(text, row, 36 + k)?;
    }
    Ok(())
}

/// The place of the extra bit by which a pad drives the global net 0.
pub(crate) fn pad_drive(device: DeviceName) -> Place
    ensures { result ≡ pad_drive_of device }
{
    Place {
        bank: 0,
        px: (device.cram_columns() - 2) as u16,
        py: (device.cram_rows() - 1) as u16,
    }
}

/// Appends the extra bit by which a pad drives the global net 0.
#[tactic(auto, unfolding(text_lines::specs::Written::text_of))]
fn append_pad_drive(text: &mut Vec<u8>, device: DeviceName) -> Result<(), AllocError>
    ensures { OnOk result (text.new.items ≡ text.old.items ++ text_of (pad_drive_line device ∷ [])) }
{
    let at = pad_drive(device);
    text.extend_from_slice(b"padin_glb_netwk.0")?;
    append_number(text, u32::from(at.bank))?;
    append_number(text, u32::from(at.px))?;
    append_number(text, u32::from(at.py))?;
    end_line(text)
}
