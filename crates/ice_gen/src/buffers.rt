// The buffers.
ghost use Rattle.std.specs.Prelude.{◌≡◌, ◌<◌, ◌^◌, [], ◌∷◌, ◌++◌, OnOk, decimal};
ghost use Rattle.index_search.specs.Places.{gathered_below};
ghost use Rattle.text_lines.specs.Written.{text_of};
ghost use Rattle.plane_map.specs.Layout.{grid_height, grid_width, kind_of};
ghost use Rattle.asc_text.specs.Canonical.{with_word};
ghost use Rattle.ice_gen.specs.Numbers.{cell_number as cell_number_of};
ghost use Rattle.ice_gen.specs.Database.{buffer_line, by_all_cells, by_cells, far_net as far_net_of, in_0_lines, in_0_statement, in_3_lines};
ghost use Rattle.ice_gen.specs.Inside.{lines_into};

use crate::lines::{append_bit, append_number, end_line};
use crate::numbers::{cell_number, in_0_net, in_3_net, rams, read_net};
use plane_map::{DeviceName, TileKind, kind_on};
use std::alloc::AllocError;

/// The cell input that buffers drive.
#[derive(Clone, Copy, Debug, PartialEq, Eq)]
pub(crate) enum Input {
    /// Input in_0, of each cell.
    In0,
    /// Input in_3, of each cell whose number is also the number of a RAM.
    In3,
}

/// Appends the buffers into an input of all cells.
#[tactic(auto, using(crate::proofs::Texts::joined), unfolding(index_search::specs::Places::gathered_below))]
pub(crate) fn append_buffers(
    text: &mut Vec<u8>,
    device: DeviceName,
    input: Input,
) -> Result<(), AllocError>
    ensures { OnOk result (text.new.items ≡ text.old.items ++ text_of (by_all_cells device (lines_into input device))) }
{
    for y in 0..device.rows() {
        append_grid_row(text, device, input, y)?;
    }
    Ok(())
}

/// Appends the buffers of one row of the grid.
#[tactic(auto, using(crate::proofs::Texts::joined), unfolding(index_search::specs::Places::gathered_below))]
fn append_grid_row(
    text: &mut Vec<u8>,
    device: DeviceName,
    input: Input,
    y: u32,
) -> Result<(), AllocError>
    requires row { y < grid_height device }
    ensures { OnOk result (text.new.items ≡ text.old.items ++ text_of (gathered_below (grid_width device) (λ x. by_cells device (lines_into input device x y) x y (kind_of device x y)))) }
{
    for x in 0..device.columns() {
        append_place(text, device, input, x, y)?;
    }
    Ok(())
}

/// Appends the buffers at (x, y), if a logic tile is there.
#[tactic(auto, using(crate::proofs::Texts::joined))]
fn append_place(
    text: &mut Vec<u8>,
    device: DeviceName,
    input: Input,
    x: u32,
    y: u32,
) -> Result<(), AllocError>
    requires column { x < grid_width device }
    requires row { y < grid_height device }
    ensures { OnOk result (text.new.items ≡ text.old.items ++ text_of (by_cells device (lines_into input device x y) x y (kind_of device x y))) }
{
    match kind_on(device, x, y) {
        Some(TileKind::Logic) => append_tile(text, device, input, x, y),
        Some(_) | None => Ok(()),
    }
}

/// Appends the buffers of a logic tile.
#[tactic(auto, using(crate::proofs::Texts::joined), unfolding(index_search::specs::Places::gathered_below))]
fn append_tile(
    text: &mut Vec<u8>,
    device: DeviceName,
    input: Input,
    x: u32,
    y: u32,
) -> Result<(), AllocError>
    requires column { x < grid_width device }
    requires row { y < grid_height device }
    ensures { OnOk result (text.new.items ≡ text.old.items ++ text_of (gathered_below 8 (λ i. lines_into input device x y (cell_number_of device x y i) i))) }
{
    for i in 0..8 {
        append_cell(text, device, input, x, y, i)?;
    }
    Ok(())
}

/// Appends the buffer into the input of a cell.
#[tactic(auto, using(crate::proofs::Texts::joined))]
fn append_cell(
    text: &mut Vec<u8>,
    device: DeviceName,
    input: Input,
    x: u32,
    y: u32,
    i: u32,
) -> Result<(), AllocError>
    requires column { x < grid_width device }
    requires row { y < grid_height device }
    requires cell { i < 8 }
    ensures { OnOk result (text.new.items ≡ text.old.items ++ text_of (lines_into input device x y (cell_number_of device x y i) i)) }
{
    let j = cell_number(device, x, y, i);
    match input {
        Input::In0 => append_in_0(text, device, x, y, j, i),
        Input::In3 if j < rams(device) => append_in_3(text, device, x, y, j, i),
        Input::In3 => Ok(()),
    }
}

/// Appends the buffer into in_0 of cell `j`.
#[tactic(auto, using(crate::proofs::Texts::joined), unfolding(text_lines::specs::Written::text_of, crate::specs::Database::in_0_lines))]
fn append_in_0(
    text: &mut Vec<u8>,
    device: DeviceName,
    x: u32,
    y: u32,
    j: u32,
    i: u32,
) -> Result<(), AllocError>
    requires cell { j < 2 ^ 16 }
    requires place { i < 8 }
    ensures { OnOk result (text.new.items ≡ text.old.items ++ text_of (in_0_lines device x y j i)) }
{
    append_in_0_statement(text, device, x, y, j, i)?;
    append_choice(text, b"10", 1 + j)?;
    append_choice(text, b"01", far_net(j))
}

/// Appends the statement of the buffer into in_0 of cell `j`.
#[tactic(auto, using(crate::proofs::Texts::joined), unfolding(text_lines::specs::Written::text_of))]
fn append_in_0_statement(
    text: &mut Vec<u8>,
    device: DeviceName,
    x: u32,
    y: u32,
    j: u32,
    i: u32,
) -> Result<(), AllocError>
    requires cell { j < 2 ^ 16 }
    requires place { i < 8 }
    ensures { OnOk result (text.new.items ≡ text.old.items ++ text_of (in_0_statement device x y j i ∷ [])) }
{
    append_statement(text, x, y, in_0_net(device, j))?;
    append_bit(text, 2 * i, 0)?;
    append_bit(text, 2 * i + 1, 0)?;
    end_line(text)
}

/// The farther of the two nets that can drive in_0 of cell `j`.
fn far_net(j: u32) -> u32
    ensures { result ≡ far_net_of j }
{
    if j < 3 { 0 } else { j - 1 }
}

/// Appends the buffer into in_3 of cell `r`.
#[tactic(auto, using(crate::proofs::Texts::joined), unfolding(text_lines::specs::Written::text_of, crate::specs::Database::in_3_lines))]
fn append_in_3(
    text: &mut Vec<u8>,
    device: DeviceName,
    x: u32,
    y: u32,
    r: u32,
    i: u32,
) -> Result<(), AllocError>
    requires ram { r < 2 ^ 16 }
    requires place { i < 8 }
    ensures { OnOk result (text.new.items ≡ text.old.items ++ text_of (in_3_lines device x y r i)) }
{
    append_statement(text, x, y, in_3_net(device, r))?;
    append_bit(text, 2 * i, 1)?;
    end_line(text)?;
    append_choice(text, b"1", read_net(device, r))
}

/// Appends the statement of a buffer, without its bits.
fn append_statement(text: &mut Vec<u8>, x: u32, y: u32, net: u32) -> Result<(), AllocError>
    ensures { OnOk result (text.new.items ≡ text.old.items ++ buffer_line x y net) }
{
    text.extend_from_slice(b".buffer")?;
    append_number(text, x)?;
    append_number(text, y)?;
    append_number(text, net)
}

/// Appends the values of a buffer's bits, and the net that they choose.
#[tactic(auto, unfolding(text_lines::specs::Written::text_of))]
fn append_choice(text: &mut Vec<u8>, values: &[u8], net: u32) -> Result<(), AllocError>
    ensures { OnOk result (text.new.items ≡ text.old.items ++ text_of (with_word values.now (decimal net) ∷ [])) }
{
    text.extend_from_slice(values)?;
    append_number(text, net)?;
    end_line(text)
}
