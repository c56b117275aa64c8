// The nets and their names.
ghost use Rattle.plane_map.specs.Devices.{has_database};
ghost use Rattle.std.specs.Prelude.{◌≡◌, ◌<◌, ◌≤◌, ◌+◌, ◌^◌, true, [], ◌∷◌, ◌++◌, OnOk, map, codes, decimal, nat_le, nat_lt, ◌-◌, ◌==◌, ◌&&◌, ◌||◌};
ghost use Rattle.index_search.specs.Places.{gathered_below};
ghost use Rattle.text_lines.specs.Written.{text_of};
ghost use Rattle.plane_map.specs.Layout.{grid_height, grid_width, kind_of};
ghost use Rattle.asc_text.specs.Canonical.{with_word};
ghost use Rattle.ice_gen.specs.Numbers.{cell_number as cell_number_of, in_3_net as in_3_net_of, nets as nets_of, out_net as out_net_of, ram_number as ram_number_of, rams as rams_of};
ghost use Rattle.ice_gen.specs.Inside.{is_among as among_of, is_of_cells as of_cells_of, is_of_row as of_row_of, is_shared as shared_of};
ghost use Rattle.ice_gen.specs.Database.{cell_names, cell_wire, logic_names, name_line, named, names_at, names_in_row, net_lines, numbered, pin_names, ram_names};

use crate::lines::{append_decimal, append_number, end_line};
use crate::numbers::{
    address_net, cell_number, in_0_net, in_3_net, middle_net, nets, out_net, ram_number, rams,
    read_enable_net, read_net, write_enable_net, write_net,
};
use plane_map::{DeviceName, TileKind, kind_on};
use std::alloc::AllocError;

/// Appends all nets.
#[tactic(auto, using(crate::proofs::Texts::joined), unfolding(index_search::specs::Places::gathered_below))]
pub(crate) fn append_nets(text: &mut Vec<u8>, device: DeviceName) -> Result<(), AllocError>
    requires { has_database device ≡ true }
    ensures { OnOk result (text.new.items ≡ text.old.items ++ text_of (gathered_below (nets_of device) (net_lines device))) }
{
    for net in 0..nets(device) {
        append_net(text, device, net)?;
    }
    Ok(())
}

/// Appends a net and all its names.
#[tactic(auto, using(crate::proofs::Texts::joined), unfolding(index_search::specs::Places::gathered_below, crate::specs::Database::net_lines))]
fn append_net(text: &mut Vec<u8>, device: DeviceName, net: u32) -> Result<(), AllocError>
    requires database { has_database device ≡ true }
    requires net { net < 2 ^ 20 }
    ensures { OnOk result (text.new.items ≡ text.old.items ++ text_of (net_lines device net)) }
{
    append_statement(text, net)?;
    for y in 0..device.rows() {
        append_row(text, device, net, y)?;
    }
    Ok(())
}

/// Appends the statement of a net.
#[tactic(auto, unfolding(text_lines::specs::Written::text_of))]
fn append_statement(text: &mut Vec<u8>, net: u32) -> Result<(), AllocError>
    ensures { OnOk result (text.new.items ≡ text.old.items ++ text_of (with_word (codes ".net") (decimal net) ∷ [])) }
{
    text.extend_from_slice(b".net")?;
    append_number(text, net)?;
    end_line(text)
}

/// Appends the names that the tiles of a row of the grid give to a net.
fn append_row(text: &mut Vec<u8>, device: DeviceName, net: u32, y: u32) -> Result<(), AllocError>
    requires database { has_database device ≡ true }
    requires row { y < grid_height device }
    requires net { net < 2 ^ 20 }
    ensures { OnOk result (text.new.items ≡ text.old.items ++ text_of (names_in_row device net y)) }
{
    if may_be_named(device, net, y) {
        append_tiles(text, device, net, y)
    } else {
        Ok(())
    }
}

/// Appends the names that the tiles of a row of the grid give to a net, asking each tile.
#[tactic(auto, using(crate::proofs::Texts::joined), unfolding(index_search::specs::Places::gathered_below))]
fn append_tiles(text: &mut Vec<u8>, device: DeviceName, net: u32, y: u32) -> Result<(), AllocError>
    requires row { y < grid_height device }
    requires net { net < 2 ^ 20 }
    ensures { OnOk result (text.new.items ≡ text.old.items ++ text_of (names_in_row device net y)) }
{
    for x in 0..device.columns() {
        append_names(text, device, net, x, y)?;
    }
    Ok(())
}

/// Whether a tile of a row of the grid may give a name to a net, judged by the net's number.
fn may_be_named(device: DeviceName, net: u32, y: u32) -> bool
    requires row { y < grid_height device }
    requires net { net < 2 ^ 20 }
    ensures { result ≡ (shared_of device net || of_row_of device net y) }
{
    is_shared(device, net) || is_of_row(device, net, y)
}

/// Whether a net may get a name from a tile other than those of the two cells that it connects.
fn is_shared(device: DeviceName, net: u32) -> bool
    ensures { result ≡ shared_of device net }
{
    net < 2 + 16 * rams(device)
        || net >= read_net(device, 0)
        || net == write_enable_net(device)
        || net == read_enable_net(device)
        || net == middle_net(device)
}

/// Whether a net is an output or an input of a cell in a row of the grid.
fn is_of_row(device: DeviceName, net: u32, y: u32) -> bool
    requires { y < grid_height device }
    ensures { result ≡ of_row_of device net y }
{
    let first = cell_number(device, 1, y, 0);
    let count = 8 * (device.columns() - 4);
    is_among(net, first, count + 2) || is_among(net, in_0_net(device, first), count)
}

/// Whether a net is one of `count` nets in sequence.
fn is_among(net: u32, first: u32, count: u32) -> bool
    requires { first + count < 2 ^ 32 }
    ensures { result ≡ among_of net first count }
{
    first <= net && net < first + count
}

/// Appends the names that the tile at (x, y) gives to a net.
#[tactic(auto, using(crate::proofs::Texts::joined))]
fn append_names(
    text: &mut Vec<u8>,
    device: DeviceName,
    net: u32,
    x: u32,
    y: u32,
) -> Result<(), AllocError>
    requires column { x < grid_width device }
    requires row { y < grid_height device }
    requires net { net < 2 ^ 20 }
    ensures { OnOk result (text.new.items ≡ text.old.items ++ text_of (map (name_line x y) (names_at device net x y))) }
{
    match kind_on(device, x, y) {
        None => Ok(()),
        Some(TileKind::RamT) => Ok(()),
        Some(TileKind::Io) => append_pin_names(text, device, net, x, y),
        Some(TileKind::Logic) => append_logic_names(text, device, net, x, y),
        Some(TileKind::RamB) => append_ram_names(text, device, net, x, y),
    }
}

/// Appends the names that an io tile gives.
#[tactic(auto, using(crate::proofs::Texts::joined), unfolding(crate::specs::Database::pin_names))]
fn append_pin_names(
    text: &mut Vec<u8>,
    device: DeviceName,
    net: u32,
    x: u32,
    y: u32,
) -> Result<(), AllocError>
    ensures { OnOk result (text.new.items ≡ text.old.items ++ text_of (map (name_line x y) (pin_names device net x y))) }
{
    append_named(text, x, y, x == 0 && y == 2 && net == 1, b"io_0/D_IN_0")?;
    append_named(
        text,
        x,
        y,
        x == 0 && y == 3 && net == read_enable_net(device),
        b"io_0/D_OUT_0",
    )?;
    append_named(
        text,
        x,
        y,
        x == 0 && y == 4 && net == middle_net(device),
        b"io_0/D_OUT_0",
    )
}

/// Appends the names that a logic tile gives.
#[tactic(auto, using(crate::proofs::Texts::joined), unfolding(crate::specs::Database::logic_names, index_search::specs::Places::gathered_below))]
fn append_logic_names(
    text: &mut Vec<u8>,
    device: DeviceName,
    net: u32,
    x: u32,
    y: u32,
) -> Result<(), AllocError>
    requires column { x < grid_width device }
    requires row { y < grid_height device }
    ensures { OnOk result (text.new.items ≡ text.old.items ++ text_of (map (name_line x y) (logic_names device net x y))) }
{
    append_named(text, x, y, net == 0, b"glb_netwk_0")?;
    append_names_of_cells(text, device, net, x, y)?;
    append_named(text, x, y, net == 0, b"lutff_global/clk")
}

/// Appends the names that the cells of a tile give.
fn append_names_of_cells(
    text: &mut Vec<u8>,
    device: DeviceName,
    net: u32,
    x: u32,
    y: u32,
) -> Result<(), AllocError>
    requires column { x < grid_width device }
    requires row { y < grid_height device }
    ensures { OnOk result (text.new.items ≡ text.old.items ++ text_of (map (name_line x y) (gathered_below 8 (λ i. cell_names device net (cell_number_of device x y i) i)))) }
{
    if is_of_tile(device, net, x, y) {
        append_each_cell(text, device, net, x, y)
    } else {
        Ok(())
    }
}

/// Whether a cell of a tile may give a name to a net, judged by the net's number.
fn is_of_tile(device: DeviceName, net: u32, x: u32, y: u32) -> bool
    requires column { x < grid_width device }
    requires row { y < grid_height device }
    ensures { result ≡ of_cells_of device net (cell_number_of device x y 0) }
{
    let first = cell_number(device, x, y, 0);
    is_among(net, first, 10)
        || is_among(net, in_0_net(device, first), 8)
        || is_among(net, in_3_net(device, first), 8)
}

/// Appends the names that the cells of a tile give, asking each cell.
#[tactic(auto, using(crate::proofs::Texts::joined), unfolding(index_search::specs::Places::gathered_below))]
fn append_each_cell(
    text: &mut Vec<u8>,
    device: DeviceName,
    net: u32,
    x: u32,
    y: u32,
) -> Result<(), AllocError>
    requires column { x < grid_width device }
    requires row { y < grid_height device }
    ensures { OnOk result (text.new.items ≡ text.old.items ++ text_of (map (name_line x y) (gathered_below 8 (λ i. cell_names device net (cell_number_of device x y i) i)))) }
{
    for i in 0..8 {
        append_cell_names(text, device, net, x, y, i)?;
    }
    Ok(())
}

/// Appends the names that a cell of a tile gives.
#[tactic(auto, using(crate::proofs::Texts::joined), unfolding(crate::specs::Database::cell_names))]
fn append_cell_names(
    text: &mut Vec<u8>,
    device: DeviceName,
    net: u32,
    x: u32,
    y: u32,
    i: u32,
) -> Result<(), AllocError>
    requires column { x < grid_width device }
    requires row { y < grid_height device }
    requires cell { i < 8 }
    ensures { OnOk result (text.new.items ≡ text.old.items ++ text_of (map (name_line x y) (cell_names device net (cell_number_of device x y i) i))) }
{
    let j = cell_number(device, x, y, i);
    append_wire(text, x, y, net == in_0_net(device, j), i, b"/in_0")?;
    append_wire(text, x, y, is_in_1(net, j), i, b"/in_1")?;
    append_wire(text, x, y, is_in_3(device, net, j), i, b"/in_3")?;
    append_wire(text, x, y, net == out_net(j), i, b"/out")
}

/// Whether a net is in_1 of cell `j`, that is the output of cell `j - 2`.
fn is_in_1(net: u32, j: u32) -> bool
    requires { j < 2 ^ 16 }
    ensures { result ≡ (nat_le 2 j && (net == out_net_of (j - 2))) }
{
    j >= 2 && net == out_net(j - 2)
}

/// Whether a net is in_3 of cell `j`, which the RAM with that number drives.
fn is_in_3(device: DeviceName, net: u32, j: u32) -> bool
    requires { j < 2 ^ 16 }
    ensures { result ≡ (nat_lt j (rams_of device) && (net == in_3_net_of device j)) }
{
    j < rams(device) && net == in_3_net(device, j)
}

/// Appends the names that the lower tile of a RAM gives.
#[tactic(auto, using(crate::proofs::Texts::joined), unfolding(crate::specs::Database::ram_names))]
fn append_ram_names(
    text: &mut Vec<u8>,
    device: DeviceName,
    net: u32,
    x: u32,
    y: u32,
) -> Result<(), AllocError>
    requires row { y < grid_height device }
    ensures { OnOk result (text.new.items ≡ text.old.items ++ text_of (map (name_line x y) (ram_names device net (ram_number_of device x y)))) }
{
    let r = ram_number(device, x, y);
    append_numbered(text, x, y, net, address_net(r), 8, b"ram/RADDR_")?;
    append_named(text, x, y, net == 0, b"ram/RCLK")?;
    append_numbered(text, x, y, net, read_net(device, r), 16, b"ram/RDATA_")?;
    append_named(text, x, y, net == read_enable_net(device), b"ram/RE")?;
    append_numbered(text, x, y, net, address_net(r), 8, b"ram/WADDR_")?;
    append_named(text, x, y, net == 0, b"ram/WCLK")?;
    append_numbered(text, x, y, net, write_net(r), 16, b"ram/WDATA_")?;
    append_named(text, x, y, net == write_enable_net(device), b"ram/WE")
}

/// Appends a name, if the test passed.
#[tactic(auto, unfolding(text_lines::specs::Written::text_of))]
fn append_named(
    text: &mut Vec<u8>,
    x: u32,
    y: u32,
    passed: bool,
    name: &[u8],
) -> Result<(), AllocError>
    ensures { OnOk result (text.new.items ≡ text.old.items ++ text_of (map (name_line x y) (named passed name.now))) }
{
    if !passed {
        return Ok(());
    }
    append_place(text, x, y)?;
    text.extend_from_slice(name)?;
    end_line(text)
}

/// Appends the name of a wire of cell `i`, if the test passed.
#[tactic(auto, unfolding(text_lines::specs::Written::text_of))]
fn append_wire(
    text: &mut Vec<u8>,
    x: u32,
    y: u32,
    passed: bool,
    i: u32,
    wire: &[u8],
) -> Result<(), AllocError>
    ensures { OnOk result (text.new.items ≡ text.old.items ++ text_of (map (name_line x y) (named passed (cell_wire i wire.now)))) }
{
    if !passed {
        return Ok(());
    }
    append_place(text, x, y)?;
    text.extend_from_slice(b"lutff_")?;
    append_decimal(text, i)?;
    text.extend_from_slice(wire)?;
    end_line(text)
}

/// Appends the name of a net, if it is one of `count` nets in sequence.
#[tactic(auto, unfolding(text_lines::specs::Written::text_of))]
fn append_numbered(
    text: &mut Vec<u8>,
    x: u32,
    y: u32,
    net: u32,
    first: u32,
    count: u32,
    word: &[u8],
) -> Result<(), AllocError>
    requires { first + count < 2 ^ 32 }
    ensures { OnOk result (text.new.items ≡ text.old.items ++ text_of (map (name_line x y) (numbered net first count word.now))) }
{
    if net < first || net >= first + count {
        return Ok(());
    }
    append_place(text, x, y)?;
    text.extend_from_slice(word)?;
    append_decimal(text, net - first)?;
    end_line(text)
}

/// Appends the place of a tile, and a space.
fn append_place(text: &mut Vec<u8>, x: u32, y: u32) -> Result<(), AllocError>
    ensures { OnOk result (text.new.items ≡ text.old.items ++ decimal x ++ 32 ∷ decimal y ++ 32 ∷ []) }
{
    append_decimal(text, x)?;
    append_number(text, y)?;
    text.push(b' ')?;
    Ok(())
}
