// How many logic cells, RAMs and nets there are, and their numbers.
ghost use Rattle.std.specs.Prelude.{◌≡◌, ◌<◌, ◌≤◌, ◌+◌, ◌^◌};
ghost use Rattle.plane_map.specs.Layout.{grid_width, grid_height, ram_column as ram_column_of};
ghost use Rattle.ice_gen.specs.Numbers.{cells as cells_of, rams as rams_of, nets as nets_of, address_net as address_net_of, in_0_net as in_0_net_of, in_3_net as in_3_net_of, logic_to_left as logic_to_left_of, cell_number as cell_number_of, middle_net as middle_net_of, out_net as out_net_of, ram_number as ram_number_of, read_enable_net as read_enable_net_of, read_net as read_net_of, write_enable_net as write_enable_net_of, write_net as write_net_of};

use plane_map::DeviceName;

/// How many logic cells there are.
pub(crate) fn cells(device: DeviceName) -> u32
    ensures number { result ≡ cells_of device }
    ensures small { result ≤ 7680 }
{
    8 * ((device.columns() - 4) * (device.rows() - 2))
}

/// How many RAMs there are.
pub(crate) fn rams(device: DeviceName) -> u32
    ensures number { result ≡ rams_of device }
    ensures small { result ≤ 32 }
{
    device.rows() - 2
}

/// How many nets there are.
pub(crate) fn nets(device: DeviceName) -> u32
    ensures number { result ≡ nets_of device }
    ensures small { result ≤ 15906 }
{
    2 + 2 * cells(device) + 17 * rams(device)
}

/// The left one of the two RAM columns.
fn ram_column(device: DeviceName) -> u32
    ensures { result ≡ ram_column_of device }
{
    match device {
        DeviceName::Lp384 => 0,
        DeviceName::Hx1k => 3,
        DeviceName::Hx8k => 8,
    }
}

/// How many logic columns are to the left of an inner column.
fn logic_to_left(device: DeviceName, x: u32) -> u32
    requires { x < grid_width device }
    ensures { result ≡ logic_to_left_of device x }
{
    let ram = ram_column(device);
    let mut columns = x.saturating_sub(1);
    if x > ram {
        columns = columns.saturating_sub(1);
    }
    if x + ram > device.columns() - 1 {
        columns = columns.saturating_sub(1);
    }
    columns
}

/// The number of cell `i` of the logic tile at (x, y).
pub(crate) fn cell_number(device: DeviceName, x: u32, y: u32, i: u32) -> u32
    requires column { x < grid_width device }
    requires row { y < grid_height device }
    requires cell { i < 8 }
    ensures number { result ≡ cell_number_of device x y i }
    ensures small { result < 8448 }
{
    let row = (device.columns() - 4) * y.saturating_sub(1);
    8 * (row + logic_to_left(device, x)) + i
}

/// The number of the RAM whose lower tile is at (x, y).
pub(crate) fn ram_number(device: DeviceName, x: u32, y: u32) -> u32
    requires { y < grid_height device }
    ensures number { result ≡ ram_number_of device x y }
    ensures small { result < 34 }
{
    let right = x != ram_column(device);
    y.saturating_sub(1) + u32::from(right)
}

// ---- nets

/// The output of cell `j`.
pub(crate) fn out_net(j: u32) -> u32
    requires { j < 2 ^ 16 }
    ensures { result ≡ out_net_of j }
{
    2 + j
}

/// The input in_0 of cell `j`.
pub(crate) fn in_0_net(device: DeviceName, j: u32) -> u32
    requires { j < 2 ^ 16 }
    ensures net { result ≡ in_0_net_of device j }
    ensures small { result < 2 ^ 18 }
{
    2 + cells(device) + j
}

/// Bit 0 of the addresses of RAM `r`.
pub(crate) fn address_net(r: u32) -> u32
    requires { r < 2 ^ 16 }
    ensures net { result ≡ address_net_of r 0 }
    ensures small { result < 2 ^ 20 }
{
    2 + 8 * r
}

/// Bit 0 of the write data of RAM `r`.
pub(crate) fn write_net(r: u32) -> u32
    requires { r < 2 ^ 16 }
    ensures net { result ≡ write_net_of r 0 }
    ensures small { result < 2 ^ 21 }
{
    2 + 16 * r
}

/// Bit 0 of the read data of RAM `r`.
pub(crate) fn read_net(device: DeviceName, r: u32) -> u32
    requires { r < 2 ^ 16 }
    ensures net { result ≡ read_net_of device r 0 }
    ensures small { result < 2 ^ 21 }
{
    2 + 2 * cells(device) + 16 * r
}

/// The input in_3 of cell `r`.
pub(crate) fn in_3_net(device: DeviceName, r: u32) -> u32
    requires { r < 2 ^ 16 }
    ensures net { result ≡ in_3_net_of device r }
    ensures small { result < 2 ^ 21 }
{
    2 + 2 * cells(device) + 16 * rams(device) + r
}

/// The read enable of each RAM, which is also the first output pin.
pub(crate) fn read_enable_net(device: DeviceName) -> u32
    ensures { result ≡ read_enable_net_of device }
{
    cells(device) + 1
}

/// The write enable of each RAM.
pub(crate) fn write_enable_net(device: DeviceName) -> u32
    ensures { result ≡ write_enable_net_of device }
{
    cells(device)
}

/// The second output pin.
pub(crate) fn middle_net(device: DeviceName) -> u32
    ensures { result ≡ middle_net_of device }
{
    2 + cells(device) / 2
}
