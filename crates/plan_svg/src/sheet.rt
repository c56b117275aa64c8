// Where things stand on the sheet, in units of the picture.
ghost use Rattle.std.specs.Prelude.{◌≡◌, ◌<◌, ◌^◌};
ghost use Rattle.plan_svg.specs.Sheet.{at, bits_of, cell_offset, fabric_badge, height, left, legend_left, pin_badge, pin_offset, shade, sheet_of, side_of, top, turn, width};

use plane_map::DeviceName;

/// The sheet of a picture: a grid of tiles with a margin around it.
#[derive(Clone, Copy)]
pub(crate) struct Sheet {
    pub(crate) margin: u8,
    pub(crate) columns: u8,
    pub(crate) rows: u8,
}

/// How far something is from the left and from the top.
#[derive(Clone, Copy)]
pub(crate) struct Offset {
    pub(crate) x: u8,
    pub(crate) y: u8,
}

/// A side of the grid.
#[derive(Clone, Copy)]
pub(crate) enum Side {
    Left,
    Top,
    Right,
    Bottom,
}

impl Sheet {
    /// The sheet for a device, with room for names if there are some.
    pub(crate) fn of(device: DeviceName, named: bool) -> Sheet
        ensures { result ≡ sheet_of device named }
    {
        Sheet {
            margin: if named { 150 } else { 34 },
            columns: device.columns() as u8,
            rows: device.rows() as u8,
        }
    }

    /// The left edge of a column of tiles.
    pub(crate) fn left(self, x: u32) -> u64
        ensures is { result ≡ left self x }
        ensures small { result < 2 ^ 40 }
    {
        u64::from(self.margin) + 42 * u64::from(x)
    }

    /// The top edge of a row of tiles.
    pub(crate) fn top(self, y: u32) -> u64
        ensures is { result ≡ top self y }
        ensures small { result < 2 ^ 40 }
    {
        let above = u32::from(self.rows).saturating_sub(1).saturating_sub(y);
        60 + u64::from(self.margin) + 42 * u64::from(above)
    }

    /// The left edge of the legend.
    pub(crate) fn legend_left(self) -> u64
        ensures is { result ≡ legend_left self }
        ensures small { result < 2 ^ 40 }
    {
        2 * u64::from(self.margin) + 42 * u64::from(self.columns) + 8
    }

    pub(crate) fn width(self) -> u64
        ensures { result ≡ width self }
    {
        self.legend_left() + 300
    }

    pub(crate) fn height(self) -> u64
        ensures { result ≡ height self }
    {
        76 + 2 * u64::from(self.margin) + 42 * u64::from(self.rows)
    }

    /// The side of the grid at which an io tile is.
    pub(crate) fn side_of(self, x: u8, y: u8) -> Side
        ensures { result ≡ side_of self x y }
    {
        if x == 0 {
            Side::Left
        } else if u32::from(x) + 1 == u32::from(self.columns) {
            Side::Right
        } else if u32::from(y) + 1 == u32::from(self.rows) {
            Side::Top
        } else {
            Side::Bottom
        }
    }
}

impl Side {
    /// By how many degrees a pin is turned, so that it points out of the grid.
    pub(crate) fn turn(self) -> u64
        ensures { result ≡ turn self }
    {
        match self {
            Side::Left => 270,
            Side::Top => 0,
            Side::Right => 90,
            Side::Bottom => 180,
        }
    }

    /// The centre of pin `n` in its tile.
    pub(crate) fn pin_offset(self, n: u8) -> Offset
        ensures { result ≡ pin_offset self n }
    {
        match (self, n) {
            (Side::Left, 0) => at(11, 30),
            (Side::Left, _) => at(11, 10),
            (Side::Top, 0) => at(10, 11),
            (Side::Top, _) => at(30, 11),
            (Side::Right, 0) => at(29, 30),
            (Side::Right, _) => at(29, 10),
            (Side::Bottom, 0) => at(10, 29),
            (Side::Bottom, _) => at(30, 29),
        }
    }

    /// The centre of the badge of a global network at pin `n`.
    pub(crate) fn pin_badge(self, n: u8) -> Offset
        ensures { result ≡ pin_badge self n }
    {
        match (self, n) {
            (Side::Left, 0) => at(31, 33),
            (Side::Left, _) => at(31, 7),
            (Side::Top, 0) => at(7, 31),
            (Side::Top, _) => at(33, 31),
            (Side::Right, 0) => at(9, 33),
            (Side::Right, _) => at(9, 7),
            (Side::Bottom, 0) => at(7, 9),
            (Side::Bottom, _) => at(33, 9),
        }
    }

    /// The centre of the badge of a global network that the fabric drives.
    pub(crate) fn fabric_badge(self) -> Offset
        ensures { result ≡ fabric_badge self }
    {
        match self {
            Side::Left => at(31, 20),
            Side::Top => at(20, 31),
            Side::Right => at(9, 20),
            Side::Bottom => at(20, 9),
        }
    }
}

fn at(x: u8, y: u8) -> Offset
    ensures { result ≡ at x y }
{
    Offset { x, y }
}

/// The corner of cell `i` in its tile.
pub(crate) fn cell_offset(i: u8) -> Offset
    ensures { result ≡ cell_offset i }
{
    let up = 9 * u16::from(i / 2);
    at(3 + 18 * (i % 2), 30u16.saturating_sub(up) as u8)
}

/// The shade of a tile in which that many links are on, 0 to 6.
pub(crate) fn shade(links: usize) -> u64
    ensures { result ≡ shade links }
{
    match links {
        0 => 0,
        1..50 => 1 + links as u64 / 10,
        _ => 6,
    }
}

/// How many bits a word of a RAM has in a mode.
pub(crate) fn bits_of(mode: u8) -> u64
    ensures { result ≡ bits_of mode }
{
    match mode {
        0 => 16,
        1 => 8,
        2 => 4,
        _ => 2,
    }
}
