// The devices.
ghost use Rattle.std.specs.Prelude.{◌≡◌, ℕ, refl};
ghost use Rattle.plane_map.specs.declared.device.DeviceName.{DeviceName as Name};
ghost use Rattle.plane_map.specs.declared.device.DeviceName.TheVariants as device_name;
ghost use Rattle.plane_map.specs.Devices.{has_database, is_same_device};
ghost use Rattle.plane_map.specs.Layout.{grid_width, grid_height, ram_column, cram_width, cram_height, bram_width, bram_height};

use bit_plane::{Bits, Plane};

/// The most columns, and the most rows, that the grid of a device has.
pub const MAX_SIDE: usize = 34;

/// A device by its name.
#[derive(Clone, Copy, Debug, PartialEq, Eq)]
pub enum DeviceName {
    /// iCE40 LP384: a grid of 8 by 10, without RAM.
    Lp384,
    /// iCE40 HX1K: a grid of 14 by 18.
    Hx1k,
    /// iCE40 HX8K: a grid of 34 by 34.
    Hx8k,
}

impl DeviceName {
    /// Whether both are one device.
    pub fn is_same(self, other: DeviceName) -> bool
        ensures { result ≡ is_same_device self other }
    {
        self == other
    }

    /// Whether chip databases of it are read: none of an LP384 is.
    pub fn has_database(self) -> bool
        ensures { result ≡ has_database self }
    {
        match self {
            DeviceName::Lp384 => false,
            DeviceName::Hx1k | DeviceName::Hx8k => true,
        }
    }

    /// How many columns of tiles there are.
    pub fn columns(self) -> u32
        ensures { result ≡ grid_width self }
    {
        match self {
            DeviceName::Lp384 => 8,
            DeviceName::Hx1k => 14,
            DeviceName::Hx8k => 34,
        }
    }

    /// How many rows of tiles there are.
    pub fn rows(self) -> u32
        ensures { result ≡ grid_height self }
    {
        match self {
            DeviceName::Lp384 => 10,
            DeviceName::Hx1k => 18,
            DeviceName::Hx8k => 34,
        }
    }

    /// How many columns of bits each of the four configuration planes has.
    pub fn cram_columns(self) -> u32
        ensures { result ≡ cram_width self }
    {
        match self {
            DeviceName::Lp384 => 182,
            DeviceName::Hx1k => 332,
            DeviceName::Hx8k => 872,
        }
    }

    /// How many rows of bits each of the four configuration planes has.
    pub fn cram_rows(self) -> u32
        ensures { result ≡ cram_height self }
    {
        match self {
            DeviceName::Lp384 => 80,
            DeviceName::Hx1k => 144,
            DeviceName::Hx8k => 272,
        }
    }

    /// How many columns of bits each of the four RAM planes has, or 0 if the device has no RAM.
    pub fn bram_columns(self) -> u32
        ensures { result ≡ bram_width self }
    {
        match self {
            DeviceName::Lp384 => 0,
            DeviceName::Hx1k => 64,
            DeviceName::Hx8k => 128,
        }
    }

    /// How many rows of bits each of the four RAM planes has, or 0 if the device has no RAM.
    pub fn bram_rows(self) -> u32
        ensures { result ≡ bram_height self }
    {
        match self {
            DeviceName::Lp384 => 0,
            DeviceName::Hx1k | DeviceName::Hx8k => 256,
        }
    }

    /// The left of the two columns of RAM, or 0 if the device has no RAM.
    pub(crate) fn left_ram_column(self) -> u32
        ensures { result ≡ ram_column self }
    {
        match self {
            DeviceName::Lp384 => 0,
            DeviceName::Hx1k => 3,
            DeviceName::Hx8k => 8,
        }
    }
}

/// A device by its name, its planes and its grid. The name fixes the others.
pub trait Device {
    /// A plane of configuration bits.
    type Cram: Bits;

    /// A plane of RAM contents.
    type Bram: Bits;

    ghost NAME: { Name };

    ghost GRID_W: { ℕ };

    ghost GRID_H: { ℕ };

    ghost RAM_COLUMN: { ℕ };

    /// Which device it is.
    const NAME: DeviceName;

    /// How many columns of tiles there are.
    const GRID_W: usize;

    /// How many rows of tiles there are.
    const GRID_H: usize;

    /// The left of the two columns of RAM, or 0 if the device has no RAM.
    const RAM_COLUMN: usize;

    /// The device's name.
    fn device_name() -> DeviceName
        ensures { result ≡ NAME };

    ghost grid_width_is: { GRID_W ≡ grid_width NAME };

    ghost grid_height_is: { GRID_H ≡ grid_height NAME };

    ghost ram_column_is: { RAM_COLUMN ≡ ram_column NAME };

    ghost cram_width_is: { Self.Cram.WIDTH ≡ cram_width NAME };

    ghost cram_height_is: { Self.Cram.HEIGHT ≡ cram_height NAME };

    ghost bram_width_is: { Self.Bram.WIDTH ≡ bram_width NAME };

    ghost bram_height_is: { Self.Bram.HEIGHT ≡ bram_height NAME };
}

/// The iCE40 LP384.
pub struct Lp384;

impl Device for Lp384 {
    type Cram = Plane<182, 80>;

    type Bram = Plane<0, 0>;

    ghost NAME = { device_name.Lp384 };

    ghost GRID_W = { 8 };

    ghost GRID_H = { 10 };

    ghost RAM_COLUMN = { 0 };

    const NAME: DeviceName = DeviceName::Lp384;

    const GRID_W: usize = 8;

    const GRID_H: usize = 10;

    const RAM_COLUMN: usize = 0;

    fn device_name() -> DeviceName {
        Self::NAME
    }

    ghost grid_width_is = { refl };

    ghost grid_height_is = { refl };

    ghost ram_column_is = { refl };

    ghost cram_width_is = { refl };

    ghost cram_height_is = { refl };

    ghost bram_width_is = { refl };

    ghost bram_height_is = { refl };
}

/// The iCE40 HX1K.
pub struct Hx1k;

impl Device for Hx1k {
    type Cram = Plane<332, 144>;

    type Bram = Plane<64, 256>;

    ghost NAME = { device_name.Hx1k };

    ghost GRID_W = { 14 };

    ghost GRID_H = { 18 };

    ghost RAM_COLUMN = { 3 };

    const NAME: DeviceName = DeviceName::Hx1k;

    const GRID_W: usize = 14;

    const GRID_H: usize = 18;

    const RAM_COLUMN: usize = 3;

    fn device_name() -> DeviceName {
        Self::NAME
    }

    ghost grid_width_is = { refl };

    ghost grid_height_is = { refl };

    ghost ram_column_is = { refl };

    ghost cram_width_is = { refl };

    ghost cram_height_is = { refl };

    ghost bram_width_is = { refl };

    ghost bram_height_is = { refl };
}

/// The iCE40 HX8K.
pub struct Hx8k;

impl Device for Hx8k {
    type Cram = Plane<872, 272>;

    type Bram = Plane<128, 256>;

    ghost NAME = { device_name.Hx8k };

    ghost GRID_W = { 34 };

    ghost GRID_H = { 34 };

    ghost RAM_COLUMN = { 8 };

    const NAME: DeviceName = DeviceName::Hx8k;

    const GRID_W: usize = 34;

    const GRID_H: usize = 34;

    const RAM_COLUMN: usize = 8;

    fn device_name() -> DeviceName {
        Self::NAME
    }

    ghost grid_width_is = { refl };

    ghost grid_height_is = { refl };

    ghost ram_column_is = { refl };

    ghost cram_width_is = { refl };

    ghost cram_height_is = { refl };

    ghost bram_width_is = { refl };

    ghost bram_height_is = { refl };
}
