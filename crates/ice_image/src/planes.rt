// The planes of a device, and their rows.
ghost use Rattle.std.specs.Prelude.{◌≡◌};
ghost use Rattle.ice_image.specs.Planes.{plane_width, plane_height};

use plane_map::DeviceName;

/// The two kinds of planes. A device has four of each, one for each bank.
#[derive(Clone, Copy, Debug, PartialEq, Eq)]
pub enum PlaneKind {
    /// The configuration planes (CRAM).
    Cram,
    /// The RAM planes (BRAM), with the contents of block RAM.
    Bram,
}

impl PlaneKind {
    /// How many columns of bits these planes have.
    pub fn columns(self, device: DeviceName) -> usize
        ensures { result ≡ plane_width self device }
    {
        let columns = match self {
            PlaneKind::Cram => device.cram_columns(),
            PlaneKind::Bram => device.bram_columns(),
        };
        columns as usize
    }

    /// How many rows of bits these planes have.
    pub fn rows(self, device: DeviceName) -> usize
        ensures { result ≡ plane_height self device }
    {
        let rows = match self {
            PlaneKind::Cram => device.cram_rows(),
            PlaneKind::Bram => device.bram_rows(),
        };
        rows as usize
    }
}
