// Why a database and an image aren't taken.
ghost use Rattle.std.specs.Prelude.{◌≡◌};

use crate::cycle::Cycle;
use fabric_model::{ClockUser, Driver, LinkFault};
use fabric_parts::{PinFault, RamFault};
use fabric_plls::PllFault;
use fabric_wiring::DriverFault;
use std::alloc::AllocError;

/// Why a database and an image aren't taken: the first cause that holds, in the order below, with the first tile, pin, class of joined nets
/// or clock user that has it. Tiles are ordered by row, then by column. A class of joined nets is named by its least net, and a RAM by its
/// lower tile.
#[derive(Drop)]
pub enum FabricFault {
    /// They are for different devices.
    Device,
    /// The PLLs aren't taken. The tile is that of a PLL, which may be outside of the grid, or of a function of PLLs.
    Pll {
        x: u32,
        y: u32,
    },
    /// Pin `pio` of the io tile at (x, y) isn't taken. Its PIN_TYPE is `pintype`.
    PinMode {
        x: u8,
        y: u8,
        pio: u8,
        pintype: u8,
    },
    /// The RAM at (x, y) is cascaded.
    Cascade {
        x: u8,
        y: u8,
    },
    /// The class of joined nets `net` has two drivers or more. These are the first two.
    TwoDrivers {
        net: u32,
        first: Driver,
        second: Driver,
    },
    /// The class of joined nets `net` lies on this cycle, which begins with it. The cycle is a combinational one, or goes by registers that are
    /// clocks.
    Loop {
        net: u32,
        cycle: Cycle,
    },
    /// The clock of a user at the tile at (x, y), on the net `net`, comes from logic.
    Clock {
        x: u8,
        y: u8,
        user: ClockUser,
        net: u32,
    },
    /// Out of memory. It may come in place of any other answer.
    Memory(AllocError),
}

impl From<AllocError> for FabricFault {
    ghost use Rattle.fabric.specs.declared.fault.FabricFault.TheVariants.{Memory};

    ghost from_gives = { λ e fault. fault ≡ Memory e };

    fn from(e: AllocError) -> FabricFault {
        FabricFault::Memory(e)
    }
}

impl From<LinkFault> for FabricFault {
    ghost use Rattle.fabric.specs.Causes.{of_links};

    ghost from_gives = { λ e fault. fault ≡ of_links e };

    fn from(e: LinkFault) -> FabricFault {
        match e {
            LinkFault::Device => FabricFault::Device,
            LinkFault::Memory(e) => FabricFault::Memory(e),
        }
    }
}

impl From<PllFault> for FabricFault {
    ghost use Rattle.fabric.specs.Causes.{of_plls};

    ghost from_gives = { λ e fault. fault ≡ of_plls e };

    fn from(e: PllFault) -> FabricFault {
        match e {
            PllFault::Pll { x, y } => FabricFault::Pll { x, y },
            PllFault::Memory(e) => FabricFault::Memory(e),
        }
    }
}

impl From<PinFault> for FabricFault {
    ghost use Rattle.fabric.specs.Causes.{of_pins};

    ghost from_gives = { λ e fault. fault ≡ of_pins e };

    fn from(e: PinFault) -> FabricFault {
        match e {
            PinFault::PinMode { x, y, pio, pintype } => FabricFault::PinMode { x, y, pio, pintype },
            PinFault::Memory(e) => FabricFault::Memory(e),
        }
    }
}

impl From<RamFault> for FabricFault {
    ghost use Rattle.fabric.specs.Causes.{of_rams};

    ghost from_gives = { λ e fault. fault ≡ of_rams e };

    fn from(e: RamFault) -> FabricFault {
        match e {
            RamFault::Cascade { x, y } => FabricFault::Cascade { x, y },
            RamFault::Memory(e) => FabricFault::Memory(e),
        }
    }
}

impl From<DriverFault> for FabricFault {
    ghost use Rattle.fabric.specs.Causes.{of_drivers};

    ghost from_gives = { λ e fault. fault ≡ of_drivers e };

    fn from(e: DriverFault) -> FabricFault {
        match e {
            DriverFault::TwoDrivers { net, first, second } => {
                FabricFault::TwoDrivers { net, first, second }
            }
            DriverFault::Memory(e) => FabricFault::Memory(e),
        }
    }
}
