// Classes of joined nets with two drivers.
ghost use Rattle.std.specs.Prelude.{◌≡◌};

use fabric_model::Driver;
use std::alloc::AllocError;

/// Why drivers aren't taken.
#[derive(Clone, Copy, Debug, PartialEq, Eq)]
pub enum DriverFault {
    /// A class of joined nets has two drivers or more. It is the least such class, named by its least net, with its first two drivers.
    TwoDrivers {
        net: u32,
        first: Driver,
        second: Driver,
    },
    /// Out of memory. It may come in place of any other answer.
    Memory(AllocError),
}

impl From<AllocError> for DriverFault {
    ghost use Rattle.fabric_wiring.specs.declared.fault.DriverFault.TheVariants.{Memory};

    ghost from_gives = { λ e fault. fault ≡ Memory e };

    fn from(e: AllocError) -> DriverFault {
        DriverFault::Memory(e)
    }
}
