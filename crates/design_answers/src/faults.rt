// The messages for a database and an image whose design isn't taken.
ghost use Rattle.std.specs.Prelude.{◌≡◌, ◌++◌};
ghost use Rattle.tool_run.specs.Lines.{phrase_text, refusal_text};
ghost use Rattle.design_answers.specs.Faults.{net_text, pintype_text, tile_text, told_fault, user_text, StopsFor};

use fabric::FabricFault;
use fabric_model::ClockUser;
use tool_inputs::{refusal, whole};
use tool_run::{Number, Phrase, Refusal, Stop, decimal, text};

// A refusal at a place, in the grid or not: the part of it, and the cause.
fn at_place(x: u32, y: u32, part: Phrase<'static>, cause: Phrase<'static>) -> Refusal<'static>
    ensures { refusal_text result ≡ tile_text x y ++ phrase_text part.entry ++ phrase_text cause.entry }
{
    Refusal {
        file: None,
        first: decimal("tile ", u64::from(x)),
        second: decimal(" ", u64::from(y)),
        third: part,
        fourth: cause,
    }
}

// A refusal at a tile: the part of the tile, and the cause.
fn at_tile(x: u8, y: u8, part: Phrase<'static>, cause: Phrase<'static>) -> Refusal<'static>
    ensures { refusal_text result ≡ tile_text x y ++ phrase_text part.entry ++ phrase_text cause.entry }
{
    at_place(u32::from(x), u32::from(y), part, cause)
}

// A refusal at a net, and the cause.
fn at_net(net: u32, cause: &'static str) -> Refusal<'static>
    ensures { refusal_text result ≡ net_text net ++ cause.now }
{
    refusal(decimal("net ", u64::from(net)), text(cause))
}

// The six bits of a pin's type (`PIN_TYPE` of `SB_IO`).
fn pintype_phrase(pintype: u8) -> Phrase<'static>
    ensures { phrase_text result ≡ pintype_text pintype }
{
    Phrase {
        text: ": PinMode ",
        number: Number::Binary(pintype),
    }
}

// What a clock drives in its tile.
fn user_phrase(user: ClockUser) -> Phrase<'static>
    ensures { phrase_text result ≡ user_text user }
{
    match user {
        ClockUser::Cell { i } => decimal(" cell ", u64::from(i)),
        ClockUser::Input { n } => decimal(" input ", u64::from(n)),
        ClockUser::Output { n } => decimal(" output ", u64::from(n)),
        ClockUser::Read => text(" read"),
        ClockUser::Write => text(" write"),
    }
}

/// The stop of a tool for a design that isn't taken: `Stop::Refused` with the place and the cause, or `Stop::Memory`.
pub fn design_stop(fault: &FabricFault) -> Stop<'static>
    ensures { StopsFor (told_fault fault.now) result }
{
    match fault {
        FabricFault::Device => Stop::Refused(whole("Device")),
        FabricFault::Pll { x, y } => Stop::Refused(at_place(*x, *y, text(": Pll"), text(""))),
        FabricFault::PinMode { x, y, pio, pintype } => {
            let pin = decimal(" pin ", u64::from(*pio));
            Stop::Refused(at_tile(*x, *y, pin, pintype_phrase(*pintype)))
        }
        FabricFault::Cascade { x, y } => {
            Stop::Refused(at_tile(*x, *y, text(": Cascade"), text("")))
        }
        FabricFault::TwoDrivers { net, .. } => Stop::Refused(at_net(*net, ": TwoDrivers")),
        FabricFault::Loop { net, .. } => Stop::Refused(at_net(*net, ": Loop")),
        FabricFault::Clock { x, y, user, net } => {
            let clock = decimal(": Clock net ", u64::from(*net));
            Stop::Refused(at_tile(*x, *y, user_phrase(*user), clock))
        }
        FabricFault::Memory(_) => Stop::Memory,
    }
}
