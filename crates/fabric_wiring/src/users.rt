// Users of clocks whose clock comes from logic.
ghost use Rattle.std.specs.Prelude.{◌≡◌, ◌<◌, ◌&&◌, ◌||◌, ◌==◌, ◌∷◌, ◌++◌, [], List, All, nat_lt, length, flat_map, option_to_list};
ghost use Rattle.fabric_model.specs.Fabric.{Fabric};
ghost use Rattle.fabric_model.specs.Within.{IsNetIn};
ghost use Rattle.fabric_model.specs.Tiles.{first_of};
ghost use Rattle.fabric_model.specs.Faults.{clock_faults};
ghost use Rattle.fabric_model.specs.Links.{class_in};
ghost use Rattle.fabric_wiring.specs.Parts.{ArePartsOf};
ghost use Rattle.fabric_wiring.specs.Ends.{end_in, AreEndsOf};
ghost use Rattle.fabric_wiring.specs.Users.{fault_of};
ghost use Rattle.fabric_wiring.specs.First.{register_inputs, ram_inputs, is_other, unclocked_by, unclocked_in, first_on, is_on_grid, is_before, is_before_any};

use crate::Parts;
use crate::ends::{ClockEnd, end_at};
use fabric_model::{ClockUser, Links, RamCell, Register};
use plane_map::DeviceName;

/// A user of a clock at the tile at (x, y), and the net of its clock, which comes from logic.
#[derive(Clone, Copy, Debug, PartialEq, Eq)]
pub struct Unclocked {
    pub x: u8,
    pub y: u8,
    pub user: ClockUser,
    pub net: u32,
}

/// A user of a clock at the tile at (x, y), and the net of its clock, if it has one.
#[derive(Clone, Copy)]
struct ClockInput {
    x: u8,
    y: u8,
    user: ClockUser,
    net: Option<u32>,
}

/// Finds the first user whose clock comes from logic. Users are ordered by tile; the registers of a tile are in
/// their order, and the read port of a RAM comes before its write port. It goes over the registers and the RAMs once, and allocates no
/// memory.
pub fn first_unclocked(device: DeviceName, parts: &Parts, ends: &[ClockEnd]) -> Option<Unclocked>
    ghost fabric: { Fabric }
    requires parts { ArePartsOf fabric parts.now }
    requires ends { AreEndsOf fabric ends.now }
    ensures { fault_of result ≡ first_of (clock_faults device fabric) }
{
    let register = first_register(device, &parts.links, ends, &parts.registers);
    or_first_port(device, &parts.links, ends, &parts.rams, register)
}

/// The first register whose clock comes from logic.
fn first_register(
    device: DeviceName,
    links: &Links,
    ends: &[ClockEnd],
    registers: &[Register],
) -> Option<Unclocked>
    requires { All (λ register. IsNetIn (length links.now.classes) register.clk) registers.now }
    ensures { result ≡ first_on device (unclocked_in links.now ends.now (flat_map register_inputs registers.now)) }
{
    let mut found = None;
    for register in registers {
        found = or_register(device, links, ends, found, register);
    }
    found
}

/// What was found, or the first port of RAMs whose clock comes from logic, if its tile comes before.
fn or_first_port(
    device: DeviceName,
    links: &Links,
    ends: &[ClockEnd],
    rams: &[RamCell],
    first: Option<Unclocked>,
) -> Option<Unclocked>
    requires read { All (λ ram. IsNetIn (length links.now.classes) ram.rclk) rams.now }
    requires write { All (λ ram. IsNetIn (length links.now.classes) ram.wclk) rams.now }
    ensures { (before : List Unclocked) → first ≡ first_on device before → result ≡ first_on device (before ++ unclocked_in links.now ends.now (flat_map ram_inputs rams.now)) }
{
    let mut found = first;
    for ram in rams {
        found = or_ports(device, links, ends, found, ram);
    }
    found
}

/// What was found, or a register whose clock comes from logic, if its tile comes before.
fn or_register(
    device: DeviceName,
    links: &Links,
    ends: &[ClockEnd],
    found: Option<Unclocked>,
    register: &Register,
) -> Option<Unclocked>
    requires { IsNetIn (length links.now.classes) register.now.clk }
    ensures { (before : List Unclocked) → found ≡ first_on device before → result ≡ first_on device (before ++ unclocked_in links.now ends.now (register_inputs register.now)) }
{
    let input = ClockInput {
        x: register.x,
        y: register.y,
        user: register.kind.user(),
        net: register.clk,
    };
    or_input(device, links, ends, found, input)
}

/// What was found, or a port of a RAM whose clock comes from logic, if its tile comes before.
fn or_ports(
    device: DeviceName,
    links: &Links,
    ends: &[ClockEnd],
    found: Option<Unclocked>,
    ram: &RamCell,
) -> Option<Unclocked>
    requires read { IsNetIn (length links.now.classes) ram.now.rclk }
    requires write { IsNetIn (length links.now.classes) ram.now.wclk }
    ensures { (before : List Unclocked) → found ≡ first_on device before → result ≡ first_on device (before ++ unclocked_in links.now ends.now (ram_inputs ram.now)) }
{
    let read = ClockInput {
        x: ram.x,
        y: ram.y,
        user: ClockUser::Read,
        net: ram.rclk,
    };
    let write = ClockInput {
        x: ram.x,
        y: ram.y,
        user: ClockUser::Write,
        net: ram.wclk,
    };
    let found = or_input(device, links, ends, found, read);
    or_input(device, links, ends, found, write)
}

/// What was found, or a user whose clock comes from logic, if its tile comes before.
fn or_input(
    device: DeviceName,
    links: &Links,
    ends: &[ClockEnd],
    found: Option<Unclocked>,
    input: ClockInput,
) -> Option<Unclocked>
    requires { IsNetIn (length links.now.classes) input.net }
    ensures { (before : List Unclocked) → found ≡ first_on device before → result ≡ first_on device (before ++ unclocked_by links.now ends.now input) }
{
    match on_logic(links, ends, input) {
        None => found,
        Some(next) => or_sooner(device, found, next),
    }
}

/// A user and the net of its clock, or `None` if the clock doesn't come from logic.
fn on_logic(links: &Links, ends: &[ClockEnd], input: ClockInput) -> Option<Unclocked>
    requires { IsNetIn (length links.now.classes) input.net }
    ensures { option_to_list result ≡ unclocked_by links.now ends.now input }
{
    let net = input.net?;
    if !ends_otherwise(ends, links.class_of(net)) {
        return None;
    }
    Some(Unclocked {
        x: input.x,
        y: input.y,
        user: input.user,
        net,
    })
}

/// Whether the clock chain from a class of joined nets ends at logic.
fn ends_otherwise(ends: &[ClockEnd], class: u32) -> bool
    ensures { result ≡ is_other (end_in ends.now class) }
{
    matches!(end_at(ends, class), ClockEnd::Logic)
}

/// Of two users the one whose tile comes first. If both are at one tile, it is the one that was found before. A user off the grid doesn't
/// count.
fn or_sooner(device: DeviceName, found: Option<Unclocked>, next: Unclocked) -> Option<Unclocked>
    ensures { (before : List Unclocked) → found ≡ first_on device before → result ≡ first_on device (before ++ next ∷ []) }
{
    if on_grid(device, next) && goes_before(next, found) {
        Some(next)
    } else {
        found
    }
}

/// Whether the tile of a user is on the grid.
fn on_grid(device: DeviceName, user: Unclocked) -> bool
    ensures { result ≡ is_on_grid device user }
{
    (user.x as u32) < device.columns() && (user.y as u32) < device.rows()
}

/// Whether the tile of a user comes before the tile of another. It does if there is no other.
fn goes_before(one: Unclocked, other: Option<Unclocked>) -> bool
    ensures { result ≡ is_before_any one other }
{
    match other {
        None => true,
        Some(other) => one.y < other.y || (one.y == other.y && one.x < other.x),
    }
}
