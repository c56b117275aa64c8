// Where the clocks of classes of joined nets come from.
ghost use Rattle.std.specs.Prelude.{◌≡◌, ℕ, ◌<◌, Bool, true, false, length, map, flat_map, get_or, option_to_list, if◌then◌else◌, None, IfOk, IfSome};
ghost use Rattle.fabric_model.specs.Fabric.{Fabric};
ghost use Rattle.graph_order.specs.Wiring.{IsWriteOrder};
ghost use Rattle.fabric_model.specs.Wiring.{wiring_of};
ghost use Rattle.fabric_model.specs.declared.signal.Signal.TheVariants.{Net};
ghost use Rattle.fabric_model.specs.ClockLuts.{can_be_1, pass_of};
ghost use Rattle.fabric_model.specs.Clocks.{turned_end, turn_through, turn_by, turn_of, end_by, register_class};
ghost use Rattle.fabric_model.specs.Clocks.ClockEnd.{at_register, still, logic};
ghost use Rattle.fabric_model.specs.Drivers.{nets_read};
ghost use Rattle.fabric_model.specs.Signals.{net_or_0, signal_nets};
ghost use Rattle.graph_order.specs.Wiring.{has};
ghost use Rattle.fabric_model.specs.Within.{IsNetIn};
ghost use Rattle.fabric_model.specs.Links.{class_in};
ghost use Rattle.fabric_wiring.specs.Drives.{rule_of, drive_of};
ghost use Rattle.fabric_wiring.specs.Parts.{ArePartsOf};
ghost use Rattle.fabric_wiring.specs.DriverLists.{AreDriversOf, driver_in, is_connected_in};
ghost use Rattle.fabric_wiring.specs.Ends.{end_of, end_in, AreEndsOf};

use crate::{Drivers, Parts, Rule};
use fabric_model::{Links, LutPass, LutTable, Signal, pass_of};
use std::alloc::{AllocError, Global};

/// Where the clock chain from a class of joined nets ends. It leads from class to class, along buffers, along global networks that a net
/// `fabout` drives, and through LUTs that follow one net.
#[derive(Clone, Copy, Debug, PartialEq, Eq)]
pub enum ClockEnd {
    /// At the input port with that index among the input ports; turned if the chain inverts the clock on its way.
    Pin {
        place: u32,
        turned: bool,
    },
    /// At a register, if registers may be clocks: its class of joined nets, and its index among the registers; turned if the chain inverts the
    /// clock on its way.
    Register {
        class: u32,
        place: u32,
        turned: bool,
    },
    /// At a bit that is always the same: at a class of joined nets without a driver, which is 0, or at a LUT whose value is always that bit.
    Still(bool),
    /// At logic: at any other driver.
    Logic,
}

impl ClockEnd {
    /// The class of joined nets of the register at which a chain ends, or `None` if it ends elsewhere.
    pub fn register_class(self) -> Option<u32>
        ensures { result ≡ register_class (end_of self) }
    {
        match self {
            ClockEnd::Register { class, .. } => Some(class),
            ClockEnd::Pin { .. } | ClockEnd::Still(_) | ClockEnd::Logic => None,
        }
    }
}

/// Finds where the clock chain from each class of joined nets ends: an end for each class, in ascending order. It goes over the classes in
/// the write order, so the end for a driver's source is known when it comes to the driver.
///
/// # Errors
/// `AllocError` if memory is out, and for no other cause.
pub fn clock_ends(
    alloc: Global,
    parts: &Parts,
    drivers: &Drivers,
    order: &[u32],
) -> Result<Vec<ClockEnd>, AllocError>
    ghost fabric: { Fabric }
    requires parts { ArePartsOf fabric parts.now }
    requires drivers { AreDriversOf fabric drivers.now }
    requires order { IsWriteOrder (wiring_of fabric) order.now }
    ensures { IfOk result (λ ends. AreEndsOf fabric ends.items) }
{
    let mut ends = all_still(alloc, drivers.len())?;
    follow(parts, drivers, order, &mut ends);
    Ok(ends)
}

/// A list of `count` ends, each at a class of joined nets without a driver.
fn all_still(alloc: Global, count: usize) -> Result<Vec<ClockEnd>, AllocError>
    ensures length { IfOk result (λ ends. length ends.items ≡ count) }
    ensures still { IfOk result (λ ends. (class : ℕ) → end_in ends.items class ≡ still false) }
{
    vec![in alloc; ClockEnd::Still(false); count]
}

/// Sets the ends of the clock chains from all classes of joined nets with a driver. Those from all other classes are set before.
fn follow(parts: &Parts, drivers: &Drivers, order: &[u32], ends: &mut [ClockEnd])
    ghost fabric: { Fabric }
    requires parts { ArePartsOf fabric parts.now }
    requires drivers { AreDriversOf fabric drivers.now }
    requires order { IsWriteOrder (wiring_of fabric) order.now }
    requires classes { length ends.old ≡ fabric.nets }
    requires still { (class : ℕ) → end_in ends.old class ≡ still false }
    ensures { AreEndsOf fabric ends.new }
{
    for class in order {
        ends[*class as usize] = end_from(parts, drivers, ends, *class);
    }
}

/// The end of the clock chain from a class of joined nets, if the end from the class that it goes on to is known.
fn end_from(parts: &Parts, drivers: &Drivers, ends: &[ClockEnd], class: u32) -> ClockEnd
    requires class { class < length drivers.now.places }
    requires reads { IfSome (driver_in drivers.now class) (λ drive. (net : ℕ) → has (nets_read (rule_of drive.rule)) net ≡ true → net < length parts.now.links.classes) }
    ensures { end_of result ≡ end_by (λ net. end_in ends.now (class_in parts.now.links net))
        (turn_of (is_connected_in parts.now.links drivers.now) parts.now.options.register_clocks class (map drive_of (option_to_list (driver_in drivers.now class)))) }
{
    match drivers.of_class(class) {
        None => ClockEnd::Still(false),
        Some(drive) => end_along(parts, drivers, ends, class, drive.rule),
    }
}

/// The end of a clock chain at or after the driver of a class of joined nets, which has that rule.
#[tactic(auto, unfolding(fabric_model::specs::Drivers::nets_read))]
fn end_along(
    parts: &Parts,
    drivers: &Drivers,
    ends: &[ClockEnd],
    class: u32,
    rule: Rule,
) -> ClockEnd
    requires { (net : ℕ) → has (nets_read (rule_of rule)) net ≡ true → net < length parts.now.links.classes }
    ensures { end_of result ≡ end_by (λ net. end_in ends.now (class_in parts.now.links net)) (turn_by (is_connected_in parts.now.links drivers.now) parts.now.options.register_clocks class (rule_of rule)) }
{
    match rule {
        Rule::PinBit(place) => ClockEnd::Pin {
            place,
            turned: false,
        },
        Rule::Copied(net) => end_at(ends, parts.links.class_of(net)),
        Rule::TableEntry(table) => end_through(&parts.links, drivers, ends, &table),
        Rule::RegisterBit { place, .. } => {
            end_at_register(parts.options.register_clocks, class, place)
        }
        _ => ClockEnd::Logic,
    }
}

/// The end of a clock chain at a register, given by its class of joined nets and its index: the register itself if registers may be clocks,
/// else logic.
fn end_at_register(taken: bool, class: u32, place: u32) -> ClockEnd
    ensures { end_of result ≡ (if taken then at_register class place false else logic) }
{
    if taken {
        ClockEnd::Register {
            class,
            place,
            turned: false,
        }
    } else {
        ClockEnd::Logic
    }
}

/// The end of a clock chain at or after a LUT.
fn end_through(links: &Links, drivers: &Drivers, ends: &[ClockEnd], table: &LutTable) -> ClockEnd
    ghost connected: { ℕ → Bool }
    requires connected { connected ≡ is_connected_in links.now drivers.now }
    requires reads { (net : ℕ) → has (flat_map signal_nets table.now.ins) net ≡ true → net < length links.now.classes }
    ensures { end_of result ≡ end_by (λ net. end_in ends.now (class_in links.now net)) (turn_through (pass_of connected table.now)) }
{
    match pass_of(table, open_inputs(links, drivers, &table.ins)) {
        LutPass::Holds(bit) => ClockEnd::Still(bit),
        LutPass::Follows { turned, net } => turned_end(turned, end_at(ends, links.class_of(net))),
        LutPass::Mixes => ClockEnd::Logic,
    }
}

/// Which inputs of a LUT can be 1.
fn open_inputs(links: &Links, drivers: &Drivers, ins: &[Signal; 4]) -> [bool; 4]
    requires { (net : ℕ) → has (flat_map signal_nets ins.now) net ≡ true → net < length links.now.classes }
    ensures { (k : ℕ) → k < 4 → get_or result k false ≡ can_be_1 (is_connected_in links.now drivers.now) (get_or ins.now k (net_or_0 None)) }
{
    [
        can_be_1(links, drivers, ins[0]),
        can_be_1(links, drivers, ins[1]),
        can_be_1(links, drivers, ins[2]),
        can_be_1(links, drivers, ins[3]),
    ]
}

/// Whether an input of a LUT can be 1. One that is 0 if it is unconnected can't, while it is.
fn can_be_1(links: &Links, drivers: &Drivers, source: Signal) -> bool
    requires { (net : ℕ) → has (signal_nets source) net ≡ true → net < length links.now.classes }
    ensures { result ≡ can_be_1 (is_connected_in links.now drivers.now) source }
{
    match source {
        Signal::Net { net, otherwise } => net_can_be_1(links, drivers, net, otherwise),
        Signal::Input(_) | Signal::Register(_) => true,
    }
}

/// Whether an input that reads a net, and has the value `otherwise` if it is unconnected, can be 1. It is connected if the net's class of
/// joined nets has a driver.
fn net_can_be_1(links: &Links, drivers: &Drivers, net: Option<u32>, otherwise: bool) -> bool
    requires { IsNetIn (length links.now.classes) net }
    ensures { result ≡ can_be_1 (is_connected_in links.now drivers.now) (Net net otherwise) }
{
    match net {
        None => otherwise,
        Some(net) => otherwise || drivers.is_driven(links.class_of(net)),
    }
}

/// The end of a clock chain that is turned before it comes there.
fn turned_end(turned: bool, end: ClockEnd) -> ClockEnd
    ensures { end_of result ≡ turned_end turned (end_of end) }
{
    match end {
        ClockEnd::Pin {
            place,
            turned: other,
        } => ClockEnd::Pin {
            place,
            turned: turned != other,
        },
        ClockEnd::Register {
            class,
            place,
            turned: other,
        } => ClockEnd::Register {
            class,
            place,
            turned: turned != other,
        },
        ClockEnd::Still(bit) => ClockEnd::Still(turned != bit),
        ClockEnd::Logic => ClockEnd::Logic,
    }
}

/// The end that is known for a class of joined nets.
pub(crate) fn end_at(ends: &[ClockEnd], class: u32) -> ClockEnd
    ensures { end_of result ≡ end_in ends.now class }
{
    match ends.get(class as usize) {
        None => ClockEnd::Still(false),
        Some(end) => *end,
    }
}
