// What pins, global networks and outputs of PLLs drive.
ghost use Rattle.std.specs.Prelude.{◌≡◌, ◌++◌, map, flat_map, IfOk, OnOk};
ghost use Rattle.fabric_model.specs.PinTypes.{takes_pad};
ghost use Rattle.fabric_model.specs.Drivers.{pin_drives, is_read_back, global_rule, global_drives, pll_drives};
ghost use Rattle.fabric_wiring.specs.Drives.{drive_of, rule_of};
ghost use Rattle.fabric_wiring.specs.Outputs.{back_from};

use crate::drive::{Drive, Rule};
use crate::push::push_if;
use fabric_model::{
    Driver, GlobalFrom, GlobalNet, InputPort, PadInput, Pin, PinSignals, PllSource,
};
use std::alloc::AllocError;

/// Whether the fabric gets the pad as it is.
fn takes_pad(takes: PadInput) -> bool
    ensures { result ≡ takes_pad takes }
{
    matches!(takes, PadInput::Plain)
}

/// Appends what a pin drives that never drives its pad: nothing if it doesn't take the pad as it is.
fn append_pin(drives: &mut Vec<Drive>, signals: &PinSignals<'_>, pin: Pin) -> Result<(), AllocError>
    ensures { OnOk result (map drive_of drives.new.items ≡ map drive_of drives.old.items ++ pin_drives signals.now.pins pin) }
{
    if pin.drives() || !takes_pad(pin.takes) {
        return Ok(());
    }
    let (x, y, n) = (pin.x, pin.y, pin.n);
    let place = signals.input_place(InputPort::Pad { x, y, n })?;
    push_if(
        drives,
        Driver::Pin { x, y, n },
        Rule::PinBit(place),
        pin.din_0,
    )
}

/// Appends what pins drive that never drive their pads.
pub(crate) fn append_pins(
    drives: &mut Vec<Drive>,
    signals: &PinSignals<'_>,
    pins: &[Pin],
) -> Result<(), AllocError>
    ensures { OnOk result (map drive_of drives.new.items ≡ map drive_of drives.old.items ++ flat_map (pin_drives signals.now.pins) pins.now) }
{
    for pin in pins {
        append_pin(drives, signals, *pin)?;
    }
    Ok(())
}

/// Whether the fabric reads back the pad of a pin that drives it.
fn is_read_back(pin: Pin) -> bool
    ensures { result ≡ is_read_back pin }
{
    pin.drives() && takes_pad(pin.takes) && (!pin.is_switched() || pin.reads_0)
}

/// Appends the readback of a pin, if it has one.
fn append_back(
    drives: &mut Vec<Drive>,
    signals: &PinSignals<'_>,
    pin: Pin,
) -> Result<(), AllocError>
    ensures { OnOk result (map drive_of drives.new.items ≡ map drive_of drives.old.items ++ back_from signals.now pin) }
{
    if !is_read_back(pin) {
        return Ok(());
    }
    let (x, y, n) = (pin.x, pin.y, pin.n);
    let rule = Rule::Input(signals.pad_signal(pin)?);
    push_if(drives, Driver::Readback { x, y, n }, rule, pin.din_0)
}

/// Appends the readbacks of pins.
pub(crate) fn append_backs(
    drives: &mut Vec<Drive>,
    signals: &PinSignals<'_>,
    pins: &[Pin],
) -> Result<(), AllocError>
    ensures { OnOk result (map drive_of drives.new.items ≡ map drive_of drives.old.items ++ flat_map (back_from signals.now) pins.now) }
{
    for pin in pins {
        append_back(drives, signals, *pin)?;
    }
    Ok(())
}

/// How a global network makes its value.
fn global_rule(signals: &PinSignals<'_>, from: GlobalFrom) -> Result<Rule, AllocError>
    ensures { IfOk result (λ rule. rule_of rule ≡ global_rule signals.now.pins signals.now.plls from) }
{
    match from {
        GlobalFrom::Pad { x, y, n } => Ok(Rule::PinBit(signals.input_place(InputPort::Pad {
            x,
            y,
            n,
        })?)),
        GlobalFrom::Pll { x, y, output } => Ok(Rule::PinBit(signals.pll_place(x, y, output)?)),
        GlobalFrom::Fabout { net } => Ok(Rule::Copied(net)),
    }
}

/// Appends what global networks drive.
pub(crate) fn append_globals(
    drives: &mut Vec<Drive>,
    signals: &PinSignals<'_>,
    globals: &[GlobalNet],
) -> Result<(), AllocError>
    ensures { OnOk result (map drive_of drives.new.items ≡ map drive_of drives.old.items ++ flat_map (global_drives signals.now.pins signals.now.plls) globals.now) }
{
    for global in globals {
        let rule = global_rule(signals, global.from)?;
        let driver = Driver::Global {
            g: global.g,
            net: global.net,
        };
        push_if(drives, driver, rule, Some(global.net))?;
    }
    Ok(())
}

/// Appends what an output of a PLL drives that is an input port.
fn append_pll(
    drives: &mut Vec<Drive>,
    signals: &PinSignals<'_>,
    port: PllSource,
) -> Result<(), AllocError>
    ensures { OnOk result (map drive_of drives.new.items ≡ map drive_of drives.old.items ++ pll_drives signals.now.pins signals.now.plls port) }
{
    let (x, y, output) = (port.x, port.y, port.output);
    let rule = Rule::PinBit(signals.pll_place(x, y, output)?);
    push_if(drives, Driver::PllOut { x, y, output }, rule, port.net)
}

/// Appends what outputs of PLLs drive that are input ports.
pub(crate) fn append_plls(
    drives: &mut Vec<Drive>,
    signals: &PinSignals<'_>,
    plls: &[PllSource],
) -> Result<(), AllocError>
    ensures { OnOk result (map drive_of drives.new.items ≡ map drive_of drives.old.items ++ flat_map (pll_drives signals.now.pins signals.now.plls) plls.now) }
{
    for port in plls {
        append_pll(drives, signals, *port)?;
    }
    Ok(())
}
