// What drives the inner nets of pins.
ghost use Rattle.std.specs.Prelude.{◌≡◌, ◌++◌, ◌∷◌, [], None, map, flat_map, if◌then◌else◌, IfOk, OnOk};
ghost use Rattle.fabric_model.specs.PinTypes.{has_table};
ghost use Rattle.fabric_model.specs.Signals.{net_or_0};
ghost use Rattle.fabric_model.specs.Drivers.{data_by_table, in_0_if_in_2, in_1_if_in_2, pad_by_table};
ghost use Rattle.fabric_wiring.specs.Drives.{drive_of};
ghost use Rattle.fabric_wiring.specs.Outputs.{data_from, pad_from};

use crate::drive::{Drive, Rule};
use crate::push::push_if;
use fabric_model::{
    Driver, InputPort, LutTable, PadData, Pin, PinRegister, PinSignals, Signal, has_outside,
    net_or_0,
};
use std::alloc::AllocError;

/// The LUT whose value is that of in_1 while in_2 is 1, else that of in_0.
const IN_1_IF_IN_2: u16 = 0xCACA;

/// The LUT whose value is that of in_0 while in_2 is 1, else that of in_1.
const IN_0_IF_IN_2: u16 = 0xACAC;

/// The LUT whose value is the inverse of in_0.
const NOT_IN_0: u16 = 0x5555;

/// Whether a LUT makes what a pin drives its pad with of registers.
fn has_table(sends: PadData) -> bool
    ensures { result ≡ has_table sends }
{
    match sends {
        PadData::Plain | PadData::Registered => false,
        PadData::Inverted | PadData::Double => true,
    }
}

/// The LUT that gives one of two registers, by the clock.
fn double_table(pin: Pin, first: Signal, second: Signal) -> LutTable
    ensures { result ≡ record { word = if pin.neg then in_0_if_in_2 else in_1_if_in_2; ins = second ∷ first ∷ net_or_0 pin.outclk ∷ net_or_0 None ∷ [] } }
{
    LutTable {
        word: if pin.neg { IN_0_IF_IN_2 } else { IN_1_IF_IN_2 },
        ins: [second, first, net_or_0(pin.outclk), net_or_0(None)],
    }
}

/// The LUT that gives what a pin drives its pad with.
fn data_table(signals: &PinSignals<'_>, pin: Pin) -> Result<LutTable, AllocError>
    ensures { IfOk result (λ table. table ≡ data_by_table signals.now.flips signals.now.pins pin pin.sends) }
{
    let first = signals.register_in(pin, PinRegister::Output)?;
    match pin.sends {
        PadData::Double => {
            let second = signals.register_in(pin, PinRegister::SecondOutput)?;
            Ok(double_table(pin, first, second))
        }
        PadData::Plain | PadData::Registered | PadData::Inverted => Ok(LutTable {
            word: NOT_IN_0,
            ins: [first, net_or_0(None), net_or_0(None), net_or_0(None)],
        }),
    }
}

/// Appends what drives the inner net of what a pin drives its pad with, if a LUT makes that.
fn append_data(
    drives: &mut Vec<Drive>,
    signals: &PinSignals<'_>,
    pin: Pin,
) -> Result<(), AllocError>
    ensures { OnOk result (map drive_of drives.new.items ≡ map drive_of drives.old.items ++ data_from signals.now pin) }
{
    if !(pin.drives() && has_table(pin.sends)) {
        return Ok(());
    }
    let (x, y, n) = (pin.x, pin.y, pin.n);
    let rule = Rule::TableEntry(data_table(signals, pin)?);
    push_if(drives, Driver::Data { x, y, n }, rule, pin.data_net)
}

/// Appends what drives the inner nets of what pins drive their pads with.
pub(crate) fn append_each_data(
    drives: &mut Vec<Drive>,
    signals: &PinSignals<'_>,
    pins: &[Pin],
) -> Result<(), AllocError>
    ensures { OnOk result (map drive_of drives.new.items ≡ map drive_of drives.old.items ++ flat_map (data_from signals.now) pins.now) }
{
    for pin in pins {
        append_data(drives, signals, *pin)?;
    }
    Ok(())
}

/// The LUT that gives the pad of a pin that drives it at times.
fn pad_table(signals: &PinSignals<'_>, pin: Pin) -> Result<LutTable, AllocError>
    ensures { IfOk result (λ table. table ≡ pad_by_table signals.now.flips signals.now.pins pin) }
{
    let (x, y, n) = (pin.x, pin.y, pin.n);
    let outside = Signal::Input(signals.input_place(InputPort::Outside { x, y, n })?);
    let data = signals.data_signal(pin)?;
    let enable = signals.enable_signal(pin)?;
    Ok(LutTable {
        word: IN_1_IF_IN_2,
        ins: [outside, data, enable, net_or_0(None)],
    })
}

/// Appends what drives the inner net of the pad of a pin that drives it at times, if the pad is read.
fn append_pad(drives: &mut Vec<Drive>, signals: &PinSignals<'_>, pin: Pin) -> Result<(), AllocError>
    ensures { OnOk result (map drive_of drives.new.items ≡ map drive_of drives.old.items ++ pad_from signals.now pin) }
{
    if !has_outside(pin) {
        return Ok(());
    }
    let (x, y, n) = (pin.x, pin.y, pin.n);
    let rule = Rule::TableEntry(pad_table(signals, pin)?);
    push_if(drives, Driver::Pad { x, y, n }, rule, pin.pad_net)
}

/// Appends what drives the inner nets of the pads of pins.
pub(crate) fn append_pads(
    drives: &mut Vec<Drive>,
    signals: &PinSignals<'_>,
    pins: &[Pin],
) -> Result<(), AllocError>
    ensures { OnOk result (map drive_of drives.new.items ≡ map drive_of drives.old.items ++ flat_map (pad_from signals.now) pins.now) }
{
    for pin in pins {
        append_pad(drives, signals, *pin)?;
    }
    Ok(())
}
