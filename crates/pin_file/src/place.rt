// Places of pins, and the pins that have a port.

/// The place of a pin: pad `pio` of the io tile at (x, y).
#[derive(Clone, Copy, Debug, PartialEq, Eq, Hash)]
pub struct PinPlace {
    pub x: u32,
    pub y: u32,
    pub pio: u32,
}

/// A pin that has a port. It can have two more ports, whose names begin with the name of the first one.
#[derive(Clone, Copy, Debug, PartialEq, Eq, Hash)]
pub struct PortPin {
    pub place: PinPlace,
    /// Whether the pin has an output enable: a port whose name ends in `_en`.
    pub enable: bool,
    /// Whether the pin has an input beside its output: a port whose name ends in `_in`.
    pub outside: bool,
}
