// Designs.
ghost use Rattle.std.specs.Prelude.{find, true, ◌==◌, ◌≡◌, ℕ, ◌<◌, ◌*◌, length, is_some, List, Some};
ghost use Rattle.std.specs.Option.{option_map};
ghost use Rattle.std.specs.List.{list_any};
ghost use Rattle.ice_image.specs.Configuration.{Configuration};
ghost use Rattle.chipdb_reader.specs.Database.{Database};
ghost use Rattle.fabric_model.specs.Clocks.{is_turned, register_class};
ghost use Rattle.fabric_model.specs.Links.{class_in};
ghost use Rattle.fabric_wiring.specs.DriverLists.{driver_in};
ghost use Rattle.fabric_wiring.specs.Ends.{end_in, end_of};
ghost use Rattle.fabric.specs.Kept.{word_in, IsKeptOf};
ghost use Rattle.fabric.specs.Design.{IsDesign, pin_of, end_input, end_pin, ends_of, link_in};

use chipdb_reader::PinXy;
use fabric_model::{
    CarrySet, Driver, FabricOptions, GlobalNet, InputPort, LogicCell, Pin, PllSource, RamCell,
    Register,
};
use fabric_wiring::{Buffer, ClockEnd, Drive, Drivers, Output, Parts, Rule};
use std::marker::Model;

/// The two nets of a buffer. Only [`Design::link`] gives it, for users of the library.
#[derive(Clone, Copy, Debug, PartialEq, Eq)]
pub struct LinkEnds {
    pub src: u32,
    pub dst: u32,
}

/// What a database and an image configure, if they have no fault.
///
/// Contracts see what is kept. `IsDesignOf` says of which database and image it is the design. Each design is the design of at least one
/// database and image. No call allocates memory.
#[derive(Drop)]
pub struct Design {
    parts: Parts,
    inputs: Vec<InputPort>,
    outputs: Vec<Output>,
    drivers: Drivers,
    order: Vec<u32>,
    ends: Vec<ClockEnd>,
    words: Vec<u16>,
}

impl Model for Design {
    ghost use Rattle.fabric.specs.Kept.{Kept};
    ghost use Rattle.fabric.specs.Design.{IsDesign};

    ghost Value = { Kept };

    ghost view = { λ design. record { parts = design.parts; inputs = design.inputs.items; outputs = design.outputs.items; drivers = design.drivers; order = design.order.items; ends = design.ends.items; words = design.words.items } };

    ghost invariant = { λ design. IsDesign (record { parts = design.parts; inputs = design.inputs.items; outputs = design.outputs.items; drivers = design.drivers; order = design.order.items; ends = design.ends.items; words = design.words.items }) };
}

/// The two nets of the buffer of a line, or `None` if that buffer isn't on.
fn ends_of_line(buffers: &[Buffer], line: u32) -> Option<LinkEnds>
    ensures { result ≡ option_map ends_of (find (λ buffer. buffer.line == line) buffers.now) }
{
    match buffers.iter().find(|buffer| buffer.line == line) {
        None => None,
        Some(buffer) => Some(LinkEnds {
            src: buffer.src,
            dst: buffer.dst,
        }),
    }
}

/// The pin of an input port, or `None` if that is an output of a PLL.
fn pin_of(port: InputPort) -> Option<PinXy>
    ensures { result ≡ pin_of port }
{
    match port {
        InputPort::Pad { x, y, n } | InputPort::Outside { x, y, n } => Some(PinXy { x, y, n }),
        InputPort::Pll { .. } => None,
    }
}

impl Design {
    /// The design of these parts.
    pub(crate) fn of(
        parts: Parts,
        inputs: Vec<InputPort>,
        outputs: Vec<Output>,
        drivers: Drivers,
        order: Vec<u32>,
        ends: Vec<ClockEnd>,
        words: Vec<u16>,
    ) -> Design
        requires { IsDesign (record { parts = parts; inputs = inputs.items; outputs = outputs.items; drivers = drivers; order = order.items; ends = ends.items; words = words.items }) }
        ensures { result ≡ record { parts = parts; inputs = inputs.items; outputs = outputs.items; drivers = drivers; order = order.items; ends = ends.items; words = words.items } }
    {
        Design {
            parts,
            inputs,
            outputs,
            drivers,
            order,
            ends,
            words,
        }
    }

    /// The pins that are ports, by tile and number.
    pub fn pins(&self) -> &[Pin]
        ensures pins { result.now ≡ self.now.parts.pins.items }
        ensures design { IsDesign self.now }
    {
        &self.parts.pins
    }

    /// The outputs of PLLs that are ports, by PLL. No tool of this project needs it: it is for users of the library.
    pub fn plls(&self) -> &[PllSource]
        ensures { result.now ≡ self.now.parts.plls.items }
    {
        &self.parts.plls
    }

    /// The input ports: those of pins, in the order of the pins, then those of PLLs.
    pub fn inputs(&self) -> &[InputPort]
        ensures inputs { result.now ≡ self.now.inputs }
        ensures design { IsDesign self.now }
    {
        &self.inputs
    }

    /// The outputs of the pins that drive their pads, in the order of the pins. One that drives it at times has two: what it drives it with,
    /// then when it does.
    pub fn outputs(&self) -> &[Output]
        ensures outputs { result.now ≡ self.now.outputs }
        ensures design { IsDesign self.now }
    {
        &self.outputs
    }

    /// What is taken, and which inputs the LUTs of the cells read. No tool of this project needs it: it is for users of the library.
    pub fn options(&self) -> FabricOptions
        ensures { result ≡ self.now.parts.options }
    {
        self.parts.options
    }

    /// The used logic cells, by tile and index.
    pub fn lcs(&self) -> &[LogicCell]
        ensures lcs { result.now ≡ self.now.parts.lcs.items }
        ensures design { IsDesign self.now }
    {
        &self.parts.lcs
    }

    /// The registers: the flip-flops of the cells, in the order of the cells, then the registers of pins, by tile and number.
    pub fn registers(&self) -> &[Register]
        ensures registers { result.now ≡ self.now.parts.registers.items }
        ensures design { IsDesign self.now }
    {
        &self.parts.registers
    }

    /// The carry inputs that are set, by tile. No tool of this project needs it: it is for users of the library.
    pub fn sets(&self) -> &[CarrySet]
        ensures { result.now ≡ self.now.parts.sets.items }
    {
        &self.parts.sets
    }

    /// The used RAMs, by tile.
    pub fn rams(&self) -> &[RamCell]
        ensures rams { result.now ≡ self.now.parts.rams.items }
        ensures design { IsDesign self.now }
    {
        &self.parts.rams
    }

    /// The nets of global networks, by network and net. No tool of this project needs it: it is for users of the library.
    pub fn globals(&self) -> &[GlobalNet]
        ensures { result.now ≡ self.now.parts.globals.items }
    {
        &self.parts.globals
    }

    /// How many nets there are. No tool of this project needs it: it is for users of the library.
    pub fn net_count(&self) -> usize
        ensures count { result ≡ length self.now.drivers.places }
        ensures design { IsDesign self.now }
    {
        self.drivers.len()
    }

    /// The class of joined nets that a net of the database belongs to, named by its least net.
    pub fn class_of(&self, net: u32) -> u32
        requires { net < length self.now.drivers.places }
        ensures { result ≡ class_in self.now.parts.links net }
    {
        self.parts.links.class_of(net)
    }

    /// The driver of a class of joined nets and how it makes its value. It is `None` if the class has no driver, or if no class has this
    /// number.
    pub fn drive(&self, class: u32) -> Option<Drive>
        ensures { result ≡ driver_in self.now.drivers class }
    {
        if (class as usize) < self.drivers.len() {
            self.drivers.of_class(class)
        } else {
            None
        }
    }

    /// The driver of a class of joined nets. It is `None` if the class has no driver, or if no class has this number. No tool of this
    /// project needs it: it is for users of the library.
    pub fn driver(&self, class: u32) -> Option<Driver>
        ensures { result ≡ option_map (λ drive. drive.driver) (driver_in self.now.drivers class) }
    {
        self.drive(class).map(|drive| drive.driver)
    }

    /// The order in which the classes of joined nets with a driver are written: a topological order of the combinational logic, in which each
    /// class also comes after the registers that are clocks of what its value is computed from. The next class is always the least one of which
    /// all of that is written, apart from classes without a driver.
    pub fn order(&self) -> &[u32]
        ensures order { result.now ≡ self.now.order }
        ensures design { IsDesign self.now }
    {
        &self.order
    }

    /// Where the clock chain from a net of the database ends.
    pub fn clock_end(&self, net: u32) -> ClockEnd
        requires { net < length self.now.drivers.places }
        ensures { end_of result ≡ end_in self.now.ends (class_in self.now.parts.links net) }
    {
        let class = self.class_of(net);
        self.ends
            .get(class as usize)
            .copied()
            .unwrap_or(ClockEnd::Still(false))
    }

    /// The pin at whose input port the clock chain from a net of the database ends, or `None` if it ends elsewhere, as at an output of a PLL or at
    /// a register. No tool of this project needs it: it is for users of the library.
    pub fn clock(&self, net: u32) -> Option<PinXy>
        requires { net < length self.now.drivers.places }
        ensures { result ≡ end_pin self.now.inputs (end_in self.now.ends (class_in self.now.parts.links net)) }
    {
        match self.clock_end(net) {
            ClockEnd::Pin { place, .. } => match self.inputs.get(place as usize) {
                None => None,
                Some(port) => pin_of(*port),
            },
            ClockEnd::Register { .. } | ClockEnd::Still(_) | ClockEnd::Logic => None,
        }
    }

    /// The index of the input port, of a pin or a PLL, at which the clock chain from a net of the database ends, or `None` if it ends elsewhere.
    /// No tool of this project needs it: it is for users of the library.
    pub fn clock_input(&self, net: u32) -> Option<u32>
        requires { net < length self.now.drivers.places }
        ensures { result ≡ end_input (end_in self.now.ends (class_in self.now.parts.links net)) }
    {
        match self.clock_end(net) {
            ClockEnd::Pin { place, .. } => Some(place),
            ClockEnd::Register { .. } | ClockEnd::Still(_) | ClockEnd::Logic => None,
        }
    }

    /// The class of joined nets of the register at which the clock chain from a net of the database ends, or `None` if it ends elsewhere. Only
    /// with [`FabricOptions::register_clocks`] does one end at a register. No tool of this project needs it: it is for users of the library.
    pub fn clock_class(&self, net: u32) -> Option<u32>
        requires { net < length self.now.drivers.places }
        ensures { result ≡ register_class (end_in self.now.ends (class_in self.now.parts.links net)) }
    {
        self.clock_end(net).register_class()
    }

    /// Whether the clock chain from a net of the database ends at an input port or a register and inverts its clock on the way, so that the net
    /// has the inverse of its value.
    pub fn turned(&self, net: u32) -> bool
        requires { net < length self.now.drivers.places }
        ensures { result ≡ is_turned (end_in self.now.ends (class_in self.now.parts.links net)) }
    {
        match self.clock_end(net) {
            ClockEnd::Pin { turned, .. } | ClockEnd::Register { turned, .. } => turned,
            ClockEnd::Still(_) | ClockEnd::Logic => false,
        }
    }

    /// Whether the buffer of a line is on. No tool of this project needs it: it is for users of the library.
    pub fn has_link(&self, line: u32) -> bool
        ensures { result ≡ is_some (link_in self.now line) }
    {
        match ends_of_line(&self.parts.buffers, line) {
            None => false,
            Some(_) => true,
        }
    }

    /// The two nets of the buffer of a line, which is on. No tool of this project needs it: it is for users of the library.
    pub fn link(&self, line: u32) -> LinkEnds
        requires { is_some (link_in self.now line) ≡ true }
        ensures { Some result ≡ link_in self.now line }
    {
        ends_of_line(&self.parts.buffers, line).unwrap()
    }

    /// A start word of the used RAM with that index.
    pub fn start_word(&self, ram: usize, word: u8) -> u16
        requires { ram < length self.now.parts.rams.items }
        ensures { result ≡ word_in self.now.words ram word }
    {
        self.words[ram * 256 + word as usize]
    }
}
