// Look-ups in a database. They take no memory.
ghost use Rattle.std.specs.Prelude.{◌≡◌, ◌≤◌, ◌&&◌, ◌==◌, length, map, position, find};
ghost use Rattle.std.specs.Option.{option_map};
ghost use Rattle.chipdb_lines.specs.Kept.{bits_named};
ghost use Rattle.chipdb_lines.specs.Statements.{is_same_kind};
ghost use Rattle.chipdb_reader.specs.Fit.{IsFit};
ghost use Rattle.chipdb_reader.specs.Kept.{database_in, name_lines, pll_of};
ghost use Rattle.chipdb_reader.specs.Lookups.{extra_place, function_place, input_of, names_of_net, net_at, pad_of};
ghost use Rattle.chipdb_reader.specs.Nets.{names_with};
ghost use Rattle.chipdb_reader.specs.Sound.{IsSound};
ghost use Rattle.chipdb_reader.specs.Texts.{text_at};

use crate::chip_db::ChipDb;
use crate::items::{Extra, Function, LinkLine, NetName, PinXy, PllCell, TileXy8};
use chipdb_lines::{BitList, GlobalInput, GlobalPin};
use name_arena::NameId;
use plane_map::{DeviceName, Place, RowCol, TileKind};

impl ChipDb {
    /// The device.
    pub fn device(&self) -> DeviceName
        ensures device { result ≡ self.now.chip.device }
        ensures sound { IsSound self.now }
        ensures fit { IsFit (database_in self.now) }
    {
        self.chip.device
    }

    /// How many nets the device has.
    pub fn net_count(&self) -> u32
        ensures { result ≡ self.now.chip.nets }
    {
        self.chip.nets
    }

    /// The net with that name in the tile at (x, y), or `None` if no net has it there.
    pub fn net_of(&self, x: u8, y: u8, name: &[u8]) -> Option<u32>
        ensures { result ≡ net_at x y name.now (database_in self.now).names }
    {
        match self.texts.find(name) {
            None => None,
            Some(name) => self.nets.net_of(NetName { x, y, name }),
        }
    }

    /// The names of a net, in the order of the text. Empty if the text names no such net.
    pub fn names_of(&self, net: u32) -> &[NetName]
        ensures { name_lines self.now.texts (names_with net result.now) ≡ names_of_net net (database_in self.now).names }
    {
        self.nets.names_of(net)
    }

    /// The bytes of a name of this database. Empty if the name is one of another database and has no place in this one.
    pub fn text(&self, name: NameId) -> &[u8]
        ensures { result.now ≡ text_at self.now.texts name }
    {
        self.texts.get(name)
    }

    /// The links of `.buffer` statements, in the order of the text.
    pub fn buffers(&self) -> &[LinkLine]
        ensures buffers { result.now ≡ self.now.buffers }
        ensures sound { IsSound self.now }
        ensures fit { IsFit (database_in self.now) }
    {
        &self.buffers
    }

    /// The links of `.routing` statements, in the order of the text.
    pub fn routings(&self) -> &[LinkLine]
        ensures routings { result.now ≡ self.now.routings }
        ensures sound { IsSound self.now }
        ensures fit { IsFit (database_in self.now) }
    {
        &self.routings
    }

    /// The bits of a list of this database. Empty if the list is one of another database and has no place in this one.
    pub fn bits(&self, list: BitList) -> &[RowCol]
        ensures bits { result.now ≡ bits_named self.now.bits list }
        ensures few { length result.now ≤ 64 }
    {
        self.bits.get(list)
    }

    /// The functions of tiles, in the order of the text.
    pub fn functions(&self) -> &[Function]
        ensures functions { result.now ≡ self.now.functions }
        ensures sound { IsSound self.now }
        ensures fit { IsFit (database_in self.now) }
    {
        &self.functions
    }

    /// The index in `functions` of the first function with that kind and name, or `None` if there is none.
    pub fn function(&self, kind: TileKind, name: &[u8]) -> Option<usize>
        ensures { result ≡ function_place kind name.now (database_in self.now).functions }
    {
        match self.texts.find(name) {
            None => None,
            Some(name) => first_function(&self.functions, kind, name),
        }
    }

    /// The extra bits, in the order of the text.
    pub fn extras(&self) -> &[Extra]
        ensures extras { result.now ≡ self.now.extras }
        ensures sound { IsSound self.now }
        ensures fit { IsFit (database_in self.now) }
    {
        &self.extras
    }

    /// The place of the first extra bit with that name, or `None` if there is none.
    pub fn extra(&self, name: &[u8]) -> Option<Place>
        ensures { result ≡ extra_place name.now (database_in self.now).extras }
    {
        match self.texts.find(name) {
            None => None,
            Some(name) => first_extra(&self.extras, name),
        }
    }

    /// The tile of the first `.gbufin` line of a global net, or `None` if there is no such line.
    pub fn gbufin(&self, g: u8) -> Option<TileXy8>
        ensures { result ≡ input_of g self.now.global_inputs }
    {
        first_input(&self.global_inputs, g)
    }

    /// The pad of the first `.gbufpin` line of a global net, or `None` if there is no such line.
    pub fn gbufpin(&self, g: u8) -> Option<PinXy>
        ensures { result ≡ pad_of g self.now.global_pins }
    {
        first_pin(&self.global_pins, g)
    }

    /// The PLLs in the order of their tiles, by y and then by x.
    pub fn plls(&self) -> &[PllCell]
        ensures { map pll_of result.now ≡ (database_in self.now).plls }
    {
        &self.plls
    }
}

/// The index of the first function with that kind and name.
fn first_function(functions: &[Function], kind: TileKind, name: NameId) -> Option<usize>
    ensures { result ≡ position (λ function. is_same_kind function.kind kind && (function.name == name)) functions.now }
{
    functions
        .iter()
        .position(|function| function.kind == kind && function.name == name)
}

/// The place of the first extra bit with that name.
fn first_extra(extras: &[Extra], name: NameId) -> Option<Place>
    ensures { result ≡ option_map (λ extra. extra.at) (find (λ extra. extra.name == name) extras.now) }
{
    match extras.iter().find(|extra| extra.name == name) {
        None => None,
        Some(extra) => Some(extra.at),
    }
}

/// The tile of the first line for a global net.
#[tactic(auto, unfolding(crate::specs::Lookups::input_of))]
fn first_input(inputs: &[GlobalInput], g: u8) -> Option<TileXy8>
    ensures { result ≡ input_of g inputs.now }
{
    match inputs.iter().find(|input| input.global == g) {
        None => None,
        Some(input) => Some(TileXy8 {
            x: input.x,
            y: input.y,
        }),
    }
}

/// The pad of the first line for a global net.
#[tactic(auto, unfolding(crate::specs::Lookups::pad_of))]
fn first_pin(pins: &[GlobalPin], g: u8) -> Option<PinXy>
    ensures { result ≡ pad_of g pins.now }
{
    match pins.iter().find(|pin| pin.global == g) {
        None => None,
        Some(pin) => Some(PinXy {
            x: pin.x,
            y: pin.y,
            n: pin.pad,
        }),
    }
}
