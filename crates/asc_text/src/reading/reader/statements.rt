// What statements change.
ghost use Rattle.std.specs.Prelude.{◌≡◌, ◌<◌, [], Some, None, true, IfOk, IfErr, OnOk, is_some, MatchOption};
ghost use Rattle.plane_map.specs.Layout.{max_side};
ghost use Rattle.ice_image.specs.Configuration.{blank_image, IsWhole};
ghost use Rattle.ice_image.specs.Either.{configuration_of};
ghost use Rattle.asc_text.specs.Meaning.{extra_sets};
ghost use Rattle.asc_text.specs.Faults.{extra_place, tile_named};
ghost use Rattle.asc_text.specs.inside.Reading.{state_of, statement_refusal, setting_refusal, tile_refusal, extra_refusal, TakesStatement, Reports, ImageGains, HasKind};

use crate::fault::{AscCause, TileXy};
use crate::reading::bits;
use crate::reading::reader::{Expected, LineRefusal, TextReader};
use crate::statement::Statement;
use ice_image::{AnyImage, Comment};
use plane_map::{DeviceName, Layout, TileKind, kind_on};
use std::alloc::{AllocError, Global};

impl TextReader {
    /// Takes a statement.
    pub(super) fn take(&mut self, statement: Statement) -> Result<(), LineRefusal>
        ensures taken { IfOk result (λ _. TakesStatement (state_of self.old) statement (state_of self.new)) }
        ensures accepted { OnOk result (statement_refusal (state_of self.old) statement ≡ None) }
        ensures refused { IfErr result (Reports (statement_refusal (state_of self.old) statement)) }
    {
        match statement {
            Statement::Comment => {
                self.begin_comment();
                Ok(())
            }
            Statement::Device(device) => self.take_device(device),
            Statement::WarmBoot(setting) => Ok(set_once(&mut self.warm_boot, setting)?),
            Statement::FrequencyRange(setting) => Ok(set_once(&mut self.range, setting)?),
            Statement::NoSleep(setting) => Ok(set_once(&mut self.no_sleep, setting)?),
            Statement::Tile { kind, x, y } => Ok(self.begin_tile(kind, x, y)?),
            Statement::RamData { x, y } => Ok(self.begin_memory(x, y)?),
            Statement::ExtraBit { bank, x, y } => Ok(set_extra_bit(&mut self.image, bank, x, y)?),
            Statement::Symbol { .. } => Ok(()),
        }
    }

    /// Begins a comment, which replaces an earlier one.
    fn begin_comment(&mut self)
        ensures { state_of self.new ≡ record (state_of self.old) { comment = Some []; in_comment = true } }
    {
        self.comment = Some(Comment::new(self.alloc));
        self.in_comment = true;
    }

    /// Takes the device, if the text has named none before.
    fn take_device(&mut self, device: Option<DeviceName>) -> Result<(), LineRefusal>
        ensures taken { IfOk result (λ _. TakesStatement (state_of self.old) (Statement.Device device) (state_of self.new)) }
        ensures accepted { OnOk result (statement_refusal (state_of self.old) (Statement.Device device) ≡ None) }
        ensures refused { IfErr result (Reports (statement_refusal (state_of self.old) (Statement.Device device))) }
    {
        let Some(device) = device else {
            return Err(LineRefusal::Cause(AscCause::Device));
        };
        if self.image.is_some() {
            return Err(LineRefusal::Cause(AscCause::Repeated));
        }
        self.image = Some(blank_image(self.alloc, self.layouts.of(device))?);
        Ok(())
    }

    /// Begins the rows of a tile, if the text has not given them before.
    fn begin_tile(&mut self, kind: TileKind, x: u32, y: u32) -> Result<(), AscCause>
        ensures taken { IfOk result (λ _. TakesStatement (state_of self.old) (Statement.Tile kind x y) (state_of self.new)) }
        ensures accepted { OnOk result (statement_refusal (state_of self.old) (Statement.Tile kind x y) ≡ None) }
        ensures refused { IfErr result (λ cause. statement_refusal (state_of self.old) (Statement.Tile kind x y) ≡ Some cause) }
    {
        if let Some(cause) = tile_refusal(&self.image, kind, x, y) {
            return Err(cause);
        }
        if self.tiles.has(x, y) {
            return Err(AscCause::Repeated);
        }
        self.tiles.insert(x, y);
        self.expected = Expected::Row {
            kind,
            x: x as u8,
            y: y as u8,
            row: 0,
        };
        Ok(())
    }

    /// Begins the contents of a RAM, if the text has not given them before.
    fn begin_memory(&mut self, x: u32, y: u32) -> Result<(), AscCause>
        ensures taken { IfOk result (λ _. TakesStatement (state_of self.old) (Statement.RamData x y) (state_of self.new)) }
        ensures accepted { OnOk result (statement_refusal (state_of self.old) (Statement.RamData x y) ≡ None) }
        ensures refused { IfErr result (λ cause. statement_refusal (state_of self.old) (Statement.RamData x y) ≡ Some cause) }
    {
        if let Some(cause) = tile_refusal(&self.image, TileKind::RamB, x, y) {
            return Err(cause);
        }
        if self.rams.has(x, y) {
            return Err(AscCause::Repeated);
        }
        self.rams.insert(x, y);
        self.expected = Expected::Memory {
            x: x as u8,
            y: y as u8,
            row: 0,
        };
        Ok(())
    }
}

/// An image with all bits 0 under a layout.
fn blank_image(alloc: Global, layout: Layout) -> Result<AnyImage, AllocError>
    ensures blank { IfOk result (λ image. configuration_of image ≡ blank_image layout) }
    ensures whole { IfOk result (λ image. IsWhole (configuration_of image)) }
{
    let image = AnyImage::zeroed_with(alloc, layout)?;
    // Called only for its clause `whole`.
    let _device = image.device();
    Ok(image)
}

/// Sets a setting that has no value yet.
fn set_once<T: Copy>(slot: &mut Option<T>, setting: Option<T>) -> Result<(), AscCause>
    ensures taken { OnOk result (slot.new ≡ setting) }
    ensures accepted { OnOk result (setting_refusal (is_some slot.old) (is_some setting) ≡ None) }
    ensures refused { IfErr result (λ cause. setting_refusal (is_some slot.old) (is_some setting) ≡ Some cause) }
{
    if slot.is_some() {
        return Err(AscCause::Repeated);
    }
    if setting.is_none() {
        return Err(AscCause::Setting);
    }
    *slot = setting;
    Ok(())
}

/// What is wrong with the tile of a statement.
fn tile_refusal(image: &Option<AnyImage>, kind: TileKind, x: u32, y: u32) -> Option<AscCause>
    ensures refusal { result ≡ tile_refusal image.now kind x y }
    ensures in_grid { MatchOption result ((x < max_side) × (y < max_side)) (λ _. Unit {0}) }
{
    match image {
        Some(image) => match kind_on(image.device(), x, y) {
            Some(there) if there == kind => None,
            Some(there) => Some(AscCause::Kind { expected: there }),
            None => Some(AscCause::Coordinates),
        },
        None => Some(AscCause::NoDevice),
    }
}

/// Sets an extra bit.
fn set_extra_bit(image: &mut Option<AnyImage>, bank: u32, x: u32, y: u32) -> Result<(), AscCause>
    ensures taken { OnOk result (ImageGains image.old image.new (extra_sets (extra_place bank x y))) }
    ensures accepted { OnOk result (extra_refusal image.old bank x y ≡ None) }
    ensures refused { IfErr result (λ cause. extra_refusal image.old bank x y ≡ Some cause) }
{
    match image {
        Some(image) => match image.extra_place(bank, x, y) {
            Some(at) => {
                bits::set_extra_bit(image, at);
                Ok(())
            }
            None => Err(AscCause::ExtraPlace),
        },
        None => Err(AscCause::NoDevice),
    }
}

/// The tile or RAM that a statement names.
pub(super) fn tile_named(statement: Statement) -> Option<TileXy>
    ensures { result ≡ tile_named (Some statement) }
{
    match statement {
        Statement::Tile { x, y, .. } | Statement::RamData { x, y } => Some(TileXy { x, y }),
        _ => None,
    }
}
