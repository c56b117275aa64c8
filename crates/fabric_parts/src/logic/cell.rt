// Cells.
ghost use Rattle.std.specs.Prelude.{◌≡◌, All};
ghost use Rattle.plane_map.specs.declared.tile.TileKind.TheVariants.{Logic};
ghost use Rattle.ice_image.specs.Either.{configuration_of};
ghost use Rattle.chipdb_reader.specs.Fit.{IsBitIn};
ghost use Rattle.chipdb_reader.specs.Kept.{database_in};
ghost use Rattle.fabric_model.specs.Cells.{is_at_once, cell_with};
ghost use Rattle.fabric_model.specs.On.{bits_at};
ghost use Rattle.fabric_model.specs.TilesOfKind.{HasTile};

use crate::logic::ports::{carry_in_net, input_nets, lutff_net};
use chipdb_reader::ChipDb;
use fabric_model::{
    ASYNC_SET_RESET, CARRY_ENABLE, CarrySet, DFF_ENABLE, LogicCell, SET_NO_RESET, is_on,
    listed_bit, lut,
};
use ice_image::AnyImage;
use plane_map::{RowCol, TileKind};

/// The used logic cells, by tile and index, and the carry inputs that are set, by tile. Tiles are ordered by row, then by column.
#[derive(Drop)]
pub struct Cells {
    pub lcs: Vec<LogicCell>,
    pub sets: Vec<CarrySet>,
}

/// Whether a cell with these bits has a flip-flop with an asynchronous set or reset.
fn is_at_once(image: &AnyImage, x: u8, y: u8, bits: &[RowCol]) -> bool
    requires tile { HasTile image.now Logic x y }
    requires in_tile { All (IsBitIn 54) bits.now }
    ensures { result ≡ is_at_once (bits_at (configuration_of image.now) x y bits.now) }
{
    listed_bit(image, TileKind::Logic, x, y, bits, DFF_ENABLE)
        && listed_bit(image, TileKind::Logic, x, y, bits, ASYNC_SET_RESET)
}

/// Cell `i` of the tile at (x, y), which has these bits.
#[tactic(auto, unfolding(fabric_model::specs::Cells::cell_with))]
pub(crate) fn cell(db: &ChipDb, image: &AnyImage, x: u8, y: u8, i: u8, bits: &[RowCol]) -> LogicCell
    requires tile { HasTile image.now Logic x y }
    requires in_tile { All (IsBitIn 54) bits.now }
    ensures { result ≡ cell_with (database_in db.now) (configuration_of image.now) x y i (bits_at (configuration_of image.now) x y bits.now) }
{
    LogicCell {
        x,
        y,
        i,
        lut: lut(image, x, y, bits),
        carry: listed_bit(image, TileKind::Logic, x, y, bits, CARRY_ENABLE),
        flip: listed_bit(image, TileKind::Logic, x, y, bits, DFF_ENABLE),
        set: listed_bit(image, TileKind::Logic, x, y, bits, SET_NO_RESET),
        is_async: is_at_once(image, x, y, bits),
        neg: is_on(db, image, TileKind::Logic, x, y, b"NegClk"),
        ins: input_nets(db, x, y, i),
        out: lutff_net(db, x, y, i, b"/out"),
        lout: lutff_net(db, x, y, i, b"/lout"),
        cout: lutff_net(db, x, y, i, b"/cout"),
        cin: carry_in_net(db, x, y, i),
        clk: db.net_of(x, y, b"lutff_global/clk"),
        cen: db.net_of(x, y, b"lutff_global/cen"),
        sr: db.net_of(x, y, b"lutff_global/s_r"),
    }
}
