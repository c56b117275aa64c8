// One RAM.
ghost use Rattle.std.specs.Prelude.{◌≡◌, ◌<◌};
ghost use Rattle.ice_image.specs.Either.{configuration_of};
ghost use Rattle.chipdb_reader.specs.Kept.{database_in};
ghost use Rattle.fabric_model.specs.Rams.{is_port_inverted, ram_at};
ghost use Rattle.fabric_parts.specs.Rams.{HasRam};

use crate::ram::modes::{read_mode, write_mode};
use crate::ram::ports::{numbered_nets, port_net};
use chipdb_reader::ChipDb;
use fabric_model::{RamCell, is_on};
use ice_image::AnyImage;
use plane_map::TileKind;

/// The RAM at (x, y).
#[tactic(auto, unfolding(fabric_model::specs::Rams::ram_at))]
pub(crate) fn ram(db: &ChipDb, image: &AnyImage, x: u8, y: u8) -> RamCell
    requires { HasRam image.now x y }
    ensures { result ≡ ram_at (database_in db.now) (configuration_of image.now) x y }
{
    RamCell {
        x,
        y,
        read: read_mode(db, image, x, y),
        write: write_mode(db, image, x, y),
        wneg: is_inverted(db, image, x, y, b"ram/WCLK"),
        rneg: is_inverted(db, image, x, y, b"ram/RCLK"),
        rdata: numbered_nets(db, x, y, b"ram/RDATA_"),
        wdata: numbered_nets(db, x, y, b"ram/WDATA_"),
        mask: numbered_nets(db, x, y, b"ram/MASK_"),
        waddr: numbered_nets(db, x, y, b"ram/WADDR_"),
        raddr: numbered_nets(db, x, y, b"ram/RADDR_"),
        wclk: port_net(db, x, y, b"ram/WCLK"),
        wclke: port_net(db, x, y, b"ram/WCLKE"),
        we: port_net(db, x, y, b"ram/WE"),
        rclk: port_net(db, x, y, b"ram/RCLK"),
        rclke: port_net(db, x, y, b"ram/RCLKE"),
        re: port_net(db, x, y, b"ram/RE"),
    }
}

/// Whether a clock port is inverted: `NegClk` is on in the tile in which its name is found.
fn is_inverted(db: &ChipDb, image: &AnyImage, x: u8, y: u8, name: &[u8]) -> bool
    requires { HasRam image.now x y }
    ensures { result ≡ is_port_inverted (database_in db.now) (configuration_of image.now) x y name.now }
{
    if db.net_of(x, y, name).is_some() {
        is_on(db, image, TileKind::RamB, x, y, b"NegClk")
    } else if db.net_of(x, y + 1, name).is_some() {
        is_on(db, image, TileKind::RamT, x, y + 1, b"NegClk")
    } else {
        false
    }
}
