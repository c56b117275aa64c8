// RAMs that are used.
ghost use Rattle.std.specs.Prelude.{◌≡◌, ◌<◌, All, IfOk, filter};
ghost use Rattle.ice_image.specs.Either.{configuration_of};
ghost use Rattle.chipdb_reader.specs.Kept.{database_in};
ghost use Rattle.fabric_model.specs.Rams.{is_ram_used};
ghost use Rattle.fabric_model.specs.BelongTogether.{BelongTogether};

use crate::ram::ports::numbered_net;
use chipdb_reader::{ChipDb, TileXy8};
use fabric_model::{Links, is_some_read};
use ice_image::AnyImage;
use std::alloc::{AllocError, Global};

/// The lower tiles, among these, whose RAMs are used.
pub(crate) fn used_rams(
    alloc: Global,
    db: &ChipDb,
    image: &AnyImage,
    links: &Links,
    tiles: &[TileXy8],
) -> Result<Vec<TileXy8>, AllocError>
    requires together { BelongTogether db.now image.now links.now }
    requires upper { All (λ tile. tile.y < 255) tiles.now }
    ensures { IfOk result (λ rams. rams.items ≡ filter (λ tile. is_ram_used (database_in db.now) (configuration_of image.now) tile.x tile.y) tiles.now) }
{
    let mut rams = Vec::new(alloc);
    for tile in tiles {
        if is_used(db, image, links, tile.x, tile.y) {
            rams.push(*tile)?;
        }
    }
    Ok(rams)
}

/// Whether the RAM at (x, y) is used: a bit of its read data is read.
fn is_used(db: &ChipDb, image: &AnyImage, links: &Links, x: u8, y: u8) -> bool
    requires together { BelongTogether db.now image.now links.now }
    requires upper { y < 255 }
    ensures { result ≡ is_ram_used (database_in db.now) (configuration_of image.now) x y }
{
    for bit in 0..16 {
        if is_some_read(links, numbered_net(db, x, y, b"ram/RDATA_", bit)) {
            return true;
        }
    }
    false
}
