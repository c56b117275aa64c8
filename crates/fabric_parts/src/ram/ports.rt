// The nets of a RAM's ports. A port's name is looked up at the lower tile, then at the upper one.
ghost use Rattle.std.specs.Prelude.{◌≡◌, ◌<◌, ◌≤◌, length};
ghost use Rattle.chipdb_reader.specs.Kept.{database_in};
ghost use Rattle.fabric_model.specs.Nets.{ending_in};
ghost use Rattle.fabric_model.specs.Rams.{port_net};
ghost use Rattle.fabric_model.specs.Tiles.{each_below};

use chipdb_reader::ChipDb;
use fabric_model::ShortText;

/// The net of a port of the RAM at (x, y), or `None` if neither tile has such a net.
pub(crate) fn port_net(db: &ChipDb, x: u8, y: u8, name: &[u8]) -> Option<u32>
    requires { y < 255 }
    ensures { result ≡ port_net (database_in db.now) x y name.now }
{
    match db.net_of(x, y, name) {
        Some(net) => Some(net),
        None => db.net_of(x, y + 1, name),
    }
}

/// The net of a port whose name ends in a number.
pub(crate) fn numbered_net(db: &ChipDb, x: u8, y: u8, before: &[u8], k: u8) -> Option<u32>
    requires upper { y < 255 }
    requires short { length before.now ≤ 20 }
    ensures { result ≡ port_net (database_in db.now) x y (ending_in before.now k) }
{
    port_net(db, x, y, ShortText::ending_in(before, k).bytes())
}

/// The nets of N ports whose names end in a number, counted from 0.
pub(crate) fn numbered_nets<const N: usize>(
    db: &ChipDb,
    x: u8,
    y: u8,
    before: &[u8],
) -> [Option<u32>; N]
    requires few { N ≤ 16 }
    requires upper { y < 255 }
    requires short { length before.now ≤ 20 }
    ensures { result ≡ each_below N (λ k. port_net (database_in db.now) x y (ending_in before.now k)) }
{
    let mut nets = [None; N];
    for k in 0..N {
        nets[k] = numbered_net(db, x, y, before, k as u8);
    }
    nets
}
