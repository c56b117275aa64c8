// The nets of a cell's ports.
ghost use Rattle.std.specs.Prelude.{◌≡◌, ◌≤◌, codes, length};
ghost use Rattle.chipdb_reader.specs.Kept.{database_in};
ghost use Rattle.fabric_model.specs.Cells.{lutff_net, carry_in_net};
ghost use Rattle.fabric_model.specs.Nets.{ending_in};
ghost use Rattle.fabric_model.specs.Tiles.{each_below};

use chipdb_reader::ChipDb;
use fabric_model::ShortText;

/// The net of a port of cell `i`. The port is the part of the name after the cell, such as `/out`.
pub(crate) fn lutff_net(db: &ChipDb, x: u8, y: u8, i: u8, port: &[u8]) -> Option<u32>
    requires { length port.now ≤ 20 }
    ensures { result ≡ lutff_net (database_in db.now) x y i port.now }
{
    db.net_of(x, y, ShortText::with_number(b"lutff_", i, port).bytes())
}

/// The net of input `k` of cell `i`.
fn input_net(db: &ChipDb, x: u8, y: u8, i: u8, k: u8) -> Option<u32>
    ensures { result ≡ lutff_net (database_in db.now) x y i (ending_in (codes "/in_") k) }
{
    lutff_net(db, x, y, i, ShortText::ending_in(b"/in_", k).bytes())
}

/// The nets of the four inputs of cell `i`.
#[tactic(auto, unfolding(index_search::specs::Places::gathered_below))]
pub(crate) fn input_nets(db: &ChipDb, x: u8, y: u8, i: u8) -> [Option<u32>; 4]
    ensures { result ≡ each_below 4 (λ k. lutff_net (database_in db.now) x y i (ending_in (codes "/in_") k)) }
{
    [
        input_net(db, x, y, i, 0),
        input_net(db, x, y, i, 1),
        input_net(db, x, y, i, 2),
        input_net(db, x, y, i, 3),
    ]
}

/// The net of the carry-in of cell `i`: `carry_in_mux` of the tile for cell 0, else the carry-out of the cell before.
pub(crate) fn carry_in_net(db: &ChipDb, x: u8, y: u8, i: u8) -> Option<u32>
    ensures { result ≡ carry_in_net (database_in db.now) x y i }
{
    match i {
        0 => db.net_of(x, y, b"carry_in_mux"),
        _ => lutff_net(db, x, y, i - 1, b"/cout"),
    }
}
