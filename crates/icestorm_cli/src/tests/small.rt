// A small database of an iCE40 HX1K, an image for it, and the module of its design.

use std::alloc::{AllocError, Global};

/// A database with two pins and a cell.
pub(super) const DATABASE: &str = ".device 1k 14 18 6
.logic_tile_bits 54 16
LC_0 B0[36] B0[37] B0[38] B0[39] B0[40] B0[41] B0[42] B0[43] B0[44] B0[45] B1[36] B1[37] B1[38] B1[39] B1[40] B1[41] B1[42] B1[43] B1[44] B1[45]
.io_tile_bits 18 16
IOB_0.PINTYPE_0 B0[0]
IOB_0.PINTYPE_1 B1[0]
IOB_0.PINTYPE_2 B2[0]
IOB_0.PINTYPE_3 B3[0]
IOB_0.PINTYPE_4 B4[0]
IOB_0.PINTYPE_5 B5[0]
.net 0
0 1 io_0/D_IN_0
.net 1
1 1 lutff_0/in_0
.net 2
1 1 lutff_0/out
.net 3
0 2 io_0/D_OUT_0
.buffer 1 1 1 B2[0]
1 0
.buffer 0 2 3 B6[0]
1 2
";

/// The module of a pin, an inverter and another pin.
pub(super) const MODULE: &str = "\
module chip (io_0_1_0, io_0_2_0);
  input io_0_1_0;
  output io_0_2_0;
  wire n_0 = io_0_1_0;
  wire n_1 = n_0;
  wire n_2 = 16'h5555 >> {1'b0, 1'b0, 1'b0, n_1};
  wire n_3 = n_2;
  assign io_0_2_0 = n_3;
endmodule
";

/// A tile of an image: its statement, its columns, and the row and the column of each bit that is set.
type Tile = (&'static str, usize, &'static [(usize, usize)]);

/// A pin, an inverter and another pin.
static INVERTER: [Tile; 3] = [
    (".io_tile 0 1\n", 18, &[(0, 0)]),
    (".io_tile 0 2\n", 18, &[(0, 0), (3, 0), (4, 0), (6, 0)]),
    (
        ".logic_tile 1 1\n",
        54,
        &[
            (0, 37),
            (0, 39),
            (0, 40),
            (0, 42),
            (1, 36),
            (1, 38),
            (1, 41),
            (1, 43),
            (2, 0),
        ],
    ),
];

/// Appends a tile.
fn append_tile(text: &mut Vec<u8>, tile: &Tile) -> Result<(), AllocError> {
    text.extend_from_slice(tile.0.as_bytes())?;
    for row in 0..16 {
        for col in 0..tile.1 {
            let is_set = tile.2.iter().any(|bit| *bit == (row, col));
            text.push(if is_set { b'1' } else { b'0' })?;
        }
        text.push(b'\n')?;
    }
    Ok(())
}

/// The image of that design.
pub(super) fn image(alloc: Global) -> Result<Vec<u8>, AllocError> {
    let mut text = b".device 1k\n".to_vec(alloc)?;
    for tile in &INVERTER {
        append_tile(&mut text, tile)?;
    }
    Ok(text)
}
