// Changes of single fields, after which a layout still puts no two bits at one place.
ghost use Rattle.std.specs.Prelude.{◌≡◌, true};
ghost use Rattle.plane_map.specs.Layout.{are_places, are_widths};

use crate::layout::Layout;
use crate::layout::widths::{padded, starts_of};

impl Layout {
    /// Sets how many columns of bits each column of tiles takes, from the side edge inwards.
    pub fn set_widths(&mut self, widths: &[u16])
        requires { are_widths self.old.device widths.now ≡ true }
        ensures { self.new ≡ record self.old { widths = widths.now } }
    {
        let all = padded(widths);
        self.widths = all;
        self.starts = starts_of(&all);
    }

    /// Sets the columns of bits of the io tiles of the left and the right edge.
    pub fn set_side_columns(&mut self, columns: [u8; 18])
        requires { are_places 18 18 columns ≡ true }
        ensures { self.new ≡ record self.old { side_columns = columns } }
    {
        self.side_columns = columns;
    }

    /// Sets the columns of bits of the io tiles of the bottom and the top row.
    pub fn set_pad_columns(&mut self, columns: [u8; 18])
        requires { are_places 18 42 columns ≡ true }
        ensures { self.new ≡ record self.old { pad_columns = columns } }
    {
        self.pad_columns = columns;
    }

    /// Sets the rows of bits of the io tiles of the bottom and the top row.
    pub fn set_pad_rows(&mut self, rows: [u8; 16])
        requires { are_places 16 16 rows ≡ true }
        ensures { self.new ≡ record self.old { pad_rows = rows } }
    {
        self.pad_rows = rows;
    }

    /// Sets the bank of each quarter of the grid.
    pub fn set_banks(&mut self, banks: [u8; 4])
        requires { are_places 4 4 banks ≡ true }
        ensures { self.new ≡ record self.old { banks = banks } }
    {
        self.banks = banks;
    }

    /// Sets whether the columns of tiles that are no io tiles are counted towards the side edge in the right half.
    pub fn set_mirror(&mut self, mirror: bool)
        ensures { self.new ≡ record self.old { mirror = mirror } }
    {
        self.mirror = mirror;
    }

    /// Sets whether row 0 of a tile is its innermost row of bits in the top half, except in the top row.
    pub fn set_flip(&mut self, flip: bool)
        ensures { self.new ≡ record self.old { flip = flip } }
    {
        self.flip = flip;
    }

    /// Sets whether the columns of io tiles of the bottom and the top row are counted towards the side edge in the right half.
    pub fn set_pad_mirror(&mut self, pad_mirror: bool)
        ensures { self.new ≡ record self.old { pad_mirror = pad_mirror } }
    {
        self.pad_mirror = pad_mirror;
    }

    /// Sets whether the RAMs of the top half are counted from the top.
    pub fn set_ram_flip(&mut self, ram_flip: bool)
        ensures { self.new ≡ record self.old { ram_flip = ram_flip } }
    {
        self.ram_flip = ram_flip;
    }
}
