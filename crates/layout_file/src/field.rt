// The fields that a layout file gives.
ghost use Rattle.std.specs.Prelude.{◌≡◌};
ghost use Rattle.layout_file.specs.Lines.{flag_named, numbers_named};

/// A field that is a list of numbers.
#[derive(Clone, Copy, Debug, PartialEq, Eq)]
pub enum Numbers {
    /// `widths`: how many columns of bits each column of tiles takes, from the side edge inwards.
    Widths,
    /// `sidecols`: the column of bits of each column of an io tile of the left or the right edge, counted from that edge.
    SideColumns,
    /// `iocols`: the column of bits of each column of an io tile of the bottom or the top row, from the start of its column of
    /// tiles.
    PadColumns,
    /// `iorows`: the row of bits of each row of an io tile of the bottom or the top row, from the inner end.
    PadRows,
    /// `banks`: the bank of each quarter of the grid: left bottom, left top, right bottom, right top.
    Banks,
}

impl Numbers {
    /// The field that a word names.
    pub(crate) fn named(word: &[u8]) -> Option<Numbers>
        ensures { result ≡ numbers_named word.now }
    {
        if word == b"widths".as_slice() {
            Some(Numbers::Widths)
        } else if word == b"sidecols".as_slice() {
            Some(Numbers::SideColumns)
        } else if word == b"iocols".as_slice() {
            Some(Numbers::PadColumns)
        } else if word == b"iorows".as_slice() {
            Some(Numbers::PadRows)
        } else if word == b"banks".as_slice() {
            Some(Numbers::Banks)
        } else {
            None
        }
    }
}

/// A field that is `yes` or `no`.
#[derive(Clone, Copy, Debug, PartialEq, Eq)]
pub enum Flag {
    /// `mirror`: whether the columns of tiles that are no io tiles are counted towards the side edge in the right half.
    Mirror,
    /// `flip`: whether row 0 of a tile is its innermost row of bits in the top half, except in the top row.
    Flip,
    /// `padmirror`: whether the columns of io tiles of the bottom and the top row are counted towards the side edge in the
    /// right half.
    PadMirror,
    /// `ramflip`: whether the RAMs of the top half are counted from the top.
    RamFlip,
}

impl Flag {
    /// The field that a word names.
    pub(crate) fn named(word: &[u8]) -> Option<Flag>
        ensures { result ≡ flag_named word.now }
    {
        if word == b"mirror".as_slice() {
            Some(Flag::Mirror)
        } else if word == b"flip".as_slice() {
            Some(Flag::Flip)
        } else if word == b"padmirror".as_slice() {
            Some(Flag::PadMirror)
        } else if word == b"ramflip".as_slice() {
            Some(Flag::RamFlip)
        } else {
            None
        }
    }
}
