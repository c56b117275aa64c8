// Keys for look-ups: places and tiles with an order.

/// A place of the configuration planes.
#[derive(Clone, Copy, Debug, PartialEq, Eq, PartialOrd, Ord)]
pub(crate) struct PlaceKey {
    pub(crate) bank: u8,
    pub(crate) px: u16,
    pub(crate) py: u16,
}

/// A tile by its place in the grid.
#[derive(Clone, Copy, Debug, PartialEq, Eq, PartialOrd, Ord)]
pub(crate) struct TileKey {
    pub(crate) x: u8,
    pub(crate) y: u8,
}
