// Statements of a text.

use ice_image::Range;
use plane_map::{DeviceName, TileKind};

/// What a line that begins with a dot says. The definitions of a text's meaning are stated in terms of it. `None` stands for an
/// unknown word.
#[derive(Clone, Copy, Debug, PartialEq, Eq)]
pub(crate) enum Statement {
    /// `.comment`: the lines that follow are a comment.
    Comment,
    /// `.device NAME`.
    Device(Option<DeviceName>),
    /// `.warmboot enabled` or `disabled`.
    WarmBoot(Option<bool>),
    /// `.freqrange low`, `medium` or `high`.
    FrequencyRange(Option<Range>),
    /// `.nosleep enabled` or `disabled`.
    NoSleep(Option<bool>),
    /// `.io_tile X Y`, `.logic_tile X Y`, `.ramb_tile X Y` or `.ramt_tile X Y`: sixteen rows follow.
    Tile { kind: TileKind, x: u32, y: u32 },
    /// `.ram_data X Y`: sixteen lines of digits follow.
    RamData { x: u32, y: u32 },
    /// `.extra_bit BANK X Y`.
    ExtraBit { bank: u32, x: u32, y: u32 },
    /// `.sym NET NAME`.
    Symbol { net: u32 },
}
