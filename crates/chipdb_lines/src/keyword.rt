// Keywords: the first word of a statement.
ghost use Rattle.std.specs.Prelude.{◌≡◌};
ghost use Rattle.chipdb_lines.specs.Statements.{keyword_of, tile_keyword_of};

use plane_map::TileKind;

/// The kind of a statement, known by its first word.
#[derive(Clone, Copy)]
pub enum Keyword {
    /// `.device`
    Device,
    /// `.gbufin`
    GlobalInputs,
    /// `.gbufpin`
    GlobalPins,
    /// `.io_tile`, `.logic_tile`, `.ramb_tile`, `.ramt_tile`
    Tile(TileKind),
    /// `.io_tile_bits`, `.logic_tile_bits`, `.ramb_tile_bits`, `.ramt_tile_bits`
    TileBits(TileKind),
    /// `.extra_bits`
    ExtraBits,
    /// `.net`
    Net,
    /// `.buffer`
    Buffer,
    /// `.routing`
    Routing,
    /// `.extra_cell`
    ExtraCell,
}

/// The keyword that a word is. `None` for any other word; such statements are skipped.
#[tactic(auto, unfolding(crate::specs::Statements::keyword_of))]
pub(crate) fn keyword_of(word: &[u8]) -> Option<Keyword>
    ensures { result ≡ keyword_of word.now }
{
    if word == b".buffer".as_slice() {
        Some(Keyword::Buffer)
    } else if word == b".routing".as_slice() {
        Some(Keyword::Routing)
    } else if word == b".net".as_slice() {
        Some(Keyword::Net)
    } else if word == b".device".as_slice() {
        Some(Keyword::Device)
    } else if word == b".gbufin".as_slice() {
        Some(Keyword::GlobalInputs)
    } else if word == b".gbufpin".as_slice() {
        Some(Keyword::GlobalPins)
    } else if word == b".extra_bits".as_slice() {
        Some(Keyword::ExtraBits)
    } else if word == b".extra_cell".as_slice() {
        Some(Keyword::ExtraCell)
    } else {
        tile_keyword_of(word)
    }
}

/// The keyword that a word is, if it names a tile or the bits of a tile.
fn tile_keyword_of(word: &[u8]) -> Option<Keyword>
    ensures { result ≡ tile_keyword_of word.now }
{
    if word == b".io_tile".as_slice() {
        Some(Keyword::Tile(TileKind::Io))
    } else if word == b".logic_tile".as_slice() {
        Some(Keyword::Tile(TileKind::Logic))
    } else if word == b".ramb_tile".as_slice() {
        Some(Keyword::Tile(TileKind::RamB))
    } else if word == b".ramt_tile".as_slice() {
        Some(Keyword::Tile(TileKind::RamT))
    } else if word == b".io_tile_bits".as_slice() {
        Some(Keyword::TileBits(TileKind::Io))
    } else if word == b".logic_tile_bits".as_slice() {
        Some(Keyword::TileBits(TileKind::Logic))
    } else if word == b".ramb_tile_bits".as_slice() {
        Some(Keyword::TileBits(TileKind::RamB))
    } else if word == b".ramt_tile_bits".as_slice() {
        Some(Keyword::TileBits(TileKind::RamT))
    } else {
        None
    }
}
