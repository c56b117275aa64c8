// Keywords: the first word of a statement.
ghost use Rattle.std.specs.Prelude.{◌≡◌};
ghost use Rattle.asc_text.specs.inside.Keywords.{keyword_of};

use plane_map::TileKind;

/// A statement's first word.
#[derive(Clone, Copy, Debug, PartialEq, Eq)]
pub(crate) enum Keyword {
    Comment,
    Device,
    WarmBoot,
    FrequencyRange,
    NoSleep,
    Tile(TileKind),
    RamData,
    ExtraBit,
    Symbol,
}

/// The keyword that a word is.
#[tactic(auto, unfolding(crate::specs::inside::Keywords::keyword_of))]
pub(crate) fn keyword_of(word: &[u8]) -> Option<Keyword>
    ensures { result ≡ keyword_of word.now }
{
    if word == b".comment".as_slice() {
        Some(Keyword::Comment)
    } else if word == b".device".as_slice() {
        Some(Keyword::Device)
    } else if word == b".warmboot".as_slice() {
        Some(Keyword::WarmBoot)
    } else if word == b".freqrange".as_slice() {
        Some(Keyword::FrequencyRange)
    } else if word == b".nosleep".as_slice() {
        Some(Keyword::NoSleep)
    } else if word == b".io_tile".as_slice() {
        Some(Keyword::Tile(TileKind::Io))
    } else if word == b".logic_tile".as_slice() {
        Some(Keyword::Tile(TileKind::Logic))
    } else if word == b".ramb_tile".as_slice() {
        Some(Keyword::Tile(TileKind::RamB))
    } else if word == b".ramt_tile".as_slice() {
        Some(Keyword::Tile(TileKind::RamT))
    } else if word == b".ram_data".as_slice() {
        Some(Keyword::RamData)
    } else if word == b".extra_bit".as_slice() {
        Some(Keyword::ExtraBit)
    } else if word == b".sym".as_slice() {
        Some(Keyword::Symbol)
    } else {
        None
    }
}
