// The messages for faults of what tools read: a text, a bitstream, a database.
ghost use Rattle.std.specs.Prelude.{◌≡◌, ◌++◌, None, codes};
ghost use Rattle.tool_run.specs.Lines.{phrase_text, refusal_text};
ghost use Rattle.tool_inputs.specs.Faults.{asc_cause_text, asc_fault_text, bin_cause_text, bin_fault_text, db_cause_text, db_fault_text, kind_name};

use crate::refusals::refusal;
use asc_text::{AscCause, TileXy};
use bin_stream::BinCause;
use chipdb_reader::DbCause;
use plane_map::TileKind;
use tool_run::{Number, Phrase, Refusal, decimal, text};

// The cause if another kind of tile is expected, after a colon.
fn kind_text(expected: TileKind) -> &'static str
    ensures { result.now ≡ codes ": Kind expected " ++ kind_name expected }
{
    match expected {
        TileKind::Io => ": Kind expected io",
        TileKind::Logic => ": Kind expected logic",
        TileKind::RamB => ": Kind expected ramb",
        TileKind::RamT => ": Kind expected ramt",
    }
}

// What is wrong with a line, after a colon.
fn asc_cause_text(cause: AscCause) -> &'static str
    ensures { result.now ≡ codes ": " ++ asc_cause_text cause }
{
    match cause {
        AscCause::Statement => ": Statement",
        AscCause::NoDevice => ": NoDevice",
        AscCause::Device => ": Device",
        AscCause::Coordinates => ": Coordinates",
        AscCause::Kind { expected } => kind_text(expected),
        AscCause::Row => ": Row",
        AscCause::Repeated => ": Repeated",
        AscCause::Hex => ": Hex",
        AscCause::ExtraPlace => ": ExtraPlace",
        AscCause::Setting => ": Setting",
        AscCause::StrayData => ": StrayData",
        AscCause::CommentByte => ": CommentByte",
    }
}

/// The refusal of a text (.asc): the line, the tile if the line belongs to one, and the cause.
pub fn asc_refusal(line: u64, tile: Option<TileXy>, cause: AscCause) -> Refusal<'static>
    ensures text { refusal_text result ≡ asc_fault_text line tile cause }
    ensures unnamed { result.file ≡ None }
{
    let cause = text(asc_cause_text(cause));
    match tile {
        None => refusal(decimal("line ", line), cause),
        Some(tile) => Refusal {
            file: None,
            first: decimal("line ", line),
            second: decimal(": tile ", u64::from(tile.x)),
            third: decimal(" ", u64::from(tile.y)),
            fourth: cause,
        },
    }
}

/// What is wrong with a bitstream, after a colon. For a wrong CRC this includes the value that was found.
pub fn bin_cause(cause: BinCause) -> Phrase<'static>
    ensures { phrase_text result ≡ codes ": " ++ bin_cause_text cause }
{
    match cause {
        BinCause::NoPreamble => text(": NoPreamble"),
        BinCause::Truncated => text(": Truncated"),
        BinCause::UnknownCommand => text(": UnknownCommand"),
        BinCause::LongPayload => text(": LongPayload"),
        BinCause::BadBank => text(": BadBank"),
        BinCause::BadWidth => text(": BadWidth"),
        BinCause::BadHeight => text(": BadHeight"),
        BinCause::DataEnd => text(": DataEnd"),
        BinCause::Check { found } => Phrase {
            text: ": Check ",
            number: Number::Hexadecimal(found),
        },
        BinCause::BadRange => text(": BadRange"),
        BinCause::BadMode => text(": BadMode"),
        BinCause::NoDevice => text(": NoDevice"),
    }
}

/// The refusal of a bitstream (.bin): the offset and the cause.
pub fn bin_refusal(offset: u64, cause: BinCause) -> Refusal<'static>
    ensures text { refusal_text result ≡ bin_fault_text offset cause }
    ensures unnamed { result.file ≡ None }
{
    refusal(decimal("offset ", offset), bin_cause(cause))
}

// What is wrong with a line of a database, after a colon.
fn db_cause_text(cause: DbCause) -> &'static str
    ensures { result.now ≡ codes ": " ++ db_cause_text cause }
{
    match cause {
        DbCause::NoDevice => ": NoDevice",
        DbCause::Device => ": Device",
        DbCause::Number => ": Number",
        DbCause::TileKind => ": TileKind",
        DbCause::NetRange => ": NetRange",
        DbCause::NetTwice => ": NetTwice",
        DbCause::NameTwice => ": NameTwice",
        DbCause::BitName => ": BitName",
        DbCause::BitRange => ": BitRange",
        DbCause::CellBits => ": CellBits",
        DbCause::ValueLength => ": ValueLength",
        DbCause::ValuesTwice => ": ValuesTwice",
    }
}

/// The refusal of a database: the line and the cause.
pub(crate) fn db_refusal(line: u64, cause: DbCause) -> Refusal<'static>
    ensures { refusal_text result ≡ db_fault_text line cause }
{
    refusal(decimal("database line ", line), text(db_cause_text(cause)))
}
