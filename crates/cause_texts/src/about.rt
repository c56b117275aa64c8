// What causes mean, by their words, in groups. check/documents.py --causes makes this file of docs/FORMATS.md.
ghost use Rattle.std.specs.Prelude.{◌≡◌, option_map};
ghost use Rattle.cause_texts.specs.About.{about_bitstreams, about_boot_files, about_databases, about_designs, about_modules, about_texts};

use crate::texts;

/// What a cause about the text means.
#[tactic(auto, unfolding(crate::specs::About::about_texts))]
pub fn about_texts(word: &str) -> Option<&'static str>
    ensures { option_map (λ text. text.now) result ≡ about_texts word.now }
{
    match word {
        "CommentByte" => Some(texts::COMMENT_BYTE),
        "Coordinates" => Some(texts::COORDINATES),
        "Device" => Some(texts::DEVICE),
        "ExtraPlace" => Some(texts::EXTRA_PLACE),
        "Hex" => Some(texts::HEX),
        "Kind" => Some(texts::KIND),
        "NoDevice" => Some(texts::NO_DEVICE),
        "Repeated" => Some(texts::REPEATED),
        "Row" => Some(texts::ROW),
        "Setting" => Some(texts::SETTING),
        "Statement" => Some(texts::STATEMENT),
        "StrayData" => Some(texts::STRAY_DATA),
        _ => None,
    }
}

/// What a cause about the bitstream means.
#[tactic(auto, unfolding(crate::specs::About::about_bitstreams))]
pub fn about_bitstreams(word: &str) -> Option<&'static str>
    ensures { option_map (λ text. text.now) result ≡ about_bitstreams word.now }
{
    match word {
        "BadBank" => Some(texts::BAD_BANK),
        "BadHeight" => Some(texts::BAD_HEIGHT),
        "BadMode" => Some(texts::BAD_MODE),
        "BadRange" => Some(texts::BAD_RANGE),
        "BadWidth" => Some(texts::BAD_WIDTH),
        "Check" => Some(texts::CHECK),
        "DataEnd" => Some(texts::DATA_END),
        "LongPayload" => Some(texts::LONG_PAYLOAD),
        "NoPreamble" => Some(texts::NO_PREAMBLE),
        "Truncated" => Some(texts::TRUNCATED),
        "UnknownCommand" => Some(texts::UNKNOWN_COMMAND),
        _ => None,
    }
}

/// What a cause about boot files or memory words means.
#[tactic(auto, unfolding(crate::specs::About::about_boot_files))]
pub fn about_boot_files(word: &str) -> Option<&'static str>
    ensures { option_map (λ text. text.now) result ≡ about_boot_files word.now }
{
    match word {
        "Address" => Some(texts::ADDRESS),
        "Align" => Some(texts::ALIGN),
        "Depth" => Some(texts::DEPTH),
        "Digit" => Some(texts::DIGIT),
        "header" => Some(texts::HEADER),
        "image" => Some(texts::IMAGE),
        "NoImage" => Some(texts::NO_IMAGE),
        "PowerOn" => Some(texts::POWER_ON),
        "SameColumns" => Some(texts::SAME_COLUMNS),
        "Shape" => Some(texts::SHAPE),
        "Short" => Some(texts::SHORT),
        "TooMany" => Some(texts::TOO_MANY),
        _ => None,
    }
}

/// What a cause about layout files or the chip database means.
#[tactic(auto, unfolding(crate::specs::About::about_databases))]
pub fn about_databases(word: &str) -> Option<&'static str>
    ensures { option_map (λ text. text.now) result ≡ about_databases word.now }
{
    match word {
        "BitName" => Some(texts::BIT_NAME),
        "BitRange" => Some(texts::BIT_RANGE),
        "CellBits" => Some(texts::CELL_BITS),
        "NameTwice" => Some(texts::NAME_TWICE),
        "NetRange" => Some(texts::NET_RANGE),
        "NetTwice" => Some(texts::NET_TWICE),
        "Number" => Some(texts::NUMBER),
        "Place" => Some(texts::PLACE),
        "TileKind" => Some(texts::TILE_KIND),
        "ValueLength" => Some(texts::VALUE_LENGTH),
        "ValuesTwice" => Some(texts::VALUES_TWICE),
        "Width" => Some(texts::WIDTH),
        _ => None,
    }
}

/// What a cause about the Verilog subset means.
#[tactic(auto, unfolding(crate::specs::About::about_modules))]
pub fn about_modules(word: &str) -> Option<&'static str>
    ensures { option_map (λ text. text.now) result ≡ about_modules word.now }
{
    match word {
        "AssignedTwice" => Some(texts::ASSIGNED_TWICE),
        "Form" => Some(texts::FORM),
        "Long" => Some(texts::LONG),
        "Order" => Some(texts::ORDER),
        "Pin" => Some(texts::PIN),
        "Repeat" => Some(texts::REPEAT),
        "Syntax" => Some(texts::SYNTAX),
        "Undeclared" => Some(texts::UNDECLARED),
        "Wire" => Some(texts::WIRE),
        "WireTwice" => Some(texts::WIRE_TWICE),
        _ => None,
    }
}

/// What a cause about explained text, differences, pin files or designs that aren't taken means.
#[tactic(auto, unfolding(crate::specs::About::about_designs))]
pub fn about_designs(word: &str) -> Option<&'static str>
    ensures { option_map (λ text. text.now) result ≡ about_designs word.now }
{
    match word {
        "Cascade" => Some(texts::CASCADE),
        "Clock" => Some(texts::CLOCK),
        "Images" => Some(texts::IMAGES),
        "Loop" => Some(texts::LOOP),
        "NoTile" => Some(texts::NO_TILE),
        "Package" => Some(texts::PACKAGE),
        "PinMode" => Some(texts::PIN_MODE),
        "Pll" => Some(texts::PLL),
        "TwoDrivers" => Some(texts::TWO_DRIVERS),
        _ => None,
    }
}
