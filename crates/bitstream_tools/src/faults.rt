// The messages for faults of joining, of files of words and of replacing.
ghost use Rattle.std.specs.Prelude.{◌≡◌, ◌++◌};
ghost use Rattle.tool_run.specs.Lines.{phrase_text, refusal_text};
ghost use Rattle.bitstream_tools.specs.Faults.{bram_fault_text, hex_fault_text, multi_fault_text};

use asc_text::AscFault;
use boot_file::MultiFault;
use bram_replace::{BramFault, HexFault};
use tool_inputs::{asc_refusal, refusal, whole};
use tool_run::{Phrase, Refusal, decimal, text};

/// The refusal to join images with this fault.
pub(crate) fn multi_refusal(fault: MultiFault) -> Refusal<'static>
    ensures { refusal_text result ≡ multi_fault_text fault }
{
    let phrase = match fault {
        MultiFault::NoImage => text("NoImage"),
        MultiFault::TooMany { n } => decimal("TooMany ", n),
        MultiFault::Align { n } => decimal("Align ", n),
        MultiFault::PowerOn { index } => decimal("PowerOn ", index),
        MultiFault::Address { index } => decimal("Address ", index),
        MultiFault::Memory(_) => text("out of memory"),
    };
    refusal(phrase, text(""))
}

// A refusal of a file: its name, the place in it, and the cause.
fn file_refusal(name: &'static str, place: Phrase<'static>, cause: &'static str) -> Refusal<'static>
    ensures { refusal_text result ≡ name.now ++ phrase_text place.entry ++ cause.now }
{
    Refusal {
        file: None,
        first: text(name),
        second: place,
        third: text(cause),
        fourth: text(""),
    }
}

/// The refusal of a file of words, by its name.
pub(crate) fn hex_refusal(name: &'static str, fault: HexFault) -> Refusal<'static>
    ensures { refusal_text result ≡ hex_fault_text name.now fault }
{
    match fault {
        HexFault::Digit { line } => file_refusal(name, decimal(" line ", line), ": Digit"),
        HexFault::Width { line } => file_refusal(name, decimal(" line ", line), ": Width"),
        HexFault::Depth => file_refusal(name, text(": Depth"), ""),
        HexFault::Memory(_) => file_refusal(name, text(": out of memory"), ""),
    }
}

/// The refusal to replace the contents of RAMs.
pub(crate) fn bram_refusal(fault: BramFault) -> Refusal<'static>
    ensures { refusal_text result ≡ bram_fault_text fault }
{
    match fault {
        BramFault::Shape => whole("Shape"),
        BramFault::SameColumns { first, second } => refusal(
            decimal("SameColumns ", u64::from(first)),
            decimal(" ", u64::from(second)),
        ),
        BramFault::Asc(AscFault::At { line, tile, cause }) => asc_refusal(line, tile, cause),
        BramFault::Asc(AscFault::Memory(_)) => whole("out of memory"),
        BramFault::Memory(_) => whole("out of memory"),
    }
}
