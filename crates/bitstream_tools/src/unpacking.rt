// Unpacks a bitstream that comes in pieces.
ghost use Rattle.std.specs.Prelude.{◌≡◌, ℕ, List, Result, IfOk, IfErr};
ghost use Rattle.tool_run.specs.Stops.{StopsWith};
ghost use Rattle.tool_run.specs.Tasks.{Done};
ghost use Rattle.layout_file.specs.declared.layouts.Layouts.{Layouts};
ghost use Rattle.asc_text.specs.InPieces.{canonical_in};
ghost use Rattle.bin_stream.specs.Decoding.{StandsFor};
ghost use Rattle.ice_image.specs.Configuration.{Configuration};
ghost use Rattle.bin_stream.specs.Refusals.{Fault};
ghost use Rattle.bin_stream.specs.Spelling.{Tells};
ghost use Rattle.bitstream_tools.specs.Unpack.{unpacked, unpacked_under};

use asc_text::CanonicalText;
use bin_stream::{BinFault, Decoder};
use ice_pack::unpack_fed;
use std::alloc::Global;
use tool_inputs::bin_refusal;
use tool_run::{Product, Stop};

/// The text of an unpacked bitstream, for the target alone.
#[derive(Drop)]
pub(crate) struct Unpacked {
    text: CanonicalText,
}

impl Product for Unpacked {
    ghost use Rattle.std.specs.Prelude.{[]};
    ghost use Rattle.asc_text.specs.InPieces.{canonical_in};

    ghost bytes = { λ unpacked. canonical_in unpacked.text };

    ghost beside = { λ unpacked. [] };

    type Target = CanonicalText;

    fn beside(&self) -> &[u8] {
        &[]
    }

    fn target(self) -> CanonicalText {
        self.text
    }
}

/// The text of the bitstream that was fed to a decoder, or its first fault.
pub(crate) fn unpacked_text(alloc: Global, decoder: Decoder) -> Result<Unpacked, Stop<'static>>
    ensures text { IfOk result (λ made. (layouts : Layouts) (bytes : List ℕ) → StandsFor layouts bytes decoder
        → unpacked_under bytes layouts ≡ Done (canonical_in made.text)) }
    ensures stops { IfErr result (λ stop. (layouts : Layouts) (bytes : List ℕ) → StandsFor layouts bytes decoder
        → StopsWith (unpacked_under bytes layouts) stop) }
{
    match unpack_fed(alloc, decoder) {
        Ok(text) => Ok(Unpacked { text }),
        Err(fault) => Err(stop_of(fault)),
    }
}

/// The stop for a bitstream with this fault.
pub(crate) fn stop_of(fault: BinFault) -> Stop<'static>
    ensures { (read : Result Configuration Fault) → Tells read fault → StopsWith (unpacked read) result }
{
    match fault {
        BinFault::At { offset, cause } => Stop::Refused(bin_refusal(offset, cause)),
        BinFault::Memory(_) => Stop::Memory,
    }
}
