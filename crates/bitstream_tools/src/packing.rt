// Packs a text that comes in pieces.
ghost use Rattle.std.specs.Prelude.{◌≡◌, ℕ, List, IfOk, IfErr};
ghost use Rattle.tool_run.specs.Stops.{StopsWith};
ghost use Rattle.tool_run.specs.Tasks.{Done};
ghost use Rattle.layout_file.specs.declared.layouts.Layouts.{Layouts};
ghost use Rattle.asc_text.specs.Feeding.{StandsFor};
ghost use Rattle.bitstream_tools.specs.Pack.{packed_under};

use asc_text::{AscFault, AscReader};
use ice_pack::pack_fed;
use std::alloc::Global;
use tool_inputs::asc_refusal;
use tool_run::Stop;

/// The bitstream of the text that was fed to a reader, or why there is none. If `no_sleep` is true, the flash stays awake.
pub(crate) fn packed(
    alloc: Global,
    no_sleep: bool,
    reader: AscReader,
) -> Result<Vec<u8>, Stop<'static>>
    ensures bytes { IfOk result (λ made. (layouts : Layouts) (text : List ℕ) → StandsFor layouts text reader
        → packed_under no_sleep text layouts ≡ Done made.items) }
    ensures stops { IfErr result (λ stop. (layouts : Layouts) (text : List ℕ) → StandsFor layouts text reader
        → StopsWith (packed_under no_sleep text layouts) stop) }
{
    match pack_fed(alloc, reader, no_sleep) {
        Ok(bytes) => Ok(bytes),
        Err(AscFault::At { line, tile, cause }) => {
            Err(Stop::Refused(asc_refusal(line, tile, cause)))
        }
        Err(AscFault::Memory(_)) => Err(Stop::Memory),
    }
}
