// What a tool made on its way to the target.
ghost use Rattle.std.specs.Prelude.{◌≡◌, ◌≢◌, ◌≤◌, None, Option, Some, List, ℕ, OnOk, IsErrOf};
ghost use Rattle.std.specs.Borrow.{Bor};
ghost use Rattle.tool_run.specs.Counts.{counts};
ghost use Rattle.tool_run.specs.Needs.{text_of};
ghost use Rattle.tool_run.specs.Lines.{write_failed};
ghost use Rattle.tool_run.specs.Jobs.{IsBesideOutput};
ghost use Rattle.tool_run.specs.Effects.{Delivers, FailsToDeliver, FailsToTake, with_beside};

use crate::product::Product;
use ice_io::{Content, ContentFault, Files, Sink};
use std::alloc::Global;

/// Why not all the bytes were delivered.
#[derive(Clone, Copy, Debug, PartialEq, Eq)]
pub(crate) enum Undelivered<'a> {
    /// This file, or standard output if it is none, didn't take all of its bytes.
    Failed(Option<&'a str>),
    /// Out of memory, before the first of them.
    Memory,
}

// Stores the bytes in the file, or writes them to standard output if none is named.
fn deliver_content<'a, C: Content, F: Files, O: Sink>(
    alloc: Global,
    target: Option<&'a str>,
    content: C,
    files: &mut F,
    output: &mut O,
) -> Result<(), Undelivered<'a>>
    ensures whole { OnOk result (Delivers (text_of target.entry) (C.bytes content) (F.contents files.old) (F.contents files.new) (O.held output.old) (O.held output.new)) }
    ensures failed { (at : Option (Bor (List ℕ))) → IsErrOf result (Undelivered.Failed at)
        → FailsToTake F.contents (counts F.store_faults F.stores) O.held O.faults files.old files.new output.old output.new (λ said. said ≡ write_failed (text_of at))
        (F.contents files.old) (text_of target.entry) (C.bytes content) }

    ensures untouched { IsErrOf result Undelivered.Memory → output.new ≡ output.old }
    ensures kept { IsErrOf result Undelivered.Memory → F.contents files.new ≡ F.contents files.old }
    ensures unstored { IsErrOf result Undelivered.Memory → counts F.store_faults F.stores files.new ≡ counts F.store_faults F.stores files.old }

    ensures aside { text_of target.entry ≢ None → output.new ≡ output.old }
    ensures same_files { text_of target.entry ≡ None → files.new ≡ files.old }
{
    match target {
        Some(name) => match files.store_content(alloc, name, content) {
            Ok(()) => Ok(()),
            Err(ContentFault::Store(_)) => Err(Undelivered::Failed(target)),
            Err(ContentFault::Memory(_)) => Err(Undelivered::Memory),
        },
        None => match content.write_to(output) {
            Ok(()) => Ok(()),
            Err(_) => Err(Undelivered::Failed(target)),
        },
    }
}

// Stores the file beside standard output, and then writes the bytes for that. It takes no memory.
fn deliver_beside<'a, P: Product, F: Files, O: Sink>(
    beside: &'a str,
    product: P,
    files: &mut F,
    output: &mut O,
) -> Result<(), Undelivered<'a>>
    ensures whole { OnOk result (Delivers None (P.bytes product) (with_beside (F.contents files.old) (Some beside.now) (P.beside product)) (F.contents files.new) (O.held output.old) (O.held output.new)) }
    ensures failed { (at : Option (Bor (List ℕ))) → IsErrOf result (Undelivered.Failed at)
        → FailsToDeliver F.contents (counts F.store_faults F.stores) O.held O.faults files.old files.new output.old output.new (λ said. said ≡ write_failed (text_of at))
        (Some beside.now) (P.beside product) None (P.bytes product) }
    ensures memory { IsErrOf result Undelivered.Memory → ⊥ }
{
    match files.store(beside, product.beside()) {
        Ok(()) => match product.target().write_to(output) {
            Ok(()) => Ok(()),
            Err(_) => Err(Undelivered::Failed(None)),
        },
        Err(_) => Err(Undelivered::Failed(Some(beside))),
    }
}

/// Stores the file beside the target, if one is named, and then the bytes for the target in its file, or writes them to standard output if
/// none is named. If memory is out, nothing was delivered.
pub(crate) fn deliver<'a, P: Product, F: Files, O: Sink>(
    alloc: Global,
    beside: Option<&'a str>,
    target: Option<&'a str>,
    product: P,
    files: &mut F,
    output: &mut O,
) -> Result<(), Undelivered<'a>>
    requires { IsBesideOutput (text_of beside) (text_of target) }
    ensures whole { OnOk result (Delivers (text_of target.entry) (P.bytes product) (with_beside (F.contents files.old) (text_of beside.entry) (P.beside product))
        (F.contents files.new) (O.held output.old) (O.held output.new)) }
    ensures failed { (at : Option (Bor (List ℕ))) → IsErrOf result (Undelivered.Failed at)
        → FailsToDeliver F.contents (counts F.store_faults F.stores) O.held O.faults files.old files.new output.old output.new (λ said. said ≡ write_failed (text_of at))
        (text_of beside.entry) (P.beside product) (text_of target.entry) (P.bytes product) }

    ensures untouched { IsErrOf result Undelivered.Memory → output.new ≡ output.old }
    ensures kept { IsErrOf result Undelivered.Memory → F.contents files.new ≡ F.contents files.old }
    ensures unstored { IsErrOf result Undelivered.Memory → counts F.store_faults F.stores files.new ≡ counts F.store_faults F.stores files.old }

    ensures aside { text_of target.entry ≢ None → output.new ≡ output.old }
    ensures same_files { text_of beside.entry ≡ None → text_of target.entry ≡ None → files.new ≡ files.old }
{
    match beside {
        None => deliver_content(alloc, target, product.target(), files, output),
        Some(name) => deliver_beside(name, product, files, output),
    }
}
