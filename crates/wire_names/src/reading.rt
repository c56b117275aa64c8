// Reads a list of names line by line.
ghost use Rattle.std.specs.Prelude.{◌≡◌, ◌++◌, ◌∷◌, [], ℕ, List, None, IfOk, IfErr, OnOk};
ghost use Rattle.vlog_module.specs.Parts.{Parts};
ghost use Rattle.wire_names.specs.Faults.{Tells, cause_for, cause_of, fault_with, named_by, names_fault_of, wires_named};
ghost use Rattle.wire_names.specs.Lines.{line_of};
ghost use Rattle.wire_names.specs.Naming.{Names};

use crate::fault::{WireNamesCause, WireNamesFault};
use crate::line::{LineKind, line_kind};
use crate::naming::Naming;
use crate::wire_names::WireNames;
use std::alloc::Global;
use text_lines::first_line;
use vlog_module::Module;

/// Reads a list of names for the wires of a module.
///
/// A line is `WIRE NAME`: a wire of the module, and one or more printable bytes. Spaces and tabs separate the two. A line without a word is
/// skipped. No wire stands twice, and no name stands twice or is declared in the module.
///
/// # Errors
/// `WireNamesFault::At` with the first faulty line and the first of its causes. `WireNamesFault::Memory` if memory is out; it may come in
/// place of any other answer.
///
/// # Example
/// ```ignore
/// let names = read_names(alloc, &module, b"n_3 uart.busy\n")?;
/// // names.name_of(b"n_3") is `uart.busy`
/// ```
pub fn read_names(alloc: Global, module: &Module, text: &[u8]) -> Result<WireNames, WireNamesFault>
    ensures names { IfOk result (λ names. names ≡ wires_named text.now) }
    ensures accepted { OnOk result (names_fault_of «module».now text.now ≡ None) }
    ensures refused { IfErr result (Tells (names_fault_of «module».now text.now)) }
{
    let mut naming = Naming::new(alloc, module)?;
    let mut left = text;
    let mut count = 0;
    while let Some(line) = first_line(left) {
        take_line(&mut naming, count + 1, line.content)?;
        count += 1;
        left = line.rest;
    }
    Ok(naming.finish())
}

/// Takes the next line, which is line `number` of the list.
fn take_line<'a>(naming: &mut Naming<'a>, number: u64, line: &'a [u8]) -> Result<(), WireNamesFault>
    ensures taken { OnOk result ((m : Parts) (earlier : List (List ℕ × List ℕ)) → Names m earlier naming.old → Names m (earlier ++ named_by (line_of line.now)) naming.new) }
    ensures fits { OnOk result ((m : Parts) (earlier : List (List ℕ × List ℕ)) → Names m earlier naming.old → cause_of m earlier (line_of line.now) ≡ None) }
    ensures refused { IfErr result (λ fault. (m : Parts) (earlier : List (List ℕ × List ℕ)) → Names m earlier naming.old → Tells (fault_with number (cause_of m earlier (line_of line.now))) fault) }
{
    match line_kind(line) {
        LineKind::Passed => Ok(()),
        LineKind::Unknown => Err(WireNamesFault::At {
            line: number,
            cause: WireNamesCause::Form,
        }),
        LineKind::Named { wire, name } => take_name(naming, number, wire, name),
    }
}

/// Gives a wire the name that line `number` of the list has for it.
fn take_name<'a>(
    naming: &mut Naming<'a>,
    number: u64,
    wire: &[u8],
    name: &'a [u8],
) -> Result<(), WireNamesFault>
    ensures taken { OnOk result ((m : Parts) (earlier : List (List ℕ × List ℕ)) → Names m earlier naming.old → Names m (earlier ++ (wire.now, name.now) ∷ []) naming.new) }
    ensures fits { OnOk result ((m : Parts) (earlier : List (List ℕ × List ℕ)) → Names m earlier naming.old → cause_for m earlier wire.now name.now ≡ None) }
    ensures refused { IfErr result (λ fault. (m : Parts) (earlier : List (List ℕ × List ℕ)) → Names m earlier naming.old → Tells (fault_with number (cause_for m earlier wire.now name.now)) fault) }
{
    match naming.cause_for(wire, name) {
        Some(cause) => Err(WireNamesFault::At {
            line: number,
            cause,
        }),
        None => {
            naming.give(wire, name)?;
            Ok(())
        }
    }
}
