// The line with the names.
ghost use Rattle.std.specs.Prelude.{◌≡◌, ◌∷◌, ◌++◌, [], IfNone, IfOk, IfSome, OnOk, flat_map, if◌then◌else◌};
ghost use Rattle.vlog_semantics.specs.ModuleSlots.{register_names, word_names};
ghost use Rattle.long_runs.specs.Shown.{head_line, head_text, shown_names};
ghost use Rattle.long_runs.specs.inside.Names.{output_name, register_name, spaced};

use crate::form::LineForm;
use std::alloc::{AllocError, Global};
use vlog_module::{Item, Module, Name, Port};
use vlog_run::push_byte;

/// Adds a name and a space.
fn push_name(text: &mut Vec<u8>, name: &Name) -> Result<(), AllocError>
    ensures { OnOk result (text.new.items ≡ text.old.items ++ (name.now ++ 32 ∷ [])) }
{
    text.extend_from_slice(name.bytes())?;
    push_byte(text, b' ')
}

/// Adds the name of a port, if it is an output.
fn push_output(text: &mut Vec<u8>, port: &Port) -> Result<(), AllocError>
    ensures { OnOk result (text.new.items ≡ text.old.items ++ spaced (output_name port.now)) }
{
    if port.output {
        push_name(text, &port.name)
    } else {
        Ok(())
    }
}

/// Adds the names of the outputs.
fn push_outputs(text: &mut Vec<u8>, ports: &[Port]) -> Result<(), AllocError>
    ensures { OnOk result (text.new.items ≡ text.old.items ++ spaced (flat_map output_name ports.now)) }
{
    for port in ports {
        push_output(text, port)?;
    }
    Ok(())
}

/// The name of the register that an item declares: one of 16 bits, or one of one bit.
fn register_name(item: &Item, words: bool) -> Option<&Name>
    ensures some { IfSome result (λ name. register_name words item.now ≡ name.now ∷ []) }
    ensures none { IfNone result (register_name words item.now ≡ []) }
{
    match (words, item) {
        (false, Item::Register { name, start: _ }) => Some(name),
        (true, Item::Word { name, start: _ }) => Some(name),
        _ => None,
    }
}

/// Adds the name of the register that an item declares, if it declares one.
fn push_register(text: &mut Vec<u8>, item: &Item, words: bool) -> Result<(), AllocError>
    ensures { OnOk result (text.new.items ≡ text.old.items ++ spaced (register_name words item.now)) }
{
    match register_name(item, words) {
        Some(name) => push_name(text, name),
        None => Ok(()),
    }
}

/// Adds the names of the registers: those of 16 bits, or those of one bit.
fn push_registers(text: &mut Vec<u8>, items: &[Item], words: bool) -> Result<(), AllocError>
    ensures { OnOk result (text.new.items ≡ text.old.items ++ spaced (flat_map (register_name words) items.now)) }
{
    for item in items {
        push_register(text, item, words)?;
    }
    Ok(())
}

/// Adds the names of all registers if they are asked for: those of one bit, and then those of 16 bits.
fn push_asked(text: &mut Vec<u8>, items: &[Item], registers: bool) -> Result<(), AllocError>
    ensures { OnOk result (text.new.items ≡ text.old.items ++ spaced (if registers then register_names items.now ++ word_names items.now else [])) }
{
    if registers {
        push_registers(text, items, false)?;
        push_registers(text, items, true)
    } else {
        Ok(())
    }
}

/// The names of the outputs, and of the registers if they are asked for, each with a space behind it.
fn spaced_names(alloc: Global, module: &Module, registers: bool) -> Result<Vec<u8>, AllocError>
    ensures { IfOk result (λ text. text.items ≡ spaced (shown_names «module».now registers)) }
{
    let mut text = Vec::new(alloc);
    push_outputs(&mut text, module.ports())?;
    push_asked(&mut text, module.items(), registers)?;
    Ok(text)
}

/// The line with the names of the outputs, and of the registers if they are asked for.
pub(crate) fn head_line(
    alloc: Global,
    module: &Module,
    registers: bool,
) -> Result<Vec<u8>, AllocError>
    ensures { IfOk result (λ line. line.items ≡ head_line «module».now registers) }
{
    let mut line = spaced_names(alloc, module, registers)?;
    let _ = line.pop();
    push_byte(&mut line, b'\n')?;
    Ok(line)
}

/// The line with the names if it is asked for, or else nothing.
pub(crate) fn head_of(alloc: Global, module: &Module, form: LineForm) -> Result<Vec<u8>, AllocError>
    ensures { IfOk result (λ line. line.items ≡ head_text «module».now form) }
{
    if form.head {
        head_line(alloc, module, form.registers)
    } else {
        Ok(Vec::new(alloc))
    }
}
