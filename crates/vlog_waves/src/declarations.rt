// The lines before the first event: the declarations of the variables, and the values at the start.
ghost use Rattle.std.specs.Prelude.{◌≡◌, ◌+◌, ◌<◌, ◌^◌, ◌∷◌, ◌++◌, [], IfOk, OnOk, codes, length, map};
ghost use Rattle.text_lines.specs.Written.{text_of};
ghost use Rattle.vlog_waves.specs.Variables.{of_kind, variables_of};
ghost use Rattle.vlog_waves.specs.Variables.Kind.{wire_kind};
ghost use Rattle.vlog_waves.specs.Waves.{head_lines, kind_text, range_text, start_lines, variable_line, variable_lines};
ghost use Rattle.vlog_waves.specs.inside.Declared.{declared_by, kind_of, label_text, names_of_kind, shown_by, shown_of_kind};
ghost use Rattle.vlog_waves.specs.inside.Values.{Fits, values_held};

use crate::items::{Kind, declared_name};
use crate::labels::{Label, label_of, own_label};
use crate::lines::{push_byte, push_identifier};
use crate::starting::push_values;
use crate::values::Values;
use std::alloc::{AllocError, Global};
use vlog_module::{Item, Module, Port};
use wire_names::WireNames;

/// How the declaration of a variable begins.
fn front(kind: Kind) -> &'static [u8]
    ensures { result.now ≡ codes "$var " ++ kind_text (kind_of kind) }
{
    match kind {
        Kind::Wire => b"$var wire 1 ",
        Kind::Register => b"$var reg 1 ",
        Kind::Word => b"$var reg 16 ",
    }
}

/// How the declaration of a variable ends.
fn end(kind: Kind) -> &'static [u8]
    ensures { result.now ≡ range_text (kind_of kind) ++ codes " $end\n" }
{
    match kind {
        Kind::Wire | Kind::Register => b" $end\n",
        Kind::Word => b" [15:0] $end\n",
    }
}

/// Adds the declaration of a variable.
fn push_variable(
    text: &mut Vec<u8>,
    kind: Kind,
    number: usize,
    label: Label<'_>,
) -> Result<(), AllocError>
    ensures { OnOk result (text.new.items ≡ text.old.items ++ text_of (variable_line number (record { kind = kind_of kind; name = label_text label.entry }) ∷ [])) }
{
    text.extend_from_slice(front(kind))?;
    push_identifier(text, number)?;
    push_byte(text, b' ')?;
    push_label(text, label)?;
    text.extend_from_slice(end(kind))?;
    Ok(())
}

/// Adds the name of a variable.
fn push_label(text: &mut Vec<u8>, label: Label<'_>) -> Result<(), AllocError>
    ensures { OnOk result (text.new.items ≡ text.old.items ++ label_text label.entry) }
{
    if label.is_escaped {
        push_byte(text, b'\\')?;
    }
    text.extend_from_slice(label.name)
}

/// Adds the declarations of the ports, which are the first variables.
fn push_ports(text: &mut Vec<u8>, ports: &[Port]) -> Result<(), AllocError>
    ensures { OnOk result (text.new.items ≡ text.old.items ++ text_of (variable_lines 0 (of_kind wire_kind (map (λ port. port.name) ports.now)))) }
{
    for number in 0..ports.len() {
        let label = own_label(ports[number].name.bytes());
        push_variable(text, Kind::Wire, number, label)?;
    }
    Ok(())
}

/// Adds the declaration of an item's variable, if it is of this kind, and returns the number of the next variable.
fn push_item(
    text: &mut Vec<u8>,
    item: &Item,
    kind: Kind,
    names: &WireNames,
    number: usize,
) -> Result<usize, AllocError>
    requires { number + length (declared_by kind item.now) < 2 ^ 64 }
    ensures text { OnOk result (text.new.items ≡ text.old.items ++ text_of (variable_lines number (of_kind (kind_of kind) (shown_by names.now kind item.now)))) }
    ensures next { IfOk result (λ next. next ≡ number + length (declared_by kind item.now)) }
{
    match declared_name(item, kind) {
        Some(name) => {
            push_variable(text, kind, number, label_of(names, kind, name.bytes()))?;
            Ok(number + 1)
        }
        None => Ok(number),
    }
}

/// Adds the declarations of the items' variables of this kind. Their numbers begin with this one.
fn push_items(
    text: &mut Vec<u8>,
    items: &[Item],
    kind: Kind,
    names: &WireNames,
    number: usize,
) -> Result<(), AllocError>
    requires { number + length (names_of_kind kind items.now) < 2 ^ 64 }
    ensures { OnOk result (text.new.items ≡ text.old.items ++ text_of (variable_lines number (of_kind (kind_of kind) (shown_of_kind names.now kind items.now)))) }
{
    let mut next = number;
    for item in items {
        next = push_item(text, item, kind, names, next)?;
    }
    Ok(())
}

/// Adds the declarations of all variables.
fn push_variables(
    text: &mut Vec<u8>,
    module: &Module,
    names: &WireNames,
    values: &Values,
) -> Result<(), AllocError>
    requires { Fits «module».now values.now }
    ensures { OnOk result (text.new.items ≡ text.old.items ++ text_of (variable_lines 0 (variables_of names.now «module».now))) }
{
    let items = module.items();
    push_ports(text, module.ports())?;
    push_items(text, items, Kind::Register, names, values.first_register())?;
    push_items(text, items, Kind::Word, names, values.first_word())?;
    push_items(text, items, Kind::Wire, names, values.first_wire())
}

/// The lines before the first event of a module that has these values at the start, and whose wires have these names.
pub(crate) fn beginning(
    alloc: Global,
    module: &Module,
    names: &WireNames,
    values: &Values,
) -> Result<Vec<u8>, AllocError>
    requires { Fits «module».now values.now }
    ensures { IfOk result (λ text. text.items ≡ text_of (head_lines names.now «module».now ++ start_lines (values_held values.now))) }
{
    let mut text = Vec::from_slice(alloc, b"$timescale 1 ns $end\n$scope module ")?;
    text.extend_from_slice(module.name().bytes())?;
    text.extend_from_slice(b" $end\n")?;
    push_variables(&mut text, module, names, values)?;
    text.extend_from_slice(b"$upscope $end\n$enddefinitions $end\n#0\n$dumpvars\n")?;
    push_values(&mut text, values)?;
    text.extend_from_slice(b"$end\n")?;
    Ok(text)
}
