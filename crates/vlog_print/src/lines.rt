// Prints a module line by line.
ghost use Rattle.std.specs.Prelude.{◌≡◌, ◌≤◌, ◌++◌, flat_map, length, take, drop, IfOk, OnOk};
ghost use Rattle.vlog_module.specs.WellFormed.{IsModule};
ghost use Rattle.vlog_forms.specs.Items.{IsSpelling, port_form};
ghost use Rattle.vlog_forms.specs.Layout.{parts_of};
ghost use Rattle.vlog_forms.specs.Printed.{item_line, line_of, more_names_text, names_text, next_name, port_line, printed, written};
ghost use Rattle.vlog_print.specs.Rest.{all_seen};

use crate::bytes::push_text;
use crate::slots::write_slots;
use crate::values::{item_form, item_values};
use std::alloc::{AllocError, Global};
use vlog_forms::{Form, Role, Slot, Value, slots};
use vlog_module::{Item, Module, Port, Sort};

/// The text of a module: the header, then each declaration of a port and each item on a line of its own, indented by two spaces, then
/// `endmodule`. Every line ends with LF.
///
/// # Errors
/// `AllocError` if memory is out, and for no other cause.
///
/// # Example
/// ```ignore
/// /// The text of a module in its printed form.
/// fn tidied(alloc: Global, text: &[u8]) -> Option<Vec<u8>> {
///     let module = parse(alloc, text).ok()?;
///     print(alloc, &module).ok()
/// }
/// ```
pub fn print(alloc: Global, module: &Module) -> Result<Vec<u8>, AllocError>
    ensures text { IfOk result (λ text. text.items ≡ printed «module».now) }
    ensures spelling { IfOk result (λ text. IsSpelling text.items «module».now) }
{
    print_module(alloc, module)
}

/// The text of a module.
#[tactic(auto, unfolding(vlog_forms::specs::Printed::printed))]
fn print_module(alloc: Global, module: &Module) -> Result<Vec<u8>, AllocError>
    ensures { IfOk result (λ text. (text.items ≡ printed «module».now) × IsModule «module».now) }
{
    let mut out = Vec::new(alloc);
    push_text(&mut out, b"module ")?;
    push_text(&mut out, module.name().bytes())?;
    push_text(&mut out, b" (")?;
    push_names(&mut out, module.ports())?;
    push_text(&mut out, b");\n")?;
    push_ports(&mut out, module.ports())?;
    push_items(alloc, &mut out, module.items())?;
    push_text(&mut out, b"endmodule\n")?;
    Ok(out)
}

/// Adds the names of ports, with a comma and a space between them.
fn push_names(out: &mut Vec<u8>, ports: &[Port]) -> Result<(), AllocError>
    ensures { OnOk result (out.new.items ≡ out.old.items ++ names_text ports.now) }
{
    match ports {
        [] => Ok(()),
        [first, more @ ..] => {
            push_text(out, first.name.bytes())?;
            push_more_names(out, more)
        }
    }
}

/// Adds the names of further ports, each after a comma and a space.
fn push_more_names(out: &mut Vec<u8>, ports: &[Port]) -> Result<(), AllocError>
    ensures { OnOk result (out.new.items ≡ out.old.items ++ more_names_text ports.now) }
{
    for port in ports {
        push_next_name(out, port)?;
    }
    Ok(())
}

/// Adds the name of a port after a comma and a space.
fn push_next_name(out: &mut Vec<u8>, port: &Port) -> Result<(), AllocError>
    ensures { OnOk result (out.new.items ≡ out.old.items ++ next_name port.now) }
{
    push_text(out, b", ")?;
    push_text(out, port.name.bytes())
}

/// Adds the declarations of ports.
fn push_ports(out: &mut Vec<u8>, ports: &[Port]) -> Result<(), AllocError>
    ensures { OnOk result (out.new.items ≡ out.old.items ++ flat_map port_line ports.now) }
{
    for port in ports {
        push_port(out, port)?;
    }
    Ok(())
}

/// Adds the declaration of a port.
fn push_port(out: &mut Vec<u8>, port: &Port) -> Result<(), AllocError>
    ensures { OnOk result (out.new.items ≡ out.old.items ++ port_line port.now) }
{
    let name = Value::Name(Role::Declares(Sort::Input), port.name.bytes());
    push_line(out, slots(port_form(port.output)), &[name], 1)
}

/// The form of a port's declaration.
fn port_form(output: bool) -> Form
    ensures { result ≡ port_form output }
{
    if output { Form::Output } else { Form::Input }
}

/// Adds items.
fn push_items(alloc: Global, out: &mut Vec<u8>, items: &[Item]) -> Result<(), AllocError>
    ensures { OnOk result (out.new.items ≡ out.old.items ++ flat_map item_line items.now) }
{
    for item in items {
        push_item(alloc, out, item)?;
    }
    Ok(())
}

/// Adds an item.
fn push_item(alloc: Global, out: &mut Vec<u8>, item: &Item) -> Result<(), AllocError>
    ensures { OnOk result (out.new.items ≡ out.old.items ++ item_line item.now) }
{
    let values = item_values(alloc, item)?;
    push_line(out, slots(item_form(item)), &values, 0)
}

/// Adds a line of slots that are filled with values. The first `next` values filled earlier slots.
fn push_line(
    out: &mut Vec<u8>,
    slots: &[Slot],
    values: &[Value<'_>],
    next: usize,
) -> Result<(), AllocError>
    requires { next ≤ length values.now }
    ensures { OnOk result (out.new.items ≡ out.old.items
        ++ line_of (written (flat_map parts_of slots.now) (take next (all_seen values.now)) (drop next (all_seen values.now)))) }
{
    push_text(out, b"  ")?;
    write_slots(out, slots, values, next)?;
    push_text(out, b"\n")
}
