// A module that is being read.
ghost use Rattle.std.specs.Prelude.{◌≡◌, ◌++◌, [], ◌∷◌, OnOk, if◌then◌else◌};
ghost use Rattle.vlog_module.specs.Names.{IsName};
ghost use Rattle.vlog_module.specs.Uses.{uses_of};
ghost use Rattle.vlog_module.specs.WellFormed.{section_of};
ghost use Rattle.vlog_forms.specs.Outcome.{module_of, port_of, uses_in, with_item};
ghost use Rattle.vlog_forms.specs.Reading.{values_of};
ghost use Rattle.vlog_form_parser.specs.Found.{all_found};
ghost use Rattle.vlog_parser.specs.Scopes.{is_wire};
ghost use Rattle.vlog_parser.specs.Drafts.{IsKept, so_far};

use crate::names::Names;
use crate::uses::Use;
use std::alloc::{AllocError, Global};
use vlog_form_parser::Found;
use vlog_module::{Item, Name, Port, Sort};

/// The parts of a module that were read, and what is kept of their names.
#[derive(Drop)]
pub(crate) struct Draft<'a> {
    pub name: Name,
    pub ports: Vec<Port>,
    pub items: Vec<Item>,
    /// The section of the last item; 1 if there is none.
    pub section: u8,
    pub names: Names<'a>,
}

/// A module without ports and items.
pub(crate) fn new_draft<'a>(alloc: Global, name: Name) -> Draft<'a>
    ensures parts { so_far result ≡ module_of name [] [] }
    ensures kept { IsKept result }
{
    Draft {
        name,
        ports: Vec::new(alloc),
        items: Vec::new(alloc),
        section: 1,
        names: Names::new(alloc),
    }
}

/// Adds a port. There are no items yet.
pub(crate) fn push_port<'a>(
    alloc: Global,
    draft: &mut Draft<'a>,
    name: &'a [u8],
    output: bool,
) -> Result<(), AllocError>
    requires named { IsName name.now }
    requires empty { draft.old.items.items ≡ [] }
    requires kept { IsKept draft.old }
    ensures parts { OnOk result (so_far draft.new ≡ module_of draft.old.name (draft.old.ports.items ++ port_of name.now output ∷ []) []) }
    ensures kept { OnOk result (IsKept draft.new) }
{
    let sort = port_sort(output);
    draft.names.enter_use(Use::Declares(sort, name), false)?;
    let name = Name::new(alloc, name)?;
    draft.ports.push(Port { name, output })?;
    Ok(())
}

/// What a port is declared as.
fn port_sort(output: bool) -> Sort
    ensures { result ≡ (if output then Sort.Output else Sort.Input) }
{
    if output { Sort::Output } else { Sort::Input }
}

/// Adds an item that was made of these values.
pub(crate) fn push_item<'a>(
    draft: &mut Draft<'a>,
    item: Item,
    values: &[Found<'a>],
) -> Result<(), AllocError>
    requires uses { uses_of item ≡ uses_in (values_of (all_found values.now)) }
    requires kept { IsKept draft.old }
    ensures parts { OnOk result (so_far draft.new ≡ with_item (so_far draft.old) item) }
    ensures kept { OnOk result (IsKept draft.new) }
{
    draft.names.enter(values, is_wire(&item))?;
    draft.section = section_of(&item);
    draft.items.push(item)?;
    Ok(())
}

/// Whether an item is a wire.
fn is_wire(item: &Item) -> bool
    ensures { result ≡ is_wire item.now }
{
    matches!(item, Item::Wire { .. })
}

/// The section of an item.
pub(crate) fn section_of(item: &Item) -> u8
    ensures { result ≡ section_of item.now }
{
    match item {
        Item::Register { .. } => 2,
        Item::Word { .. } => 3,
        Item::Memory { .. } => 4,
        Item::Wire { .. } => 5,
        Item::Assign { .. } => 6,
        Item::FlipFlop { .. } => 7,
        Item::AsyncFlipFlop { .. } => 7,
        Item::AsyncReset { .. } => 7,
        Item::Read { .. } => 8,
        Item::ReadNarrow { .. } => 8,
        Item::Write { .. } => 9,
        Item::WriteNarrow { .. } => 9,
        Item::Start { .. } => 10,
    }
}
