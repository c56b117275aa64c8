// The variables that items declare.
ghost use Rattle.std.specs.Prelude.{◌≡◌, ◌≤◌, ◌∷◌, [], IfNone, IfSome, length};
ghost use Rattle.vlog_semantics.specs.ModuleSlots.{wire_names};
ghost use Rattle.vlog_waves.specs.inside.Declared.{declared_by};

use vlog_module::{Item, Name};

/// The kind of variable that an item declares.
#[derive(Clone, Copy, Debug, PartialEq, Eq)]
pub(crate) enum Kind {
    Wire,
    /// A register of one bit.
    Register,
    /// A register of 16 bits.
    Word,
}

/// The name that an item declares, if it is of this kind.
pub(crate) fn declared_name(item: &Item, kind: Kind) -> Option<&Name>
    ensures some { IfSome result (λ name. declared_by kind item.now ≡ name.now ∷ []) }
    ensures none { IfNone result (declared_by kind item.now ≡ []) }
{
    match (kind, item) {
        (Kind::Wire, Item::Wire { name, right: _ }) => Some(name),
        (Kind::Register, Item::Register { name, start: _ }) => Some(name),
        (Kind::Word, Item::Word { name, start: _ }) => Some(name),
        _ => None,
    }
}

/// How many wires an item declares: one or none.
fn count_wire(item: &Item) -> usize
    ensures is { result ≡ length (declared_by Kind.Wire item.now) }
    ensures few { result ≤ 1 }
{
    match declared_name(item, Kind::Wire) {
        Some(_) => 1,
        None => 0,
    }
}

/// How many wires items declare.
pub(crate) fn count_wires(items: &[Item]) -> usize
    ensures { result ≡ length (wire_names items.now) }
{
    let mut count = 0;
    for item in items {
        count += count_wire(item);
    }
    count
}
