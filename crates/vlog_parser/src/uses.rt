// How values use names.
ghost use Rattle.std.specs.Prelude.{◌≡◌, ◌<◌, length};
ghost use Rattle.vlog_forms.specs.Outcome.{role_use, value_uses};
ghost use Rattle.vlog_forms.specs.Reading.{values_of};
ghost use Rattle.vlog_forms.specs.Values.{seen};
ghost use Rattle.vlog_form_parser.specs.Found.{all_found};
ghost use Rattle.vlog_parser.specs.Seen.{seen_use, seen_uses};

use vlog_form_parser::{Found, bit_at, index_at, text_at};
use vlog_forms::{Role, Value};
use vlog_module::Sort;

/// An asynchronous set or reset: a wire, and the bit that the register has while the wire is 1.
#[derive(Clone, Copy, Debug)]
pub struct Reset<'a> {
    pub wire: &'a [u8],
    pub set: bool,
}

/// How an item uses a name.
#[derive(Clone, Copy, Debug)]
pub enum Use<'a> {
    /// It declares the name.
    Declares(Sort, &'a [u8]),
    /// It reads the name, which has a value of one bit.
    Reads(&'a [u8]),
    /// It reads a bit of the name, a register of 16 bits.
    ReadsBit(&'a [u8], u8),
    /// It uses the name as a clock: an input, or a register of one bit.
    Clocks(&'a [u8]),
    /// It uses the name as an asynchronous set or reset, or as a memory.
    Takes(Sort, &'a [u8]),
    /// It assigns the name.
    Assigns(Sort, &'a [u8]),
    /// It reads the name, a register, by way of its asynchronous set or reset.
    Chooses(Reset<'a>, &'a [u8]),
    /// It assigns the name, a register with an asynchronous set or reset.
    AssignsAsync(Reset<'a>, &'a [u8]),
    /// It gives a word of the name, a memory, a start value.
    Starts(&'a [u8], u8),
}

/// How a value uses a name, if it does; `place` is the value's index among the values of the item.
pub(crate) fn use_of<'a>(value: Value<'a>, values: &[Found<'a>], place: usize) -> Option<Use<'a>>
    requires { place < length values.now }
    ensures { seen_uses result ≡ value_uses (seen value.entry) (values_of (all_found values.now)) place }
{
    match value {
        Value::Name(role, name) => Some(role_use(role, values, place, name)),
        Value::AtomName(name) => Some(Use::Reads(name)),
        Value::AtomPart(name, k) => Some(Use::ReadsBit(name, k)),
        Value::Edge(_) => None,
        Value::Bit(_) => None,
        Value::Word(_) => None,
        Value::Index(_) => None,
        Value::AtomBit(_) => None,
    }
}

/// How an item uses a name; `place` is the name's index among the values of the item.
fn role_use<'a>(role: Role, values: &[Found<'a>], place: usize, name: &'a [u8]) -> Use<'a>
    requires { place < length values.now }
    ensures { seen_use result ≡ role_use role (values_of (all_found values.now)) place name.now }
{
    match role {
        Role::Declares(sort) => Use::Declares(sort, name),
        Role::Reads => Use::Reads(name),
        Role::ReadsBit => Use::ReadsBit(name, index_at(values, place + 1)),
        Role::Clocks => Use::Clocks(name),
        Role::Takes(sort) => Use::Takes(sort, name),
        Role::Assigns(sort) => Use::Assigns(sort, name),
        Role::Chooses => {
            let wire = text_at(values, place.saturating_sub(2));
            let set = bit_at(values, place.saturating_sub(1));
            Use::Chooses(Reset { wire, set }, name)
        }
        Role::AssignsAsync => {
            let wire = text_at(values, place.saturating_sub(1));
            let set = bit_at(values, place + 1);
            Use::AssignsAsync(Reset { wire, set }, name)
        }
        Role::Starts => Use::Starts(name, index_at(values, place + 1)),
    }
}
