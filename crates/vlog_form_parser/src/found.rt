// Values with their offsets in the text.
ghost use Rattle.std.specs.Prelude.{◌≡◌, ◌++◌, [], ◌∷◌, OnOk};
ghost use Rattle.vlog_forms.specs.Values.{seen};
ghost use Rattle.vlog_forms.specs.Reading.{found_at};
ghost use Rattle.vlog_form_parser.specs.Found.{all_found};

use std::alloc::AllocError;
use vlog_forms::Value;

/// A value, and the offset of its first token.
#[derive(Clone, Copy, Debug)]
pub struct Found<'a> {
    pub at: usize,
    pub value: Value<'a>,
}

/// Adds a value.
///
/// # Errors
/// `AllocError` if memory is out, and for no other cause.
pub fn push_found<'a>(
    values: &mut Vec<Found<'a>>,
    at: usize,
    value: Value<'a>,
) -> Result<(), AllocError>
    ensures { OnOk result (all_found values.new.items ≡ all_found values.old.items ++ found_at at (seen value.entry) ∷ []) }
{
    values.push(Found { at, value })?;
    Ok(())
}
