// Modules that are printed and parsed again.
ghost use Rattle.std.specs.Prelude.{◌≡◌, IfOk};

use crate::fault::VlogFault;
use crate::modules::parse;
use std::alloc::{AllocError, Global};
use vlog_module::Module;
use vlog_print::print;

/// Prints a module and parses the text: the result is the same module, a copy.
///
/// # Errors
/// `AllocError` if memory is out, and for no other cause.
pub fn from_own_text(alloc: Global, module: &Module) -> Result<Module, AllocError>
    ensures { IfOk result (λ again. again ≡ «module».now) }
{
    let text = print(alloc, module)?;
    match parse(alloc, &text) {
        Ok(parsed) => Ok(parsed),
        Err(VlogFault::Memory(error)) => Err(error),
        Err(VlogFault::At { .. }) => unreachable!(),
    }
}
