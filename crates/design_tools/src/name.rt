// The name of the module, from the command line.
ghost use Rattle.std.specs.Prelude.{◌≡◌};
ghost use Rattle.std.specs.Option.{option_map};
ghost use Rattle.tool_run.specs.Needs.{text_of};
ghost use Rattle.vlog_module.specs.Names.{IsName};
ghost use Rattle.design_tools.specs.Names.{module_name, name_given};

use vlog_parser::is_name;

/// The most bytes that a name on the command line may have.
const NAME_LIMIT: usize = 64;

/// A name that a module can have.
#[derive(Clone, Copy, Debug, PartialEq, Eq)]
pub(crate) struct ModuleName<'a> {
    pub(crate) text: &'a str,
    ghost named: { IsName text.now },
}

// The name that a text is, if it is one and has at most 64 bytes.
fn module_name(text: &str) -> Option<ModuleName<'_>>
    ensures { option_map (λ name. name.text.now) result ≡ module_name text.entry.now }
{
    if text.len() <= NAME_LIMIT {
        if is_name(text.as_bytes()) {
            return Some(ModuleName { text });
        }
    }
    None
}

/// The name of the module: `chip` if none is given. `None` if the given text isn't a name, or has more than 64 bytes.
#[tactic(auto, unfolding(vlog_module::specs::Names::is_name, vlog_module::specs::Names::reserved_words))]
pub(crate) fn name_given(text: Option<&str>) -> Option<ModuleName<'_>>
    ensures { option_map (λ name. name.text.now) result ≡ name_given (text_of text.entry) }
{
    match text {
        None => Some(ModuleName { text: "chip" }),
        Some(text) => module_name(text),
    }
}
