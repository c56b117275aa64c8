// A database and an image, and what is written for them.
ghost use Rattle.std.specs.Prelude.{◌≡◌, [], ℕ, List, Option, get_or, option_map, IfOk, IfErr};
ghost use Rattle.ice_image.specs.Configuration.{Configuration};
ghost use Rattle.ice_image.specs.Either.{configuration_of};
ghost use Rattle.chipdb_reader.specs.Database.{Database};
ghost use Rattle.chipdb_reader.specs.Kept.{database_in};
ghost use Rattle.fabric_model.specs.Fabric.{fabric_with};
ghost use Rattle.fabric.specs.Design.{IsDesignOf};
ghost use Rattle.tool_run.specs.Stops.{StopsWith};
ghost use Rattle.tool_run.specs.Tasks.{Answer, Both};
ghost use Rattle.tool_inputs.specs.DesignInput.{TakesInput, input_answer};
ghost use Rattle.design_tools.specs.Sources.{symbols_in};
ghost use Rattle.design_tools.specs.Vlog.{both_texts, list_text, listed};

use asc_text::Symbol;
use chipdb_reader::ChipDb;
use fabric::Design;
use ice_image::AnyImage;
use std::alloc::{AllocError, Global};
use symbol_names::symbol_names;
use tool_inputs::DesignInput;
use tool_run::{Stop, WithFile};
use vlog_parser::{Module, print};

/// A database and an image.
#[derive(Drop)]
pub(crate) struct DesignSource {
    pub(crate) db: ChipDb,
    pub(crate) image: AnyImage,
    /// The names of nets that the image gives, if a list of names is asked for.
    pub(crate) symbols: Option<Vec<Symbol>>,
}

/// The database and the image that an input has taken. The flag says whether a list of names is asked for.
///
/// # Errors
/// As [`DesignInput::read`].
pub(crate) fn read_source(
    alloc: Global,
    input: DesignInput,
    has_list: bool,
) -> Result<DesignSource, Stop<'static>>
    ensures read { IfOk result (λ source. (layout : Option (List ℕ)) (texts : List (List ℕ)) (answer : Database → Configuration → Answer)
        → TakesInput layout texts input [] → input_answer layout answer texts ≡ answer (database_in source.db) (configuration_of source.image)) }
    ensures symbols { IfOk result (λ source. (layout : Option (List ℕ)) (texts : List (List ℕ))
        → TakesInput layout texts input [] → symbols_in source.symbols ≡ listed has_list (get_or texts 1 [])) }
    ensures stops { IfErr result (λ stop. (layout : Option (List ℕ)) (texts : List (List ℕ)) (answer : Database → Configuration → Answer)
        → TakesInput layout texts input [] → StopsWith (input_answer layout answer texts) stop) }
{
    if has_list {
        match input.read_with_symbols(alloc) {
            Ok((db, file)) => Ok(DesignSource {
                db,
                image: file.image,
                symbols: Some(file.symbols),
            }),
            Err(stop) => Err(stop),
        }
    } else {
        match input.read(alloc) {
            Ok((db, image)) => Ok(DesignSource {
                db,
                image,
                symbols: None,
            }),
            Err(stop) => Err(stop),
        }
    }
}

/// The text of a module that is written for a design, and the list of names for its wires, if it is asked for.
///
/// # Errors
/// `AllocError` if memory is out, and for no other cause.
pub(crate) fn both_texts(
    alloc: Global,
    design: &Design,
    module: &Module,
    symbols: &Option<Vec<Symbol>>,
) -> Result<WithFile<Vec<u8>>, AllocError>
    ensures { IfOk result (λ made. (db : Database) (image : Configuration) → IsDesignOf db image design.now
        → both_texts (symbols_in symbols.now) (fabric_with design.now.parts.options db image) «module».now ≡ Both made.target.items made.beside.items) }
{
    let beside = list_text(alloc, design, module, symbols)?;
    let target = print(alloc, module)?;
    Ok(WithFile { target, beside })
}

// The list of names for the wires of the module, if it is asked for.
fn list_text(
    alloc: Global,
    design: &Design,
    module: &Module,
    symbols: &Option<Vec<Symbol>>,
) -> Result<Vec<u8>, AllocError>
    ensures { IfOk result (λ list. (db : Database) (image : Configuration) → IsDesignOf db image design.now
        → list.items ≡ list_text (symbols_in symbols.now) (fabric_with design.now.parts.options db image).joins «module».now) }
{
    match symbols {
        None => Ok(Vec::new(alloc)),
        Some(symbols) => symbol_names(alloc, design, module, symbols)?.text(),
    }
}
