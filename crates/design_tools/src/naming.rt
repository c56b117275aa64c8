// `icebox_vlog` with a pin file: writes the module of an image, whose ports have the names of the file.
ghost use Rattle.std.specs.Prelude.{◌≡◌, [], ℕ, List, Option, IfOk, IfErr};
ghost use Rattle.ice_image.specs.Configuration.{Configuration};
ghost use Rattle.ice_image.specs.Either.{configuration_of};
ghost use Rattle.chipdb_reader.specs.Database.{Database};
ghost use Rattle.chipdb_reader.specs.Kept.{database_in};
ghost use Rattle.vlog_module.specs.Names.{IsName};
ghost use Rattle.fabric.specs.Design.{IsDesignOf};
ghost use Rattle.pin_file.specs.Feeding.{kept_in};
ghost use Rattle.pin_file.specs.Packages.{package_of};
ghost use Rattle.port_names.specs.Named.{AreAccepted, port_pins};
ghost use Rattle.tool_run.specs.Collected.{Collects};
ghost use Rattle.tool_run.specs.Needs.{text_of};
ghost use Rattle.tool_run.specs.Runs.{Does};
ghost use Rattle.tool_run.specs.Stops.{StopsWith};
ghost use Rattle.tool_run.specs.Tasks.{Both};
ghost use Rattle.fabric_model.specs.Fabric.{fabric_with};
ghost use Rattle.design_answers.specs.PinRequests.{pins_named};
ghost use Rattle.design_answers.specs.Pins.{HasPins};
ghost use Rattle.design_answers.specs.Taken.{TakesNamed};
ghost use Rattle.design_tools.specs.Sources.{symbols_in};
ghost use Rattle.design_tools.specs.Vlog.{both_texts, module_with_names, named_answer, named_task, written_named};

use crate::name::ModuleName;
use crate::request::Request;
use crate::source::{DesignSource, both_texts, read_source};
use asc_text::Symbol;
use design_answers::{NamedIntake, PINS_LIMIT, PinRequest, design_stop, package_pins, pin_stop};
use fabric::{Design, design_with};
use fabric_model::FabricOptions;
use pin_file::{PackagePins, PinName, PinReader, PortPin, pin_names};
use port_names::{name_ports, port_pins};
use std::alloc::{AllocError, Global};
use tool_inputs::{DB_LIMIT, IMAGE_LIMIT};
use tool_run::{Collected, Host, Job, Load, PieceTool, Stop, WithFile};
use vlog_emit::emit;

/// Writes the module of a database and an image under a name, with the names of a pin file for its ports, and a list of names for its wires.
/// The options are those of the design. The pin file comes first. The image is read under the layouts of the layout file, if one is named.
#[derive(Clone, Copy, Debug, PartialEq, Eq)]
struct Naming<'a> {
    options: FabricOptions,
    name: ModuleName<'a>,
    /// The package whose pins the pin file names.
    package_name: &'a str,
    /// Whether a list of names for the wires is asked for.
    has_list: bool,
}

impl<'a> PieceTool for Naming<'a> {
    ghost use Rattle.design_answers.specs.Taken.{TakesNamed, fed_named};
    ghost use Rattle.design_tools.specs.Vlog.{named_answer};

    type Intake = NamedIntake;

    type Made = WithFile<Vec<u8>>;

    ghost answer_of = { λ tool layout texts. named_answer tool.options layout tool.name.text.now tool.package_name.now tool.has_list texts };

    ghost takes = { λ tool layout texts intake bytes. TakesNamed tool.package_name.now layout texts intake bytes };

    ghost fed = { fed_named };

    fn begin(&self, alloc: Global, layout: Option<&[u8]>) -> Result<NamedIntake, Stop<'static>> {
        NamedIntake::begin(alloc, layout, self.package_name)
    }

    fn feed(&self, intake: &mut NamedIntake, piece: &[u8]) {
        intake.feed(piece);
    }

    fn close(&self, intake: &mut NamedIntake) {
        intake.close();
    }

    fn finish(&self, alloc: Global, intake: NamedIntake) -> Result<WithFile<Vec<u8>>, Stop<'_>> {
        named_after(
            alloc,
            self.options,
            self.name.text.as_bytes(),
            self.has_list,
            intake,
        )
    }
}

// The module of the database and the image with the names of the pin file, and the list of names. Called after the last piece of the image.
fn named_after(
    alloc: Global,
    options: FabricOptions,
    name: &[u8],
    has_list: bool,
    intake: NamedIntake,
) -> Result<WithFile<Vec<u8>>, Stop<'static>>
    requires { IsName name.now }
    ensures bytes { IfOk result (λ made. (package_name : List ℕ) (layout : Option (List ℕ)) (texts : List (List ℕ))
        → TakesNamed package_name layout texts intake [] → named_answer options layout name.now package_name has_list texts ≡ Both made.target.items made.beside.items) }
    ensures stops { IfErr result (λ stop. (package_name : List ℕ) (layout : Option (List ℕ)) (texts : List (List ℕ))
        → TakesNamed package_name layout texts intake [] → StopsWith (named_answer options layout name.now package_name has_list texts) stop) }
{
    let NamedIntake {
        file,
        input,
        pins,
        ..
    } = intake;
    match read_source(alloc, input, has_list) {
        Ok(source) => named_texts_of(alloc, &source, options, name, &file, pins),
        Err(stop) => Err(stop),
    }
}

// The module of a database and an image with the names of a pin file, and the list of names.
fn named_texts_of(
    alloc: Global,
    source: &DesignSource,
    options: FabricOptions,
    name: &[u8],
    file: &Collected,
    pins: Option<PinReader>,
) -> Result<WithFile<Vec<u8>>, Stop<'static>>
    requires { IsName name.now }
    ensures bytes { IfOk result (λ made. (package_name text pin_text : List ℕ) → HasPins package_name text pins → Collects pin_text file.now
        → written_named options name.now (symbols_in source.now.symbols) (package_of package_name text) pin_text (database_in source.now.db) (configuration_of source.now.image) ≡ Both made.target.items made.beside.items) }
    ensures stops { IfErr result (λ stop. (package_name text pin_text : List ℕ) → HasPins package_name text pins → Collects pin_text file.now
        → StopsWith (written_named options name.now (symbols_in source.now.symbols) (package_of package_name text) pin_text (database_in source.now.db) (configuration_of source.now.image)) stop) }
{
    match design_with(alloc, &source.db, &source.image, options) {
        Ok(design) => named_design_texts(alloc, &design, name, &source.symbols, file, pins),
        Err(fault) => Err(design_stop(&fault)),
    }
}

// The module of a design with the names of a pin file, and the list of names.
fn named_design_texts(
    alloc: Global,
    design: &Design,
    name: &[u8],
    symbols: &Option<Vec<Symbol>>,
    file: &Collected,
    pins: Option<PinReader>,
) -> Result<WithFile<Vec<u8>>, Stop<'static>>
    requires { IsName name.now }
    ensures bytes { IfOk result (λ made. (package_name text pin_text : List ℕ) (db : Database) (image : Configuration) → HasPins package_name text pins → Collects pin_text file.now
        → IsDesignOf db image design.now
        → written_named design.now.parts.options name.now (symbols_in symbols.now) (package_of package_name text) pin_text db image ≡ Both made.target.items made.beside.items) }
    ensures stops { IfErr result (λ stop. (package_name text pin_text : List ℕ) (db : Database) (image : Configuration) → HasPins package_name text pins → Collects pin_text file.now
        → IsDesignOf db image design.now
        → StopsWith (written_named design.now.parts.options name.now (symbols_in symbols.now) (package_of package_name text) pin_text db image) stop) }
{
    let pins = package_pins(pins)?;
    let text = file.text()?;
    let ports = port_pins(alloc, design)?;
    texts_by_pins(alloc, design, name, symbols, &pins, text, &ports)
}

// The module of a design with the names of a pin file, from the text of the file and the pins of its package, and the list of names.
// `ports` are the design's pins with their ports.
fn texts_by_pins(
    alloc: Global,
    design: &Design,
    name: &[u8],
    symbols: &Option<Vec<Symbol>>,
    pins: &PackagePins,
    text: &[u8],
    ports: &[PortPin],
) -> Result<WithFile<Vec<u8>>, Stop<'static>>
    requires name { IsName name.now }
    requires ports { ports.now ≡ port_pins design.now.parts.pins.items }
    ensures bytes { IfOk result (λ made. (db : Database) (image : Configuration) → IsDesignOf db image design.now
        → written_named design.now.parts.options name.now (symbols_in symbols.now) (kept_in pins.now) text.now db image ≡ Both made.target.items made.beside.items) }
    ensures stops { IfErr result (λ stop. (db : Database) (image : Configuration) → IsDesignOf db image design.now
        → StopsWith (written_named design.now.parts.options name.now (symbols_in symbols.now) (kept_in pins.now) text.now db image) stop) }
{
    match pin_names(alloc, text, pins, ports) {
        Ok(named) => Ok(named_texts(alloc, design, name, symbols, &named)?),
        Err(fault) => Err(pin_stop(fault)),
    }
}

// The text of the module of a design, whose ports have these names, and the list of names for its wires.
fn named_texts(
    alloc: Global,
    design: &Design,
    name: &[u8],
    symbols: &Option<Vec<Symbol>>,
    named: &[PinName],
) -> Result<WithFile<Vec<u8>>, AllocError>
    requires name { IsName name.now }
    requires accepted { AreAccepted design.now.parts.pins.items named.now }
    ensures { IfOk result (λ made. (db : Database) (image : Configuration) → IsDesignOf db image design.now
        → both_texts (symbols_in symbols.now) (fabric_with design.now.parts.options db image) (module_with_names named.now design.now.parts.options name.now db image) ≡ Both made.target.items made.beside.items) }
{
    let written = emit(alloc, design, name)?;
    let module = name_ports(alloc, design, written, named)?;
    both_texts(alloc, design, &module, symbols)
}

/// Does a request with a pin file: loads its files and writes the module, whose ports have the names of the pin file.
pub(crate) fn write_named<H: Host>(
    alloc: Global,
    request: Request<'_>,
    pins: PinRequest<'_>,
    host: &mut H,
) -> u8
    ensures { Does H.outside (named_task request.entry.options request.entry.name.text.now (pins_named pins.entry) (text_of request.entry.names) (text_of request.entry.layout) request.entry.db.now (text_of request.entry.image)) result (H.scene host.old) (H.scene host.new) }
{
    let loads = [
        Load {
            name: Some(pins.file),
            limit: PINS_LIMIT,
        },
        Load {
            name: Some(request.db),
            limit: DB_LIMIT,
        },
        Load {
            name: request.image,
            limit: IMAGE_LIMIT,
        },
    ];
    let tool = Naming {
        options: request.options,
        name: request.name,
        package_name: pins.package_name,
        has_list: request.names.is_some(),
    };
    let job = Job {
        tool_name: "icebox_vlog",
        loads: &loads,
        target: None,
    };
    host.perform_beside(alloc, &tool, request.layout, &job, request.names)
}
