// `icebox_vlog`: writes the module of an image.
ghost use Rattle.std.specs.Prelude.{◌≡◌, [], ℕ, List, Option, map, string_bytes, IfOk, IfErr, Some};
ghost use Rattle.ice_image.specs.Configuration.{Configuration};
ghost use Rattle.ice_image.specs.Either.{configuration_of};
ghost use Rattle.chipdb_reader.specs.Database.{Database};
ghost use Rattle.chipdb_reader.specs.Kept.{database_in};
ghost use Rattle.vlog_module.specs.Names.{IsName};
ghost use Rattle.fabric.specs.Design.{IsDesignOf};
ghost use Rattle.tool_run.specs.Runs.{Does};
ghost use Rattle.tool_run.specs.Stops.{StopsWith};
ghost use Rattle.tool_run.specs.Tasks.{Both};
ghost use Rattle.tool_inputs.specs.DesignInput.{TakesInput};
ghost use Rattle.design_tools.specs.Fabric.{PromisesFabric, PromisesNames};
ghost use Rattle.design_tools.specs.Sources.{symbols_in};
ghost use Rattle.design_tools.specs.Vlog.{vlog_answer, vlog_outcome, vlog_task_for, write_task, written};
ghost use Rattle.tool_run.specs.Needs.{text_of};

use crate::name::ModuleName;
use crate::naming::write_named;
use crate::request::{ICEBOX_VLOG_HELP, ICEBOX_VLOG_USAGE, Request, command, request_in};
use crate::source::{DesignSource, both_texts, read_source};
use asc_text::Symbol;
use clap::{ArgMatches, Command};
use design_answers::design_stop;
use fabric::{Design, design_with};
use fabric_model::FabricOptions;
use std::alloc::{AllocError, Global};
use tool_inputs::{CommandLine, DB_LIMIT, DesignInput, IMAGE_LIMIT, Words, run_tool};
use tool_run::{Host, Job, Load, PieceTool, Stop, WithFile};
use vlog_emit::emit;

/// Writes the module of a database and an image under a name, and a list of names for its wires. The options are those of the design. The
/// image is read under the layouts of the layout file, if one is named.
#[derive(Clone, Copy, Debug, PartialEq, Eq)]
pub(crate) struct Writing<'a> {
    pub(crate) options: FabricOptions,
    pub(crate) name: ModuleName<'a>,
    /// Whether a list of names for the wires is asked for.
    pub(crate) has_list: bool,
}

impl<'a> PieceTool for Writing<'a> {
    ghost use Rattle.tool_inputs.specs.DesignInput.{TakesInput, fed_input};
    ghost use Rattle.design_tools.specs.Vlog.{vlog_answer};

    type Intake = DesignInput;

    type Made = WithFile<Vec<u8>>;

    ghost answer_of = { λ tool layout texts. vlog_answer tool.options layout tool.name.text.now tool.has_list texts };

    ghost takes = { λ tool layout texts intake bytes. TakesInput layout texts intake bytes };

    ghost fed = { fed_input };

    fn begin(&self, alloc: Global, layout: Option<&[u8]>) -> Result<DesignInput, Stop<'static>> {
        DesignInput::begin(alloc, layout)
    }

    fn feed(&self, intake: &mut DesignInput, piece: &[u8]) {
        intake.feed(piece);
    }

    fn close(&self, intake: &mut DesignInput) {
        intake.close();
    }

    fn finish(&self, alloc: Global, intake: DesignInput) -> Result<WithFile<Vec<u8>>, Stop<'_>> {
        written_after(
            alloc,
            self.options,
            self.name.text.as_bytes(),
            self.has_list,
            intake,
        )
    }
}

// The module of the database and the image, and the list of names. Called after the last piece of the image.
fn written_after(
    alloc: Global,
    options: FabricOptions,
    name: &[u8],
    has_list: bool,
    intake: DesignInput,
) -> Result<WithFile<Vec<u8>>, Stop<'static>>
    requires { IsName name.now }
    ensures bytes { IfOk result (λ made. (layout : Option (List ℕ)) (texts : List (List ℕ)) → TakesInput layout texts intake []
        → vlog_answer options layout name.now has_list texts ≡ Both made.target.items made.beside.items) }
    ensures stops { IfErr result (λ stop. (layout : Option (List ℕ)) (texts : List (List ℕ)) → TakesInput layout texts intake []
        → StopsWith (vlog_answer options layout name.now has_list texts) stop) }
{
    match read_source(alloc, intake, has_list) {
        Ok(source) => texts_of(alloc, &source, options, name),
        Err(stop) => Err(stop),
    }
}

// The module of a database and an image, and the list of names.
#[tactic(auto, using(crate::proofs::Written::stops_design))]
fn texts_of(
    alloc: Global,
    source: &DesignSource,
    options: FabricOptions,
    name: &[u8],
) -> Result<WithFile<Vec<u8>>, Stop<'static>>
    requires { IsName name.now }
    ensures bytes { IfOk result (λ made. written options name.now (symbols_in source.now.symbols) (database_in source.now.db) (configuration_of source.now.image) ≡ Both made.target.items made.beside.items) }
    ensures stops { IfErr result (StopsWith (written options name.now (symbols_in source.now.symbols) (database_in source.now.db) (configuration_of source.now.image))) }
{
    match design_with(alloc, &source.db, &source.image, options) {
        Ok(design) => Ok(design_texts(alloc, &design, name, &source.symbols)?),
        Err(fault) => Err(design_stop(&fault)),
    }
}

// The text of the module of a design, and the list of names.
fn design_texts(
    alloc: Global,
    design: &Design,
    name: &[u8],
    symbols: &Option<Vec<Symbol>>,
) -> Result<WithFile<Vec<u8>>, AllocError>
    requires { IsName name.now }
    ensures { IfOk result (λ made. (db : Database) (image : Configuration) → IsDesignOf db image design.now
        → written design.now.parts.options name.now (symbols_in symbols.now) db image ≡ Both made.target.items made.beside.items) }
{
    let module = emit(alloc, design, name)?;
    both_texts(alloc, design, &module, symbols)
}

// Does a request without a pin file: loads its files and writes the module.
fn write_plain<H: Host>(alloc: Global, request: Request<'_>, host: &mut H) -> u8
    ensures { Does H.outside (write_task request.entry.options request.entry.name.text.now (text_of request.entry.names) (text_of request.entry.layout) request.entry.db.now (text_of request.entry.image)) result (H.scene host.old) (H.scene host.new) }
{
    let loads = [
        Load {
            name: Some(request.db),
            limit: DB_LIMIT,
        },
        Load {
            name: request.image,
            limit: IMAGE_LIMIT,
        },
    ];
    let tool = Writing {
        options: request.options,
        name: request.name,
        has_list: request.names.is_some(),
    };
    let job = Job {
        tool_name: "icebox_vlog",
        loads: &loads,
        target: None,
    };
    host.perform_beside(alloc, &tool, request.layout, &job, request.names)
}

// Does a request: loads its files and writes the module.
fn write_files<H: Host>(alloc: Global, request: Request<'_>, host: &mut H) -> u8
    ensures { Does H.outside (vlog_task_for (Some request.entry)) result (H.scene host.old) (H.scene host.new) }
{
    match request.pins {
        None => write_plain(alloc, request, host),
        Some(pins) => write_named(alloc, request, pins, host),
    }
}

/// `icebox_vlog` by its command line.
#[derive(Clone, Copy, Debug, PartialEq, Eq)]
pub(crate) struct IceboxVlog;

impl CommandLine for IceboxVlog {
    ghost use Rattle.design_tools.specs.Vlog.{icebox_vlog};
    ghost use Rattle.design_tools.specs.Laws.{vlog-simple, vlog-speaks};

    ghost manual = { icebox_vlog };

    fn words(&self) -> Words {
        Words {
            name: "icebox_vlog",
            usage: ICEBOX_VLOG_USAGE,
            help: ICEBOX_VLOG_HELP,
        }
    }

    fn command<'a>(&self, alloc: Global) -> Result<Command<'a>, AllocError> {
        command(alloc)
    }

    fn perform<H: Host>(
        &self,
        alloc: Global,
        matches: &ArgMatches<'_>,
        host: &mut H,
    ) -> Option<u8> {
        let request = request_in(matches)?;
        Some(write_files(alloc, request, host))
    }

    ghost simple = { vlog-simple };

    ghost speaks = { vlog-speaks };
}

/// Runs `icebox_vlog` with these arguments, the first of which is its name, and answers the exit status.
pub fn run_icebox_vlog<H: Host>(alloc: Global, args: &[String], host: &mut H) -> u8
    ensures does { Does H.outside (vlog_outcome (map string_bytes args.now)) result (H.scene host.old) (H.scene host.new) }
    ensures names { PromisesNames H.outside (map string_bytes args.now) result (H.scene host.old) (H.scene host.new) }
    ensures fabric { PromisesFabric H.outside (map string_bytes args.now) result (H.scene host.old) (H.scene host.new) }
{
    run_tool(alloc, &IceboxVlog, args, host)
}
