// `selfrun`: makes a design from a number, and takes it through all parts.
ghost use Rattle.std.specs.Prelude.{◌≡◌, true, List, None, IfOk, IfErr, length, map, string_bytes};
ghost use Rattle.plane_map.specs.Devices.{has_database};
ghost use Rattle.ice_image.specs.Either.{configuration_of};
ghost use Rattle.chipdb_reader.specs.Kept.{database_in};
ghost use Rattle.bin_stream.specs.CanonicalBytes.{canonical_bytes};
ghost use Rattle.fabric_model.specs.Fabric.{fabric_of, no_options};
ghost use Rattle.fabric_model.specs.Faults.{design_fault};
ghost use Rattle.fabric_model.specs.Steps.{Entry, IsRun};
ghost use Rattle.fabric_model.specs.Unique.{ExactlyOne};
ghost use Rattle.fabric.specs.Design.{IsDesignOf};
ghost use Rattle.tool_run.specs.Runs.{Does};
ghost use Rattle.tool_run.specs.Tasks.{Answer, Done, at_once};
ghost use Rattle.tool_inputs.specs.Databases.{database_read};
ghost use Rattle.selfrun_tool.specs.Counted.{counts_of, counts_text};
ghost use Rattle.selfrun_tool.specs.Inside.{StopsAs};
ghost use Rattle.selfrun_tool.specs.Selfrun.{IsAnswer, IsAnswerBy, IsAnswerWith, IsSelfrunAnswer, image_for, run_events, selfrun_name, selfrun_outcome};

use crate::counting::{Packed, explained_lines, pack, run};
use crate::counts::{Counts, text_of};
use crate::request::{Request, SELFRUN_HELP, SELFRUN_USAGE, request_of};
use chipdb_reader::ChipDb;
use design_answers::design_stop;
use fabric::{Design, design};
use ice_gen::{chipdb, image};
use ice_image::AnyImage;
use std::alloc::{AllocError, Global};
use tool_inputs::read_database;
use tool_run::{AtOnce, Host, Job, Stop, Tool, asks_for_help};

/// A tool that loads nothing and answers with a text that was made before.
#[derive(Clone, Copy, Debug, PartialEq, Eq)]
pub(crate) struct Telling<'a> {
    pub(crate) text: &'a [u8],
}

impl<'a> Tool for Telling<'a> {
    ghost use Rattle.tool_run.specs.Tasks.{Done};

    ghost answer_of = { λ tool texts. Done tool.text.now };

    type Made = Vec<u8>;

    fn answer(&self, alloc: Global, _loaded: &Vec<Vec<u8>>) -> Result<Vec<u8>, Stop<'_>> {
        Ok(Vec::from_slice(alloc, self.text)?)
    }
}

// The counts of a design and of its run.
fn counted(
    alloc: Global,
    request: Request,
    db: &ChipDb,
    packed: &Packed,
    design: &Design,
) -> Result<Counts, AllocError>
    requires design { IsDesignOf (database_in db.now) (image_for request) design.now }
    requires options { design.now.parts.options ≡ no_options }
    requires image { configuration_of packed.now.image ≡ image_for request }
    requires bytes { packed.now.bytes ≡ length (canonical_bytes (image_for request)) }
    ensures { IfOk result (λ counts. (entries : List Entry) → IsRun (fabric_of (database_in db.now) (image_for request)) (run_events request (database_in db.now)) entries
        → counts ≡ counts_of (database_in db.now) (image_for request) (run_events request (database_in db.now)) entries) }
{
    let explained = explained_lines(alloc, db, &packed.image)?;
    let ran = run(alloc, design, request)?;
    Ok(Counts {
        bin: packed.bytes,
        nets: db.net_count(),
        cells: design.lcs().len(),
        rams: design.rams().len(),
        wires: design.order().len(),
        events: ran.events,
        explained,
        ones: ran.ones,
    })
}

// The text for a design.
fn design_text(
    alloc: Global,
    request: Request,
    db: &ChipDb,
    packed: &Packed,
    design: &Design,
) -> Result<Vec<u8>, AllocError>
    requires design { IsDesignOf (database_in db.now) (image_for request) design.now }
    requires options { design.now.parts.options ≡ no_options }
    requires image { configuration_of packed.now.image ≡ image_for request }
    requires bytes { packed.now.bytes ≡ length (canonical_bytes (image_for request)) }
    ensures { IfOk result (λ text. (entries : List Entry) → IsRun (fabric_of (database_in db.now) (image_for request)) (run_events request (database_in db.now)) entries
        → text.items ≡ counts_text request.device (counts_of (database_in db.now) (image_for request) (run_events request (database_in db.now)) entries)) }
{
    let counts = counted(alloc, request, db, packed, design)?;
    text_of(alloc, request.device, &counts)
}

// The text for a database and an image that was packed, or why there is none.
fn told_by(
    alloc: Global,
    request: Request,
    db: &ChipDb,
    packed: &Packed,
) -> Result<Vec<u8>, Stop<'static>>
    requires image { configuration_of packed.now.image ≡ image_for request }
    requires bytes { packed.now.bytes ≡ length (canonical_bytes (image_for request)) }
    ensures bytes { IfOk result (λ bytes. IsAnswerWith request (database_in db.now) (design_fault no_options (database_in db.now) (image_for request)) (Done bytes.items)) }
    ensures stops { IfErr result (StopsAs (IsAnswerWith request (database_in db.now) (design_fault no_options (database_in db.now) (image_for request)))) }
{
    match design(alloc, db, &packed.image) {
        Ok(design) => Ok(design_text(alloc, request, db, packed, &design)?),
        Err(fault) => Err(design_stop(&fault)),
    }
}

// The text for a database and an image, or why there is none.
fn told_of(
    alloc: Global,
    request: Request,
    db: &ChipDb,
    image: &AnyImage,
) -> Result<Vec<u8>, Stop<'static>>
    requires { configuration_of image.now ≡ image_for request }
    ensures bytes { IfOk result (λ bytes. IsAnswerWith request (database_in db.now) (design_fault no_options (database_in db.now) (image_for request)) (Done bytes.items)) }
    ensures stops { IfErr result (StopsAs (IsAnswerWith request (database_in db.now) (design_fault no_options (database_in db.now) (image_for request)))) }
{
    let packed = pack(alloc, image)?;
    told_by(alloc, request, db, &packed)
}

// The text for the text of a database and an image, or why there is none.
#[tactic(auto, using(crate::proofs::Answer::database_stops))]
fn told_from(
    alloc: Global,
    request: Request,
    text: &[u8],
    image: &AnyImage,
) -> Result<Vec<u8>, Stop<'static>>
    requires { configuration_of image.now ≡ image_for request }
    ensures bytes { IfOk result (λ bytes. IsAnswerBy request (database_read text.now) (Done bytes.items)) }
    ensures stops { IfErr result (StopsAs (IsAnswerBy request (database_read text.now))) }
{
    let db = read_database(alloc, text)?;
    told_of(alloc, request, &db, image)
}

// The text for a request, or why there is none.
fn told(alloc: Global, request: Request) -> Result<Vec<u8>, Stop<'static>>
    requires { has_database request.device ≡ true }
    ensures bytes { IfOk result (λ bytes. IsAnswer request (Done bytes.items)) }
    ensures stops { IfErr result (StopsAs (IsAnswer request)) }
{
    let text = chipdb(alloc, request.device)?;
    let image = image(alloc, request.device, request.seed)?;
    told_from(alloc, request, &text, &image)
}

// Does a request.
fn tell<H: Host>(alloc: Global, request: Request, host: &mut H) -> u8
    requires { has_database request.device ≡ true }
    ensures { (answer : Answer) → IsAnswer request answer
        → Does H.outside (at_once selfrun_name None answer) result (H.scene host.old) (H.scene host.new) }
{
    let tool_name = "selfrun";
    match told(alloc, request) {
        Ok(text) => {
            let job = Job {
                tool_name,
                loads: &[],
                target: None,
            };
            let tool = Telling { text: &text };
            host.perform(alloc, &tool, &job)
        }
        Err(Stop::Refused(refusal)) => {
            let answer = AtOnce::Refuses(refusal);
            host.answer_at_once(alloc, tool_name, answer)
        }
        Err(Stop::Quiet | Stop::UsageError(_)) => unreachable!(),
        Err(Stop::Memory) => host.give_up(tool_name),
    }
}

// Does what the arguments ask for, or answers the usage error if they aren't taken.
fn do_args<H: Host>(alloc: Global, args: &[String], host: &mut H) -> u8
    ensures { (answer : Answer) → IsSelfrunAnswer (map string_bytes args.now) answer
        → Does H.outside (at_once selfrun_name None answer) result (H.scene host.old) (H.scene host.new) }
{
    let tool_name = "selfrun";
    match request_of(alloc, args) {
        Ok(Some(request)) => tell(alloc, request, host),
        Ok(None) => {
            let answer = AtOnce::UsageError(SELFRUN_USAGE);
            host.answer_at_once(alloc, tool_name, answer)
        }
        Err(AllocError) => host.give_up(tool_name),
    }
}

/// Runs `selfrun` with these arguments, the first of which is its name, and answers the exit status.
pub fn run_selfrun<H: Host>(alloc: Global, args: &[String], host: &mut H) -> u8
    ensures one_answer { ExactlyOne (IsSelfrunAnswer (map string_bytes args.now)) }
    ensures does { (answer : Answer) → IsSelfrunAnswer (map string_bytes args.now) answer
        → Does H.outside (selfrun_outcome (map string_bytes args.now) answer) result (H.scene host.old) (H.scene host.new) }
{
    if asks_for_help(args) {
        let answer = AtOnce::Tells(SELFRUN_HELP);
        return host.answer_at_once(alloc, "selfrun", answer);
    }
    do_args(alloc, args, host)
}
