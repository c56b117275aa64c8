// Counts the parts of a design and of its run.
ghost use Rattle.std.specs.Prelude.{◌≡◌, ◌<◌, ◌≤◌, ◌^◌, All, IfOk, None, Ok, codes, length, map};
ghost use Rattle.layout_file.specs.Layouts.{HasLayout, standard_layouts};
ghost use Rattle.ice_image.specs.Configuration.{Configuration};
ghost use Rattle.ice_image.specs.Either.{configuration_of};
ghost use Rattle.text_lines.specs.Lines.{lines_of};
ghost use Rattle.bin_stream.specs.CanonicalBytes.{canonical_bytes};
ghost use Rattle.bin_stream.specs.Spelling.{bin_read_of};
ghost use Rattle.chipdb_reader.specs.Database.{Database};
ghost use Rattle.chipdb_reader.specs.Kept.{database_in};
ghost use Rattle.image_explain.specs.Explained.{explained};
ghost use Rattle.ice_gen.specs.Events.{generated_events};
ghost use Rattle.vlog_semantics.specs.Run.{input_names, module_run};
ghost use Rattle.fabric_model.specs.Fabric.{fabric_with};
ghost use Rattle.fabric.specs.Design.{IsDesignOf};
ghost use Rattle.fabric_module.specs.Written.{module_of};
ghost use Rattle.vlog_emit.specs.Runs.{RunsAs};
ghost use Rattle.selfrun_tool.specs.Counted.{ones_in};
ghost use Rattle.selfrun_tool.specs.Inside.{IsRunOf, module_bits};

use crate::events::events_for;
use crate::request::Request;
use bin_stream::{BinFault, decode, encode};
use chipdb_reader::ChipDb;
use fabric::Design;
use ice_gen::events;
use ice_image::AnyImage;
use image_explain::{ExplainFault, explain};
use std::alloc::{AllocError, Global};
use text_lines::first_line;
use vlog_emit::emit;
use vlog_parser::{Module, from_own_text};
use vlog_run::{Event, Runner};

/// An image that was packed and unpacked.
#[derive(Drop)]
pub(crate) struct Packed {
    pub(crate) image: AnyImage,
    /// How many bytes its bitstream had.
    pub(crate) bytes: usize,
}

/// The bitstream of an image of the standard layout.
fn encoded(alloc: Global, image: &AnyImage) -> Result<Vec<u8>, AllocError>
    requires { HasLayout standard_layouts (configuration_of image.now).layout }
    ensures bytes { IfOk result (λ bytes. bytes.items ≡ canonical_bytes (configuration_of image.now)) }
    ensures read { IfOk result (λ bytes. bin_read_of standard_layouts bytes.items ≡ Ok (configuration_of image.now)) }
{
    encode(alloc, image)
}

/// Packs an image of the standard layout, and unpacks the bitstream again.
pub(crate) fn pack(alloc: Global, image: &AnyImage) -> Result<Packed, AllocError>
    requires { HasLayout standard_layouts (configuration_of image.now).layout }
    ensures image { IfOk result (λ packed. configuration_of packed.image ≡ configuration_of image.now) }
    ensures bytes { IfOk result (λ packed. packed.bytes ≡ length (canonical_bytes (configuration_of image.now))) }
{
    let bytes = encoded(alloc, image)?;
    match decode(alloc, &bytes) {
        Ok(image) => Ok(Packed {
            image,
            bytes: bytes.len(),
        }),
        Err(BinFault::Memory(error)) => Err(error),
        Err(BinFault::At { .. }) => unreachable!(),
    }
}

/// How many lines a text has.
#[tactic(auto, unfolding(text_lines::specs::Lines::lines_of))]
fn line_count(text: &[u8]) -> usize
    ensures { result ≡ length (lines_of text.now) }
{
    let mut rest = text;
    let mut lines = 0;
    while let Some(line) = first_line(rest) {
        lines += 1;
        rest = line.rest;
    }
    lines
}

/// How many lines explain an image by a database for its device.
#[tactic(auto, using(crate::proofs::Devices::no_fault))]
pub(crate) fn explained_lines(
    alloc: Global,
    db: &ChipDb,
    image: &AnyImage,
) -> Result<usize, AllocError>
    requires { db.now.chip.device ≡ (configuration_of image.now).layout.device }
    ensures { IfOk result (λ lines. lines ≡ length (lines_of (explained (database_in db.now) (configuration_of image.now) None))) }
{
    match explain(alloc, db, image, None) {
        Ok(text) => Ok(line_count(&text)),
        Err(ExplainFault::Memory(error)) => Err(error),
        Err(ExplainFault::Device) => unreachable!(),
        Err(ExplainFault::NoTile { .. }) => unreachable!(),
    }
}

/// The module of a design, after it was printed and parsed again.
#[tactic(auto, unfolding(vlog_module::specs::Names::is_name, vlog_module::specs::Names::reserved_words))]
fn module_of(alloc: Global, design: &Design) -> Result<Module, AllocError>
    ensures made { IfOk result (λ made. (db : Database) (image : Configuration) → IsDesignOf db image design.now → made ≡ module_of (fabric_with design.now.parts.options db image) design.now.order (codes "selfrun")) }
    ensures runs { IfOk result (λ made. (db : Database) (image : Configuration) → IsDesignOf db image design.now → RunsAs design.now.parts.options db image made) }
{
    let module = emit(alloc, design, b"selfrun")?;
    from_own_text(alloc, &module)
}

/// How many bits are 1.
fn ones_in(bits: &[bool]) -> u128
    ensures ones { result ≡ ones_in bits.now }
    ensures few { result < 2 ^ 64 }
{
    bits.iter().filter(|bit| **bit).count() as u128
}

/// How many output bits are 1 in a run of a module, counted at the start and after each event.
fn ones_of(alloc: Global, module: &Module, events: &[Event]) -> Result<u128, AllocError>
    requires { All (λ event. event.pin < length (input_names «module».now.ports)) events.now }
    ensures { IfOk result (λ ones. ones ≡ ones_in (module_bits (module_run «module».now events.now))) }
{
    let mut runner = Runner::new(alloc, module)?;
    let mut ones = ones_in(runner.outputs());
    for event in events {
        runner.event(event.pin, event.bit);
        ones += ones_in(runner.outputs());
    }
    Ok(ones)
}

/// What is counted of a run.
#[derive(Clone, Copy, Debug, PartialEq, Eq)]
pub(crate) struct Ran {
    /// How many events were run.
    pub(crate) events: usize,
    /// How many output bits were 1, counted at the start and after each event.
    pub(crate) ones: u128,
}

/// Runs the module of a design over the events of a request.
pub(crate) fn run(alloc: Global, design: &Design, request: Request) -> Result<Ran, AllocError>
    ensures { IfOk result (IsRunOf design.now (generated_events request.seed request.events)) }
{
    let made = events(alloc, request.seed, request.events as usize)?;
    let events = events_for(alloc, design.inputs(), &made)?;
    let module = module_of(alloc, design)?;
    let ones = ones_of(alloc, &module, &events)?;
    Ok(Ran {
        events: events.len(),
        ones,
    })
}
