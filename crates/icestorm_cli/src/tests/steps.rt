// The calls of `selfrun` one after another, on the same job. `check/memory.py` compares how often both ask for memory.

use bin_stream::{decode, encode};
use chipdb_reader::read;
use fabric::design;
use ice_gen::{chipdb, events, image};
use image_explain::explain;
use plane_map::DeviceName;
use std::alloc::Global;
use vlog_emit::emit;
use vlog_parser::{parse, print};
use vlog_run::Runner;

/// The most bytes that a chip database has here.
const MOST_BYTES: usize = 268_435_456;

/// What a test counts: bytes of the bitstream, cells and classes of joined nets of the design, events, and outputs of the module.
type Counts = (usize, usize, usize, usize, usize);

/// The counts on the way from a seed to a runner, or `None` if a call fails.
#[tactic(auto, unfolding(vlog_module::specs::Names::is_name, vlog_module::specs::Names::reserved_words))]
fn counted(alloc: Global) -> Option<Counts> {
    let text = chipdb(alloc, DeviceName::Hx1k).ok()?;
    if text.len() > MOST_BYTES {
        return None;
    }
    let made = image(alloc, DeviceName::Hx1k, 7).ok()?;
    let events = events(alloc, 7, 10).ok()?;
    let db = read(alloc, &text).ok()?;
    let stream = encode(alloc, &made).ok()?;
    let image = decode(alloc, &stream).ok()?;
    let explained = explain(alloc, &db, &image, None).ok()?;
    let design = design(alloc, &db, &image).ok()?;
    let module = emit(alloc, &design, b"selfrun").ok()?;
    let printed = print(alloc, &module).ok()?;
    let parsed = parse(alloc, &printed).ok()?;
    let runner = Runner::new(alloc, &parsed).ok()?;
    if explained.is_empty() {
        return None;
    }
    Some((
        stream.len(),
        design.lcs().len(),
        design.order().len(),
        events.len(),
        runner.outputs().len(),
    ))
}

#[test]
fn takes_the_steps_of_selfrun(rt: HostRuntime) {
    assert_eq!(rt; counted(rt.alloc()), Some((32_216, 1_280, 2_834, 10, 2)));
}
