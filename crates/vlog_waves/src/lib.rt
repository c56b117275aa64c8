//! The waves of a run: a VCD (value change dump) of a module of the Verilog subset over events. Simulators write this format, and wave
//! viewers read it.
#![tactic(auto)]

mod changes;
mod declarations;
mod fault;
mod items;
mod labels;
mod lines;
mod sending;
mod starting;
mod tracer;
mod values;
mod waves;

pub use fault::WavesFault;
pub use waves::Waves;

// The events of a run, and the names of its wires.
pub use long_events::EventStream;
pub use wire_names::WireNames;
