// How often new lanes ask for memory: `check/lanes.py` counts the requests of both tests.

use std::alloc::Global;
use vlog_lanes::Lanes;
use vlog_parser::parse;

/// The module of an input pin, a LUT that inverts it, and an output pin.
const INVERTER: &[u8] = b"module chip (io_0_1_0, io_0_2_0);
  input io_0_1_0;
  output io_0_2_0;
  wire n_0 = io_0_1_0;
  wire n_1 = n_0;
  wire n_2 = 16'h5555 >> {1'b0, 1'b0, 1'b0, n_1};
  wire n_3 = n_2;
  assign io_0_2_0 = n_3;
endmodule
";

/// Whether the module is read, and, if `has_lanes`, whether lanes are made of it.
fn is_done(alloc: Global, has_lanes: bool) -> bool {
    match parse(alloc, INVERTER) {
        Ok(module) => !has_lanes || Lanes::new(alloc, &module).is_ok(),
        Err(_) => false,
    }
}

#[test]
fn reads_a_module(rt: HostRuntime) {
    assert!(rt; is_done(rt.alloc(), false));
}

#[test]
fn makes_lanes_of_a_module(rt: HostRuntime) {
    assert!(rt; is_done(rt.alloc(), true));
}
