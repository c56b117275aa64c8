// The lines of a run of registers with asynchronous set and reset.

ghost use Rattle.std.specs.Prelude.{◌<◌, All, length};
ghost use Rattle.vlog_semantics.specs.Run.{input_names};

use std::alloc::{AllocError, Global};
use vlog_parser::{Module, parse};
use vlog_run::{Event, read_events, run_text};

/// One register toggles at falling edges of `c`, and `s` sets it asynchronously; another has no clock, and `s` resets it asynchronously.
const AT_ONCE: &[u8] = b"module m (c, s, q, p);
  input c;
  input s;
  output q;
  output p;
  reg r = 1'b0;
  reg t = 1'b1;
  wire a = s;
  wire b = a ? 1'b1 : r;
  assign q = b;
  assign p = t;
  always @(negedge c or posedge a) if (a) r <= 1'b1; else if (1'b1) r <= 16'h5555 >> {1'b0, 1'b0, 1'b0, b};
  always @(posedge a) t <= 1'b0;
endmodule
";

const SETTING: &[u8] = b"s 1\ns 0\nc 1\nc 0\ns 1\nc 1\nc 0\ns 0\n";

const SET: &str = "01 01\n10 10\n10 10\n10 10\n00 00\n10 10\n10 10\n10 10\n10 10\n";

/// Whether these are the lines of a module's run over events, each on an input of the module.
fn are_lines_over(
    alloc: Global,
    module: &Module,
    events: &[Event],
    lines: &str,
) -> Result<bool, AllocError>
    requires { All (λ event. event.pin < length (input_names «module».now.ports)) events.now }
{
    Ok(run_text(alloc, module, events, true)?.as_slice() == lines.as_bytes())
}

/// Whether these are the lines of a module's run over the events of a text.
fn are_lines(alloc: Global, module: &Module, text: &[u8], lines: &str) -> Result<bool, AllocError> {
    match read_events(alloc, module, text) {
        Ok(events) => are_lines_over(alloc, module, events.as_slice(), lines),
        Err(_) => Ok(false),
    }
}

/// Whether the registers are set and reset asynchronously.
fn are_set_at_once(alloc: Global) -> Result<bool, AllocError> {
    match parse(alloc, AT_ONCE) {
        Ok(module) => are_lines(alloc, &module, SETTING, SET),
        Err(_) => Ok(false),
    }
}

#[test]
fn shows_registers_that_are_set_at_once(rt: HostRuntime) {
    assert!(rt; are_set_at_once(rt.alloc()) == Ok(true));
}
