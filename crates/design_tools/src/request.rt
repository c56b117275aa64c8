// What the command line of `icebox_vlog` asks for.
ghost use Rattle.std.specs.Prelude.{◌≡◌, IfOk};
ghost use Rattle.std.specs.Option.{option_map};
ghost use Rattle.clap.specs.Words.{app_of, found_of, rows_of};
ghost use Rattle.tool_run.specs.Needs.{text_of};
ghost use Rattle.design_answers.specs.PinRequests.{pins_of_request};
ghost use Rattle.design_tools.specs.Vlog.{inputs_wanted, options_wanted, name_text, vlog_command, vlog_task_by, vlog_task_for, vlog_task_of};

use crate::name::{ModuleName, name_given};
use clap::{ArgMatches, Command};
use design_answers::{PinRequest, pins_wanted};
use fabric_model::{FabricOptions, LutInputs};
use std::alloc::{AllocError, Global};
use tool_inputs::{has_flag, long_flag, long_option, positional, short_option, value, with};

/// The command line of `icebox_vlog`.
pub const ICEBOX_VLOG_USAGE: &str =
    "icebox_vlog [-n NAME] [-p PCF -d PACKAGE] [--names FILE] [--used-inputs] [--all-pins] [--register-clocks] [--layout FILE] DB [IMAGE]";

/// The help of `icebox_vlog`, at most 80 columns wide.
pub const ICEBOX_VLOG_HELP: &str = "\
icebox_vlog: writes the design of an image as a module in a subset of Verilog.

Usage: icebox_vlog [-n NAME] [-p PCF -d PACKAGE] [--names FILE] [--used-inputs]
                   [--all-pins] [--register-clocks] [--layout FILE] DB [IMAGE]

  DB        the chip database of the image's device
  IMAGE     a bitstream (.bin) or a text (.asc); standard input if it is missing
  -n NAME   the name of the module, at most 64 bytes; chip if it is missing
  -p PCF    the pin file: ports get its names
  -d PACKAGE
            the package whose pins it names, as tq144 or ct256
  --names FILE
            writes the names that IMAGE, a text, gives to nets to FILE, as names
            of wires, for vlogrun --vcd --names
  --used-inputs
            LUTs read only the inputs that they use, so more designs are taken
  --all-pins
            takes pins of every kind, apart from the few that PinMode names,
            and PLLs
  --register-clocks
            takes clocks that come from a register, as from a bit of a counter
  --layout FILE
            the layout file; the standard layout if it is missing

The standard layout isn't that of chips at two kinds of places: io tiles in the
right half of the top and bottom row, and contents of RAMs in the top half. For
chips give layouts/silicon.layout, which the installed icebox_vlog does by
itself.

The module has a port for each pin that is used, io_X_Y_N for pin N of the io
tile at column X and row Y, and after it io_X_Y_N_en, which is 1 where the pin
is switched on, for an output that can be switched off; a register for each
flip-flop, ff_X_Y_I, and for each pin with a register, pi_X_Y_N for an input and
po_X_Y_N for an output; a register and a memory for each block RAM that is read,
rd_X_Y and mem_X_Y; and a wire n_K for each net with a driver. At the start and
after each change of an input they have the values that the configured device
has. vlogrun runs the module.

Without --all-pins a pin is taken if it is a plain or a registered input, or an
output that is plain, registered or can be switched off and isn't read. With
--all-pins it may also have two data rates, an inverted output, a register for
its output enable, and a pad that is read and that it drives at times, as on a
bus. Such a pin has a third port after the other two, io_X_Y_N_in: what the
outside puts on the pad where the pin doesn't drive it. If the ports are sda,
sda_en and sda_in, `assign bus = sda_en ? sda : 1'bz;` and
`assign sda_in = bus;` around the module join them to a bus. Further registers
of a pin are pj_X_Y_N of its second input, pq_X_Y_N of its second output,
pe_X_Y_N of its output enable, and ci_X_Y_N and co_X_Y_N, which keep the clock
enable for the second input and the second output.

With --all-pins an output of a PLL that is used is an input of the module after
all pins: pll_X_Y_a, pll_X_Y_b, pll_X_Y_lock or pll_X_Y_sdo. It may be a clock.
What the PLL makes of its reference isn't in the module: events say it.

A LUT uses an input if changing that input alone can change its value. With
--used-inputs a LUT doesn't depend on what a router led to an input that it
doesn't use, and 1'b0 is written in its place. The module has the same values
as without.

What the database doesn't describe isn't shown, nor is SB_WARMBOOT: a design
that reboots the chip is written as one that doesn't.

In a pin file a line `set_io NAME PIN` gives the port at PIN a name: NAME, with
_ for each byte that is no letter, digit or _, and without _ at the end. p_
comes before it if that is no name, or has the form of one of those above. The
pin's other ports have that name, and _en or _in after it. Lists of events then
use these names. A line counts only if its pin has a port and no earlier line
names the pin. If an earlier line gave one of its names, the port keeps
io_X_Y_N. Options of set_io, lines with set_frequency, and # and all after it
are passed over. A pin file with a fault is refused, and told by its first
faulty line: Statement, another statement; Package or Pin, the database has no
such package, or the package no such pin.

With --names a list of names goes to FILE before the module is written: a line
`n_K NAME` for each wire that gets a name. The names are those of the lines
.sym of IMAGE, in their order. A wire gets the first whose net is its own, and
that is one or more printable characters without spaces, that the module doesn't
declare and that no other wire has. A bitstream has no such lines, so its list
is empty.

Examples: icebox_vlog --used-inputs -n blink chipdb-1k.txt blink.asc >blink.v
          icebox_vlog --used-inputs --names b.names chipdb-1k.txt b.asc >b.v

Limits: a database has at most 268435456 bytes, an image 16777216, a layout file
65536, PCF 1048576.

A layout, a database or an image with a fault is refused, and told by the first
fault. A design is refused for these causes, looked for in this order:

  Device        the database is for another device: take the one for yours
  Pll           a PLL is used: --all-pins takes it, its outputs are inputs of
                the module. With it: the database doesn't describe the PLL
  PinMode       a pin of a kind that isn't taken; the six digits are the bits of
                its type, PIN_TYPE. Without --all-pins that is a pin that is
                neither a plain nor a registered input, nor an output that is
                plain, registered or can be switched off, as one with two data
                rates; or an output that can be switched off and is read: then
                --all-pins takes the design. With it there are four such kinds.
                The last digit but one is 1, and D_IN_0 is used: a latch may
                hold it; make the digit 0. Or the pin is the pad of a global
                network, as of SB_GB_IO, and drives that pad too, so the first
                two digits aren't 00: use SB_IO, and SB_GB for the network. Or
                its tile has LVDS, and it isn't pin 0 as an input: keep LVDS
                outputs, and other pins of the tile, out of the design. Or a
                PLL comes in at the pin, and the last two digits aren't 01,
                or D_IN_1 is used: make them 01, and don't use D_IN_1
  Cascade       block RAMs that are chained: take single ones
  TwoDrivers    two outputs drive one net: the image wasn't made by a router, or
                the database is for another device
  Loop          a net depends on itself, and no clock edge lies between: through
                LUTs, or through the reset of a flip-flop that resets itself at
                once. A router may make such a loop at an input that a logic
                cell doesn't use: then --used-inputs takes the design. With
                --register-clocks also: registers that clock each other in a
                ring, one that is its own clock, or one that is reset at once
                by what it clocks
  Clock         a flip-flop, a register of a pin or a RAM whose clock is made by
                logic, by more than a LUT that passes one net on or inverts it,
                or comes from a pad that the design drives, or from a register:
                then --register-clocks takes the design. Else clock it by a pin
                and use an enable

Exit status: 0 done; 1 a file or the design is refused; 2 the command line isn't
taken; 3 reading failed; 4 writing failed; 5 out of memory; 6 an input is longer
than its limit.

icestorm --explain CAUSE tells what the cause in a message means.
";

/// What the arguments ask for: the name of the module, a pin file, a file for the list of names, the options, a layout file, a database and an
/// image.
#[derive(Clone, Copy)]
pub(crate) struct Request<'a> {
    pub(crate) name: ModuleName<'a>,
    pub(crate) pins: Option<PinRequest<'a>>,
    pub(crate) names: Option<&'a str>,
    pub(crate) options: FabricOptions,
    pub(crate) layout: Option<&'a str>,
    pub(crate) db: &'a str,
    pub(crate) image: Option<&'a str>,
}

/// The command line as `clap` reads it.
pub(crate) fn command<'a>(alloc: Global) -> Result<Command<'a>, AllocError>
    ensures { IfOk result (λ command. app_of command ≡ vlog_command) }
{
    let command = Command::new(alloc, "icebox_vlog");
    let command = with(command, short_option(alloc, "name", 'n'))?;
    let command = with(command, short_option(alloc, "pins", 'p'))?;
    let command = with(command, short_option(alloc, "package", 'd'))?;
    let command = with(command, long_option(alloc, "names"))?;
    let command = with(command, long_flag(alloc, "used-inputs"))?;
    let command = with(command, long_flag(alloc, "all-pins"))?;
    let command = with(command, long_flag(alloc, "register-clocks"))?;
    let command = with(command, long_option(alloc, "layout"))?;
    let command = with(command, positional(alloc, "db"))?;
    with(command, positional(alloc, "image"))
}

// Which inputs LUTs read.
fn inputs_wanted(used: bool) -> LutInputs
    ensures { result ≡ inputs_wanted used }
{
    match used {
        false => LutInputs::All,
        true => LutInputs::Used,
    }
}

// The options: which inputs LUTs read, and whether pins of every kind are taken and registers may be clocks.
fn options_wanted(used: bool, all: bool, registers: bool) -> FabricOptions
    ensures { result ≡ options_wanted used all registers }
{
    FabricOptions {
        lut_inputs: inputs_wanted(used),
        all_pins: all,
        register_clocks: registers,
    }
}

// The request, from what was found in the arguments: the name must be one, there must be a database, and no pin file without a package.
fn wanted<'a>(
    options: FabricOptions,
    name: Option<ModuleName<'a>>,
    pins: Option<Option<PinRequest<'a>>>,
    names: Option<&'a str>,
    layout: Option<&'a str>,
    db: Option<&'a str>,
    image: Option<&'a str>,
) -> Option<Request<'a>>
    ensures { vlog_task_for result ≡ vlog_task_of options (name_text name.entry) (option_map pins_of_request pins.entry) (text_of names.entry) (text_of layout.entry) (text_of db.entry) (text_of image.entry) }
{
    match (name, pins, db) {
        (Some(name), Some(pins), Some(db)) => Some(Request {
            name,
            pins,
            names,
            options,
            layout,
            db,
            image,
        }),
        _ => None,
    }
}

// The request of the arguments, or `None` if they aren't taken.
pub(crate) fn request_in<'a>(matches: &ArgMatches<'a>) -> Option<Request<'a>>
    ensures { vlog_task_for result ≡ vlog_task_by (rows_of (found_of matches.now)) }
{
    let used = has_flag(matches, "used-inputs");
    let all = has_flag(matches, "all-pins");
    let registers = has_flag(matches, "register-clocks");
    let options = options_wanted(used, all, registers);
    let given = value(matches, "name");
    let name = name_given(given);
    let file = value(matches, "pins");
    let package_name = value(matches, "package");
    let pins = pins_wanted(file, package_name);
    let names = value(matches, "names");
    let layout = value(matches, "layout");
    let db = value(matches, "db");
    let image = value(matches, "image");
    wanted(options, name, pins, names, layout, db, image)
}
