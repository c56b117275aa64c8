// Each tool while its calls fail in turn: each read of a file and of standard input, each write of standard output, each store, and
// each write of the line on standard error.

use super::small::{DATABASE, MODULE, image};
use super::{Ended, Named, PLAIN, Part, Setup, made, outcome};
use std::alloc::{AllocError, Global};

/// The pins of a package, and a pin file for it.
const PACKAGE: &str = ".pins small\nA1 0 1 0\n";

const PINS: &[u8] = b"set_io button A1\n";

/// What the file `out` holds before.
const BEFORE: &[u8] = b"before";

/// Words of a RAM, and other ones.
const RISING: &[u8] = b"0 1 2 3 4 5 6 7 8 9 a b c d e f\n";

/// A layout file.
const LAYOUT: &[u8] = b".layout 1k\nmirror no\n";

/// An image with no set bit.
const BLANK: &[u8] = b".device 1k\n";

const EVENTS: &[u8] = b"io_0_1_0 1\nio_0_1_0 0\n";

/// A list of events of the long form.
const LONG: &[u8] = b"repeat 2\nio_0_1_0 ~ 3\nend\n";

/// A name of a net, and a list of names.
const SYMBOL: &[u8] = b".sym 2 lamp[0]\n";

const NAMES: &[u8] = b"n_2 lamp[0]\n";

/// The files that the jobs read and that are made for them.
#[derive(Drop)]
struct Made {
    image: Vec<u8>,
    stream: Vec<u8>,
    boot: Vec<u8>,
    rising: Vec<u8>,
    falling: Vec<u8>,
    packaged: Vec<u8>,
    symbols: Vec<u8>,
}

/// These bytes, repeated `times` times.
fn repeated(alloc: Global, bytes: &[u8], times: usize) -> Result<Vec<u8>, AllocError> {
    let mut repeated = Vec::new(alloc);
    for _ in 0..times {
        repeated.extend_from_slice(bytes)?;
    }
    Ok(repeated)
}

/// The boot file of one image.
fn boot_of(alloc: Global, stream: &[u8]) -> Result<Vec<u8>, AllocError> {
    let files = [("stream", stream)];
    let setup = Setup {
        files: &files,
        ..PLAIN
    };
    let Ended { output, .. } = outcome(alloc, setup, &["icemulti", "stream"])?;
    Ok(output)
}

/// The database with a package.
fn packaged(alloc: Global) -> Result<Vec<u8>, AllocError> {
    let mut packaged = DATABASE.as_bytes().to_vec(alloc)?;
    packaged.extend_from_slice(PACKAGE.as_bytes())?;
    Ok(packaged)
}

/// An image with a name of a net.
fn with_symbol(alloc: Global, image: &[u8]) -> Result<Vec<u8>, AllocError> {
    let mut symbols = image.to_vec(alloc)?;
    symbols.extend_from_slice(SYMBOL)?;
    Ok(symbols)
}

impl Made {
    fn new(alloc: Global) -> Result<Made, AllocError> {
        let image = image(alloc)?;
        let stream = made(alloc, &["icepack"], &image)?;
        let boot = boot_of(alloc, &stream)?;
        let symbols = with_symbol(alloc, &image)?;
        Ok(Made {
            image,
            stream,
            boot,
            rising: repeated(alloc, RISING, 16)?,
            falling: repeated(alloc, b"f e d c b a 9 8 7 6 5 4 3 2 1 0\n", 16)?,
            packaged: packaged(alloc)?,
            symbols,
        })
    }

    /// The files by their names.
    fn named(&self) -> [Named<'_>; 16] {
        [
            ("out", BEFORE),
            ("image", &self.image),
            ("stream", &self.stream),
            ("blank", BLANK),
            ("boot", &self.boot),
            ("rising", &self.rising),
            ("falling", &self.falling),
            ("A", DATABASE.as_bytes()),
            ("packaged", &self.packaged),
            ("pins", PINS),
            ("layout", LAYOUT),
            ("module", MODULE.as_bytes()),
            ("events", EVENTS),
            ("long", LONG),
            ("symbols", &self.symbols),
            ("names", NAMES),
        ]
    }
}

/// The bytes of the file of this name, or no bytes if there is no such file.
fn bytes_of<'a>(files: &[Named<'a>], name: &str) -> &'a [u8] {
    for file in files {
        if file.0 == name {
            return file.1;
        }
    }
    b""
}

/// How a tool takes its files.
#[derive(Clone, Copy, Debug, PartialEq, Eq)]
enum Way {
    Whole,
    InParts,
}

/// The words, how files are taken, which ones in which order, the file that is standard input, and how many bytes go in one read or write.
type Job = (
    &'static [&'static str],
    Way,
    &'static [&'static str],
    &'static str,
    Part,
);

static JOBS: [Job; 32] = [
    (
        &["icepack", "image", "out"],
        Way::InParts,
        &["image"],
        "",
        Part::Middle,
    ),
    (&["icepack", "-s"], Way::InParts, &[], "image", Part::Middle),
    (
        &["icepack", "--layout", "layout", "image", "out"],
        Way::InParts,
        &["layout", "image"],
        "",
        Part::Middle,
    ),
    (
        &["icepack", "-u", "stream"],
        Way::InParts,
        &["stream"],
        "",
        Part::Large,
    ),
    (
        &["iceunpack", "stream", "out"],
        Way::InParts,
        &["stream"],
        "",
        Part::Large,
    ),
    (&["iceunpack"], Way::InParts, &[], "stream", Part::Large),
    (
        &["icemulti", "-o", "out", "stream", "image"],
        Way::Whole,
        &["stream", "image"],
        "",
        Part::Large,
    ),
    (
        &["icemulti", "image", "stream"],
        Way::Whole,
        &["image", "stream"],
        "",
        Part::Large,
    ),
    (
        &["icesplit", "boot"],
        Way::Whole,
        &["boot"],
        "",
        Part::Small,
    ),
    (
        &["icesplit", "-x", "0", "boot", "out"],
        Way::Whole,
        &["boot"],
        "",
        Part::Large,
    ),
    (
        &["icebram", "rising", "falling"],
        Way::Whole,
        &["rising", "falling"],
        "image",
        Part::Middle,
    ),
    (
        &["icebox_explain", "A", "image"],
        Way::InParts,
        &["A", "image"],
        "",
        Part::Middle,
    ),
    (
        &["icebox_explain", "-t", "1 1", "A"],
        Way::InParts,
        &["A"],
        "image",
        Part::Middle,
    ),
    (
        &["icebox_explain", "--layout", "layout", "A", "stream"],
        Way::InParts,
        &["layout", "A", "stream"],
        "",
        Part::Large,
    ),
    (
        &["icebox_diff", "A", "image", "blank"],
        Way::InParts,
        &["A", "image", "blank"],
        "",
        Part::Middle,
    ),
    (
        &[
            "icebox_diff",
            "-q",
            "--layout",
            "layout",
            "A",
            "stream",
            "stream",
        ],
        Way::InParts,
        &["layout", "A", "stream", "stream"],
        "",
        Part::Large,
    ),
    (
        &["icebox_stat", "A", "image"],
        Way::InParts,
        &["A", "image"],
        "",
        Part::Small,
    ),
    (
        &["icebox_plan", "A", "image"],
        Way::InParts,
        &["A", "image"],
        "",
        Part::Large,
    ),
    (
        &["icebox_plan", "-p", "pins", "-d", "small", "packaged"],
        Way::InParts,
        &["pins", "packaged"],
        "image",
        Part::Large,
    ),
    (
        &["icebox_vlog", "A", "image"],
        Way::InParts,
        &["A", "image"],
        "",
        Part::Small,
    ),
    (
        &["icebox_vlog", "--layout", "layout", "A"],
        Way::InParts,
        &["layout", "A"],
        "image",
        Part::Middle,
    ),
    (
        &["icebox_vlog", "-p", "pins", "-d", "small", "packaged"],
        Way::InParts,
        &["pins", "packaged"],
        "image",
        Part::Middle,
    ),
    (
        &[
            "icebox_vlog",
            "-p",
            "pins",
            "-d",
            "small",
            "--layout",
            "layout",
            "packaged",
            "image",
        ],
        Way::InParts,
        &["layout", "pins", "packaged", "image"],
        "",
        Part::Small,
    ),
    (
        &["icebox_vlog", "--names", "out", "A", "symbols"],
        Way::InParts,
        &["A", "symbols"],
        "",
        Part::Small,
    ),
    (
        &["vlogrun", "module", "events"],
        Way::Whole,
        &["module", "events"],
        "",
        Part::Small,
    ),
    (
        &["vlogrun", "-s", "module"],
        Way::Whole,
        &["module"],
        "events",
        Part::Small,
    ),
    (
        &["vlogrun", "--long", "--changes", "--head", "module"],
        Way::Whole,
        &["module"],
        "long",
        Part::Small,
    ),
    (
        &["vlogrun", "--vcd", "module"],
        Way::Whole,
        &["module"],
        "events",
        Part::Small,
    ),
    (
        &["vlogrun", "--vcd", "--names", "names", "module", "events"],
        Way::Whole,
        &["module", "names", "events"],
        "",
        Part::Small,
    ),
    (
        &["vlogsweep", "module", "events", "events"],
        Way::Whole,
        &["module", "events", "events"],
        "",
        Part::Small,
    ),
    (
        &["vlogsweep", "--long", "--last", "module", "long", "events"],
        Way::Whole,
        &["module", "long", "events"],
        "",
        Part::Small,
    ),
    (
        &["selfrun", "1k", "7", "0"],
        Way::Whole,
        &[],
        "",
        Part::Small,
    ),
];

/// What a job begins with.
fn setup_of<'a>(job: &Job, files: &'a [Named<'a>]) -> Setup<'a> {
    Setup {
        files,
        room: 1_000_000,
        part: job.4,
        input: bytes_of(files, job.3),
        ..PLAIN
    }
}

/// In how many parts these bytes are read.
fn parts_of(bytes: &[u8], part: Part) -> u64 {
    let most = part.most();
    (bytes.len().saturating_add(most - 1) / most) as u64
}

/// How many calls take a file: one that takes it whole, or one for each part and one that finds its end.
fn calls_for(bytes: &[u8], way: Way, part: Part) -> u64 {
    match way {
        Way::Whole => 1,
        Way::InParts => parts_of(bytes, part).saturating_add(1),
    }
}

/// The line on a failure, as `write failed`, of a name.
fn line_on(alloc: Global, job: &Job, failure: &str, name: &str) -> Result<String, AllocError> {
    let tool = job.0.first().copied().unwrap_or("");
    format!(in alloc; "{tool}: {failure}: {name}\n")
}

/// Whether a job ends with this status and the line on this failure of a name, writes nothing, and leaves the file `out` as it was.
fn fails(
    alloc: Global,
    job: &Job,
    setup: Setup<'_>,
    status: u8,
    failure: &str,
    name: &str,
) -> Result<bool, AllocError> {
    let line = line_on(alloc, job, failure, name)?;
    let ended = outcome(alloc, setup, job.0)?;
    Ok(ended.refuses(status, &line) && ended.stored.as_slice() == BEFORE)
}

/// Whether a job is done, and writes and stores what it does if nothing is set to fail.
fn is_done(alloc: Global, job: &Job, setup: Setup<'_>, whole: &Ended) -> Result<bool, AllocError> {
    let ended = outcome(alloc, setup, job.0)?;
    Ok(ended.says(0, "") && ended.output == whole.output && ended.stored == whole.stored)
}

/// Whether a file is stored by a job.
fn is_storing(job: &Job) -> bool {
    job.0.contains(&"out")
}

/// How a file of a job is taken: a layout file is loaded whole before the others, whatever the tool does with those.
fn way_of(job: &Job, name: &str) -> Way {
    if name == "layout" { Way::Whole } else { job.1 }
}

/// The first call of files that comes after the reads of these files, or `None` if a call before it doesn't fail with the name of its file.
fn call_after(
    alloc: Global,
    job: &Job,
    files: &[Named<'_>],
    setup: Setup<'_>,
) -> Result<Option<u64>, AllocError> {
    let mut failing_call = 1u64;
    for name in job.2 {
        for _ in 0..calls_for(bytes_of(files, name), way_of(job, name), job.4) {
            let setup = Setup {
                failing_call,
                ..setup
            };
            if !fails(alloc, job, setup, 3, "read failed", name)? {
                return Ok(None);
            }
            failing_call = failing_call.saturating_add(1);
        }
    }
    Ok(Some(failing_call))
}

/// Whether each call that reads a file ends the job if it fails, and the call after them stores the file `out` or isn't made.
fn calls_fail_in_turn(
    alloc: Global,
    job: &Job,
    files: &[Named<'_>],
    whole: &Ended,
) -> Result<bool, AllocError> {
    let setup = setup_of(job, files);
    let Some(failing_call) = call_after(alloc, job, files, setup)? else {
        return Ok(false);
    };
    let setup = Setup {
        failing_call,
        ..setup
    };
    if is_storing(job) {
        fails(alloc, job, setup, 4, "write failed", "out")
    } else {
        is_done(alloc, job, setup, whole)
    }
}

/// Whether each read of standard input ends the job if it fails, and no more reads are made.
fn reads_fail_in_turn(
    alloc: Global,
    job: &Job,
    files: &[Named<'_>],
    whole: &Ended,
) -> Result<bool, AllocError> {
    let setup = setup_of(job, files);
    let reads = match job.3 {
        "" => 0,
        _ => calls_for(setup.input, Way::InParts, job.4),
    };
    for failing_read in 1..=reads {
        let setup = Setup {
            failing_read,
            ..setup
        };
        if !fails(alloc, job, setup, 3, "read failed", "standard input")? {
            return Ok(false);
        }
    }
    let setup = Setup {
        failing_read: reads.saturating_add(1),
        ..setup
    };
    is_done(alloc, job, setup, whole)
}

/// Whether the answer of a job is made while it is written. Its writes end where its pieces do.
fn is_made_while_written(job: &Job) -> bool {
    job.0.contains(&"iceunpack") || job.0.contains(&"-u") || job.0.contains(&"vlogrun")
}

/// Whether `writes` writes may have taken `bytes` bytes.
fn is_taken(job: &Job, writes: u64, bytes: usize) -> bool {
    let most = (writes as usize).saturating_mul(job.4.most());
    if is_made_while_written(job) {
        bytes >= writes as usize && bytes <= most
    } else {
        bytes == most
    }
}

/// Whether a job has ended with status 4, and standard output has what `writes` writes took. A file that the job stores is whole.
fn is_cut(
    alloc: Global,
    job: &Job,
    ended: &Ended,
    whole: &Ended,
    writes: u64,
) -> Result<bool, AllocError> {
    let line = line_on(alloc, job, "write failed", "standard output")?;
    Ok(
        ended.says(4, &line)
            && is_taken(job, writes, ended.output.len())
            && whole.output.starts_with(&ended.output)
            && ended.stored == whole.stored,
    )
}

/// More writes than any job makes.
const MOST_WRITES: u64 = 10_000;

/// How many writes of standard output a job makes, if each of them ends the job when it fails, and else `None`.
fn writes_that_fail(
    alloc: Global,
    job: &Job,
    setup: Setup<'_>,
    whole: &Ended,
) -> Result<Option<u64>, AllocError> {
    for writes in 0..MOST_WRITES {
        let setup = Setup {
            failing_write: writes.saturating_add(1),
            ..setup
        };
        let ended = outcome(alloc, setup, job.0)?;
        if ended.says(0, "") {
            let is_whole = ended.output == whole.output && ended.stored == whole.stored;
            return Ok(if is_whole { Some(writes) } else { None });
        }
        if !is_cut(alloc, job, &ended, whole, writes)? {
            return Ok(None);
        }
    }
    Ok(None)
}

/// Whether each write of standard output ends the job if it fails.
fn writes_fail_in_turn(
    alloc: Global,
    job: &Job,
    files: &[Named<'_>],
    whole: &Ended,
) -> Result<bool, AllocError> {
    let writes = writes_that_fail(alloc, job, setup_of(job, files), whole)?;
    Ok(match writes {
        Some(writes) => writes >= parts_of(&whole.output, job.4),
        None => false,
    })
}

/// Whether the file `out` has the first `room` bytes if it takes no more.
fn is_stored_in(
    alloc: Global,
    job: &Job,
    setup: Setup<'_>,
    whole: &Ended,
) -> Result<bool, AllocError> {
    let line = line_on(alloc, job, "write failed", "out")?;
    let ended = outcome(alloc, setup, job.0)?;
    Ok(ended.refuses(4, &line) && Some(ended.stored.as_slice()) == whole.stored.get(..setup.room))
}

/// Whether the file `out` has the first bytes of what is stored, if it takes no byte, some bytes, or all but one.
fn stores_fail_in_turn(
    alloc: Global,
    job: &Job,
    files: &[Named<'_>],
    whole: &Ended,
) -> Result<bool, AllocError> {
    if !is_storing(job) {
        return Ok(true);
    }
    let len = whole.stored.len();
    for room in [0, 1, len / 3, len / 2, len.saturating_sub(1)] {
        let setup = Setup {
            room,
            ..setup_of(job, files)
        };
        if !is_stored_in(alloc, job, setup, whole)? {
            return Ok(false);
        }
    }
    Ok(true)
}

/// Which calls of a job fail in turn.
#[derive(Clone, Copy, Debug, PartialEq, Eq)]
enum Turn {
    Calls,
    Reads,
    Writes,
    Stores,
}

/// Whether these calls of a job fail in turn.
fn fail_in_turn(
    alloc: Global,
    turn: Turn,
    job: &Job,
    files: &[Named<'_>],
) -> Result<bool, AllocError> {
    let whole = outcome(alloc, setup_of(job, files), job.0)?;
    if !whole.says(0, "") {
        return Ok(false);
    }
    match turn {
        Turn::Calls => calls_fail_in_turn(alloc, job, files, &whole),
        Turn::Reads => reads_fail_in_turn(alloc, job, files, &whole),
        Turn::Writes => writes_fail_in_turn(alloc, job, files, &whole),
        Turn::Stores => stores_fail_in_turn(alloc, job, files, &whole),
    }
}

/// The words of the first job whose calls of this kind don't fail in turn, or `None`.
fn first_that_differs(
    alloc: Global,
    turn: Turn,
) -> Result<Option<&'static [&'static str]>, AllocError> {
    let made = Made::new(alloc)?;
    let files = made.named();
    for job in &JOBS {
        if !fail_in_turn(alloc, turn, job, &files)? {
            return Ok(Some(job.0));
        }
    }
    Ok(None)
}

#[test]
fn tells_which_file_fails(rt: HostRuntime) {
    assert_eq!(rt; first_that_differs(rt.alloc(), Turn::Calls), Ok(None));
}

#[test]
fn tells_that_standard_input_fails(rt: HostRuntime) {
    assert_eq!(rt; first_that_differs(rt.alloc(), Turn::Reads), Ok(None));
}

#[test]
fn leaves_what_each_write_took(rt: HostRuntime) {
    assert_eq!(rt; first_that_differs(rt.alloc(), Turn::Writes), Ok(None));
}

#[test]
fn leaves_what_a_file_has_room_for(rt: HostRuntime) {
    assert_eq!(rt; first_that_differs(rt.alloc(), Turn::Stores), Ok(None));
}

/// The first words of command lines that aren't taken.
static TOOLS: [&str; 13] = [
    "icepack",
    "iceunpack",
    "icemulti",
    "icesplit",
    "icebram",
    "icebox_explain",
    "icebox_diff",
    "icebox_stat",
    "icebox_plan",
    "icebox_vlog",
    "vlogrun",
    "vlogsweep",
    "selfrun",
];

/// Whether the status is 2 if `writes` writes of the line are made and the next one fails.
fn keeps_usage_error(alloc: Global, tool: &str, writes: usize) -> Result<bool, AllocError> {
    let setup = Setup {
        failing_line: (writes as u64).saturating_add(1),
        ..PLAIN
    };
    let words = [tool, "-x"];
    let whole = outcome(alloc, PLAIN, &words)?;
    let ended = outcome(alloc, setup, &words)?;
    let told = ended.errors.len();
    let is_cut = told >= writes && told <= writes.saturating_mul(7);
    Ok(
        ended.status == 2
            && is_cut
            && whole.errors.starts_with(&ended.errors)
            && ended.output.is_empty(),
    )
}

#[test]
fn keeps_the_status_where_no_line_is_told(rt: HostRuntime) {
    for tool in &TOOLS {
        for writes in 0..4 {
            assert_eq!(rt;
                keeps_usage_error(rt.alloc(), tool, writes),
                Ok(true),
                "of {tool:?}"
            );
        }
    }
}

/// A standard error that takes the first 14 bytes of a line.
const SHORT: Setup<'static> = Setup {
    failing_line: 4,
    ..PLAIN
};

/// Whether a text is refused with status 1 and the first words of the line.
fn keeps_refusal(alloc: Global) -> Result<bool, AllocError> {
    let ended = outcome(alloc, SHORT, &["icepack"])?;
    Ok(ended.refuses(1, "icepack: line "))
}

#[test]
fn keeps_the_status_where_the_line_is_cut(rt: HostRuntime) {
    assert!(rt; keeps_refusal(rt.alloc()) == Ok(true));
}

/// Whether a run of a module is done, with its lines.
fn runs_a_module(alloc: Global) -> Result<bool, AllocError> {
    let files = [("module", MODULE.as_bytes()), ("events", EVENTS)];
    let setup = Setup {
        files: &files,
        ..PLAIN
    };
    let ended = outcome(alloc, setup, &["vlogrun", "module", "events"])?;
    Ok(ended.says(0, "") && ended.output.as_slice() == b"1\n0\n1\n".as_slice())
}

#[test]
fn runs_a_tool(rt: HostRuntime) {
    assert!(rt; runs_a_module(rt.alloc()) == Ok(true));
}
