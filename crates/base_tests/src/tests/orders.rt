// The order in which a run loads and stores files, and how often it does.
ghost use Rattle.std.specs.Prelude.{◌≡◌, ◌∷◌, [], codes, if◌then◌else◌, IfOk, IfErr};
ghost use Rattle.tool_run.specs.Tasks.{Done, Refused};
ghost use Rattle.tool_run.specs.Stops.{StopsWith};

use ice_io::{Failed, Files, MemFiles, MemSink, MemSource, NamedFile, StoreFault, TakeFault};
use std::alloc::{AllocError, Global};
use tool_run::{FilesAndStreams, Host, Job, Load, PieceTool, Refusal, Stop, Tool, text};

/// Files that log each call: `l` for a load, `p` for the first part of a load in pieces and `s` for a store, each with the name. They have
/// only the three calls that are required of files.
#[derive(Drop)]
struct Watched<F: Files> {
    files: F,
    calls: Vec<u8>,
}

impl<F: Files> Watched<F> {
    // A call that couldn't be logged because memory is out is missing at the end.
    fn note(&mut self, call: &str, name: &str)
        ensures { self.new.files ≡ self.old.files }
    {
        let _ = self.calls.extend_from_slice(call.as_bytes());
        let _ = self.calls.extend_from_slice(name.as_bytes());
    }
}

impl<F: Files> Files for Watched<F> {
    ghost contents = { λ watched. F.contents watched.files };

    ghost steady = { λ watched. F.steady watched.files };

    ghost load_faults = { λ watched. F.load_faults watched.files };

    ghost store_faults = { λ watched. F.store_faults watched.files };

    ghost bytes_read = { λ watched. F.bytes_read watched.files };

    ghost stores = { λ watched. F.stores watched.files };

    fn load(&mut self, alloc: Global, name: &str, limit: usize) -> Result<Vec<u8>, TakeFault> {
        self.note(" l ", name);
        self.files.load(alloc, name, limit)
    }

    fn read_at(&mut self, name: &str, at: u64, into: &mut [u8]) -> Result<usize, Failed> {
        if at == 0 {
            self.note(" p ", name);
        }
        self.files.read_at(name, at, into)
    }

    fn store(&mut self, name: &str, bytes: &[u8]) -> Result<(), StoreFault> {
        self.note(" s ", name);
        self.files.store(name, bytes)
    }
}

/// Makes one byte of whatever it loads, or refuses it.
#[derive(Clone, Copy)]
struct Stamp {
    refuses: bool,
}

/// The answer of a stamp.
fn stamp_answer(alloc: Global, refuses: bool) -> Result<Vec<u8>, Stop<'static>>
    ensures bytes { IfOk result (λ made. (if refuses then Refused (codes "no") else Done (33 ∷ [])) ≡ Done made.items) }
    ensures stops { IfErr result (StopsWith (if refuses then Refused (codes "no") else Done (33 ∷ []))) }
{
    if refuses {
        return Err(Stop::Refused(Refusal {
            file: None,
            first: text("no"),
            second: text(""),
            third: text(""),
            fourth: text(""),
        }));
    }
    Ok(Vec::from_slice(alloc, b"!")?)
}

impl Tool for Stamp {
    ghost use Rattle.std.specs.Prelude.{◌∷◌, [], codes, if◌then◌else◌};
    ghost use Rattle.tool_run.specs.Tasks.{Done, Refused};

    ghost answer_of = { λ tool texts. if tool.refuses then Refused (codes "no") else Done (33 ∷ []) };

    type Made = Vec<u8>;

    fn answer(&self, alloc: Global, _loaded: &Vec<Vec<u8>>) -> Result<Vec<u8>, Stop> {
        stamp_answer(alloc, self.refuses)
    }
}

impl PieceTool for Stamp {
    ghost use Rattle.std.specs.Prelude.{◌∷◌, [], codes, if◌then◌else◌};
    ghost use Rattle.tool_run.specs.Tasks.{Done, Refused};

    type Intake = bool;

    type Made = Vec<u8>;

    ghost answer_of = { λ tool layout texts. if tool.refuses then Refused (codes "no") else Done (33 ∷ []) };

    ghost takes = { λ tool layout texts intake bytes. Unit {0} };

    ghost fed = { λ intake. 0 };

    fn begin(&self, _alloc: Global, _layout: Option<&[u8]>) -> Result<bool, Stop<'static>> {
        Ok(false)
    }

    fn feed(&self, intake: &mut bool, piece: &[u8]) {
        *intake |= !piece.is_empty();
    }

    fn close(&self, _intake: &mut bool) {}

    fn finish(&self, alloc: Global, _intake: bool) -> Result<Vec<u8>, Stop> {
        stamp_answer(alloc, self.refuses)
    }
}

/// What each file has: 24 bytes.
const CONTENT: &[u8] = b"twenty-four bytes in all";

/// A file with this name.
fn file(alloc: Global, name: &str) -> Result<NamedFile, AllocError> {
    let name = String::from_str(alloc, name)?;
    let bytes = CONTENT.to_vec(alloc)?;
    Ok(NamedFile { name, bytes })
}

/// The files `a` and `b`, and room for a file `out`.
fn watched_files(alloc: Global, room: usize) -> Result<Watched<MemFiles>, AllocError> {
    let mut files = Vec::new(alloc);
    files.push(file(alloc, "a")?)?;
    files.push(file(alloc, "b")?)?;
    Ok(Watched {
        files: MemFiles::new(alloc, files, "out", room, 99, Vec::new(alloc))?,
        calls: Vec::new(alloc),
    })
}

/// A run over two files into a third one; the second input has this limit.
#[derive(Clone, Copy)]
struct Run {
    first: &'static str,
    second: &'static str,
    limit: u32,
    target: &'static str,
    refuses: bool,
    room: usize,
}

/// A run over `a` and `b` that is done.
const DONE: Run = Run {
    first: "a",
    second: "b",
    limit: 99,
    target: "out",
    refuses: false,
    room: 99,
};

/// Whether the run has this status, and makes exactly these calls.
fn calls_are(
    alloc: Global,
    run: Run,
    in_pieces: bool,
    status: u8,
    calls: &str,
) -> Result<bool, AllocError> {
    let mut host = FilesAndStreams {
        files: watched_files(alloc, run.room)?,
        input: MemSource::new(Vec::new(alloc), 1, Vec::new(alloc)),
        output: MemSink::new(alloc, 0, 1, Vec::new(alloc))?,
        errors: MemSink::new(alloc, 80, 80, Vec::new(alloc))?,
    };
    let loads = [
        Load {
            name: Some(run.first),
            limit: 99,
        },
        Load {
            name: Some(run.second),
            limit: run.limit as usize,
        },
    ];
    let job = Job {
        tool_name: "stamp",
        loads: &loads,
        target: Some(run.target),
    };
    let tool = Stamp {
        refuses: run.refuses,
    };
    let done = if in_pieces {
        host.perform_in_pieces(alloc, &tool, None, &job)
    } else {
        host.perform(alloc, &tool, &job)
    };
    Ok(done == status && host.files.calls.as_slice() == calls.as_bytes())
}

/// A run, its status, and its calls if files are loaded whole, and if they are taken in pieces.
type Case = (Run, u8, &'static str, &'static str);

static CASES: [Case; 6] = [
    (DONE, 0, " l a l b s out", " p a p b s out"),
    (
        Run {
            second: "a",
            ..DONE
        },
        0,
        " l a l a s out",
        " p a p a s out",
    ),
    (
        Run {
            second: "x",
            ..DONE
        },
        3,
        " l a l x",
        " p a p x",
    ),
    (Run { limit: 1, ..DONE }, 6, " l a l b", " p a p b"),
    (
        Run {
            refuses: true,
            ..DONE
        },
        1,
        " l a l b",
        " p a p b",
    ),
    (
        Run { room: 0, ..DONE },
        4,
        " l a l b s out",
        " p a p b s out",
    ),
];

/// The calls of the first run that has another status or makes other calls, or `None`.
fn first_that_differs(alloc: Global, in_pieces: bool) -> Result<Option<&'static str>, AllocError> {
    for (run, status, whole, parts) in &CASES {
        let calls = if in_pieces { *parts } else { *whole };
        if !calls_are(alloc, *run, in_pieces, *status, calls)? {
            return Ok(Some(calls));
        }
    }
    Ok(None)
}

#[test]
fn files_are_loaded_in_their_order_and_stored_once(rt: HostRuntime) {
    assert_eq!(rt; first_that_differs(rt.alloc(), false), Ok(None));
    assert_eq!(rt; first_that_differs(rt.alloc(), true), Ok(None));
}
