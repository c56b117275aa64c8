// A database read from a source and from a file.
ghost use Rattle.std.specs.Prelude.{◌<◌, ◌^◌};

use chipdb_reader::{ChipDb, SourceDbFault, read_file, read_from};
use ice_io::{MemFiles, MemSource, NamedFile};
use std::alloc::{AllocError, Global};

/// A cell between two pins, and a buffer from the first pin to the cell.
const CELL: &[u8] = b".device 1k 14 18 6
.net 0
0 1 io_0/D_IN_0
.net 1
1 1 lutff_0/in_0
.net 2
1 1 lutff_0/out
.buffer 1 1 1 B2[0]
1 0
";

/// Whether a database has the nets and the buffer of the text.
fn has_nets(db: &ChipDb) -> bool {
    db.net_count() == 6
        && db.net_of(1, 1, b"lutff_0/out") == Some(2)
        && db.net_of(1, 2, b"lutff_0/out").is_none()
        && db.buffers().len() == 1
}

/// Whether a source gives the database.
fn is_read_from(alloc: Global, source: &mut MemSource, limit: usize) -> Result<bool, SourceDbFault>
    requires { limit < 2 ^ 32 }
{
    match read_from(alloc, source, limit) {
        Err(fault) => Err(fault),
        Ok(db) => Ok(has_nets(&db)),
    }
}

/// The text, from a source that gives one byte a call; the listed reads fail.
fn source_of(alloc: Global, failing: &[u64]) -> Result<MemSource, AllocError> {
    Ok(MemSource::new(CELL.to_vec(alloc)?, 1, failing.to_vec(alloc)?))
}

/// Whether the source gives the database, or its fault.
fn source_is_read(alloc: Global, failing: &[u64]) -> Result<bool, SourceDbFault> {
    match source_of(alloc, failing) {
        Err(e) => Err(SourceDbFault::Memory(e)),
        Ok(mut source) => is_read_from(alloc, &mut source, 10_000),
    }
}

#[test]
fn reads_a_source(rt: HostRuntime) {
    assert!(rt; source_is_read(rt.alloc(), &[]) == Ok(true));
    assert!(rt; source_is_read(rt.alloc(), &[3]) == Err(SourceDbFault::Failed));
}

/// The text in a file `db`.
fn file_of(alloc: Global) -> Result<NamedFile, AllocError> {
    let name = String::from_str(alloc, "db")?;
    let bytes = CELL.to_vec(alloc)?;
    Ok(NamedFile { name, bytes })
}

/// That file, from which a call reads seven bytes.
fn files_of(alloc: Global) -> Result<MemFiles, AllocError> {
    let mut files = Vec::new(alloc);
    files.push(file_of(alloc)?)?;
    MemFiles::new(alloc, files, "out", 1, 7, Vec::new(alloc))
}

/// Whether a file has the database.
fn is_read_in(alloc: Global, files: &mut MemFiles, name: &str) -> Result<bool, SourceDbFault> {
    match read_file(alloc, files, name, 10_000) {
        Err(fault) => Err(fault),
        Ok(db) => Ok(has_nets(&db)),
    }
}

/// Whether a file of this name has the database, or the fault of reading it.
fn file_is_read(alloc: Global, name: &str) -> Result<bool, SourceDbFault> {
    match files_of(alloc) {
        Err(e) => Err(SourceDbFault::Memory(e)),
        Ok(mut files) => is_read_in(alloc, &mut files, name),
    }
}

#[test]
fn reads_a_file(rt: HostRuntime) {
    assert!(rt; file_is_read(rt.alloc(), "db") == Ok(true));
    assert!(rt; file_is_read(rt.alloc(), "other") == Err(SourceDbFault::Failed));
}
