// Real files and pipes, read at any place: what no contract can say of them.

use ice_io::{DirFiles, Failed, Files};
use std::io::{Error, PipeReader, Write};
use std::os::fd::AsRawFd;
use std::test::Fail;
use std::{fs, io, rt};

/// Where a read begins, and the bytes that it gives, at most three; or `None` if it fails.
type Reading = (u64, Option<&'static [u8]>);

/// Whether a read at a place gives these bytes.
fn is_read<F: Files>(files: &mut F, name: &str, at: u64, want: Option<&[u8]>) -> bool {
    let mut part = [0; 3];
    match files.read_at(name, at, &mut part) {
        Ok(count) => part.get(..count) == want,
        Err(Failed) => want.is_none(),
    }
}

/// Whether reads of a file, one after the other, give these bytes.
fn are_read<F: Files>(files: &mut F, name: &str, readings: &[Reading]) -> bool {
    for (at, want) in readings {
        if !is_read(files, name, *at, *want) {
            return false;
        }
    }
    true
}

/// Two files with names of one length.
const FIRST: &str = "ice_io_first_of_two";

const OTHER: &str = "ice_io_other_of_two";

/// Reads of the first file: on, back, past its end, at its end twice, and beyond.
const ANY_PLACE: [Reading; 8] = [
    (0, Some(b"abc")),
    (3, Some(b"def")),
    (1, Some(b"bcd")),
    (4, Some(b"efg")),
    (7, Some(b"")),
    (5, Some(b"fg")),
    (7, Some(b"")),
    (9, Some(b"")),
];

/// Whether both files are read at any place, by turns.
fn are_both_read<F: Files>(files: &mut F) -> bool {
    files.store(FIRST, b"abcdefg").is_ok()
        && files.store(OTHER, b"uvwxyz").is_ok()
        && are_read(files, FIRST, &ANY_PLACE)
        && are_read(files, OTHER, &[(3, Some(b"xyz"))])
        && are_read(files, FIRST, &[(3, Some(b"def"))])
}

#[test]
fn real_files_are_read_at_any_place(rt: HostRuntime) -> Result<(), Fail> {
    let mut files = DirFiles::new(&rt);
    let are = are_both_read(&mut files);
    fs::remove_file(&rt, FIRST)?;
    fs::remove_file(&rt, OTHER)?;
    assert!(rt; are);
    Ok(())
}

/// Reads of a pipe: each goes on where the last one ended, and none goes back.
const IN_ORDER: [Reading; 4] = [
    (0, Some(b"abc")),
    (3, Some(b"def")),
    (6, Some(b"g")),
    (6, None),
];

/// A pipe that holds these bytes, and to which nobody writes any more.
fn pipe_with<R: rt::Files>(rt: &R, bytes: &[u8]) -> Result<PipeReader, Error> {
    let (reader, mut writer) = io::pipe(rt)?;
    writer.write_all(bytes)?;
    Ok(reader)
}

#[test]
fn a_pipe_is_read_in_pieces_by_one_open_file(rt: HostRuntime) -> Result<(), Fail> {
    let reader = pipe_with(&rt, b"abcdefg")?;
    let name = format!(in rt.alloc(); "/dev/fd/{}", reader.as_raw_fd())?;
    let mut files = DirFiles::new(&rt);
    assert!(rt; are_read(&mut files, &name, &IN_ORDER));
    Ok(())
}
