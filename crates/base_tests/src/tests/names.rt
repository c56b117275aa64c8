// Names in an arena and in a table, as long as a chunk of memory and longer.

use name_arena::{NameArena, NameId, NameTable};
use std::alloc::{AllocError, Global};

/// As many bytes as a chunk has room for.
const CHUNK: usize = 65_536;

/// Bytes of that length, of which neighbours differ.
fn some_bytes(alloc: Global, count: usize) -> Result<Vec<u8>, AllocError> {
    let mut bytes = Vec::with_capacity(alloc, count)?;
    for place in 0..count {
        bytes.push((place % 251) as u8)?;
    }
    Ok(bytes)
}

/// Pushes the same name up to that many times.
fn push_each(
    names: &mut NameArena,
    ids: &mut Vec<NameId>,
    name: &[u8],
    count: u32,
) -> Result<(), AllocError> {
    for _ in 0..count {
        if names.len() < 1_000_000 {
            ids.push(names.push(name)?)?;
        }
    }
    Ok(())
}

/// Whether each of these names is that one.
fn is_each(names: &NameArena, ids: &[NameId], name: &[u8]) -> bool {
    ids.iter()
        .all(|id| names.has(*id) && names.get(*id) == name)
}

/// Whether that many names of that many bytes are all found again.
fn keeps_names(alloc: Global, count: u32, bytes: usize) -> Result<bool, AllocError> {
    let name = some_bytes(alloc, bytes)?;
    let mut names = NameArena::new(alloc);
    let mut ids = Vec::with_capacity(alloc, count as usize)?;
    push_each(&mut names, &mut ids, &name, count)?;
    Ok(names.len() == count as usize && ids.len() == names.len() && is_each(&names, &ids, &name))
}

#[test]
fn names_of_each_length_are_got_again(rt: HostRuntime) {
    for bytes in [0, CHUNK, CHUNK + 1] {
        assert!(rt; keeps_names(rt.alloc(), 3, bytes) == Ok(true));
    }
}

#[test]
fn names_of_a_chunk_each_are_got_again(rt: HostRuntime) {
    assert!(rt; keeps_names(rt.alloc(), 64, CHUNK) == Ok(true));
}

#[test]
fn names_of_one_byte_are_got_again(rt: HostRuntime) {
    assert!(rt; keeps_names(rt.alloc(), 1_000, 1) == Ok(true));
}

/// Adds the prefixes of these bytes to a table, the shortest one first.
fn push_beginnings(table: &mut NameTable, bytes: &[u8]) -> Result<(), AllocError> {
    for count in 0..bytes.len() {
        if table.len() < 1_000_000 {
            table.push(&bytes[..count])?;
        }
    }
    Ok(())
}

/// Whether a name is found at a place.
fn is_found(table: &NameTable, name: &[u8], place: usize) -> bool {
    match table.find(name) {
        None => false,
        Some(id) => id.place() == place && table.has(id) && table.get(id) == name,
    }
}

/// Whether each prefix of these bytes is found at its place.
fn is_each_found(table: &NameTable, bytes: &[u8]) -> bool {
    for place in 0..bytes.len() {
        if !is_found(table, &bytes[..place], place) {
            return false;
        }
    }
    true
}

/// Whether the prefixes of that many bytes are found. All of the bytes together weren't added, and must not be found.
fn finds_beginnings(alloc: Global, count: usize) -> Result<bool, AllocError> {
    let bytes = some_bytes(alloc, count)?;
    let mut table = NameTable::new(alloc);
    push_beginnings(&mut table, &bytes)?;
    Ok(is_each_found(&table, &bytes) && table.find(&bytes).is_none())
}

#[test]
fn names_are_found_again(rt: HostRuntime) {
    assert!(rt; finds_beginnings(rt.alloc(), 2_500) == Ok(true));
}
