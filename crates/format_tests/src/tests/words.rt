// Replacing memory words in a text, and how many columns of RAMs were found, which no tool prints.

use bram_replace::{HexFault, HexFile, replace};
use std::alloc::{AllocError, Global};

/// A line of words of a file, one digit each: they rise from 0, or fall from 15.
const RISING_WORDS: &str = "0 1 2 3 4 5 6 7 8 9 a b c d e f\n";

const FALLING_WORDS: &str = "f e d c b a 9 8 7 6 5 4 3 2 1 0\n";

/// A line of a RAM that has these words.
const RISING: &str = "000f000e000d000c000b000a0009000800070006000500040003000200010000\n";

const FALLING: &str = "0000000100020003000400050006000700080009000a000b000c000d000e000f\n";

/// The lines before those of a RAM.
const HEAD: &str = ".device 1k\n.ram_data 3 1\n";

/// A line sixteen times, after a head.
fn sixteen(alloc: Global, head: &str, line: &str) -> Result<Vec<u8>, AllocError> {
    let mut text = head.as_bytes().to_vec(alloc)?;
    for _ in 0..16 {
        text.extend_from_slice(line.as_bytes())?;
    }
    Ok(text)
}

/// Reads a file of words, of a few bytes.
fn read(alloc: Global, bytes: &[u8]) -> Result<HexFile, HexFault> {
    if bytes.len() <= 16_777_216 {
        HexFile::read(alloc, bytes)
    } else {
        Err(HexFault::Depth)
    }
}

/// A file of 256 words, sixteen on each line.
fn file(alloc: Global, line: &str) -> Result<HexFile, HexFault> {
    read(alloc, &sixteen(alloc, "", line)?)
}

/// Whether replacing rising words by falling ones gives `expected`, with each column found once.
fn is_replaced(alloc: Global, asc: &[u8], expected: &[u8]) -> Result<bool, HexFault> {
    let from = file(alloc, RISING_WORDS)?;
    let to = file(alloc, FALLING_WORDS)?;
    Ok(match replace(alloc, asc, &from, &to) {
        Ok(answer) => answer.bytes.as_slice() == expected
            && answer.found.as_slice() == [1, 1, 1, 1].as_slice(),
        Err(_) => false,
    })
}

/// Whether the words of a RAM are replaced.
fn ram_is_replaced(alloc: Global) -> Result<bool, HexFault> {
    let rising = sixteen(alloc, HEAD, RISING)?;
    let falling = sixteen(alloc, HEAD, FALLING)?;
    is_replaced(alloc, &rising, &falling)
}

#[test]
fn replaces_the_words_of_a_ram(rt: HostRuntime) {
    assert!(rt; ram_is_replaced(rt.alloc()) == Ok(true));
}
