// Files of memory words.
ghost use Rattle.std.specs.Prelude.{◌≡◌, ◌≤◌, ◌<◌, ◌^◌, ℕ, List, length, map, None, IfOk, OnOk, IfErr};
ghost use Rattle.bram_replace.specs.HexText.{is_depth};

use crate::columns::{Column, column_of};
use crate::fault::HexFault;
use crate::hex_words::{Words, before_comment};
use std::alloc::Global;
use std::marker::Model;
use text_lines::first_line;

/// How many bits a digit has.
const DIGIT_BITS: usize = 4;

/// How many words a block has.
const BLOCK_WORDS: usize = 256;

/// A file of memory words, all with one number of hexadecimal digits.
///
/// Contracts see the number of digits and the list of words, each word the list of its bits, the lowest first.
#[derive(Drop)]
pub struct HexFile {
    digits: usize,
    /// The bits of the words, one word after the other.
    bits: Vec<bool>,
}

impl Model for HexFile {
    ghost use Rattle.bram_replace.specs.HexText.{Contents};
    ghost use Rattle.bram_replace.specs.Collected.{IsMemory, memory_of};

    ghost Value = { Contents };

    ghost view = { λ file. memory_of file.digits file.bits.items };

    ghost invariant = { λ file. IsMemory file.digits file.bits.items };
}

impl HexFile {
    ghost use Rattle.bram_replace.specs.HexText.{bits_in, contents_of, depth_cause, digits_set, hex_fault_of, TellsHex};
    ghost use Rattle.bram_replace.specs.Collected.{Holds, IsWidth};
    ghost use Rattle.bram_replace.specs.Columns.{column_at, column_bit, column_count};
    ghost use Rattle.bram_replace.specs.Packed.{packed};

    /// The words of a text. Spaces, tabs, CRs and line ends separate words, underscores between digits don't count, and two slashes begin a
    /// comment.
    ///
    /// # Errors
    /// `HexFault::Digit` or `HexFault::Width` for the first faulty line; `HexFault::Depth` if no line is faulty, and the number of words is
    /// 0 or no multiple of 256; `HexFault::Memory` if memory is out.
    pub fn read(alloc: Global, bytes: &[u8]) -> Result<HexFile, HexFault>
        requires { length bytes.now ≤ 16777216 }
        ensures read { IfOk result (λ file. file ≡ contents_of bytes.now) }
        ensures accepted { OnOk result (hex_fault_of bytes.now ≡ None) }
        ensures refused { IfErr result (TellsHex (hex_fault_of bytes.now)) }
    {
        let mut words = Words::new(alloc);
        let mut left = bytes;
        let mut count = 0;
        while let Some(line) = first_line(left) {
            words.take_line(count + 1, before_comment(line.content))?;
            count += 1;
            left = line.rest;
        }
        HexFile::of(words)
    }

    /// The file of all words of a text.
    fn of(words: Words) -> Result<HexFile, HexFault>
        requires width { IsWidth words.digits }
        requires room { length words.bits.items ≤ 2 ^ 26 }
        ensures read { (all : List (List ℕ)) → Holds all words.digits words.bits.items
            → IfOk result (λ file. file ≡ record { digits = digits_set all; words = map bits_in all }) }
        ensures accepted { (all : List (List ℕ)) → Holds all words.digits words.bits.items → OnOk result (depth_cause (length all) ≡ None) }
        ensures refused { (all : List (List ℕ)) → Holds all words.digits words.bits.items → IfErr result (TellsHex (depth_cause (length all))) }
    {
        let Words { digits, bits } = words;
        match digits {
            None => Err(HexFault::Depth),
            Some(digits) => {
                if !is_depth(bits.len() / (DIGIT_BITS * digits)) {
                    return Err(HexFault::Depth);
                }
                Ok(HexFile { digits, bits })
            }
        }
    }

    /// How many digits each word has.
    pub(crate) fn digits(&self) -> usize
        ensures { result ≡ self.now.digits }
    {
        self.digits
    }

    /// How many words there are.
    pub(crate) fn word_count(&self) -> usize
        ensures { result ≡ length self.now.words }
    {
        self.bits.len() / (DIGIT_BITS * self.digits)
    }

    /// How many columns there are: one for each bit of each block of 256 words.
    pub(crate) fn column_count(&self) -> usize
        ensures is { result ≡ column_count self.now }
        ensures small { result < 2 ^ 32 }
    {
        self.word_count() / BLOCK_WORDS * (DIGIT_BITS * self.digits)
    }

    /// The bit of a column in one of the 256 words of its block.
    pub(crate) fn column_bit(&self, column: usize, word: usize) -> bool
        requires column { column < column_count self.now }
        requires word { word < 256 }
        ensures { result ≡ column_bit self.now column word }
    {
        let width = DIGIT_BITS * self.digits;
        let bits = self.bits.as_slice();
        let row = BLOCK_WORDS * (column / width) + word;
        let at = row * width + column % width;
        bits[at]
    }

    /// A column as four numbers.
    pub(crate) fn column(&self, column: usize) -> Column
        requires { column < column_count self.now }
        ensures { result ≡ packed (column_bit self.now column) }
    {
        let width = DIGIT_BITS * self.digits;
        column_of(
            self.bits.as_slice(),
            BLOCK_WORDS * (column / width) * width + column % width,
            width,
        )
    }
}

/// Whether `count` words are complete blocks of 256 words, at least one.
fn is_depth(count: usize) -> bool
    ensures { result ≡ is_depth count }
{
    count != 0 && count % BLOCK_WORDS == 0
}
