// Wires over one list of bits (cells): the bits of names, then the bits of words, then 0 and 1.
ghost use Rattle.std.specs.Prelude.{◌≡◌, ◌<◌, ◌^◌, ◌+◌, ◌*◌, length, map, IfOk};
ghost use Rattle.vlog_semantics.specs.Cells.{gate_cells, gate_of, gate_table, operand_cell};

use crate::plan::{Operand, Rule, Wire};
use std::alloc::{AllocError, Global};

/// A wire as a LUT: its cell, its fan-in (the cells that it reads, the lowest bit of the index first), and its truth table.
#[derive(Clone, Copy)]
pub struct Gate {
    pub slot: usize,
    pub ins: [usize; 4],
    pub table: u16,
}

/// Room for the cells of these bits and words.
pub(crate) fn cells_room(
    alloc: Global,
    bits: &[bool],
    words: &[u16],
) -> Result<Vec<bool>, AllocError>
    ensures { IfOk result (λ cells. length cells.items ≡ length bits.now + 16 * length words.now + 2) }
{
    let mut cells = Vec::from_slice(alloc, bits)?;
    for word in words {
        cells.extend_from_slice(&[*word > 0; 16])?;
    }
    cells.extend_from_slice(&[false, true])?;
    Ok(cells)
}

/// The cell of an operand.
pub fn operand_cell(bits: usize, words: usize, operand: Operand) -> usize
    requires { bits + 16 * words + 2 < 2 ^ 64 }
    ensures { result ≡ operand_cell bits words operand }
{
    let zero = bits + 16 * words;
    match operand {
        Operand::Constant(bit) => if bit { zero + 1 } else { zero },
        Operand::Slot(slot) => if slot < bits { slot } else { zero },
        Operand::Part { word, k } => {
            if word < words && k < 16 {
                bits + 16 * word + usize::from(k)
            } else {
                zero
            }
        }
    }
}

/// The cells of four operands.
fn operand_cells(bits: usize, words: usize, operands: &[Operand; 4]) -> [usize; 4]
    requires { bits + 16 * words + 2 < 2 ^ 64 }
    ensures { result ≡ map (operand_cell bits words) operands.now }
{
    [
        operand_cell(bits, words, operands[0]),
        operand_cell(bits, words, operands[1]),
        operand_cell(bits, words, operands[2]),
        operand_cell(bits, words, operands[3]),
    ]
}

/// The fan-in of a right side: the cells that it reads.
fn gate_cells(bits: usize, words: usize, rule: &Rule) -> [usize; 4]
    requires { bits + 16 * words + 2 < 2 ^ 64 }
    ensures { result ≡ gate_cells bits words rule.now }
{
    let zero = bits + 16 * words;
    match rule {
        Rule::Copy(operand) => [operand_cell(bits, words, *operand), zero, zero, zero],
        Rule::Lookup(table) => operand_cells(bits, words, &table.ins),
        Rule::Majority { a, b, c } => [
            operand_cell(bits, words, *a),
            operand_cell(bits, words, *b),
            operand_cell(bits, words, *c),
            zero,
        ],
        Rule::Choose { reset, target, .. } => [
            operand_cell(bits, words, *reset),
            operand_cell(bits, words, *target),
            zero,
            zero,
        ],
    }
}

/// The truth table of a right side.
fn gate_table(rule: &Rule) -> u16
    ensures { result ≡ gate_table rule.now }
{
    match rule {
        Rule::Copy(_) => 2,
        Rule::Lookup(table) => table.word,
        Rule::Majority { .. } => 232,
        Rule::Choose { set, .. } => if *set { 14 } else { 4 },
    }
}

/// A wire over cells.
fn gate_of(bits: usize, words: usize, wire: &Wire) -> Gate
    requires { bits + 16 * words + 2 < 2 ^ 64 }
    ensures { result ≡ gate_of bits words wire.now }
{
    Gate {
        slot: wire.slot,
        ins: gate_cells(bits, words, &wire.rule),
        table: gate_table(&wire.rule),
    }
}

/// Wires over the cells of this many bits and words.
pub(crate) fn gates_of(
    alloc: Global,
    bits: usize,
    words: usize,
    wires: &[Wire],
) -> Result<Vec<Gate>, AllocError>
    requires { bits + 16 * words + 2 < 2 ^ 64 }
    ensures { IfOk result (λ gates. gates.items ≡ map (gate_of bits words) wires.now) }
{
    let mut gates = Vec::new(alloc);
    for wire in wires {
        gates.push(gate_of(bits, words, wire))?;
    }
    Ok(gates)
}
