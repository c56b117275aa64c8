// Items over cells: each operand is a cell that is no alias. There are `bits` names of one bit and `words` registers of 16 bits.
ghost use Rattle.std.specs.Prelude.{◌≡◌, ◌<◌, ◌+◌, ◌*◌, ◌^◌, IfOk, map};
ghost use Rattle.vlog_engine.specs.Flips.{flip_flop};
ghost use Rattle.vlog_engine.specs.Resolved.{cell_of, resolved, resolved_field, resolved_flip, resolved_gate, resolved_kept, resolved_port, resolved_read, resolved_settle, resolved_taken, resolved_write};

use crate::flips::Flip;
use crate::roots::root;
use vlog_semantics::{
    Field, FlipFlop, Gate, Kept, MemoryPort, Operand, Read, Settle, Taken, Write, operand_cell,
};

/// The cell of an operand: the root of its own cell.
fn cell_of(bits: usize, words: usize, roots: &[usize], operand: Operand) -> usize
    requires { bits + 16 * words + 2 < 2 ^ 64 }
    ensures { result ≡ cell_of bits words roots.now operand }
{
    root(roots, operand_cell(bits, words, operand))
}

/// An operand as a cell.
pub(crate) fn resolved(bits: usize, words: usize, roots: &[usize], operand: Operand) -> Operand
    requires { bits + 16 * words + 2 < 2 ^ 64 }
    ensures { result ≡ resolved bits words roots.now operand }
{
    Operand::Slot(cell_of(bits, words, roots, operand))
}

/// A list of operands as cells.
fn resolved_all<const N: usize>(
    bits: usize,
    words: usize,
    roots: &[usize],
    operands: &[Operand; N],
) -> [Operand; N]
    requires { bits + 16 * words + 2 < 2 ^ 64 }
    ensures { result ≡ map (resolved bits words roots.now) operands.now }
{
    let mut cells = [Operand::Constant(false); N];
    for place in 0..N {
        cells[place] = resolved(bits, words, roots, operands[place]);
    }
    cells
}

/// A flip-flop over cells.
pub(crate) fn resolved_flip(bits: usize, words: usize, roots: &[usize], flip: &FlipFlop) -> Flip
    requires { bits + 16 * words + 2 < 2 ^ 64 }
    ensures { flip_flop result ≡ resolved_flip bits words roots.now flip.now }
{
    let [a, b, c, d] = flip.table.ins;
    Flip {
        edge: flip.edge,
        enable: cell_of(bits, words, roots, flip.enable),
        reset: cell_of(bits, words, roots, flip.reset),
        set: flip.set,
        target: flip.target,
        table: flip.table.word,
        a: cell_of(bits, words, roots, a),
        b: cell_of(bits, words, roots, b),
        c: cell_of(bits, words, roots, c),
        d: cell_of(bits, words, roots, d),
    }
}

/// The asynchronous set or reset of a register, over cells.
pub(crate) fn resolved_settle(bits: usize, words: usize, roots: &[usize], settle: &Settle) -> Settle
    requires { bits + 16 * words + 2 < 2 ^ 64 }
    ensures { result ≡ resolved_settle bits words roots.now settle.now }
{
    Settle {
        wire: cell_of(bits, words, roots, Operand::Slot(settle.wire)),
        set: settle.set,
        target: settle.target,
    }
}

/// A port of a memory over cells.
fn resolved_port(bits: usize, words: usize, roots: &[usize], port: &MemoryPort) -> MemoryPort
    requires { bits + 16 * words + 2 < 2 ^ 64 }
    ensures { result ≡ resolved_port bits words roots.now port.now }
{
    MemoryPort {
        edge: port.edge,
        clock_enable: resolved(bits, words, roots, port.clock_enable),
        enable: resolved(bits, words, roots, port.enable),
        memory: port.memory,
        address: resolved_all(bits, words, roots, &port.address),
    }
}

/// A field over cells.
fn resolved_field(bits: usize, words: usize, roots: &[usize], field: &Field) -> Field
    requires { bits + 16 * words + 2 < 2 ^ 64 }
    ensures { result ≡ resolved_field bits words roots.now field.now }
{
    Field {
        shift: resolved_all(bits, words, roots, &field.shift),
        pattern: field.pattern,
    }
}

/// What a read takes, over cells.
fn resolved_taken(bits: usize, words: usize, roots: &[usize], taken: &Taken) -> Taken
    requires { bits + 16 * words + 2 < 2 ^ 64 }
    ensures { result ≡ resolved_taken bits words roots.now taken.now }
{
    match taken {
        Taken::Word => Taken::Word,
        Taken::Narrow(field) => Taken::Narrow(resolved_field(bits, words, roots, field)),
    }
}

/// A read of a memory over cells.
pub(crate) fn resolved_read(bits: usize, words: usize, roots: &[usize], read: &Read) -> Read
    requires { bits + 16 * words + 2 < 2 ^ 64 }
    ensures { result ≡ resolved_read bits words roots.now read.now }
{
    Read {
        port: resolved_port(bits, words, roots, &read.port),
        target: read.target,
        taken: resolved_taken(bits, words, roots, &read.taken),
    }
}

/// Which bits a write leaves as they are, over cells.
fn resolved_kept(bits: usize, words: usize, roots: &[usize], kept: &Kept) -> Kept
    requires { bits + 16 * words + 2 < 2 ^ 64 }
    ensures { result ≡ resolved_kept bits words roots.now kept.now }
{
    match kept {
        Kept::Masked(mask) => Kept::Masked(resolved_all(bits, words, roots, mask)),
        Kept::Outside(field) => Kept::Outside(resolved_field(bits, words, roots, field)),
    }
}

/// A write to a memory over cells.
pub(crate) fn resolved_write(bits: usize, words: usize, roots: &[usize], write: &Write) -> Write
    requires { bits + 16 * words + 2 < 2 ^ 64 }
    ensures { result ≡ resolved_write bits words roots.now write.now }
{
    Write {
        port: resolved_port(bits, words, roots, &write.port),
        kept: resolved_kept(bits, words, roots, &write.kept),
        bits: resolved_all(bits, words, roots, &write.bits),
    }
}

/// A wire whose fan-in is cells that are no aliases.
pub(crate) fn resolved_gate(roots: &[usize], gate: &Gate) -> Gate
    ensures { result ≡ resolved_gate roots.now gate.now }
{
    let [a, b, c, d] = gate.ins;
    Gate {
        slot: gate.slot,
        ins: [
            root(roots, a),
            root(roots, b),
            root(roots, c),
            root(roots, d),
        ],
        table: gate.table,
    }
}
