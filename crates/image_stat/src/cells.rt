// Counts of used logic cells.
ghost use Rattle.std.specs.Prelude.{◌≡◌, count_by};

use fabric_model::LogicCell;

/// How many cells use their flip-flop.
pub(crate) fn flops(cells: &[LogicCell]) -> usize
    ensures { result ≡ count_by (λ cell. cell.flip) cells.now }
{
    cells.iter().filter(|cell| cell.flip).count()
}

/// How many cells use their carry.
pub(crate) fn carries(cells: &[LogicCell]) -> usize
    ensures { result ≡ count_by (λ cell. cell.carry) cells.now }
{
    cells.iter().filter(|cell| cell.carry).count()
}
