// Cells as rows of numbers.
ghost use Rattle.std.specs.Prelude.{◌≡◌};
ghost use mathlib.Core.List.{flat_map};
ghost use Rattle.cascade.specs.Rows.{cell_row};

use crate::Cell;

// The numbers of a cell in a row.
pub const CELL_NUMBERS: usize = 7;

// The numbers of a row of all cells that a grouping can have.
pub const ROW_NUMBERS: usize = CELL_NUMBERS * crate::MOST_CELLS;

// The numbers of a cell: group, incoming count, outgoing count, weight width, bits, commonest outgoing class, its uses.
#[tactic(auto, unfolding(crate::specs::Rows::cell_row))]
fn cell_row(cell: Cell) -> [usize; CELL_NUMBERS]
    ensures { result ≡ cell_row cell }
{
    [
        cell.group,
        cell.incoming,
        cell.outgoing,
        cell.width,
        cell.bits,
        cell.common,
        cell.uses,
    ]
}

// Those of each cell, one behind the other.
pub fn cell_rows(cells: [Cell; crate::MOST_CELLS]) -> [usize; ROW_NUMBERS]
    ensures { result ≡ flat_map cell_row cells }
{
    let mut rows = [0usize; ROW_NUMBERS];
    for (k, cell) in cells.iter().enumerate() {
        let at = CELL_NUMBERS * k;
        rows[at..at + CELL_NUMBERS].copy_from_slice(&cell_row(*cell));
    }
    rows
}
