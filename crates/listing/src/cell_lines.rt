// The lines of a cascade: its cells and their bits.
ghost use Rattle.std.specs.Prelude.{◌+◌, ◌^◌, ◌≤◌, ◌<◌, length};
ghost use Rattle.lines.specs.Inner.Writing.{Writes};
ghost use Rattle.listing.specs.Inner.CellLines.{plan_line, cascade_text, CellSmall, CellsSmall};

use cascade::Cell;

// The line of a cell at a place. Answers the place behind it.
fn write_cell(text: &mut [u8], at: usize, cell: Cell) -> usize
    requires cell_small { CellSmall cell }
    requires cell_in_bounds { at + length (plan_line cell) ≤ length text.old }
    ensures { Writes text.old at (plan_line cell) result text.new }
{
    let numbers = [
        cell.group as i32,
        cell.incoming as i32,
        cell.outgoing as i32,
        cell.width as i32,
        cell.bits as i32,
    ];
    lines::fields::write_line(text, at, b"cell", &numbers)
}

// The lines of cells at a place, from the top cell down, and their total bits. Answers the place behind them.
pub(crate) fn write_cascade(text: &mut [u8], at: usize, cells: &[Cell], bits: usize) -> usize
    requires bits_bound { (bits < 2 ^ 31) × CellsSmall cells.now (length cells.now) }
    requires bits_in_bounds { at + length (cascade_text cells.now (length cells.now) bits) ≤ length text.old }
    ensures { Writes text.old at (cascade_text cells.now (length cells.now) bits) result text.new }
{
    let mut next = at;
    for cell in cells {
        next = write_cell(text, next, *cell);
    }
    lines::fields::write_count(text, next, b"bits", bits)
}
