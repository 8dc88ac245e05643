// The image of a table's planned cells, written into a lent buffer.

ghost use Rattle.std.specs.Prelude.{◌≡◌, ◌+◌, ◌≤◌, length};
ghost use Rattle.numbers.specs.Lists.{overwritten};
ghost use Rattle.cascade.specs.Cascade.{cell_of};
ghost use Rattle.cascade.specs.Compile.{image_for};
ghost use Rattle.cascade.specs.Groupings.{cost};
ghost use Rattle.compiler.specs.Inner.WordWriting.{CellPlanned};
ghost use Rattle.compiler.specs.Inner.Writing.{cell_bytes, cells_bytes, cell_groups, CellsPlanned};
ghost use Rattle.image.specs.Commands.{table_size};

use cascade::Cell;
use diagram::cuts::Cuts;

// A cell from cut h, written into the tail that is left of the image: its command, then its words.
fn write_cell(cuts: &Cuts, h: usize, cell: &Cell, tail: &mut [u8])
    requires cell_planned { CellPlanned cuts.now.n h cuts.now.table.now cell.now }
    requires group_in_bounds { length (cell_bytes (cell_of cuts.now.n cuts.now.table.now h cell.now.group)) ≤ length tail.old }
    ensures { tail.new ≡ overwritten tail.old 0 (cell_bytes (cell_of cuts.now.n cuts.now.table.now h cell.now.group)) }
{
    crate::commands::write_head(tail, cell.group, cell.incoming, cell.outgoing, cell.width);
    crate::words::write_words(cuts, h, cell, tail);
}

// The cells from the top down, behind the table command. Answers the place behind them.
fn write_cells(cuts: &Cuts, cells: &[Cell], image: &mut [u8]) -> usize
    requires planned { CellsPlanned cuts.now.n cuts.now.table.now cells.now (cost cuts.now.n cuts.now.table.now (cell_groups cells.now)) }
    requires cells_in_bounds { table_size + length (cells_bytes cuts.now.n cuts.now.table.now (cell_groups cells.now)) ≤ length image.old }
    ensures { (result ≡ table_size + length (cells_bytes cuts.now.n cuts.now.table.now (cell_groups cells.now))) × (image.new ≡ overwritten image.old table_size (cells_bytes cuts.now.n cuts.now.table.now (cell_groups cells.now))) }
{
    let mut at = image::TABLE_SIZE;
    let mut h = 0;
    for cell in cells {
        write_cell(cuts, h, cell, &mut image[at..]);
        at += crate::lengths::cell_length(cell);
        h += cell.group;
    }
    at
}

// The image of these cells, with so many bits in all: the table command, the cells, the end.
pub(crate) fn write_image(cuts: &Cuts, cells: &[Cell], bits: usize, image: &mut [u8])
    requires planned { CellsPlanned cuts.now.n cuts.now.table.now cells.now bits }
    requires image_in_bounds { length (image_for cuts.now.n cuts.now.table.now (cell_groups cells.now)) ≤ length image.old }
    ensures { image.new ≡ overwritten image.old 0 (image_for cuts.now.n cuts.now.table.now (cell_groups cells.now)) }
{
    crate::commands::write_table(image, cuts.n, blocks::first_value(cuts.table));
    let at = write_cells(cuts, cells, image);
    crate::commands::write_end(image, at, bits);
}
