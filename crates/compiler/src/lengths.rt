// The length of an image, from its planned cells.
ghost use Rattle.std.specs.Prelude.{◌≡◌, ◌*◌, ◌^◌};
ghost use Rattle.compiler.specs.Inner.Lengths.{planned_bytes, planned_length, SmallCell, SmallCells};

use cascade::Cell;

// The bytes before the cells and behind them.
const AROUND_CELLS: usize = image::TABLE_SIZE + image::END_SIZE;

// The words of a cell: one for each incoming class and group value.
pub(crate) fn word_count(cell: &Cell) -> usize
    requires { SmallCell cell.now }
    ensures { result ≡ cell.now.incoming * 2 ^ cell.now.group }
{
    cell.incoming * numbers::arithmetic::power(cell.group)
}

// The bytes of a cell: its command and its words.
pub(crate) fn cell_length(cell: &Cell) -> usize
    requires { SmallCell cell.now }
    ensures { result ≡ planned_bytes cell.now }
{
    image::CELL_SIZE + image::WORD_SIZE * word_count(cell)
}

// The bytes of the image of these cells.
pub(crate) fn image_length(cells: &[Cell]) -> usize
    requires { SmallCells cells.now }
    ensures { result ≡ planned_length cells.now }
{
    AROUND_CELLS + cells.iter().map(cell_length).sum::<usize>()
}
