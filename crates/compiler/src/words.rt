// The words of a cell, written into the tail of an image.
ghost use Rattle.std.specs.Prelude.{◌≡◌, ◌+◌, ◌*◌, ◌^◌, ◌≤◌, length};
ghost use Rattle.numbers.specs.Lists.{overwritten};
ghost use Rattle.cascade.specs.Cascade.{cell_of};
ghost use Rattle.compiler.specs.Inner.WordWriting.{word_bytes, CellPlanned};
ghost use Rattle.image.specs.Commands.{cell_size, word_size};

use cascade::Cell;
use cascade::words::{word_class, word_weight};
use diagram::cuts::Cuts;

// The words of a cell from cut h, behind its command, in the tail that is left of the image.
pub(crate) fn write_words(cuts: &Cuts, h: usize, cell: &Cell, tail: &mut [u8])
    requires cell_planned { CellPlanned cuts.now.n h cuts.now.table.now cell.now }
    requires group_in_bounds { cell_size + word_size * (cell.now.incoming * 2 ^ cell.now.group) ≤ length tail.old }
    ensures { tail.new ≡ overwritten tail.old cell_size (word_bytes (cell_of cuts.now.n cuts.now.table.now h cell.now.group).words) }
{
    let group = cell.group;
    for k in 0..crate::lengths::word_count(cell) {
        let class = word_class(cuts.n, h, group, k, cuts.table, cuts.classes, cuts.firsts);
        let weight = word_weight(cuts.n, h, group, k, cuts.table, cuts.firsts);
        crate::commands::write_word(tail, image::CELL_SIZE + image::WORD_SIZE * k, class, weight);
    }
}
