// The image of planned cells, placed into a lent buffer where it has room.
ghost use Rattle.cascade.specs.Inner.Planned.{groups, PlannedAs};
ghost use Rattle.compiler.specs.Inner.Placing.{Places};

use crate::{lengths, nodes};
use cascade::{Cell, Compiled, Grouping};
use diagram::cuts::Cuts;
use numbers::Refusal;

// The image of a grouping's planned cells, or 10 where the buffer is shorter.
#[tactic(auto, using(cascade::proofs::Laws::Planned::few))]
pub(crate) fn place_image(
    cuts: &Cuts,
    grouping: Grouping,
    planned: &[Cell; cascade::MOST_CELLS],
    image: &mut [u8],
) -> Result<Compiled, Refusal>
    requires { PlannedAs cuts.now.n cuts.now.table.now (groups planned.now grouping.cells) planned.now grouping.cells grouping.bits }
    ensures { Places cuts.now.n cuts.now.table.now (groups planned.now grouping.cells) image.old result image.new }
{
    let cells = &planned[..grouping.cells];
    let length = lengths::image_length(cells);
    if image.len() < length {
        return Err(Refusal::ImageRoom);
    }
    crate::cells::write_image(cuts, cells, grouping.bits, image);
    Ok(Compiled {
        length,
        nodes: nodes::count_nodes(cuts),
        count: grouping.cells,
        bits: grouping.bits,
        cells: *planned,
    })
}
