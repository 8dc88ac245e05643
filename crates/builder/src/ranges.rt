// The range of a class: the least and the greatest of its differences.
ghost use Rattle.std.specs.Prelude.{◌≡◌, true, ◌<◌, length};
ghost use Rattle.numbers.specs.Lists.{every};
ghost use Rattle.numbers.specs.Ranges.{is_value};
ghost use Rattle.blocks.specs.Classes.{class_count};
ghost use Rattle.blocks.specs.Inner.Layout.{class_at};
ghost use Rattle.diagram.specs.Inner.Building.{range_of};

use diagram::Range;
use diagram::cuts::Cuts;

// The range of some values less the first of them.
fn range_of(values: &[i32]) -> Range
    requires { (0 < length values.now) × (every is_value values.now ≡ true) }
    ensures { result ≡ range_of values.now }
{
    let from = values[0];
    let mut least = 0;
    let mut greatest = 0;
    // Kept: by place, since a loop over the slice behind the first value takes nine times the instructions: it is not vectorised.
    for x in 1..values.len() {
        let difference = values[x] - from;
        least = numbers::arithmetic::lesser_of(least, difference);
        greatest = numbers::arithmetic::greater_of(greatest, difference);
    }
    Range { least, greatest }
}

// The range of class c of cut h, read at the class's first block.
pub(crate) fn class_range(cuts: &Cuts, h: usize, c: usize) -> Range
    requires { (h < cuts.now.n) × (c < class_count cuts.now.n cuts.now.table.now h) }
    ensures { result ≡ range_of (class_at cuts.now.n cuts.now.table.now h c) }
{
    let size = numbers::arithmetic::power(cuts.n - h);
    let start = blocks::in_cut(cuts.firsts, h, c) * size;
    let end = start + size;
    range_of(&cuts.table[start..end])
}
