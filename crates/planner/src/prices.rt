// The price of a cell: its memory bits, from its least and its greatest weight.
ghost use Rattle.std.specs.Prelude.{◌≡◌, ◌+◌, ◌*◌, ◌^◌, ◌≤◌, ◌<◌};
ghost use Rattle.blocks.specs.Classes.{class_count};
ghost use Rattle.cascade.specs.Cascade.{cell_of};
ghost use Rattle.cascade.specs.Inner.Choices.{cell_price, cell_fits};
ghost use Rattle.planner.specs.Inner.Extremes.{extremes_of};

use diagram::Range;
use diagram::cuts::Cuts;

// The least and the greatest of 0, of the weights so far and of those of one class more, whose words stand for the parts of its first
// block.
fn class_extremes(cuts: &Cuts, h: usize, g: usize, class: usize, gathered: Range) -> Range
    requires class_of_cut { (h + g ≤ cuts.now.n) × (class < class_count cuts.now.n cuts.now.table.now h) }
    requires gathered_value { gathered ≡ extremes_of cuts.now.n cuts.now.table.now h g (class * 2 ^ g) }
    ensures { result ≡ extremes_of cuts.now.n cuts.now.table.now h g (class * 2 ^ g + 2 ^ g) }
{
    let size = numbers::arithmetic::power(cuts.n - h);
    let step = numbers::arithmetic::power(cuts.n - (h + g));
    let start = blocks::in_cut(cuts.firsts, h, class) * size;
    let end = start + size;
    let from = cuts.table[start];
    let mut least = gathered.least;
    let mut greatest = gathered.greatest;
    for place in (start..end).step_by(step) {
        let weight = cuts.table[place] - from;
        least = numbers::arithmetic::lesser_of(least, weight);
        greatest = numbers::arithmetic::greater_of(greatest, weight);
    }
    Range { least, greatest }
}

// The weight width of the cell from cut h that takes g variables.
fn cell_width(cuts: &Cuts, h: usize, g: usize) -> usize
    requires { h + g ≤ cuts.now.n }
    ensures { result ≡ (cell_of cuts.now.n cuts.now.table.now h g).width }
{
    let mut gathered = Range {
        least: 0,
        greatest: 0,
    };
    for class in 0..cuts.class_count(h) {
        gathered = class_extremes(cuts, h, g, class, gathered);
    }
    numbers::widths::weight_width(gathered.least, gathered.greatest)
}

// The memory bits of the cell from cut h that takes g variables.
pub(crate) fn cell_price(cuts: &Cuts, h: usize, g: usize) -> usize
    requires { h + g ≤ cuts.now.n }
    ensures { result ≡ cell_price cuts.now.n cuts.now.table.now h g }
{
    let width = cell_width(cuts, h, g);
    image::cell_bits(cuts.class_count(h), g, cuts.class_count(h + g), width)
}

// Whether the cell from cut h that takes g variables keeps to the address limit.
pub(crate) fn cell_fits(cuts: &Cuts, h: usize, g: usize, limit: usize) -> bool
    requires { h + g ≤ cuts.now.n }
    ensures { result ≡ cell_fits cuts.now.n cuts.now.table.now limit h g }
{
    numbers::widths::rail_width(cuts.class_count(h) as u32) + g <= limit
}
