// The cells that the choices lead to, from the top cut down.
ghost use Rattle.std.specs.Prelude.{◌≡◌};
ghost use Rattle.cascade.specs.Inner.Choices.{cost_of, size_of};
ghost use Rattle.planner.specs.Inner.Listed.{width_of_bits, BitsReady, chosen_cell, chosen_cells, CellChosen, ListChosen, listed_plan};

use cascade::{Cell, Choice, Grouping, Planned};
use diagram::cuts::Cuts;

// What a choice costs, 0 where it has no list.
#[tactic(auto, unfolding(cascade::specs::Inner::Choices::cost_of))]
fn cost_of(choice: Option<Choice>) -> usize
    ensures { result ≡ cost_of choice }
{
    choice.map_or(0, |choice| choice.cost)
}

// The first size of a choice, 0 where it has none.
#[tactic(auto, unfolding(cascade::specs::Inner::Choices::size_of))]
fn size_of(choice: Option<Choice>) -> usize
    ensures { result ≡ size_of choice }
{
    choice.map_or(0, |choice| choice.size)
}

// The weight width of a cell with so many bits: each of its words has a class and a weight, so it is the bits of one word
// less the rail.
fn width_of_bits(incoming: usize, group: usize, outgoing: usize, bits: usize) -> usize
    requires { BitsReady incoming group outgoing bits }
    ensures { result ≡ width_of_bits incoming group outgoing bits }
{
    let address = numbers::widths::rail_width(incoming as u32) + group;
    bits / (1 << address) - numbers::widths::rail_width(outgoing as u32)
}

// The cell that the choice at cut h takes.
fn chosen_cell(
    cuts: &Cuts,
    h: usize,
    use_counts: &[usize],
    choices: &[Option<Choice>; blocks::ALL_CUTS],
) -> Cell
    requires { CellChosen cuts.now.n h cuts.now.table.now use_counts.now choices.now }
    ensures { result ≡ chosen_cell cuts.now.counts.now use_counts.now choices.now h }
{
    let here = choices[h];
    let group = size_of(here);
    let end = h + group;
    let bits = cost_of(here) - cost_of(choices[end]);
    let incoming = cuts.class_count(h);
    let outgoing = cuts.class_count(end);
    let commonest = classes::commonest::commonest_of_cut(use_counts, end, outgoing);
    Cell {
        group,
        incoming,
        outgoing,
        width: width_of_bits(incoming, group, outgoing, bits),
        bits,
        common: commonest.class,
        uses: commonest.uses,
    }
}

// The sizes and the cells of the chosen grouping, with so many bits in all.
pub(crate) fn list_cells(
    cuts: &Cuts,
    use_counts: &[usize],
    choices: &[Option<Choice>; blocks::ALL_CUTS],
    bits: usize,
) -> Planned
    requires { ListChosen cuts.now.n cuts.now.table.now use_counts.now choices.now }
    ensures { result ≡ listed_plan (chosen_cells cuts.now.counts.now use_counts.now choices.now cuts.now.n cuts.now.n 0) bits }
{
    let mut sizes = [0usize; cascade::MOST_CELLS];
    let mut cells = [cascade::NO_CELL; cascade::MOST_CELLS];
    let mut count = 0;
    let mut h = 0;
    // Kept: the step is the size that the choice takes.
    while h < cuts.n {
        let cell = chosen_cell(cuts, h, use_counts, choices);
        sizes[count] = cell.group;
        cells[count] = cell;
        h += cell.group;
        count += 1;
    }
    Planned {
        verdict: Ok(Grouping { cells: count, bits }),
        sizes,
        cells,
    }
}
