// Plan for a table, from the classes of all its cuts.
ghost use Rattle.std.specs.Prelude.{◌≡◌, true};
ghost use Rattle.numbers.specs.Ranges.{is_limit};
ghost use Rattle.blocks.specs.Rows.{all_use_rows};
ghost use Rattle.diagram.specs.Accepted.{Accepted};
ghost use Rattle.cascade.specs.Plan.{Plans};
ghost use Rattle.planner.specs.Inner.Rows.{refused_plan, RowsRoom, RowsFilled};

use cascade::Planned;
use diagram::cuts::Cuts;
use numbers::Refusal;

// A refusal beside arrays of 0.
pub(crate) fn refused_plan(refusal: Refusal) -> Planned
    ensures { result ≡ refused_plan refusal }
{
    Planned {
        verdict: Err(refusal),
        sizes: [0; cascade::MOST_CELLS],
        cells: [cascade::NO_CELL; cascade::MOST_CELLS],
    }
}

// Plan for a table and a limit that passed their checks, from the classes of its cuts and their use counts.
fn plan_cuts(cuts: &Cuts, limit: usize, use_counts: &[usize]) -> Planned
    requires limited { is_limit limit ≡ true }
    requires use_counts_value { use_counts.now ≡ all_use_rows cuts.now.n cuts.now.table.now }
    ensures { Plans cuts.now.n cuts.now.table.now limit result }
{
    let choices = crate::choices::choose_all(cuts, limit);
    let Some(top) = choices[0] else {
        return refused_plan(Refusal::NoGrouping);
    };
    crate::cells::list_cells(cuts, use_counts, &choices, top.cost)
}

// The classes of all cuts of a table, left in front of rows for the largest table, and from them and their use counts its plan.
// Kept: rows side by side, since each is lent to be written into.
pub(crate) fn plan_table(
    n: usize,
    table: &[i32],
    limit: usize,
    classes: &mut [usize],
    firsts: &mut [usize],
    counts: &mut [usize],
) -> Planned
    requires accepted { Accepted n table.now × (is_limit limit ≡ true) }
    requires rows_room { RowsRoom classes.old firsts.old counts.old }
    ensures plans { Plans n table.now limit result }
    ensures rows_filled { RowsFilled n table.now classes.old firsts.old counts.old classes.new firsts.new counts.new }
{
    let places = numbers::arithmetic::power(n + 1) - 1;
    let use_counts = &mut [0usize; blocks::ALL_PLACES][..places];
    classes::class_table(
        n,
        table,
        &mut classes[..places],
        &mut firsts[..places],
        &mut counts[..=n],
        use_counts,
    );
    let cuts = Cuts {
        n,
        table,
        classes: &classes[..places],
        firsts: &firsts[..places],
        counts: &counts[..=n],
    };
    plan_cuts(&cuts, limit, use_counts)
}
