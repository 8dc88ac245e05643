// Plan: the least-cost grouping of a table's variables within an address limit.
#![tactic(auto)]

mod cells;
mod choices;
mod planning;
mod prices;

ghost use Rattle.cascade.specs.Plan.{Plans};
ghost use Rattle.planner.specs.Inner.Rows.{RowsRoom, RowsLeft};

use cascade::Planned;
use numbers::Refusal;

// Plan, with the classes of all cuts left in the lent rows.
// Kept: rows side by side, since each is lent to be written into.
pub fn plan_leaving_classes(
    n: usize,
    table: &[i32],
    limit: usize,
    classes: &mut [usize],
    firsts: &mut [usize],
    counts: &mut [usize],
) -> Planned
    requires { RowsRoom classes.old firsts.old counts.old }
    ensures plans { Plans n table.now limit result }
    ensures rows_left { RowsLeft n table.now limit classes.old firsts.old counts.old classes.new firsts.new counts.new }
{
    if let Err(refusal) = diagram::tables::check_table(n, table) {
        return planning::refused_plan(refusal);
    }
    if !numbers::arithmetic::is_limit(limit) {
        return planning::refused_plan(Refusal::Limit);
    }
    planning::plan_table(n, table, limit, classes, firsts, counts)
}

// Plan: the sizes of the chosen grouping and its cells, or a refusal.
pub fn plan(n: usize, table: &[i32], limit: usize) -> Planned
    ensures { Plans n table.now limit result }
{
    let mut classes = [0usize; blocks::ALL_PLACES];
    let mut firsts = [0usize; blocks::ALL_PLACES];
    let mut counts = [0usize; blocks::ALL_CUTS];
    plan_leaving_classes(n, table, limit, &mut classes, &mut firsts, &mut counts)
}
