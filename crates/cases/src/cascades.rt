// The cases of Plan and Compile.
ghost use Rattle.std.specs.Prelude.{◌≡◌};
ghost use Rattle.cascade.specs.Plan.{judgement};
ghost use Rattle.cascade.specs.Compile.{outcome};
ghost use Rattle.cases.specs.CascadeCases.{verdict_is, plan_passes, outcome_is, compile_passes};

use crate::{fronts, rows};
use cascade::cell_rows::cell_rows;
use cascade::{Compiled, Grouping};
use numbers::Refusal;

// Whether Plan's verdict is the expected one.
fn verdict_is(numbers: &[i32], verdict: Result<Grouping, Refusal>) -> bool
    ensures { result ≡ verdict_is numbers.now (judgement verdict) }
{
    rows::answer_is(rows::size_at(numbers, 3), verdict, |found| {
        rows::size_at(numbers, 4) == found.cells && rows::size_at(numbers, 5) == found.bits
    })
}

// Whether Plan answers so, with these sizes and these cells, seven numbers each.
pub fn plan(numbers: &[i32], table: &[i32], sizes: &[i32], cells: &[i32]) -> bool
    ensures { result ≡ plan_passes numbers.now table.now sizes.now cells.now }
{
    let n = rows::size_at(numbers, 1);
    let limit = rows::size_at(numbers, 2);
    let planned = planner::plan(n, table, limit);
    verdict_is(numbers, planned.verdict)
        && fronts::sizes_are(&planned.sizes, sizes)
        && fronts::sizes_are(&cell_rows(planned.cells), cells)
}

// Whether Compile's outcome is the expected one.
fn outcome_is(numbers: &[i32], answer: Result<Compiled, Refusal>) -> bool
    ensures { result ≡ outcome_is numbers.now (outcome answer) }
{
    rows::answer_is(rows::size_at(numbers, 4), answer, |found| {
        rows::size_at(numbers, 5) == found.length
            && rows::size_at(numbers, 6) == found.nodes
            && rows::size_at(numbers, 7) == found.count
            && rows::size_at(numbers, 8) == found.bits
    })
}

// Whether Compile answers so, with these cells, and leaves these bytes in front of the lent image.
pub fn compile(numbers: &[i32], table: &[i32], cells: &[i32], front: &[i32]) -> bool
    ensures { result ≡ compile_passes numbers.now table.now cells.now front.now }
{
    let places = rows::size_at(numbers, 3);
    if fronts::MOST_BYTES < places {
        return false;
    }
    let n = rows::size_at(numbers, 1);
    let limit = rows::size_at(numbers, 2);
    let mut lent = [fronts::BYTE; fronts::MOST_BYTES];
    let answer = compiler::compile(n, table, limit, &mut lent[..places]);
    let list = match answer {
        Ok(found) => found.cells,
        Err(_) => [cascade::NO_CELL; cascade::MOST_CELLS],
    };
    outcome_is(numbers, answer)
        && fronts::sizes_are(&cell_rows(list), cells)
        && fronts::bytes_hold(&lent[..places], front)
}
