// The cases of Reach.
ghost use Rattle.std.specs.Prelude.{◌≡◌};
ghost use Rattle.reach.specs.Reach.{reach_judgement};
ghost use Rattle.cases.specs.ReachCases.{verdict_is, reach_passes};

use crate::{fronts, rows};
use numbers::Refusal;
use reach::Reached;

// Whether Reach's verdict is the expected one.
// Kept: like Plan's but for the struct and its fields.
fn verdict_is(numbers: &[i32], answer: Result<Reached, Refusal>) -> bool
    ensures { result ≡ verdict_is numbers.now (reach_judgement answer) }
{
    rows::answer_is(rows::size_at(numbers, 3), answer, |found| {
        rows::size_at(numbers, 4) == found.count && rows::size_at(numbers, 5) == found.least
    })
}

// Whether Reach answers so, with these cuts.
pub fn reach(numbers: &[i32], table: &[i32], cuts: &[i32]) -> bool
    ensures { result ≡ reach_passes numbers.now table.now cuts.now }
{
    let n = rows::size_at(numbers, 1);
    let limit = rows::size_at(numbers, 2);
    let answer = reach::reach(n, table, limit);
    let list = match answer {
        Ok(found) => found.cuts,
        Err(_) => [0; blocks::ALL_CUTS],
    };
    verdict_is(numbers, answer) && fronts::sizes_are(&list, cuts)
}
