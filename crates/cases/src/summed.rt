// The cases of Sum and Remainder.
ghost use Rattle.std.specs.Prelude.{◌≡◌, ℕ, ℤ, List};
ghost use Rattle.std.specs.Fn.{FnOnceReturnsAtMut};
ghost use Rattle.numbers.specs.Answers.{Answer};
ghost use Rattle.numbers.specs.Refusals.{answer_of};
ghost use Rattle.cases.specs.SumCases.{filled_is, FillsLike, table_passes, sum_passes, remainder_passes};

use crate::{fronts, rows};
use numbers::Refusal;

// Whether the answer is the expected one, and the lent table holds these values in front.
fn filled_is(numbers: &[i32], answer: Result<(), Refusal>, table: &[i32], front: &[i32]) -> bool
    ensures { result ≡ filled_is numbers.now (answer_of answer) table.now front.now }
{
    rows::answer_is(rows::size_at(numbers, 3), answer, |()| true)
        && fronts::numbers_hold(table, front)
}

// Whether an operation that fills a lent table answers so, and leaves these values in front of one with the case's places.
fn table_passes<F: FnOnce(&mut [i32]) -> Result<(), Refusal>>(
    numbers: &[i32],
    front: &[i32],
    operation: F,
) -> bool
    requires { F.IsAlwaysCallable operation }
    ensures { (answers : ℕ → Answer (List ℤ)) → FillsLike (FnOnceReturnsAtMut F.FnOnce operation) answers → result ≡ table_passes numbers.now answers front.now }
{
    let places = rows::size_at(numbers, 2);
    if numbers::MOST_VALUES < places {
        return false;
    }
    let mut lent = [fronts::NUMBER; numbers::MOST_VALUES];
    let answer = operation(&mut lent[..places]);
    filled_is(numbers, answer, &lent[..places], front)
}

// Whether Sum answers so, and leaves these values in front of the lent table.
pub fn sum(numbers: &[i32], weights: &[i32], front: &[i32]) -> bool
    ensures { result ≡ sum_passes numbers.now weights.now front.now }
{
    let n = rows::size_at(numbers, 1);
    table_passes(numbers, front, |table| sums::sum(n, weights, table))
}

// Whether Remainder answers so, likewise.
pub fn remainder(numbers: &[i32], weights: &[i32], front: &[i32]) -> bool
    ensures { result ≡ remainder_passes numbers.now weights.now front.now }
{
    let n = rows::size_at(numbers, 1);
    let q = rows::size_at(numbers, 4);
    table_passes(numbers, front, |table| {
        sums::remainder(n, weights, q, table)
    })
}
