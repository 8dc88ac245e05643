// The cases of Build and Walk.
ghost use Rattle.std.specs.Prelude.{◌≡◌};
ghost use Rattle.diagram.specs.Build.{built};
ghost use Rattle.cases.specs.DiagramCases.{built_is, build_passes, walk_passes};

use crate::{fronts, rows};
use diagram::Built;
use numbers::Refusal;

// The most numbers that Build leaves.
const MOST_NUMBERS: usize = 24570;

// Whether Build's answer is the expected one.
fn built_is(numbers: &[i32], answer: Result<Built, Refusal>) -> bool
    ensures { result ≡ built_is numbers.now (built answer) }
{
    rows::answer_is(rows::size_at(numbers, 3), answer, |found| {
        rows::size_at(numbers, 4) == found.nodes && rows::is_at(numbers, 5, 0, found.offset)
    })
}

// Whether Build answers so, and leaves these numbers in front of the lent row.
pub fn build(numbers: &[i32], table: &[i32], front: &[i32]) -> bool
    ensures { result ≡ build_passes numbers.now table.now front.now }
{
    let places = rows::size_at(numbers, 2);
    if MOST_NUMBERS < places {
        return false;
    }
    let n = rows::size_at(numbers, 1);
    let mut lent = [fronts::NUMBER; MOST_NUMBERS];
    let answer = builder::build(n, table, &mut lent[..places]);
    built_is(numbers, answer) && fronts::numbers_hold(&lent[..places], front)
}

// Whether Walk answers so.
pub fn walk(numbers: &[i32], records: &[i32]) -> bool
    ensures { result ≡ walk_passes numbers.now records.now }
{
    let n = rows::size_at(numbers, 1);
    let offset = rows::number_at(numbers, 2, 0);
    let x = rows::size_at(numbers, 3);
    let refusal = rows::size_at(numbers, 4);
    let answer = walker::walk(n, offset, records, x);
    rows::answer_is(refusal, answer, |value| {
        rows::is_at(numbers, 5, 0, value)
    })
}
