// The cases of Run and Expand.
ghost use Rattle.std.specs.Prelude.{◌≡◌};
ghost use Rattle.numbers.specs.Refusals.{answer_of};
ghost use Rattle.image.specs.Run.{ran};
ghost use Rattle.cases.specs.ImageCases.{ran_is, run_passes, expanded_is, expand_passes};

use crate::{fronts, rows};
use image::Evaluated;
use numbers::Refusal;

// Whether Run's answer is the expected one.
pub(crate) fn ran_is(
    refusal: usize,
    value: i32,
    words: usize,
    answer: Result<Evaluated, Refusal>,
) -> bool
    ensures { result ≡ ran_is refusal value words (ran answer) }
{
    rows::answer_is(refusal, answer, |found| {
        words == found.words && found.value == value
    })
}

// Whether Run answers so.
pub fn run(numbers: &[i32], image: &[i32]) -> bool
    ensures { result ≡ run_passes numbers.now image.now }
{
    let Some(bytes) = fronts::image_bytes(image) else {
        return false;
    };
    let x = rows::size_at(numbers, 1);
    let answer = runner::run(&bytes[..image.len()], x);
    let refusal = rows::size_at(numbers, 2);
    let value = rows::number_at(numbers, 3, 0);
    let words = rows::size_at(numbers, 4);
    ran_is(refusal, value, words, answer)
}

// Whether Expand's answer is the expected one.
fn expanded_is(numbers: &[i32], answer: Result<(), Refusal>) -> bool
    ensures { result ≡ expanded_is numbers.now (answer_of answer) }
{
    rows::answer_is(rows::size_at(numbers, 2), answer, |()| true)
}

// Whether Expand answers so, and leaves these values in front of the lent table.
pub fn expand(numbers: &[i32], image: &[i32], front: &[i32]) -> bool
    ensures { result ≡ expand_passes numbers.now image.now front.now }
{
    let Some(bytes) = fronts::image_bytes(image) else {
        return false;
    };
    let places = rows::size_at(numbers, 1);
    if numbers::MOST_VALUES < places {
        return false;
    }
    let mut lent = [fronts::NUMBER; numbers::MOST_VALUES];
    let answer = runner::expand(&bytes[..image.len()], &mut lent[..places]);
    expanded_is(numbers, answer) && fronts::numbers_hold(&lent[..places], front)
}
