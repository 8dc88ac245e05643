// How answers come back through C: a refusal as its number, 0 for success.
ghost use Rattle.std.specs.Prelude.{◌≡◌};
ghost use Rattle.image.specs.Run.{ran};
ghost use Rattle.numbers.specs.Refusals.{answer_of};
ghost use Rattle.exports.specs.RanGiven.{RanGiven};
ghost use Rattle.exports.specs.Results.{result_of};

use image::Evaluated;
use numbers::Refusal;

// 0, or the refusal's number.
#[tactic(auto, unfolding(numbers::specs::Refusals::answer_of))]
pub(crate) fn number_of(answer: Result<(), Refusal>) -> u8
    ensures { result ≡ result_of (answer_of answer) }
{
    match answer {
        Ok(()) => 0,
        Err(refusal) => u8::from(refusal),
    }
}

// 0 with value and words behind the references, or the refusal's number: Run's answer, and that of what answers as Run does.
pub(crate) fn hand_back(
    answer: Result<Evaluated, Refusal>,
    value: &mut i32,
    words: &mut usize,
) -> u8
    ensures { RanGiven (ran answer) value.old words.old result value.new words.new }
{
    match answer {
        Ok(evaluated) => {
            *value = evaluated.value;
            *words = evaluated.words;
            0
        }
        Err(refusal) => u8::from(refusal),
    }
}
