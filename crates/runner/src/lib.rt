// Run and Expand: an image is read whole, then evaluated by its words in place, at one X or from the top cell down at all of them.
#![tactic(auto)]

mod card;
mod evaluation;
mod expansion;

ghost use Rattle.std.specs.Prelude.{◌≡◌};
ghost use Rattle.image.specs.Inner.Evaluation.{Accepted};
ghost use Rattle.image.specs.Run.{Expands, run, ran};

use card::Card;
use image::Evaluated;
use numbers::Refusal;

// Run of an image that is known to be accepted: it is not checked again.
#[tactic(auto, using(image::proofs::Laws::Evaluating::variables_size, image::proofs::Laws::Running::run_late, image::proofs::Laws::Running::run_value), unfolding(numbers::specs::Refusals::answer_of, numbers::specs::Refusals::number, image::specs::Run::ran))]
pub fn run_accepted(image: &[u8], x: usize) -> Result<Evaluated, Refusal>
    requires { Accepted image.now }
    ensures { ran result ≡ run image.now x }
{
    let card = Card { image };
    if (1 << card.variables()) <= x {
        return Err(Refusal::Index);
    }
    Ok(card.evaluate(x))
}

// Run: the image is checked whole, then X, then one word is read in each cell.
#[tactic(auto, using(image::proofs::Laws::Running::check_refuses, image::proofs::Laws::Running::check_accepts, image::proofs::Laws::Running::run_refused), unfolding(numbers::specs::Refusals::answer_of, image::specs::Run::ran, image::proofs::Laws::Reading::done))]
pub fn run(image: &[u8], x: usize) -> Result<Evaluated, Refusal>
    ensures { ran result ≡ run image.now x }
{
    reader::check(image)?;
    run_accepted(image, x)
}

// Expand of a card: its image is not checked again.
#[tactic(auto, using(image::proofs::Laws::Evaluating::variables_size))]
fn expand_accepted(card: &Card, table: &mut [i32]) -> Result<(), Refusal>
    ensures { Expands card.now.image.now table.old result table.new }
{
    if table.len() != 1 << card.variables() {
        return Err(Refusal::Length);
    }
    card.fill(table);
    Ok(())
}

// Expand: the image is checked whole, then the buffer, then Run's value is written for every X.
// Kept: two lines like run's, which a function over closures would not shorten.
#[tactic(auto, using(image::proofs::Laws::Running::check_accepts), unfolding(numbers::specs::Refusals::answer_of, image::proofs::Laws::Reading::done))]
pub fn expand(image: &[u8], table: &mut [i32]) -> Result<(), Refusal>
    ensures { Expands image.now table.old result table.new }
{
    reader::check(image)?;
    expand_accepted(&Card { image }, table)
}
