// The pair run: an image as a function of X and Y, m bits each. It is read whole, for n = 2m, then evaluated at the index of X and Y.
// The code knows nothing of tables; specs/PairTables has what compiled tables of two variables give.

#![tactic(auto)]

ghost use Rattle.std.specs.Prelude.{◌≡◌, true};
ghost use Rattle.image.specs.Run.{ran};
ghost use Rattle.pairs.specs.Pairs.{is_pair_bits, is_pair, pair_index, pair_run};

use image::Evaluated;
use numbers::Refusal;

// Whether m is a number of bits that X and Y may have.
#[tactic(auto, using(numbers::proofs::Laws::Comparing::nat_in_range), unfolding(crate::specs::Pairs::is_pair_bits))]
fn is_pair_bits(m: usize) -> bool
    ensures { result ≡ is_pair_bits m }
{
    (1..=6).contains(&m)
}

// Whether X and Y have m bits each.
#[tactic(auto, using(crate::proofs::Laws::Answers::bits_test, std::proofs::lemmas::Bool::Decides::nat_tests), unfolding(crate::specs::Pairs::is_pair))]
fn is_pair(m: usize, x: usize, y: usize) -> bool
    requires { is_pair_bits m ≡ true }
    ensures { result ≡ is_pair m x y }
{
    let side = numbers::arithmetic::power(m);
    x < side && y < side
}

// The index Z of X and Y: 2^m·X + Y.
#[tactic(auto, unfolding(crate::specs::Pairs::pair_index))]
fn pair_index(m: usize, x: usize, y: usize) -> usize
    requires { (is_pair_bits m ≡ true) × (is_pair m x y ≡ true) }
    ensures { result ≡ pair_index m x y }
{
    numbers::arithmetic::power(m) * x + y
}

// The pair run: m, then the image, then X and Y; else Run's answer at the pair's index.
#[tactic(auto, using(crate::proofs::Laws::Answers::bits_refused, crate::proofs::Laws::Answers::check_refuses, crate::proofs::Laws::Answers::check_accepts, crate::proofs::Laws::Answers::checked_refused, crate::proofs::Laws::Answers::checked_run), unfolding(numbers::specs::Refusals::answer_of, numbers::specs::Refusals::number, image::specs::Run::ran, image::proofs::Laws::Reading::done))]
pub fn pair_run(m: usize, image: &[u8], x: usize, y: usize) -> Result<Evaluated, Refusal>
    ensures { ran result ≡ pair_run m image.now x y }
{
    if !is_pair_bits(m) {
        return Err(Refusal::PairBits);
    }
    reader::check_for(image, 2 * m)?;
    if !is_pair(m, x, y) {
        return Err(Refusal::Pair);
    }
    runner::run_accepted(image, pair_index(m, x, y))
}
