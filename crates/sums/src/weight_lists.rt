// The checks on weights: on a list of them, on their sums, and on the bits of a remainder.
ghost use Rattle.std.specs.Prelude.{◌≡◌};
ghost use Rattle.numbers.specs.Lists.{every};
ghost use Rattle.numbers.specs.Ranges.{is_value};
ghost use Rattle.numbers.specs.Refusals.{answer_of};
ghost use Rattle.sums.specs.Sums.{sum_table, is_remainder_bits};
ghost use Rattle.sums.specs.Inner.Summable.{Summable};
ghost use Rattle.sums.specs.Inner.Checks.{weight_checks};

use numbers::Refusal;

// The checks on a weight list that both operations share, in their order.
pub(crate) fn check_weights(n: usize, weights: &[i32]) -> Result<(), Refusal>
    ensures { answer_of result ≡ weight_checks n weights.now }
{
    if !numbers::arithmetic::is_variables(n) {
        return Err(Refusal::Variables);
    }
    if weights.len() != n {
        return Err(Refusal::Length);
    }
    if !diagram::tables::values_fit(weights) {
        return Err(Refusal::Value);
    }
    Ok(())
}

// Whether every sum is a value. The least one is that of the negative weights, the greatest that of the others.
pub(crate) fn sums_fit(weights: &[i32]) -> bool
    requires { Summable weights.now }
    ensures { result ≡ every is_value (sum_table weights.now) }
{
    let mut least = 0;
    let mut greatest = 0;
    for weight in weights {
        if *weight < 0 {
            least += *weight;
        } else {
            greatest += *weight;
        }
    }
    numbers::arithmetic::is_value(least) && numbers::arithmetic::is_value(greatest)
}

// Whether q is a number of bits that a remainder may have.
pub(crate) fn is_remainder_bits(q: usize) -> bool
    ensures { result ≡ is_remainder_bits q }
{
    (1..=11).contains(&q)
}
