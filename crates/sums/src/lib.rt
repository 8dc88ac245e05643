// Sum and Remainder: tables by weights, one for each bit of X: the sum of the weights whose bits are 1, and its remainder by a power
// of two; what they are, what is proved of them, and the two operations.
#![tactic(auto)]

mod sum_tables;
mod weight_lists;

ghost use Rattle.std.specs.Prelude.{length};
ghost use Rattle.sums.specs.Sums.{plain_sum, reduced_sum, Fills};

use numbers::Refusal;

// Sum: the sums of the weights whose bits are 1, at every X, or a refusal.
pub fn sum(n: usize, weights: &[i32], table: &mut [i32]) -> Result<(), Refusal>
    ensures { Fills (plain_sum n weights.now (length table.old)) table.old result table.new }
{
    crate::weight_lists::check_weights(n, weights)?;
    if !crate::weight_lists::sums_fit(weights) {
        return Err(Refusal::Sum);
    }
    if table.len() != numbers::arithmetic::power(n) {
        return Err(Refusal::Length);
    }
    crate::sum_tables::write_sums(weights, table);
    Ok(())
}

// Remainder: those sums reduced to 0..2^q - 1, also where they are no values, or a refusal.
pub fn remainder(n: usize, weights: &[i32], q: usize, table: &mut [i32]) -> Result<(), Refusal>
    ensures { Fills (reduced_sum n weights.now q (length table.old)) table.old result table.new }
{
    crate::weight_lists::check_weights(n, weights)?;
    if !crate::weight_lists::is_remainder_bits(q) {
        return Err(Refusal::RemainderBits);
    }
    if table.len() != numbers::arithmetic::power(n) {
        return Err(Refusal::Length);
    }
    crate::sum_tables::write_sums(weights, table);
    crate::sum_tables::reduce(q, table);
    Ok(())
}
