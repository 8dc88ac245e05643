// Sum and Remainder through C. No function here requires anything of its caller; a refusal leaves the lent table as it was.
ghost use Rattle.std.specs.Prelude.{length};
ghost use Rattle.sums.specs.Sums.{plain_sum, reduced_sum};
ghost use Rattle.exports.specs.SumGiven.{TableGiven};

// Sum: the table of the weights' sums, or the refusal's number.
#[unsafe(no_mangle)]
pub extern "C" fn panstrait_sum(n: usize, weights: &[i32], table: &mut [i32]) -> u8
    ensures { TableGiven (plain_sum n weights.now (length table.old)) table.old result table.new }
{
    crate::results::number_of(sums::sum(n, weights, table))
}

// Remainder: the table of their remainders by 2^q, or the refusal's number.
#[unsafe(no_mangle)]
pub extern "C" fn panstrait_remainder(n: usize, weights: &[i32], q: usize, table: &mut [i32]) -> u8
    ensures { TableGiven (reduced_sum n weights.now q (length table.old)) table.old result table.new }
{
    crate::results::number_of(sums::remainder(n, weights, q, table))
}
