// The sizes that rows lent by a caller must have.
ghost use Rattle.std.specs.Prelude.{◌≡◌};
ghost use Rattle.exports.specs.Classing.{sizes_fit};

// Whether a table, the row of counts and other rows, given by their lengths, have the sizes that the classes of all cuts need.
pub(crate) fn sizes_fit(n: usize, values: usize, cuts: usize, rows: &[usize]) -> bool
    ensures { result ≡ sizes_fit n values cuts rows.now }
{
    if numbers::MOST_VARIABLES < n {
        return false;
    }
    let places = numbers::arithmetic::power(n + 1) - 1;
    values == numbers::arithmetic::power(n)
        && cuts == n + 1
        && rows.iter().all(|row| *row == places)
}
