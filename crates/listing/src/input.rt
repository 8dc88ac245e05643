// An input: whether its number of variables is listed, the checks on its bytes, and its values.
ghost use Rattle.std.specs.Prelude.{◌≡◌, ◌+◌, ◌*◌, ◌≤◌, length};
ghost use Rattle.numbers.specs.Refusals.{answer_of};
ghost use Rattle.listing.specs.Inner.Values.{values_of};
ghost use Rattle.listing.specs.Listing.{is_listed};
ghost use Rattle.listing.specs.Inner.Listed.{input_refusal};

use numbers::Refusal;

// Whether a table of n variables is listed.
#[tactic(auto, using(numbers::proofs::Laws::Comparing::nat_in_range), unfolding(crate::specs::Listing::is_listed, crate::specs::Listing::most_listed))]
pub(crate) fn is_listed(n: usize) -> bool
    ensures { result ≡ is_listed n }
{
    (1..=crate::MOST_LISTED).contains(&n)
}

// The checks on an input's length and its first byte, in their order: whether it has as many values as n asks for.
pub(crate) fn check_input(input: &[u8]) -> Result<(), Refusal>
    ensures { answer_of result ≡ input_refusal input.now }
{
    if input.len() < 2 {
        return Err(Refusal::Length);
    }
    let n = input[0] as usize;
    if !is_listed(n) {
        return Err(Refusal::Variables);
    }
    if input.len() != 2 + 4 * numbers::arithmetic::power(n) {
        return Err(Refusal::Length);
    }
    Ok(())
}

// The values behind the first two bytes, as many as there are places.
pub(crate) fn read_values(input: &[u8], values: &mut [i32])
    requires { 2 + 4 * length values.old ≤ length input.now }
    ensures { values.new ≡ values_of input.now (length values.old) }
{
    for (j, value) in values.iter_mut().enumerate() {
        *value = operands::read_signed(input, 2 + 4 * j);
    }
}
