// Bit widths: of a number, of a cut's rails, of a cell's weights.
ghost use Rattle.std.specs.Prelude.{◌≡◌, [], ◌∷◌};
ghost use Rattle.numbers.specs.Inner.Bits.{bit_length};
ghost use Rattle.numbers.specs.Widths.{rail_width, weight_width};

// The number of bits of a number.
fn bit_length(number: u32) -> usize
    ensures { result ≡ bit_length number }
{
    (32 - u32::leading_zeros(number)) as usize
}

// The rail width of so many classes.
pub fn rail_width(count: u32) -> usize
    ensures { result ≡ rail_width count }
{
    if count == 0 {
        return 0;
    }
    bit_length(count - 1)
}

// The weight width of a cell, from its least and its greatest weight: the bits of the greater unsigned part, and one more for the sign
// where a weight is negative.
pub fn weight_width(least: i32, greatest: i32) -> usize
    ensures { result ≡ weight_width (least ∷ greatest ∷ []) }
{
    let low = crate::arithmetic::unsigned_part(least);
    let high = crate::arithmetic::unsigned_part(greatest);
    let bits = bit_length(low.max(high));
    if least < 0 || greatest < 0 {
        1 + bits
    } else {
        bits
    }
}
