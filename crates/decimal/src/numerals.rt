// The number of a word.
ghost use Rattle.std.specs.Prelude.{◌≡◌, ◌≤◌, length, drop};
ghost use Rattle.decimal.specs.Inner.Numbers.{largest_size, small_number, sign_length, signed_number, word_number};

// The number of the digits from a place on. A larger one than any value's size is left early.
fn read_digits(word: &[u8], start: usize) -> Option<usize>
    requires { start ≤ length word.now }
    ensures { result ≡ small_number (drop start word.now) }
{
    let digits = &word[start..];
    if digits.is_empty() {
        return None;
    }
    let mut value = 0;
    for byte in digits {
        if !byte.is_ascii_digit() {
            return None;
        }
        value = 10 * value + (*byte - b'0') as usize;
        if 2147483648 < value {
            return None;
        }
    }
    Some(value)
}

// How many bytes of a word are its sign, from its first byte.
#[tactic(auto, unfolding(crate::specs::Inner::Numbers::sign_length, crate::specs::Numbers::is_sign))]
fn sign_length(first: u8) -> usize
    ensures { result ≡ sign_length first }
{
    if matches!(first, b'+' | b'-') { 1 } else { 0 }
}

// A number from its size and its sign, where it has 32 bits: the least value's size is no value's without a minus.
#[tactic(auto, using(crate::proofs::Laws::Numbers::border_whole, crate::proofs::Laws::Numbers::negated_whole, crate::proofs::Laws::Numbers::same_whole), unfolding(crate::specs::Inner::Numbers::largest_size))]
fn signed(size: usize, negative: bool) -> Option<i32>
    requires { size ≤ largest_size }
    ensures { result ≡ signed_number size negative }
{
    if size == 2147483648 {
        return negative.then_some(i32::MIN);
    }
    let number = size as i32;
    Some(if negative { -number } else { number })
}

// The number of a word.
#[tactic(auto, using(crate::proofs::Laws::Numbers::sign_short, crate::proofs::Laws::Numbers::no_first, crate::proofs::Laws::Numbers::some_first, crate::proofs::Laws::Numbers::first_small, crate::proofs::Laws::Numbers::first_not_small))]
pub(crate) fn word_number(word: &[u8]) -> Option<i32>
    ensures { result ≡ word_number word.now }
{
    let first = *word.first()?;
    let size = read_digits(word, sign_length(first))?;
    signed(size, first == b'-')
}
