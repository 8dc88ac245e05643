// What rows hold: the numbers of an answer in front, and behind them what no answer may change; here what stands at single places, and
// whether an answer is the expected one.
ghost use Rattle.std.specs.Prelude.{◌≡◌, ◌<◌, Bool, slice_index_or, Ok};
ghost use Rattle.numbers.specs.Refusals.{answer_of};
ghost use Rattle.numbers.specs.Ranges.{eq_z};
ghost use Rattle.cases.specs.Rows.{size_at, answer_is, Tells};

use numbers::Refusal;

// The number at a place of a row, and another past its last.
pub(crate) fn number_at(row: &[i32], at: usize, past: i32) -> i32
    ensures { result ≡ slice_index_or row.now at past }
{
    if at < row.len() { row[at] } else { past }
}

// The number at a place as a size, 0 past the last.
pub fn size_at(row: &[i32], at: usize) -> usize
    ensures value { result ≡ size_at row.now at }
    ensures upper_bound { result < 4294967296 }
{
    numbers::arithmetic::unsigned_part(number_at(row, at, 0)) as usize
}

// Whether the number at a place, or the one past the last, is this one.
pub(crate) fn is_at(row: &[i32], at: usize, past: i32, number: i32) -> bool
    ensures { result ≡ eq_z number (slice_index_or row.now at past) }
{
    number == number_at(row, at, past)
}

// Whether an answer is the expected one: where no refusal is expected, what was found passes the test, else it is that refusal.
pub(crate) fn answer_is<T: Copy, F: FnOnce(T) -> bool>(
    refusal: usize,
    answer: Result<T, Refusal>,
    test: F,
) -> bool
    requires { (found : T) → answer ≡ Ok found → F.pre test found }
    ensures { (passes : T → Bool) → Tells answer (F.post test) passes → result ≡ answer_is refusal passes (answer_of answer) }
{
    match answer {
        Ok(found) => refusal == 0 && test(found),
        Err(number) => refusal == usize::from(u8::from(number)),
    }
}
