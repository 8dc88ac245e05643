// The cases of the pair run.
ghost use Rattle.std.specs.Prelude.{◌≡◌};
ghost use Rattle.cases.specs.PairCases.{pair_run_passes};

use crate::{fronts, images, rows};

// Whether the pair run answers so.
pub fn pair_run(numbers: &[i32], image: &[i32]) -> bool
    ensures { result ≡ pair_run_passes numbers.now image.now }
{
    let Some(bytes) = fronts::image_bytes(image) else {
        return false;
    };
    let m = rows::size_at(numbers, 1);
    let x = rows::size_at(numbers, 2);
    let y = rows::size_at(numbers, 3);
    let answer = pairs::pair_run(m, &bytes[..image.len()], x, y);
    let refusal = rows::size_at(numbers, 4);
    let value = rows::number_at(numbers, 5, 0);
    let words = rows::size_at(numbers, 6);
    images::ran_is(refusal, value, words, answer)
}
