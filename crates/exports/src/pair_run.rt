// The pair run through C. It requires nothing of its caller; a refusal leaves whatever stands behind a reference as it was.
ghost use Rattle.pairs.specs.Pairs.{pair_run};
ghost use Rattle.exports.specs.RanGiven.{RanGiven};

// The pair run: the value of an image at X and Y of m bits each and the words read for it, or the refusal's number.
#[unsafe(no_mangle)]
pub extern "C" fn panstrait_pair_run(
    m: usize,
    image: &[u8],
    x: usize,
    y: usize,
    value: &mut i32,
    words: &mut usize,
) -> u8
    ensures { RanGiven (pair_run m image.now x y) value.old words.old result value.new words.new }
{
    crate::results::hand_back(pairs::pair_run(m, image, x, y), value, words)
}
