// Run and Expand through C. No function here requires anything of its caller; a refusal leaves every lent buffer as it was.
ghost use Rattle.exports.specs.ImageGiven.{RunGiven, ExpandGiven};

// Run: the value of an image at X and the words read for it, or the refusal's number.
#[unsafe(no_mangle)]
pub extern "C" fn panstrait_run(image: &[u8], x: usize, value: &mut i32, words: &mut usize) -> u8
    ensures { RunGiven image.now x value.old words.old result value.new words.new }
{
    crate::results::hand_back(runner::run(image, x), value, words)
}

// Expand: the table of an image, or the refusal's number.
#[unsafe(no_mangle)]
pub extern "C" fn panstrait_expand(image: &[u8], table: &mut [i32]) -> u8
    ensures { ExpandGiven image.now table.old result table.new }
{
    crate::results::number_of(runner::expand(image, table))
}
