// Numbers in decimal, written into a text buffer.
ghost use Rattle.std.specs.Prelude.{◌≡◌, ◌+◌, ◌≤◌, length, pos};
ghost use Rattle.lines.specs.Text.{decimal};
ghost use Rattle.lines.specs.Inner.Writing.{Writes};

// How many digits a number has.
fn digit_count(number: usize) -> usize
    ensures { result ≡ length (decimal (pos number)) }
{
    number.checked_ilog10().map_or(1, |log| log as usize + 1)
}

// A number at a place, its digits from the lowest up. Answers the place behind it.
fn write_number(text: &mut [u8], at: usize, number: usize) -> usize
    requires { at + length (decimal (pos number)) ≤ length text.old }
    ensures { Writes text.old at (decimal (pos number)) result text.new }
{
    let count = digit_count(number);
    let mut rest = number;
    for k in (0..count).rev() {
        text[at + k] = b'0' + (rest % 10) as u8;
        rest /= 10;
    }
    at + count
}

// A signed number at a place. Answers the place behind it.
pub(crate) fn write_signed(text: &mut [u8], at: usize, number: i32) -> usize
    requires { at + length (decimal number) ≤ length text.old }
    ensures { Writes text.old at (decimal number) result text.new }
{
    let part = numbers::arithmetic::unsigned_part(number) as usize;
    if number < 0 {
        text[at] = b'-';
        return write_number(text, at + 1, part + 1);
    }
    write_number(text, at, part)
}
