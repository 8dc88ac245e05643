// Lines of text in a lent buffer: a word, its numbers behind spaces, and the newline.
ghost use Rattle.std.specs.Prelude.{[], ◌∷◌, ◌++◌, ◌+◌, ◌^◌, ◌≤◌, ◌<◌, length, pos};
ghost use Rattle.lines.specs.Text.{fields, line};
ghost use Rattle.lines.specs.Inner.Writing.{Writes, field};

// Bytes at a place. Answers the place behind them.
fn write_bytes(text: &mut [u8], at: usize, bytes: &[u8]) -> usize
    requires { at + length bytes.now ≤ length text.old }
    ensures { Writes text.old at bytes.now result text.new }
{
    let next = at + bytes.len();
    text[at..next].copy_from_slice(bytes);
    next
}

// A number at a place, behind a space. Answers the place behind it.
fn write_field(text: &mut [u8], at: usize, number: i32) -> usize
    requires { at + length (field number) ≤ length text.old }
    ensures { Writes text.old at (field number) result text.new }
{
    text[at] = b' ';
    crate::decimals::write_signed(text, at + 1, number)
}

// Numbers at a place, each behind a space, and the newline. Answers the place behind it.
fn write_fields(text: &mut [u8], at: usize, numbers: &[i32]) -> usize
    requires { at + length (fields numbers.now) ≤ length text.old }
    ensures { Writes text.old at (fields numbers.now) result text.new }
{
    let mut next = at;
    for number in numbers {
        next = write_field(text, next, *number);
    }
    text[next] = b'\n';
    next + 1
}

// A line at a place: its word, then its numbers. Answers the place behind it.
pub fn write_line(text: &mut [u8], at: usize, word: &[u8], numbers: &[i32]) -> usize
    requires { at + length (word.now ++ fields numbers.now) ≤ length text.old }
    ensures { Writes text.old at (word.now ++ fields numbers.now) result text.new }
{
    let next = write_bytes(text, at, word);
    write_fields(text, next, numbers)
}

// A line of one count at a place. Answers the place behind it.
pub fn write_count(text: &mut [u8], at: usize, word: &[u8], count: usize) -> usize
    requires count_bound { count < 2 ^ 31 }
    requires count_in_bounds { at + length (word.now ++ fields (pos count ∷ [])) ≤ length text.old }
    ensures { Writes text.old at (word.now ++ fields (pos count ∷ [])) result text.new }
{
    let numbers = [count as i32];
    write_line(text, at, word, &numbers)
}

// The line of a refusal, in front. Answers its length.
pub fn write_refusal(text: &mut [u8], number: u8) -> usize
    requires { length (line "refused" (pos number ∷ [])) ≤ length text.old }
    ensures { Writes text.old 0 (line "refused" (pos number ∷ [])) result text.new }
{
    write_count(text, 0, b"refused", number as usize)
}
