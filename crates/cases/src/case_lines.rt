// Lines of a text, and the numbers of a line.
ghost use Rattle.std.specs.Prelude.{◌≡◌, ◌+◌, ◌≤◌, length, drop};
ghost use Rattle.cases.specs.Text.{line_length, ReadsRow};

use decimal::Position;

// The place behind the line that holds this place: behind its newline, or the text's end.
pub fn behind_line(text: &[u8], start: usize) -> usize
    requires { start ≤ length text.now }
    ensures { result ≡ start + line_length (drop start text.now) }
{
    let rest = &text[start..];
    let newline = rest.iter().position(|byte| *byte == b'\n');
    start + newline.map_or(rest.len(), |at| at + 1)
}

// The whole numbers at the front of a line, into a lent row. Answers their count.
pub fn read_row(line: &[u8], row: &mut [i32]) -> usize
    ensures { ReadsRow line.now row.old result row.new }
{
    let mut place = Position { at: 0, line: 1 };
    for count in 0..row.len() {
        let Ok(item) = decimal::words::next_item(line, place) else {
            return count;
        };
        row[count] = item.number;
        place = Position::from(item);
    }
    row.len()
}
