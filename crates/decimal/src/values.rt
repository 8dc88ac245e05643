// The values of a text, read into a row and written as the input's bytes.
ghost use Rattle.std.specs.Prelude.{◌≡◌, ◌≤◌, length};
ghost use Rattle.lines.specs.Inner.Writing.{Writes};
ghost use Rattle.decimal.specs.Table.{input_of};
ghost use Rattle.decimal.specs.Inner.Positions.{PositionIn};
ghost use Rattle.decimal.specs.Inner.Values.{values_at, body_judged, ReadsValues, InputReady};

use crate::{Expected, FirstLine, Position, Wrong};

// That no word is left from a place on.
#[tactic(auto, using(crate::proofs::Laws::Positions::skipped_none, crate::proofs::Laws::Positions::skipped_word), unfolding(crate::specs::Inner::Values::body_judged, crate::specs::Table::values_read))]
fn check_end(text: &[u8], place: Position) -> Result<(), Wrong>
    requires { PositionIn text.now place }
    ensures { result ≡ body_judged (values_at text.now place 0) }
{
    let next = crate::words::skip(text, place);
    if next.at < text.len() {
        return Err(Wrong {
            line: next.line,
            expected: Expected::TextEnd,
        });
    }
    Ok(())
}

// So many values from a place of the first line on, into the front of the lent row, and then nothing more. Where the text goes
// wrong the row has those before.
pub(crate) fn read_values(rest: &FirstLine, count: usize, values: &mut [i32]) -> Result<(), Wrong>
    requires { count ≤ length values.old }
    ensures { ReadsValues rest.now.text.now (record { at = rest.now.at; line = 1 }) count values.old result values.new }
{
    let mut place = rest.place();
    for j in 0..count {
        let item = crate::words::next_item(rest.text, place).map_err(|none| Wrong {
            line: none.line,
            expected: Expected::Value,
        })?;
        values[j] = item.number;
        place = Position::from(item);
    }
    check_end(rest.text, place)
}

// The bytes of a table, in front. Answers how many there are.
pub(crate) fn write_input(input: &mut [u8], n: usize, limit: usize, values: &[i32]) -> usize
    requires { InputReady n limit values.now input.old }
    ensures { Writes input.old 0 (input_of (record { n = n; limit = limit; values = values.now })) result input.new }
{
    input[0] = n as u8;
    input[1] = limit as u8;
    for (j, value) in values.iter().enumerate() {
        operands::writing::write_signed(input, 2 + 4 * j, *value);
    }
    2 + 4 * values.len()
}
