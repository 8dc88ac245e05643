// The words of a text, one after the other.
ghost use Rattle.std.specs.Prelude.{◌≡◌, ◌+◌, ◌≤◌, length, drop};
ghost use Rattle.decimal.specs.Inner.Positions.{is_separator, PositionIn, skipped, word_length};
ghost use Rattle.decimal.specs.Inner.Items.{item_at};

use crate::{Item, NoNumber, Position};

// Whether a byte parts words: a blank, or the end of a line.
#[tactic(auto, unfolding(crate::specs::Inner::Positions::is_separator, crate::specs::Words::is_newline, crate::specs::Words::is_blank))]
fn is_separator(byte: u8) -> bool
    ensures { result ≡ is_separator byte }
{
    // Kept: one test after the other, which becomes one look into a mask; a pattern of the four becomes branches, which a text of
    // mixed blanks and newlines makes three times slower.
    byte == b'\n' || byte == b' ' || byte == b'\t' || byte == b'\r'
}

// Past the blanks and newlines from a place on.
pub(crate) fn skip(text: &[u8], place: Position) -> Position
    requires { PositionIn text.now place }
    ensures { result ≡ skipped text.now place }
{
    let mut line = place.line;
    for at in place.at..text.len() {
        if !is_separator(text[at]) {
            return Position { at, line };
        }
        if text[at] == b'\n' {
            line += 1;
        }
    }
    Position {
        at: text.len(),
        line,
    }
}

// The end of the word that starts at a place.
fn word_end(text: &[u8], start: usize) -> usize
    requires { start ≤ length text.now }
    ensures { result ≡ start + word_length (drop start text.now) }
{
    let rest = &text[start..];
    let length = rest.iter().position(|byte| is_separator(*byte));
    start + length.unwrap_or(rest.len())
}

// What comes next, from a place on.
// Kept: a text and a place in it side by side, here and in what it calls; docs/DECISIONS.md names it as open.
pub fn next_item(text: &[u8], place: Position) -> Result<Item, NoNumber>
    requires { PositionIn text.now place }
    ensures { result ≡ item_at text.now place }
{
    let Position { at: start, line } = skip(text, place);
    let end = word_end(text, start);
    let number = crate::numerals::word_number(&text[start..end]).ok_or(NoNumber { line })?;
    Ok(Item {
        number,
        line,
        at: end,
    })
}
