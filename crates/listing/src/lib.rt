// The listing of a table: what it is, what is proved of it, and the operation, from the bytes of the input to the bytes of the text.
#![tactic(auto)]

mod cell_lines;
mod input;
mod node_lines;
mod tables;

ghost use Rattle.std.specs.Prelude.{◌≤◌, length};
ghost use Rattle.listing.specs.Listing.{listing};
ghost use Rattle.listing.specs.Program.{text_room, Lists};
ghost use Rattle.listing.specs.Inner.Listed.{InputCounted};
ghost use Rattle.lines.specs.Inner.Writing.{Writes};
ghost use Rattle.listing.specs.Kept.{ListsKept};

// The most variables of a table that is listed.
pub(crate) const MOST_LISTED: usize = 11;

// The values of such a table.
pub(crate) const LISTED_VALUES: usize = 2048;

// The bytes of a buffer that holds the text of every input.
pub const TEXT_ROOM: usize = 113248;

// Why there is no text: the buffer is too short for the text of some input.
#[derive(Clone, Copy, Debug, PartialEq, Eq)]
pub struct TooShort;

// The text of an input with as many values as n asks for, in front. Answers its length.
fn list_values(input: &[u8], text: &mut [u8]) -> usize
    requires { InputCounted input.now text.old }
    ensures { Writes text.old 0 (listing input.now) result text.new }
{
    let n = input[0] as usize;
    let limit = input[1] as usize;
    let mut row = [0i32; LISTED_VALUES];
    let values = &mut row[..numbers::arithmetic::power(n)];
    crate::input::read_values(input, values);
    crate::tables::list_table(n, values, limit, text)
}

// The text of an input, in front. Answers its length.
pub fn list_input(input: &[u8], text: &mut [u8]) -> usize
    requires { text_room ≤ length text.old }
    ensures { Writes text.old 0 (listing input.now) result text.new }
{
    if let Err(refusal) = crate::input::check_input(input) {
        return lines::fields::write_refusal(text, u8::from(refusal));
    }
    list_values(input, text)
}

// The listing program's text for an input, written into the lent buffer where that holds the text of every input. Answers its length.
pub fn list(input: &[u8], text: &mut [u8]) -> Result<usize, TooShort>
    ensures { Lists input.now text.old result text.new }
{
    if text.len() < TEXT_ROOM {
        return Err(TooShort);
    }
    Ok(list_input(input, text))
}

// The listing of an input, of which the first bytes were kept, in front of the text. Answers its length.
pub fn list_kept(kept: &[u8], text: &mut [u8; TEXT_ROOM]) -> usize
    ensures { ListsKept kept.now text.old result text.new }
{
    list(kept, text).unwrap_or(0)
}
