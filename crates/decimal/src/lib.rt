// A table as people write it, in decimal text: what a text gives, what is proved of it, and the operation, from the bytes of the text
// to the bytes of the listing's input.
#![tactic(auto)]

mod headings;
mod numerals;
mod values;
pub mod words;

ghost use Rattle.std.specs.Prelude.{◌≡◌};
ghost use Rattle.decimal.specs.declared.ParseError.TheVariants as errors;
ghost use Rattle.decimal.specs.Table.{Reads, refusal_number};
ghost use Rattle.decimal.specs.Inner.Positions.{PositionIn};
ghost use Rattle.decimal.specs.Inner.Values.{table_at, limit_at, Answers, BodyReady, LimitReady};

use std::fmt;

// What was expected where a text goes wrong.
#[derive(Clone, Copy, Debug, PartialEq, Eq)]
pub enum Expected {
    // n, on the first line.
    Variables,
    // The address limit, on the first line.
    Limit,
    // Nothing more on the first line.
    LineEnd,
    // One of the 2^n values.
    Value,
    // Nothing more after them.
    TextEnd,
}

// The number of the refusal.
impl From<Expected> for u64 {
    ghost from_gives = { λ expected number. number ≡ refusal_number expected };

    #[tactic(auto, unfolding(crate::specs::Table::refusal_number))]
    fn from(expected: Expected) -> u64 {
        match expected {
            Expected::Variables => 101,
            Expected::Limit => 102,
            Expected::LineEnd => 103,
            Expected::Value => 104,
            Expected::TextEnd => 105,
        }
    }
}

impl fmt::Display for Expected {
    fn fmt<W: fmt::Write>(&self, f: &mut fmt::Formatter<W>) -> fmt::Result {
        f.write_str(match self {
            Expected::Variables => "n, a whole number from 1 to 12",
            Expected::Limit => "A, a whole number from 0 to 255",
            Expected::LineEnd => "nothing more after n and A",
            Expected::Value => "a whole number from -2147483648 to 2147483647",
            Expected::TextEnd => "nothing more after 2^n values",
        })
    }
}

// The line on which a text goes wrong, and what was expected there.
#[derive(Clone, Copy, Debug, PartialEq, Eq)]
pub struct Wrong {
    pub line: usize,
    pub expected: Expected,
}

// Why a text gives no input: it goes wrong, or the buffer is too short for some input.
#[derive(Clone, Copy, Debug, PartialEq, Eq)]
pub enum ParseError {
    Wrong(Wrong),
    TooShort,
}

impl From<Wrong> for ParseError {
    ghost from_gives = { λ wrong error. error ≡ errors.Wrong wrong };

    fn from(wrong: Wrong) -> ParseError {
        ParseError::Wrong(wrong)
    }
}

// A place in a text, and its line.
#[derive(Clone, Copy)]
pub struct Position {
    pub at: usize,
    pub line: usize,
}

// A number of 32 bits that comes next in a text, its line, and the place behind it.
#[derive(Clone, Copy, Debug, PartialEq, Eq)]
pub struct Item {
    pub number: i32,
    pub line: usize,
    pub at: usize,
}

// The place behind a number.
impl From<Item> for Position {
    ghost from_gives = { λ item place. place ≡ record { at = item.at; line = item.line } };

    fn from(item: Item) -> Position {
        Position {
            at: item.at,
            line: item.line,
        }
    }
}

// The line of the word that comes next in a text and is no number of 32 bits, or of the text's end.
#[derive(Clone, Copy, Debug, PartialEq, Eq)]
pub struct NoNumber {
    pub line: usize,
}

// What is left of a text from a place of its first line on.
#[derive(Clone, Copy)]
struct FirstLine<'a> {
    text: &'a [u8],
    at: usize,
    ghost inside: { PositionIn text.now (record { at = at; line = 1 }) },
}

impl FirstLine<'_> {
    // The place, and its line.
    fn place(&self) -> Position
        ensures { result ≡ record { at = self.now.at; line = 1 } }
    {
        Position {
            at: self.at,
            line: 1,
        }
    }
}

// A number in its range on the first line, with the place behind it.
#[derive(Clone, Copy)]
struct Heading {
    number: usize,
    at: usize,
}

// The bytes of a buffer that holds every input.
pub const INPUT_ROOM: usize = 2 + 4 * numbers::MOST_VALUES;

// The values, from the place behind n and the limit, and the input's bytes. Answers how many there are.
fn parse_values(rest: &FirstLine, n: usize, limit: usize, input: &mut [u8]) -> Result<usize, Wrong>
    requires { BodyReady n limit input.old }
    ensures { Answers (table_at rest.now.text.now rest.now.at n limit) input.old result input.new }
{
    let mut row = [0i32; numbers::MOST_VALUES];
    let count = numbers::arithmetic::power(n);
    crate::values::read_values(rest, count, &mut row)?;
    Ok(crate::values::write_input(input, n, limit, &row[..count]))
}

// What follows n, from the place behind it: the limit, nothing more on the first line, and the values.
fn parse_limit(rest: &FirstLine, n: usize, input: &mut [u8]) -> Result<usize, Wrong>
    requires { LimitReady n input.old }
    ensures { Answers (limit_at rest.now.text.now rest.now.at n) input.old result input.new }
{
    let limit = crate::headings::heading(rest, 0, 255).ok_or(Wrong {
        line: 1,
        expected: Expected::Limit,
    })?;
    let behind = FirstLine {
        text: rest.text,
        at: limit.at,
    };
    if crate::headings::has_more(&behind) {
        return Err(Wrong {
            line: 1,
            expected: Expected::LineEnd,
        });
    }
    parse_values(&behind, n, limit.number, input)
}

// The listing's input of the table that a text gives, written into the lent buffer where that holds every input. Answers its
// length.
pub fn parse(text: &[u8], input: &mut [u8]) -> Result<usize, ParseError>
    ensures { Reads text.now input.old result input.new }
{
    if input.len() < INPUT_ROOM {
        return Err(ParseError::TooShort);
    }
    let start = FirstLine { text, at: 0 };
    let n = crate::headings::heading(&start, 1, 12).ok_or(Wrong {
        line: 1,
        expected: Expected::Variables,
    })?;
    let rest = FirstLine { text, at: n.at };
    Ok(parse_limit(&rest, n.number, input)?)
}
