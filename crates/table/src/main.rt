// The listing of a table in decimal text: reads standard input to its end and writes the listing to standard output. Where the text
// is no table, standard error has the line and what was expected there, and standard output the refusal's number.
#![tactic(auto)]

mod messages;

ghost use Rattle.stdin.specs.Input.{Keeps};
ghost use Rattle.table.specs.Listed.{ListsText};

use decimal::{ParseError, Wrong};
use std::io;

// One byte more than the longest text that is read.
const KEPT: usize = 1048577;

// Reads to the end of the input and keeps its first bytes. Answers how many these are.
fn read_text(rt: &impl Input, buffer: &mut [u8; KEPT]) -> io::Result<usize>
    ensures { Keeps 1048577 buffer.new result }
{
    stdin::read_whole(rt, buffer)
}

// The length of the listing of the table that a text gives, which stands in front of the lent bytes; or the line on which something
// else was expected.
fn list_text(text: &[u8], out: &mut [u8; listing::TEXT_ROOM]) -> Result<usize, Wrong>
    ensures { ListsText text.now out.old result out.new }
{
    let mut input = [0u8; decimal::INPUT_ROOM];
    match decimal::parse(text, &mut input) {
        Ok(length) => Ok(listing::list_input(&input[..length], out)),
        Err(ParseError::Wrong(wrong)) => Err(wrong),
        // It never comes: the room is that of the longest input.
        Err(ParseError::TooShort) => Ok(0),
    }
}

// Writes a listing to standard output.
fn print_listing(rt: &(impl Print + Eprint), out: &[u8]) {
    if rt.write_all(out).is_err() {
        let _ = eprintln!(rt; "table: cannot write standard output");
    }
}

// Writes what a text gives.
fn print_answer(rt: &(impl Print + Eprint), text: &[u8]) {
    let mut out = [0u8; listing::TEXT_ROOM];
    match list_text(text, &mut out) {
        Ok(length) => print_listing(rt, &out[..length]),
        Err(wrong) => messages::print_wrong(rt, wrong),
    }
}

#[tactic(auto, unfolding(stdin::specs::Input::KeptWithin))]
fn main(rt: HostRuntime) {
    let mut buffer = [0u8; KEPT];
    let Ok(count) = read_text(&rt, &mut buffer) else {
        let _ = eprintln!(rt; "table: cannot read standard input");
        return;
    };
    if count == KEPT {
        let _ = eprintln!(rt; "expected a text of at most 1048576 bytes");
        // Kept: the number is this program's own; what reading a text tells ends at 105.
        messages::print_refusal(&rt, 106);
        return;
    }
    print_answer(&rt, &buffer[..count]);
}
