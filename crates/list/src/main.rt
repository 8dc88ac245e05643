// The listing program: reads standard input to its end and writes the listing of the table in it to standard output.
#![tactic(auto)]

ghost use Rattle.stdin.specs.Input.{Keeps};
ghost use Rattle.listing.specs.Kept.{kept_bytes};

use listing::TEXT_ROOM;
use std::io;

// One byte more than the longest admitted input: the bytes behind these do not change the text.
const KEPT: usize = 8195;

// Reads to the end of the input and keeps as many of its first bytes as a listing goes by. Answers how many these are.
#[tactic(auto, unfolding(listing::specs::Kept::kept_bytes))]
fn read_input(rt: &impl Input, buffer: &mut [u8; KEPT]) -> io::Result<usize>
    ensures { Keeps kept_bytes buffer.new result }
{
    stdin::read_whole(rt, buffer)
}

// Writes the listing of the kept bytes.
fn print_listing(rt: &impl Print, kept: &[u8]) -> io::Result<()> {
    let mut text = [0u8; TEXT_ROOM];
    let length = listing::list_kept(kept, &mut text);
    rt.write_all(&text[..length])
}

#[tactic(auto, unfolding(stdin::specs::Input::KeptWithin))]
fn main(rt: HostRuntime) {
    let mut buffer = [0u8; KEPT];
    let Ok(count) = read_input(&rt, &mut buffer) else {
        let _ = eprintln!(rt; "list: cannot read standard input");
        return;
    };
    if print_listing(&rt, &buffer[..count]).is_err() {
        let _ = eprintln!(rt; "list: cannot write standard output");
    }
}
