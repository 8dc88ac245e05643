// The checked values that are run, and for every operation its refusals and its answers: the cases that standard input holds.
// Prints a line for each case, and at the end how many passed and failed.
#![tactic(auto)]

mod judging;

ghost use Rattle.stdin.specs.Input.{Keeps};

use std::io;

// No less than the bytes of all cases.
const KEPT: usize = 262144;

// Reads to the end of the input and keeps its first bytes. Answers how many these are.
fn read_cases(rt: &impl Input, buffer: &mut [u8; KEPT]) -> io::Result<usize>
    ensures { Keeps 262144 buffer.new result }
{
    stdin::read_whole(rt, buffer)
}

#[tactic(auto, unfolding(stdin::specs::Input::KeptWithin))]
fn main(rt: HostRuntime) {
    let mut buffer = [0u8; KEPT];
    let Ok(count) = read_cases(&rt, &mut buffer) else {
        let _ = eprintln!(rt; "checks: cannot read standard input");
        return;
    };
    judging::judge_all(&rt, &buffer[..count]);
}
