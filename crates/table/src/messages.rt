// What is told where a text is no table: the line and what was expected there, and the number of the refusal.
use decimal::Wrong;

// Writes the line of a refusal to standard output.
pub(crate) fn print_refusal(rt: &impl Print, number: u64) {
    let _ = println!(rt; "refused {number}");
}

// Writes the line and what was expected there to standard error, and the number of the refusal.
pub(crate) fn print_wrong(rt: &(impl Print + Eprint), wrong: Wrong) {
    let Wrong { line, expected } = wrong;
    let _ = eprintln!(rt; "line {line}: expected {expected}");
    print_refusal(rt, u64::from(expected));
}
