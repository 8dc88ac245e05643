// The C interface: each operation, the classes of all cuts, and the two widths. Nothing is required of a caller; a refusal's number is
// the result, 0 for success, and a refusal leaves whatever was lent as it was.
// Kept: in every file, for C: numbers as results, values behind references, rows side by side. What was answered is written in an arm
// of a match, which a chain would write in a closure.
#![tactic(auto)]

pub mod build_walk;
pub mod class_cuts;
pub mod pair_run;
pub mod plan_compile;
pub mod reach_cuts;
pub mod report_part;
mod results;
pub mod run_expand;
mod sizes;
pub mod sum_remainder;
pub mod widths;
