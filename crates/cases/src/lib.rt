// The judges of the test program: whether a case passes, by what the operation answers and leaves; by operation, over rows and lines
// of numbers.
#![tactic(auto)]

pub mod cascades;
pub mod case_lines;
pub mod diagrams;
mod fronts;
pub mod images;
pub mod pair_runs;
pub mod reaches;
pub mod reports;
pub mod rows;
pub mod summed;
pub mod tally;
