// Cases of the eleven operations, as a text: a line with the case's title, then a line of numbers. These are the operation, eight
// numbers of it (0 behind its last), three counts, and as many numbers in three rows; 0 for the refusal where there is none:
//   1 Build    n, places, refusal, node count, offset; table, what stands in front of the lent places
//   2 Walk     n, offset, X, refusal, value; records
//   3 Plan     n, A, refusal, count of cells, bits; table, sizes, cells of seven numbers each
//   4 Compile  n, A, places, refusal, length, node count, count of cells, bits; table, cells, what stands in front
//   5 Run      X, refusal, value, words; image
//   6 Expand   places, refusal; image, what stands in front
//   7 Report   n, offset, a, b, refusal, count, least, greatest; records, the sum as high and low
//   8 Pair run m, X, Y, refusal, value, words; image
//   9 Reach    n, A, refusal, count of cuts, least A; table, cuts
//  10 Sum      n, places, refusal; weights, what stands in front of the lent places
//  11 Remainder n, places, refusal, q; weights, what stands in front
// A report's sum is high · 1,000,000,000 + low, where both may be below 0.

ghost use Rattle.std.specs.Prelude.{◌≡◌};
ghost use Rattle.checks.specs.Cases.{rows_pass, case_passes, line_passes};

use cases::tally::Tally;

// Whether the operation answers as the numbers and rows of a case say.
fn judge_rows(numbers: &[i32], first: &[i32], second: &[i32], third: &[i32]) -> bool
    ensures { result ≡ rows_pass numbers.now first.now second.now third.now }
{
    // Kept: the numbers stand in the text of the cases; a table of closures or an enum of operations would name each once more.
    match cases::rows::size_at(numbers, 0) {
        1 => cases::diagrams::build(numbers, first, second),
        2 => cases::diagrams::walk(numbers, first),
        3 => cases::cascades::plan(numbers, first, second, third),
        4 => cases::cascades::compile(numbers, first, second, third),
        5 => cases::images::run(numbers, first),
        6 => cases::images::expand(numbers, first, second),
        7 => cases::reports::report(numbers, first, second),
        8 => cases::pair_runs::pair_run(numbers, first),
        9 => cases::reaches::reach(numbers, first, second),
        10 => cases::summed::sum(numbers, first, second),
        11 => cases::summed::remainder(numbers, first, second),
        _ => false,
    }
}

// The same of a case's numbers one behind the other.
fn judge(row: &[i32]) -> bool
    ensures { result ≡ case_passes row.now }
{
    let first = 12 + cases::rows::size_at(row, 9);
    let second = first + cases::rows::size_at(row, 10);
    let third = second + cases::rows::size_at(row, 11);
    if row.len() != third {
        return false;
    }
    judge_rows(row, &row[12..first], &row[first..second], &row[second..])
}

// The same of a line of numbers.
fn judge_line(line: &[u8]) -> bool
    ensures { result ≡ line_passes line.now }
{
    let mut row = [0i32; 8448];
    let count = cases::case_lines::read_row(line, &mut row);
    judge(&row[..count])
}

// Judges the cases of a text, prints a line for each, and at the end how many passed and failed.
pub(crate) fn judge_all(rt: &impl Print, cases: &[u8]) {
    let mut tally = Tally {
        passed: 0,
        failed: 0,
    };
    let mut at = 0;
    // Kept: each turn takes the two lines of a case.
    while at < cases.len() {
        let numbers = cases::case_lines::behind_line(cases, at);
        let next = cases::case_lines::behind_line(cases, numbers);
        let passed = judge_line(&cases[numbers..next]);
        tally = tally.note(rt, &cases[at..numbers], passed);
        at = next;
    }
    tally.print(rt);
}
