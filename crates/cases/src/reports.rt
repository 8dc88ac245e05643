// The cases of the report.
ghost use Rattle.std.specs.Prelude.{◌≡◌};
ghost use Rattle.report.specs.Report.{reported};
ghost use Rattle.cases.specs.ReportCases.{sum_of, reported_is, report_passes};

use crate::rows;
use numbers::Refusal;
use report::Reported;

// The sum that the first two numbers of a row stand for: thousands of millions, and the rest. Both may be below 0.
fn sum_of(row: &[i32]) -> i64
    ensures { result ≡ sum_of row.now }
{
    let high = rows::number_at(row, 0, 0);
    let low = rows::number_at(row, 1, 0);
    i64::from(high) * 1000000000 + i64::from(low)
}

// Whether the report's answer is the expected one.
fn reported_is(numbers: &[i32], expected: &[i32], answer: Result<Reported, Refusal>) -> bool
    ensures { result ≡ reported_is numbers.now expected.now (reported answer) }
{
    rows::answer_is(rows::size_at(numbers, 5), answer, |found| {
        rows::size_at(numbers, 6) == found.count
            && rows::is_at(numbers, 7, 0, found.least)
            && rows::is_at(numbers, 8, 0, found.greatest)
            && found.sum == sum_of(expected)
    })
}

// Whether the report answers so.
pub fn report(numbers: &[i32], records: &[i32], sum: &[i32]) -> bool
    ensures { result ≡ report_passes numbers.now records.now sum.now }
{
    let n = rows::size_at(numbers, 1);
    let offset = rows::number_at(numbers, 2, 0);
    let a = rows::size_at(numbers, 3);
    let b = rows::size_at(numbers, 4);
    let answer = report::report(n, offset, records, a, b);
    reported_is(numbers, sum, answer)
}
