// The report on the values of a record list over a part of its domain: what it is, what is proved of it, and the operation: the
// checks of a record list and of the part, then the values there one after the other.
#![tactic(auto)]

mod tops;

ghost use Rattle.std.specs.Prelude.{◌≡◌, true, ◌<◌};
ghost use Rattle.report.specs.Report.{values_from, figures_of, figures_in, is_part, report, reported};

use numbers::Refusal;
use walker::lists::RecordList;

// What the report answers: how many values there are, the least, the greatest and the sum of them.
#[derive(Clone, Copy, Debug, PartialEq, Eq)]
pub struct Reported {
    pub count: usize,
    pub least: i32,
    pub greatest: i32,
    pub sum: i64,
}

// Whether X from a to b is a part of the domain.
#[tactic(auto, unfolding(crate::specs::Report::is_part))]
fn is_part(n: usize, a: usize, b: usize) -> bool
    requires { n < 64 }
    ensures { result ≡ is_part n a b }
{
    a <= b && b < numbers::arithmetic::power(n)
}

// The figures of the values at X from a to b.
fn figures(list: &RecordList, a: usize, b: usize) -> Reported
    requires { is_part list.now.n a b ≡ true }
    ensures { figures_in result ≡ figures_of (values_from list.now.n list.now.offset list.now.records.now a b) }
{
    let mut top = crate::tops::top_at(list, a);
    let first = crate::tops::value_below(list, top, a);
    let mut least = first;
    let mut greatest = first;
    let mut sum = i64::from(first);
    for x in a..b {
        top = crate::tops::next_top(list, x, top);
        let value = crate::tops::value_below(list, top, x + 1);
        least = numbers::arithmetic::lesser_of(least, value);
        greatest = numbers::arithmetic::greater_of(greatest, value);
        sum += i64::from(value);
    }
    Reported {
        count: b - a + 1,
        least,
        greatest,
        sum,
    }
}

// Count, least, greatest and sum of the values that a record list gives at X from a to b, both included.
pub fn report(
    n: usize,
    offset: i32,
    records: &[i32],
    a: usize,
    b: usize,
) -> Result<Reported, Refusal>
    ensures { reported result ≡ report n offset records.now a b }
{
    walker::lists::check_list(n, offset, records)?;
    if !is_part(n, a, b) {
        return Err(Refusal::Part);
    }
    let list = RecordList { n, offset, records };
    Ok(figures(&list, a, b))
}
