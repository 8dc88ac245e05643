// Record lists: Walk's check of them, and what passed it.
ghost use Rattle.std.specs.Prelude.{◌≡◌, true};
ghost use Rattle.numbers.specs.Refusals.{answer_of};
ghost use Rattle.numbers.specs.Lists.{numbers_from, every};
ghost use Rattle.numbers.specs.Ranges.{is_variables};
ghost use Rattle.diagram.specs.Walk.{record_fits, record_count, list_fits, walk_value};
ghost use Rattle.diagram.specs.Inner.Checks.{list_checks};
ghost use Rattle.diagram.specs.Inner.Edges.{Recorded, EarlierPass, Passing};

use numbers::Refusal;

// Whether record k passes Walk's check, where all records before it do: they tell the ranges of its children.
fn record_fits(n: usize, records: &[i32], k: usize) -> bool
    requires { (is_variables n ≡ true) × Recorded records.now k × EarlierPass n records.now k }
    ensures { result ≡ record_fits n records.now k }
{
    crate::edges::edges_fit(n, records, k) && crate::node_ranges::range_follows(records, k)
}

// Whether every record does.
fn records_fit(n: usize, records: &[i32]) -> bool
    requires { is_variables n ≡ true }
    ensures { result ≡ every (record_fits n records.now) (numbers_from 1 (record_count records.now)) }
{
    let count = records.len() / diagram::records::RECORD_SIZE;
    (1..=count).all(|k| record_fits(n, records, k))
}

// Whether a record list passes Walk's check.
fn list_fits(n: usize, records: &[i32]) -> bool
    requires { is_variables n ≡ true }
    ensures { result ≡ list_fits n records.now }
{
    records.len() % diagram::records::RECORD_SIZE == 0
        && records.len() <= diagram::records::node_room(n)
        && records_fit(n, records)
}

// The checks on an offset and a record list, in their order.
pub fn check_list(n: usize, offset: i32, records: &[i32]) -> Result<(), Refusal>
    ensures { answer_of result ≡ list_checks n offset records.now }
{
    if !numbers::arithmetic::is_variables(n) {
        return Err(Refusal::Variables);
    }
    if !numbers::arithmetic::is_value(offset) {
        return Err(Refusal::Offset);
    }
    if !list_fits(n, records) {
        return Err(Refusal::Records);
    }
    Ok(())
}

// A record list that passed Walk's check, with its number of variables and its offset.
#[derive(Clone, Copy)]
pub struct RecordList<'a> {
    pub n: usize,
    pub offset: i32,
    pub records: &'a [i32],
    ghost passing: { Passing n offset records.now },
}

impl RecordList<'_> {
    // The offset plus the weights of the 1-edges on the path from the root.
    pub(crate) fn value_at(&self, x: usize) -> i32
        ensures { result ≡ walk_value self.now.n self.now.offset self.now.records.now x }
    {
        let root = crate::paths::root_of(self.offset, self.records);
        crate::paths::walk_on(self.records, 0, self.n, root, x).value
    }
}
