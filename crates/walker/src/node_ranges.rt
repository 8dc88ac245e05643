// The range of a node in a record list, judged by those of its children.
ghost use Rattle.std.specs.Prelude.{◌≡◌, ◌≤◌};
ghost use Rattle.diagram.specs.Walk.{record_count};
ghost use Rattle.diagram.specs.Inner.Edges.{range_at, range_from, range_follows, RangeReady};

use diagram::Range;

// The range that a list gives for node k: that of its record, 0 and 0 for node 0.
fn range_at(records: &[i32], k: usize) -> Range
    requires { k ≤ record_count records.now }
    ensures { result ≡ range_at records.now k }
{
    if k == 0 {
        return Range {
            least: 0,
            greatest: 0,
        };
    }
    Range {
        least: diagram::records::number_at(records, k, 4),
        greatest: diagram::records::number_at(records, k, 5),
    }
}

// The range of record k, from those of its children and its weight.
fn range_from(records: &[i32], k: usize) -> Range
    requires { RangeReady records.now k }
    ensures { result ≡ range_from records.now k }
{
    let low = range_at(records, diagram::records::number_at(records, k, 1) as usize);
    let high = range_at(records, diagram::records::number_at(records, k, 2) as usize);
    let weight = diagram::records::number_at(records, k, 3);
    Range {
        least: numbers::arithmetic::lesser_of(low.least, weight + high.least),
        greatest: numbers::arithmetic::greater_of(low.greatest, weight + high.greatest),
    }
}

// Whether record k has that range.
pub(crate) fn range_follows(records: &[i32], k: usize) -> bool
    requires { RangeReady records.now k }
    ensures { result ≡ range_follows records.now k }
{
    range_at(records, k) == range_from(records, k)
}
