// The edges of a record: what Walk's check asks of its variable, its children and its weight.
ghost use Rattle.std.specs.Prelude.{◌≡◌, ◌-◌, ◌≤◌, pos};
ghost use Rattle.numbers.specs.Ranges.{within};
ghost use Rattle.diagram.specs.Walk.{child_fits, edges_fit};
ghost use Rattle.diagram.specs.Inner.Edges.{Recorded};

// Whether a number is one of the first of so many, from 0.
fn is_below(number: i32, count: usize) -> bool
    requires { 1 ≤ count }
    ensures { result ≡ within (pos 0) (pos (count - 1)) number }
{
    0 <= number && (number as usize) < count
}

// Whether a child of record k is node 0 or an earlier record of a lower variable.
fn child_fits(records: &[i32], k: usize, child: i32) -> bool
    requires { Recorded records.now k }
    ensures { result ≡ child_fits records.now k child }
{
    is_below(child, k)
        && (child == 0
            || diagram::records::number_at(records, child as usize, 0)
                < diagram::records::number_at(records, k, 0))
}

// Whether the variable, the children and the weight of record k fit.
pub(crate) fn edges_fit(n: usize, records: &[i32], k: usize) -> bool
    requires { (1 ≤ n) × Recorded records.now k }
    ensures { result ≡ edges_fit n records.now k }
{
    is_below(diagram::records::number_at(records, k, 0), n)
        && child_fits(records, k, diagram::records::number_at(records, k, 1))
        && child_fits(records, k, diagram::records::number_at(records, k, 2))
        && numbers::arithmetic::is_weight(diagram::records::number_at(records, k, 3))
}
