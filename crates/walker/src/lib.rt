// Walk: the check of a record list, and its value at X.
#![tactic(auto, unfolding(diagram::specs::Records::record_size))]

mod edges;
pub mod lists;
mod node_ranges;
pub mod paths;

ghost use Rattle.std.specs.Prelude.{◌≡◌};
ghost use Rattle.numbers.specs.Refusals.{answer_of};
ghost use Rattle.diagram.specs.Walk.{walk};

use crate::lists::RecordList;
use numbers::Refusal;

// The value that a record list gives at X.
pub fn walk(n: usize, offset: i32, records: &[i32], x: usize) -> Result<i32, Refusal>
    ensures { answer_of result ≡ walk n offset records.now x }
{
    crate::lists::check_list(n, offset, records)?;
    if x >= numbers::arithmetic::power(n) {
        return Err(Refusal::Index);
    }
    let list = RecordList { n, offset, records };
    Ok(list.value_at(x))
}
