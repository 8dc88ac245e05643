// Reach: the cuts that cells within an address limit arrive at, and the least limit that fits; what it is, what is proved of it, and
// the operation.
#![tactic(auto)]

mod counts;
mod narrow_cells;

ghost use Rattle.std.specs.Prelude.{◌≡◌};
ghost use Rattle.numbers.specs.Refusals.{answer_of};
ghost use Rattle.reach.specs.Reach.{Reaches};
ghost use Rattle.reach.specs.Inner.Checks.{call_checks};

use diagram::cuts::Cuts;
use numbers::Refusal;

// Reach's answer: how many cuts there are, the least address limit that fits, and the cuts, 0 past the last one.
// Kept: an array beside its count, since no operation allocates.
#[derive(Clone, Copy)]
pub struct Reached {
    pub count: usize,
    pub least: usize,
    pub cuts: [usize; blocks::ALL_CUTS],
}

// Plan's checks: those on the table, then that of the limit.
fn check_call(n: usize, table: &[i32], limit: usize) -> Result<(), Refusal>
    ensures { answer_of result ≡ call_checks n table.now limit }
{
    diagram::tables::check_table(n, table)?;
    if !numbers::arithmetic::is_limit(limit) {
        return Err(Refusal::Limit);
    }
    Ok(())
}

// Reach: the cuts and the least limit, from the class counts of all cuts, or a refusal.
pub fn reach(n: usize, table: &[i32], limit: usize) -> Result<Reached, Refusal>
    ensures { Reaches n table.now limit result }
{
    let mut classes = [0usize; blocks::ALL_PLACES];
    let mut firsts = [0usize; blocks::ALL_PLACES];
    let mut counts = [0usize; blocks::ALL_CUTS];
    let mut use_counts = [0usize; blocks::ALL_PLACES];
    check_call(n, table, limit)?;
    let places = numbers::arithmetic::power(n + 1) - 1;
    classes::class_table(
        n,
        table,
        &mut classes[..places],
        &mut firsts[..places],
        &mut counts[..=n],
        &mut use_counts[..places],
    );
    let cuts = Cuts {
        n,
        table,
        classes: &classes[..places],
        firsts: &firsts[..places],
        counts: &counts[..=n],
    };
    Ok(crate::counts::reach_counts(&cuts, limit))
}
