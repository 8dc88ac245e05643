// What Reach answers, from the class counts of all cuts.
ghost use Rattle.std.specs.Prelude.{◌≡◌, suc, ◌≤◌};
ghost use Rattle.numbers.specs.Lists.{numbers_from, padded};
ghost use Rattle.reach.specs.Inner.Counts.{reached_in};

use crate::Reached;
use diagram::cuts::Cuts;

// The cuts from 0 to the last one, and 0 behind them.
#[tactic(auto, using(crate::proofs::Laws::Counts::list_last))]
fn list_cuts(last: usize) -> [usize; blocks::ALL_CUTS]
    requires { last ≤ 12 }
    ensures { result ≡ padded 13 0 (numbers_from 0 (suc last)) }
{
    let mut cuts = [0usize; blocks::ALL_CUTS];
    for h in 0..=last {
        cuts[h] = h;
    }
    cuts
}

// The cuts and the least limit.
pub(crate) fn reach_counts(cuts: &Cuts, limit: usize) -> Reached
    ensures { result ≡ reached_in cuts.now.n limit cuts.now.counts.now }
{
    let last = crate::narrow_cells::furthest_cut(cuts, limit);
    let least = crate::narrow_cells::least_limit(cuts);
    Reached {
        count: last + 1,
        least,
        cuts: list_cuts(last),
    }
}
