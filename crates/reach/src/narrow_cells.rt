// The cells of one variable, by the class counts of all cuts: the furthest cut that they reach, and the widest of them. From a cut no
// cell is narrower than that of one variable, and rails grow by one at most from cut to cut: cells of one variable reach every cut
// that fitting cells reach.
ghost use Rattle.std.specs.Prelude.{◌≡◌, ◌<◌};
ghost use Rattle.reach.specs.Inner.Narrowest.{furthest, widest_above};
ghost use Rattle.reach.specs.Inner.NarrowCells.{narrowest_in};

use diagram::cuts::Cuts;

// The address width of the cell of one variable from cut h.
fn narrowest(cuts: &Cuts, h: usize) -> usize
    requires { h < cuts.now.n }
    ensures { result ≡ narrowest_in cuts.now.counts.now h }
{
    numbers::widths::rail_width(cuts.class_count(h) as u32) + 1
}

// The furthest cut that is reached.
pub(crate) fn furthest_cut(cuts: &Cuts, limit: usize) -> usize
    ensures { result ≡ furthest (narrowest_in cuts.now.counts.now) limit cuts.now.n }
{
    (0..cuts.n)
        .find(|h| limit < narrowest(cuts, *h))
        .unwrap_or(cuts.n)
}

// The least limit that fits: the widest of those cells from the cuts above the bottom.
pub(crate) fn least_limit(cuts: &Cuts) -> usize
    ensures { result ≡ widest_above (narrowest_in cuts.now.counts.now) cuts.now.n }
{
    let mut least = 0;
    for h in 0..cuts.n {
        least = least.max(narrowest(cuts, h));
    }
    least
}
