// The node count, counted from the classes' branching.
ghost use Rattle.std.specs.Prelude.{◌≡◌, ◌<◌};
ghost use Rattle.diagram.specs.Records.{node_count};
ghost use Rattle.compiler.specs.Inner.Counted.{branching_at};

use builder::forks::class_branches;
use diagram::cuts::Cuts;

// How many of the classes of cut h branch.
fn count_branching(cuts: &Cuts, h: usize) -> usize
    requires { h < cuts.now.n }
    ensures { result ≡ branching_at cuts.now.n cuts.now.table.now h }
{
    (0..cuts.class_count(h))
        .filter(|c| class_branches(cuts.n, h, *c, cuts.table, cuts.firsts))
        .count()
}

// The terminal, and a record for each branching class of each cut.
pub(crate) fn count_nodes(cuts: &Cuts) -> usize
    ensures { result ≡ node_count cuts.now.n cuts.now.table.now }
{
    1 + (0..cuts.n).map(|h| count_branching(cuts, h)).sum::<usize>()
}
