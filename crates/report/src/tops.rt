// The path of X above the lowest variables, which neighbours share: three are the lowest, or all of fewer.
ghost use Rattle.std.specs.Prelude.{◌≡◌, ◌+◌, ◌^◌, ◌<◌};
ghost use Rattle.diagram.specs.Inner.Edges.{descend, PathReady};
ghost use Rattle.report.specs.Inner.Tops.{lowest_of, top_at};

use diagram::Waypoint;
use walker::lists::RecordList;

// How many variables are the lowest.
#[tactic(auto, unfolding(crate::specs::Inner::Tops::lowest_of))]
fn lowest(n: usize) -> usize
    ensures { result ≡ lowest_of n }
{
    n.min(3)
}

// What the path of X reaches from the root with the lowest variables still to be read.
pub(crate) fn top_at(list: &RecordList, x: usize) -> Waypoint
    ensures { result ≡ top_at list.now.n list.now.offset list.now.records.now x }
{
    let low = lowest(list.n);
    let root = walker::paths::root_of(list.offset, list.records);
    walker::paths::walk_on(list.records, low, list.n - low, root, x)
}

// The same for the X after x, from that for x.
pub(crate) fn next_top(list: &RecordList, x: usize, top: Waypoint) -> Waypoint
    requires { (x + 1 < 2 ^ list.now.n) × (top ≡ top_at list.now.n list.now.offset list.now.records.now x) }
    ensures { result ≡ top_at list.now.n list.now.offset list.now.records.now (x + 1) }
{
    if (x + 1) % 8 != 0 {
        return top;
    }
    top_at(list, x + 1)
}

// The value at the end of the path from there.
pub(crate) fn value_below(list: &RecordList, top: Waypoint, x: usize) -> i32
    requires { PathReady list.now.records.now 0 (lowest_of list.now.n) top }
    ensures { result ≡ (descend list.now.records.now 0 (lowest_of list.now.n) x top).value }
{
    walker::paths::walk_on(list.records, 0, lowest(list.n), top, x).value
}
