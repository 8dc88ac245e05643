// The path of X through a record list.
ghost use Rattle.std.specs.Prelude.{◌≡◌, ◌<◌};
ghost use Rattle.diagram.specs.Inner.Edges.{Walkable, edge_at, descend, root_of, PathReady};

use diagram::{Edge, Waypoint};

// The edge that X takes from node k at variable i, or none where k is node 0 or a record of another variable.
fn edge_at(records: &[i32], i: usize, k: usize, x: usize) -> Edge
    requires { (i < 12) × Walkable records.now k }
    ensures { result ≡ edge_at records.now i k x }
{
    if k == 0 {
        return Edge { weight: 0, node: 0 };
    }
    if diagram::records::number_at(records, k, 0) != i as i32 {
        return Edge { weight: 0, node: k };
    }
    if (x >> i) % 2 == 1 {
        return Edge {
            weight: diagram::records::number_at(records, k, 3),
            node: diagram::records::number_at(records, k, 2) as usize,
        };
    }
    Edge {
        weight: 0,
        node: diagram::records::number_at(records, k, 1) as usize,
    }
}

// Where every path starts: the offset, and the root.
pub fn root_of(offset: i32, records: &[i32]) -> Waypoint
    ensures { result ≡ root_of offset records.now }
{
    Waypoint {
        value: offset,
        node: records.len() / diagram::records::RECORD_SIZE,
    }
}

// What the path of X reaches from a value and a node, once so many variables from low on are read, the highest first.
pub fn walk_on(records: &[i32], low: usize, count: usize, reached: Waypoint, x: usize) -> Waypoint
    requires { PathReady records.now low count reached }
    ensures { result ≡ descend records.now low count x reached }
{
    let mut value = reached.value;
    let mut node = reached.node;
    for left in (0..count).rev() {
        let edge = edge_at(records, low + left, node, x);
        value += edge.weight;
        node = edge.node;
    }
    Waypoint { value, node }
}
