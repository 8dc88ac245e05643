// The reduced edge-valued decision diagram of a table: its definitions, what Build and Walk answer, the checks on a table, and the
// layout of a record in a buffer.
#![tactic(auto)]

pub mod cuts;
pub mod records;
pub mod tables;

// What Build answers beside the records, which stand in the lent buffer: the node count and the offset.
#[derive(Clone, Copy)]
pub struct Built {
    pub nodes: usize,
    pub offset: i32,
}

// What reading a variable at a node gives: a weight, and the next node.
#[derive(Clone, Copy)]
pub struct Edge {
    pub weight: i32,
    pub node: usize,
}

// What a path has reached: the value so far, and the next node.
#[derive(Clone, Copy)]
pub struct Waypoint {
    pub value: i32,
    pub node: usize,
}

// The least and the greatest value of a function.
#[derive(Clone, Copy, PartialEq, Eq)]
pub struct Range {
    pub least: i32,
    pub greatest: i32,
}

// What Build learns of a class: the nodes of its halves, its weight, and whether it branches.
// Kept: a flag beside values, since the node of the lower half is asked for whether or not the class branches.
#[derive(Clone, Copy)]
pub struct Fork {
    pub low: usize,
    pub high: usize,
    pub weight: i32,
    pub branching: bool,
}
