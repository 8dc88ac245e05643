// The cascade: groupings of a table's variables, their cells and words, and what Plan and Compile answer.
#![tactic(auto)]

pub mod cell_rows;
pub mod words;

use numbers::Refusal;

// The most cells that a grouping can have: one for each variable.
pub const MOST_CELLS: usize = numbers::MOST_VARIABLES;

// A cell of a plan, with the commonest of its outgoing classes, the smallest number on a tie, and how many blocks of the cut where it
// ends use that class.
#[derive(Clone, Copy)]
pub struct Cell {
    pub group: usize,
    pub incoming: usize,
    pub outgoing: usize,
    pub width: usize,
    pub bits: usize,
    pub common: usize,
    pub uses: usize,
}

// What stands past the last cell.
pub const NO_CELL: Cell = Cell {
    group: 0,
    incoming: 0,
    outgoing: 0,
    width: 0,
    bits: 0,
    common: 0,
    uses: 0,
};

// A grouping that was found: how many cells it has, and their memory bits.
#[derive(Clone, Copy)]
pub struct Grouping {
    pub cells: usize,
    pub bits: usize,
}

// Plan's answer: the verdict beside the sizes and the cells, which hold 0 past the last one, and all 0 in a refusal.
// Kept: the paper fixes this form, a verdict beside arrays.
#[derive(Clone, Copy)]
pub struct Planned {
    pub verdict: Result<Grouping, Refusal>,
    pub sizes: [usize; MOST_CELLS],
    pub cells: [Cell; MOST_CELLS],
}

// Compile's answer: the image's length, the node count, and Plan's cells with their count and their bits. The image stands in the
// lent buffer.
// Kept: an array beside its count, here and in `Planned`, since no operation allocates.
#[derive(Clone, Copy)]
pub struct Compiled {
    pub length: usize,
    pub nodes: usize,
    pub count: usize,
    pub bits: usize,
    pub cells: [Cell; MOST_CELLS],
}

// The choice at a cut: the least cost of a list of sizes from there on, and the first size to take.
#[derive(Clone, Copy)]
pub struct Choice {
    pub cost: usize,
    pub size: usize,
}
