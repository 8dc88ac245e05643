// Blocks of a table and their classes: what they are, how blocks are compared, how many classes a search tries, how many blocks use a
// class, and where all that stands in rows of all cuts.
#![tactic(auto)]

pub mod comparing;

ghost use Rattle.std.specs.Prelude.{◌≡◌, ◌+◌, ◌*◌, ◌^◌, ◌<◌, length, get_or};
ghost use Rattle.blocks.specs.Blocks.{block, first};
ghost use Rattle.blocks.specs.Rows.{cut_place};

// The cuts of the largest table.
pub const ALL_CUTS: usize = numbers::MOST_VARIABLES + 1;

// The places that the blocks of all its cuts have in a row.
pub const ALL_PLACES: usize = 2 * numbers::MOST_VALUES - 1;

// A class and how many blocks have it.
#[derive(Clone, Copy)]
pub struct Common {
    pub class: usize,
    pub uses: usize,
}

// The first of some values, or 0 where there is none.
pub fn first_value(values: &[i32]) -> i32
    ensures { result ≡ first values.now }
{
    values.first().copied().unwrap_or(0)
}

// Number k of cut h in a row of all cuts.
pub fn in_cut(row: &[usize], h: usize, k: usize) -> usize
    requires { (h < 64) × (cut_place h + k < length row.now) }
    ensures { result ≡ get_or row.now (cut_place h + k) 0 }
{
    row[numbers::arithmetic::power(h) - 1 + k]
}

// The first value of block j of height i.
pub fn first_of_block(table: &[i32], i: usize, j: usize) -> i32
    requires { (i < 64) × (j * 2 ^ i < length table.now) }
    ensures { result ≡ first (block table.now i j) }
{
    table[j * numbers::arithmetic::power(i)]
}
