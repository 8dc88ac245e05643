// What Build learns of a class.
ghost use Rattle.std.specs.Prelude.{◌≡◌, true, suc, ◌+◌, ◌-◌, ◌*◌, ◌^◌, ◌≤◌, ◌<◌, length, ◌-ℤ◌};
ghost use Rattle.numbers.specs.Lists.{every};
ghost use Rattle.numbers.specs.Ranges.{is_value};
ghost use Rattle.blocks.specs.Blocks.{block, first};
ghost use Rattle.blocks.specs.Inner.Layout.{class_at};
ghost use Rattle.diagram.specs.Inner.Building.{fork_of, ClassOfCut, Forking};
ghost use Rattle.diagram.specs.Records.{branches};

use diagram::Fork;
use diagram::cuts::Cuts;

// The weight of block j, whose halves have height i.
fn weight_of_block(table: &[i32], i: usize, j: usize) -> i32
    requires table_value { every is_value table.now ≡ true }
    requires i_bound { (i < 64) × ((j * 2 + 1) * 2 ^ i < length table.now) }
    ensures { result ≡ first (block table.now i (j * 2 + 1)) -ℤ first (block table.now i (j * 2)) }
{
    blocks::first_of_block(table, i, j * 2 + 1) - blocks::first_of_block(table, i, j * 2)
}

// Whether block j, whose halves have height i, branches: its upper half, the part that begins in its middle, differs from
// its lower half.
fn block_branches(table: &[i32], i: usize, j: usize) -> bool
    requires { (i < 63) × (j * 2 ^ suc i + 2 ^ suc i ≤ length table.now) }
    ensures { result ≡ branches i (block table.now (suc i) j) }
{
    let size = numbers::arithmetic::power(i + 1);
    let start = j * size;
    let end = start + size;
    !blocks::comparing::same_halves(&table[start..end])
}

// Whether class c of cut h branches, seen at its first block.
// Kept: a table and a row side by side; docs/DECISIONS.md names it as open, and a `Cuts` asks for more than they hold.
pub fn class_branches(n: usize, h: usize, c: usize, table: &[i32], firsts: &[usize]) -> bool
    requires { ClassOfCut n h c table.now firsts.now }
    ensures { result ≡ branches (n - suc h) (class_at n table.now h c) }
{
    let j = blocks::in_cut(firsts, h, c);
    block_branches(table, n - (h + 1), j)
}

// The fork of class c of cut h, read at the class's first block.
pub(crate) fn fork_at(cuts: &Cuts, h: usize, c: usize, row: &[usize]) -> Fork
    requires { Forking cuts.now.n h c cuts.now.table.now row.now }
    ensures { result ≡ fork_of cuts.now.n cuts.now.table.now (cuts.now.n - suc h) (class_at cuts.now.n cuts.now.table.now h c) }
{
    let j = blocks::in_cut(cuts.firsts, h, c);
    let low = blocks::in_cut(cuts.classes, h + 1, j * 2);
    let high = blocks::in_cut(cuts.classes, h + 1, j * 2 + 1);
    let weight = weight_of_block(cuts.table, cuts.n - (h + 1), j);
    Fork {
        low: blocks::in_cut(row, h + 1, low),
        high: blocks::in_cut(row, h + 1, high),
        weight,
        branching: class_branches(cuts.n, h, c, cuts.table, cuts.firsts),
    }
}
