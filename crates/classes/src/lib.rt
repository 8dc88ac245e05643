// The classes of every cut: each block's class, each class's first block, how many classes a cut has, how many classes were tried for
// each block, how many blocks up to and including it have its class, and how many have each class.
#![tactic(auto)]

pub mod commonest;
mod cuts;
mod search;

ghost use Rattle.std.specs.Prelude.{◌≡◌, suc, length};
ghost use Rattle.blocks.specs.Rows.{cut_place, all_use_rows};
ghost use Rattle.blocks.specs.Inner.Layout.{CutsRoom, AllClassed};
ghost use Rattle.classes.specs.Inner.Searched.{SearchRoom, AllSearched};

// The classes of all cuts: each block's class, each class's first block, the class count of each cut, and what the search tells of
// each block and of each class.
// Kept: rows side by side, as the C interface lends them.
pub fn class_cuts(
    n: usize,
    table: &[i32],
    classes: &mut [usize],
    firsts: &mut [usize],
    counts: &mut [usize],
    tried: &mut [usize],
    uses: &mut [usize],
    use_counts: &mut [usize],
)
    requires cuts_room { CutsRoom n table.now classes.old firsts.old × SearchRoom n tried.old uses.old use_counts.old }
    requires counts_len { length counts.old ≡ suc n }
    ensures all_classed { AllClassed n table.now classes.new firsts.new counts.new }
    ensures all_searched { AllSearched n table.now tried.new uses.new use_counts.new }
{
    for h in 0..n + 1 {
        // Cut h has 2^h blocks, and stands in the rows of all cuts from place 2^h - 1 on.
        let count = numbers::arithmetic::power(h);
        let size = numbers::arithmetic::power(n - h);
        let start = count - 1;
        let end = start + count;
        counts[h] = crate::cuts::class_cut(
            table,
            size,
            &mut classes[start..end],
            &mut firsts[start..end],
            &mut tried[start..end],
            &mut uses[start..end],
            &mut use_counts[start..end],
        );
    }
}

// The same, where of what the search tells only the use counts are asked for.
// Kept: rows side by side, since each is lent to be written into.
pub fn class_table(
    n: usize,
    table: &[i32],
    classes: &mut [usize],
    firsts: &mut [usize],
    counts: &mut [usize],
    use_counts: &mut [usize],
)
    requires cuts_room { CutsRoom n table.now classes.old firsts.old × (length use_counts.old ≡ cut_place (suc n)) }
    requires counts_len { length counts.old ≡ suc n }
    ensures all_classed { AllClassed n table.now classes.new firsts.new counts.new }
    ensures use_counts_after { use_counts.new ≡ all_use_rows n table.now }
{
    let mut tried = [0usize; blocks::ALL_PLACES];
    let mut uses = [0usize; blocks::ALL_PLACES];
    let places = classes.len();
    class_cuts(
        n,
        table,
        classes,
        firsts,
        counts,
        &mut tried[..places],
        &mut uses[..places],
        use_counts,
    );
}
