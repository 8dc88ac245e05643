// The words of a cell, read off the table and the classes of its cuts.
ghost use Rattle.std.specs.Prelude.{◌≡◌};
ghost use Rattle.blocks.specs.Rows.{all_numbers};
ghost use Rattle.cascade.specs.Inner.Words.{cell_word, word_block, BlockReady, WordReady};

// The block at cut h + g that word k of the cell from cut h stands for.
fn word_block(h: usize, g: usize, k: usize, firsts: &[usize]) -> usize
    requires { BlockReady firsts.now h g k }
    ensures { result ≡ word_block firsts.now h g k }
{
    let values = 1usize << g;
    blocks::in_cut(firsts, h, k / values) * values + k % values
}

// The weight of word k: the first value of its block less that of the block at cut h around it.
// Kept: a table and a row side by side; docs/DECISIONS.md names it as open, and a `Cuts` asks for more than they hold.
pub fn word_weight(n: usize, h: usize, g: usize, k: usize, table: &[i32], firsts: &[usize]) -> i32
    requires { WordReady n h g k table.now firsts.now }
    ensures { result ≡ (cell_word n table.now h g k).weight }
{
    let block = word_block(h, g, k, firsts);
    let around = block / (1 << g);
    blocks::first_of_block(table, n - (h + g), block) - blocks::first_of_block(table, n - h, around)
}

// The class of word k.
// Kept: a table and its rows side by side, as in word_weight.
pub fn word_class(
    n: usize,
    h: usize,
    g: usize,
    k: usize,
    table: &[i32],
    classes: &[usize],
    firsts: &[usize],
) -> usize
    requires { WordReady n h g k table.now firsts.now × (classes.now ≡ all_numbers n table.now) }
    ensures { result ≡ (cell_word n table.now h g k).class }
{
    blocks::in_cut(classes, h + g, word_block(h, g, k, firsts))
}
