// The classes of one cut: the class of each block, one after the other, the first block of each class, how many classes were tried
// for each block, how many blocks up to and including it have its class, and how many have each class.
ghost use Rattle.std.specs.Prelude.{◌≡◌, ◌/◌, ◌≤◌, ◌<◌, length};
ghost use Rattle.classes.specs.Inner.Finding.{cut_lists, found_at, BlocksBefore};
ghost use Rattle.classes.specs.Inner.Noting.{latest_class, count_noted, firsts_noted, uses_noted, cut_rows};
ghost use Rattle.classes.specs.Inner.Classing.{CutRoom, CutClassed};

use crate::search::{Found, Known};

// What the search finds for block j of a cut. Its first block has a new class, that of the whole table at cut 0; any other is a half of
// a block of the cut above, the upper half being the part that begins in that block's middle.
// Kept: row by row, since at a cut's first block there is no `Known` yet.
fn find_block(
    table: &[i32],
    size: usize,
    j: usize,
    firsts: &[usize],
    use_counts: &[usize],
    latest: usize,
) -> Found
    requires { BlocksBefore table.now size j firsts.now use_counts.now latest }
    ensures { result ≡ found_at (cut_lists table.now size (length table.now / size)) j }
{
    if j == 0 {
        // No class is known yet.
        return Found {
            class: 0,
            tried: 0,
            uses: 1,
        };
    }
    let start = j / 2 * (2 * size);
    let end = start + 2 * size;
    let (lower, upper) = table[start..end].split_at(size);
    let half = if j % 2 == 0 { lower } else { upper };
    let known = Known {
        table,
        size,
        firsts,
        use_counts,
        latest,
    };
    known.find_class(half)
}

// The latest class at block j: that of the block just before, and 0 at the first block, where no class is known.
fn latest_class(classes: &[usize], j: usize) -> usize
    requires { j ≤ length classes.now }
    ensures { result ≡ latest_class classes.now j }
{
    classes[..j].last().copied().unwrap_or(0)
}

// The first block of a new class is noted behind those known, in a row of one place for each block so far.
fn note_first(firsts: &mut [usize], count: usize, j: usize, class: usize) -> usize
    requires { (count ≤ j) × (j < length firsts.old) }
    ensures { (result ≡ count_noted count class) × (firsts.new ≡ firsts_noted firsts.old count j class) }
{
    firsts[j] = 0;
    if class == count {
        firsts[count] = j;
        return count + 1;
    }
    count
}

// The uses of a class are noted, in a row of one place for each block so far.
fn note_uses(use_counts: &mut [usize], j: usize, class: usize, uses: usize)
    requires { (class ≤ j) × (j < length use_counts.old) }
    ensures { use_counts.new ≡ uses_noted use_counts.old j class uses }
{
    use_counts[j] = 0;
    use_counts[class] = uses;
}

// The classes of a cut whose blocks have this size: each block's class, each class's first block, how many classes were tried for
// each block and how many blocks up to it have its class, each class's use count, and the class count.
// Kept: rows side by side, since each is lent to be written into.
pub(crate) fn class_cut(
    table: &[i32],
    size: usize,
    classes: &mut [usize],
    firsts: &mut [usize],
    tried: &mut [usize],
    uses: &mut [usize],
    use_counts: &mut [usize],
) -> usize
    requires { CutRoom table.now size (cut_rows 0 classes.old firsts.old tried.old uses.old use_counts.old) }
    ensures { CutClassed table.now size (length classes.old) (cut_rows result classes.new firsts.new tried.new uses.new use_counts.new) }
{
    let mut count = 0;
    for j in 0..classes.len() {
        let latest = latest_class(classes, j);
        let found = find_block(
            table,
            size,
            j,
            &firsts[..count],
            &use_counts[..count],
            latest,
        );
        classes[j] = found.class;
        tried[j] = found.tried;
        uses[j] = found.uses;
        note_uses(use_counts, j, found.class, found.uses);
        count = note_first(firsts, count, j, found.class);
    }
    count
}
