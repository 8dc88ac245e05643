// Classes through C. Nothing is required of the caller; rows of wrong sizes are left as they were.

ghost use Rattle.exports.specs.Classing.{Classed};

// The classes of all cuts: each block's class, each class's first block, the class count of each cut, how many classes were tried for
// each block, how many blocks up to and including it have its class, and how many have each class.
#[unsafe(no_mangle)]
pub extern "C" fn panstrait_classes(
    n: usize,
    table: &[i32],
    classes: &mut [usize],
    firsts: &mut [usize],
    counts: &mut [usize],
    tried: &mut [usize],
    uses: &mut [usize],
    use_counts: &mut [usize],
) -> bool
    ensures { Classed n table.now classes.old firsts.old counts.old tried.old uses.old use_counts.old result classes.new firsts.new counts.new tried.new uses.new use_counts.new }
{
    let rows = [
        classes.len(),
        firsts.len(),
        tried.len(),
        uses.len(),
        use_counts.len(),
    ];
    if !crate::sizes::sizes_fit(n, table.len(), counts.len(), &rows) {
        return false;
    }
    classes::class_cuts(n, table, classes, firsts, counts, tried, uses, use_counts);
    true
}
