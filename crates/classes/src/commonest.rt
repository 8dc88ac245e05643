// The commonest class of a cut, by the use counts of its classes.
ghost use Rattle.std.specs.Prelude.{◌≡◌, ◌+◌, ◌≤◌, ◌<◌, length};
ghost use Rattle.blocks.specs.Rows.{cut_place};
ghost use Rattle.blocks.specs.Uses.{commonest};
ghost use Rattle.blocks.specs.Inner.Layout.{in_cut};

use blocks::Common;

// The class with the greatest use count, the smallest number on a tie; class 0 with 0 where there is none.
fn commonest(use_counts: &[usize]) -> Common
    ensures { result ≡ commonest use_counts.now }
{
    let mut common = Common { class: 0, uses: 0 };
    for (class, uses) in use_counts.iter().enumerate() {
        if common.uses < *uses {
            common = Common { class, uses: *uses };
        }
    }
    common
}

// The commonest of the first so many classes of cut h, from a row of the use counts of all cuts.
pub fn commonest_of_cut(use_counts: &[usize], h: usize, count: usize) -> Common
    requires { (h < 64) × (cut_place h + count ≤ length use_counts.now) }
    ensures { result ≡ commonest (in_cut use_counts.now h count) }
{
    let start = numbers::arithmetic::power(h) - 1;
    let end = start + count;
    commonest(&use_counts[start..end])
}
