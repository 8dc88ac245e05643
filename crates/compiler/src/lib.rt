// Compile: the image of the least-cost grouping of a table, written into a lent buffer.
#![tactic(auto)]

mod cells;
mod commands;
mod lengths;
mod nodes;
mod placing;
mod words;

ghost use Rattle.cascade.specs.Compile.{Compiles};

use cascade::Compiled;
use diagram::cuts::Cuts;
use numbers::Refusal;

// Compile: the image of the chosen grouping in the lent buffer, its length, the node count, Plan's cells and bits, or a
// refusal. Plan's refusal is handed on before any byte is written, and the classes are worked out once.
pub fn compile(n: usize, table: &[i32], limit: usize, image: &mut [u8]) -> Result<Compiled, Refusal>
    ensures { Compiles n table.now limit image.old result image.new }
{
    let mut classes = [0usize; blocks::ALL_PLACES];
    let mut firsts = [0usize; blocks::ALL_PLACES];
    let mut counts = [0usize; blocks::ALL_CUTS];
    let planned = planner::plan_leaving_classes(
        n,
        table,
        limit,
        &mut classes,
        &mut firsts,
        &mut counts,
    );
    // Kept: the paper fixes this form, a verdict taken apart by let else before any byte is written.
    let Ok(grouping) = planned.verdict else {
        return Err(planned.verdict.unwrap_err());
    };
    let places = numbers::arithmetic::power(n + 1) - 1;
    let cuts = Cuts {
        n,
        table,
        classes: &classes[..places],
        firsts: &firsts[..places],
        counts: &counts[..=n],
    };
    placing::place_image(&cuts, grouping, &planned.cells, image)
}
