// Plan and Compile through C. No function here requires anything of its caller; a refusal leaves every lent buffer as it was.
ghost use Rattle.exports.specs.CascadeGiven.{PlanGiven, CompileGiven};

// Plan: the sizes of the chosen grouping and the numbers of its cells, their count and their bits, or the refusal's number.
#[unsafe(no_mangle)]
pub extern "C" fn panstrait_plan(
    n: usize,
    table: &[i32],
    limit: usize,
    sizes: &mut [usize; cascade::MOST_CELLS],
    cells: &mut [usize; cascade::cell_rows::ROW_NUMBERS],
    count: &mut usize,
    bits: &mut usize,
) -> u8
    ensures { PlanGiven n table.now limit sizes.old cells.old count.old bits.old result sizes.new cells.new count.new bits.new }
{
    let planned = planner::plan(n, table, limit);
    match planned.verdict {
        Ok(grouping) => {
            // Kept: by a name, since the proof does not close where the field itself is written.
            let chosen = planned.sizes;
            *sizes = chosen;
            *cells = cascade::cell_rows::cell_rows(planned.cells);
            *count = grouping.cells;
            *bits = grouping.bits;
            0
        }
        Err(refusal) => u8::from(refusal),
    }
}

// Compile: the image of the chosen grouping in front of the lent buffer, the numbers of its cells, its length, the node
// count, the number of cells and their bits, or the refusal's number.
#[unsafe(no_mangle)]
pub extern "C" fn panstrait_compile(
    n: usize,
    table: &[i32],
    limit: usize,
    image: &mut [u8],
    cells: &mut [usize; cascade::cell_rows::ROW_NUMBERS],
    length: &mut usize,
    nodes: &mut usize,
    count: &mut usize,
    bits: &mut usize,
) -> u8
    ensures { CompileGiven n table.now limit image.old cells.old length.old nodes.old count.old bits.old result image.new cells.new length.new nodes.new count.new bits.new }
{
    match compiler::compile(n, table, limit, image) {
        Ok(compiled) => {
            *cells = cascade::cell_rows::cell_rows(compiled.cells);
            *length = compiled.length;
            *nodes = compiled.nodes;
            *count = compiled.count;
            *bits = compiled.bits;
            0
        }
        Err(refusal) => u8::from(refusal),
    }
}
