// Build and Walk through C. No function here requires anything of its caller; a refusal leaves every lent buffer as it was.
ghost use Rattle.exports.specs.DiagramGiven.{BuildGiven, WalkGiven};

// Build: the records of a table, its node count and its offset, or the refusal's number.
#[unsafe(no_mangle)]
pub extern "C" fn panstrait_build(
    n: usize,
    table: &[i32],
    nodes: &mut [i32],
    count: &mut usize,
    offset: &mut i32,
) -> u8
    ensures { BuildGiven n table.now nodes.old count.old offset.old result nodes.new count.new offset.new }
{
    match builder::build(n, table, nodes) {
        Ok(built) => {
            *count = built.nodes;
            *offset = built.offset;
            0
        }
        Err(refusal) => u8::from(refusal),
    }
}

// Walk: the value at X of a record list, or the refusal's number.
#[unsafe(no_mangle)]
pub extern "C" fn panstrait_walk(
    n: usize,
    offset: i32,
    records: &[i32],
    x: usize,
    value: &mut i32,
) -> u8
    ensures { WalkGiven n offset records.now x value.old result value.new }
{
    match walker::walk(n, offset, records, x) {
        Ok(found) => {
            *value = found;
            0
        }
        Err(refusal) => u8::from(refusal),
    }
}
