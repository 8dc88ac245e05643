// Reach through C. It requires nothing of its caller; a refusal leaves every lent buffer as it was.
ghost use Rattle.exports.specs.ReachGiven.{ReachGiven};

// Reach: the cuts that fitting cells arrive at, their count and the least limit that fits, or the refusal's number.
#[unsafe(no_mangle)]
pub extern "C" fn panstrait_reach(
    n: usize,
    table: &[i32],
    limit: usize,
    cuts: &mut [usize; blocks::ALL_CUTS],
    count: &mut usize,
    least: &mut usize,
) -> u8
    ensures { ReachGiven n table.now limit cuts.old count.old least.old result cuts.new count.new least.new }
{
    match reach::reach(n, table, limit) {
        Ok(reached) => {
            // Kept: by a name, since the proof does not close where the field itself is written.
            let list = reached.cuts;
            *cuts = list;
            *count = reached.count;
            *least = reached.least;
            0
        }
        Err(refusal) => u8::from(refusal),
    }
}
