// Two clients of the operations, proved from the operations' contracts alone: they show that the contracts say enough.
ghost use Rattle.demands.specs.Clients.{RunsTable, ExpandsTable};

use image::Evaluated;
use numbers::Refusal;

// A table is compiled into a lent buffer, and the compiled image is run at X.
#[tactic(auto, using(crate::proofs::Laws::Clients::front_inside, crate::proofs::Laws::Clients::front_length, crate::proofs::Laws::Clients::run_gives))]
pub fn run_table(
    n: usize,
    table: &[i32],
    limit: usize,
    image: &mut [u8],
    x: usize,
) -> Result<Evaluated, Refusal>
    ensures { RunsTable n table.now limit image.old x result image.new }
{
    let compiled = compiler::compile(n, table, limit, image)?;
    runner::run(&image[..compiled.length], x)
}

// A table is compiled into a lent buffer, and the compiled image is expanded into another.
// Kept: two lines like run_table's, which a function over closures would not shorten.
#[tactic(auto, using(crate::proofs::Laws::Clients::front_inside, crate::proofs::Laws::Clients::front_length))]
pub fn expand_table(
    n: usize,
    table: &[i32],
    limit: usize,
    image: &mut [u8],
    values: &mut [i32],
) -> Result<(), Refusal>
    ensures { ExpandsTable n table.now limit image.old values.old result image.new values.new }
{
    let compiled = compiler::compile(n, table, limit, image)?;
    runner::expand(&image[..compiled.length], values)
}
