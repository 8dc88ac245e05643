// Build: the reduced diagram of a table, from the classes of its cuts.
#![tactic(auto)]

mod building;
pub mod forks;
mod ranges;
mod recorder;

ghost use Rattle.diagram.specs.Build.{Builds};

use diagram::Built;
use numbers::Refusal;

// The reduced diagram of a table: its records in the lent buffer, its node count and its offset.
pub fn build(n: usize, table: &[i32], nodes: &mut [i32]) -> Result<Built, Refusal>
    ensures { Builds n table.now nodes.old result nodes.new }
{
    diagram::tables::check_table(n, table)?;
    building::build_checked(n, table, nodes)
}
