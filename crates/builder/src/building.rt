// The records of a table, from the classes of its cuts.
ghost use Rattle.std.specs.Prelude.{◌≤◌, length};
ghost use Rattle.diagram.specs.Accepted.{Accepted};
ghost use Rattle.diagram.specs.Build.{node_room, Builds};
ghost use Rattle.diagram.specs.Inner.Building.{AllRecorded};

use diagram::Built;
use diagram::cuts::Cuts;
use numbers::Refusal;

// The records of a table, from the classes of its cuts, by rising height.
fn write_records(cuts: &Cuts, nodes: &mut [i32]) -> usize
    requires { node_room cuts.now.n ≤ length nodes.old }
    ensures { AllRecorded cuts.now.n cuts.now.table.now nodes.old result nodes.new }
{
    let mut row = [0usize; blocks::ALL_PLACES];
    let mut made = 0;
    for h in (0..cuts.n).rev() {
        made = crate::recorder::place_cut(cuts, h, made, &mut row, nodes);
    }
    made
}

// Build for a table that passed its checks. How many blocks use each class is not asked for.
pub(crate) fn build_checked(n: usize, table: &[i32], nodes: &mut [i32]) -> Result<Built, Refusal>
    requires { Accepted n table.now }
    ensures { Builds n table.now nodes.old result nodes.new }
{
    if nodes.len() < diagram::records::node_room(n) {
        return Err(Refusal::NodeRoom);
    }
    let places = numbers::arithmetic::power(n + 1) - 1;
    let classes = &mut [0usize; blocks::ALL_PLACES][..places];
    let firsts = &mut [0usize; blocks::ALL_PLACES][..places];
    let counts = &mut [0usize; blocks::ALL_CUTS][..=n];
    let use_counts = &mut [0usize; blocks::ALL_PLACES][..places];
    classes::class_table(n, table, classes, firsts, counts, use_counts);
    let cuts = Cuts {
        n,
        table,
        classes,
        firsts,
        counts,
    };
    let made = write_records(&cuts, nodes);
    Ok(Built {
        nodes: made + 1,
        offset: blocks::first_value(table),
    })
}
