// The text of a table.
ghost use Rattle.std.specs.Prelude.{◌≤◌, length};
ghost use Rattle.cascade.specs.Plan.{plan};
ghost use Rattle.cascade.specs.Inner.Planned.{groups};
ghost use Rattle.listing.specs.Listing.{most_listed, table_text, answer_text};
ghost use Rattle.listing.specs.Inner.Listed.{TextReady};
ghost use Rattle.listing.specs.Program.{text_room};
ghost use Rattle.lines.specs.Inner.Writing.{Writes};

use cascade::{Cell, Grouping};

// The numbers of the records that a listed table can have.
const NODE_ROOM: usize = diagram::records::RECORD_SIZE * (crate::LISTED_VALUES - 1);

// The text of an accepted table, which Build does not refuse, and of its planned cells, in front. Answers its length.
#[tactic(auto, using(cascade::proofs::Laws::Planned::few))]
fn write_table(
    n: usize,
    table: &[i32],
    grouping: Grouping,
    planned: &[Cell; cascade::MOST_CELLS],
    text: &mut [u8],
) -> usize
    requires { TextReady n table.now planned.now grouping.cells grouping.bits text.old }
    ensures { Writes text.old 0 (table_text n table.now (groups planned.now grouping.cells)) result text.new }
{
    let mut nodes = [0i32; NODE_ROOM];
    let built = builder::build(n, table, &mut nodes).unwrap();
    let next = crate::node_lines::write_diagram(text, n, built.offset, &nodes, built.nodes - 1);
    crate::cell_lines::write_cascade(text, next, &planned[..grouping.cells], grouping.bits)
}

// The text of a table and an address limit, in front: Plan's refusal, or the table's lines. Answers its length.
pub(crate) fn list_table(n: usize, table: &[i32], limit: usize, text: &mut [u8]) -> usize
    requires { (n ≤ most_listed) × (text_room ≤ length text.old) }
    ensures { Writes text.old 0 (answer_text n table.now (plan n table.now limit)) result text.new }
{
    let planned = planner::plan(n, table, limit);
    match planned.verdict {
        Ok(grouping) => write_table(n, table, grouping, &planned.cells, text),
        Err(refusal) => lines::fields::write_refusal(text, u8::from(refusal)),
    }
}
