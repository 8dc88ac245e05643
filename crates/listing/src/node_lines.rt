// The lines of a diagram: the table's line, its nodes and their count.
ghost use Rattle.std.specs.Prelude.{◌+◌, ◌^◌, ◌≤◌, ◌<◌, length};
ghost use Rattle.diagram.specs.Inner.Edges.{Recorded};
ghost use Rattle.lines.specs.Inner.Writing.{Writes};
ghost use Rattle.listing.specs.Inner.NodeLines.{record_line, record_lines, diagram_text, RecordsThere};

// The line of record k at a place. Answers the place behind it.
#[tactic(auto, unfolding(diagram::specs::Records::record_size))]
fn write_node(text: &mut [u8], at: usize, k: usize, nodes: &[i32]) -> usize
    requires recorded { Recorded nodes.now k × (k < 2 ^ 31) }
    requires k_in_bounds { at + length (record_line nodes.now k) ≤ length text.old }
    ensures { Writes text.old at (record_line nodes.now k) result text.new }
{
    let variable = diagram::records::number_at(nodes, k, 0);
    let low = diagram::records::number_at(nodes, k, 1);
    let high = diagram::records::number_at(nodes, k, 2);
    let weight = diagram::records::number_at(nodes, k, 3);
    let numbers = [k as i32, variable, low, high, weight];
    lines::fields::write_line(text, at, b"node", &numbers)
}

// The lines of the first so many records at a place, by rising number. Answers the place behind them.
// Kept: a count of records beside their numbers, here and in write_diagram, since a slice would have to be divided by six to count them.
fn write_nodes(text: &mut [u8], at: usize, nodes: &[i32], count: usize) -> usize
    requires records_there { RecordsThere nodes.now count }
    requires count_in_bounds { at + length (record_lines nodes.now count) ≤ length text.old }
    ensures { Writes text.old at (record_lines nodes.now count) result text.new }
{
    let mut next = at;
    for k in 0..count {
        next = write_node(text, next, k + 1, nodes);
    }
    next
}

// The table's line, the node lines and the node count, in front. Answers the place behind them.
pub(crate) fn write_diagram(
    text: &mut [u8],
    n: usize,
    offset: i32,
    nodes: &[i32],
    count: usize,
) -> usize
    requires n_bound { (n < 2 ^ 31) × RecordsThere nodes.now count }
    requires count_in_bounds { length (diagram_text n offset nodes.now count) ≤ length text.old }
    ensures { Writes text.old 0 (diagram_text n offset nodes.now count) result text.new }
{
    let numbers = [n as i32, offset];
    let first = lines::fields::write_line(text, 0, b"table", &numbers);
    let next = write_nodes(text, first, nodes, count);
    lines::fields::write_count(text, next, b"nodes", count + 1)
}
