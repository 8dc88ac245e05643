// The records of a cut, from its classes: each class is given its node, and a branching one its record.
ghost use Rattle.std.specs.Prelude.{◌≡◌, ◌+◌, ◌-◌, ◌<◌, length, set};
ghost use Rattle.blocks.specs.Rows.{cut_place};
ghost use Rattle.diagram.specs.Inner.Building.{Forking, RecordRoom, ClassPlaced, CutReady, CutRecorded};

use diagram::cuts::Cuts;

// Number k of cut h in a row of all cuts is set.
fn set_in_cut(row: &mut [usize], h: usize, k: usize, number: usize)
    requires { (h < 64) × (cut_place h + k < length row.old) }
    ensures { row.new ≡ set row.old (cut_place h + k) number }
{
    let place = numbers::arithmetic::power(h) - 1 + k;
    row[place] = number;
}

// Class c of cut h gets its node: that of its lower half where it does not branch, else a new record behind those made.
fn place_class(
    cuts: &Cuts,
    h: usize,
    c: usize,
    made: usize,
    row: &mut [usize],
    nodes: &mut [i32],
) -> usize
    requires forking { Forking cuts.now.n h c cuts.now.table.now row.old }
    requires record_room { RecordRoom cuts.now.n h c made cuts.now.table.now nodes.old }
    ensures { ClassPlaced cuts.now.n h c made cuts.now.table.now row.old nodes.old result row.new nodes.new }
{
    let fork = crate::forks::fork_at(cuts, h, c, row);
    if !fork.branching {
        set_in_cut(row, h, c, fork.low);
        return made;
    }
    let range = crate::ranges::class_range(cuts, h, c);
    diagram::records::write_record(nodes, made, cuts.n - (h + 1), fork, range);
    set_in_cut(row, h, c, made + 1);
    made + 1
}

// The classes of cut h get their nodes, and their records stand behind those made.
pub(crate) fn place_cut(
    cuts: &Cuts,
    h: usize,
    before: usize,
    row: &mut [usize],
    nodes: &mut [i32],
) -> usize
    requires { CutReady cuts.now.n h before cuts.now.table.now row.old nodes.old }
    ensures { CutRecorded cuts.now.n h before cuts.now.table.now row.old nodes.old result row.new nodes.new }
{
    let mut made = before;
    for c in 0..cuts.class_count(h) {
        made = place_class(cuts, h, c, made, row, nodes);
    }
    made
}
