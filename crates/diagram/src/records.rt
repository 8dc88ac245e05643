// Where a record's numbers stand in a buffer and how they are written, and how many numbers a buffer must hold.
ghost use Rattle.std.specs.Prelude.{◌≡◌, ◌+◌, ◌*◌, ◌≤◌, ◌<◌, length};
ghost use Rattle.numbers.specs.Lists.{overwritten};
ghost use Rattle.diagram.specs.Build.{node_room};
ghost use Rattle.diagram.specs.Records.{record_numbers, record_size};
ghost use Rattle.diagram.specs.Walk.{number_at};
ghost use Rattle.diagram.specs.Inner.Edges.{Recorded};

use crate::{Fork, Range};

// How many numbers a record has.
pub const RECORD_SIZE: usize = 6;

// The numbers that a node buffer must have room for.
pub fn node_room(n: usize) -> usize
    requires { n ≤ 12 }
    ensures { result ≡ node_room n }
{
    RECORD_SIZE * (numbers::arithmetic::power(n) - 1)
}

// Number c, from 0, of record k, from 1.
pub fn number_at(records: &[i32], k: usize, c: usize) -> i32
    requires { Recorded records.now k × (c < record_size) }
    ensures { result ≡ number_at records.now k c }
{
    records[RECORD_SIZE * (k - 1) + c]
}

// A record's numbers, behind those of the records made: the variable of its fork, the fork, and its range.
#[tactic(auto, unfolding(crate::specs::Records::record_size))]
pub fn write_record(nodes: &mut [i32], made: usize, variable: usize, fork: Fork, range: Range)
    requires record_size_in_bounds { record_size * made + record_size ≤ length nodes.old }
    requires variable_bound { (variable < 4096) × ((fork.low < 4096) × (fork.high < 4096)) }
    ensures { nodes.new ≡ overwritten nodes.old (record_size * made) (record_numbers (record { variable = variable; low = fork.low; high = fork.high; weight = fork.weight; least = range.least; greatest = range.greatest })) }
{
    let at = RECORD_SIZE * made;
    nodes[at..at + RECORD_SIZE].copy_from_slice(&[
        variable as i32,
        fork.low as i32,
        fork.high as i32,
        fork.weight,
        range.least,
        range.greatest,
    ]);
}
