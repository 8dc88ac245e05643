// How blocks are compared: value by value, by their differences, and half against half.
ghost use Rattle.std.specs.Prelude.{◌≡◌, ◌/◌, length, take, drop, ◌-ℤ◌};
ghost use Rattle.blocks.specs.Blocks.{differences};
ghost use Rattle.blocks.specs.Classes.{same};
ghost use Rattle.blocks.specs.Inner.Layout.{less, last_difference};

// A value less another, in a width that holds any such difference.
fn difference(left: i32, right: i32) -> i64
    ensures { result ≡ «left» -ℤ «right» }
{
    i64::from(left) - i64::from(right)
}

// Whether some values, each less a constant, are those of another list.
fn same_less(left: &[i32], constant: i64, right: &[i32]) -> bool
    ensures { result ≡ same (less «constant» left.now) right.now }
{
    // Of a block of one value nothing is left behind the first: half of all blocks, and no loop is begun for them.
    if left.is_empty() {
        return right.is_empty();
    }
    left.len() == right.len()
        && left
            .iter()
            .zip(right)
            .all(|(y, z)| difference(*y, *z) == constant)
}

// Whether two blocks have equal differences. The first difference of any block is 0; where the others are equal too, the
// blocks' values are everywhere as far apart as their first.
pub fn same_differences(left: &[i32], right: &[i32]) -> bool
    ensures { result ≡ same (differences left.now) (differences right.now) }
{
    let Some((y, lefts)) = left.split_first() else {
        return right.is_empty();
    };
    let Some((z, rights)) = right.split_first() else {
        return false;
    };
    let constant = difference(*y, *z);
    same_less(lefts, constant, rights)
}

// The last difference of a block, 0 where it has no value.
pub fn last_difference(values: &[i32]) -> i64
    ensures { result ≡ last_difference values.now }
{
    difference(
        values.last().copied().unwrap_or(0),
        crate::first_value(values),
    )
}

// Whether the halves of a block are equal value by value: a block whose halves differ branches.
pub fn same_halves(values: &[i32]) -> bool
    ensures { result ≡ same (take (length values.now / 2) values.now) (drop (length values.now / 2) values.now) }
{
    let (lower, upper) = values.split_at(values.len() / 2);
    lower == upper
}
