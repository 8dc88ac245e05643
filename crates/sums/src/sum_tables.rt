// Sums and remainders in a lent table buffer, which has room for them.
ghost use Rattle.std.specs.Prelude.{◌≡◌, map, ◌^◌, ◌≤◌, ◌<◌, length, take, pos, ◌+ℤ◌};
ghost use Rattle.numbers.specs.Lists.{overwritten};
ghost use Rattle.sums.specs.Sums.{sum_table, remainder_by};
ghost use Rattle.sums.specs.Inner.Summable.{Summable};
ghost use Rattle.sums.specs.Inner.Filling.{MayDouble};

// So many values more, behind the first ones: each is one of those and a weight.
fn add_weight(table: &mut [i32], half: usize, weight: i32)
    requires { MayDouble table.old half weight }
    ensures { table.new ≡ overwritten table.old half (map (λ v. v +ℤ weight) (take half table.old)) }
{
    // Kept: by index, since a proof is not told what is written through `split_at_mut`.
    for x in 0..half {
        table[half + x] = table[x] + weight;
    }
}

// The sums, weight by weight: with each the table is twice as long.
pub(crate) fn write_sums(weights: &[i32], table: &mut [i32])
    requires { Summable weights.now × (length table.old ≡ 2 ^ length weights.now) }
    ensures { table.new ≡ sum_table weights.now }
{
    table[0] = 0;
    for (j, weight) in weights.iter().enumerate() {
        add_weight(table, numbers::arithmetic::power(j), *weight);
    }
}

// The remainder, which is never negative.
fn remainder_of(value: i32, modulus: u32) -> i32
    requires { (0 < modulus) × (modulus ≤ 2048) }
    ensures { result ≡ pos (remainder_by modulus value) }
{
    value.rem_euclid(modulus as i32)
}

// Every value's remainder by 2^q in its place.
pub(crate) fn reduce(q: usize, table: &mut [i32])
    requires { q ≤ 11 }
    ensures { table.new ≡ map (λ z. pos (remainder_by (2 ^ q) z)) table.old }
{
    let modulus = numbers::arithmetic::power(q) as u32;
    for value in table.iter_mut() {
        *value = remainder_of(*value, modulus);
    }
}
