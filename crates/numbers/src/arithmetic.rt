// Powers of two, unsigned parts, the paper's ranges, and numbers beside each other: what the other crates reckon with.
ghost use Rattle.std.specs.Prelude.{◌≡◌, ◌^◌, ◌<◌};
ghost use Rattle.std.specs.Int.Signed.{mag};
ghost use Rattle.numbers.specs.Ranges.{is_variables, is_limit, within, is_value, is_weight, lesser, greater};

// The unsigned part of a number, which two's complement writes beside its sign: n both for n and for -(n + 1).
pub fn unsigned_part(number: i32) -> u32
    ensures { result ≡ mag number }
{
    if number < 0 {
        (-1 - number) as u32
    } else {
        number as u32
    }
}

// 2^k.
pub fn power(k: usize) -> usize
    requires { k < 64 }
    ensures { result ≡ 2 ^ k }
{
    1usize << k
}

// Whether n is a number of variables.
pub fn is_variables(n: usize) -> bool
    ensures { result ≡ is_variables n }
{
    (1..=crate::MOST_VARIABLES).contains(&n)
}

// Whether a number is an address limit.
pub fn is_limit(limit: usize) -> bool
    ensures { result ≡ is_limit limit }
{
    (1..=crate::WIDEST_ADDRESS).contains(&limit)
}

// Whether a number lies within a range.
pub fn is_within(low: i32, high: i32, number: i32) -> bool
    ensures { result ≡ within low high number }
{
    (low..=high).contains(&number)
}

// Whether a number is a value of a table.
pub fn is_value(number: i32) -> bool
    ensures { result ≡ is_value number }
{
    is_within(-8388608, 8388607, number)
}

// Whether a number is a weight of a record list or an image.
pub fn is_weight(number: i32) -> bool
    ensures { result ≡ is_weight number }
{
    is_within(-16777215, 16777215, number)
}

// The lesser of two numbers.
pub fn lesser_of(a: i32, b: i32) -> i32
    ensures { result ≡ lesser a b }
{
    a.min(b)
}

// The greater of two numbers.
pub fn greater_of(a: i32, b: i32) -> i32
    ensures { result ≡ greater a b }
{
    a.max(b)
}
