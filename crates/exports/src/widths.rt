// Widths through C. No function here requires anything of its caller.
ghost use Rattle.std.specs.Prelude.{◌≡◌, [], ◌∷◌};
ghost use Rattle.numbers.specs.Widths.{rail_width, weight_width};

// The rail width of so many classes.
#[unsafe(no_mangle)]
pub extern "C" fn panstrait_rail_width(count: u32) -> usize
    ensures { result ≡ rail_width count }
{
    numbers::widths::rail_width(count)
}

// The weight width of a cell, from its least and its greatest weight.
#[unsafe(no_mangle)]
pub extern "C" fn panstrait_weight_width(least: i32, greatest: i32) -> usize
    ensures { result ≡ weight_width (least ∷ greatest ∷ []) }
{
    numbers::widths::weight_width(least, greatest)
}
