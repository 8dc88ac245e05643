// The rules of the operands of a table, a cell and a word.
ghost use Rattle.std.specs.Prelude.{◌≡◌, ◌&&◌};
ghost use Rattle.numbers.specs.Ranges.{is_variables, is_value};
ghost use Rattle.image.specs.Inner.Bounds.{WithinBounds};
ghost use Rattle.image.specs.Reader.{keeps_rules};

use image::{Command, Place};

// The rules of the table command: n and the offset are in range.
pub(crate) fn table_keeps(n: usize, offset: i32) -> bool
    ensures { result ≡ (is_variables n && is_value offset) }
{
    numbers::arithmetic::is_variables(n) && numbers::arithmetic::is_value(offset)
}

// The rules of a cell but that of its width, which is judged after its last word.
#[tactic(auto, using(std::proofs::lemmas::Bool::Decides::nat_tests), unfolding(image::specs::Reader::keeps_rules, image::specs::Reader::most_classes, numbers::specs::Ranges::widest_address))]
pub(crate) fn cell_keeps(place: Place, group: usize, incoming: usize, outgoing: usize) -> bool
    requires { WithinBounds place }
    ensures { result ≡ keeps_rules place (Command.Cell group incoming outgoing 0) }
{
    1 <= group
        && group <= place.left
        && incoming == place.classes
        && 1 <= outgoing
        && outgoing <= image::MOST_CLASSES
        && (group < place.left || outgoing == 1)
        && numbers::widths::rail_width(incoming as u32) + group <= numbers::WIDEST_ADDRESS
}

// The rules of a word: its class is one of the outgoing ones, its weight in range, and 0 at group value 0.
pub(crate) fn word_keeps(place: Place, class: usize, weight: i32) -> bool
    requires { WithinBounds place }
    ensures { result ≡ keeps_rules place (Command.Word class weight) }
{
    class < place.classes
        && numbers::arithmetic::is_weight(weight)
        && (place.words % (1 << place.group) != 0 || weight == 0)
}
