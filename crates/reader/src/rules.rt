// What the reader judges of a command whose operands are all there: the operand rules, the least width, the image's end.
ghost use Rattle.std.specs.Prelude.{◌≡◌, ◌^◌, ◌<◌};
ghost use Rattle.image.specs.Inner.Bounds.{WithinBounds};
ghost use Rattle.image.specs.Reader.{keeps_rules, width_is_least, ends_well};

use image::{Command, Place};

// Whether a command keeps its operand rules at a place; the rule of a cell's width is judged after its last word.
#[tactic(auto, unfolding(image::specs::Reader::keeps_rules))]
pub(crate) fn keeps_rules(place: Place, command: Command) -> bool
    requires { WithinBounds place }
    ensures { result ≡ keeps_rules place command }
{
    match command {
        Command::Table { n, offset } => crate::operand_rules::table_keeps(n, offset),
        Command::Cell {
            group,
            incoming,
            outgoing,
            ..
        } => crate::operand_rules::cell_keeps(place, group, incoming, outgoing),
        Command::Word { class, weight } => crate::operand_rules::word_keeps(place, class, weight),
        Command::End { bits } => bits == place.bits,
    }
}

// Whether the width of the cell just read, where none of its words is to come, is the least that holds its weights.
#[tactic(auto, using(std::proofs::lemmas::Bool::Decides::nat_tests), unfolding(image::specs::Reader::width_is_least))]
pub(crate) fn width_is_least(place: Place) -> bool
    ensures { result ≡ width_is_least place }
{
    0 < place.words || place.width == numbers::widths::weight_width(place.least, place.greatest)
}

// Whether no byte follows the last command; of other commands nothing is asked.
#[tactic(auto, using(image::proofs::Laws::Due::ends_well_last, image::proofs::Laws::Due::ends_well_before))]
pub(crate) fn ends_well(image: &[u8], place: Place, command: Command) -> bool
    requires { place.at < 2 ^ 63 }
    ensures { result ≡ ends_well image.now place command }
{
    !command.is_end() || image.len() == place.at + image::END_SIZE
}
