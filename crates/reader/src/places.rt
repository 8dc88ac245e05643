// The place after a command.
ghost use Rattle.std.specs.Prelude.{◌≡◌};
ghost use Rattle.image.specs.Inner.Bounds.{Follows};
ghost use Rattle.image.specs.Reader.{place_after};

use image::{Command, Place};

// The place after a command.
#[tactic(auto, unfolding(image::specs::Reader::place_after))]
pub(crate) fn place_after(place: Place, command: Command) -> Place
    requires { Follows place command }
    ensures { result ≡ place_after place command }
{
    match command {
        // All its variables are left, and the cut reached has one class.
        Command::Table { n, .. } => Place {
            at: place.at + image::TABLE_SIZE,
            n,
            left: n,
            classes: 1,
            ..Place::default()
        },
        // Its words are to come, and its bits are added.
        Command::Cell {
            group,
            incoming,
            outgoing,
            width,
        } => Place {
            at: place.at + image::CELL_SIZE,
            left: place.left - group,
            classes: outgoing,
            words: incoming * (1 << group),
            group,
            width,
            least: 0,
            greatest: 0,
            bits: place.bits + image::cell_bits(incoming, group, outgoing, width),
            ..place
        },
        // One word fewer is to come, and its weight is gathered.
        Command::Word { weight, .. } => Place {
            at: place.at + image::WORD_SIZE,
            words: place.words - 1,
            least: place.least.min(weight),
            greatest: place.greatest.max(weight),
            ..place
        },
        Command::End { .. } => Place {
            at: place.at + image::END_SIZE,
            ..place
        },
    }
}
