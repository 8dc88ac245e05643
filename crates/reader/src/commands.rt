// The command that is due at a place, and its operands.
ghost use Rattle.std.specs.Prelude.{◌≡◌, ◌+◌, ◌≤◌, ◌<◌, length};
ghost use Rattle.image.specs.Inner.Kinds.{due_of, width_of};
ghost use Rattle.image.specs.Reader.{due, due_size, command_at};

use image::{Command, Kind, Place};

// The kind of the one command that is allowed at a place: the table first, words while some are left of the cell, a cell while
// variables are left, then the end.
#[tactic(auto, using(std::proofs::lemmas::Bool::Decides::nat_tests), unfolding(image::specs::Inner::Kinds::due_of, image::specs::Reader::due))]
pub(crate) fn due_kind(place: Place) -> Kind
    ensures { due_of result ≡ due place }
{
    if place.n == 0 {
        Kind::Table
    } else if place.words != 0 {
        Kind::Word
    } else if place.left != 0 {
        Kind::Cell
    } else {
        Kind::End
    }
}

// The command of a kind at a place, with its operands, which are all there.
#[tactic(auto, unfolding(image::specs::Inner::Kinds::due_of, image::specs::Inner::Kinds::width_of, image::specs::Reader::due_size, image::specs::Reader::command_at))]
pub(crate) fn command_at(image: &[u8], at: usize, kind: Kind) -> Command
    requires { at + due_size (due_of kind) ≤ length image.now }
    ensures { (result ≡ command_at (due_of kind) image.now at) × (width_of result < 256) }
{
    match kind {
        Kind::Table => Command::Table {
            n: operands::read_one(image, at + 1),
            offset: operands::read_signed(image, at + 2),
        },
        Kind::Cell => Command::Cell {
            group: operands::read_one(image, at + 1),
            incoming: operands::read_two(image, at + 2),
            outgoing: operands::read_two(image, at + 4),
            width: operands::read_one(image, at + 6),
        },
        Kind::Word => Command::Word {
            class: operands::read_two(image, at + 1),
            weight: operands::read_signed(image, at + 3),
        },
        Kind::End => Command::End {
            bits: operands::read_four(image, at + 1),
        },
    }
}
