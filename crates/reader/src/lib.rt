// The image reader: a step from a place to a command and the next place, in the paper's order of checks, and the check of a whole image.
#![tactic(auto)]

mod commands;
mod operand_rules;
mod places;
mod rules;

ghost use Rattle.std.specs.Prelude.{◌≡◌};
ghost use Rattle.numbers.specs.Answers.{map_answer};
ghost use Rattle.numbers.specs.Refusals.{answer_of};
ghost use Rattle.image.specs.Inner.Bounds.{WithinBounds, IsDue};
ghost use Rattle.image.specs.Inner.GivenN.{has_other_n};
ghost use Rattle.image.specs.Reader.{judged, step, reading, reading_for};

use image::{Command, Kind, Place};
use numbers::Refusal;

// What is judged of a command whose operands are all there.
#[tactic(auto, unfolding(image::specs::Reader::judged, numbers::specs::Refusals::answer_of, numbers::specs::Refusals::number))]
fn judge(image: &[u8], place: Place, command: Command) -> Result<(Command, Place), Refusal>
    requires { IsDue place command }
    ensures { answer_of result ≡ judged image.now place command }
{
    if !rules::keeps_rules(place, command) {
        return Err(Refusal::Operand);
    }
    if !rules::ends_well(image, place, command) {
        return Err(Refusal::Trailing);
    }
    Ok((command, places::place_after(place, command)))
}

// One step of the reader, in the paper's order of checks.
// Kept: what bounds a place is required of it here and in the rules, and is no part of it, since image's `Reader.place_after` makes a place
// of any place and command.
#[tactic(auto, using(std::proofs::lemmas::Bool::Decides::nat_tests), unfolding(image::specs::Reader::step, numbers::specs::Refusals::answer_of, numbers::specs::Refusals::number))]
fn read_step(image: &[u8], place: Place) -> Result<(Command, Place), Refusal>
    requires { WithinBounds place }
    ensures { answer_of result ≡ step image.now place }
{
    if !rules::width_is_least(place) {
        return Err(Refusal::Operand);
    }
    let Some(&byte) = image.get(place.at) else {
        return Err(Refusal::CutOff);
    };
    let kind = commands::due_kind(place);
    if byte != kind.byte() {
        return Err(Refusal::Command);
    }
    if image.len() - place.at < kind.size() {
        return Err(Refusal::CutOff);
    }
    judge(image, place, commands::command_at(image, place.at, kind))
}

// The image is checked from the left, a step at a time, from the place where all numbers are 0.
pub fn check(image: &[u8]) -> Result<(), Refusal>
    ensures { answer_of result ≡ map_answer (λ commands. tt) (reading image.now) }
{
    let mut place = Place::default();
    // Kept: each turn reads a command, which says where the next begins.
    loop {
        let (command, next) = read_step(image, place)?;
        if command.is_end() {
            return Ok(());
        }
        place = next;
    }
}

// Whether a whole 0x56 stands first and carries another n: 13, whatever else is wrong with it.
#[tactic(auto, using(std::proofs::lemmas::Bool::Decides::nat_tests), unfolding(image::specs::Inner::GivenN::has_other_n, image::specs::Inner::Kinds::due_of, image::specs::Reader::due_byte))]
fn has_other_n(image: &[u8], n: usize) -> bool
    ensures { result ≡ has_other_n n image.now }
{
    image::TABLE_SIZE <= image.len()
        && image[0] == Kind::Table.byte()
        && operands::byte(image, 1) != n
}

// The same check for a given n, which the first command must carry.
#[tactic(auto, using(image::proofs::Laws::ReadingFor::other_refused, image::proofs::Laws::ReadingFor::other_not), unfolding(numbers::specs::Refusals::answer_of, numbers::specs::Refusals::number))]
pub fn check_for(image: &[u8], n: usize) -> Result<(), Refusal>
    ensures { answer_of result ≡ map_answer (λ commands. tt) (reading_for n image.now) }
{
    if has_other_n(image, n) {
        return Err(Refusal::Operand);
    }
    check(image)
}
