// The evaluation of a card at one X, by its image's words in place.
ghost use Rattle.std.specs.Prelude.{◌≡◌, ℕ, ◌+◌, ◌^◌, ◌≤◌, ◌<◌, length};
ghost use Rattle.image.specs.Inner.Evaluation.{card_read, first_progress, group_at, word_place, next_place, cell_read, CellThere, CellAhead};
ghost use Rattle.image.specs.Run.{group_value, result_of, run_card};
ghost use Rattle.image.specs.Commands.{table_size};

use crate::card::Card;
use image::{Evaluated, Progress};

// Where evaluation starts: behind the table command, with its offset and class 0.
#[tactic(auto, unfolding(image::specs::Inner::Evaluation::first_progress))]
fn first_progress(image: &[u8]) -> Progress
    requires { table_size ≤ length image.now }
    ensures { result ≡ first_progress image.now }
{
    Progress {
        at: image::TABLE_SIZE,
        left: operands::read_one(image, 1),
        class: 0,
        value: operands::read_signed(image, 2),
        words: 0,
    }
}

// The bits of X that a group takes: the top ones of the variables left.
#[tactic(auto, unfolding(image::specs::Run::group_value))]
fn group_value(left: usize, group: usize, x: usize) -> usize
    requires { (group ≤ left) × (left ≤ 12) }
    ensures { result ≡ group_value left group x }
{
    x / (1 << (left - group)) % (1 << group)
}

// Where the word for a class and a group value stands, in a cell whose words begin at a place.
#[tactic(auto, unfolding(image::specs::Inner::Evaluation::word_place))]
pub(crate) fn word_place(words: usize, group: usize, class: usize, v: usize) -> usize
    requires { (group ≤ 12) × (word_place words group class v < 2 ^ 63) }
    ensures { result ≡ word_place words group class v }
{
    words + image::WORD_SIZE * (class * (1 << group) + v)
}

// Behind the last word of the cell at a place.
#[tactic(auto, unfolding(image::specs::Inner::Evaluation::next_place, image::specs::Inner::Evaluation::first_word))]
pub(crate) fn next_place(image: &[u8], at: usize, group: usize) -> usize
    requires { (group ≡ group_at image.now at) × ((left : ℕ) × CellThere image.now left at) }
    ensures { result ≡ next_place image.now at }
{
    let incoming = operands::read_two(image, at + 2);
    word_place(at + image::CELL_SIZE, group, incoming, 0)
}

// One word of the cell ahead is read, at its place.
#[tactic(auto, using(image::proofs::Laws::Evaluating::command_room, image::proofs::Laws::Evaluating::group_narrow), unfolding(numbers::specs::Ranges::most_variables, image::specs::Inner::Evaluation::group_at, image::specs::Inner::Evaluation::first_word, image::specs::Inner::Evaluation::word_ahead, image::specs::Inner::Evaluation::cell_read))]
fn read_cell(image: &[u8], x: usize, progress: Progress) -> Progress
    requires { CellAhead image.now x progress }
    ensures { result ≡ cell_read image.now x progress }
{
    let at = progress.at;
    let group = operands::read_one(image, at + 1);
    let v = group_value(progress.left, group, x);
    let word = word_place(at + image::CELL_SIZE, group, progress.class, v);
    let class = operands::read_two(image, word + 1);
    let weight = operands::read_signed(image, word + 3);
    Progress {
        at: next_place(image, at, group),
        left: progress.left - group,
        class,
        value: progress.value + weight,
        words: progress.words + 1,
    }
}

impl Card<'_> {
    // The card's answer at X, from the words in place.
    #[tactic(auto, using(image::proofs::Laws::Evaluating::first_room, image::proofs::Laws::Evaluating::first_evaluating, image::proofs::Laws::Evaluating::cell_passed))]
    pub(crate) fn evaluate(&self, x: usize) -> Evaluated
        ensures { result_of result ≡ run_card (card_read self.now.image.now) x }
    {
        let mut progress = first_progress(self.image);
        // Kept: each turn takes the variables of one group.
        while 0 < progress.left {
            progress = read_cell(self.image, x, progress);
        }
        Evaluated {
            value: progress.value,
            words: progress.words,
        }
    }
}
