// The values of a card at every X: from the top cell down, the class and the value of each block of a cut.
ghost use Rattle.std.specs.Prelude.{◌≡◌, ◌^◌, length};
ghost use Rattle.numbers.specs.Lists.{overwritten};
ghost use Rattle.image.specs.Inner.Evaluation.{card_read, classes_below, values_below, BlocksBelow, values_to};

use crate::card::Card;

// What a cell makes of the class and the value of each block of the cut above it: those of the first so many blocks of the cut
// below, each by its word. From the last block down, what is still to be read stands no further right than what is written.
// Kept: a row beside the table, since both are lent to be written into.
#[tactic(auto, unfolding(numbers::specs::Ranges::most_variables))]
fn spread(
    image: &[u8],
    words: usize,
    group: usize,
    count: usize,
    classes: &mut [u16; image::MOST_CLASSES],
    table: &mut [i32],
)
    requires { BlocksBelow image.now words group count classes.old table.old }
    ensures classes_after { classes.new ≡ overwritten classes.old 0 (classes_below image.now words group count classes.old) }
    ensures table_after { table.new ≡ overwritten table.old 0 (values_below image.now words group count classes.old table.old) }
{
    let size = 1 << group;
    for y in (0..count).rev() {
        let above = y / size;
        let word = crate::evaluation::word_place(words, group, classes[above] as usize, y % size);
        let class = operands::read_two(image, word + 1);
        let value = table[above] + operands::read_signed(image, word + 3);
        classes[y] = class as u16;
        table[y] = value;
    }
}

impl Card<'_> {
    // The value at every X, in a table that has a place for each.
    #[tactic(auto, using(image::proofs::Laws::Evaluating::first_room, image::proofs::Laws::Evaluating::variables_read), unfolding(image::specs::Inner::Evaluation::group_at, image::specs::Inner::Evaluation::first_word))]
    pub(crate) fn fill(&self, table: &mut [i32])
        requires { length table.old ≡ 2 ^ (card_read self.now.image.now).n }
        ensures { table.new ≡ values_to (card_read self.now.image.now) (length table.old) }
    {
        let mut classes = [0u16; image::MOST_CLASSES];
        let mut at = image::TABLE_SIZE;
        let mut left = self.variables();
        let mut count = 1;
        table[0] = operands::read_signed(self.image, 2);
        // Kept: each turn takes the variables of one group.
        while 0 < left {
            let group = operands::read_one(self.image, at + 1);
            left -= group;
            count *= 1 << group;
            spread(
                self.image,
                at + image::CELL_SIZE,
                group,
                count,
                &mut classes,
                table,
            );
            at = crate::evaluation::next_place(self.image, at, group);
        }
    }
}
