// The numbers of the first line.
ghost use Rattle.std.specs.Prelude.{◌≡◌};
ghost use Rattle.decimal.specs.Table.{has_more};
ghost use Rattle.decimal.specs.Inner.Positions.{words_at};
ghost use Rattle.decimal.specs.Inner.Items.{heading_at};

use crate::{FirstLine, Heading};

// The next word, where it is a number in this range on the first line.
#[tactic(auto, using(crate::proofs::Laws::Items::item_next, crate::proofs::Laws::Items::no_heading, std::proofs::lemmas::Bool::Decides::nat_tests), unfolding(crate::specs::Inner::Items::heading_at, crate::specs::Inner::Items::heading_of))]
pub(crate) fn heading(rest: &FirstLine, low: i32, high: i32) -> Option<Heading>
    ensures { result ≡ heading_at rest.now.text.now rest.now.at low high }
{
    let item = crate::words::next_item(rest.text, rest.place()).ok()?;
    if item.line != 1 || !numbers::arithmetic::is_within(low, high, item.number) {
        return None;
    }
    Some(Heading {
        number: numbers::arithmetic::unsigned_part(item.number) as usize,
        at: item.at,
    })
}

// Whether there are more words on the first line, from a place on.
#[tactic(auto, using(crate::proofs::Laws::Positions::skipped_none, crate::proofs::Laws::Positions::skipped_word), unfolding(crate::specs::Table::has_more))]
pub(crate) fn has_more(rest: &FirstLine) -> bool
    ensures { result ≡ has_more (words_at rest.now.text.now (record { at = rest.now.at; line = 1 })) }
{
    let next = crate::words::skip(rest.text, rest.place());
    next.at < rest.text.len() && next.line == 1
}
