// A card by its image: what Run and Expand go by.
ghost use Rattle.std.specs.Prelude.{◌≡◌};
ghost use Rattle.image.specs.Inner.Evaluation.{Accepted, card_read};
ghost use Rattle.runner.specs.Inner.Images.{Accepted-prop};

// The card that an accepted image holds. It is read in place, by the image's bytes.
#[derive(Clone, Copy)]
pub(crate) struct Card<'a> {
    pub image: &'a [u8],
    ghost accepted: { Accepted image.now } by { Accepted-prop image.now },
}

impl Card<'_> {
    // The number of variables.
    #[tactic(auto, using(image::proofs::Laws::Evaluating::first_room, image::proofs::Laws::Evaluating::variables_read))]
    pub(crate) fn variables(&self) -> usize
        ensures { result ≡ (card_read self.now.image.now).n }
    {
        operands::read_one(self.image, 1)
    }
}
