// The choice at each cut, from the bottom cut up.
ghost use Rattle.std.specs.Prelude.{◌≡◌, ◌+◌, ◌^◌, ◌<◌};
ghost use Rattle.cascade.specs.Inner.Choices.{taken, offered, cost_of, table_choice, choice_array};
ghost use Rattle.planner.specs.Inner.Ready.{CutReady};

use cascade::Choice;
use diagram::cuts::Cuts;

// The choice so far, unless a size costs less.
#[tactic(auto, unfolding(cascade::specs::Inner::Choices::taken))]
fn cheaper(size: usize, cost: usize, so_far: Option<Choice>) -> Option<Choice>
    ensures { result ≡ taken size cost so_far }
{
    match so_far {
        Some(best) if best.cost <= cost => so_far,
        _ => Some(Choice { cost, size }),
    }
}

// A size, its cell's price and the choice where its cell ends, against the choice so far.
#[tactic(auto, unfolding(cascade::specs::Inner::Choices::offered, cascade::specs::Inner::Choices::cost_of))]
fn offer(size: usize, price: usize, below: Option<Choice>, so_far: Option<Choice>) -> Option<Choice>
    requires { price + cost_of below < 2 ^ 63 }
    ensures { result ≡ offered size price below so_far }
{
    match below {
        None => so_far,
        Some(rest) => cheaper(size, price + rest.cost, so_far),
    }
}

// The choice at cut h: all sizes whose cells fit, from the widest down, each with the choice where its cell ends.
fn choose(
    cuts: &Cuts,
    h: usize,
    limit: usize,
    choices: &[Option<Choice>; blocks::ALL_CUTS],
) -> Option<Choice>
    requires { CutReady cuts.now.n h limit cuts.now.table.now choices.now }
    ensures { result ≡ table_choice cuts.now.n cuts.now.table.now limit h }
{
    let mut best = None;
    for g in (1..=cuts.n - h).rev() {
        if crate::prices::cell_fits(cuts, h, g, limit) {
            let price = crate::prices::cell_price(cuts, h, g);
            best = offer(g, price, choices[h + g], best);
        }
    }
    best
}

// The choices at all cuts, from the bottom cut up.
pub(crate) fn choose_all(cuts: &Cuts, limit: usize) -> [Option<Choice>; blocks::ALL_CUTS]
    ensures { result ≡ choice_array cuts.now.n cuts.now.table.now limit }
{
    let mut choices = [None; blocks::ALL_CUTS];
    choices[cuts.n] = Some(Choice { cost: 0, size: 0 });
    for h in (0..cuts.n).rev() {
        choices[h] = choose(cuts, h, limit, &choices);
    }
    choices
}
