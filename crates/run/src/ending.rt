// Whether an opening goes on after a round, and how it ends.
ghost use Rattle.std.specs.Prelude.{◌≡◌, ◌≤◌};
ghost use Rattle.rules.specs.Opening.{goes_on, ending_after};
ghost use Rattle.round.specs.HandedBack.{handed_back};
ghost use Rattle.run.specs.Endings.{ending_number};

use compare::in_band;
use round::Round;
use rules::{Heading, Situation};

// Clause 7.6: why the last round was the last.
#[derive(Clone, Copy)]
pub(crate) enum Ending {
    // No price carried pieces.
    NoPrice = 0,
    // The auction price was in the band, and nothing could be handed out.
    Blocked = 1,
    // The auction price was outside the band.
    Waiting = 2,
}

impl Ending {
    pub(crate) fn number(self) -> u32
        ensures { (result ≡ ending_number self) × (result ≤ 2) }
    {
        self as u32
    }
}

// Clause 7.5: whether another round follows.
pub(crate) fn goes_on(heading: Heading, round: &Round) -> bool
    ensures { result ≡ goes_on heading (handed_back round.now) }
{
    (round.situation == Situation::Crossed as u32)
        & in_band(heading, round.price)
        & (1 <= round.total.0)
}

// Clause 7.6: the ending after a round that is the last.
pub(crate) fn ending_after(heading: Heading, round: &Round) -> Ending
    ensures { ending_number result ≡ ending_after heading (handed_back round.now) }
{
    if round.situation != Situation::Crossed as u32 {
        Ending::NoPrice
    } else if in_band(heading, round.price) {
        Ending::Blocked
    } else {
        Ending::Waiting
    }
}
