// How far the two sides of a round meet. While the orders of both sides that hold the next piece meet, the
// pieces that both sides have up to them are carried, and an order whose pieces all are is passed.
ghost use Rattle.std.specs.Prelude.{false, cond, List, ◌≡◌, ◌+◌, ◌-◌, ◌<◌, leb, ltb, MatchOption};
ghost use Rattle.lines.specs.Lines.{LineOf};
ghost use Rattle.rules.specs.declared.Heading as heading;
ghost use Rattle.rules.specs.declared.Side.TheVariants.{Buy, Sell};
ghost use Rattle.rules.specs.declared.Standing as standing;
ghost use Rattle.pricing.specs.Meeting.{meet_at, MeetAs, MetAs};

use lines::keys::{amount_in, place_in};
use lines::line::Line;
use rules::{LAST_PRICE, Total};

// How far a line is gone through: the order that holds the next piece, and the pieces before that order.
#[derive(Clone, Copy)]
pub(crate) struct Reached {
    pub order: usize,
    pub before: Total,
}

// The pieces that meet, and how far each line is gone through for them.
#[derive(Clone, Copy)]
pub(crate) struct Met {
    pub volume: Total,
    pub buys: Reached,
    pub sells: Reached,
}

impl Reached {
    // Behind the order, with which there are so many pieces, if the other side has as many.
    fn passing(self, upto: Total, other: Total) -> Reached
        requires { self.order < 120 }
        ensures { (result.order ≡ self.order + cond (leb upto.0 other.0) 1 0) × (result.before.0 ≡ cond (leb upto.0 other.0) upto.0 self.before.0) }
    {
        if upto.0 <= other.0 {
            Reached {
                order: self.order + 1,
                before: upto,
            }
        } else {
            self
        }
    }

    // The order that holds the last piece of a volume above 0.
    pub(crate) fn last_holder(self, volume: Total) -> usize
        ensures { result ≡ cond (ltb self.before.0 volume.0) self.order (self.order - 1) }
    {
        if self.before.0 < volume.0 {
            self.order
        } else {
            self.order.saturating_sub(1)
        }
    }
}

// The entries of two orders, where both are there and meet: their places from both ends of the grid overlap.
fn meeting(bids: &Line, i: usize, asks: &Line, j: usize) -> Option<(u64, u64)>
    ensures { MatchOption result (meet_at bids.now i asks.now j ≡ false) (MeetAs bids.now i asks.now j) }
{
    let bid = *bids.get(i)?;
    let ask = *asks.get(j)?;
    (LAST_PRICE < place_in(bid) + place_in(ask)).then_some((bid, ask))
}

// How far the two lines meet.
pub(crate) fn meet(bids: &Line, asks: &Line) -> Met
    ensures { (h : heading.Heading) (os : List standing.Standing) → LineOf Buy os bids.now → LineOf Sell os asks.now → MetAs h os bids.now asks.now result }
{
    let start = Reached {
        order: 0,
        before: Total(0),
    };
    let mut met = Met {
        volume: Total(0),
        buys: start,
        sells: start,
    };
    // Which line goes on is known from both, so going over one of them by `for` would be no plainer.
    while let Some((bid, ask)) = meeting(bids, met.buys.order, asks, met.sells.order) {
        let demand = Total(met.buys.before.0 + amount_in(bid));
        let supply = Total(met.sells.before.0 + amount_in(ask));
        met = Met {
            volume: Total(demand.0.min(supply.0)),
            buys: met.buys.passing(demand, supply),
            sells: met.sells.passing(supply, demand),
        };
    }
    met
}
