// Clauses 5.4–5.12: the situation of a round and its auction price. The limit of a side's piece
// v is the last price for the side at which at least v of its pieces stand, or the one beyond its worst
// price where they stand nowhere. Four such limits give the auction: with V the greatest volume, the
// maximisers run from the sells' limit of piece V to the buys', and demand exceeds supply there up to the
// buys' limit of piece V + 1, supply demand from the sells' on. On a side's line they are the limits of the
// orders that hold those pieces.
#![tactic(auto)]

mod meet;

ghost use Rattle.std.specs.Prelude.{List, ◌≡◌};
ghost use Rattle.claims.specs.Crossing.{end_within, balanced, crossed_at};
ghost use Rattle.lines.specs.Lines.{LineOf, place_at};
ghost use Rattle.rules.specs.AuctionPrice.{auctioned, uncrossed, auction};
ghost use Rattle.rules.specs.Grid.{nth};
ghost use Rattle.rules.specs.declared.Side.TheVariants.{Buy, Sell};
ghost use Rattle.rules.specs.declared.Standing as standing;

use crate::meet::meet;
use lines::keys::{place_in, price_at};
use lines::line::Line;
use rules::{Auctioned, Heading, LAST_PRICE, Price, Side, Situation};

// The prices from one to another, none where the first is above the second.
#[derive(Clone, Copy)]
struct Span {
    low: Price,
    high: Price,
}

// The limits of the next piece: demand exceeds supply up to the bid, supply demand from the ask on.
#[derive(Clone, Copy)]
struct Next {
    bid: Price,
    ask: Price,
}

// The limit of an order of a side's line, the price beyond the side's worst one where the line has no such order.
fn limit_at(side: Side, line: &Line, order: usize) -> Price
    ensures { result.0 ≡ nth side (place_at line.now order) }
{
    price_at(side, line.get(order).map_or(0, |entry| place_in(*entry)))
}

// The price of a span nearest the last purchase price, between the ends l and r.
fn balanced_price(span: Span, next: Next, last: Price) -> Price
    ensures { result.0 ≡ balanced span.low.0 span.high.0 next.bid.0 next.ask.0 last.0 }
{
    let l = span.low.0.max(span.high.0.min(next.bid.0));
    let r = span.high.0.min(span.low.0.max(next.ask.0));
    Price(l.max(r.min(last.0)))
}

// Situation 0, by the span of the maximisers. Those in the band are the potential prices, or all if the
// band has none.
fn crossed_price(heading: Heading, last: Price, maximisers: Span, next: Next) -> Price
    ensures { result.0 ≡ crossed_at heading maximisers.low.0 maximisers.high.0 next.bid.0 next.ask.0 last.0 }
{
    let banded = Span {
        low: Price(heading.lower.0.max(maximisers.low.0)),
        high: Price(heading.upper.0.min(maximisers.high.0)),
    };
    if banded.low.0 <= banded.high.0 {
        balanced_price(banded, next, last)
    } else {
        balanced_price(maximisers, next, last)
    }
}

// Situations 1 to 4, by the best price of each side in the band, if it has one there: demand runs up to the
// bid and supply from the ask on.
fn uncrossed_price(heading: Heading, last: Price, next: Next) -> Auctioned
    ensures { auctioned result ≡ uncrossed heading last.0 (end_within heading Buy next.bid.0) (end_within heading Sell next.ask.0) }
{
    let highest = heading.upper.0.min(next.bid.0);
    let lowest = heading.lower.0.max(next.ask.0);
    let demanded = (heading.lower.0.max(1) <= highest).then_some(highest);
    let supplied = (lowest <= heading.upper.0.min(LAST_PRICE)).then_some(lowest);
    let (situation, price) = match (demanded, supplied) {
        (None, Some(supplied)) => (
            Situation::SupplyAlone as u32,
            supplied.min(heading.indicative.0),
        ),
        (Some(demanded), None) => (
            Situation::DemandAlone as u32,
            demanded.max(heading.indicative.0),
        ),
        (Some(demanded), Some(supplied)) => (
            Situation::Apart as u32,
            demanded.max(supplied.min(last.0)),
        ),
        (None, None) => (Situation::Empty as u32, last.0),
    };
    Auctioned {
        situation,
        price: Price(price),
    }
}

// The situation and the auction price of a round, from the band and the indicative price of the heading, the
// last purchase price and the lines of both sides at their limits in force.
pub fn auction_price(heading: Heading, last: Price, bids: &Line, asks: &Line) -> Auctioned
    ensures { (os : List standing.Standing) → LineOf Buy os bids.now → LineOf Sell os asks.now → auctioned result ≡ auction heading last.0 os }
{
    let met = meet(bids, asks);
    let next = Next {
        bid: limit_at(Side::Buy, bids, met.buys.order),
        ask: limit_at(Side::Sell, asks, met.sells.order),
    };
    if met.volume.0 == 0 {
        return uncrossed_price(heading, last, next);
    }
    let maximisers = Span {
        low: limit_at(Side::Sell, asks, met.sells.last_holder(met.volume)),
        high: limit_at(Side::Buy, bids, met.buys.last_holder(met.volume)),
    };
    Auctioned {
        situation: Situation::Crossed as u32,
        price: crossed_price(heading, last, maximisers, next),
    }
}
