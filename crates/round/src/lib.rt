// Clauses 7.1–7.3 and 7.8: a round of a sheet, from what remains of its orders, and the words of its result.
#![tactic(auto)]

pub mod writing;

ghost use Rattle.std.specs.Prelude.{List, ◌≡◌, length};
ghost use Rattle.book.specs.Book.{BookLine, Ranged};
ghost use Rattle.book.specs.Filed.{remaining_in};
ghost use Rattle.lines.specs.Lines.{Bounded, LineOf};
ghost use Rattle.rules.specs.AuctionPrice.{auctioned};
ghost use Rattle.rules.specs.Fills.{purchase_price};
ghost use Rattle.rules.specs.Limits.{standing};
ghost use Rattle.rules.specs.Opening.{settled, round_of};
ghost use Rattle.rules.specs.declared.Order as order;
ghost use Rattle.rules.specs.declared.Standing as stood;
ghost use Rattle.rules.specs.declared.Side.TheVariants.{Buy, Sell};
ghost use Rattle.round.specs.HandedBack.{handed_back, with_places};

use book::Book;
use book::force::line_in_force;
use compare::potential_purchase;
use filling::fills_of;
use lines::line::Line;
use pricing::auction_price;
use rules::{Auctioned, Heading, Pieces, Price, Side, Total};

// What a round gives, its fills in all 120 places.
#[derive(Clone, Copy)]
pub struct Round {
    pub situation: u32,
    pub price: Price,
    pub purchase: Price,
    pub total: Total,
    pub fills: [Pieces; 120],
}

// The purchase price of a round in which so many pieces trade: the potential one, or 0 where nothing trades.
fn purchase_price(heading: Heading, auction: Auctioned, total: Total) -> Price
    ensures { result.0 ≡ purchase_price heading (auctioned auction) total.0 }
{
    if 1 <= total.0 {
        potential_purchase(heading, auction)
    } else {
        Price(0)
    }
}

// The rest of a round, by a given auction and the lines in force of both sides, which are used up and stay as long: fills,
// total and purchase price.
pub fn settle(heading: Heading, auction: Auctioned, bids: &mut Line, asks: &mut Line) -> Round
    ensures round { (os : List stood.Standing) → Bounded heading → LineOf Buy os bids.old → LineOf Sell os asks.old → handed_back result ≡ with_places (settled heading os (auctioned auction)) }
    ensures lengths { (length bids.new ≡ length bids.old) × (length asks.new ≡ length asks.old) }
{
    let filled = fills_of(heading, auction, bids, asks);
    let fills = filled.fills;
    Round {
        situation: auction.situation,
        price: auction.price,
        purchase: purchase_price(heading, auction, filled.total),
        total: filled.total,
        fills,
    }
}

// A round, from the last purchase price, what remains of each order and the sheet's book. Its three steps can be
// called one by one: the lines in force, then the auction price, then the rest.
pub fn round_of(heading: Heading, last: Price, remaining: &[Pieces; 120], book: &Book) -> Round
    ensures { (orders : List order.Order) → BookLine heading orders Buy book.now.bids → BookLine heading orders Sell book.now.asks → Ranged heading orders remaining.now → handed_back result ≡ with_places (round_of heading last.0 (standing heading orders (remaining_in heading remaining.now))) }
{
    let mut bids = Line::new();
    let mut asks = Line::new();
    line_in_force(heading, Side::Buy, &book.bids, remaining, &mut bids);
    line_in_force(heading, Side::Sell, &book.asks, remaining, &mut asks);
    let auction = auction_price(heading, last, &bids, &asks);
    settle(heading, auction, &mut bids, &mut asks)
}
