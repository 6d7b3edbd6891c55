// Clauses 6.2–6.7: the fills of a round in all 120 places, and their total. Each side of the round is a
// line, of which the eligible orders are put in the order of the queue.
#![tactic(auto)]

mod queue;
mod totals;

ghost use Rattle.std.specs.Prelude.{List, ◌≡◌, ◌-◌, min, length};
ghost use Rattle.lines.specs.Pieces.{most_pieces};
ghost use Rattle.lines.specs.Lines.{Bounded, LineOf};
ghost use Rattle.rules.specs.AuctionPrice.{Auction, auctioned};
ghost use Rattle.rules.specs.declared.Heading as heading;
ghost use Rattle.rules.specs.declared.Side as side;
ghost use Rattle.rules.specs.declared.Side.TheVariants.{Buy, Sell};
ghost use Rattle.rules.specs.declared.Standing as standing;
ghost use Rattle.filling.specs.Fills.{filled_with};
ghost use Rattle.filling.specs.Handing.{Given, HandedTo};

use crate::queue::queue_up;
use crate::totals::common_total;
use compare::potential_purchase;
use lines::keys::{amount_in, number_in};
use lines::line::Line;
use rules::{Auctioned, Heading, Pieces, Side, Situation, Total};

// The fills of a round in all 120 places, and beside them their total.
#[derive(Clone, Copy)]
pub struct Filled {
    pub total: Total,
    pub fills: [Pieces; 120],
}

// What an order of so many pieces gets of a total: what is left after those ahead of it, at most its
// pieces.
fn share_of(pieces: Total, ahead: Total, total: Total) -> Pieces
    ensures { result.0 ≡ min (min pieces.0 (total.0 - ahead.0)) most_pieces }
{
    let left = total.0.saturating_sub(ahead.0);
    Pieces(u32::try_from(pieces.0.min(left)).unwrap_or(u32::MAX))
}

// Hands a total out to the orders of a queue, the first first.
fn hand_out(queue: &Line, total: Total, mut fills: [Pieces; 120]) -> [Pieces; 120]
    ensures { (h : heading.Heading) (a : Auction) (os : List standing.Standing) (s : side.Side) → Given h a os s queue.now → HandedTo h a os s total.0 fills result }
{
    let mut ahead = Total(0);
    for &entry in queue.iter() {
        if total.0 <= ahead.0 {
            break;
        }
        let pieces = Total(amount_in(entry));
        fills[number_in(entry)] = share_of(pieces, ahead, total);
        ahead = Total(ahead.0 + pieces.0);
    }
    fills
}

// The fills by the queues of both sides: the largest total that both can lawfully reach, handed out along
// each.
fn fills_from(bids: &Line, asks: &Line) -> Filled
    ensures { (h : heading.Heading) (a : Auction) (os : List standing.Standing) → Given h a os Buy bids.now → Given h a os Sell asks.now → result ≡ filled_with h a os }
{
    let total = common_total(bids, asks);
    let bought = hand_out(bids, total, [Pieces(0); 120]);
    Filled {
        total,
        fills: hand_out(asks, total, bought),
    }
}

// The fills of a round. In a situation other than the crossed one nobody is eligible, so the total is 0. The lines
// are used up, and as long afterwards as before.
pub fn fills_of(heading: Heading, auction: Auctioned, bids: &mut Line, asks: &mut Line) -> Filled
    ensures fills { (os : List standing.Standing) → Bounded heading → LineOf Buy os bids.old → LineOf Sell os asks.old → result ≡ filled_with heading (auctioned auction) os }
    ensures lengths { (length bids.new ≡ length bids.old) × (length asks.new ≡ length asks.old) }
{
    if auction.situation != Situation::Crossed as u32 {
        return Filled {
            total: Total(0),
            fills: [Pieces(0); 120],
        };
    }
    let purchase = potential_purchase(heading, auction);
    let bid = bids.len();
    let asked = asks.len();
    queue_up(heading, Side::Buy, purchase, bids);
    queue_up(heading, Side::Sell, purchase, asks);
    let filled = fills_from(bids, asks);
    bids.lengthen(bid);
    asks.lengthen(asked);
    filled
}
