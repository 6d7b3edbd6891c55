// The totals that a side can lawfully reach, and the largest that both can. An all-or-none order takes a
// stretch of its side's totals, from the pieces ahead of it to its own on top of them: a total inside the
// stretch would split it.
ghost use Rattle.std.specs.Prelude.{◌&&◌, List, ◌≡◌, ◌≤◌, ltb, length};
ghost use Rattle.lines.specs.Keys.{whole_in};
ghost use Rattle.lines.specs.Lines.{up_to};
ghost use Rattle.rules.specs.AuctionPrice.{Auction};
ghost use Rattle.rules.specs.Fills.{largest_total};
ghost use Rattle.rules.specs.declared.Heading.{Heading};
ghost use Rattle.rules.specs.declared.Side.TheVariants.{Buy, Sell};
ghost use Rattle.rules.specs.declared.Standing.{Standing};
ghost use Rattle.filling.specs.Queues.{QueueOf};
ghost use Rattle.filling.specs.Reaching.{WholeOf, ReachedFrom};

use lines::keys::{amount_in, whole_in};
use lines::line::Line;
use rules::Total;

// A total that a side can lawfully reach, how many orders of its queue may get pieces of it, and the pieces of
// these.
#[derive(Clone, Copy)]
pub(crate) struct Reached {
    pub total: Total,
    pub orders: usize,
    pub sum: Total,
}

// Whether a total would split an order, where so many pieces stand up to it and the total is above those
// ahead of it.
fn splits(entry: u64, upto: Total, total: Total) -> bool
    ensures { result ≡ (whole_in entry && ltb total.0 upto.0) }
{
    whole_in(entry) & (total.0 < upto.0)
}

impl Reached {
    // All of a queue.
    fn whole(queue: &Line) -> Reached
        ensures { WholeOf queue.now result }
    {
        let pieces = queue.pieces_at(0);
        Reached {
            total: pieces,
            orders: queue.len(),
            sum: pieces,
        }
    }

    // The largest total at or below one that a side can lawfully reach, going down from the last order that may
    // get pieces of it.
    fn lowered(self, queue: &Line, total: Total) -> Reached
        requires { (self.orders ≤ length queue.now) × (self.sum.0 ≡ up_to queue.now self.orders) }
        ensures { ReachedFrom queue.now self.orders total.0 result }
    {
        let mut upto = self.sum;
        for i in (0..self.orders).rev() {
            let entry = queue[i];
            let before = Total(upto.0 - amount_in(entry));
            if before.0 < total.0 {
                if splits(entry, upto, total) {
                    return Reached {
                        total: before,
                        orders: i,
                        sum: before,
                    };
                }
                return Reached {
                    total,
                    orders: i + 1,
                    sum: upto,
                };
            }
            upto = before;
        }
        Reached {
            total,
            orders: 0,
            sum: upto,
        }
    }
}

// The largest total within lawful reach of both sides. The outer loop steps down the lawful buy totals, the
// inner one the lawful sell totals. Two nested loops left by a label are a form that the project asks for
// (docs/DECISIONS.md, Language forms).
pub(crate) fn common_total(bids: &Line, asks: &Line) -> Total
    ensures { (h : Heading) (a : Auction) (os : List Standing) → QueueOf h a os Buy bids.now → QueueOf h a os Sell asks.now → result.0 ≡ largest_total h a os }
{
    let wanted = Reached::whole(bids);
    let offered = Reached::whole(asks);
    let most = Total(wanted.sum.0.min(offered.sum.0));
    let mut buy = wanted.lowered(bids, most);
    let mut sell = offered.lowered(asks, most);
    'walk: loop {
        while buy.total.0 <= sell.total.0 {
            if sell.total.0 == buy.total.0 {
                break 'walk;
            }
            sell = sell.lowered(asks, buy.total);
        }
        buy = buy.lowered(bids, sell.total);
    }
    buy.total
}
