// What several parts of the engine ask of prices, sides and places.
#![tactic(auto)]

ghost use Rattle.std.specs.Prelude.{◌≡◌, min};
ghost use Rattle.rules.specs.AuctionPrice.{in_band, auctioned};
ghost use Rattle.rules.specs.Fills.{potential_purchase};
ghost use Rattle.rules.specs.Grid.{moved_into};
ghost use Rattle.rules.specs.Limits.{without_limit};

use rules::{Auctioned, Heading, Price, Side};

// How many places there are for orders.
const PLACES: usize = 120;

// How many of a number of orders have a place.
pub fn placed(count: usize) -> usize
    ensures { result ≡ min count 120 }
{
    count.min(PLACES)
}

// A price moved into the band. The library's `clamp` asks that the bounds do not cross, and nobody is asked that here.
pub fn moved_into(lower: Price, upper: Price, price: Price) -> Price
    ensures { result.0 ≡ moved_into lower.0 upper.0 price.0 }
{
    if price.0 < lower.0 {
        lower
    } else if upper.0 < price.0 {
        upper
    } else {
        price
    }
}

// Whether a price lies in the band.
pub fn in_band(heading: Heading, price: Price) -> bool
    ensures { result ≡ in_band heading price.0 }
{
    (heading.lower.0 <= price.0) & (price.0 <= heading.upper.0)
}

// The potential purchase price: the auction price, moved into the band.
pub fn potential_purchase(heading: Heading, auction: Auctioned) -> Price
    ensures { result.0 ≡ potential_purchase heading (auctioned auction) }
{
    moved_into(heading.lower, heading.upper, auction.price)
}

// What is entered for no limit: the upper bound for a buy, the lower one for a sell.
pub fn without_limit(heading: Heading, side: Side) -> Price
    ensures { result.0 ≡ without_limit heading side }
{
    match side {
        Side::Buy => heading.upper,
        Side::Sell => heading.lower,
    }
}
