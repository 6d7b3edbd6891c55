// What a round starts from.
ghost use Rattle.std.specs.Prelude.{cond, map, ◌≡◌, ◌-◌, ltb};
ghost use Rattle.rules.specs.declared.Order as declared;
ghost use Rattle.run.specs.Starts.{start_of, less_fills, start_after};

use round::Round;
use rules::{Pieces, Price, Sheet};
use std::array;

// The last purchase price, and what remains of each order.
#[derive(Clone, Copy)]
pub(crate) struct Start {
    pub(crate) last: Price,
    pub(crate) remaining: [Pieces; 120],
}

// The quantities of the orders, place by place: what remains before the first round.
pub fn quantities(sheet: &Sheet) -> [Pieces; 120]
    ensures { result ≡ map (λ (o : declared.Order). o.quantity) sheet.now.orders }
{
    array::from_fn(|k| sheet.orders[k].quantity)
}

// What is left of a remainder after a fill.
fn left_of(remaining: Pieces, fill: Pieces) -> Pieces
    ensures { result.0 ≡ remaining.0 - fill.0 }
{
    Pieces(remaining.0.saturating_sub(fill.0))
}

// The remainders after a round: its fills come off.
fn less_fills(remaining: &[Pieces; 120], fills: &[Pieces; 120]) -> [Pieces; 120]
    ensures { result ≡ less_fills remaining.now fills.now }
{
    array::from_fn(|k| left_of(remaining[k], fills[k]))
}

// The last purchase price after a round: its purchase price, where that is above 0.
fn last_after(last: Price, purchase: Price) -> Price
    ensures { result ≡ cond (ltb 0 purchase.0) purchase last }
{
    if 0 < purchase.0 { purchase } else { last }
}

impl Start {
    // What the first round starts from.
    pub(crate) fn first(sheet: &Sheet) -> Start
        ensures { result ≡ start_of sheet.now.heading sheet.now.orders }
    {
        Start {
            last: sheet.heading.last,
            remaining: quantities(sheet),
        }
    }

    // What the round after this one starts from.
    pub(crate) fn after(&self, round: &Round) -> Start
        ensures { result ≡ start_after self.now round.now }
    {
        Start {
            last: last_after(self.last, round.purchase),
            remaining: less_fills(&self.remaining, &round.fills),
        }
    }
}
