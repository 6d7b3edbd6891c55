// Clauses 10.2–10.6: the calls on a sheet. Their arguments may be any numbers: the sheet's faults are
// refused first, then what is not allowed. Each call reads the sheet once and hands on what it says.
#![tactic(auto)]

mod charged;
mod first;
mod whole;

ghost use Rattle.std.specs.Prelude.{◌≡◌};
ghost use Rattle.claims.specs.Calls.{FirstRound, Opened, OpenedWithFees};
ghost use Rattle.rules.specs.Answers.{price_answer, curves_answer, space_answer};
ghost use Rattle.rules.specs.Calls.{answer, stepper_limit, curves_at};

use charged::opening_charged;
use first::{curves_in_first, limit_in_first, round_in_first};
use rules::{Curves, Price, Refusal, Tariff};
use sheet::read_sheet;
use whole::opening_of;

// The call that gives the limit in force of a Stepper in the first round, from the order's number.
pub fn stepper_limit(words: &[u32], order: usize) -> Result<Price, Refusal>
    ensures { price_answer result ≡ answer (stepper_limit words.now order) }
{
    limit_in_first(&read_sheet(words)?, order)
}

// The call that gives demand, supply and volume at a price in the first round.
pub fn curves_at(words: &[u32], price: u32) -> Result<Curves, Refusal>
    ensures { curves_answer result ≡ answer (curves_at words.now price) }
{
    curves_in_first(&read_sheet(words)?, price)
}

// The call that runs the first round and writes it into the lent space, which needs 4 + n words.
pub fn first_round(words: &[u32], space: &mut [u32]) -> Result<usize, Refusal>
    ensures { FirstRound words.now space.old space.new (space_answer result space.new) }
{
    round_in_first(&read_sheet(words)?, space)
}

// The call that runs the opening and writes it into the lent space, which needs (n + 1) × (n + 4) + 1
// words.
pub fn opening(words: &[u32], space: &mut [u32]) -> Result<usize, Refusal>
    ensures { Opened words.now space.old space.new (space_answer result space.new) }
{
    opening_of(&read_sheet(words)?, space)
}

// The call that runs the opening, writes it into the lent space, which needs (n + 1) × (n + 4) + 1 words, and
// writes what each order pays by a tariff into the lent fee list, which needs n places.
pub fn opening_fees(
    words: &[u32],
    tariff: Tariff,
    space: &mut [u32],
    fees: &mut [u64],
) -> Result<usize, Refusal>
    ensures { OpenedWithFees words.now tariff space.old space.new fees.old fees.new (space_answer result space.new) }
{
    opening_charged(&read_sheet(words)?, tariff, space, fees)
}
