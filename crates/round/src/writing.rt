// The result words of a round, written into the part of the space that is lent for them.
ghost use Rattle.std.specs.Prelude.{◌≡◌, ℕ, ◌≤◌, ◌<◌, length};
ghost use Rattle.lines.specs.Pieces.{pieces_of};
ghost use Rattle.claims.specs.Fits.{FitsWords};
ghost use Rattle.rules.specs.Lists.{listed};
ghost use Rattle.rules.specs.Opening.{round_words, round_space};
ghost use Rattle.rules.specs.Words as Words;
ghost use Rattle.round.specs.HandedBack.{of_orders};

use crate::Round;
use rules::Pieces;
use words::{Kind, word};

// The words of the fills, one for each word of the part that is lent.
fn write_fills(out: &mut [u32], fills: &[Pieces])
    requires { (length out.old ≡ length fills.now) × ((k : ℕ) → k < length fills.now → pieces_of fills.now k < 0x1000_0000) }
    ensures { out.new ≡ listed (λ k. Words.word 14 (pieces_of fills.now k)) (length fills.now) }
{
    for (k, fill) in fills.iter().enumerate() {
        out[k] = word(Kind::Fill as u32, fill.0);
    }
}

// The words of a round with the fills of its orders, into a part of just as many words. Each value has to
// fit its word.
pub fn write_round(out: &mut [u32], round: &Round, count: usize)
    requires { (count ≤ 120) × (length out.old ≡ round_space count) × FitsWords (of_orders count round.now) }
    ensures { out.new ≡ round_words (of_orders count round.now) }
{
    out[0] = word(Kind::Situation as u32, round.situation);
    out[1] = word(Kind::Price as u32, round.price.0);
    out[2] = word(Kind::Purchase as u32, round.purchase.0);
    out[3] = word(Kind::Total as u32, round.total.0 as u32);
    write_fills(&mut out[4..], &round.fills[..count]);
}
