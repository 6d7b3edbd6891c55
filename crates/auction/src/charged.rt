// The whole opening of an accepted sheet, with its fees.
ghost use Rattle.std.specs.Prelude.{List, ℕ};
ghost use Rattle.claims.specs.Calls.{OpenedWithFees};
ghost use Rattle.rules.specs.Answers.{space_answer};
ghost use Rattle.sheet.specs.Reading.{AcceptedAs, OfSheet};

use crate::whole::opening_of;
use fees::{charge, tariff_stands};
use rules::{Refusal, Sheet, Tariff};

// The opening into the lent space and its fees into the lent list, where the tariff stands and both have
// room. The tariff and the list are judged before anything is written.
pub(crate) fn opening_charged(
    sheet: &Sheet,
    tariff: Tariff,
    space: &mut [u32],
    fees: &mut [u64],
) -> Result<usize, Refusal>
    requires { OfSheet sheet.now }
    ensures { (ws : List ℕ) → AcceptedAs ws sheet.now → OpenedWithFees ws tariff space.old space.new fees.old fees.new (space_answer result space.new) }
{
    if !tariff_stands(tariff) {
        return Err(Refusal::Tariff);
    }
    let count = sheet.heading.count;
    if fees.len() < count {
        return Err(Refusal::Space);
    }
    let written = opening_of(sheet, space)?;
    charge(tariff, count, &space[..written], fees);
    Ok(written)
}
