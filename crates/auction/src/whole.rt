// The whole opening of an accepted sheet.
ghost use Rattle.std.specs.Prelude.{List, ◌≡◌, ℕ, ◌≤◌, length};
ghost use Rattle.rules.specs.Answers.{space_answer};
ghost use Rattle.rules.specs.Calls as Calls;
ghost use Rattle.rules.specs.Opening.{opening_space};
ghost use Rattle.sheet.specs.Reading.{AcceptedAs, OfSheet};

use rules::{Refusal, Sheet};
use run::run_rounds;

// The words that the opening of so many orders needs, whether or not it writes them all.
fn space_needed(count: usize) -> usize
    requires { count ≤ 120 }
    ensures { result ≡ opening_space count }
{
    (count + 1) * (count + 4) + 1
}

// The opening, run into the lent space where it has the words.
pub(crate) fn opening_of(sheet: &Sheet, space: &mut [u32]) -> Result<usize, Refusal>
    requires { OfSheet sheet.now }
    ensures { (ws : List ℕ) → AcceptedAs ws sheet.now → Calls.Writes (Calls.opening ws (length space.old)) space.old space.new (space_answer result space.new) }
{
    if space.len() < space_needed(sheet.heading.count) {
        return Err(Refusal::Space);
    }
    Ok(run_rounds(sheet, space))
}
