// Clauses 7.4–7.10: the rounds of an opening, one after the other, into the lent space.
#![tactic(auto)]

mod ending;
pub mod start;

ghost use Rattle.std.specs.Prelude.{List, ℕ, ◌≤◌, length};
ghost use Rattle.rules.specs.Opening.{opening_space};
ghost use Rattle.run.specs.Starts.{Ran};
ghost use Rattle.sheet.specs.Reading.{AcceptedAs, OfSheet};

use book::entering::book_of;
use ending::{ending_after, goes_on};
use round::round_of;
use round::writing::write_round;
use rules::Sheet;
use start::Start;
use words::{Kind, word};

// Runs the rounds of an opening by the sheet's book, each into its own stretch of the space, and writes
// the last word behind them. Hands back how many words were written.
pub fn run_rounds(sheet: &Sheet, space: &mut [u32]) -> usize
    requires { OfSheet sheet.now × (opening_space sheet.now.heading.count ≤ length space.old) }
    ensures { (ws : List ℕ) → AcceptedAs ws sheet.now → Ran ws space.old space.new result }
{
    let heading = sheet.heading;
    let count = heading.count;
    let size = 4 + count;
    let book = book_of(sheet);
    let mut start = Start::first(sheet);
    let mut at: usize = 0;
    let mut rounds: u32 = 0;
    // A `loop`: the round alone says whether another follows, and where it ends the next stretch or the last word begins.
    // A `for` up to n + 1 would need an end behind it that is never reached.
    loop {
        let round = round_of(heading, start.last, &start.remaining, &book);
        let end = at + size;
        write_round(&mut space[at..end], &round, count);
        at = end;
        rounds += 1;
        if !goes_on(heading, &round) {
            let ending = ending_after(heading, &round).number();
            space[at] = word(Kind::Ending as u32, ending * 65536 + rounds);
            return at + 1;
        }
        start = start.after(&round);
    }
}
