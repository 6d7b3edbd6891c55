// Clauses 3.1–3.14: reading the words of a sheet, and its check.
#![tactic(auto)]

mod heading;
mod orders;

ghost use Rattle.std.specs.Prelude.{◌≡◌};
ghost use Rattle.rules.specs.Answers.{check_answer};
ghost use Rattle.rules.specs.Result.{count};
ghost use Rattle.rules.specs.Sheet.{check_sheet};
ghost use Rattle.sheet.specs.Reading.{ReadsAs};

use heading::read_heading;
use orders::read_orders;
use rules::{Refusal, Sheet};
use words::word_of;

// Clause 3.1: words of a heading without a step word, and of an order.
pub(crate) const HEADING_WORDS: usize = 5;

pub(crate) const ORDER_WORDS: usize = 3;

// Reads a sheet once, for every call that takes one: what it says, or why it is refused.
pub fn read_sheet(words: &[u32]) -> Result<Sheet, Refusal>
    ensures { ReadsAs words.now result }
{
    let (heading, next) = read_heading(words)?;
    read_orders(words, heading, next)
}

// The call that checks a sheet.
pub fn check(words: &[u32]) -> Result<(), Refusal>
    ensures { check_answer result ≡ check_sheet words.now }
{
    read_sheet(words)?;
    Ok(())
}

// How many orders a sheet says that it has, be it accepted or not.
pub fn order_count(words: &[u32]) -> usize
    ensures { result ≡ count words.now }
{
    if words.len() < HEADING_WORDS {
        return 0;
    }
    word_of(words[4]).value as usize
}
