// Clause 10.6c: the rounds in the words of a result of n orders. Words and n may be any: a round that is not there
// is refused. They go by themselves and not as a `View`, which holds words that open, or none.
ghost use Rattle.std.specs.Prelude.{◌≡◌, ◌++◌, ◌+◌, ◌≤◌, ◌<◌, length};
ghost use Rattle.rules.specs.Result.{rounds_for, round_said_for};
ghost use Rattle.rules.specs.Stored.{answers, summary_of, stretch_of, on_round, page, page_answer, round_answer};
ghost use Rattle.rules.specs.Words.{word_at};
ghost use Rattle.stored.specs.Steps.{PlaceIs, summary_from};
ghost use Rattle.stored.specs.Views.{fills_from, fills_count, PartOf};

use rules::{Pieces, Price, Refusal, StoredRound, Summary, Unopened};
use words::word_of;

// How many rounds there are. No list has as many words as a round of the greatest n would need.
pub fn rounds_in(words: &[u32], n: usize) -> usize
    ensures { result ≡ rounds_for n words.now }
{
    match n.checked_add(4) {
        Some(each) => words.len() / each,
        None => 0,
    }
}

// Where a round begins, unless it is past the last.
fn round_place(words: &[u32], n: usize, r: usize) -> Option<usize>
    ensures { PlaceIs n words.now r result }
{
    if r < rounds_in(words, n) {
        Some(r * (n + 4))
    } else {
        None
    }
}

fn value_at(words: &[u32], place: usize) -> u32
    requires { place < length words.now }
    ensures { result ≡ (word_at words.now place).value }
{
    word_of(words[place]).value
}

// What the four words say that begin a round.
fn summary_from(words: &[u32], place: usize) -> Summary
    requires { place + 4 ≤ length words.now }
    ensures { result ≡ summary_from words.now place }
{
    Summary {
        situation: value_at(words, place),
        price: Price(value_at(words, place + 1)),
        purchase: Price(value_at(words, place + 2)),
        total: Pieces(value_at(words, place + 3)),
    }
}

// The page of round r.
#[tactic(auto, using(crate::proofs::Stretches::page_said, crate::proofs::Stretches::no_page_lem))]
pub fn page_at(words: &[u32], n: usize, r: usize) -> Result<Summary, Refusal>
    ensures { page_answer result ≡ page n words.now r }
{
    let place = round_place(words, n, r).ok_or(Refusal::Argument)?;
    Ok(summary_from(words, place))
}

// Round r, with the stretch of its fill words.
#[tactic(auto, using(crate::proofs::Stretches::round_said_lem, crate::proofs::Stretches::no_round_said))]
pub(crate) fn round_at(words: &[u32], n: usize, r: usize) -> Result<StoredRound, Unopened>
    ensures { round_answer result ≡ answers (on_round n words.now r (summary_of (round_said_for n words.now r) ++ stretch_of n r)) }
{
    let place = round_place(words, n, r).ok_or(Refusal::Argument)?;
    Ok(StoredRound {
        summary: summary_from(words, place),
        fills: place + 4,
        count: n,
    })
}

// The n fill words of round r, still that part of the list. Past the last round there are none.
pub fn fills_at(words: &[u32], n: usize, r: usize) -> &[u32]
    ensures { PartOf words.entry result (fills_from n words.now r) (fills_count n words.now r) }
{
    match round_place(words, n, r) {
        Some(place) => {
            let start = place + 4;
            &words[start..start + n]
        }
        None => &words[..0],
    }
}
