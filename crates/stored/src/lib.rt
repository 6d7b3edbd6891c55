// Clauses 10.6a–10.6d: a stored result beside its sheet. It opens if its words are what the opening of the sheet
// writes, and then it is read round by round: through a view, opened once, or by a call for one round.
#![tactic(auto)]

mod beside;
pub mod rounds;

ghost use Rattle.std.specs.Prelude.{◌≡◌};
ghost use Rattle.rules.specs.Stored.{open_stored, stored_round, stored_answer, opens_answer, round_answer};
ghost use Rattle.stored.specs.Views.{OpensAs, ViewsAs, PageOf};

use beside::first_difference;
use rounds::{fills_at, page_at, round_at};
use rules::{Refusal, StoredRound, Summary, Unopened};
use sheet::order_count;

// A view over the words of a stored result of n orders. `open_result` makes one where the result opens, `answer_and_view`
// of any result.
#[derive(Clone, Copy)]
pub struct View<'a> {
    words: &'a [u32],
    n: usize,
}

// A round of a view: what it says, and its fill words, which are still a part of the stored list.
#[derive(Clone, Copy)]
pub struct Page<'a> {
    pub summary: Summary,
    pub fills: &'a [u32],
}

// The call that opens a stored result beside its sheet.
pub fn open_result<'s, 'a>(sheet: &'s [u32], stored: &'a [u32]) -> Result<View<'a>, Unopened>
    ensures { OpensAs sheet.now stored.entry result }
{
    opens(sheet, stored)?;
    Ok(View {
        words: stored,
        n: order_count(sheet),
    })
}

// The same of any stored result: the answer, and a view, which has no words, and so no round, where the result does not open.
pub fn answer_and_view<'s, 'a>(
    sheet: &'s [u32],
    stored: &'a [u32],
) -> (Result<(), Unopened>, View<'a>)
    ensures { ViewsAs sheet.now stored.entry result }
{
    match open_result(sheet, stored) {
        Ok(view) => (Ok(()), view),
        Err(unopened) => {
            let none = View {
                words: &stored[..0],
                n: order_count(sheet),
            };
            (Err(unopened), none)
        }
    }
}

impl<'a> View<'a> {
    // Round r, counted from 0. One past the last is refused.
    pub fn round(self, r: usize) -> Result<Page<'a>, Refusal>
        ensures { PageOf self.entry r result }
    {
        let summary = page_at(self.words, self.n, r)?;
        let fills = fills_at(self.words, self.n, r);
        Ok(Page { summary, fills })
    }
}

// The call that says whether a stored result opens beside its sheet. The opening is run again, into a space that
// is always large enough.
pub fn opens(sheet: &[u32], stored: &[u32]) -> Result<(), Unopened>
    ensures { opens_answer result ≡ stored_answer (open_stored sheet.now stored.now) }
{
    let mut space = [0u32; 15005];
    let count = auction::opening(sheet, &mut space)?;
    match first_difference(stored, &space[..count]) {
        Some(place) => Err(Unopened::Different(place)),
        None => Ok(()),
    }
}

// The call that reads a round of a stored result, counted from 0, where the result opens beside its sheet.
pub fn read_round(sheet: &[u32], stored: &[u32], round: usize) -> Result<StoredRound, Unopened>
    ensures { round_answer result ≡ stored_answer (stored_round sheet.now stored.now round) }
{
    let view = open_result(sheet, stored)?;
    round_at(view.words, view.n, round)
}
