// Clause 9.16: the waiting clock. It works a list of words off, each a second of the day or a round above,
// below or inside the band, and answers the clock that they lead to, or the first word that is refused.
#![tactic(auto, using(std::proofs::lemmas::Bool::Decides::nat_tests), unfolding(rules::specs::Answers::downwards, rules::specs::Waiting::waiting_clock))]

mod said;
mod steps;

ghost use Rattle.std.specs.Prelude.{◌≡◌};
ghost use Rattle.rules.specs.Answers.{waiting_answer};
ghost use Rattle.rules.specs.Waiting.{followed, waiting_clock};

use band::band_of;
use rules::{Clock, Refusal};
use steps::RunningClock;
use words::word_of;

// Works the words off from a clock on.
fn follow(start: RunningClock, words: &[u32]) -> Result<Clock, Refusal>
    ensures { waiting_answer result ≡ followed start.clock 0 words.now }
{
    let mut running = start;
    for (i, word) in words.iter().enumerate() {
        running = running
            .after_word(word_of(*word))
            .map_err(|fault| Refusal::AtWord(fault, i))?;
    }
    Ok(running.clock)
}

// The call that follows a waiting list, from the starting band on.
pub fn waiting_clock(lower: u32, upper: u32, words: &[u32]) -> Result<Clock, Refusal>
    ensures { waiting_answer result ≡ waiting_clock lower upper words.now }
{
    let band = band_of(lower, upper)?;
    follow(RunningClock::start(band), words)
}
