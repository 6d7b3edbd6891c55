// Clause 9.9: what a word of a waiting list says.
#![tactic(auto, using(std::proofs::lemmas::Bool::Decides::nat_tests), unfolding(rules::specs::Waiting::waiting_word))]

ghost use Rattle.waiting.specs.Steps.{SaidBy};

use rules::{Outside, WaitingFault, Word};

// The last second of a day.
const LAST_SECOND: u32 = 86399;

// A second of the day, or a round priced outside or inside the band. The kinds 1 to 4 of the words are read here
// alone.
#[derive(Clone, Copy)]
pub(crate) enum Said {
    Second(u32),
    Outside(Outside),
    Inside,
}

impl TryFrom<Word> for Said {
    type Error = WaitingFault;

    ghost try_from_gives = { SaidBy };

    fn try_from(word: Word) -> Result<Said, WaitingFault> {
        match (word.kind, word.value) {
            (1, second) if second <= LAST_SECOND => Ok(Said::Second(second)),
            (2, 0) => Ok(Said::Outside(Outside::Above)),
            (3, 0) => Ok(Said::Outside(Outside::Below)),
            (4, 0) => Ok(Said::Inside),
            _ => Err(WaitingFault::Word),
        }
    }
}
