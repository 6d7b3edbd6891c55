// Clause 10.7: the record of the waiting clock. Its refusal has the place of a word.
ghost use Rattle.std.specs.Prelude.{◌≡◌, [], ◌∷◌};
ghost use Rattle.rules.specs.Answers.{phase_numbers, waiting_answer};
ghost use Rattle.boxashewu.specs.Replies.{waiting_reply};

use crate::replies::fault;
use rules::{Clock, Phase, Price, Refusal};

#[repr(C)]
#[derive(Clone, Copy)]
pub struct WaitingReply {
    pub refusal: u32,
    pub place: usize,
    pub phase: u32,
    pub start: u32,
    pub side: u32,
    pub lower: u32,
    pub upper: u32,
    pub due: u32,
}

// What stands for the clock where the call refuses: each of its numbers is 0.
const NO_CLOCK: Clock = Clock {
    second: 0,
    phase: Phase::Idle,
    lower: Price(0),
    upper: Price(0),
    due: 0,
};

// The three numbers of a phase.
fn numbers_of(phase: Phase) -> (u32, u32, u32)
    ensures { phase_numbers phase ≡ result.0 ∷ result.1 ∷ result.2 ∷ [] }
{
    match phase {
        Phase::Idle => (0, 0, 0),
        Phase::Waiting { start, side } => (1, start, side.number()),
    }
}

impl From<Result<Clock, Refusal>> for WaitingReply {
    ghost from_gives = { λ answer reply. reply ≡ waiting_reply (waiting_answer answer) };

    fn from(answer: Result<Clock, Refusal>) -> WaitingReply {
        let (refusal, place) = fault(answer.err());
        let clock = answer.unwrap_or(NO_CLOCK);
        let (phase, start, side) = numbers_of(clock.phase);
        WaitingReply {
            refusal,
            place,
            phase,
            start,
            side,
            lower: clock.lower.0,
            upper: clock.upper.0,
            due: clock.due,
        }
    }
}
