// Clauses 9.10–9.15: what a word does to the clock.
#![tactic(auto, using(std::proofs::lemmas::Bool::Decides::nat_tests), unfolding(rules::specs::Answers::downwards, rules::specs::Band::widened_band, rules::specs::Band::widened_for, rules::specs::Waiting::waiting_word, rules::specs::Waiting::after_outside, rules::specs::Waiting::after_inside, rules::specs::Waiting::after_time, rules::specs::Waiting::after_second, rules::specs::Waiting::after_word, rules::specs::Waiting::time_is_up, rules::specs::Waiting::waiting_checks))]

ghost use Rattle.std.specs.Prelude.{true, ◌≡◌, ◌≤◌};
ghost use Rattle.claims.specs.Clock.{SoundClock};
ghost use Rattle.rules.specs.Answers.{side_number};
ghost use Rattle.rules.specs.Band.{band_stands};
ghost use Rattle.rules.specs.Waiting.{last_second, side_in, clock_at_start, after_outside, after_inside};

use crate::said::Said;
use band::widened_band;
use rules::{Band, Clock, Outside, Phase, WaitingFault, Word};

// After how many seconds the time of a phase is up.
const WAITING_TIME: u32 = 600;

// The clock between two words of a waiting list. It is always sound.
#[derive(Clone, Copy)]
pub(crate) struct RunningClock {
    pub(crate) clock: Clock,
    ghost sound: { SoundClock clock },
}

impl RunningClock {
    ghost use Rattle.waiting.specs.Steps.{second_word, EndsAs, MovedAs};

    // Before the first word, from the starting band on.
    pub(crate) fn start(band: Band) -> RunningClock
        requires { band_stands band.lower.0 band.upper.0 ≡ true }
        ensures { result.clock ≡ clock_at_start band.lower.0 band.upper.0 }
    {
        RunningClock {
            clock: Clock {
                second: 0,
                phase: Phase::Idle,
                lower: band.lower,
                upper: band.upper,
                due: 0,
            },
        }
    }

    // After a round outside the band, on this side: a phase that is on keeps its start, else one starts now.
    fn after_outside(self, side: Outside) -> RunningClock
        ensures { result.clock ≡ after_outside side self.clock }
    {
        let start = match self.clock.phase {
            Phase::Idle => self.clock.second,
            Phase::Waiting { start, side: _ } => start,
        };
        RunningClock {
            clock: Clock {
                phase: Phase::Waiting { start, side },
                ..self.clock
            },
        }
    }

    // After a round inside the band.
    fn after_inside(self) -> RunningClock
        ensures { result.clock ≡ after_inside self.clock }
    {
        RunningClock {
            clock: Clock {
                phase: Phase::Idle,
                ..self.clock
            },
        }
    }

    // The end of a phase by time: the band is widened on the phase's side, and an opening is due. The
    // clock is a plain one here, since only `after_second` knows that the time is up, which keeps it sound.
    fn after_time(self, second: u32, side: Outside) -> Result<Clock, WaitingFault>
        requires { side_in self.clock.phase ≡ side_number side }
        ensures { EndsAs second self.clock result }
    {
        let clock = self.clock;
        let band = widened_band(clock.lower.0, clock.upper.0, side.number()).map_err(
            |_| WaitingFault::Widening,
        )?;
        Ok(Clock {
            second,
            phase: Phase::Idle,
            lower: band.lower,
            upper: band.upper,
            due: clock.due + 1,
        })
    }

    // After a second of the day.
    fn after_second(self, second: u32) -> Result<RunningClock, WaitingFault>
        requires { second ≤ last_second }
        ensures { MovedAs self.clock (second_word second) result }
    {
        let clock = self.clock;
        if second < clock.second {
            return Err(WaitingFault::Second);
        }
        match clock.phase {
            Phase::Waiting { start, side } if WAITING_TIME <= second - start => {
                let clock = self.after_time(second, side)?;
                Ok(RunningClock { clock })
            }
            _ => Ok(RunningClock {
                clock: Clock { second, ..clock },
            }),
        }
    }

    // After a word of a waiting list.
    pub(crate) fn after_word(self, word: Word) -> Result<RunningClock, WaitingFault>
        ensures { MovedAs self.clock word result }
    {
        match Said::try_from(word)? {
            Said::Second(second) => self.after_second(second),
            Said::Outside(side) => Ok(self.after_outside(side)),
            Said::Inside => Ok(self.after_inside()),
        }
    }
}
