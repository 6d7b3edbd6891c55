// Clause 10.7: the records of the calls on a stored result. Beside the refusal they say whether the stored words differ
// from those of the opening, and where.
ghost use Rattle.std.specs.Prelude.{◌≡◌};
ghost use Rattle.rules.specs.Stored.{opens_answer, round_answer};
ghost use Rattle.boxashewu.specs.Replies.{stored_reply, round_reply, no_round};

use crate::replies::{ANSWERED, NO_PLACE, fault};
use rules::{StoredRound, Unopened};

// Whether the stored words differ from those of the opening, as C has it.
const SAME: u32 = 0;

const DIFFERENT: u32 = 1;

#[repr(C)]
#[derive(Clone, Copy)]
pub struct StoredReply {
    pub refusal: u32,
    pub order: usize,
    pub different: u32,
    pub place: usize,
}

#[repr(C)]
#[derive(Clone, Copy)]
pub struct RoundReply {
    pub refusal: u32,
    pub order: usize,
    pub different: u32,
    pub place: usize,
    pub situation: u32,
    pub price: u32,
    pub purchase: u32,
    pub total: u32,
    pub fills: usize,
    pub count: usize,
}

impl From<Result<(), Unopened>> for StoredReply {
    ghost from_gives = { λ answer reply. reply ≡ stored_reply (opens_answer answer) };

    fn from(answer: Result<(), Unopened>) -> StoredReply {
        let opened = StoredReply {
            refusal: ANSWERED,
            order: NO_PLACE,
            different: SAME,
            place: NO_PLACE,
        };
        match answer {
            Ok(()) => opened,
            Err(Unopened::Different(place)) => StoredReply {
                different: DIFFERENT,
                place,
                ..opened
            },
            Err(Unopened::Refused(refusal)) => {
                let (refusal, order) = fault(Some(refusal));
                StoredReply {
                    refusal,
                    order,
                    ..opened
                }
            }
        }
    }
}

// The record where there is no round to tell of.
fn no_round(stored: StoredReply) -> RoundReply
    ensures { result ≡ no_round stored }
{
    RoundReply {
        refusal: stored.refusal,
        order: stored.order,
        different: stored.different,
        place: stored.place,
        situation: 0,
        price: 0,
        purchase: 0,
        total: 0,
        fills: 0,
        count: 0,
    }
}

impl From<Result<StoredRound, Unopened>> for RoundReply {
    ghost from_gives = { λ answer reply. reply ≡ round_reply (round_answer answer) };

    fn from(answer: Result<StoredRound, Unopened>) -> RoundReply {
        let none = no_round(StoredReply::from(answer.map(|_| ())));
        match answer {
            Ok(round) => RoundReply {
                situation: round.summary.situation,
                price: round.summary.price.0,
                purchase: round.summary.purchase.0,
                total: round.summary.total.0,
                fills: round.fills,
                count: round.count,
                ..none
            },
            Err(_) => none,
        }
    }
}
