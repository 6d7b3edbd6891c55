// Clause 10.7: the records of plain numbers that the library hands out, and each answer as such a record.
// They are laid out as C lays them out; include/boxashewu.h has them under C's names.
ghost use Rattle.std.specs.Prelude.{◌≡◌, List, ℕ};
ghost use Rattle.rules.specs.Answers.{check_answer, price_answer, curves_answer, space_answer, band_answer};
ghost use Rattle.boxashewu.specs.Replies.{fault_of, sheet_reply, price_reply, curves_reply, space_reply, band_reply};

use rules::{Band, Curves, Price, Refusal};

// What stands for the refusal and for its place where a call answers.
pub(crate) const ANSWERED: u32 = 0;

pub(crate) const NO_PLACE: usize = 0;

#[repr(C)]
#[derive(Clone, Copy)]
pub struct SheetReply {
    pub refusal: u32,
    pub order: usize,
}

#[repr(C)]
#[derive(Clone, Copy)]
pub struct PriceReply {
    pub refusal: u32,
    pub order: usize,
    pub price: u32,
}

#[repr(C)]
#[derive(Clone, Copy)]
pub struct CurvesReply {
    pub refusal: u32,
    pub order: usize,
    pub demand: u64,
    pub supply: u64,
    pub volume: u64,
}

#[repr(C)]
#[derive(Clone, Copy)]
pub struct SpaceReply {
    pub refusal: u32,
    pub order: usize,
    pub count: usize,
}

#[repr(C)]
#[derive(Clone, Copy)]
pub struct BandReply {
    pub refusal: u32,
    pub order: usize,
    pub lower: u32,
    pub upper: u32,
}

// The number and the place of a refusal, or what stands for them where a call answers.
pub(crate) fn fault(refusal: Option<Refusal>) -> (u32, usize)
    ensures { result ≡ fault_of refusal }
{
    match refusal {
        Some(refusal) => (refusal.number(), refusal.place()),
        None => (ANSWERED, NO_PLACE),
    }
}

impl From<Result<(), Refusal>> for SheetReply {
    ghost from_gives = { λ answer reply. reply ≡ sheet_reply (check_answer answer) };

    fn from(answer: Result<(), Refusal>) -> SheetReply {
        let (refusal, order) = fault(answer.err());
        SheetReply { refusal, order }
    }
}

impl From<Result<Price, Refusal>> for PriceReply {
    ghost from_gives = { λ answer reply. reply ≡ price_reply (price_answer answer) };

    fn from(answer: Result<Price, Refusal>) -> PriceReply {
        let (refusal, order) = fault(answer.err());
        let price = answer.map_or(0, |price| price.0);
        PriceReply {
            refusal,
            order,
            price,
        }
    }
}

impl From<Result<Curves, Refusal>> for CurvesReply {
    ghost from_gives = { λ answer reply. reply ≡ curves_reply (curves_answer answer) };

    fn from(answer: Result<Curves, Refusal>) -> CurvesReply {
        let (refusal, order) = fault(answer.err());
        let (demand, supply, volume) = answer.map_or(
            (0, 0, 0),
            |c| (c.demand.0, c.supply.0, c.volume.0),
        );
        CurvesReply {
            refusal,
            order,
            demand,
            supply,
            volume,
        }
    }
}

impl From<Result<usize, Refusal>> for SpaceReply {
    ghost from_gives = { λ answer reply. (space : List ℕ) → reply ≡ space_reply (space_answer answer space) };

    fn from(answer: Result<usize, Refusal>) -> SpaceReply {
        let (refusal, order) = fault(answer.err());
        let count = answer.unwrap_or(0);
        SpaceReply {
            refusal,
            order,
            count,
        }
    }
}

impl From<Result<Band, Refusal>> for BandReply {
    ghost from_gives = { λ answer reply. reply ≡ band_reply (band_answer answer) };

    fn from(answer: Result<Band, Refusal>) -> BandReply {
        let (refusal, order) = fault(answer.err());
        let (lower, upper) = answer.map_or((0, 0), |band| (band.lower.0, band.upper.0));
        BandReply {
            refusal,
            order,
            lower,
            upper,
        }
    }
}
