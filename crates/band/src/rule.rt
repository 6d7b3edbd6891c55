// The band rule of an instrument kind.
#![tactic(auto, using(std::proofs::lemmas::Bool::Decides::nat_tests), unfolding(rules::specs::Answers::downwards, rules::specs::Band::next_band_for, rules::specs::Band::next_upper, rules::specs::Band::next_lower, rules::specs::Band::percent_of))]

ghost use Rattle.std.specs.Prelude.{◌≡◌, ◌≤◌};
ghost use Rattle.rules.specs.Answers.{band_answer};
ghost use Rattle.rules.specs.Band.{percent_of, next_upper, next_lower, next_band_for};

use rules::{Band, LAST_PRICE, Price, Refusal};

// How far the next band reaches from the indicative price, in percent of it.
#[derive(Clone, Copy)]
pub(crate) struct BandRule {
    pub percent: u32,
    ghost at_most_100: { percent ≤ 100 },
}

impl BandRule {
    pub(crate) const SHARES_CODE: u32 = 0;

    pub(crate) const SHARES_PERCENT: u32 = 20;

    pub(crate) const CERTIFICATES_PERCENT: u32 = 25;

    pub(crate) fn shares() -> BandRule
        ensures { result.percent ≡ 20 }
    {
        BandRule {
            percent: BandRule::SHARES_PERCENT,
        }
    }

    pub(crate) fn certificates() -> BandRule
        ensures { result.percent ≡ 25 }
    {
        BandRule {
            percent: BandRule::CERTIFICATES_PERCENT,
        }
    }

    // The rule of a code that is known; any but 0 gives that of certificates, as `percent_of` says. A number, as C hands it in.
    pub(crate) fn for_code(code: u32) -> BandRule
        ensures { result.percent ≡ percent_of code }
    {
        if code == BandRule::SHARES_CODE {
            BandRule::shares()
        } else {
            BandRule::certificates()
        }
    }

    // The upper bound, rounded down; one equal to the indicative price goes up 1.
    fn upper(self, indicative: Price) -> Price
        requires { indicative.0 ≤ 1000000 }
        ensures { result.0 ≡ next_upper self.percent indicative.0 }
    {
        let i = indicative.0;
        let rounded = i * (100 + self.percent) / 100;
        if rounded == i {
            Price(i + 1)
        } else {
            Price(rounded)
        }
    }

    // The lower bound, rounded up; one equal to the indicative price goes down 1. (As with the widened bounds, the two
    // round and move to opposite sides.)
    fn lower(self, indicative: Price) -> Price
        requires { (1 ≤ indicative.0) × (indicative.0 ≤ 1000000) }
        ensures { result.0 ≡ next_lower self.percent indicative.0 }
    {
        let i = indicative.0;
        let rounded = (i * (100 - self.percent) + 99) / 100;
        if rounded == i {
            Price(i - 1)
        } else {
            Price(rounded)
        }
    }

    // The next band around an indicative price.
    pub(crate) fn next(self, indicative: Price) -> Result<Band, Refusal>
        requires { (1 ≤ indicative.0) × (indicative.0 ≤ 1000000) }
        ensures { band_answer result ≡ next_band_for self.percent indicative.0 }
    {
        if indicative.0 == 1 {
            return Err(Refusal::Band);
        }
        let upper = self.upper(indicative);
        if LAST_PRICE < upper.0 {
            return Err(Refusal::Band);
        }
        let lower = self.lower(indicative);
        Ok(Band { lower, upper })
    }
}
