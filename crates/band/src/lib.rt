// Clauses 9.1–9.8: the three calls about bands. Their arguments may be any numbers, as C hands them in: what is
// not allowed is refused.
#![tactic(auto, using(std::proofs::lemmas::Bool::Decides::nat_tests), unfolding(rules::specs::Answers::downwards, rules::specs::Grid::on_grid, rules::specs::Band::band_stands, rules::specs::Band::indicative_price, rules::specs::Band::widened_for, rules::specs::Band::widened_upper, rules::specs::Band::widened_lower, rules::specs::Band::widened_band, rules::specs::Band::next_band))]

mod rule;

ghost use Rattle.std.specs.Prelude.{◌≡◌, ◌≤◌, Ok};
ghost use Rattle.band.specs.Bounds.{BoundsOf};
ghost use Rattle.rules.specs.Answers.{price_answer, band_answer};
ghost use Rattle.rules.specs.Band.{band_stands, indicative_price, next_band, widened_for, widened_band};

use compare::moved_into;
use rule::BandRule;
use rules::{Band, LAST_PRICE, Price, Refusal, on_grid};

// Whether two numbers are bounds of a band.
pub fn band_stands(lower: u32, upper: u32) -> bool
    ensures { result ≡ band_stands lower upper }
{
    on_grid(lower) & on_grid(upper) & (lower < upper)
}

// The band of two bounds, or refusal 9 where they are none.
pub fn band_of(lower: u32, upper: u32) -> Result<Band, Refusal>
    ensures { BoundsOf lower upper result }
{
    if !band_stands(lower, upper) {
        return Err(Refusal::Argument);
    }
    Ok(Band {
        lower: Price(lower),
        upper: Price(upper),
    })
}

// The call that gives the indicative price, from the band, the count of pieces traded, the closing
// purchase price and the last auction price.
pub fn indicative_price(
    lower: u32,
    upper: u32,
    traded: u64,
    closing: u32,
    auction: u32,
) -> Result<Price, Refusal>
    ensures { price_answer result ≡ indicative_price lower upper traded closing auction }
{
    let band = band_of(lower, upper)?;
    let used = if 0 < traded { closing } else { auction };
    if !on_grid(used) {
        return Err(Refusal::Argument);
    }
    if 0 < traded {
        return Ok(Price(closing));
    }
    Ok(moved_into(band.lower, band.upper, Price(auction)))
}

// The call that gives the next band of shares (code 0) or certificates (code 1) around an indicative
// price.
pub fn next_band(code: u32, indicative: u32) -> Result<Band, Refusal>
    ensures { band_answer result ≡ next_band code indicative }
{
    if on_grid(indicative) & (code <= 1) {
        return BandRule::for_code(code).next(Price(indicative));
    }
    Err(Refusal::Argument)
}

// The band with its upper bound 11 × H / 10, rounded down, and at least H + 1; or refusal 11.
fn widened_up(band: Band) -> Result<Band, Refusal>
    requires { band.upper.0 ≤ 1000000 }
    ensures { band_answer result ≡ widened_for band.lower.0 band.upper.0 0 }
{
    let upper = band.upper.0;
    let wider = (11 * upper / 10).max(upper + 1);
    if LAST_PRICE < wider {
        return Err(Refusal::Band);
    }
    Ok(Band {
        upper: Price(wider),
        ..band
    })
}

// The band with its lower bound 9 × D / 10, rounded up, and at most D − 1; a bound of 1 stays. The upper
// bound is on the grid and stays, so there is no refusal. (One function for both bounds would have to ask at each
// step which one it is: they round, move and end on opposite sides.)
fn widened_down(band: Band) -> Band
    requires { (1 ≤ band.lower.0) × (band.lower.0 ≤ 1000000) × (band.upper.0 ≤ 1000000) }
    ensures { band_answer (Ok result) ≡ widened_for band.lower.0 band.upper.0 1 }
{
    let lower = band.lower.0;
    if lower == 1 {
        return band;
    }
    let wider = ((9 * lower + 9) / 10).min(lower - 1);
    Band {
        lower: Price(wider),
        ..band
    }
}

// The call that widens a band after waiting: side 0 its upper bound, side 1 its lower.
pub fn widened_band(lower: u32, upper: u32, side: u32) -> Result<Band, Refusal>
    ensures { band_answer result ≡ widened_band lower upper side }
{
    let band = band_of(lower, upper)?;
    match side {
        0 => widened_up(band),
        1 => Ok(widened_down(band)),
        _ => Err(Refusal::Argument),
    }
}
