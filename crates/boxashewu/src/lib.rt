// Clause 10.7: the calls for programs in C and in Rust. Numbers and lists of words go in, a record of plain
// numbers comes out; include/boxashewu.h says what a caller owes.
#![tactic(auto, unfolding(rules::specs::Calls::answer, rules::specs::Calls::answer_by))]

mod clock;
mod replies;
mod stored_replies;

ghost use Rattle.std.specs.Prelude.{◌≡◌, length};
ghost use Rattle.claims.specs.Calls.{FirstRound, Opened, OpenedWithFees};
ghost use Rattle.rules.specs.Calls.{answer, check, stepper_limit, curves_at, first_round, opening, opening_fees, indicative, next, widen, waiting};
ghost use Rattle.rules.specs.Fees.{tariff_of};
ghost use Rattle.rules.specs.Stored.{open_stored, stored_round, stored_answer};
ghost use Rattle.boxashewu.specs.Replies.{sheet_reply, price_reply, curves_reply, space_reply, band_reply, waiting_reply, stored_reply, round_reply};

use clock::WaitingReply;
use replies::{BandReply, CurvesReply, PriceReply, SheetReply, SpaceReply};
use rules::Tariff;
use stored_replies::{RoundReply, StoredReply};

// Checks a sheet.
#[unsafe(no_mangle)]
pub extern "C" fn auction_check(words: &[u32]) -> SheetReply
    ensures { result ≡ sheet_reply (answer (check words.now)) }
{
    sheet::check(words).into()
}

// The limit in force of a Stepper in the first round, from the order's number.
#[unsafe(no_mangle)]
pub extern "C" fn auction_stepper_limit(words: &[u32], order: usize) -> PriceReply
    ensures { result ≡ price_reply (answer (stepper_limit words.now order)) }
{
    auction::stepper_limit(words, order).into()
}

// Demand, supply and volume at a price in the first round.
#[unsafe(no_mangle)]
pub extern "C" fn auction_curves_at(words: &[u32], price: u32) -> CurvesReply
    ensures { result ≡ curves_reply (answer (curves_at words.now price)) }
{
    auction::curves_at(words, price).into()
}

// The first round, written into the lent space, which needs 4 + n words.
#[unsafe(no_mangle)]
pub extern "C" fn auction_first_round(words: &[u32], space: &mut [u32]) -> SpaceReply
    ensures value { result ≡ space_reply (answer (first_round words.now (length space.old))) }
    ensures first_round { FirstRound words.now space.old space.new (answer (first_round words.now (length space.old))) }
{
    auction::first_round(words, space).into()
}

// The opening, written into the lent space, which needs (n + 1) × (n + 4) + 1 words.
#[unsafe(no_mangle)]
pub extern "C" fn auction_opening(words: &[u32], space: &mut [u32]) -> SpaceReply
    ensures value { result ≡ space_reply (answer (opening words.now (length space.old))) }
    ensures opened { Opened words.now space.old space.new (answer (opening words.now (length space.old))) }
{
    auction::opening(words, space).into()
}

// The opening, written like that, and what each order pays by a tariff, written into the lent fee list, which
// needs n places.
#[unsafe(no_mangle)]
pub extern "C" fn auction_opening_fees(
    words: &[u32],
    rate: u32,
    least: u32,
    greatest: u32,
    space: &mut [u32],
    fees: &mut [u64],
) -> SpaceReply
    ensures value { result ≡ space_reply (answer (opening_fees words.now (tariff_of rate least greatest) (length space.old) (length fees.old))) }
    ensures opened_with_fees { OpenedWithFees words.now (tariff_of rate least greatest) space.old space.new fees.old fees.new (answer (opening_fees words.now (tariff_of rate least greatest) (length space.old) (length fees.old))) }
{
    let tariff = Tariff {
        rate,
        least,
        greatest,
    };
    auction::opening_fees(words, tariff, space, fees).into()
}

// The indicative price, from the band, the count of pieces traded, the closing purchase price and the
// last auction price.
#[unsafe(no_mangle)]
pub extern "C" fn auction_indicative_price(
    lower: u32,
    upper: u32,
    traded: u64,
    closing: u32,
    auction: u32,
) -> PriceReply
    ensures { result ≡ price_reply (answer (indicative lower upper traded closing auction)) }
{
    band::indicative_price(lower, upper, traded, closing, auction).into()
}

// The next band of shares (code 0) or certificates (code 1) around an indicative price.
#[unsafe(no_mangle)]
pub extern "C" fn auction_next_band(code: u32, indicative: u32) -> BandReply
    ensures { result ≡ band_reply (answer (next code indicative)) }
{
    band::next_band(code, indicative).into()
}

// The band widened after waiting: side 0 its upper bound, side 1 its lower.
#[unsafe(no_mangle)]
pub extern "C" fn auction_widened_band(lower: u32, upper: u32, side: u32) -> BandReply
    ensures { result ≡ band_reply (answer (widen lower upper side)) }
{
    band::widened_band(lower, upper, side).into()
}

// The waiting clock: follows the words of a waiting list from a starting band on.
#[unsafe(no_mangle)]
pub extern "C" fn auction_waiting_clock(lower: u32, upper: u32, words: &[u32]) -> WaitingReply
    ensures { result ≡ waiting_reply (answer (waiting lower upper words.now)) }
{
    waiting::waiting_clock(lower, upper, words).into()
}

// Whether a stored result opens beside its sheet, or where it differs from what the sheet's opening writes.
#[unsafe(no_mangle)]
pub extern "C" fn auction_stored_opens(sheet: &[u32], stored: &[u32]) -> StoredReply
    ensures { result ≡ stored_reply (stored_answer (open_stored sheet.now stored.now)) }
{
    stored::opens(sheet, stored).into()
}

// A round of a stored result, counted from 0, where it opens beside its sheet.
#[unsafe(no_mangle)]
pub extern "C" fn auction_stored_round(sheet: &[u32], stored: &[u32], round: usize) -> RoundReply
    ensures { result ≡ round_reply (stored_answer (stored_round sheet.now stored.now round)) }
{
    stored::read_round(sheet, stored, round).into()
}
