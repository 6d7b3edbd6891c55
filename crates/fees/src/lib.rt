// Clauses 8.5–8.9: the fees on a result, order by order, from a tariff and the words of the result. In 64 bits
// there is room for the worth of any fill, and for what an order pays over all rounds.
#![tactic(auto)]

ghost use Rattle.std.specs.Prelude.{true, ◌++◌, ◌≡◌, ◌+◌, ◌*◌, ◌/◌, ◌≤◌, ◌<◌, length, drop};
ghost use Rattle.rules.specs.Fees as Fees;
ghost use Rattle.fees.specs.Trades.{trade_at, trade_in, Small, Chargeable, fees_in};

use rules::{Pieces, Price, Tariff, Trade};
use words::word_of;

// The highest figures that a tariff may have.
const MOST_RATE: u32 = 10000;

const MOST_FEE: u32 = 100000000;

// Clause 8.5: whether a tariff stands.
pub fn tariff_stands(tariff: Tariff) -> bool
    ensures { result ≡ Fees.tariff_stands tariff }
{
    tariff.rate <= MOST_RATE
        && tariff.least <= MOST_FEE
        && tariff.greatest <= MOST_FEE
        && tariff.least <= tariff.greatest
}

// Clause 8.6: the worth of a trade in hellers.
fn worth(trade: Trade) -> u64
    requires { Small trade }
    ensures { (result ≡ Fees.worth trade) × (result ≤ 10000000000000) }
{
    u64::from(trade.pieces.0) * u64::from(trade.purchase.0) * 10
}

// Clause 8.7: so many ten-thousandths of a worth, halves rounded up.
fn rated(rate: u32, hellers: u64) -> u64
    requires { (rate ≤ 10000) × (hellers ≤ 10000000000000) }
    ensures { result ≡ Fees.rated rate hellers }
{
    (hellers * u64::from(rate) + 5000) / 10000
}

// Clause 8.7: the fee of a fill.
fn fill_fee(tariff: Tariff, trade: Trade) -> u64
    requires { (Fees.tariff_stands tariff ≡ true) × Small trade }
    ensures { result ≡ Fees.fill_fee tariff trade }
{
    if trade.pieces.0 == 0 {
        return 0;
    }
    let fee = rated(tariff.rate, worth(trade));
    fee.clamp(u64::from(tariff.least), u64::from(tariff.greatest))
}

// The trade of an order in a round, from the round's words.
fn trade_at(round: &[u32], order: usize) -> Trade
    requires { 4 + order < length round.now }
    ensures { result ≡ trade_at round.now 0 order }
{
    let fill = word_of(round[4 + order]);
    let purchase = word_of(round[2]);
    Trade {
        pieces: Pieces(fill.value),
        purchase: Price(purchase.value),
    }
}

// Clause 8.8: what an order pays over the rounds.
fn order_fee(tariff: Tariff, count: usize, words: &[u32], order: usize) -> u64
    requires { Chargeable tariff count words.now × (order < count) }
    ensures { result ≡ Fees.order_fee tariff (trade_in count words.now order) (length words.now / (count + 4)) }
{
    let mut fee: u64 = 0;
    for round in words.chunks_exact(count + 4) {
        fee += fill_fee(tariff, trade_at(round, order));
    }
    fee
}

// Clause 8.9: writes what each order pays, from the words of a result of so many orders, in front of the list.
pub fn charge(tariff: Tariff, count: usize, words: &[u32], fees: &mut [u64])
    requires { Chargeable tariff count words.now × (count ≤ length fees.old) }
    ensures { fees.new ≡ fees_in tariff count words.now ++ drop count fees.old }
{
    for (order, fee) in fees[..count].iter_mut().enumerate() {
        *fee = order_fee(tariff, count, words, order);
    }
}
