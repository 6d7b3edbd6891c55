// Clauses 11.7–11.10: what is said of a stored result. Each function asks for room for the longest text that it may
// put, in which each number has 20 figures.
ghost use Rattle.std.specs.Prelude.{List, ◌≡◌, ℕ, ◌+◌, ◌*◌, ◌/◌, ◌≤◌, ◌<◌, length};
ghost use Rattle.pages.specs.Steps.{told, line_from, fills_in, round_from};
ghost use Rattle.rules.specs.Lists.{joined_to};
ghost use Rattle.rules.specs.Pages.{price_text, purchase_text, situation_means, trades, order_line, summary_text, ending_means, head_text, opened_text, different_text, no_listing};
ghost use Rattle.rules.specs.Result.{rounds_for, word_place_for};
ghost use Rattle.rules.specs.Words.{word_at};
ghost use Rattle.sheet.specs.Reading.{AcceptedAs};
ghost use Rattle.text.specs.Writing.{HasRoom, Puts};

use rules::{Heading, Order, Price, Sheet, Side, Summary};
use stored::rounds::{fills_at, page_at, rounds_in};
use text::writer::Writer;
use words::word_of;

// A price, in tens of hellers and in crowns.
fn price(p: Price, out: &mut Writer<'_>)
    requires { HasRoom 80 out.old }
    ensures { Puts 80 (price_text p.0) out.old out.new }
{
    let tens = u64::from(p.0);
    out.number(tens);
    out.put(b", or ");
    out.number(tens / 10);
    out.put(b".");
    out.number(tens % 10);
    out.put(b"0 crowns.\n");
}

// The purchase price, or that there is none.
fn purchase(p: Price, out: &mut Writer<'_>)
    requires { HasRoom 100 out.old }
    ensures { Puts 100 (purchase_text p.0) out.old out.new }
{
    out.put(b"Purchase price: ");
    if p.0 == 0 {
        out.put(b"none.\n");
    } else {
        price(p, out);
    }
}

// What a situation is, by its number: `situation_means` speaks of any number that a stored word says.
fn situation(s: u32, out: &mut Writer<'_>)
    requires { HasRoom 60 out.old }
    ensures { Puts 60 (situation_means s) out.old out.new }
{
    match s {
        0 => out.put(b": demand and supply meet at some price.\n"),
        1 => out.put(b": the band has supply alone.\n"),
        2 => out.put(b": the band has demand alone.\n"),
        3 => out.put(b": the band has demand and supply, but at no price both.\n"),
        _ => out.put(b": the band has neither demand nor supply.\n"),
    }
}

// What an ending is, by its number: `ending_means` likewise.
fn ending(e: u32, out: &mut Writer<'_>)
    requires { HasRoom 90 out.old }
    ensures { Puts 90 (ending_means e) out.old out.new }
{
    match e {
        0 => out.put(b": in the last round demand and supply met at no price.\n"),
        1 => out.put(
            b": blocked. The last auction price was in the band, and nothing could be handed out.\n",
        ),
        _ => out.put(b": waiting begins. The last auction price was outside the band.\n"),
    }
}

// Number, situation, prices and total of a round.
fn summary(r: usize, said: Summary, out: &mut Writer<'_>)
    requires { HasRoom 400 out.old }
    ensures { Puts 400 (summary_text r (told said)) out.old out.new }
{
    out.put(b"\nRound ");
    out.number(r as u64);
    out.put(b"\nSituation ");
    out.number(u64::from(said.situation));
    situation(said.situation, out);
    out.put(b"Auction price: ");
    price(said.price, out);
    purchase(said.purchase, out);
    out.put(b"Total: ");
    out.number(u64::from(said.total.0));
    out.put(b".\n");
}

// What an order of a side does.
fn trade(side: Side, out: &mut Writer<'_>)
    requires { HasRoom 7 out.old }
    ensures { Puts 7 (trades side) out.old out.new }
{
    match side {
        Side::Buy => out.put(b" buys "),
        Side::Sell => out.put(b" sells "),
    }
}

// The line of an order by its number, where it gets pieces.
fn order(k: usize, side: Side, pieces: u32, out: &mut Writer<'_>)
    requires { HasRoom 60 out.old }
    ensures { Puts 60 (order_line k side pieces) out.old out.new }
{
    if pieces != 0 {
        out.put(b"Order ");
        out.number(k as u64);
        trade(side, out);
        out.number(u64::from(pieces));
        out.put(b".\n");
    }
}

// The lines of the orders in a round, from its fill words.
fn order_lines(orders: &[Order; 120], fills: &[u32], out: &mut Writer<'_>)
    requires { (length fills.now ≤ 120) × HasRoom (60 * length fills.now) out.old }
    ensures { Puts (60 * length fills.now) (joined_to (line_from orders.now (fills_in fills.now)) (length fills.now)) out.old out.new }
{
    for (k, fill) in fills.iter().enumerate() {
        order(k, orders[k].side, word_of(*fill).value, out);
    }
}

// A round of a result that opens beside a sheet of n orders: its page and, behind that, its orders. 7,600 bytes hold
// 400 for the page and 60 for each of 120 orders. A round that is there is not refused.
fn round(sheet: &Sheet, stored: &[u32], r: usize, out: &mut Writer<'_>)
    requires { (r < rounds_for sheet.now.heading.count stored.now) × (sheet.now.heading.count ≤ 120) × HasRoom 7600 out.old }
    ensures { Puts 7600 (round_from sheet.now.heading.count sheet.now.orders stored.now r) out.old out.new }
{
    let n = sheet.heading.count;
    summary(r, page_at(stored, n, r).unwrap(), out);
    order_lines(&sheet.orders, fills_at(stored, n, r), out);
}

// All rounds of such a result.
fn rounds(sheet: &Sheet, stored: &[u32], out: &mut Writer<'_>)
    requires { (sheet.now.heading.count ≤ 120) × HasRoom (7600 * rounds_for sheet.now.heading.count stored.now) out.old }
    ensures { Puts (7600 * rounds_for sheet.now.heading.count stored.now) (joined_to (round_from sheet.now.heading.count sheet.now.orders stored.now) (rounds_for sheet.now.heading.count stored.now)) out.old out.new }
{
    for r in 0..rounds_in(stored, sheet.heading.count) {
        round(sheet, stored, r, out);
    }
}

// The ending, which the last word says above its lower 16 bits.
fn ending_in(stored: &[u32], n: usize) -> u32
    requires { (n ≤ 120) × (rounds_for n stored.now * (n + 4) < length stored.now) }
    ensures { result ≡ (word_at stored.now (word_place_for n (rounds_for n stored.now) 0)).value / 65536 }
{
    let last = rounds_in(stored, n) * (n + 4);
    word_of(stored[last]).value / 65536
}

// Before the rounds: how many there are, and of how many orders; and the band.
fn head(heading: Heading, count: usize, out: &mut Writer<'_>)
    requires { HasRoom 400 out.old }
    ensures { Puts 400 (head_text heading count) out.old out.new }
{
    out.put(b"The stored words are those that the opening of this sheet writes.\nOrders: ");
    out.number(heading.count as u64);
    out.put(b". Rounds: ");
    out.number(count as u64);
    out.put(b". Both are numbered from 0.\nPrices count tens of hellers, and the band is from ");
    out.number(u64::from(heading.lower.0));
    out.put(b" to ");
    out.number(u64::from(heading.upper.0));
    out.put(
        b".\nTotals, and what an order buys or sells, are pieces; an order that gets none in a round has no line there.\n",
    );
}

// The text of a stored result that opens beside its sheet. What is promised is promised of every sheet that reads so.
// 930,000 bytes hold 7,600 for each of 121 rounds, and what stands around them.
pub(crate) fn write_opened(sheet: &Sheet, stored: &[u32], out: &mut Writer<'_>)
    requires in_bounds { HasRoom 930000 out.old × (sheet.now.heading.count ≤ 120) }
    requires stored_bound { (rounds_for sheet.now.heading.count stored.now ≤ 121) × (rounds_for sheet.now.heading.count stored.now * (sheet.now.heading.count + 4) < length stored.now) }
    ensures { (ws : List ℕ) → AcceptedAs ws sheet.now → Puts 930000 (opened_text ws stored.now) out.old out.new }
{
    let n = sheet.heading.count;
    let ended = ending_in(stored, n);
    head(sheet.heading, rounds_in(stored, n), out);
    rounds(sheet, stored, out);
    out.put(b"\nEnding ");
    out.number(u64::from(ended));
    ending(ended, out);
}

// The text of a stored result whose first difference is at this word.
pub(crate) fn write_different(place: usize, out: &mut Writer<'_>)
    requires { (place ≤ 15005) × HasRoom 300 out.old }
    ensures { Puts 300 (different_text place) out.old out.new }
{
    out.put(
        b"The stored words are not those that the opening of this sheet writes by the rules of this edition.\nThe first difference is at word ",
    );
    out.number(place as u64);
    out.put(b", counted from 0: line ");
    out.number((place + 1) as u64);
    out.put(b" of the result, or its end.\n");
}

// The text for a result that is not as it is printed.
pub(crate) fn write_no_listing(out: &mut Writer<'_>)
    requires { HasRoom 200 out.old }
    ensures { Puts 200 no_listing out.old out.new }
{
    out.put(
        b"The result is not as the opening program prints one: lines of eight digits, 0 to 9 or a to f, each ended by a newline, at most 15005.\n",
    );
}
