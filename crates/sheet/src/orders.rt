// The orders of a sheet, three words each, and their checks, refusals 5 to 8.
ghost use Rattle.std.specs.Prelude.{◌≡◌, Ok, not, ◌+◌, ◌≤◌, length};
ghost use Rattle.rules.specs.Sheet.{order_kinds, terms_allowed, quantity_allowed, ignored_allowed, side_of, terms_of, order_from};
ghost use Rattle.rules.specs.Limits.{no_order};
ghost use Rattle.sheet.specs.Reading.{ReadsAs};
ghost use Rattle.sheet.specs.Steps.{order_words_at, OrderCheckedAs, OrderReadsAs, HeadingReadsAs};

use rules::{
    Heading, Order, OrderFault, Pieces, Price, Refusal, Sheet, Side, Terms, Word, on_grid,
};
use words::Kind;
use words::cursor::Cursor;

// The three words of an order, and the place after them.
#[derive(Clone, Copy)]
pub(crate) struct OrderWords {
    pub first: Word,
    pub second: Word,
    pub third: Word,
    pub next: Cursor,
}

fn read_order_words(words: &[u32], cursor: Cursor) -> OrderWords
    requires { cursor.at + 3 ≤ length words.now }
    ensures { result ≡ order_words_at words.now cursor.at }
{
    let first = cursor.step(words);
    let second = first.next.step(words);
    let third = second.next.step(words);
    OrderWords {
        first: first.word,
        second: second.word,
        third: third.word,
        next: third.next,
    }
}

// Refusal 5: a wrong kind in the order's three words.
fn wrong_kinds(three: OrderWords) -> bool
    ensures { result ≡ not (order_kinds three.first three.second three.third) }
{
    !(((three.first.kind == Kind::Buy as u32) | (three.first.kind == Kind::Sell as u32))
        & (three.second.kind == Kind::Quantity as u32)
        & (three.third.kind == Kind::Ignored as u32))
}

// Refusal 6, by clause 3.7. The disposition is a number, as the row judges any.
fn wrong_terms(disposition: u32, limit: u32) -> bool
    ensures { result ≡ not (terms_allowed disposition limit) }
{
    !((disposition <= 2) & (((limit == 0) & !(disposition == 2)) | on_grid(limit)))
}

// Refusal 7, by clause 3.8.
fn wrong_quantity(quantity: u32) -> bool
    ensures { result ≡ not (quantity_allowed quantity) }
{
    !((1 <= quantity) & (quantity <= 1000000))
}

// Refusal 8, by clause 3.9.
fn wrong_ignored(disposition: u32, ignored: u32) -> bool
    ensures { result ≡ not (ignored_allowed disposition ignored) }
{
    !((ignored <= 1000000) & ((ignored == 0) | (disposition == 2)))
}

// The checks of an order, downwards.
fn check_order(three: OrderWords) -> Result<(), OrderFault>
    ensures { OrderCheckedAs three result }
{
    let limit = three.first.value % 0x100_0000;
    let disposition = three.first.value / 0x100_0000;
    let kinds = wrong_kinds(three);
    let terms = wrong_terms(disposition, limit);
    let quantity = wrong_quantity(three.second.value);
    let ignored = wrong_ignored(disposition, three.third.value);
    if kinds {
        return Err(OrderFault::Kind);
    }
    if terms {
        return Err(OrderFault::Terms);
    }
    if quantity {
        return Err(OrderFault::Quantity);
    }
    if ignored {
        return Err(OrderFault::Ignored);
    }
    Ok(())
}

fn side_of(kind: u32) -> Side
    ensures { result ≡ side_of kind }
{
    if kind == Kind::Buy as u32 {
        Side::Buy
    } else {
        Side::Sell
    }
}

fn terms_of(disposition: u32, limit: u32, ignored: u32) -> Terms
    ensures { result ≡ terms_of disposition limit ignored }
{
    if disposition == 2 {
        return Terms::Stepper {
            limit: Price(limit),
            ignored: Pieces(ignored),
        };
    }
    let all_or_none = disposition == 1;
    if limit == 0 {
        Terms::WithoutLimit { all_or_none }
    } else {
        Terms::Limited {
            limit: Price(limit),
            all_or_none,
        }
    }
}

fn order_from(three: OrderWords) -> Order
    ensures { result ≡ order_from three.first three.second three.third }
{
    let limit = three.first.value % 0x100_0000;
    let disposition = three.first.value / 0x100_0000;
    let side = side_of(three.first.kind);
    let terms = terms_of(disposition, limit, three.third.value);
    Order {
        side,
        terms,
        quantity: Pieces(three.second.value),
    }
}

// Reads the order at a place, and hands on the place after it.
fn read_order(words: &[u32], cursor: Cursor) -> Result<(Order, Cursor), OrderFault>
    requires { cursor.at + 3 ≤ length words.now }
    ensures { OrderReadsAs words.now cursor.at result }
{
    let three = read_order_words(words, cursor);
    check_order(three)?;
    Ok((order_from(three), three.next))
}

// What a place holds that has no order.
fn no_order() -> Order
    ensures { result ≡ no_order }
{
    Order {
        side: Side::Buy,
        terms: Terms::WithoutLimit { all_or_none: false },
        quantity: Pieces(0),
    }
}

// Reads the orders that follow a heading, lowest number first.
pub(crate) fn read_orders(words: &[u32], heading: Heading, start: Cursor) -> Result<Sheet, Refusal>
    requires { HeadingReadsAs words.now (Ok (heading, start)) }
    ensures { ReadsAs words.now result }
{
    let mut orders = [no_order(); 120];
    let mut cursor = start;
    for i in 0..heading.count {
        match read_order(words, cursor) {
            Ok((order, next)) => {
                orders[i] = order;
                cursor = next;
            }
            Err(fault) => return Err(Refusal::Order(fault, i)),
        }
    }
    Ok(Sheet { heading, orders })
}
